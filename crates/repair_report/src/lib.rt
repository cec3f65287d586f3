// What the program ssat_repair prints for a rule file, byte for byte: to standard output and to standard error.
#![tactic(auto)]

ghost use Rattle.std.specs.Prelude.{◌≡◌};
ghost use Rattle.buffer.specs.Text.{Put, Begins};
ghost use Rattle.repair_report.specs.RepairReport.{repair_output, counts_text, repair_notice};

use buffer::put_line;
use limits::MAX_BYTES;
use repair::{Repairs, repair};
use report::put_refusal;

// How many bytes go to standard output and to standard error.
#[derive(Clone, Copy)]
pub struct Printed {
    pub output: usize,
    pub notice: usize,
}

// The repaired file's length and the three counts, each on a line after its word: at most 117 bytes.
fn put_counts(counts: Repairs, notice: &mut [u8; 117]) -> usize
    ensures { Put notice.old 0 (counts_text counts) notice.new result }
{
    let bytes = put_line(notice, 0, b"bytes", &[counts.bytes as u64]);
    let clauses = put_line(notice, bytes, b"clauses", &[counts.clauses as u64]);
    let literals = put_line(notice, clauses, b"literals", &[counts.literals as u64]);
    put_line(notice, literals, b"reordered", &[counts.reordered as u64])
}

// Writes what the program prints for a rule file, whatever its bytes are: at the start of `out` the repaired file, or
// nothing, and at the start of `notice` the counts, or the refusal's line. The repair is lent `out` itself.
pub fn output_and_notice(rule: &[u8], out: &mut [u8; MAX_BYTES], notice: &mut [u8; 117]) -> Printed
    ensures output { Begins out.old (repair_output rule.now) out.new result.output }
    ensures notice { Begins notice.old (repair_notice rule.now) notice.new result.notice }
{
    match repair(rule, out) {
        Err(refusal) => Printed {
            output: 0,
            notice: put_refusal(notice, 0, refusal),
        },
        Ok(counts) => Printed {
            output: counts.bytes,
            notice: put_counts(counts, notice),
        },
    }
}
