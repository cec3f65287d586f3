// What the program ssat_derive prints for a rule file, byte for byte.
#![tactic(auto)]

ghost use Rattle.std.specs.Prelude.{◌≡◌};
ghost use Rattle.buffer.specs.Text.{Begins};
ghost use Rattle.derive_report.specs.DeriveReport.{derive_text};

use derivation_writer::derive;
use limits::MAX_BYTES;
use report::put_refusal;

// Writes what the program prints for a rule file, whatever its bytes are, at the start of `out`, and answers its
// length: the derivation, or the refusal's line. The writer is lent `out` itself.
pub fn derivation_or_refusal(rule: &[u8], out: &mut [u8; MAX_BYTES]) -> usize
    ensures text { Begins out.old (derive_text rule.now) out.new result }
{
    match derive(rule, out) {
        Err(refusal) => put_refusal(out, 0, refusal),
        Ok(length) => length,
    }
}
