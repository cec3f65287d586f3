// The text that the program ssat_tally prints for a tally, byte for byte.
#![tactic(auto)]

ghost use Rattle.buffer.specs.Text.{Begins};
ghost use Rattle.tally_report.specs.TallyReport.{tally_text};

use buffer::put_line;
use tally::Tally;

// Writes the five counts at the start of `out`, each on a line after its word, and answers the text's length: at most
// 138 bytes.
pub fn tally_text(tally: Tally, out: &mut [u8; 138]) -> usize
    ensures text { Begins out.old (tally_text tally) out.new result }
{
    let files = put_line(out, 0, b"files", &[tally.files]);
    let refused = put_line(out, files, b"refused", &[tally.refused]);
    let above = put_line(out, refused, b"above", &[tally.above]);
    let below = put_line(out, above, b"below", &[tally.below]);
    put_line(out, below, b"within", &[tally.within])
}
