// The text that the program prints for a rule file, byte for byte.
#![tactic(auto)]

ghost use Rattle.std.specs.Prelude.{◌≡◌, ◌+◌, ◌*◌, ◌≤◌, length};
ghost use Rattle.buffer.specs.Text.{Put, Begins};
ghost use Rattle.report.specs.Report.{refusal_line, cut_line, cut_lines, at_level, head_text, accepted_text, report_text};

use answer::Refusal;
use bounds::Bounds;
use buffer::put_line;
use rule_file::{Header, RuleFile};
use solver::cuts_of;

// A refusal's line, with its place where there is one: at most 50 bytes.
#[tactic(auto, unfolding(crate::specs::Report::refusal_line, buffer::specs::Text::ascii))]
pub fn put_refusal(out: &mut [u8], at: usize, refusal: Refusal) -> usize
    requires { at + 50 ≤ length out.old }
    ensures { Put out.old at (refusal_line refusal) out.new result }
{
    let number = u64::from(refusal.number());
    match refusal.place() {
        None => put_line(out, at, b"refused", &[number]),
        Some(place) => put_line(out, at, b"refused", &[number, place as u64]),
    }
}

// The line of the cut at a level: at most 88 bytes.
#[tactic(auto, unfolding(crate::specs::Report::cut_line, buffer::specs::Text::ascii))]
fn put_cut(level: usize, x: Bounds, out: &mut [u8], at: usize) -> usize
    requires { at + 88 ≤ length out.old }
    ensures put { Put out.old at (cut_line level x) out.new result }
    ensures upper_bound { result ≤ at + 88 }
{
    put_line(
        out,
        at,
        b"cut",
        &[level as u64, x.lower, x.upper, x.undetermined],
    )
}

// The lines of the cuts at the levels from 0 on.
fn put_cuts(cuts: &[Bounds], out: &mut [u8], at: usize) -> usize
    requires { at + 88 * length cuts.now ≤ length out.old }
    ensures { Put out.old at (cut_lines (at_level cuts.now) (length cuts.now)) out.new result }
{
    let mut end = at;
    for (level, &bounds) in cuts.iter().enumerate() {
        end = put_cut(level, bounds, out, end);
    }
    end
}

// The lines of n, m, the whole and the figure: at most 111 bytes.
fn put_head(header: Header, figure: u64, out: &mut [u8]) -> usize
    requires { 111 ≤ length out.old }
    ensures put { Put out.old 0 (head_text header figure) out.new result }
    ensures upper_bound { result ≤ 111 }
{
    let vars = put_line(out, 0, b"vars", &[header.variables as u64]);
    let clauses = put_line(out, vars, b"clauses", &[header.clauses as u64]);
    let whole = put_line(out, clauses, b"whole", &[header.whole]);
    put_line(out, whole, b"value", &[figure])
}

// What is printed for an accepted file: at most 3,015 bytes. The figure is the lower number at the last level.
#[tactic(auto, using(crate::proofs::ReportLaws::few_levels))]
fn put_accepted(file: &RuleFile<'_>, out: &mut [u8]) -> usize
    requires { 3015 ≤ length out.old }
    ensures { Put out.old 0 (accepted_text file.now.bytes.now) out.new result }
{
    let cuts = cuts_of(file);
    let n = file.header.variables;
    let end = put_head(file.header, cuts[n].lower, out);
    put_cuts(&cuts[..=n], out, end)
}

// Writes what the program prints for a rule file, whatever its bytes are, at the start of `out`, and answers its
// length.
#[tactic(auto, using(buffer::proofs::TextLaws::put_begins), unfolding(crate::specs::Report::report_text))]
pub fn report(rule: &[u8], out: &mut [u8; 4096]) -> usize
    ensures text { Begins out.old (report_text rule.now) out.new result }
{
    match RuleFile::open(rule) {
        Err(refusal) => put_refusal(out, 0, refusal),
        Ok(file) => put_accepted(&file, out),
    }
}
