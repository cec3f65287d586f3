// Checks 15 and 16, over the lines, and where a line stands.
ghost use Rattle.std.specs.Prelude.{◌≡◌, ◌+◌, ◌^◌, ◌≤◌, ◌<◌, None};
ghost use Rattle.limits.specs.Limits.{max_lines};
ghost use Rattle.words.specs.Walk.{first};
ghost use Rattle.words.specs.Words.{word_count};
ghost use Rattle.derivation.specs.DerivationFile.{trailer_start, after_line, lines_from, line_of};
ghost use Rattle.derivation.specs.Check.{line_fits, walk_lines, line_fails};
ghost use Rattle.derivation_check.specs.Starts.{LineStarts};

use crate::starts::StartTable;
use clause_words::ill_formed;
use words::word;

// The word after the line at word i. A literal count is any 32-bit number, and the sum is 64 bits wide.
#[tactic(auto, unfolding(derivation::specs::DerivationFile::after_line))]
pub(crate) fn after_line(derivation: &[u8], i: usize) -> usize
    requires { i + 2 ≤ word_count derivation.now }
    ensures { result ≡ after_line derivation.now i }
{
    let values = i + 2 + word(derivation, i + 1);
    if word(derivation, i) == 1 {
        values + 2
    } else {
        values + 5
    }
}

// Whether the line at word i ends before `end`, is of kind 1 or 2 and has at most n literals.
#[tactic(auto, unfolding(derivation::specs::Check::line_fits))]
fn line_fits(derivation: &[u8], n: usize, end: usize, i: usize) -> bool
    requires end_bound { end ≤ word_count derivation.now }
    requires i_le_end { i ≤ end }
    ensures { result ≡ line_fits derivation.now n end i }
{
    if end < i + 2 {
        return false;
    }
    let kind = word(derivation, i);
    (kind == 1 || kind == 2) && word(derivation, i + 1) <= n && after_line(derivation, i) <= end
}

// Check 15: the first line of the walk of `count` lines from word 0 that does not fit before `end`, or `count` where
// only the walk's end is wrong. On the way it keeps where each line begins.
#[tactic(auto, using(crate::proofs::LineSteps::walk_steps))]
pub(crate) fn walk_fault(
    derivation: &[u8],
    n: usize,
    end: usize,
    count: usize,
    starts: &mut StartTable,
) -> Option<usize>
    requires end_bound { end ≤ word_count derivation.now }
    requires end_bound_2 { end < 2 ^ 16 }
    requires count_le_max_lines { count ≤ max_lines }
    ensures result_value { result ≡ walk_lines derivation.now n end count 0 }
    ensures line_starts { result ≡ None → LineStarts derivation.now count starts.new.words }
{
    let mut i = 0;
    for line in 0..count {
        if !line_fits(derivation, n, end, i) {
            return Some(line);
        }
        starts.keep(2 * line + 1, i);
        i = after_line(derivation, i);
    }
    if i == end { None } else { Some(count) }
}

// Check 16 of one line.
#[tactic(auto, using(crate::proofs::LineSteps::line_steps))]
fn line_fails(derivation: &[u8], n: usize, i: usize) -> bool
    requires { after_line derivation.now i ≤ word_count derivation.now }
    ensures { result ≡ line_fails n (line_of derivation.now i) }
{
    ill_formed(derivation, i + 2, word(derivation, i + 1), n)
}

// Check 16: the first line with a literal of 2n or more or with variables that do not rise.
#[tactic(auto, using(crate::proofs::LineSteps::literal_steps))]
pub(crate) fn literal_fault(
    derivation: &[u8],
    n: usize,
    count: usize,
    starts: &StartTable,
) -> Option<usize>
    requires count_value { walk_lines derivation.now n (trailer_start derivation.now) count 0 ≡ None }
    requires count_le_max_lines { count ≤ max_lines }
    requires line_starts { LineStarts derivation.now count starts.now.words }
    ensures result_value { result ≡ first (line_fails n) (lines_from derivation.now count 0) }
{
    for line in 0..count {
        if line_fails(derivation, n, starts.start_of(2 * line + 1)) {
            return Some(line);
        }
    }
    None
}
