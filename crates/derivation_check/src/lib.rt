// Checks a derivation over a rule file, line by line, with document 01's refusals in their order.
#![tactic(auto)]

mod files;
mod judge;
mod lines;
mod parent;
mod parts;
mod starts;

ghost use Rattle.std.specs.Prelude.{◌≡◌};
ghost use Rattle.derivation.specs.Check.{check_file, check_from_13, check_from_15, check_from_17, check_from_21};
ghost use Rattle.derivation.specs.WellFormed.{RightCounts};

use crate::files::{Files, Tables};
use crate::lines::{literal_fault, walk_fault};
use crate::parent::parent;
use crate::starts::{REFERENCES, StartTable};
use answer::Refusal;
use derivation::Closing;
use limits::{DERIVATION_TRAILER, MAX_BYTES, MAX_LINES};
use resolution_sets::{OCCURRENCES, denominators, put_occurrences};
use rule_file::RuleFile;
use words::{has_wrong_length, word};

// Checks a derivation over a rule file, whatever the bytes of both are: the rule file's refusals, the derivation's, or
// the closing value, which is the figure, and the whole. The files have one lifetime, since a parent is a part of
// either of them.
#[tactic(auto, unfolding(derivation::specs::Check::check_file))]
pub fn check<'a>(rule: &'a [u8], derivation: &'a [u8]) -> Result<Closing, Refusal>
    ensures answer { result ≡ check_file rule.now derivation.now }
{
    let file = RuleFile::open(rule)?;
    check_counts(&file, derivation)
}

// 13 and on: the length and the counts.
#[tactic(auto, unfolding(derivation::specs::Check::check_from_13, derivation::specs::Check::wrong_counts, words::specs::Words::wrong_length))]
fn check_counts(file: &RuleFile<'_>, derivation: &[u8]) -> Result<Closing, Refusal>
    ensures { result ≡ check_from_13 file.now.bytes.now derivation.now }
{
    if has_wrong_length(derivation, DERIVATION_TRAILER, MAX_BYTES) {
        return Err(Refusal::DerivationLength);
    }
    let count = derivation.len() / 4;
    if word(derivation, count - 1) != count || MAX_LINES < word(derivation, count - 3) {
        return Err(Refusal::DerivationCounts);
    }
    check_structure(file, derivation)
}

// 15 and on: the walk over the lines, and their literals.
#[tactic(auto, using(crate::proofs::LineSteps::structure_steps), unfolding(derivation::specs::Check::check_from_15))]
fn check_structure(file: &RuleFile<'_>, derivation: &[u8]) -> Result<Closing, Refusal>
    requires { RightCounts derivation.now }
    ensures { result ≡ check_from_15 file.now.bytes.now derivation.now }
{
    let n = file.header.variables;
    let end = derivation.len() / 4 - 3;
    let lines = word(derivation, end);
    let mut starts = StartTable {
        words: [0; REFERENCES],
    };
    if let Some(line) = walk_fault(derivation, n, end, lines, &mut starts) {
        return Err(Refusal::LineExtent(line));
    }
    if let Some(line) = literal_fault(derivation, n, lines, &starts) {
        return Err(Refusal::LineLiterals(line));
    }
    starts.keep_clauses(file);
    check_lines(&Files {
        rule: *file,
        derivation,
        lines,
        starts: &starts,
    })
}

// 17 and on: each line, then the closing reference.
#[tactic(auto, using(crate::proofs::FilesLaws::both_files), unfolding(derivation::specs::Check::check_from_17))]
fn check_lines(files: &Files<'_>) -> Result<Closing, Refusal>
    ensures { result ≡ check_from_17 files.now.rule.bytes.now files.now.derivation.now }
{
    let mut masks: [u64; REFERENCES] = [0; REFERENCES];
    files.keep_masks(&mut masks);
    let mut occurrences: [u64; OCCURRENCES] = [0; OCCURRENCES];
    put_occurrences(&masks, 2, files.rule.header.clauses, &mut occurrences);
    let tables = Tables {
        files: *files,
        masks: &masks,
        occurrences: &occurrences,
        denominators: &denominators(&files.rule),
    };
    tables.judge_lines()?;
    check_closing(files)
}

// 21, or the value of the empty clause that the closing reference names.
#[tactic(auto, using(crate::proofs::ClosingLaws::closing_steps), unfolding(derivation::specs::Check::check_from_21))]
fn check_closing(files: &Files<'_>) -> Result<Closing, Refusal>
    ensures { result ≡ check_from_21 files.now.rule.bytes.now files.now.derivation.now }
{
    let reference = word(files.derivation, files.derivation.len() / 4 - 2);
    if !files.is_named(reference, files.lines)
        || !parent(files.rule.bytes, files.derivation, files.starts, reference).is_empty()
    {
        return Err(Refusal::WrongClosing);
    }
    Ok(Closing {
        value: files.parent_value(reference),
        whole: files.rule.header.whole,
    })
}
