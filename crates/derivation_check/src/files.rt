// What the check has in hand once a derivation has passed 13 to 16, and the tables that judging its lines reads
// besides.
ghost use Rattle.std.specs.Prelude.{◌≡◌};
ghost use Rattle.rule_file.specs.RuleFile.{variable_count, clauses, prefix};
ghost use Rattle.derivation.specs.DerivationFile.{line_count};
ghost use Rattle.derivation.specs.WellFormed.{WellFormed};
ghost use Rattle.resolution_sets.specs.Occurrences.{Occurrences};
ghost use Rattle.resolution_sets.specs.Denominators.{Denominators};
ghost use Rattle.derivation_check.specs.Starts.{Starts};
ghost use Rattle.derivation_check.specs.Parent.{Masks};

use crate::starts::{REFERENCES, StartTable};
use limits::LEVELS;
use resolution_sets::OCCURRENCES;
use rule_file::RuleFile;

// An accepted rule file and a derivation that has passed 13 to 16 over it: its bytes, how many lines it has, and where
// the clauses and the lines begin.
#[derive(Clone, Copy)]
pub(crate) struct Files<'a> {
    pub(crate) rule: RuleFile<'a>,
    pub(crate) derivation: &'a [u8],
    pub(crate) lines: usize,
    pub(crate) starts: &'a StartTable,
    ghost well_formed: { WellFormed (variable_count rule.bytes.now) derivation.now },
    ghost lines_are: { lines ≡ line_count derivation.now },
    ghost starts_are: { Starts rule.bytes.now derivation.now starts.now.words },
}

// Besides, the set of the literals of what each reference names, for each literal the clauses in which it occurs, and
// R(i) for each level i.
#[derive(Clone, Copy)]
pub(crate) struct Tables<'a> {
    pub(crate) files: Files<'a>,
    pub(crate) masks: &'a [u64; REFERENCES],
    pub(crate) occurrences: &'a [u64; OCCURRENCES],
    pub(crate) denominators: &'a [u64; LEVELS],
    ghost masks_are: { Masks files.rule.bytes.now files.derivation.now masks.now },
    ghost occurrences_are: { Occurrences (clauses files.rule.bytes.now) occurrences.now },
    ghost denominators_are: { Denominators (prefix files.rule.bytes.now) denominators.now },
}
