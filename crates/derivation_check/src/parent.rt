// What a reference names: a clause of the rule file or a line of the derivation.
ghost use Rattle.std.specs.Prelude.{◌≡◌, true, ◌/◌, ◌%◌, ◌<◌};
ghost use Rattle.bit_set.specs.BitSet.{mask};
ghost use Rattle.rule_file.specs.RuleFile.{clause_count};
ghost use Rattle.derivation.specs.DerivationFile.{line_count};
ghost use Rattle.derivation_check.specs.Parent.{is_named, referent_literals, referent_part, referent_value, Masks, Located};

use crate::files::Files;
use crate::parts::{clause_literals, line_literals, line_value};
use crate::starts::{REFERENCES, StartTable};
use clause_words::clause_mask;

// The literals of the clause or line that a reference names, as a part of the file that holds them. Document 01 names
// this form: both files come in, and a slice of one of them goes out.
#[tactic(auto, using(crate::proofs::ParentLaws::reference_steps))]
pub(crate) fn parent<'a>(
    rule: &'a [u8],
    derivation: &'a [u8],
    starts: &StartTable,
    reference: usize,
) -> &'a [u8]
    requires located { Located rule.now derivation.now starts.now.words }
    requires reference_value { is_named (clause_count rule.now) (line_count derivation.now) reference ≡ true }
    ensures result_value { result.now ≡ referent_part rule.now derivation.now reference }
{
    let i = starts.start_of(reference);
    if reference % 2 == 0 {
        clause_literals(rule, i)
    } else {
        line_literals(derivation, i)
    }
}

impl Files<'_> {
    // Whether a reference names a clause of the rule file or one of the first `lines` lines.
    #[tactic(auto, unfolding(crate::specs::Parent::is_named))]
    pub(crate) fn is_named(&self, reference: usize, lines: usize) -> bool
        ensures { result ≡ is_named self.now.rule.header.clauses lines reference }
    {
        if reference % 2 == 0 {
            reference / 2 < self.rule.header.clauses
        } else {
            reference / 2 < lines
        }
    }

    // The set of the literals of what a reference names.
    #[tactic(auto, using(crate::proofs::ParentLaws::reference_steps))]
    fn parent_mask(&self, reference: usize) -> u64
        requires { is_named (clause_count self.now.rule.bytes.now) (line_count self.now.derivation.now) reference ≡ true }
        ensures { result ≡ mask (referent_literals self.now.rule.bytes.now self.now.derivation.now reference) }
    {
        let c = parent(self.rule.bytes, self.derivation, self.starts, reference);
        clause_mask(c, 0, c.len() / 4, self.rule.header.variables)
    }

    // Keeps the sets of the literals of all clauses and of all lines, each at its reference.
    #[tactic(auto, using(crate::proofs::ParentLaws::reference_steps))]
    pub(crate) fn keep_masks(&self, masks: &mut [u64; REFERENCES])
        ensures { Masks self.now.rule.bytes.now self.now.derivation.now masks.new }
    {
        for reference in 0..2 * self.rule.header.clauses.max(self.lines) {
            if self.is_named(reference, self.lines) {
                masks[reference] = self.parent_mask(reference);
            }
        }
    }

    // The value of the clause or line that a reference names: 0 for a clause of the rule file.
    #[tactic(auto, using(crate::proofs::ParentLaws::reference_steps))]
    pub(crate) fn parent_value(&self, reference: usize) -> u64
        requires { reference % 2 ≡ 1 → reference / 2 < line_count self.now.derivation.now }
        ensures { result ≡ referent_value self.now.derivation.now reference }
    {
        if reference % 2 == 0 {
            return 0;
        }
        line_value(self.derivation, self.starts.start_of(reference))
    }
}
