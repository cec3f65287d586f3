// Literals as parts of the file that holds them, and values of two words.
ghost use Rattle.std.specs.Prelude.{◌≡◌, ◌+◌, ◌≤◌};
ghost use Rattle.words.specs.Words.{word, word_count, part};
ghost use Rattle.clause_words.specs.Clauses.{after_clause};
ghost use Rattle.derivation.specs.DerivationFile.{size, value_start, clause_of};

use words::{part, word};

// The literals of the clause at word i of the rule file.
pub(crate) fn clause_literals(rule: &[u8], i: usize) -> &[u8]
    requires { after_clause rule.now i ≤ word_count rule.now }
    ensures { result.now ≡ part rule.now (i + 1) (word rule.now i) }
{
    part(rule, i + 1, word(rule, i))
}

// The literals of the line at word i of the derivation.
pub(crate) fn line_literals(derivation: &[u8], i: usize) -> &[u8]
    requires { value_start derivation.now i + 2 ≤ word_count derivation.now }
    ensures { result.now ≡ part derivation.now (i + 2) (size derivation.now i) }
{
    part(derivation, i + 2, word(derivation, i + 1))
}

// The value of the line at word i of the derivation, any number of 64 bits.
#[tactic(auto, unfolding(derivation::specs::DerivationFile::value_at))]
pub(crate) fn line_value(derivation: &[u8], i: usize) -> u64
    requires { value_start derivation.now i + 2 ≤ word_count derivation.now }
    ensures { result ≡ (clause_of derivation.now i).value }
{
    let at = i + 2 + word(derivation, i + 1);
    let low = word(derivation, at);
    let high = word(derivation, at + 1);
    low as u64 + 4294967296 * (high as u64)
}
