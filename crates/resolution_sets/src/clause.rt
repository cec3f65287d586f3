// The level of a clause, by its set of literals.
ghost use Rattle.std.specs.Prelude.{◌≡◌, List, ℕ};
ghost use Rattle.bit_set.specs.BitSet.{mask};
ghost use Rattle.resolution.specs.Resolution.{level};

// 0 if the clause whose set of literals is c is empty, else 1 + its highest variable.
#[tactic(auto, using(crate::proofs::SetLaws::level_is))]
pub fn level(c: u64) -> usize
    ensures { (x : List ℕ) → c ≡ mask x → result ≡ level x }
{
    (65 - u64::leading_zeros(c) as usize) / 2
}
