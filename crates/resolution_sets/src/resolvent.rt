// Rule R.3's test on sets of literals: v is the last variable of both parents, and the clause c has all their other
// literals.
ghost use Rattle.std.specs.Prelude.{◌≡◌, false, List, ℕ, ◌<◌};
ghost use Rattle.formula.specs.Formula.{unordered};
ghost use Rattle.bit_set.specs.BitSet.{mask};
ghost use Rattle.resolution.specs.Resolution.{is_resolvent};
ghost use Rattle.limits.specs.Limits.{max_variables};

// Whether the clause whose set of literals is c is the resolvent on v of the true-side parent with the set s and the
// false-side parent with the set t. Of the variables from v on, a parent has its one literal of v, which a shift shows:
// none stands twice in it. The other literals are those below. Where variables rise, a clause says no more than its
// set.
#[tactic(auto, using(crate::proofs::SetLaws::resolvent_sets))]
pub fn is_resolvent(v: usize, s: u64, t: u64, c: u64) -> bool
    requires { v < max_variables }
    ensures { (x y z : List ℕ) → s ≡ mask x → t ≡ mask y → c ≡ mask z → unordered x ≡ false → unordered y ≡ false → unordered z ≡ false → result ≡ is_resolvent v x y z }
{
    let first = 2 * v;
    let one: u64 = 1;
    s >> first == 2 && t >> first == 1 && c == (s | t) & ((one << first) - 1)
}
