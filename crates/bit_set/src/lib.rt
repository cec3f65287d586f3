// Sets of numbers under 64 as the bits of one word: x is in the set where the bit 1 << x is.
#![tactic(auto)]

ghost use Rattle.std.specs.Prelude.{◌≡◌, ◌<◌};
ghost use Rattle.formula.specs.Formula.{opposite};
ghost use Rattle.bit_set.specs.BitSet.{has, including, from, alone, pairs, has_pair, paired};

// The set of all numbers under 64.
pub const ALL: u64 = 18446744073709551615;

// The set of the even numbers under 64.
pub const EVENS: u64 = 6148914691236517205;

// Whether x is in the set.
pub fn has(set: u64, x: usize) -> bool
    requires { x < 64 }
    ensures { result ≡ has set x }
{
    let one: u64 = 1;
    set & (one << x) != 0
}

// The set with x in it.
pub fn including(set: u64, x: usize) -> u64
    requires { x < 64 }
    ensures { result ≡ including set x }
{
    let one: u64 = 1;
    set | (one << x)
}

// The numbers under 64 from x on.
pub fn from(x: usize) -> u64
    ensures { result ≡ from x }
{
    if 64 <= x {
        return 0;
    }
    let one: u64 = 1;
    ALL - ((one << x) - 1)
}

// The set where it has exactly one number, and else the empty set.
pub fn alone(set: u64) -> u64
    ensures { result ≡ alone set }
{
    if set & std::num::wrapping_sub_u64(set, 1) == 0 {
        set
    } else {
        0
    }
}

// The even numbers of the set whose next one is in it too.
fn pairs(set: u64) -> u64
    ensures { result ≡ pairs set }
{
    set & (set >> 1) & EVENS
}

// Whether the set has an even number and the one after it.
pub fn has_pair(set: u64) -> bool
    ensures { result ≡ has_pair set }
{
    pairs(set) != 0
}

// The numbers of the set that are an even number and the one after it.
pub fn paired(set: u64) -> u64
    ensures { result ≡ paired set }
{
    let even = pairs(set);
    even | (even << 1)
}

// The literal of the same variable with the other sign: the other number of its pair of an even number and the next.
pub fn opposite(l: usize) -> usize
    ensures { result ≡ opposite l }
{
    l ^ 1
}
