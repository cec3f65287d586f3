// Rule R.2's test on sets: each clause of the formula contains the opposite of some literal of c.
ghost use Rattle.std.specs.Prelude.{◌≡◌, ◌&&◌, ◌||◌, List, ℕ, ◌+◌, ◌≤◌, length};
ghost use Rattle.formula.specs.Formula.{some_of};
ghost use Rattle.bit_set.specs.BitSet.{has, mask};
ghost use Rattle.resolution.specs.Resolution.{is_blocking};
ghost use Rattle.limits.specs.Limits.{max_clauses};
ghost use Rattle.resolution_sets.specs.Occurrences.{Occurrences, opposes};

use crate::occurrence::OCCURRENCES;
use bit_set::{ALL, from, opposite};

// Those of the 64 clauses whose words stand from `words` on in the table that contain the opposite of some literal of
// c, and those of `seen`.
fn opposed(table: &[u64; OCCURRENCES], words: usize, c: u64, seen: u64) -> u64
    requires { words + 64 ≤ max_clauses }
    ensures { (x : List ℕ) → c ≡ mask x → (h : ℕ) → has result h ≡ (has seen h || some_of (opposes table.now words h) x) }
{
    let mut set = seen;
    let mut left = c;
    while left != 0 {
        let l = u64::trailing_zeros(left) as usize;
        set = set | table[words + opposite(l)];
        left = left & (left - 1);
    }
    set
}

// Those h under 64 for which each of the clauses h, 64 + h, 128 + h and 192 + h of the 256 whose words stand from
// `words` on contains the opposite of some literal of c, or is the last of the four and h is of `seen`. A literal is
// looked up once for four words.
fn opposed_in_four(table: &[u64; OCCURRENCES], words: usize, c: u64, seen: u64) -> u64
    requires { words + 256 ≤ max_clauses }
    ensures { (x : List ℕ) → c ≡ mask x → (h : ℕ) → has result h ≡ ((some_of (opposes table.now words h) x && some_of (opposes table.now (words + 64) h) x) && (some_of (opposes table.now (words + 128) h) x && (has seen h || some_of (opposes table.now (words + 192) h) x))) }
{
    let mut first: u64 = 0;
    let mut second: u64 = 0;
    let mut third: u64 = 0;
    let mut fourth = seen;
    let mut left = c;
    while left != 0 {
        let i = words + opposite(u64::trailing_zeros(left) as usize);
        first = first | table[i];
        second = second | table[i + 64];
        third = third | table[i + 128];
        fourth = fourth | table[i + 192];
        left = left & (left - 1);
    }
    (first & second) & (third & fourth)
}

// Whether each of the clauses, whose occurrences are in the table, contains the opposite of some literal of c: 256
// clauses at a time, the last ones 64 at a time, so that no range counts the steps, and those past the last one taken
// for opposed.
pub fn is_blocking(table: &[u64; OCCURRENCES], clauses: usize, c: u64) -> bool
    requires { clauses ≤ max_clauses }
    ensures by_index { (φ : List (List ℕ)) (x : List ℕ) → Occurrences φ table.now → length φ ≡ clauses → c ≡ mask x → result ≡ is_blocking φ x }
{
    let mut passed = 0;
    while passed < clauses {
        if passed + 192 < clauses {
            if opposed_in_four(table, passed, c, from(clauses - passed - 192)) != ALL {
                return false;
            }
            passed += 256;
        } else {
            if opposed(table, passed, c, from(clauses - passed)) != ALL {
                return false;
            }
            passed += 64;
        }
    }
    true
}
