// The first clause of a file that equals an earlier one: by chains of sets with the same hash, or pair by pair without
// a table.
#![tactic(auto)]

pub mod chains;

ghost use Rattle.std.specs.Prelude.{◌≡◌, ◌+◌, ◌≤◌};
ghost use Rattle.formula.specs.Formula.{some_of, equal};
ghost use Rattle.words.specs.Walk.{first_copy};
ghost use Rattle.words.specs.Words.{word_count, words};
ghost use Rattle.clause_words.specs.Clauses.{after_clause, clause_at, clauses_from, ClausesWithin};
ghost use Rattle.copies.specs.Copies.{InOrder};

use crate::chains::SetChains;
use clause_words::clause_mask;
use words::word;

// As many clauses are compared pair by pair sooner than tables are cleared.
const FEW: usize = 20;

// The first of `count` clauses over n variables that equals an earlier one.
pub fn first_copy(file: &[u8], n: usize, count: usize) -> Option<usize>
    requires { InOrder file.now n count }
    ensures result_value { result ≡ first_copy equal (clauses_from file.now count 0) }
{
    if count <= FEW {
        copy_by_pairs(file, count)
    } else {
        copy_by_chains(file, n, count)
    }
}

// By chains: where variables rise, equal clauses are those of equal sets.
#[tactic(auto, using(crate::proofs::NoCopyLaws::search_steps, crate::proofs::SetLaws::set_steps))]
fn copy_by_chains(file: &[u8], n: usize, count: usize) -> Option<usize>
    requires { InOrder file.now n count }
    ensures result_value { result ≡ first_copy equal (clauses_from file.now count 0) }
{
    let mut passed = SetChains::new();
    let mut i = 0;
    for j in 0..count {
        let k = word(file, i);
        let set = clause_mask(file, i + 1, k, n);
        if passed.take_in(set) {
            return Some(j);
        }
        i = i + 1 + k;
    }
    None
}

// Pair by pair, without a table.
#[tactic(auto, using(crate::proofs::NoCopyLaws::search_steps))]
pub fn copy_by_pairs(file: &[u8], count: usize) -> Option<usize>
    requires { ClausesWithin file.now count }
    ensures result_value { result ≡ first_copy equal (clauses_from file.now count 0) }
{
    let mut i = 0;
    for j in 0..count {
        if equals_earlier(file, j, i) {
            return Some(j);
        }
        i = i + 1 + word(file, i);
    }
    None
}

// Whether one of the first `count` clauses equals the one at word `other`.
#[tactic(auto, using(crate::proofs::PairLaws::search_steps))]
fn equals_earlier(file: &[u8], count: usize, other: usize) -> bool
    requires clauses_within { ClausesWithin file.now count }
    requires other_bound { after_clause file.now other ≤ word_count file.now }
    ensures { result ≡ some_of (λ c. equal c (clause_at file.now other)) (clauses_from file.now count 0) }
{
    let mut i = 0;
    for _ in 0..count {
        if clauses_equal(file, i, other) {
            return true;
        }
        i = i + 1 + word(file, i);
    }
    false
}

// Whether the clauses at words i and j have equal literals.
#[tactic(auto, using(crate::proofs::PairLaws::lengths_differ))]
fn clauses_equal(file: &[u8], i: usize, j: usize) -> bool
    requires i_bound { after_clause file.now i ≤ word_count file.now }
    requires j_bound { after_clause file.now j ≤ word_count file.now }
    ensures { result ≡ equal (clause_at file.now i) (clause_at file.now j) }
{
    let k = word(file, i);
    word(file, j) == k && words_equal(file, i + 1, j + 1, k)
}

// Whether the k words from i on are those from j on.
#[tactic(auto, using(crate::proofs::PairLaws::one_differs, crate::proofs::PairLaws::none_differs))]
fn words_equal(file: &[u8], i: usize, j: usize, k: usize) -> bool
    requires k_bound { i + k ≤ word_count file.now }
    requires k_bound_2 { j + k ≤ word_count file.now }
    ensures { result ≡ equal (words file.now i k) (words file.now j k) }
{
    for t in 0..k {
        if word(file, i + t) != word(file, j + t) {
            return false;
        }
    }
    true
}
