// Sets in the order in which they come, and for each hash a chain of those that have it, the last one first: whether a
// set came before is looked for in its chain alone.
ghost use Rattle.std.specs.Prelude.{◌≡◌, ◌-◌, ◌<◌, [], ◌∷◌, ◌++◌, length, get_or, take};
ghost use Rattle.formula.specs.Formula.{member};
ghost use Rattle.limits.specs.Limits.{max_clauses};
ghost use Rattle.copies.specs.Chains.{max_chains, set_hash, Linked};

use limits::MAX_CLAUSES;
use std::marker::Model;

// As many as there are hashes: four for each set that there may be, so that most chains are short.
pub const CHAINS: usize = 4096;

// The sets that were taken in. A link or a head is the number after a set's place, so that 0 leads to none, in half the
// space of an Option.
#[derive(Drop)]
pub struct SetChains {
    sets: [u64; MAX_CLAUSES],
    // For each set, the last earlier one of its hash.
    links: [u16; MAX_CLAUSES],
    // For each hash, its last set.
    heads: [u16; CHAINS],
    count: usize,
}

// A clause sees the sets as a list, in the order in which they were taken in.
impl Model for SetChains {
    ghost use Rattle.std.specs.Prelude.{ℕ, List, take};
    ghost use Rattle.copies.specs.Chains.{Chained};

    ghost Value = { List ℕ };

    ghost view = { λ c. take c.count c.sets };

    ghost invariant = { λ c. Chained c.count c.sets c.links c.heads };
}

impl SetChains {
    #[tactic(auto, using(crate::proofs::ChainLaws::none_chained))]
    pub fn new() -> SetChains
        ensures { result ≡ [] }
    {
        SetChains {
            sets: [0; MAX_CLAUSES],
            links: [0; MAX_CLAUSES],
            heads: [0; CHAINS],
            count: 0,
        }
    }

    // Whether the set was taken in before; it is taken in.
    #[tactic(auto, using(crate::proofs::ChainLaws::last_covers, crate::proofs::ChainLaws::chain_more))]
    pub fn take_in(&mut self, set: u64) -> bool
        requires { length self.old < max_clauses }
        ensures value { result ≡ member set self.old }
        ensures taken { self.new ≡ self.old ++ set ∷ [] }
    {
        let h = hash(set);
        let head = self.heads[h];
        let before = is_chained(&self.sets, &self.links, usize::from(head), set);
        let place = self.count;
        self.sets[place] = set;
        self.links[place] = head;
        self.count = place + 1;
        self.heads[h] = (place + 1) as u16;
        before
    }
}

// Both halves of the set, mixed by factors that are primes of 30 and 31 bits, so that no sum passes 64.
#[tactic(auto, unfolding(crate::specs::Chains::set_hash))]
fn hash(set: u64) -> usize
    ensures value { result ≡ set_hash set }
    ensures upper_bound { result < max_chains }
{
    let mixed = set % 4294967296 * 1000000007 + set / 4294967296 * 1999999973;
    ((mixed / 1048576 + mixed / 1099511627776) % CHAINS as u64) as usize
}

// Whether the set is in its chain, which begins at place head - 1, where the last set of its hash stands; each link
// leads on in the same way.
#[tactic(auto, using(crate::proofs::ChainLaws::among_first, crate::proofs::ChainLaws::not_among_first))]
fn is_chained(sets: &[u64; MAX_CLAUSES], links: &[u16; MAX_CLAUSES], head: usize, set: u64) -> bool
    requires linked { Linked head sets.now links.now }
    requires head_value { 0 < head → set_hash (get_or sets.now (head - 1) 0) ≡ set_hash set }
    ensures { result ≡ member set (take head sets.now) }
{
    let mut next = head;
    while next != 0 {
        if sets[next - 1] == set {
            return true;
        }
        next = usize::from(links[next - 1]);
    }
    false
}
