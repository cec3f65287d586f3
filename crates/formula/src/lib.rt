// The status of a literal, a clause or a formula under a partial assignment. The meaning of formulas and prefixes
// is in specs/, and its laws in proofs/.
#![tactic(auto)]

#[derive(Clone, Copy)]
pub enum Status {
    // A clause all of whose literals are false, or a formula with such a clause: of a node, document 01's lost.
    Falsified,
    // Neither of the others: open.
    Undetermined,
    // A clause with a true literal, or a formula all of whose clauses have one: met.
    Satisfied,
}
