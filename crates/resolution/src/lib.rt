// S-resolution: why a line of a derivation does not follow. The rules and the check of a derivation are in specs/, and its
// soundness in proofs/.
#![tactic(auto)]

// The variants stand in the order in which they are looked for.
#[derive(Clone, Copy, Debug, PartialEq, Eq)]
pub enum Fault {
    // Of a blocking clause: some clause of the formula contains no opposite of a literal of it.
    NotBlocking,
    // Of a resolvent: the variable or a parent is not there.
    MissingParent,
    // It is not the resolvent of its parents.
    NotResolvent,
    // Of either: the value is another.
    WrongValue,
}
