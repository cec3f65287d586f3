// What the check of a derivation answers. The definition is in specs/, and that an accepted derivation closes with the
// figure in proofs/.
#![tactic(auto)]

ghost use Rattle.std.specs.Prelude.{◌≡◌};
ghost use Rattle.derivation.specs.Check.{line_refusal};

use answer::Refusal;
use resolution::Fault;

// The value of the empty clause that the derivation closes with, out of the whole.
#[derive(Clone, Copy)]
pub struct Closing {
    pub value: u64,
    pub whole: u64,
}

// The refusal of a line with a fault.
pub fn line_refusal(fault: Fault, line: usize) -> Refusal
    ensures { result ≡ line_refusal fault line }
{
    match fault {
        Fault::NotBlocking => Refusal::NotBlocking(line),
        Fault::MissingParent => Refusal::MissingParent(line),
        Fault::NotResolvent => Refusal::NotResolvent(line),
        Fault::WrongValue => Refusal::WrongValue(line),
    }
}
