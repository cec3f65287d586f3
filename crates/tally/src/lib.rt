// The tally over a list of files: five counts that take in each file's result as it comes.
#![tactic(auto)]

ghost use Rattle.std.specs.Prelude.{◌≡◌};
ghost use Rattle.tally.specs.Tally.{kind_of, begun, is_full, step};

use answer::Refusal;
use value::thresholds::Verdict;

// With any count at this or more a tally takes in nothing; specs/Tally.antt has the same.
const FULL: u64 = 4096;

// The kind of a file's result.
#[derive(Clone, Copy, Debug, PartialEq, Eq)]
pub enum Kind {
    Refused,
    Above,
    Below,
    Within,
}

// How many files there are in all, and how many of each kind.
#[repr(C)]
#[derive(Clone, Copy, Debug, PartialEq, Eq)]
pub struct Tally {
    pub files: u64,
    pub refused: u64,
    pub above: u64,
    pub below: u64,
    pub within: u64,
}

// The kind of a verdict's answer.
impl From<Result<Verdict, Refusal>> for Kind {
    ghost from_gives = { λ answer kind. kind ≡ kind_of answer };

    fn from(answer: Result<Verdict, Refusal>) -> Kind {
        match answer {
            Err(_) => Kind::Refused,
            Ok(Verdict::Above) => Kind::Above,
            Ok(Verdict::Below) => Kind::Below,
            Ok(Verdict::Within(_)) => Kind::Within,
        }
    }
}

impl Tally {
    // Five noughts.
    pub fn new() -> Tally
        ensures { result ≡ begun }
    {
        Tally {
            files: 0,
            refused: 0,
            above: 0,
            below: 0,
            within: 0,
        }
    }

    // Whether some count stands at the limit or past it.
    fn is_full(self) -> bool
        ensures { result ≡ is_full self }
    {
        (FULL <= self.files)
            | (FULL <= self.refused)
            | (FULL <= self.above)
            | (FULL <= self.below)
            | (FULL <= self.within)
    }

    // The tally with one result more: the files count moves, and the count of the result's kind.
    fn step(self, kind: Kind) -> Tally
        ensures { result ≡ step self kind }
    {
        if self.is_full() {
            return self;
        }
        let mut next = self;
        next.files += 1;
        match kind {
            Kind::Refused => next.refused += 1,
            Kind::Above => next.above += 1,
            Kind::Below => next.below += 1,
            Kind::Within => next.within += 1,
        }
        next
    }

    // Takes a result into the tally that is lent.
    pub fn absorb(&mut self, kind: Kind)
        ensures { self.new ≡ step self.old kind }
    {
        *self = self.step(kind);
    }

    // The tally with a result taken in, for callers that hold the record by value.
    pub fn absorbed(mut self, kind: Kind) -> Tally
        ensures { result ≡ step self kind }
    {
        self.absorb(kind);
        self
    }
}
