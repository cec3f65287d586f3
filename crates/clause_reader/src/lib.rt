// A reader that carries a rule file along with its place in it and gives clause after clause: a thin layer over the
// functions of `cursor`, which take a slice and a cursor.
#![tactic(auto)]

pub mod cursor;

ghost use Rattle.std.specs.Prelude.{◌≡◌};
ghost use Rattle.clause_reader.specs.Cursor.{start_file, clause_file, advance_file, nth_file, clause_bytes};

pub use crate::cursor::{Clause, Place};
use crate::cursor::{advanced, clause_at, literals_at, start};
use answer::Refusal;

// A rule file and the reader's place in it, or the refusal of a file that is not accepted. `next` leaves the reader where
// it is, and so it is no `Iterator`.
#[derive(Clone, Copy, Debug)]
pub struct ClauseReader<'a> {
    pub rule: &'a [u8],
    pub cursor: Result<Place, Refusal>,
}

impl<'a> ClauseReader<'a> {
    // A reader at clause 0.
    pub fn new(rule: &'a [u8]) -> Self
        ensures answer { (result.rule ≡ rule.entry) × (result.cursor ≡ start_file rule.now) }
    {
        ClauseReader {
            rule,
            cursor: start(rule),
        }
    }

    // The clause at the reader's place, if one is left.
    pub fn next(self) -> Result<Option<Clause>, Refusal>
        ensures answer { result ≡ clause_file self.entry.rule.now self.entry.cursor }
    {
        clause_at(self.rule, self.cursor)
    }

    // The reader `count` clauses on. It does not move where none is left.
    pub fn advance(self, count: usize) -> Self
        ensures answer { (result.rule ≡ self.entry.rule) × (result.cursor ≡ advance_file self.entry.rule.now count self.entry.cursor) }
    {
        ClauseReader {
            rule: self.rule,
            cursor: advanced(self.rule, self.cursor, count),
        }
    }

    // The literals of the clause at the reader's place: a part of the file, empty where no clause is left.
    pub fn clause(self) -> &'a [u8]
        ensures answer { result.now ≡ clause_bytes self.entry.rule.now (clause_file self.entry.rule.now self.entry.cursor) }
    {
        literals_at(self.rule, self.cursor)
    }
}

// Clause j of a file: for callers that hold no reader.
pub fn nth_clause(rule: &[u8], j: usize) -> Result<Option<Clause>, Refusal>
    ensures answer { result ≡ nth_file rule.now j }
{
    ClauseReader::new(rule).advance(j).next()
}
