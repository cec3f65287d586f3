// The clause reader's core, on a rule file and a cursor in it.
ghost use Rattle.std.specs.Prelude.{◌≡◌};
ghost use Rattle.clause_reader.specs.Cursor.{start_file, given_at, clause_file, advance_file, clause_bytes};

use answer::Refusal;
use rule_file::read;
use words::{part, word};

// A place in a file: the word where the next clause stands, its number, and how many clauses the file has.
#[derive(Clone, Copy, Debug, PartialEq, Eq)]
pub struct Place {
    pub word: usize,
    pub number: usize,
    pub clauses: usize,
}

// A clause: its number, the word where its literals begin, how many they are, and the place after it.
#[derive(Clone, Copy, Debug, PartialEq, Eq)]
pub struct Clause {
    pub number: usize,
    pub start: usize,
    pub length: usize,
    pub next: Place,
}

// The cursor at clause 0 of an accepted file; the refusal of another.
pub(crate) fn start(rule: &[u8]) -> Result<Place, Refusal>
    ensures answer { result ≡ start_file rule.now }
{
    let header = read(rule)?;
    Ok(Place {
        word: 0,
        number: 0,
        clauses: header.clauses,
    })
}

// The clause at a place, whatever the place is: a clause that would leave the file is not given.
#[tactic(auto, unfolding(crate::specs::Cursor::given_at))]
fn given_at(rule: &[u8], place: Place) -> Option<Clause>
    ensures { result ≡ given_at rule.now place }
{
    let at = place.word;
    let count = rule.len() / 4;
    if place.clauses <= place.number || count <= at {
        return None;
    }
    let length = word(rule, at);
    let after = at + 1 + length;
    if count < after {
        return None;
    }
    Some(Clause {
        number: place.number,
        start: at + 1,
        length,
        next: Place {
            word: after,
            number: place.number + 1,
            clauses: place.clauses,
        },
    })
}

// The clause at a cursor, if one is left.
pub(crate) fn clause_at(
    rule: &[u8],
    cursor: Result<Place, Refusal>,
) -> Result<Option<Clause>, Refusal>
    ensures answer { result ≡ clause_file rule.now cursor }
{
    let place = cursor?;
    Ok(given_at(rule, place))
}

// The cursor `count` clauses on. It does not move where none is left.
#[tactic(auto, using(crate::proofs::CursorLaws::advance_steps))]
pub(crate) fn advanced(
    rule: &[u8],
    cursor: Result<Place, Refusal>,
    count: usize,
) -> Result<Place, Refusal>
    ensures answer { result ≡ advance_file rule.now count cursor }
{
    let mut at = cursor;
    for _ in 0..count {
        let Ok(Some(clause)) = clause_at(rule, at) else {
            return at;
        };
        at = Ok(clause.next);
    }
    at
}

// The literals of the clause at a cursor; empty where none is given.
pub(crate) fn literals_at(rule: &[u8], cursor: Result<Place, Refusal>) -> &[u8]
    ensures answer { result.now ≡ clause_bytes rule.now (clause_file rule.now cursor) }
{
    match clause_at(rule, cursor) {
        Ok(Some(clause)) => part(rule, clause.start, clause.length),
        _ => &[],
    }
}
