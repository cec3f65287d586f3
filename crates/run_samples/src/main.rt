// Runs the stored samples. Standard input is a row of records: the operation (1 read, 2 figure, 3 verdict, 4 cut, 5
// check, 6 clause reader, 7 derive, 8 job list, 9 tally, 10 read by the small reader, 11 repair, 12 marks, 13 point), a
// 32-bit word; the two limits of the verdict and of the tally, or the level of the cut, the marks or the point or the
// length of the writer's or the repair's buffer and 0, two words each; the lengths of the rule file and of the
// derivation, a word each; then the two files. A job list stands in the rule file's place, and a tally's five counts, a
// word each, or the repaired file in the derivation's. Each record is answered by a line: the refusal's number, with
// the clause, variable or line at fault where one is given, or 0 and the values. The clause reader's values are the
// length and the literals of each clause, and `none` where no clause is left. The writer's line and the repair's end in
// `right` if the record's derivation or repaired file, or nothing, is what was written. The values of a job list are
// the number of its lines, and of each line the length of the name and the limits, or `other`. A tally's line is the
// verdict's, a refusal's too, and the counts after it. A double is the number that its 64 bits are; before the marks
// stands `one` or `two`.
#![tactic(auto)]

ghost use Rattle.std.specs.Prelude.{◌<◌};
ghost use Rattle.std.specs.Io.{ReadsAtMost};

use answer::Refusal;
use clause_reader::nth_clause;
use derivation_check::check;
use derivation_writer::derive;
use full_read::read_full;
use job_list::{line_at, parse, read_list};
use limits::{MAX_BYTES, MAX_CLAUSES};
use points::Marks;
use repair::repair;
use rule_file::{Header, read, read_small};
use solver::{cut, figure, marks, point, verdict};
use std::io;
use std::io::Read;
use tally::{Kind, Tally};
use value::thresholds::Verdict;
use words::{part, word};

// Some bytes more than a file may have, so that the operations see what is too long.
const ROOM: usize = MAX_BYTES + 8;

// What each byte holds that is lent to the writer or the repair.
const BEFORE: u8 = 90;

// The operations that a record can ask for.
#[derive(Clone, Copy)]
enum Operation {
    Read,
    Figure,
    Verdict,
    Cut,
    Check,
    ReadClauses,
    Derive,
    ReadList,
    Tally,
    ReadSmall,
    Repair,
    Marks,
    Point,
}

// A number that names no operation.
#[derive(Clone, Copy)]
struct NoOperation;

impl TryFrom<usize> for Operation {
    type Error = NoOperation;

    fn try_from(number: usize) -> Result<Operation, NoOperation> {
        match number {
            1 => Ok(Operation::Read),
            2 => Ok(Operation::Figure),
            3 => Ok(Operation::Verdict),
            4 => Ok(Operation::Cut),
            5 => Ok(Operation::Check),
            6 => Ok(Operation::ReadClauses),
            7 => Ok(Operation::Derive),
            8 => Ok(Operation::ReadList),
            9 => Ok(Operation::Tally),
            10 => Ok(Operation::ReadSmall),
            11 => Ok(Operation::Repair),
            12 => Ok(Operation::Marks),
            13 => Ok(Operation::Point),
            _ => Err(NoOperation),
        }
    }
}

// A record: what is asked, two numbers that go with it, and two files.
#[derive(Clone, Copy)]
struct Question<'a> {
    operation: usize,
    a: u64,
    b: u64,
    rule: &'a [u8],
    derivation: &'a [u8],
}

// The number, and the place that it names.
fn print_refusal(rt: &impl Print, refusal: Refusal) -> io::Result<()> {
    let number = refusal.number();
    match refusal.place() {
        Some(place) => print!(rt; "{number} {place}"),
        None => print!(rt; "{number}"),
    }
}

fn print_header(rt: &impl Print, answer: Result<Header, Refusal>) -> io::Result<()> {
    match answer {
        Ok(h) => print!(rt; "0 {} {} {} {}", h.variables, h.clauses, h.prefix, h.whole),
        Err(refusal) => print_refusal(rt, refusal),
    }
}

fn print_figure(rt: &impl Print, rule: &[u8]) -> io::Result<()> {
    match figure(rule) {
        Ok(ratio) => print!(rt; "0 {} {}", ratio.figure, ratio.whole),
        Err(refusal) => print_refusal(rt, refusal),
    }
}

fn print_verdict(rt: &impl Print, answer: Result<Verdict, Refusal>) -> io::Result<()> {
    match answer {
        Ok(Verdict::Above) => print!(rt; "0 above"),
        Ok(Verdict::Below) => print!(rt; "0 below"),
        Ok(Verdict::Within(figure)) => print!(rt; "0 within {figure}"),
        Err(refusal) => print_refusal(rt, refusal),
    }
}

fn print_cut(rt: &impl Print, rule: &[u8], level: u64) -> io::Result<()> {
    match cut(rule, level) {
        Ok(x) => print!(rt; "0 {} {} {}", x.lower, x.upper, x.undetermined),
        Err(refusal) => print_refusal(rt, refusal),
    }
}

// The bits of a double; of what is no number there are none.
fn print_double(rt: &impl Print, x: f64) -> io::Result<()> {
    if x == x {
        print!(rt; " {}", f64::to_bits(x))
    } else {
        print!(rt; " nan")
    }
}

fn print_marks(rt: &impl Print, rule: &[u8], level: u64) -> io::Result<()> {
    match marks(rule, level) {
        Ok(Marks::One(mark)) => {
            print!(rt; "0 one")?;
            print_double(rt, mark)
        }
        Ok(Marks::Two(low, high)) => {
            print!(rt; "0 two")?;
            print_double(rt, low)?;
            print_double(rt, high)
        }
        Err(refusal) => print_refusal(rt, refusal),
    }
}

fn print_point(rt: &impl Print, rule: &[u8], level: u64) -> io::Result<()> {
    match point(rule, level) {
        Ok(found) => {
            print!(rt; "0")?;
            print_double(rt, found.low)?;
            print_double(rt, found.high)?;
            print_double(rt, found.open_share)
        }
        Err(refusal) => print_refusal(rt, refusal),
    }
}

fn print_check(rt: &impl Print, rule: &[u8], derivation: &[u8]) -> io::Result<()> {
    match check(rule, derivation) {
        Ok(closing) => print!(rt; "0 {} {}", closing.value, closing.whole),
        Err(refusal) => print_refusal(rt, refusal),
    }
}

fn print_literals(rt: &impl Print, clause: &[u8]) -> io::Result<()> {
    let length = clause.len() / 4;
    print!(rt; " {length}")?;
    for i in 0..length {
        print!(rt; " {}", word(clause, i))?;
    }
    Ok(())
}

// Clause after clause, and that none is left. The bound only makes the loop end: no accepted file has more clauses.
fn print_clauses(rt: &impl Print, rule: &[u8]) -> io::Result<()> {
    if let Err(refusal) = nth_clause(rule, 0) {
        return print_refusal(rt, refusal);
    }
    print!(rt; "0")?;
    for j in 0..=MAX_CLAUSES {
        match nth_clause(rule, j) {
            Ok(Some(clause)) => print_literals(rt, part(rule, clause.start, clause.length))?,
            Ok(None) => return print!(rt; " none"),
            Err(_) => return Ok(()),
        }
    }
    Ok(())
}

// Whether `room` holds these bytes at its start, and after them what it held before.
fn holds(room: &[u8], written: &[u8]) -> bool {
    if !room.starts_with(written) {
        return false;
    }
    room[written.len()..].iter().all(|&byte| byte == BEFORE)
}

// So many bytes at the start of `room`, as far as there are.
fn lent(room: &mut [u8], capacity: usize) -> &mut [u8] {
    let end = room.len().min(capacity);
    &mut room[..end]
}

// Whether the buffer holds what the record says. The bytes after those that were lent are looked at too.
fn print_holds(rt: &impl Print, room: &[u8], written: &[u8]) -> io::Result<()> {
    if holds(room, written) {
        print!(rt; " right")
    } else {
        print!(rt; " wrong")
    }
}

fn print_derivation(rt: &impl Print, asked: Question<'_>) -> io::Result<()> {
    let mut room = [BEFORE; ROOM];
    match derive(asked.rule, lent(&mut room, asked.a as usize)) {
        Ok(length) => print!(rt; "0 {length}")?,
        Err(refusal) => print_refusal(rt, refusal)?,
    }
    print_holds(rt, &room, asked.derivation)
}

fn print_repair(rt: &impl Print, asked: Question<'_>) -> io::Result<()> {
    let mut room = [BEFORE; ROOM];
    match repair(asked.rule, lent(&mut room, asked.a as usize)) {
        Ok(x) => print!(rt;
            "0 {} {} {} {}",
            x.bytes, x.clauses, x.literals, x.reordered
        )?,
        Err(refusal) => print_refusal(rt, refusal)?,
    }
    print_holds(rt, &room, asked.derivation)
}

// What a line of the list gives; the index behind it, which no list is long enough to wrap.
fn print_job(rt: &impl Print, list: &[u8], at: usize) -> io::Result<usize> {
    let line = line_at(list, at);
    match parse(line) {
        Some(job) => print!(rt; " {} {} {}", job.name.len(), job.lower, job.upper)?,
        None => print!(rt; " other")?,
    }
    Ok(at.wrapping_add(line.len()).wrapping_add(1))
}

fn print_list(rt: &impl Print, list: &[u8]) -> io::Result<()> {
    match read_list(list) {
        Ok(count) => {
            print!(rt; "0 {count}")?;
            let mut at = 0;
            for _ in 0..count {
                at = print_job(rt, list, at)?;
            }
            Ok(())
        }
        Err(refusal) => print_refusal(rt, refusal),
    }
}

// The counts in the first five words.
fn tally_in(words: &[u8]) -> Tally {
    if words.len() < 20 {
        return Tally::new();
    }
    Tally {
        files: word(words, 0) as u64,
        refused: word(words, 1) as u64,
        above: word(words, 2) as u64,
        below: word(words, 3) as u64,
        within: word(words, 4) as u64,
    }
}

fn print_tally(rt: &impl Print, asked: Question<'_>) -> io::Result<()> {
    let answer = verdict(asked.rule, asked.a, asked.b);
    print_verdict(rt, answer)?;
    let t = tally_in(asked.derivation).absorbed(Kind::from(answer));
    print!(rt;
        " {} {} {} {} {}",
        t.files, t.refused, t.above, t.below, t.within
    )
}

fn print_answer(rt: &impl Print, asked: Question<'_>) -> io::Result<()> {
    let rule = asked.rule;
    match Operation::try_from(asked.operation) {
        Ok(Operation::Read) => print_header(rt, read(rule))?,
        Ok(Operation::Figure) => print_figure(rt, rule)?,
        Ok(Operation::Verdict) => print_verdict(rt, verdict(rule, asked.a, asked.b))?,
        Ok(Operation::Cut) => print_cut(rt, rule, asked.a)?,
        Ok(Operation::Check) => print_check(rt, rule, asked.derivation)?,
        Ok(Operation::ReadClauses) => print_clauses(rt, rule)?,
        Ok(Operation::Derive) => print_derivation(rt, asked)?,
        Ok(Operation::ReadList) => print_list(rt, rule)?,
        Ok(Operation::Tally) => print_tally(rt, asked)?,
        Ok(Operation::ReadSmall) => print_header(rt, read_small(rule))?,
        Ok(Operation::Repair) => print_repair(rt, asked)?,
        Ok(Operation::Marks) => print_marks(rt, rule, asked.a)?,
        Ok(Operation::Point) => print_point(rt, rule, asked.a)?,
        Err(NoOperation) => print!(rt; "no operation")?,
    }
    print!(rt; "\n")
}

// The number in words i and i + 1 of a record.
fn long(head: &[u8; 28], i: usize) -> u64
    requires { i < 6 }
{
    word(head, i) as u64 + 4294967296 * (word(head, i + 1) as u64)
}

// Reads a file of so many bytes to the start of `room`, as far as there are bytes and room; how many there were.
fn read_file(input: &mut impl Read, length: usize, room: &mut [u8]) -> io::Result<usize>
    ensures { ReadsAtMost result room.new }
{
    if room.len() < length {
        return read_full(input, room);
    }
    read_full(input, &mut room[..length])
}

// Answers the next record; false where there is none.
fn answer_next(rt: &impl Print, input: &mut impl Read) -> io::Result<bool> {
    let mut head = [0; 28];
    if read_full(input, &mut head)? < 28 {
        return Ok(false);
    }
    let mut rule = [0; ROOM];
    let mut derivation = [0; ROOM];
    let r = read_file(input, word(&head, 5), &mut rule)?;
    let d = read_file(input, word(&head, 6), &mut derivation)?;
    let asked = Question {
        operation: word(&head, 0),
        a: long(&head, 1),
        b: long(&head, 3),
        rule: &rule[..r],
        derivation: &derivation[..d],
    };
    print_answer(rt, asked)?;
    Ok(true)
}

// The count only makes the loop end, whatever the input: no list of samples is so long.
fn main(rt: HostRuntime) -> io::Result<()> {
    let mut input = rt.stdin();
    for _ in 0..100000 {
        if !answer_next(&rt, &mut input)? {
            break;
        }
    }
    Ok(())
}
