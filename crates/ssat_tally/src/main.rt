// Reads a job list from standard input, judges each file that it names and prints the five counts of the tally, or the
// list's refusal.
#![tactic(auto)]

ghost use Rattle.std.specs.Prelude.{◌≡◌, List, ◌≤◌, length};
ghost use Rattle.std.specs.Io.{ReadsAtMost};
ghost use Rattle.buffer.specs.Text.{Begins};
ghost use Rattle.tally.specs.Tally.{begun, tally_after};
ghost use Rattle.job_list.specs.JobList.{max_list_bytes, list_lines};
ghost use Rattle.ssat_tally.specs.Results.{Content, InRoom, Contents, file_kind, line_kind, line_kinds, printed};

use full_read::read_full;
use job_list::{Job, MAX_LIST_BYTES, line_at, parse, read_list};
use limits::MAX_BYTES;
use report::put_refusal;
use solver::verdict;
use std::rt::Files;
use std::{fs, io, str};
use tally::{Kind, Tally};
use tally_report::tally_text;

// Reads the file of this name whole to the start of `room`, and closes it; how many bytes there were. What has more
// than there is room for, or gives more after its end, is not read whole. A name that is no UTF-8 opens no file.
fn read_named(rt: &impl Files, name: &[u8], room: &mut [u8]) -> io::Result<usize>
    ensures { ReadsAtMost result room.new }
{
    let Ok(name) = str::from_utf8(name) else {
        return Err(io::Error::from(io::ErrorKind::InvalidFilename));
    };
    let mut file = fs::open(rt, name)?;
    let n = read_full(&mut file, room)?;
    let mut more = [0; 1];
    if read_full(&mut file, &mut more)? != 0 {
        return Err(io::Error::from(io::ErrorKind::FileTooLarge));
    }
    Ok(n)
}

// The result of a job's file. It has room for one byte more than a rule file may have, so that a longer file is refused.
fn file_result(rt: &impl Files, job: &Job<'_>) -> Kind
    ensures { (c : Content) × (InRoom c × (result ≡ file_kind job.now.lower job.now.upper c)) }
{
    let mut room = [0; MAX_BYTES + 1];
    match read_named(rt, job.name, &mut room) {
        Ok(n) => Kind::from(verdict(&room[..n], job.lower, job.upper)),
        Err(_) => Kind::Refused,
    }
}

// The result of a line.
fn line_result(rt: &impl Files, line: &[u8]) -> Kind
    ensures { (c : Content) × (InRoom c × (result ≡ line_kind line.now c)) }
{
    match parse(line) {
        Some(job) => file_result(rt, &job),
        None => Kind::Refused,
    }
}

// The tally of the results, line after line. A turn goes on by a line, so the index is no range's.
fn tally_lines(rt: &impl Files, list: &[u8]) -> Tally
    requires { length list.now ≤ max_list_bytes }
    ensures { (cs : List Content) × (Contents (list_lines list.now) cs × (result ≡ tally_after begun (line_kinds (list_lines list.now) cs))) }
{
    let mut tally = Tally::new();
    let mut at = 0;
    while at < list.len() {
        let line = line_at(list, at);
        tally.absorb(line_result(rt, line));
        at += line.len() + 1;
    }
    tally
}

// Writes what is printed for a list at the start of `text`, and answers its length.
fn answer(rt: &impl Files, list: &[u8], text: &mut [u8; 138]) -> usize
    ensures { (cs : List Content) × (Contents (list_lines list.now) cs × Begins text.old (printed list.now cs) text.new result) }
{
    match read_list(list) {
        Ok(_) => tally_text(tally_lines(rt, list), text),
        Err(refusal) => put_refusal(text, 0, refusal),
    }
}

fn main(rt: HostRuntime) -> io::Result<()> {
    // One byte more than a list may have, so that a longer list is refused, however it arrives.
    let mut input = [0; MAX_LIST_BYTES + 1];
    let n = read_full(&mut rt.stdin(), &mut input)?;
    let mut text = [0; 138];
    let length = answer(&rt, &input[..n], &mut text);
    rt.write_all(&text[..length])
}
