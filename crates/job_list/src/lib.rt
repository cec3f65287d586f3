// The job list: its lines, and the file name and the two limits that a line gives.
#![tactic(auto)]

ghost use Rattle.std.specs.Prelude.{◌≡◌, ◌+◌, ◌≤◌, length};
ghost use Rattle.std.proofs.Math.Seq.{slice};
ghost use Rattle.job_list.specs.Find.{index_of};
ghost use Rattle.job_list.specs.JobList.{max_list_bytes, list_lines, list_line_at, limit_of, is_name, job_of, parsed, list_file};

use answer::Refusal;

// The longest list, in bytes and in lines; specs/JobList.antt has the same.
pub const MAX_LIST_BYTES: usize = 65536;

const MAX_LIST_LINES: usize = 4096;

const LINE_FEED: u8 = b'\n';

const BLANK: u8 = b' ';

// What a line gives: the file name, with which it begins, and the two limits.
#[derive(Clone, Copy)]
pub struct Job<'a> {
    pub name: &'a [u8],
    pub lower: u64,
    pub upper: u64,
}

// The index of the first `byte` from `from` on and before `to`; `to` where there is none.
fn find(list: &[u8], from: usize, to: usize, byte: u8) -> usize
    requires from_to { from ≤ to }
    requires to_length { to ≤ length list.now }
    ensures value { result ≡ from + index_of byte (slice from to list.now) }
    ensures bound { result ≤ to }
{
    for at in from..to {
        if list[at] == byte {
            return at;
        }
    }
    to
}

// The line that begins at index `at`, without the byte that closes it; empty where the list ends before.
#[tactic(auto, using(crate::proofs::SplitLaws::line_found, crate::proofs::SplitLaws::line_over))]
pub fn line_at(list: &[u8], at: usize) -> &[u8]
    ensures result_value { result.now ≡ list_line_at list.now at }
{
    let end = list.len();
    if end < at {
        return &[];
    }
    let to = find(list, at, end, LINE_FEED);
    &list[at..to]
}

// How many lines the list has. A turn goes on by a line, so the index is no range's.
fn count_lines(list: &[u8]) -> usize
    requires { length list.now ≤ max_list_bytes }
    ensures value { result ≡ length (list_lines list.now) }
{
    let end = list.len();
    let mut count = 0;
    let mut at = 0;
    while at < end {
        at = find(list, at, end, LINE_FEED) + 1;
        count += 1;
    }
    count
}

// The number of the list's lines; refused with too many bytes or lines.
#[tactic(auto, unfolding(crate::specs::JobList::list_file))]
pub fn read_list(list: &[u8]) -> Result<usize, Refusal>
    ensures answer { result ≡ list_file list.now }
{
    if MAX_LIST_BYTES < list.len() {
        return Err(Refusal::ListTooLong);
    }
    let count = count_lines(list);
    if MAX_LIST_LINES < count {
        return Err(Refusal::ListTooLong);
    }
    Ok(count)
}

// A decimal number under 2^64, with any number of leading noughts.
fn limit(part: &[u8]) -> Option<u64>
    ensures answer { result ≡ limit_of part.now }
{
    if part.is_empty() {
        return None;
    }
    let mut value: u64 = 0;
    for &byte in part {
        if byte < b'0' || b'9' < byte {
            return None;
        }
        value = value.checked_mul(10)?.checked_add((byte - b'0') as u64)?;
    }
    Some(value)
}

// Whether a part of a line is a name: not empty, and without byte 0.
fn is_name(part: &[u8]) -> bool
    ensures answer { result ≡ is_name part.now }
{
    let length = part.len();
    length != 0 && find(part, 0, length, 0) == length
}

// What a line gives, whatever its bytes are; a line of another form gives nothing.
pub fn parse(line: &[u8]) -> Option<Job<'_>>
    ensures answer { parsed result ≡ job_of line.now }
{
    let length = line.len();
    let first = find(line, 0, length, BLANK);
    if first == length {
        return None;
    }
    let second = find(line, first + 1, length, BLANK);
    if second == length {
        return None;
    }
    let name = &line[..first];
    if !is_name(name) {
        return None;
    }
    let lower = limit(&line[first + 1..second])?;
    let upper = limit(&line[second + 1..])?;
    Some(Job { name, lower, upper })
}
