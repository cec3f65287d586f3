// Reads a rule file from standard input and prints n, m, the whole, the figure and the cut at every level, or the
// refusal.
#![tactic(auto)]

use full_read::read_full;
use limits::MAX_BYTES;
use std::io;

fn main(rt: HostRuntime) -> io::Result<()> {
    // One byte more than a rule file may have, so that a longer input is refused, however it arrives.
    let mut input = [0; MAX_BYTES + 1];
    let n = read_full(&mut rt.stdin(), &mut input)?;
    let mut text = [0; 4096];
    let length = report::report(&input[..n], &mut text);
    rt.write_all(&text[..length])
}
