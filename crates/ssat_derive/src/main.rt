// Reads a rule file from standard input and prints its derivation, as the bytes of a derivation file, or the refusal.
#![tactic(auto)]

use derive_report::derivation_or_refusal;
use full_read::read_full;
use limits::MAX_BYTES;
use std::io;

fn main(rt: HostRuntime) -> io::Result<()> {
    // One byte more than a rule file may have, so that a longer input is refused, however it arrives.
    let mut input = [0; MAX_BYTES + 1];
    let n = read_full(&mut rt.stdin(), &mut input)?;
    let mut out = [0; MAX_BYTES];
    let length = derivation_or_refusal(&input[..n], &mut out);
    rt.write_all(&out[..length])
}
