// Reads a rule file from standard input and prints its repaired file to standard output, and to standard error the
// repair's counts, or the refusal.
#![tactic(auto)]

use full_read::read_full;
use limits::MAX_BYTES;
use repair_report::output_and_notice;
use std::io;

fn main(rt: HostRuntime) -> io::Result<()> {
    // One byte more than a rule file may have, so that a longer input is refused, however it arrives.
    let mut input = [0; MAX_BYTES + 1];
    let n = read_full(&mut rt.stdin(), &mut input)?;
    let mut out = [0; MAX_BYTES];
    let mut notice = [0; 117];
    let printed = output_and_notice(&input[..n], &mut out, &mut notice);
    rt.write_all(&out[..printed.output])?;
    rt.stderr().write_all(&notice[..printed.notice])
}
