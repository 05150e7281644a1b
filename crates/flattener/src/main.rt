// The program: a listing on standard input; its answer, line and points on standard output.
#![tactic(auto)]

use listing::LONGEST;
use std::io;

fn main(rt: HostRuntime) -> io::Result<()> {
    // One byte more than a listing may have, so that a longer input is noticed.
    let mut input = [0u8; LONGEST + 1];
    let mut output = [0u8; 14418];
    let n = input::read_full(&mut rt.stdin(), &mut input)?;
    // The proof of this call shows that every output fits.
    let m = listing::listing(&input[..n], &mut output).unwrap();
    rt.write_all(&output[..m])
}
