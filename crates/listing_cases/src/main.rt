// Runs each listing of standard input through the library's entry, and writes what it writes. Before each listing come its number of bytes, in
// six decimal digits, and a line end, or an `s` if only 20 bytes are to be lent for the output.
#![tactic(auto)]

ghost use Rattle.std.specs.Prelude.{◌≤◌};

use std::io;
use std::io::Read;

// The number in the six digits, but no more than most.
fn number(head: &[u8; 7], most: usize) -> usize
    ensures { result ≤ most }
{
    let mut n = 0;
    for byte in &head[..6] {
        n = (n % 100_000) * 10 + usize::from(byte % 16);
    }
    n.min(most)
}

fn run(rt: &impl Print, input: &[u8], output: &mut [u8]) -> io::Result<()> {
    match listing::listing(input, output) {
        Some(m) => {
            // This is never none: no more is written than the buffer has.
            if let Some(text) = output.get(..m) {
                rt.write_all(text)?;
            }
            Ok(())
        }
        None => println!(rt; "short"),
    }
}

// The next listing; false at the end of the input.
fn next(rt: &impl Print, list: &mut impl Read) -> io::Result<bool> {
    let mut head = [0u8; 7];
    let mut input = [0u8; 16385];
    let mut output = [0u8; 14418];
    if input::read_full(list, &mut head)? < 7 {
        return Ok(false);
    }
    let n = number(&head, 16385);
    if input::read_full(list, &mut input[..n])? < n {
        return Ok(false);
    }
    if head[6] == b's' {
        run(rt, &input[..n], &mut output[..20])?;
    } else {
        run(rt, &input[..n], &mut output)?;
    }
    Ok(true)
}

fn main(rt: HostRuntime) -> io::Result<()> {
    let mut list = rt.stdin();
    for _ in 0..1000 {
        if !next(&rt, &mut list)? {
            break;
        }
    }
    Ok(())
}
