// Vectors: what is given for the inputs that a list has, against what it has for them.
ghost use Rattle.std.specs.Prelude.{◌≡◌, ℕ, ◌<◌, List, IfOk, OnOk, OnErr, IfSome, Some, drop, length};
ghost use Rattle.std.specs.Io.KnownBytes.{Consumes};
ghost use Rattle.replay.specs.Reading.{number_in};
ghost use Rattle.replay.specs.Checks.{compared, first_of};

use crate::Tally;
use crate::reading::number;
use std::io;
use std::io::Read;

// What is given, what the list has for it, and whether they agree: that is more than `got == want`, since a vector of equal numbers may have another letter than
// it should (leaves_vectors).
#[derive(Clone, Copy)]
pub struct Check {
    pub got: u32,
    pub want: u32,
    pub agrees: bool,
}

impl Check {
    // Against the next number of the list.
    pub fn against<R: Read>(list: &mut R, got: u32) -> io::Result<Check>
        ensures value { IfOk result (λ c. IfSome (R.remaining list.old) (λ bytes. c ≡ compared got (number_in bytes))) }
        ensures rest { OnOk result (IfSome (R.remaining list.old) (λ bytes. R.remaining list.new ≡ Some (drop 9 bytes))) }
        ensures err { OnErr result ((bs : List ℕ) × Consumes (R.remaining list.old) (R.remaining list.new) bs × (length bs < 9)) }
    {
        let want = number(list)?;
        Ok(Check {
            got,
            want,
            agrees: got == want,
        })
    }

    // The first of two that does not agree.
    pub fn and(self, next: Check) -> Check
        ensures { result ≡ first_of self next }
    {
        if self.agrees { next } else { self }
    }
}

// Reads and checks the next `count` vectors. Writes the first that does not agree, by its number from 1, and how many agree.
pub fn check_all<P: Print, R: Read, F: Fn(&mut R) -> io::Result<Check>>(
    rt: &P,
    list: &mut R,
    name: &str,
    count: u64,
    vector: F,
) -> io::Result<()>
    requires { F.IsAlwaysCallable vector }
{
    let mut tally = Tally::default();
    for i in 0..count {
        let check = vector(list)?;
        if !check.agrees && tally.is_right() {
            println!(rt;
                "vector {} gives {:08x} where the list has {:08x}",
                i + 1,
                check.got,
                check.want
            )?;
        }
        tally.count(check.agrees);
    }
    println!(rt; "{name} {tally}")
}
