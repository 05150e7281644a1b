// Numbers from a list. A number is eight lowercase hex digits and one byte after them, so each takes nine bytes, and no line end has to be looked for. What a
// contract says holds of a reader whose bytes are known, as one over a slice; of standard input nothing is known, and tests/replay tries these functions.
ghost use Rattle.std.specs.Prelude.{◌≡◌, ◌*◌, ℕ, ◌<◌, List, IfOk, OnOk, OnErr, IfSome, Some, drop, length, slice_get};
ghost use Rattle.std.specs.Io.KnownBytes.{Consumes};
ghost use Rattle.leaves.specs.Bits.{float_of};
ghost use Rattle.replay.specs.Reading.{number_in, followed_by};

use crate::numbers::number_at;
use std::io;
use std::io::Read;

// The next number; 0 if the bytes are no number, or at the end of the list.
pub fn number<R: Read>(list: &mut R) -> io::Result<u32>
    ensures value { IfOk result (λ n. IfSome (R.remaining list.old) (λ bytes. n ≡ number_in bytes)) }
    ensures rest { OnOk result (IfSome (R.remaining list.old) (λ bytes. R.remaining list.new ≡ Some (drop 9 bytes))) }
    ensures err { OnErr result ((bs : List ℕ) × Consumes (R.remaining list.old) (R.remaining list.new) bs × (length bs < 9)) }
{
    let mut digits = [0u8; 9];
    let n = input::read_full(list, &mut digits)?;
    Ok(text::hex_at(&digits[..n], 0).unwrap_or(0))
}

// A float is its bits.
pub fn float<R: Read>(list: &mut R) -> io::Result<f32>
    ensures value { IfOk result (λ x. IfSome (R.remaining list.old) (λ bytes. x ≡ float_of (number_in bytes))) }
    ensures rest { OnOk result (IfSome (R.remaining list.old) (λ bytes. R.remaining list.new ≡ Some (drop 9 bytes))) }
    ensures err { OnErr result ((bs : List ℕ) × Consumes (R.remaining list.old) (R.remaining list.new) bs × (length bs < 9)) }
{
    Ok(leaves::from_bits(number(list)?))
}

// The letter that a line begins with, and the byte after it; none at the end.
pub fn letter<R: Read>(list: &mut R) -> io::Result<Option<u8>>
    ensures value { IfOk result (λ b. IfSome (R.remaining list.old) (λ bytes. b ≡ slice_get bytes 0)) }
    ensures rest { OnOk result (IfSome (R.remaining list.old) (λ bytes. R.remaining list.new ≡ Some (drop 2 bytes))) }
    ensures err { OnErr result ((bs : List ℕ) × Consumes (R.remaining list.old) (R.remaining list.new) bs × (length bs < 2)) }
{
    let mut start = [0u8; 2];
    let n = input::read_full(list, &mut start)?;
    Ok(start[..n].first().copied())
}

// Whether the next n numbers are those from a place on. All of them are read, even after a difference and
// past the end of `numbers`: so a place and a count, where a sub-slice would end the reading with it.
pub fn follow<R: Read>(list: &mut R, numbers: &[u32], at: usize, n: usize) -> io::Result<bool>
    ensures value { IfOk result (λ b. IfSome (R.remaining list.old) (λ bytes. b ≡ followed_by n at numbers.now bytes)) }
    ensures rest { OnOk result (IfSome (R.remaining list.old) (λ bytes. R.remaining list.new ≡ Some (drop (9 * n) bytes))) }
    ensures err { OnErr result ((bs : List ℕ) × Consumes (R.remaining list.old) (R.remaining list.new) bs × (length bs < 9 * n)) }
{
    let mut good = true;
    for i in 0..n {
        let expected = number(list)?;
        good &= number_at(numbers, at, i) == expected;
    }
    Ok(good)
}
