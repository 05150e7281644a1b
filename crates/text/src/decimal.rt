// Writing numbers in plain decimal.

ghost use Rattle.std.specs.Prelude.{◌≡◌, length};
ghost use Rattle.std.proofs.lemmas.List.Edits.{sets};
ghost use Rattle.text.specs.Decimal.{decimal_of};

use crate::digits::put_digits;
use crate::fixed::put_byte;

// How many digits a number has; zero has one. One digit is told faster by a comparison than by the logarithm.
pub fn decimal_length(n: u64) -> usize
    ensures { result ≡ length (decimal_of n) }
{
    if n < 10 {
        return 1;
    }
    n.ilog10() as usize + 1
}

// Writes the digits from a place on and gives their count. One digit needs no division.
pub fn put_decimal(buffer: &mut [u8], at: usize, n: u64) -> usize
    ensures { (result ≡ length (decimal_of n)) × (buffer.new ≡ sets buffer.old at (decimal_of n)) }
{
    if n < 10 {
        put_byte(buffer, at, 0, b'0' + n as u8);
        return 1;
    }
    let count = decimal_length(n);
    put_digits::<10>(buffer, at, count, n);
    count
}
