// Writing signed numbers in plain decimal: a minus sign before the digits of a number below zero, and none before a zero.

ghost use Rattle.std.specs.Prelude.{◌≡◌, length};
ghost use Rattle.std.proofs.lemmas.List.Edits.{sets};
ghost use Rattle.text.specs.Signed.{signed_of};

use crate::decimal::{decimal_length, put_decimal};
use crate::fixed::put_byte;

pub fn signed_length(n: i64) -> usize
    ensures { result ≡ length (signed_of n) }
{
    let digits = decimal_length(n.unsigned_abs());
    if n < 0 {
        return digits + 1;
    }
    digits
}

// Writes the number from a place on and gives the count of its bytes. The place after the sign could wrap, so it is made only inside the buffer.
pub fn put_signed(buffer: &mut [u8], at: usize, n: i64) -> usize
    ensures { (result ≡ length (signed_of n)) × (buffer.new ≡ sets buffer.old at (signed_of n)) }
{
    if n < 0 {
        if at >= buffer.len() {
            return signed_length(n);
        }
        put_byte(buffer, at, 0, b'-');
        let digits = put_decimal(buffer, at + 1, n.unsigned_abs());
        return digits + 1;
    }
    put_decimal(buffer, at, n.unsigned_abs())
}
