// Writing a number's digits in a base up to 16.

ghost use Rattle.std.specs.Prelude.{◌≡◌, ◌<◌, ◌≤◌};
ghost use Rattle.std.proofs.lemmas.List.Edits.{sets};
ghost use Rattle.text.specs.Hex.{hex_digit_of};
ghost use Rattle.text.specs.Digits.{digits_of};

use crate::fixed::put_byte;

#[tactic(auto, unfolding(crate::specs::Hex::hex_digit_of))]
fn digit(v: u8) -> u8
    requires { v < 16 }
    ensures { result ≡ hex_digit_of v }
{
    if v < 10 { b'0' + v } else { b'a' + (v - 10) }
}

// Writes the lowest digits of n from a place on, the last digit first.
pub fn put_digits<const BASE: u64>(buffer: &mut [u8], at: usize, count: usize, n: u64)
    requires some { 0 < BASE }
    requires most { BASE ≤ 16 }
    ensures { buffer.new ≡ sets buffer.old at (digits_of BASE count n) }
{
    let mut rest = n;
    for left in (0..count).rev() {
        put_byte(buffer, at, left, digit((rest % BASE) as u8));
        rest /= BASE;
    }
}
