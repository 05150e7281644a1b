// Reading and writing eight lowercase hex digits.

ghost use Rattle.std.specs.Prelude.{◌≡◌};
ghost use Rattle.std.proofs.lemmas.List.Edits.{sets};
ghost use Rattle.text.specs.Hex.{hex_value_of, digit_in, hex_of, hex_at_of};

use crate::digits::put_digits;

#[tactic(auto, unfolding(crate::specs::Hex::hex_value_of))]
fn hex_value(b: u8) -> Option<u32>
    ensures { result ≡ digit_in (hex_value_of b) }
{
    match b {
        b'0'..=b'9' => Some(u32::from(b - b'0')),
        b'a'..=b'f' => Some(u32::from(b - b'a') + 10),
        _ => None,
    }
}

// The number whose eight digits stand at a place.
pub fn hex_at(text: &[u8], at: usize) -> Option<u32>
    ensures { result ≡ hex_at_of text.now at }
{
    let digits = text.get(at..)?.first_chunk::<8>()?;
    let mut n = 0;
    for b in digits {
        n = 16 * n + hex_value(*b)?;
    }
    Some(n)
}

// Writes eight digits from a place on.
pub fn put_hex(buffer: &mut [u8], at: usize, n: u32)
    ensures { buffer.new ≡ sets buffer.old at (hex_of n) }
{
    put_digits::<16>(buffer, at, 8, u64::from(n));
}
