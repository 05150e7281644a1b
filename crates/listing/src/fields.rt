// One field: key=, eight digits, a line end.

ghost use Rattle.std.specs.Prelude.{◌≡◌};
ghost use Rattle.listing.specs.Reading.{field_at_of};

// The only reader of a field.
pub fn field_at(listing: &[u8], at: usize, key: &[u8]) -> Option<f32>
    ensures { result ≡ field_at_of listing.now at key.now }
{
    let n = key.len();
    if !text::stands_at(listing, at, key) {
        return None;
    }
    if !text::byte_stands_at(listing, at, n, b'=') {
        return None;
    }
    let digits = at + n + 1;
    let bits = text::hex_at(listing, digits)?;
    if !text::byte_stands_at(listing, digits, 8, b'\n') {
        return None;
    }
    Some(leaves::from_bits(bits))
}
