// Matching and writing fixed byte strings.

ghost use Rattle.std.specs.Prelude.{◌≡◌, [], ◌∷◌, ◌+◌, set};
ghost use Rattle.std.proofs.lemmas.List.Edits.{sets};
ghost use Rattle.text.specs.Bytes.{stands_at};

// Whether the byte b is found i bytes after a place. The sum of the two could wrap; the greatest number is past every end.
pub fn byte_stands_at(text: &[u8], at: usize, i: usize, b: u8) -> bool
    ensures { result ≡ stands_at text.now (at + i) (b ∷ []) }
{
    let place = at.saturating_add(i);
    place < text.len() && text[place] == b
}

pub fn stands_at(text: &[u8], at: usize, fixed: &[u8]) -> bool
    ensures { result ≡ stands_at text.now at fixed.now }
{
    text.get(at..).unwrap_or_default().starts_with(fixed)
}

// Writes a byte i bytes after a place; past the end it writes nothing. What is left behind the place is the same for all bytes of a string.
pub fn put_byte(buffer: &mut [u8], at: usize, i: usize, b: u8)
    ensures { buffer.new ≡ set buffer.old (at + i) b }
{
    if i < buffer.len().saturating_sub(at) {
        buffer[at + i] = b;
    }
}

// Writes bytes from a place on, as many as the buffer has room for. Not by `copy_from_slice`: the C archive may call no memcpy.
pub fn put_bytes(buffer: &mut [u8], at: usize, bytes: &[u8])
    ensures { buffer.new ≡ sets buffer.old at bytes.now }
{
    for (i, b) in bytes.iter().enumerate() {
        put_byte(buffer, at, i, *b);
    }
}
