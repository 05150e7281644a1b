// Columns laid out as numbers, one after another in one lent slice, where they are compared: a float is its bits, with one NaN.
ghost use Rattle.std.specs.Prelude.{◌≡◌, ℕ, ◌+◌, slice_index, slice_set};
ghost use Rattle.leaves.specs.Bits.{bits_of};
ghost use Rattle.replay.specs.Numbers.{laid, itself, capped_of};

use columns::{read, write};

// An entry of a column, as a number.
pub trait Entry: Copy {
    ghost number_of: { Self → ℕ };

    fn number(self) -> u32
        ensures { result ≡ number_of self };
}

impl Entry for f32 {
    ghost number_of = { bits_of };

    fn number(self) -> u32 {
        leaves::bits(self)
    }
}

impl Entry for u32 {
    ghost number_of = { itself };

    #[tactic(auto, unfolding(crate::specs::Numbers::itself))]
    fn number(self) -> u32 {
        self
    }
}

impl Entry for u8 {
    ghost number_of = { itself };

    #[tactic(auto, unfolding(crate::specs::Numbers::itself))]
    fn number(self) -> u32 {
        u32::from(self)
    }
}

// A size that does not fit is the largest number.
impl Entry for usize {
    ghost number_of = { capped_of };

    #[tactic(auto, unfolding(crate::specs::Numbers::capped_of))]
    fn number(self) -> u32 {
        u32::try_from(self).unwrap_or(u32::MAX)
    }
}

// The number i places after a place; 0 past the end. Where their sum does not fit, the largest is past the end too.
pub fn number_at(numbers: &[u32], at: usize, i: usize) -> u32
    ensures { result ≡ slice_index numbers.now (at + i) }
{
    read(numbers, at.saturating_add(i), 0)
}

fn put_number(numbers: &mut [u32], at: usize, i: usize, v: u32)
    ensures { numbers.new ≡ slice_set numbers.old (at + i) v }
{
    write(numbers, at.saturating_add(i), v);
}

// The first n entries of a column, from a place on; all of them where it has fewer. n is the room there, so it is no slice's length.
pub fn put<T: Entry>(numbers: &mut [u32], at: usize, column: &[T], n: usize)
    ensures { numbers.new ≡ laid T.number_of n at column.now numbers.old }
{
    for (i, v) in column[..n.min(column.len())].iter().enumerate() {
        put_number(numbers, at, i, v.number());
    }
}
