// Reads and writes of a lent column that are total: past the end a read gives NaN or 0, and a write does nothing.
#![tactic(auto)]

ghost use Rattle.std.specs.Prelude.{◌≡◌, get_or, set};
ghost use Rattle.columns.specs.Flags.{flag_byte_of, is_flag_of};

// the entry at i, or past the end `none`
pub fn read<T: Copy>(column: &[T], i: usize, none: T) -> T
    ensures { result ≡ get_or column.now i none }
{
    column.get(i).copied().unwrap_or(none)
}

// By a test and an index: of what `get_mut` lends the kit knows no element of the slice afterwards.
pub fn write<T: Copy>(column: &mut [T], i: usize, v: T)
    ensures { column.new ≡ set column.old i v }
{
    if i < column.len() {
        column[i] = v;
    }
}

// Not `u8::from` and `!= 0` at each caller: the rule of the flags in a lent column has its names here, and its definitions.
#[tactic(auto, unfolding(crate::specs::Flags::flag_byte_of))]
pub fn flag_byte(flag: bool) -> u8
    ensures { result ≡ flag_byte_of flag }
{
    u8::from(flag)
}

#[tactic(auto, unfolding(crate::specs::Flags::is_flag_of))]
pub fn is_flag(byte: u8) -> bool
    ensures { result ≡ is_flag_of byte }
{
    byte != 0
}
