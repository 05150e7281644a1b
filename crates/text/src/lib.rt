// Fixed byte strings, hex digits and decimal digits, read and written on slices. Numbers are not printed by Display: std says which
// bytes it writes of a `String`, which needs a heap. Here they go into a lent slice, and what does not fit is dropped byte by byte, as the contracts say.
#![tactic(auto)]

mod decimal;
mod digits;
mod fixed;
mod hex;
mod signed;

pub use decimal::{decimal_length, put_decimal};
pub use fixed::{byte_stands_at, put_byte, put_bytes, stands_at};
pub use hex::{hex_at, put_hex};
pub use signed::{put_signed, signed_length};
