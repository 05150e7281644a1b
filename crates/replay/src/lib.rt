// What the gate's programs share that replay stored lists: numbers read from a list, columns laid out as numbers and compared, and comparisons counted. No crate
// of the product uses it.
#![tactic(auto)]

mod counting;
mod numbers;
mod reading;
mod vectors;

pub use counting::Tally;
pub use numbers::{Entry, number_at, put};
pub use reading::{float, follow, letter, number};
pub use vectors::{Check, check_all};
