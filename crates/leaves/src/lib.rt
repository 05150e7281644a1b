// Float leaves: each function equals its definition in specs/, for every f32. The library has mul_add, sqrt, ceil, abs, min, max and clamp; the rules ask for
// leaves of our own, proved over whole numbers (docs/DECISIONS.md, 37, 56), so these stay.
#![tactic(auto)]

mod cutting;
mod fused;
mod parts;
mod pattern;
mod power;
mod root;
mod sixth;
mod small;
mod whole;

pub use cutting::pieces;
pub use fused::fma;
pub use pattern::{bits, from_bits};
pub use root::sqrt;
pub use sixth::sixth_root;
pub use small::{abs, clamp, max, min, negative};
pub use whole::{ceil, whole_near, whole_up};
