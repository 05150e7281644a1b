// The interface for C and Rust: thin functions over the library, on numbers and slices. The crate abi_c exports each under its own name.
#![tactic(auto)]

mod drawing;
mod flattening;
mod leaf;
mod plotting;

pub use drawing::{
    kermezhul_build, kermezhul_cubic_to, kermezhul_fresh, kermezhul_line_to, kermezhul_move_to,
    kermezhul_quad_to, kermezhul_rat_cubic_to, kermezhul_rat_quad_to,
};
pub use flattening::kermezhul_flatten;
pub use leaf::{
    kermezhul_ceil, kermezhul_clamp, kermezhul_fma, kermezhul_max, kermezhul_min, kermezhul_pieces,
    kermezhul_sixth_root, kermezhul_sqrt,
};
pub use plotting::{kermezhul_plot, kermezhul_whole};
