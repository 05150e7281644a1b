// The static library for C and Rust: each function of abi under its own name, by C's calling convention and with its contract. In C a slice is a pointer and a
// length; bindings/kermezhul.h declares them. The heads repeat abi's, since a static library has to declare
// what it exports itself; tests/settled/run holds each to abi's.
#![tactic(auto)]

mod drawing;
mod flattening;
mod leaf;
mod plotting;
