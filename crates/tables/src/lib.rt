// The quad table and the spline table on lent columns, and the run over a drawing's primitives.
#![tactic(auto)]

mod capacity;
mod commands;
mod lent;
mod rows;
mod run;

pub use lent::{QuadColumns, QuadColumnsMut, Refused, SplineColumns, SplineColumnsMut, Tables};
