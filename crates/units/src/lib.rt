// Plotter units: a coordinate as the nearest whole number, halves away from zero, and finished points in whole units.
#![tactic(auto)]

mod columns;
mod coordinate;

pub use columns::whole_points;
pub use coordinate::whole;
