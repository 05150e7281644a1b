// The points of the walk, and the pass that writes words and points.
#![tactic(auto)]

mod step;
mod writing;

use point::WeightedPoint;
pub use writing::deliver;

// What a step reads of its quad; previous_sum is the sum of the quad before it in the same spline.
#[derive(Clone, Copy)]
pub struct StepQuad {
    pub p0: WeightedPoint,
    pub p1: WeightedPoint,
    pub p2: WeightedPoint,
    pub x0: f32,
    pub dx_recip: f32,
    pub k0: f32,
    pub dk: f32,
    pub curvature_recip: f32,
    pub previous_sum: f32,
}

// Where the next entry is written, and the quad cursor.
#[derive(Clone, Copy)]
pub struct Place {
    pub at: usize,
    pub cursor: usize,
}

// The words and the points of a walk, lent by the caller: x, y, and 1 for the end of a flagged spline.
#[derive(Drop)]
pub struct Outputs<'a> {
    pub words: &'a mut [u32],
    pub x: &'a mut [f32],
    pub y: &'a mut [f32],
    pub end: &'a mut [u8],
}
