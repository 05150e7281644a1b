// The plan: what one primitive does to the tables, worked out on values alone. `Primitives` of path.rs.
#![tactic(auto)]

mod cubics;
mod planning;
mod quads;
mod splines;

use point::{Point, Setting, WeightedPoint};

// How many quads and splines the tables take.
#[derive(Clone, Copy)]
pub struct Capacities {
    pub quads: usize,
    pub splines: u32,
}

// What is stored, whether a contour mark waits, and the last angle.
#[derive(Clone, Copy)]
pub struct State {
    pub splines: u32,
    pub quads: usize,
    pub mark: bool,
    pub last: Option<f32>,
}

// What a primitive is planned from; `last` is the last spline. Whoever plans sets it: `Tables::push` plans with a copy of a run that has it looked up anew, as the
// definition looks it up for each primitive, so of a run lent to `push` this field is not read. The plan is worked out on values alone, and has no tables to ask.
#[derive(Clone, Copy)]
pub struct Run {
    pub setting: Setting,
    pub caps: Capacities,
    pub st: State,
    pub last: SplineRow,
}

#[derive(Clone, Copy)]
pub struct Cubic {
    pub p0: WeightedPoint,
    pub p1: WeightedPoint,
    pub p2: WeightedPoint,
    pub p3: WeightedPoint,
}

#[derive(Clone, Copy)]
pub enum Primitive {
    Contour,
    Line(WeightedPoint, WeightedPoint),
    Quad(WeightedPoint, WeightedPoint, WeightedPoint),
    // A cubic that needs over 1,024 pieces.
    Excess,
}

// By name and not as an array, since the definitions read row.x.a, and no reader has a bound to show.
#[derive(Clone, Copy)]
pub struct Three {
    pub a: f32,
    pub b: f32,
    pub c: f32,
}

// The numbers of a quad's own curve.
#[derive(Clone, Copy)]
pub struct Curve {
    pub x0: f32,
    pub dx_recip: f32,
    pub k0: f32,
    pub dk: f32,
    pub curvature: f32,
}

// A line is straight, and so is a quad that is treated as one; any other quad is round. For the knife a spline is of one kind.
#[derive(Clone, Copy, PartialEq, Eq)]
pub enum Kind {
    Straight,
    Round,
}

// What a primitive comes to, once the angles of a quad's legs are known.
#[derive(Clone, Copy)]
pub enum Shape {
    // A quad that is dropped.
    Nothing,
    Mark,
    Excess,
    Straight(Point, Point),
    Curved(WeightedPoint, WeightedPoint, WeightedPoint, f32, f32),
}

// One row of the quad table: partial_curvature is the running sum of its spline.
#[derive(Clone, Copy)]
pub struct QuadRow {
    pub x: Three,
    pub y: Three,
    pub weight: Three,
    pub x0: f32,
    pub dx_recip: f32,
    pub k0: f32,
    pub dk: f32,
    pub curvature_recip: f32,
    pub partial_curvature: f32,
    pub spline: u32,
}

// One row of the spline table: curvature is its sum; its quads are the quad_count ones from first_quad on.
#[derive(Clone, Copy)]
pub struct SplineRow {
    pub curvature: f32,
    pub p0: Point,
    pub p2: Point,
    pub contour: bool,
    pub first_quad: usize,
    pub quad_count: u32,
}

// The row that goes to spline `at`; `clears` takes the flag of the spline before it.
#[derive(Clone, Copy)]
pub struct SplineEdit {
    pub clears: bool,
    pub at: u32,
    pub row: SplineRow,
    pub next: State,
}

// What a primitive changes: the state alone, a spline, or a spline and a quad at an index.
#[derive(Clone, Copy)]
pub enum Edit {
    Keep(State),
    Extend(SplineEdit),
    Bend(SplineEdit, usize, QuadRow),
}
