// Curvature and its inverse, and the evaluation of quads and cubics.
ghost use Rattle.std.specs.Prelude.{◌≡◌};
ghost use Rattle.std.specs.Float.Ieee.{neg};
ghost use Rattle.leaves.specs.Single.{f32};
ghost use Rattle.leaves.specs.Fma.{fma32};
ghost use Rattle.point.specs.Curve.{lerp_of, curvature_of, inv_curvature_of, quad_at_of, cubic_at_of, eval_cubic_of, eval_quad_of};

use crate::{Point, WeightedPoint};

// C of `curvature` and of `inv_curvature` in the Rust; d and b in Levien's article.
const D: f32 = 0.67;

const B: f32 = 0.39;

// 2^-100
const EXACT_QUARTER: f32 = 7.888609e-31;

// a - t * a, rounded once. That is a * (1 - t), so if 1 - t is exact a plain product gives the same, except for a zero, whose sign could differ.
fn lessened(t: f32, a: f32) -> f32
    ensures { result ≡ fma32 (neg t) a a }
{
    let rest = 1.0 - t;
    // For t from 0.5 to 1 the difference 1 - t is exact. For t below 0.5 it is exact if 1 less that difference gives t back.
    let exact = ((0.5 <= t) & (t < 1.0)) | ((0.5 <= rest) & (rest < 1.0) & (1.0 - rest == t));
    // a - a is 0 where a is finite.
    if exact & (a != 0.0) & (a - a == 0.0) {
        return a * rest;
    }
    leaves::fma(-t, a, a)
}

#[tactic(auto, unfolding(crate::specs::Curve::lerp_of))]
pub fn lerp(t: f32, a: f32, b: f32) -> f32
    ensures { result ≡ lerp_of t a b }
{
    leaves::fma(t, b, lessened(t, a))
}

// x / 4 + c, rounded once. From 2^-100 on x / 4 is exact, so the processor's product and sum give the same.
fn quarter_plus(x: f32, c: f32) -> f32
    ensures { result ≡ fma32 x (f32 0x3e80_0000) c }
{
    // x - x is 0 where x is finite.
    if (EXACT_QUARTER <= x) & (x - x == 0.0) & (c - c == 0.0) {
        return x * 0.25 + c;
    }
    leaves::fma(x, 0.25, c)
}

#[tactic(auto, unfolding(crate::specs::Curve::curvature_of))]
pub fn curvature(x: f32) -> f32
    ensures { result ≡ curvature_of x }
{
    let root = leaves::sqrt(leaves::sqrt(quarter_plus(x * x, D * D * D * D)));
    x / (1.0 - D + root)
}

#[tactic(auto, unfolding(crate::specs::Curve::inv_curvature_of))]
pub fn inv_curvature(k: f32) -> f32
    ensures { result ≡ inv_curvature_of k }
{
    let root = leaves::sqrt(quarter_plus(k * k, B * B));
    k * (1.0 - B + root)
}

// One coordinate of a quad at t. Quads and cubics keep functions of their own, here and below: one over N points would be a loop over an array of lerps that it overwrites,
// with an invariant, for the two straight lines of lerps that the definitions spell out.
#[tactic(auto, unfolding(crate::specs::Curve::quad_at_of))]
pub fn quad_at(t: f32, a: f32, b: f32, c: f32) -> f32
    ensures { result ≡ quad_at_of t a b c }
{
    lerp(t, lerp(t, a, b), lerp(t, b, c))
}

// One coordinate of a cubic at t: its two quads share the lerp in the middle.
#[tactic(auto, unfolding(crate::specs::Curve::cubic_at_of, crate::specs::Curve::quad_at_of))]
pub fn cubic_at(t: f32, a: f32, b: f32, c: f32, d: f32) -> f32
    ensures { result ≡ cubic_at_of t a b c d }
{
    let mid = lerp(t, b, c);
    let first = lerp(t, lerp(t, a, b), mid);
    let second = lerp(t, mid, lerp(t, c, d));
    lerp(t, first, second)
}

// The weight of a quad at t. Where all weights are 1 no lerp is needed: lerp(t, 1, 1) is 1 for each t from 0 to 1.
fn quad_weight(t: f32, a: f32, b: f32, c: f32) -> f32
    ensures { result ≡ quad_at_of t a b c }
{
    if (0.0 <= t) & (t <= 1.0) & (a == 1.0) & (b == 1.0) & (c == 1.0) {
        return 1.0;
    }
    quad_at(t, a, b, c)
}

// The weight of a cubic at t, in the same way.
fn cubic_weight(t: f32, a: f32, b: f32, c: f32, d: f32) -> f32
    ensures { result ≡ cubic_at_of t a b c d }
{
    if (0.0 <= t) & (t <= 1.0) & (a == 1.0) & (b == 1.0) & (c == 1.0) & (d == 1.0) {
        return 1.0;
    }
    cubic_at(t, a, b, c, d)
}

#[tactic(auto, unfolding(crate::specs::Curve::eval_cubic_of))]
pub fn eval_cubic(
    t: f32,
    p0: WeightedPoint,
    p1: WeightedPoint,
    p2: WeightedPoint,
    p3: WeightedPoint,
) -> WeightedPoint
    ensures { result ≡ eval_cubic_of t p0 p1 p2 p3 }
{
    let x = cubic_at(t, p0.point.x, p1.point.x, p2.point.x, p3.point.x);
    let y = cubic_at(t, p0.point.y, p1.point.y, p2.point.y, p3.point.y);
    let weight = cubic_weight(t, p0.weight, p1.weight, p2.weight, p3.weight);
    WeightedPoint {
        point: Point { x, y },
        weight,
    }
}

#[tactic(auto, unfolding(crate::specs::Curve::eval_quad_of))]
pub fn eval_quad(t: f32, p0: WeightedPoint, p1: WeightedPoint, p2: WeightedPoint) -> Point
    ensures { result ≡ eval_quad_of t p0 p1 p2 }
{
    let weight = quad_weight(t, p0.weight, p1.weight, p2.weight);
    let w_recip = 1.0 / weight;
    let x = quad_at(t, p0.point.x, p1.point.x, p2.point.x) * w_recip;
    let y = quad_at(t, p0.point.y, p1.point.y, p2.point.y) * w_recip;
    Point { x, y }
}
