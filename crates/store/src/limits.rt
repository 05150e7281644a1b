// The tests for answers 1 and 2, on what a call is given. A NaN is refused by both, since no comparison with it holds. By patterns: `contains` goes by way of an
// `Ordering`, which takes longer.

ghost use Rattle.std.specs.Prelude.{◌≡◌, [], ◌∷◌};
ghost use Rattle.store.specs.Drawing.{coordinate_ok_of, weight_ok_of, every, coordinates_of, weights_of};

use crate::Call;
use point::Point;

pub fn coordinate_ok(v: f32) -> bool
    ensures { result ≡ coordinate_ok_of v }
{
    matches!(v, -65536.0..=65536.0)
}

// From 1/64 to 64.
pub fn weight_ok(w: f32) -> bool
    ensures { result ≡ weight_ok_of w }
{
    matches!(w, 0.015625..=64.0)
}

#[tactic(auto, unfolding(crate::specs::Drawing::every))]
fn point_ok(p: Point) -> bool
    ensures { result ≡ every coordinate_ok_of (p.x ∷ p.y ∷ []) }
{
    coordinate_ok(p.x) & coordinate_ok(p.y)
}

impl Call {
    // An arm for each call: with one pattern for two, a point is read at once where its coordinates were just written one by one, and the processor waits.
    #[tactic(auto, unfolding(crate::specs::Drawing::every, crate::specs::Drawing::coordinates_of))]
    pub(crate) fn coordinates_ok(self) -> bool
        ensures { result ≡ every coordinate_ok_of (coordinates_of self) }
    {
        match self {
            Call::Move(p) | Call::Line(p) => point_ok(p),
            Call::Quad(p1, p2) => point_ok(p1) & point_ok(p2),
            Call::Cubic(p1, p2, p3) => point_ok(p1) & point_ok(p2) & point_ok(p3),
            Call::RatQuad(p1, p2, _) => point_ok(p1) & point_ok(p2),
            Call::RatCubic(p1, p2, p3, _, _) => point_ok(p1) & point_ok(p2) & point_ok(p3),
            Call::Build => true,
        }
    }

    #[tactic(auto, unfolding(crate::specs::Drawing::every, crate::specs::Drawing::weights_of))]
    pub(crate) fn weights_ok(self) -> bool
        ensures { result ≡ every weight_ok_of (weights_of self) }
    {
        match self {
            Call::RatQuad(_, _, w) => weight_ok(w),
            Call::RatCubic(_, _, _, w1, w2) => weight_ok(w1) & weight_ok(w2),
            _ => true,
        }
    }
}
