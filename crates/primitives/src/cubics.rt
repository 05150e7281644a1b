// A cubic is cut into pieces, each of which is a quad of weight 1: push_cubic.
ghost use Rattle.std.specs.Prelude.{◌≡◌};
ghost use Rattle.point.specs.Point.{plain};
ghost use Rattle.primitives.specs.Cubics.{bend_of, cubic_error_of, cubic_pieces_of, cubic_point_of, control_of};
ghost use Rattle.primitives.specs.declared.Primitive.TheVariants.{Quad};

use crate::{Cubic, Primitive};
use leaves::{fma, pieces};
use point::{Point, WeightedPoint, eval_cubic};

const MAX_CUBIC_ERROR_SQUARED: f32 = 1.6875;

// 3·p2 - p0 - 2·p1 of one coordinate.
#[tactic(auto, unfolding(crate::specs::Cubics::bend_of))]
fn bend(p0: f32, p1: f32, p2: f32) -> f32
    ensures { result ≡ bend_of p0 p1 p2 }
{
    fma(p2, 3.0, -p0) - fma(p1, 3.0, -p1)
}

// The control point of a piece from its ends and its middle.
fn control(start: Point, mid: Point, end: Point) -> Point
    ensures { result ≡ control_of start mid end }
{
    let x = fma(mid.x, 2.0, -0.5 * (start.x + end.x));
    let y = fma(mid.y, 2.0, -0.5 * (start.y + end.y));
    Point { x, y }
}

impl Cubic {
    // The end point is not in it; it is not in the Rust's either.
    #[tactic(auto, unfolding(crate::specs::Cubics::cubic_error_of))]
    fn error(self) -> f32
        ensures { result ≡ cubic_error_of self }
    {
        let p0 = self.p0.applied();
        let p1 = self.p1.applied();
        let p2 = self.p2.applied();
        let dx = bend(p0.x, p1.x, p2.x);
        let dy = bend(p0.y, p1.y, p2.y);
        fma(dx, dx, dy * dy)
    }

    #[tactic(auto, unfolding(crate::specs::Cubics::cubic_pieces_of))]
    pub fn pieces(self) -> u32
        ensures { result ≡ cubic_pieces_of self }
    {
        let q = self.error() * (1.0 / MAX_CUBIC_ERROR_SQUARED);
        pieces(q, self.p1.weight, self.p2.weight)
    }

    #[tactic(auto, unfolding(crate::specs::Cubics::cubic_point_of))]
    pub fn point(self, t: f32) -> Point
        ensures { result ≡ cubic_point_of self t }
    {
        eval_cubic(t, self.p0, self.p1, self.p2, self.p3).applied()
    }

    // The piece from start to end, whose middle is the cubic's point at t.
    pub fn piece(self, start: Point, end: Point, t: f32) -> Primitive
        ensures { result ≡ Quad (plain start) (plain (control_of start (cubic_point_of self t) end)) (plain end) }
    {
        let control = control(start, self.point(t), end);
        Primitive::Quad(
            WeightedPoint::plain(start),
            WeightedPoint::plain(control),
            WeightedPoint::plain(end),
        )
    }
}
