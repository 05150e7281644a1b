// Points, angles and curvature: point.rs, and the top of path.rs.
#![tactic(auto)]

mod curve;
mod direction;

ghost use Rattle.std.specs.Prelude.{◌≡◌};
ghost use Rattle.leaves.specs.Single.{◌⊕◌, ◌⊗◌};
ghost use Rattle.point.specs.Point.{point_at, plain, rational_of, applied_of, minus_of, len_of};
ghost use Rattle.point.specs.Angle.{angle_of};

pub use curve::{cubic_at, curvature, eval_cubic, eval_quad, inv_curvature, lerp, quad_at};
pub use direction::{approx_atan2, changed, diff, full_diff};
use std::ops::Sub;

// `==` is as in the Rust: equal as floats.
#[derive(Clone, Copy, PartialEq)]
pub struct Point {
    pub x: f32,
    pub y: f32,
}

// The screen setting is the Rust's. In the knife setting a line without angle keeps the last angle and a Move forgets it, a reversal is a corner, a line and a
// quad never share a spline, and the points of a spline lie on its own quads.
#[derive(Clone, Copy)]
pub enum Setting {
    Screen,
    Knife,
}

impl Point {
    // The square of f32::EPSILON, which is 2^-23: a shorter direction has no angle.
    const EPSILON_SQUARED: f32 = 1.4210855e-14;

    pub fn new(x: f32, y: f32) -> Self
        ensures { result ≡ point_at x y }
    {
        Self { x, y }
    }

    // The square of the length.
    pub fn squared(self) -> f32
        ensures { result ≡ self.x ⊗ self.x ⊕ self.y ⊗ self.y }
    {
        self.x * self.x + self.y * self.y
    }

    #[tactic(auto, unfolding(crate::specs::Point::len_of))]
    pub fn len(self) -> f32
        ensures { result ≡ len_of self }
    {
        leaves::sqrt(self.squared())
    }

    pub fn angle(self) -> Option<f32>
        ensures { result ≡ angle_of self }
    {
        // The rounded root reaches 2^-23 exactly when the square reaches 2^-46, so no root is needed.
        if self.squared() >= Self::EPSILON_SQUARED {
            return Some(approx_atan2(self.y, self.x));
        }
        None
    }
}

impl Sub for Point {
    type Output = Self;

    ghost sub_gives = { λ a b r. r ≡ minus_of a b };

    #[tactic(auto, unfolding(crate::specs::Point::minus_of))]
    fn sub(self, other: Self) -> Self {
        Self {
            x: self.x - other.x,
            y: self.y - other.y,
        }
    }
}

// A rational control point holds its coordinates times its weight.
#[derive(Clone, Copy)]
pub struct WeightedPoint {
    pub point: Point,
    pub weight: f32,
}

impl WeightedPoint {
    // Beside `rational` the name says more than a `From<Point>` would: the weight is 1.
    pub fn plain(p: Point) -> Self
        ensures { result ≡ plain p }
    {
        Self {
            point: p,
            weight: 1.0,
        }
    }

    #[tactic(auto, unfolding(crate::specs::Point::rational_of))]
    pub fn rational(p: Point, w: f32) -> Self
        ensures { result ≡ rational_of p w }
    {
        Self {
            point: Point {
                x: p.x * w,
                y: p.y * w,
            },
            weight: w,
        }
    }

    #[tactic(auto, unfolding(crate::specs::Point::applied_of))]
    pub fn applied(self) -> Point
        ensures { result ≡ applied_of self }
    {
        let w_recip = 1.0 / self.weight;
        Point {
            x: self.point.x * w_recip,
            y: self.point.y * w_recip,
        }
    }
}
