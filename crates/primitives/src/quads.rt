// The numbers of a quad's curve, as push_quad works them out from its three points after the division by their weights.
ghost use Rattle.std.specs.Prelude.{◌≡◌};
ghost use Rattle.primitives.specs.Quads.{cross_of, leg_of, own_curvature_of, straight_of, curve_of};

use crate::Curve;
use leaves::{abs, fma, sqrt};
use point::Point;

const PIXEL_ACCURACY_RECIP: f32 = 16.0;

// The minus sign belongs to the difference, before the product with h.x.
#[tactic(auto, unfolding(crate::specs::Quads::cross_of))]
fn cross(p0: Point, p2: Point, h: Point) -> f32
    ensures { result ≡ cross_of p0 p2 h }
{
    fma(p2.x - p0.x, h.y, -(p2.y - p0.y) * h.x)
}

// x0 of the first leg, and x2 of the second.
#[tactic(auto, unfolding(crate::specs::Quads::leg_of))]
fn leg(side: Point, h: Point, cross: f32) -> f32
    ensures { result ≡ leg_of side h cross }
{
    fma(side.x, h.x, side.y * h.y) * (1.0 / cross)
}

#[tactic(auto, unfolding(crate::specs::Quads::own_curvature_of))]
fn own_curvature(dk: f32, scale: f32) -> f32
    ensures { result ≡ own_curvature_of dk scale }
{
    0.5 * abs(dk) * sqrt(scale * PIXEL_ACCURACY_RECIP)
}

// Not finite, or at most 1.0; minus infinity is at most 1.0.
fn straight(curvature: f32) -> bool
    ensures { result ≡ straight_of curvature }
{
    !(curvature < f32::INFINITY) | (curvature <= 1.0)
}

#[tactic(auto, unfolding(crate::specs::Quads::curve_of))]
pub fn curve(p0: Point, p1: Point, p2: Point) -> Curve
    ensures { result ≡ curve_of p0 p1 p2 }
{
    let a = p1 - p0;
    let b = p2 - p1;
    let h = a - b;
    let cross = cross(p0, p2, h);
    let x0 = leg(a, h, cross);
    let x2 = leg(b, h, cross);
    let scale = abs(cross / (h.len() * (x2 - x0)));
    let k0 = point::curvature(x0);
    let dk = point::curvature(x2) - k0;
    let curvature = own_curvature(dk, scale);
    if straight(curvature) {
        // The points will be found at t = 0.5 and t = 1.0.
        return Curve {
            x0: 0.036_624_67,
            dx_recip: 1.0,
            k0: 0.0,
            dk: 1.0,
            curvature: 2.0,
        };
    }
    Curve {
        x0,
        dx_recip: 1.0 / (x2 - x0),
        k0,
        dk,
        curvature,
    }
}
