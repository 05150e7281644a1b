// Absolute value, min, max and clamp: zeros keep IEEE signs, clamp keeps NaN, min and max drop it.
ghost use Rattle.std.specs.Prelude.{◌≡◌};
ghost use Rattle.leaves.specs.Small.{negative_of, abs_of, less_of, min_of, max_of, clamp_of};

use crate::parts;

// The sign, of a zero too; false for a NaN.
pub fn negative(x: f32) -> bool
    ensures { result ≡ negative_of x }
{
    if x.is_nan() {
        return false;
    }
    parts::minus(f32::to_bits(x))
}

pub fn abs(x: f32) -> f32
    ensures { result ≡ abs_of x }
{
    if negative(x) { -x } else { x }
}

// Whether a is less than b, where -0 counts as less than +0.
fn less(a: f32, b: f32) -> bool
    ensures { result ≡ less_of a b }
{
    if a < b {
        return true;
    }
    if a == b {
        return negative(a) & !negative(b);
    }
    false
}

pub fn min(a: f32, b: f32) -> f32
    ensures { result ≡ min_of a b }
{
    if a.is_nan() {
        return b;
    }
    if less(b, a) { b } else { a }
}

pub fn max(a: f32, b: f32) -> f32
    ensures { result ≡ max_of a b }
{
    if a.is_nan() {
        return b;
    }
    if less(a, b) { b } else { a }
}

pub fn clamp(x: f32, lo: f32, hi: f32) -> f32
    ensures { result ≡ clamp_of x lo hi }
{
    if x < lo {
        return lo;
    }
    if hi < x { hi } else { x }
}
