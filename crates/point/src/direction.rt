// Angles of directions, and when one has changed.
ghost use Rattle.std.specs.Prelude.{◌≡◌};
ghost use Rattle.point.specs.Angle.{approx_atan2_of, diff_of, full_diff_of, difference_of, changed_of};

use crate::Setting;

const PI: f32 = 3.1415927;

const FRAC_PI_2: f32 = 1.5707964;

const TWO_PI: f32 = 6.2831855;

const MAX_ANGLE_ERROR: f32 = 0.001;

// A polynomial in the lesser over the greater side gives the angle up to 45 degrees; three tests turn it
// to where the direction lies.
pub fn approx_atan2(y: f32, x: f32) -> f32
    ensures { result ≡ approx_atan2_of y x }
{
    let x_abs = leaves::abs(x);
    let y_abs = leaves::abs(y);
    let a = leaves::min(x_abs, y_abs) / leaves::max(x_abs, y_abs);
    let s = a * a;
    let inner = leaves::fma(
        leaves::fma(s, -0.046_496_473, 0.159_314_22),
        s,
        -0.327_622_77,
    );
    let mut r = leaves::fma(inner, s * a, a);
    if y_abs > x_abs {
        r = FRAC_PI_2 - r;
    }
    if x < 0.0 {
        r = PI - r;
    }
    if y < 0.0 {
        r = -r;
    }
    r
}

// How far two directions are apart, where one and its reverse count as the same.
#[tactic(auto, unfolding(crate::specs::Angle::diff_of))]
pub fn diff(a0: f32, a1: f32) -> f32
    ensures { result ≡ diff_of a0 a1 }
{
    let mut diff = leaves::abs(a1 - a0);
    if diff > PI {
        diff = diff - PI;
    }
    if diff > FRAC_PI_2 {
        diff = PI - diff;
    }
    diff
}

// How far two directions are apart around the full turn, where one and its reverse are a half turn apart.
#[tactic(auto, unfolding(crate::specs::Angle::full_diff_of))]
pub fn full_diff(a0: f32, a1: f32) -> f32
    ensures { result ≡ full_diff_of a0 a1 }
{
    let turn = leaves::abs(a1 - a0);
    let rest = TWO_PI - turn;
    if rest < turn {
        return rest;
    }
    turn
}

#[tactic(auto, unfolding(crate::specs::Angle::difference_of))]
fn difference(setting: Setting, a0: f32, a1: f32) -> f32
    ensures { result ≡ difference_of setting a0 a1 }
{
    match setting {
        Setting::Screen => diff(a0, a1),
        Setting::Knife => full_diff(a0, a1),
    }
}

// A slit goes out and back: the knife has to see the reversal, which the screen folds away.
#[tactic(auto, unfolding(crate::specs::Angle::changed_of))]
pub fn changed(setting: Setting, a0: Option<f32>, a1: Option<f32>) -> bool
    ensures { result ≡ changed_of setting a0 a1 }
{
    match (a0, a1) {
        (Some(last), Some(next)) => difference(setting, last, next) > MAX_ANGLE_ERROR,
        _ => false,
    }
}
