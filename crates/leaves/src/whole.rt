// The next whole number up, as a float and as a count, and the nearest one.
ghost use Rattle.std.specs.Prelude.{◌≡◌, ◌+◌, ◌-◌, ◌*◌, ◌/◌, ◌^◌, ◌<◌};
ghost use Rattle.leaves.specs.Small.{ceil_of};
ghost use Rattle.leaves.specs.Whole.{whole_up_of, whole_near_of};

use crate::parts;

// t / 2 ^ d, down to a whole number. `whole_above` and `whole_nearest` stay beside it: each adds a term of its own before the shift, which a t of 24 digits leaves
// room for, and `whole_above` may give 1 where d > 38, so a shared function would take both from each caller.
fn whole_below(t: u64, d: u64) -> u64
    ensures { result ≡ t / 2 ^ d }
{
    if d > 63 {
        return 0;
    }
    t >> d
}

// t / 2 ^ d, up to a whole number.
fn whole_above(t: u64, d: u64) -> u64
    requires { t < 2 ^ 24 }
    ensures { result ≡ (t + 2 ^ d - 1) / 2 ^ d }
{
    if d > 38 {
        return if t == 0 { 0 } else { 1 };
    }
    (t + (1u64 << d) - 1) >> d
}

// The least whole number not below x; between -1 and 0 it is -0.
pub fn ceil(x: f32) -> f32
    ensures { result ≡ ceil_of x }
{
    if !parts::finite(x) {
        return x;
    }
    let b = f32::to_bits(x);
    let t = parts::digits(b);
    let p = parts::place(b);
    // here x is whole, and rounding gives it back
    if p >= 149 {
        return parts::rounded(parts::minus(b), t, p + 1, 0);
    }
    if parts::minus(b) {
        return parts::rounded(true, whole_below(t, 149 - p), 150, 0);
    }
    parts::rounded(false, whole_above(t, 149 - p), 150, 0)
}

// The least whole number not below x as a count; 65,537 for an x that is not from 0 to 65,536.
pub fn whole_up(x: f32) -> u32
    ensures { result ≡ whole_up_of x }
{
    if x >= 0.0 {
        if x <= 65536.0 {
            let b = f32::to_bits(x);
            return whole_above(parts::digits(b), 149 - parts::place(b)) as u32;
        }
    }
    65537
}

// t / 2 ^ d to the nearest whole number, halves up.
fn whole_nearest(t: u64, d: u64) -> u64
    requires { t < 2 ^ 24 }
    ensures { result ≡ (2 * t + 2 ^ d) / (2 * 2 ^ d) }
{
    if d > 38 {
        return 0;
    }
    (2 * t + (1u64 << d)) >> (d + 1)
}

// The whole number nearest to the size of x, halves away from zero; 65,537 for an x beyond ±65,536.
pub fn whole_near(x: f32) -> u32
    ensures { result ≡ whole_near_of x }
{
    if x >= -65536.0 {
        if x <= 65536.0 {
            let b = f32::to_bits(x);
            return whole_nearest(parts::digits(b), 149 - parts::place(b)) as u32;
        }
    }
    65537
}
