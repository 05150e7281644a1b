// Square root by a guess and an exact correction over whole numbers. The proof rests on the correction alone.
ghost use Rattle.std.specs.Prelude.{◌≡◌, ◌*◌, ◌^◌, ◌<◌, ◌≤◌};
ghost use Rattle.std.specs.Float.{binary32};
ghost use Rattle.rounding.specs.Roots.{rooted, IsNear};
ghost use Rattle.leaves.specs.Sqrt.{sqrt32};

use crate::parts::{self, Positive};

// About 2 ^ 16 over the root of 1 + f / 2 ^ 23, or of twice that, by a cubic polynomial. Of this
// function and of `guess` only bounds are proved: `settle` makes the answer right.
fn inverse(f: u64, even: bool) -> u64
    requires { f < 0x80_0000 }
    ensures { result ≤ 65467 }
{
    let a = f * 5427 / 0x80_0000;
    let b = f * (17845 - a) / 0x80_0000;
    let y = 65467 - f * (31596 - b) / 0x80_0000;
    if even { y } else { y * 46341 / 0x1_0000 }
}

// About the root of n, from the inverse y: one step, to the second order.
fn guess(n: u64, y: u64) -> u64
    requires n_bound { n < 2 ^ 48 }
    requires y_bound { y ≤ 65467 }
    ensures { result < 0x1000_0000 }
{
    let v = n / 0x1_0000;
    // by how much y * y * v falls short of 2 ^ 62, in units of 2 ^ 32
    let h = 0x4000_0000_0000_0000u64.saturating_sub(y * y * v) / 0x1_0000_0000;
    let g = v * y / 0x8000;
    let c = h / 2 + 3 * (h * h) / 0x2_0000_0000;
    (g + g * c / 0x4000_0000 + 134) / 0x100
}

// The whole number nearest to the root of n, from any start: right from a bad guess too, but slow.
// Both loops go by a test on r, the answer itself, and count nothing: no range says how far r has to go.
fn settle(n: u64, start: u64) -> u64
    requires n_nonzero { 0 < n }
    requires n_bound { n < 2 ^ 48 }
    requires start_bound { start < 0x1000_0000 }
    ensures { IsNear n result }
{
    let mut r = start;
    while r * r + r < n {
        r += 1;
    }
    while n + r <= r * r {
        r -= 1;
    }
    r
}

impl Positive {
    // The square root. n has 47 or 48 digits and leaves an even exponent, so its root has the 24 that stay.
    pub fn root(self) -> f32
        ensures { result ≡ rooted binary32 (self.digits * 2 ^ self.place * 2 ^ 149) }
    {
        // 0, except for a subnormal
        let l = parts::lift::<24>(self.digits);
        let w = self.digits << l;
        let p = self.place + 126 - l;
        let t = p % 2;
        let n = w * 0x80_0000 * (1 + t);
        let r = settle(n, guess(n, inverse(w - 0x80_0000, t == 0)));
        parts::join(false, r, p / 2)
    }
}

// `sixth_root` makes the same tests. One function with a closure for the positive numbers would be no plainer: the two differ at -0, and its contract would have to say
// what it gives at each kind of value, where each of the two names its definition.
pub fn sqrt(x: f32) -> f32
    ensures { result ≡ sqrt32 x }
{
    if x > 0.0 {
        if x < f32::INFINITY {
            return Positive::of(f32::to_bits(x)).root();
        }
        return x;
    }
    if x == 0.0 {
        return x;
    }
    f32::NAN
}
