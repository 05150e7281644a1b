// Fused multiply-add: mostly by way of f64, and otherwise over whole numbers, where the exact product
// plus the addend is brought to 24 digits by its count of leading zeros and rounded once.
ghost use Rattle.std.specs.Prelude.{◌≡◌, ◌+◌, ◌-◌, ◌*◌, ◌^◌, ◌<◌, eqb, cond};
ghost use Rattle.std.specs.Float.{binary32};
ghost use Rattle.std.specs.Float.Ieee.{sum};
ghost use Rattle.rounding.specs.Parts as Parts;
ghost use Rattle.rounding.specs.Sums.{sum_sign, sum_size};
ghost use Rattle.leaves.specs.Fma.{fma32};
ghost use Rattle.leaves.specs.Aligned.{fma_bits, Aligns};

use crate::parts;

// The size of the sum of x and y with their signs. Both outcomes are worked out and one is chosen:
// signs are as random as the input, and a branch on them would be guessed wrong half the time.
fn sum_size(s: bool, x: u64, t: bool, y: u64) -> u64
    requires x_bound { x < 2 ^ 61 }
    requires y_bound { y < 2 ^ 61 }
    ensures { result ≡ sum_size s x t y }
{
    let d = x.abs_diff(y);
    if s == t { x + y } else { d }
}

// The sign of that sum. Exact cancelling gives +0.
fn sum_sign(s: bool, x: u64, t: bool, y: u64) -> bool
    ensures { result ≡ sum_sign s x t y }
{
    if x < y {
        return t;
    }
    if y < x {
        return s;
    }
    s & t
}

// x * 2 ^ z and y * 2 ^ z, with their signs, in units of 2 ^ -311.
fn total(s: bool, x: u64, t: bool, y: u64, z: u64) -> f32
    requires x_bound { x < 2 ^ 61 }
    requires y_bound { y < 2 ^ 61 }
    requires z_bound { z < 1024 }
    ensures { result ≡ sum binary32 s (x * 2 ^ z) t (y * 2 ^ z) (2 ^ 311) }
{
    parts::rounded(sum_sign(s, x, t, y), sum_size(s, x, t, y), z, 161)
}

// p * 2 ^ pe and q * 2 ^ qe, both brought to the higher exponent, so one of them stays as it is. If
// the other loses digits, the sum is so large that the lost digits only decide which way to round.
fn align(s: bool, p: u64, pe: u64, t: bool, q: u64, qe: u64) -> f32
    requires { Aligns p pe q qe }
    ensures { result ≡ sum binary32 s (p * 2 ^ pe) t (q * 2 ^ qe) (2 ^ 311) }
{
    let z = if pe < qe { qe } else { pe };
    total(s, parts::jam(p, z - pe), t, parts::jam(q, z - qe), z)
}

// The exponent of a product, 0 where the product is 0, so that it loses no addend.
fn weight(p: u64, a: u32, b: u32) -> u64
    ensures { result ≡ cond (eqb p 0) 0 (Parts.place binary32 a + Parts.place binary32 b) }
{
    if p == 0 {
        0
    } else {
        parts::place(a) + parts::place(b)
    }
}

// From the patterns of three finite values.
fn fma_bits(a: u32, b: u32, c: u32) -> f32
    ensures { result ≡ fma_bits a b c }
{
    let p = (parts::digits(a) * parts::digits(b)) << 13;
    let q = parts::digits(c) << 37;
    let pe = weight(p, a, b);
    let qe = parts::place(c) + 125;
    let s = parts::minus(a) != parts::minus(b);
    let t = parts::minus(c);
    align(s, p, pe, t, q, qe)
}

// a * b + c, rounded once, by whole numbers alone.
fn whole_fma(a: f32, b: f32, c: f32) -> f32
    ensures { result ≡ fma32 a b c }
{
    if !parts::finite(a) {
        return a * b + c;
    }
    if !parts::finite(b) {
        return a * b + c;
    }
    if !parts::finite(c) {
        return c;
    }
    fma_bits(f32::to_bits(a), f32::to_bits(b), f32::to_bits(c))
}

// a * b + c, rounded once, mostly by way of f64. There the product is exact and the sum is rounded to
// 53 digits; where those are no tie of two f32 neighbours and well inside the normal range, rounding
// them to 24 is rounding a * b + c. A zero is exact. All else goes by whole numbers.
pub fn fma(a: f32, b: f32, c: f32) -> f32
    ensures { result ≡ fma32 a b c }
{
    if a.is_nan() {
        return whole_fma(a, b, c);
    }
    if b.is_nan() {
        return whole_fma(a, b, c);
    }
    if c.is_nan() {
        return whole_fma(a, b, c);
    }
    let s: f64 = (a as f64) * (b as f64) + (c as f64);
    if s.is_nan() {
        return whole_fma(a, b, c);
    }
    let u = f64::to_bits(s);
    let e = u / 0x10_0000_0000_0000 % 0x800;
    if e < 898 {
        if u % 0x8000_0000_0000_0000 == 0 {
            return s as f32;
        }
        return whole_fma(a, b, c);
    }
    if e > 1149 {
        return whole_fma(a, b, c);
    }
    if u % 0x2000_0000 == 0x1000_0000 {
        return whole_fma(a, b, c);
    }
    f64::from_bits((u + 0x1000_0000) / 0x2000_0000 * 0x2000_0000) as f32
}
