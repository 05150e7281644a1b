// A float's pattern taken apart and put together, and the one rounding in between. The finite f32
// of pattern b is digits(b) * 2 ^ place(b) times the smallest value, 2 ^ -149.
ghost use Rattle.std.specs.Prelude.{◌≡◌, ◌⊎◌, suc, ◌+◌, ◌-◌, ◌*◌, ◌/◌, ◌%◌, ◌^◌, ◌<◌, ◌≤◌, leb};
ghost use Rattle.std.specs.Float.{binary32};
ghost use Rattle.std.specs.Float.Ieee.{units, round, top};
ghost use Rattle.std.specs.Float.Ieee.Scale as Scale;
ghost use Rattle.rounding.specs.Halves as Halves;
ghost use Rattle.rounding.specs.Parts as Parts;
ghost use Rattle.rounding.specs.Alike.{Alike};

pub fn finite(x: f32) -> bool
    ensures { result ≡ Scale.finite x }
{
    if x < f32::INFINITY {
        -f32::INFINITY < x
    } else {
        false
    }
}

// `minus`, `digits` and `place` are functions of a pattern, since the library has none of them and definitions speak of a pattern's parts.
pub fn minus(b: u32) -> bool
    ensures { result ≡ leb (top binary32) b }
{
    b >= 0x8000_0000
}

pub fn digits(b: u32) -> u64
    ensures { result ≡ Parts.sig binary32 b }
{
    let t = b & 0x7f_ffff;
    if (b >> 23) & 0xff == 0 {
        t as u64
    } else {
        (0x80_0000 + t) as u64
    }
}

pub fn place(b: u32) -> u64
    ensures { result ≡ Parts.place binary32 b }
{
    let x = (b >> 23) & 0xff;
    if x == 0 { 0 } else { (x - 1) as u64 }
}

// A positive finite float, taken apart for its roots.
#[derive(Clone, Copy)]
pub struct Positive {
    pub digits: u64,
    pub place: u64,
    ghost some: { 0 < digits },
    ghost digits_bound: { digits < 2 ^ 24 },
    ghost place_bound: { place < 1024 },
}

impl Positive {
    // Of the pattern b.
    pub fn of(b: u32) -> Self
        requires { 0 < Parts.sig binary32 b }
        ensures { (result.digits ≡ Parts.sig binary32 b) × (result.place ≡ Parts.place binary32 b) }
    {
        Positive {
            digits: digits(b),
            place: place(b),
        }
    }
}

// The f32 of the sign s and q * 2 ^ k smallest values. The sum carries into the exponent's field by
// itself, and subnormals need no case.
pub fn join(s: bool, q: u64, k: u64) -> f32
    requires q_bound { q ≤ 0x100_0000 }
    requires k_bound { k < 0x1_0000 }
    requires normal { (k ≡ 0) ⊎ (0x80_0000 ≤ q) }
    ensures { result ≡ units binary32 s q k }
{
    let n = k * 0x80_0000 + q;
    let m = if n < 0x7f80_0000 { n } else { 0x7f80_0000 };
    let b = if s { 0x8000_0000 + m } else { m };
    f32::from_bits(b as u32)
}

// w without its d + 1 last digits, rounded by them, times 2 ^ k smallest values. One less than a half
// of the last digit that stays is added, and one more where that is odd: a tie goes to the even one.
fn cut(s: bool, w: u64, d: u64, k: u64) -> f32
    requires d_bound { d < 63 }
    requires k_bound { k < 0x1_0000 }
    requires w_bound { w < 2 ^ 62 }
    requires cut_bound { w / 2 ^ d < 0x200_0000 }
    requires normal { (k ≡ 0) ⊎ (0x100_0000 ≤ w / 2 ^ d) }
    ensures { result ≡ units binary32 s (Halves.halve (w / 2 ^ d) (w % 2 ^ d)) k }
{
    let odd = (w >> d) / 2 % 2;
    let q = (w + ((1u64 << d) - 1) + odd) >> (d + 1);
    join(s, q, k)
}

// By how much m is shifted left to have so many digits.
pub fn lift<const DIGITS: u64>(m: u64) -> u64
    requires some { 0 < DIGITS }
    requires most { DIGITS ≤ 64 }
    requires m_nonzero { 0 < m }
    requires m_bound { m < 2 ^ DIGITS }
    ensures { (result < DIGITS) × (2 ^ (DIGITS - 1) ≤ m * 2 ^ result) × (m * 2 ^ result < 2 ^ DIGITS) }
{
    (u64::leading_zeros(m) as u64) - (64 - DIGITS)
}

// m * 2 ^ z / 2 ^ (150 + y), rounded: 2 ^ y is worth half of the smallest value. m is shifted to 62
// digits by its leading zeros; then 24 of them stay, or as many as reach down to the smallest value.
pub fn rounded(s: bool, m: u64, z: u64, y: u64) -> f32
    requires m_bound { m < 2 ^ 62 }
    requires z_bound { z < 0x1000 }
    requires y_bound { y < 0x1000 }
    ensures { result ≡ round binary32 s (m * 2 ^ z) (2 ^ (150 + y)) }
{
    if m == 0 {
        return join(s, 0, 0);
    }
    let l = lift::<62>(m);
    let w = m << l;
    if z + 37 >= l + y {
        return cut(s, w, 37, z + 37 - (l + y));
    }
    let d = l + y - z;
    if d > 62 {
        return join(s, 0, 0);
    }
    cut(s, w, d, 0)
}

// x / 2 ^ d, its last digit set where something was lost: the sticky digit.
pub fn jam(x: u64, d: u64) -> u64
    ensures { Alike (suc d) x (result * 2 ^ d) × (result ≤ x / 2 ^ d + 1) × (d ≡ 0 → result ≡ x) }
{
    if d > 63 {
        return if x == 0 { 0 } else { 1 };
    }
    let q = x >> d;
    if q << d == x {
        return q;
    }
    if q % 2 == 0 { q + 1 } else { q }
}
