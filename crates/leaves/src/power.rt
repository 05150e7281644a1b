// Sixth powers of numbers of 24 binary digits, whole: 144 digits, 32 to a limb and the rest in the top one. The four limbs are a scratch that is lent and used
// again for each power.
ghost use Rattle.std.specs.Prelude.{◌≡◌, ◌*◌, ◌^◌, ◌<◌, leb};
ghost use Rattle.leaves.specs.Power.{Limbs, number};

// p * s in the place of p, limb by limb, with the carry passed on to the next.
fn times(p: &mut [u64; 4], s: u32)
    requires limbs { Limbs p.old }
    requires product_bound { number p.old * s < 2 ^ 144 }
    ensures { Limbs p.new × (number p.new ≡ number p.old * s) }
{
    let s = s as u64;
    let a = p[0] * s;
    let b = p[1] * s + a / 0x1_0000_0000;
    let c = p[2] * s + b / 0x1_0000_0000;
    let d = p[3] * s + c / 0x1_0000_0000;
    p[0] = a % 0x1_0000_0000;
    p[1] = b % 0x1_0000_0000;
    p[2] = c % 0x1_0000_0000;
    p[3] = d;
}

// s alone, whatever the scratch held.
fn start(p: &mut [u64; 4], s: u32)
    ensures { Limbs p.new × (number p.new ≡ s ^ 1) }
{
    p[0] = s as u64;
    p[1] = 0;
    p[2] = 0;
    p[3] = 0;
}

// The sixth power of an s that has nothing below its ten leading digits h: that of h has 60 digits.
fn short_power(p: &mut [u64; 4], h: u64)
    requires h_bound { h < 1024 }
    ensures { Limbs p.new × (number p.new ≡ (h * 2 ^ 14) ^ 6) }
{
    let c = h * h * h;
    let x = c * c;
    p[0] = 0;
    p[1] = 0;
    p[2] = x % 0x1000 * 0x10_0000;
    p[3] = x / 0x1000;
}

// s ^ 6.
fn sixth_power(p: &mut [u64; 4], s: u32)
    requires { s < 2 ^ 24 }
    ensures { Limbs p.new × (number p.new ≡ s ^ 6) }
{
    if s % 0x4000 == 0 {
        short_power(p, (s / 0x4000) as u64);
        return;
    }
    start(p, s);
    for _ in 1..6u64 {
        times(p, s);
    }
}

// Whether p is at most t * 2 ^ 96, which has nothing below the top limb.
fn at_most(p: &[u64; 4], t: u64) -> bool
    requires { Limbs p.now }
    ensures { result ≡ leb (number p.now) (t * 2 ^ 96) }
{
    if p[3] < t {
        return true;
    }
    if p[3] > t {
        return false;
    }
    p[0] + p[1] + p[2] == 0
}

// Whether s ^ 6 is at most t * 2 ^ 96.
pub fn under(p: &mut [u64; 4], s: u32, t: u64) -> bool
    requires { s < 2 ^ 24 }
    ensures { result ≡ leb (s ^ 6) (t * 2 ^ 96) }
{
    sixth_power(p, s);
    at_most(p, t)
}
