// The largest f32 whose exact sixth power is at most q, settled from its top digit down over full-width powers in one scratch.
ghost use Rattle.std.specs.Prelude.{◌≡◌, ◌+◌, ◌-◌, ◌*◌, ◌^◌, ◌<◌, ◌≤◌};
ghost use Rattle.std.specs.Float.{binary32};
ghost use Rattle.rounding.specs.Roots.{root, IsRoot, cut_to};
ghost use Rattle.leaves.specs.Sixth.{sixth_root_of};

use crate::parts::{self, Positive};
use crate::power;

// The largest r with r ^ 6 at most t * 2 ^ 96, a binary digit at a time from the top one down, each tried in the same scratch.
fn settle(t: u64) -> u32
    requires { t < 2 ^ 48 }
    ensures { IsRoot 6 (t * 2 ^ 96) result }
{
    let mut p = [0u64; 4];
    let mut r = 0;
    for i in (0..24u32).rev() {
        let s = r + (1u32 << i);
        if power::under(&mut p, s, t) {
            r = s;
        }
    }
    r
}

impl Positive {
    // How many places k up the root's last digit stands. Its power counts digits * 2 ^ (place + 745): six places for each k, 96 below the scratch's top limb, and by
    // the rest the digits are shifted left to 43 to 48.
    fn root_place(self) -> u64
        ensures { (result * 6 ≤ self.place + 649) × (self.place + 649 - result * 6 < 64) × (2 ^ 42 ≤ self.digits * 2 ^ (self.place + 649 - result * 6)) × (self.digits * 2 ^ (self.place + 649 - result * 6) < 2 ^ 48) }
    {
        (self.place + 670 - (u64::leading_zeros(self.digits) as u64)) / 6
    }

    // The sixth root.
    pub fn sixth_root(self) -> f32
        ensures { result ≡ cut_to binary32 (root 6 (self.digits * 2 ^ self.place * 2 ^ 745)) }
    {
        let k = self.root_place();
        let t = self.digits << (self.place + 649 - k * 6);
        parts::join(false, settle(t) as u64, k)
    }
}

// The largest f32 whose sixth power is at most q.
pub fn sixth_root(q: f32) -> f32
    ensures { result ≡ sixth_root_of q }
{
    if q > 0.0 {
        if q < f32::INFINITY {
            return Positive::of(f32::to_bits(q)).sixth_root();
        }
        return q;
    }
    if q == 0.0 {
        return 0.0;
    }
    f32::NAN
}
