ghost use Rattle.std.specs.Prelude.{◌≡◌};
ghost use Rattle.leaves.specs.Pieces.{pieces_of};

use crate::{sixth, small, whole};

// How many pieces a cubic is cut into; the caller refuses a number over 1,024.
pub fn pieces(q: f32, w1: f32, w2: f32) -> u32
    ensures { result ≡ pieces_of q w1 w2 }
{
    let n = whole::whole_up(sixth::sixth_root(q) * small::max(small::max(w1, w2), 1.0));
    n.max(1)
}
