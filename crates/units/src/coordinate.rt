// One coordinate.

ghost use Rattle.std.specs.Prelude.{◌≡◌};
ghost use Rattle.units.specs.Whole.{unit_of};

// A coordinate in plotter units; none where it is NaN or rounds outside -32,768..32,767.
pub fn whole(x: f32) -> Option<i32>
    ensures { result ≡ unit_of x }
{
    // 65,537 for a NaN and for what is far beyond, so that the tests below refuse both
    let size = leaves::whole_near(x);
    if leaves::negative(x) {
        if size > 32768 {
            return None;
        }
        return Some(-(size as i32));
    }
    if size > 32767 {
        return None;
    }
    Some(size as i32)
}
