// Finished points to HP-GL, exact to the byte: all points are tested and measured before the first byte is written.
#![tactic(auto)]

ghost use Rattle.std.specs.Prelude.{◌≡◌, length, get_or};
ghost use Rattle.std.specs.Float.{nan};
ghost use Rattle.columns.specs.Flags.{is_flag_of};
ghost use Rattle.contours.specs.Finished.{finished_of};
ghost use Rattle.plot.specs.Plot.{plot, plot_of, plotted_of, spot_of};
ghost use Rattle.plot.specs.Lent.{points_of};

use answer::Refusal;
use columns::{is_flag, read};

mod measuring;
mod writing;

// Finished points, as many as the shortest column has entries. Loops over them go by index: each read is of three columns that may differ in length.
#[derive(Clone, Copy)]
struct Finished<'a> {
    x: &'a [f32],
    y: &'a [f32],
    end: &'a [u8],
}

// A point in plotter units; none where one of its coordinates has none. Both loops call it, and it is no method: the columns are read in the loops.
fn spot(x: f32, y: f32) -> Option<(i32, i32)>
    ensures { result ≡ spot_of x y }
{
    let px = units::whole(x)?;
    let py = units::whole(y)?;
    Some((px, py))
}

impl Finished<'_> {
    fn len(&self) -> usize
        ensures { result ≡ length (points_of self.now) }
    {
        contours::shortest(self.x.len(), self.y.len(), self.end.len())
    }

    // A point's coordinates; NaN past the end.
    fn at(&self, i: usize) -> (f32, f32)
        ensures { result ≡ (get_or self.now.x.now i nan, get_or self.now.y.now i nan) }
    {
        (read(self.x, i, f32::NAN), read(self.y, i, f32::NAN))
    }

    fn flag(&self, i: usize) -> bool
        ensures { result ≡ is_flag_of (get_or self.now.end.now i 0) }
    {
        is_flag(read(self.end, i, 0))
    }
}

// 12 before 13; neither writes a byte. The columns are three parameters, as in the rules and at the C interface; inside the crate they are one
// `Finished`.
#[tactic(auto, using(std::proofs::lemmas::Bool::Decides::nat_tests), unfolding(crate::specs::Plot::measured_of, crate::specs::Plot::plot_in, crate::specs::Plot::plot_of))]
pub fn plot(x: &[f32], y: &[f32], end: &[u8], text: &mut [u8]) -> Result<usize, Refusal>
    ensures { plot (plotted_of result) text.new ≡ plot_of (finished_of x.now y.now end.now) text.old }
{
    let points = Finished { x, y, end };
    points.measured(text.len())?;
    Ok(points.put_text(text))
}
