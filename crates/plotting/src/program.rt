// From the bytes of a listing to all bytes of its plot. Its columns are its own, of the lengths that the program has room for.

ghost use Rattle.std.specs.Prelude.{◌≡◌};
ghost use Rattle.plotting.specs.PlotListing.{account_of, plotting, plot_listing_of};

use evaluate::Outputs;
use listing::Refused;
use point::Setting;

// How many bytes were written; a refusal of the plot is on no line.
pub fn plot_listing(setting: Setting, input: &[u8], text: &mut [u8]) -> Result<usize, Refused>
    ensures { plotting (account_of result) text.new ≡ plot_listing_of setting input.now text.old }
{
    // As in `listing::listing`: an array cannot be lent out of the function that owns it, and there is no heap.
    let mut words = [0u32; 512];
    let mut x = [0.0f32; 512];
    let mut y = [0.0f32; 512];
    let mut end = [0u8; 512];
    let mut outputs = Outputs {
        words: &mut words,
        x: &mut x,
        y: &mut y,
        end: &mut end,
    };
    let n = listing::told(setting, input, &mut outputs)?;
    let Outputs { x, y, end, .. } = outputs;
    let written = plot::plot(&x[..n], &y[..n], &end[..n], text)?;
    Ok(written)
}
