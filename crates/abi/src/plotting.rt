// Finished points to HP-GL, and to whole plotter units, with their counts written through references.

ghost use Rattle.std.specs.Prelude.{◌≡◌};
ghost use Rattle.contours.specs.Finished.{finished_of};
ghost use Rattle.units.specs.Columns.{rounding_of};
ghost use Rattle.plot.specs.Plot.{plot_of};
ghost use Rattle.abi.specs.Reply.{plot_reply, plot_reply_of, whole_reply, whole_reply_of};

#[tactic(auto, unfolding(crate::specs::Reply::plot_reply_of))]
pub fn kermezhul_plot(x: &[f32], y: &[f32], end: &[u8], text: &mut [u8], written: &mut usize) -> u32
    ensures { plot_reply result written.new text.new ≡ plot_reply_of (plot_of (finished_of x.now y.now end.now) text.old) }
{
    let r = plot::plot(x, y, end, text);
    *written = r.unwrap_or(0);
    answer::number(r.map(|_| ()))
}

#[tactic(auto, unfolding(crate::specs::Reply::whole_reply_of))]
pub fn kermezhul_whole(
    x: &[f32],
    y: &[f32],
    whole_x: &mut [i32],
    whole_y: &mut [i32],
    points: &mut usize,
) -> u32
    ensures { whole_reply result points.new whole_x.new whole_y.new ≡ whole_reply_of (rounding_of x.now y.now whole_x.old whole_y.old) }
{
    let r = units::whole_points(x, y, whole_x, whole_y);
    *points = r.unwrap_or(0);
    answer::number(r.map(|_| ()))
}
