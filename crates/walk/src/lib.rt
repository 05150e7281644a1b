// The walk over the splines: where a Start is written, how many steps there are, where the quad cursor goes, and how long the whole is: what
// `populate_buffers` of path.rs does.
#![tactic(auto)]

ghost use Rattle.std.specs.Prelude.{◌≡◌};
ghost use Rattle.tables.specs.Lent.{splines_of};
ghost use Rattle.tables.specs.Tables.{sum_at_of};
ghost use Rattle.walk.specs.Walk.{starts_after_of, cursor_start_of, cursor_at_of};
ghost use Rattle.walk.specs.Length.{steps_of, size_of, spline_length_of, walk_length_of};

use point::Setting;
use primitives::SplineRow;
use tables::{QuadColumns, SplineColumns};

// A gap over this starts a new line.
const MAX_ERROR: f32 = 0.0625;

// Whether a Start is written for spline k, which comes after `last`.
pub fn starts_after(k: u32, last: SplineRow, row: SplineRow) -> bool
    ensures { result ≡ starts_after_of k last row }
{
    let end = last.p2;
    let start = row.p0;
    let gap = (end - start).len();
    (k == 0) | last.contour | (gap > MAX_ERROR)
}

// How many steps a spline of this sum has.
pub fn steps(sum: f32) -> u32
    ensures { result ≡ steps_of sum }
{
    leaves::whole_up(sum).saturating_sub(1)
}

// The size of those steps; a NaN if there are none.
pub fn size(sum: f32) -> f32
    ensures { result ≡ size_of sum }
{
    sum / leaves::whole_up(sum) as f32
}

// Where the cursor begins a spline: `first` is the spline's first quad, and `cursor` where the spline before left the cursor.
#[tactic(auto, unfolding(crate::specs::Walk::cursor_start_of))]
pub fn cursor_start(setting: Setting, first: usize, cursor: usize) -> usize
    ensures { result ≡ cursor_start_of setting first cursor }
{
    match setting {
        Setting::Screen => cursor,
        Setting::Knife => first,
    }
}

// The cursor for step p: it goes on by one, and no further, if p exceeds the sum of its quad.
pub fn cursor_at(quads: &QuadColumns<'_>, p: f32, cursor: usize) -> usize
    ensures { result ≡ cursor_at_of (sum_at_of quads.now.quad_rows.now cursor) p cursor }
{
    if p > quads.sum_at(cursor) {
        return cursor + 1;
    }
    cursor
}

// How many items spline k has.
#[tactic(auto, unfolding(crate::specs::Length::spline_length_of))]
pub fn spline_length(k: u32, last: SplineRow, row: SplineRow) -> u64
    ensures { result ≡ spline_length_of k last row }
{
    let n = u64::from(steps(row.curvature));
    if starts_after(k, last, row) {
        return n + 2;
    }
    n + 1
}

// How many items the walk over n splines has: at most 65,538 for each, so that the sum fits. A loop, since it keeps the spline before; a sum over an iterator
// would read each spline twice.
pub fn walk_length(splines: &SplineColumns<'_>, n: u32) -> u64
    ensures { result ≡ walk_length_of (splines_of splines.now) n }
{
    let mut total: u64 = 0;
    let mut last = splines.at(0);
    for k in 0..n {
        let row = splines.at(k as usize);
        total += spline_length(k, last, row);
        last = row;
    }
    total
}
