// A drawing with a column full at each place in turn: 6 or 7, all that was pushed before stays, and no word and no point is written. With just enough room
// all is as with more.
use crate::flattening::{Full, SHORTS, Short, UNTOUCHED, flattened};
use crate::layout::{ALL, Column, OUTPUTS, QUADS, results};
use answer::Refusal;
use flatten::{Flattened, Refused};
use point::Setting;
use replay::Tally;
use store::Drawing;

// Here and below n counts rows, and `got` and `whole` hold many columns: the count is no slice's length.

// The first `same` rows of a column are the whole run's, and those from `n` on are untouched.
fn kept(got: &[u32; ALL], whole: &[u32; ALL], column: Column, same: usize, n: usize) -> bool {
    let whole = column.numbers(whole);
    let got = column.numbers(got);
    let begun = got.get(..column.extent(same));
    let rest = got.get(column.extent(n)..);
    begun.is_some_and(|begun| whole.starts_with(begun))
        && rest.is_some_and(|rest| rest.iter().all(|v| *v == UNTOUCHED))
}

// The same of several columns, n rows of each.
pub fn all_kept(got: &[u32; ALL], whole: &[u32; ALL], columns: &[Column], n: usize) -> bool {
    columns.iter().all(|column| kept(got, whole, *column, n, n))
}

// `got` and `whole` are two parameters of each function, and no struct: some read only one of them, and limits.rt compares two other runs.

// Of n splines the starts and first quads are the whole run's, and so are the first `ended` sums, ends and numbers of quads and the first `flagged` flags.
fn splines_kept(
    got: &[u32; ALL],
    whole: &[u32; ALL],
    n: usize,
    ended: usize,
    flagged: usize,
) -> bool {
    let begun = [Column::P0x, Column::P0y, Column::FirstQuad];
    let done = [
        Column::Curvature,
        Column::P2x,
        Column::P2y,
        Column::QuadCount,
    ];
    all_kept(got, whole, &begun, n)
        && done.iter().all(|c| kept(got, whole, *c, ended, n))
        && kept(got, whole, Column::Contour, flagged, n)
}

// The last spline carries the flag until the next one opens.
fn last_flagged(got: &[u32; ALL], n: usize) -> bool {
    n == 0 || Column::Contour.entry(got, n.saturating_sub(1)) == 1
}

// The sum of spline `last` up to the quad before `place`.
fn sum_so_far(whole: &[u32; ALL], place: usize, last: usize) -> u32 {
    let before = place.saturating_sub(1);
    if place == 0 || Column::PartialSplines.entry(whole, before) as usize != last {
        return 0;
    }
    let rows = Column::QuadRows;
    rows.entry(whole, rows.extent(before) + 14)
}

// Whether spline `last` ends at the point whose x and y are these numbers of quad_rows.
fn ends_at(got: &[u32; ALL], whole: &[u32; ALL], last: usize, x: usize, y: usize) -> bool {
    let on_x = Column::P2x.entry(got, last) == Column::QuadRows.entry(whole, x);
    let on_y = Column::P2y.entry(got, last) == Column::QuadRows.entry(whole, y);
    on_x && on_y
}

// Whether the quads of spline `last` are those from its first one to the one before `place`.
fn ranges_to(got: &[u32; ALL], place: usize, last: usize) -> bool {
    let begin = Column::FirstQuad.entry(got, last) as usize;
    let count = Column::QuadCount.entry(got, last) as usize;
    begin + count == place
}

// A spline that the refused quad would have gone on with. It ends where that quad starts, or where the quad before it ended: a cubic's last piece may end a
// rounding beside the next start.
fn open_kept(got: &[u32; ALL], whole: &[u32; ALL], place: usize, last: usize) -> bool {
    let summed = Column::Curvature.entry(got, last) == sum_so_far(whole, place, last);
    let start = Column::QuadRows.extent(place);
    let before = Column::QuadRows.extent(place.saturating_sub(1));
    let at_start = ends_at(got, whole, last, start, start + 3);
    let at_end = place > 0 && ends_at(got, whole, last, before + 2, before + 5);
    summed && ranges_to(got, place, last) && (at_start || at_end)
}

fn quads_refused(
    got: &[u32; ALL],
    whole: &[u32; ALL],
    r: Refused,
    splines: usize,
    place: usize,
) -> bool {
    let n = r.splines;
    let last = n.saturating_sub(1);
    let opens = Column::PartialSplines.entry(whole, place) as usize == n;
    let ended = if opens { n } else { last };
    r.refusal == Refusal::QuadsFull
        && r.quads == place
        && n <= splines
        && all_kept(got, whole, &QUADS, place)
        && splines_kept(got, whole, n, ended, last)
        && (opens || open_kept(got, whole, place, last))
        && last_flagged(got, n)
}

fn splines_refused(
    got: &[u32; ALL],
    whole: &[u32; ALL],
    r: Refused,
    quads: usize,
    place: usize,
) -> bool {
    let n = r.splines;
    r.refusal == Refusal::SplinesFull
        && n == place
        && r.quads <= quads
        && all_kept(got, whole, &QUADS, r.quads)
        && splines_kept(got, whole, n, n, n.saturating_sub(1))
        && last_flagged(got, n)
}

// Whether the column that is short is one of the quad table.
fn of_quads(short: Short) -> bool {
    match short {
        Short::WholeRows => true,
        Short::Of(column) => column == Column::QuadRows || column == Column::PartialSplines,
    }
}

// How many rows the drawing needs of it.
fn needed(r: Flattened, short: Short) -> usize {
    if of_quads(short) { r.quads } else { r.splines }
}

// One run with a column that is full, against the whole one.
fn refuses(
    drawing: &Drawing<'_>,
    setting: Setting,
    whole: &[u32; ALL],
    all: Flattened,
    full: Full,
) -> bool {
    let mut got = [0u32; ALL];
    let Err(r) = flattened(drawing, setting, Some(full), &mut got) else {
        return false;
    };
    let silent = all_kept(&got, whole, &OUTPUTS, 0);
    if of_quads(full.short) {
        return silent && quads_refused(&got, whole, r, all.splines, full.place);
    }
    silent && splines_refused(&got, whole, r, all.quads, full.place)
}

// Each column of the tables in turn, full before each row that the drawing needs.
pub fn each_column(drawing: &Drawing<'_>, setting: Setting) -> Tally {
    let mut tally = Tally::default();
    let mut whole = [0u32; ALL];
    let Ok(all) = flattened(drawing, setting, None, &mut whole) else {
        return tally;
    };
    for short in SHORTS {
        for place in (0..needed(all, short)).rev() {
            tally.count(refuses(drawing, setting, &whole, all, Full { short, place }));
        }
    }
    tally
}

// Each column of the tables in turn, just as long as the drawing needs: both tables and the outputs are the same to the last entry that is seen.
pub fn each_enough(drawing: &Drawing<'_>, setting: Setting) -> Tally {
    let mut tally = Tally::default();
    let mut whole = [0u32; ALL];
    let mut got = [0u32; ALL];
    let Ok(all) = flattened(drawing, setting, None, &mut whole) else {
        return tally;
    };
    for short in SHORTS {
        let place = needed(all, short);
        let r = flattened(drawing, setting, Some(Full { short, place }), &mut got);
        tally.count(r.is_ok() && results(&got) == results(&whole));
    }
    tally
}
