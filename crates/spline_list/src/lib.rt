// The spline table as a lent list of records, beside its columns.
#![tactic(auto)]

ghost use Rattle.std.specs.Prelude.{◌≡◌, ltb, length, set};
ghost use Rattle.tables.specs.Lent.{splines_of, splines_mut_of, SameSplines};
ghost use Rattle.tables.specs.Tables.{spline_at};
ghost use Rattle.spline_list.specs.Rows.{put_row_of, spline_at_of, equal_of, outcome_of, fill_of, spread_of};

use columns::{flag_byte, write};
use primitives::SplineRow;
use tables::{SplineColumns, SplineColumnsMut};

// A list and the columns differ in length, so that nothing was copied.
#[derive(Clone, Copy, PartialEq, Eq)]
pub struct LengthsDiffer;

// Row i of the columns, as a record: for them what `spline_at` is for a list.
pub fn row_at(columns: &SplineColumns<'_>, i: usize) -> SplineRow
    ensures { result ≡ spline_at (splines_of columns.now) i }
{
    columns.at(i)
}

// Writes a record to row i of the columns; a column that ends before it stays as it was. The tables' own `put` takes an edit instead, which may clear the flag before
// it as well.
pub fn put_row(columns: &mut SplineColumnsMut<'_>, i: usize, v: SplineRow)
    ensures same { SameSplines columns.old columns.new }
    ensures put { splines_mut_of columns.new ≡ put_row_of (splines_mut_of columns.old) i v }
{
    write(columns.curvature, i, v.curvature);
    write(columns.p0x, i, v.p0.x);
    write(columns.p0y, i, v.p0.y);
    write(columns.p2x, i, v.p2.x);
    write(columns.p2y, i, v.p2.y);
    write(columns.contour, i, flag_byte(v.contour));
    write(columns.first_quad, i, v.first_quad);
    write(columns.quad_count, i, v.quad_count);
}

// Whether the lengths agree: the list has a record for each of n splines, and no column ends before the nth. n is asked beside the list, since it is how many splines
// are in use, and the rule wants a list of exactly as many.
fn agree(list: &[SplineRow], columns: &SplineColumns<'_>, n: usize) -> bool
    ensures { result ≡ equal_of list.now (splines_of columns.now) n }
{
    (n == list.len())
        & (n <= columns.curvature.len())
        & (n <= columns.p0x.len())
        & (n <= columns.p0y.len())
        & (n <= columns.p2x.len())
        & (n <= columns.p2y.len())
        & (n <= columns.contour.len())
        & (n <= columns.first_quad.len())
        & (n <= columns.quad_count.len())
}

// Copies the first n rows of the columns to a list of n records.
pub fn fill(
    list: &mut [SplineRow],
    columns: &SplineColumns<'_>,
    n: usize,
) -> Result<(), LengthsDiffer>
    ensures outcome { result ≡ outcome_of (equal_of list.old (splines_of columns.now) n) }
    ensures filled { list.new ≡ fill_of (splines_of columns.now) n list.old }
{
    if !agree(list, columns, n) {
        return Err(LengthsDiffer);
    }
    for (i, row) in list.iter_mut().enumerate() {
        *row = columns.at(i);
    }
    Ok(())
}

// Copies the n records of a list back to the first n rows of the columns; the rows past them stay.
pub fn spread(
    list: &[SplineRow],
    columns: &mut SplineColumnsMut<'_>,
    n: usize,
) -> Result<(), LengthsDiffer>
    ensures same { SameSplines columns.old columns.new }
    ensures outcome { result ≡ outcome_of (equal_of list.now (splines_mut_of columns.old) n) }
    ensures put { splines_mut_of columns.new ≡ spread_of list.now n (splines_mut_of columns.old) }
{
    if !agree(list, &columns.view(), n) {
        return Err(LengthsDiffer);
    }
    for (i, row) in list.iter().enumerate() {
        put_row(columns, i, *row);
    }
    Ok(())
}

// The record at an index, if the list has one there.
pub fn spline_at(list: &[SplineRow], i: usize) -> Option<SplineRow>
    ensures { result ≡ spline_at_of list.now i }
{
    list.get(i).copied()
}

// Whether i is within the list; past it nothing is written. A bool, since there is nothing to tell beside it.
pub fn put_spline(list: &mut [SplineRow], i: usize, v: SplineRow) -> bool
    ensures { (result ≡ ltb i (length list.old)) × (list.new ≡ set list.old i v) }
{
    write(list, i, v);
    i < list.len()
}
