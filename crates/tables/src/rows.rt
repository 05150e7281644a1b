// One row of a table, written and read. An index past the end of a column writes nothing there, and reads NaN or 0.
ghost use Rattle.std.specs.Prelude.{◌≡◌, ◌+◌, ◌≤◌, length};
ghost use Rattle.std.proofs.lemmas.List.Edits.{sets};
ghost use Rattle.tables.specs.Tables.{numbers_of, put_quad, sum_at_of, quad_row_at, clear_flag, put_spline, spline_at, last_spline_of};
ghost use Rattle.tables.specs.Lent.{quads_of, splines_of, quads_mut_of, splines_mut_of, SameQuads, SameSplines};
ghost use Rattle.primitives.specs.Edits.{spline_edited};
ghost use Rattle.tables.specs.Numbers.{row_of};

use crate::lent::{QuadColumns, QuadColumnsMut, SplineColumns, SplineColumnsMut, WIDTH};
use columns::{flag_byte, is_flag, read, write};
use point::Point;
use primitives::{QuadRow, SplineEdit, SplineRow, Three};

// The numbers of a row, as the table has them.
#[tactic(auto, unfolding(crate::specs::Tables::numbers_of))]
fn numbers(row: QuadRow) -> [f32; WIDTH]
    ensures { result ≡ numbers_of row }
{
    let QuadRow { x, y, weight, .. } = row;
    [
        x.a,
        x.b,
        x.c,
        y.a,
        y.b,
        y.c,
        weight.a,
        weight.b,
        weight.c,
        row.x0,
        row.dx_recip,
        row.k0,
        row.dk,
        row.curvature_recip,
        row.partial_curvature,
    ]
}

// The row that has these numbers, read where they lie.
fn quad_row(numbers: &[f32; WIDTH], spline: u32) -> QuadRow
    ensures { result ≡ row_of numbers.now spline }
{
    let three = |k: usize| Three {
        a: numbers[k],
        b: numbers[k + 1],
        c: numbers[k + 2],
    };
    QuadRow {
        x: three(0),
        y: three(3),
        weight: three(6),
        x0: numbers[9],
        dx_recip: numbers[10],
        k0: numbers[11],
        dk: numbers[12],
        curvature_recip: numbers[13],
        partial_curvature: numbers[14],
        spline,
    }
}

impl QuadColumnsMut<'_> {
    pub fn put(&mut self, i: usize, row: QuadRow)
        ensures same { SameQuads self.old self.new }
        ensures put { quads_mut_of self.new ≡ put_quad (quads_mut_of self.old) i row }
    {
        if i < self.view().capacity() {
            let at = WIDTH * i;
            self.quad_rows[at..at + WIDTH].copy_from_slice(&numbers(row));
            write(self.partial_splines, i, row.spline);
        }
    }
}

// If `clears` is true, the flag of the spline before k is cleared.
#[tactic(auto, unfolding(crate::specs::Tables::clear_flag))]
fn clear_flag(clears: bool, contour: &mut [u8], k: usize)
    ensures { contour.new ≡ clear_flag clears contour.old k }
{
    if clears {
        write(contour, k.saturating_sub(1), flag_byte(false));
    }
}

impl SplineColumnsMut<'_> {
    // Column by column: the eight are of four types, so a list of them would be no plainer.
    #[tactic(auto, unfolding(crate::specs::Tables::put_spline))]
    pub fn put(&mut self, edit: SplineEdit)
        ensures same { SameSplines self.old self.new }
        ensures put { splines_mut_of self.new ≡ put_spline (splines_mut_of self.old) (spline_edited edit) }
    {
        let k = edit.at as usize;
        let row = edit.row;
        write(self.curvature, k, row.curvature);
        write(self.p0x, k, row.p0.x);
        write(self.p0y, k, row.p0.y);
        write(self.p2x, k, row.p2.x);
        write(self.p2y, k, row.p2.y);
        clear_flag(edit.clears, self.contour, k);
        write(self.contour, k, flag_byte(row.contour));
        write(self.first_quad, k, row.first_quad);
        write(self.quad_count, k, row.quad_count);
    }
}

impl QuadColumns<'_> {
    // Where the row is not whole, its numbers are NaN.
    pub fn row_at(&self, i: usize) -> QuadRow
        ensures { result ≡ quad_row_at (quads_of self.now) i }
    {
        let spline = read(self.partial_splines, i, 0);
        if i < self.whole_rows() {
            let start = WIDTH * i;
            return quad_row(self.quad_rows[start..].first_chunk().unwrap(), spline);
        }
        quad_row(&[f32::NAN; WIDTH], spline)
    }

    // The sum of quad i, or NaN where its row is not whole.
    pub fn sum_at(&self, i: usize) -> f32
        ensures { result ≡ sum_at_of self.now.quad_rows.now i }
    {
        if i < self.whole_rows() {
            return self.quad_rows[WIDTH * i + 14];
        }
        f32::NAN
    }
}

impl SplineColumns<'_> {
    pub fn at(&self, k: usize) -> SplineRow
        ensures { result ≡ spline_at (splines_of self.now) k }
    {
        SplineRow {
            curvature: read(self.curvature, k, f32::NAN),
            p0: Point {
                x: read(self.p0x, k, f32::NAN),
                y: read(self.p0y, k, f32::NAN),
            },
            p2: Point {
                x: read(self.p2x, k, f32::NAN),
                y: read(self.p2y, k, f32::NAN),
            },
            contour: is_flag(read(self.contour, k, 0)),
            first_quad: read(self.first_quad, k, 0),
            quad_count: read(self.quad_count, k, 0),
        }
    }

    // The last of n splines. If there is none, a mark waits, so the spline given in its place decides nothing.
    #[tactic(auto, unfolding(crate::specs::Tables::last_spline_of))]
    pub fn last(&self, n: u32) -> SplineRow
        ensures { result ≡ last_spline_of (splines_of self.now) n }
    {
        if n == 0 {
            return SplineRow {
                curvature: 0.0,
                p0: Point { x: 0.0, y: 0.0 },
                p2: Point { x: 0.0, y: 0.0 },
                contour: false,
                first_quad: 0,
                quad_count: 0,
            };
        }
        self.at(n as usize - 1)
    }
}
