// A flattening into columns of this program's own, and what it leaves in them, as numbers. Room for 128 quads and an incomplete row, 128 splines and 1,024
// words.
ghost use Rattle.std.specs.Prelude.{◌≤◌};

use crate::layout::{ALL, Column};
use evaluate::Outputs;
use flatten::{Flattened, Refused};
use point::Setting;
use replay::Entry;
use store::Drawing;
use tables::{QuadColumns, QuadColumnsMut, SplineColumns, SplineColumnsMut, Tables};

// Every number of a column that nothing was written to: no table holds it.
pub const UNTOUCHED: u32 = 167;

// Which column of a table is short. quad_rows is so in two ways: lent with an incomplete row, or without.
#[derive(Clone, Copy, PartialEq, Eq)]
pub enum Short {
    Of(Column),
    WholeRows,
}

pub const SHORTS: [Short; 11] = [
    Short::Of(Column::QuadRows),
    Short::Of(Column::PartialSplines),
    Short::Of(Column::Curvature),
    Short::Of(Column::P0x),
    Short::Of(Column::P0y),
    Short::Of(Column::P2x),
    Short::Of(Column::P2y),
    Short::Of(Column::Contour),
    Short::Of(Column::FirstQuad),
    Short::Of(Column::QuadCount),
    Short::WholeRows,
];

// A column that is full before a row.
#[derive(Clone, Copy)]
pub struct Full {
    pub short: Short,
    pub place: usize,
}

// The length of a column with a number for each row: up to where it is full, or all its room.
fn length(full: Option<Full>, column: Column) -> usize
    ensures { result ≤ 128 }
{
    match full {
        Some(full) if full.short == Short::Of(column) => full.place.min(128),
        _ => 128,
    }
}

// The same of quad_rows, where a row has 15 numbers.
fn length_of_rows(full: Option<Full>) -> usize
    ensures { result ≤ 1934 }
{
    match full {
        Some(full) if full.short == Short::Of(Column::QuadRows) => 15 * full.place.min(128) + 14,
        Some(full) if full.short == Short::WholeRows => 15 * full.place.min(128),
        _ => 1934,
    }
}

fn put<T: Entry>(seen: &mut [u32; ALL], column: Column, entries: &[T]) {
    replay::put(seen, column.first(), entries, column.room());
}

pub fn put_store(seen: &mut [u32; ALL], drawing: &Drawing<'_>) {
    put(seen, Column::X, drawing.x);
    put(seen, Column::Y, drawing.y);
    put(seen, Column::Weight, drawing.weight);
    put(seen, Column::Commands, drawing.commands);
}

fn put_tables(seen: &mut [u32; ALL], quads: &QuadColumns<'_>, splines: &SplineColumns<'_>) {
    put(seen, Column::QuadRows, quads.quad_rows);
    put(seen, Column::PartialSplines, quads.partial_splines);
    put(seen, Column::Curvature, splines.curvature);
    put(seen, Column::P0x, splines.p0x);
    put(seen, Column::P0y, splines.p0y);
    put(seen, Column::P2x, splines.p2x);
    put(seen, Column::P2y, splines.p2y);
    put(seen, Column::Contour, splines.contour);
    put(seen, Column::FirstQuad, splines.first_quad);
    put(seen, Column::QuadCount, splines.quad_count);
}

// The flattening, with a column that is full or with none.
pub fn flattened(
    drawing: &Drawing<'_>,
    setting: Setting,
    full: Option<Full>,
    seen: &mut [u32; ALL],
) -> Result<Flattened, Refused> {
    let float = leaves::from_bits(UNTOUCHED);
    let byte = UNTOUCHED as u8;
    // These arrays are spelled out here and in longest.rt, which has others of other lengths: an array cannot be lent out of the function that owns it, and
    // there is no heap.
    let mut quad_rows = [float; 1934];
    let mut partial_splines = [UNTOUCHED; 128];
    let mut curvature = [float; 128];
    let mut p0x = [float; 128];
    let mut p0y = [float; 128];
    let mut p2x = [float; 128];
    let mut p2y = [float; 128];
    let mut contour = [byte; 128];
    let mut first_quad = [UNTOUCHED as usize; 128];
    let mut quad_count = [UNTOUCHED; 128];
    let mut words = [UNTOUCHED; 1024];
    let mut x = [float; 1024];
    let mut y = [float; 1024];
    let mut end = [byte; 1024];
    let mut quads = QuadColumnsMut {
        quad_rows: &mut quad_rows[..length_of_rows(full)],
        partial_splines: &mut partial_splines[..length(full, Column::PartialSplines)],
    };
    let mut splines = SplineColumnsMut {
        curvature: &mut curvature[..length(full, Column::Curvature)],
        p0x: &mut p0x[..length(full, Column::P0x)],
        p0y: &mut p0y[..length(full, Column::P0y)],
        p2x: &mut p2x[..length(full, Column::P2x)],
        p2y: &mut p2y[..length(full, Column::P2y)],
        contour: &mut contour[..length(full, Column::Contour)],
        first_quad: &mut first_quad[..length(full, Column::FirstQuad)],
        quad_count: &mut quad_count[..length(full, Column::QuadCount)],
    };
    let mut tables = Tables {
        quads: &mut quads,
        splines: &mut splines,
    };
    let mut outputs = Outputs {
        words: &mut words,
        x: &mut x,
        y: &mut y,
        end: &mut end,
    };
    let r = flatten::flatten(setting, drawing, &mut tables, &mut outputs);
    let quads = QuadColumns {
        quad_rows: &quad_rows,
        partial_splines: &partial_splines,
    };
    let splines = SplineColumns {
        curvature: &curvature,
        p0x: &p0x,
        p0y: &p0y,
        p2x: &p2x,
        p2y: &p2y,
        contour: &contour,
        first_quad: &first_quad,
        quad_count: &quad_count,
    };
    put_tables(seen, &quads, &splines);
    put(seen, Column::Words, &words);
    put(seen, Column::OutX, &x);
    put(seen, Column::OutY, &y);
    put(seen, Column::OutEnd, &end);
    r
}
