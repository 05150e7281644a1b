// What is seen of a drawing and its flattening, as numbers: the first entries of each of the 18 columns that `flatten::flatten` takes, one column after another.
ghost use Rattle.std.specs.Prelude.{◌≤◌};

use std::io;
use std::io::Read;

#[derive(Clone, Copy, PartialEq, Eq)]
pub enum Column {
    X,
    Y,
    Weight,
    Commands,
    QuadRows,
    PartialSplines,
    Curvature,
    P0x,
    P0y,
    P2x,
    P2y,
    Contour,
    FirstQuad,
    QuadCount,
    Words,
    OutX,
    OutY,
    OutEnd,
}

// 4 columns of 256 numbers, one of 1,934, 9 of 128 and 4 of 1,024.
pub const ALL: usize = 8206;

// Those of both tables.
pub fn tables(seen: &[u32; ALL]) -> &[u32] {
    &seen[1024..4110]
}

// Those of both tables and of the outputs.
pub fn results(seen: &[u32; ALL]) -> &[u32] {
    &seen[1024..]
}

pub const POINTS: [Column; 3] = [Column::X, Column::Y, Column::Weight];

pub const COMMANDS: [Column; 1] = [Column::Commands];

pub const QUADS: [Column; 2] = [Column::QuadRows, Column::PartialSplines];

pub const SPLINES: [Column; 8] = [
    Column::Curvature,
    Column::P0x,
    Column::P0y,
    Column::P2x,
    Column::P2y,
    Column::Contour,
    Column::FirstQuad,
    Column::QuadCount,
];

pub const OUTPUTS: [Column; 4] = [Column::Words, Column::OutX, Column::OutY, Column::OutEnd];

impl Column {
    // Where its numbers begin. These are the sums of `room` over the columns before, written out: a loop over them would need a list of all columns, an order on
    // them, and an invariant for the bound, to say the same 18 numbers.
    pub fn first(self) -> usize
        ensures { result ≤ 8206 }
    {
        match self {
            Column::X => 0,
            Column::Y => 256,
            Column::Weight => 512,
            Column::Commands => 768,
            Column::QuadRows => 1024,
            Column::PartialSplines => 2958,
            Column::Curvature => 3086,
            Column::P0x => 3214,
            Column::P0y => 3342,
            Column::P2x => 3470,
            Column::P2y => 3598,
            Column::Contour => 3726,
            Column::FirstQuad => 3854,
            Column::QuadCount => 3982,
            Column::Words => 4110,
            Column::OutX => 5134,
            Column::OutY => 6158,
            Column::OutEnd => 7182,
        }
    }

    // How many of its numbers are seen. Those of quad_rows are 128 rows, and 14 of an incomplete one.
    pub fn room(self) -> usize
        ensures { result ≤ 1934 }
    {
        match self {
            Column::X | Column::Y | Column::Weight | Column::Commands => 256,
            Column::QuadRows => 1934,
            Column::Words | Column::OutX | Column::OutY | Column::OutEnd => 1024,
            _ => 128,
        }
    }

    // How many numbers it has for n rows, as far as any are seen: a quad has 15 in quad_rows.
    pub fn extent(self, n: usize) -> usize
        ensures { result ≤ 15360 }
    {
        let rows = n.min(1024);
        match self {
            Column::QuadRows => 15 * rows,
            _ => rows,
        }
    }

    // Its numbers.
    pub fn numbers(self, seen: &[u32; ALL]) -> &[u32] {
        let first = self.first();
        seen.get(first..first + self.room()).unwrap_or_default()
    }

    // One of its numbers.
    pub fn entry(self, seen: &[u32; ALL], i: usize) -> u32 {
        replay::number_at(seen, self.first(), i)
    }
}

// Whether the next n rows of the list are those of these columns. The list goes row by row, so each number is found by its place.
pub fn rows_follow(
    list: &mut impl Read,
    seen: &[u32; ALL],
    columns: &[Column],
    n: u32,
) -> io::Result<bool> {
    let mut good = true;
    for i in 0..n {
        for column in columns {
            let at = column.first() + column.extent(i as usize);
            good &= replay::follow(list, seen, at, column.extent(1))?;
        }
    }
    Ok(good)
}
