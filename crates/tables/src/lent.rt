// The columns of the two tables, lent by the caller: to read, and to write.
ghost use Rattle.std.specs.Prelude.{◌≡◌};
ghost use Rattle.tables.specs.Lent.{quads_of, splines_of, quads_mut_of, splines_mut_of};

use answer::Refusal;
use primitives::State;

// How many numbers a quad has.
pub const WIDTH: usize = 15;

// Row i of the quads is numbers 15·i to 15·i + 14 of quad_rows, and entry i of partial_splines.
#[derive(Clone, Copy)]
pub struct QuadColumns<'a> {
    pub quad_rows: &'a [f32],
    pub partial_splines: &'a [u32],
}

#[derive(Clone, Copy)]
pub struct SplineColumns<'a> {
    pub curvature: &'a [f32],
    pub p0x: &'a [f32],
    pub p0y: &'a [f32],
    pub p2x: &'a [f32],
    pub p2y: &'a [f32],
    pub contour: &'a [u8],
    pub first_quad: &'a [usize],
    pub quad_count: &'a [u32],
}

#[derive(Drop)]
pub struct QuadColumnsMut<'a> {
    pub quad_rows: &'a mut [f32],
    pub partial_splines: &'a mut [u32],
}

#[derive(Drop)]
pub struct SplineColumnsMut<'a> {
    pub curvature: &'a mut [f32],
    pub p0x: &'a mut [f32],
    pub p0y: &'a mut [f32],
    pub p2x: &'a mut [f32],
    pub p2y: &'a mut [f32],
    pub contour: &'a mut [u8],
    pub first_quad: &'a mut [usize],
    pub quad_count: &'a mut [u32],
}

#[derive(Drop)]
pub struct Tables<'a, 'b, 'q, 's> {
    pub quads: &'a mut QuadColumnsMut<'q>,
    pub splines: &'b mut SplineColumnsMut<'s>,
}

// Why a drawing is refused, and what was stored before.
#[derive(Clone, Copy)]
pub struct Refused {
    pub refusal: Refusal,
    pub state: State,
}

impl QuadColumnsMut<'_> {
    pub fn view(&self) -> QuadColumns<'_>
        ensures { quads_of result ≡ quads_mut_of self.now }
    {
        QuadColumns {
            quad_rows: self.quad_rows,
            partial_splines: self.partial_splines,
        }
    }
}

impl SplineColumnsMut<'_> {
    pub fn view(&self) -> SplineColumns<'_>
        ensures { splines_of result ≡ splines_mut_of self.now }
    {
        SplineColumns {
            curvature: self.curvature,
            p0x: self.p0x,
            p0y: self.p0y,
            p2x: self.p2x,
            p2y: self.p2y,
            contour: self.contour,
            first_quad: self.first_quad,
            quad_count: self.quad_count,
        }
    }
}
