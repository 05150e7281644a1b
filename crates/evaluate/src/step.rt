// The point of one step: what `into_segments` of path.rs does for it.
ghost use Rattle.std.specs.Prelude.{◌≡◌, ◌≤◌};
ghost use Rattle.tables.specs.Lent.{quads_of};
ghost use Rattle.tables.specs.Tables.{quad_row_at};
ghost use Rattle.evaluate.specs.Evaluate.{previous_sum_of, step_quad_of, parameter_of, step_point_of};

use crate::StepQuad;
use columns::read;
use point::{Point, WeightedPoint};
use tables::QuadColumns;

#[tactic(auto, unfolding(crate::specs::Evaluate::previous_sum_of, tables::specs::Tables::quad_row_at))]
fn previous_sum(quads: &QuadColumns<'_>, i: usize) -> f32
    ensures { result ≡ previous_sum_of (quad_row_at (quads_of quads.now)) i }
{
    let splines = quads.partial_splines;
    if i > 0 && read(splines, i - 1, 0) == read(splines, i, 0) {
        return quads.sum_at(i - 1);
    }
    0.0
}

impl StepQuad {
    // Quad i, as a step reads it.
    pub(crate) fn at(quads: &QuadColumns<'_>, i: usize) -> Self
        ensures { result ≡ step_quad_of (quad_row_at (quads_of quads.now)) i }
    {
        let row = quads.row_at(i);
        let weighted = |x, y, weight| WeightedPoint {
            point: Point { x, y },
            weight,
        };
        StepQuad {
            p0: weighted(row.x.a, row.y.a, row.weight.a),
            p1: weighted(row.x.b, row.y.b, row.weight.b),
            p2: weighted(row.x.c, row.y.c, row.weight.c),
            x0: row.x0,
            dx_recip: row.dx_recip,
            k0: row.k0,
            dk: row.dk,
            curvature_recip: row.curvature_recip,
            previous_sum: previous_sum(quads, i),
        }
    }

    // Where on the quad step p of this size lies, from 0 to 1.
    #[tactic(auto, unfolding(crate::specs::Evaluate::parameter_of))]
    fn parameter(self, size: f32, p: u32) -> f32
        requires { p ≤ 65537 }
        ensures { result ≡ parameter_of self size p }
    {
        let ratio = leaves::fma(size, p as f32, -self.previous_sum) * self.curvature_recip;
        let x = point::inv_curvature(leaves::fma(ratio, self.dk, self.k0));
        leaves::clamp((x - self.x0) * self.dx_recip, 0.0, 1.0)
    }

    #[tactic(auto, unfolding(crate::specs::Evaluate::step_point_of))]
    pub(crate) fn point(self, size: f32, p: u32) -> Point
        requires { p ≤ 65537 }
        ensures { result ≡ step_point_of self size p }
    {
        point::eval_quad(self.parameter(size, p), self.p0, self.p1, self.p2)
    }
}
