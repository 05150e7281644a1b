// What one primitive changes, or how it is refused: 5, 6, 7, 8 are tested before anything is stored.
ghost use Rattle.std.specs.Prelude.{◌≡◌};
ghost use Rattle.answer.specs.Answer.{Done};
ghost use Rattle.primitives.specs.Edits.{answered, spline_edited, edited_or};
ghost use Rattle.primitives.specs.Plan.{marked_of, plan_line_of, quad_row_of, plan_curve_of, plan_of};
ghost use Rattle.primitives.specs.Shapes.{quad_shape_of, shape_of};

use crate::quads::curve;
use crate::{Curve, Edit, Kind, Primitive, QuadRow, Run, Shape, SplineEdit, State, Three};
use answer::Refusal;
use point::{Point, WeightedPoint};

const SUM_LIMIT: f32 = 65536.0;

// A quad's three points are three parameters here and below, where a cubic's four are a `Cubic`: Primitive::Quad and the definitions have them apart, so that
// with a struct each clause would spell out quad.p0 quad.p1 quad.p2.
#[tactic(auto, unfolding(crate::specs::Plan::quad_row_of))]
fn quad_row(
    p0: WeightedPoint,
    p1: WeightedPoint,
    p2: WeightedPoint,
    curve: Curve,
    edit: SplineEdit,
) -> QuadRow
    ensures { result ≡ quad_row_of p0 p1 p2 curve (spline_edited edit) }
{
    QuadRow {
        x: Three {
            a: p0.point.x,
            b: p1.point.x,
            c: p2.point.x,
        },
        y: Three {
            a: p0.point.y,
            b: p1.point.y,
            c: p2.point.y,
        },
        weight: Three {
            a: p0.weight,
            b: p1.weight,
            c: p2.weight,
        },
        x0: curve.x0,
        dx_recip: curve.dx_recip,
        k0: curve.k0,
        dk: curve.dk,
        curvature_recip: 1.0 / curve.curvature,
        partial_curvature: edit.row.curvature,
        spline: edit.at,
    }
}

// push_quad: with both legs' angles missing the quad is dropped; with one missing it is a line.
#[tactic(auto, unfolding(crate::specs::Shapes::quad_shape_of, crate::specs::Shapes::legs_of))]
fn quad_shape(p0: WeightedPoint, p1: WeightedPoint, p2: WeightedPoint) -> Shape
    ensures { result ≡ quad_shape_of p0 p1 p2 }
{
    let start = p0.applied();
    let mid = p1.applied();
    let end = p2.applied();
    match ((mid - start).angle(), (end - mid).angle()) {
        (None, None) => Shape::Nothing,
        (Some(in_angle), Some(out_angle)) => Shape::Curved(p0, p1, p2, in_angle, out_angle),
        _ => Shape::Straight(start, end),
    }
}

#[tactic(auto, unfolding(crate::specs::Shapes::shape_of))]
fn shape(p: Primitive) -> Shape
    ensures { result ≡ shape_of p }
{
    match p {
        Primitive::Contour => Shape::Mark,
        Primitive::Line(p0, p1) => Shape::Straight(p0.applied(), p1.applied()),
        Primitive::Quad(p0, p1, p2) => quad_shape(p0, p1, p2),
        Primitive::Excess => Shape::Excess,
    }
}

impl Run {
    // push_contour: a mark waits.
    #[tactic(auto, unfolding(crate::specs::Plan::marked_of))]
    fn marked(&self) -> State
        ensures { answered Done result ≡ marked_of self.now.setting (answered Done self.now.st) }
    {
        State {
            mark: true,
            last: self.move_angle(),
            ..self.st
        }
    }

    // push_line
    #[tactic(auto, unfolding(crate::specs::Plan::plan_line_of, crate::specs::Plan::refused_of))]
    fn plan_line(&self, start: Point, end: Point) -> Result<Edit, Refusal>
        ensures { edited_or self.now.st result ≡ plan_line_of self.now.setting self.now.caps (answered Done self.now.st) self.now.last start end }
    {
        let angle = (end - start).angle();
        let opens = self.opens(Kind::Straight, angle, start);
        if opens & (self.caps.splines <= self.st.splines) {
            return Err(Refusal::SplinesFull);
        }
        let sum = self.sum_before(opens);
        let next = self.line_angle(angle);
        Ok(Edit::Extend(self.spline_edit(opens, start, end, sum, self.st.quads, next)))
    }

    // A quad with both angles.
    #[tactic(auto, unfolding(crate::specs::Plan::plan_curve_of, crate::specs::Plan::refused_of))]
    fn plan_curve(
        &self,
        p0: WeightedPoint,
        p1: WeightedPoint,
        p2: WeightedPoint,
        in_angle: f32,
        out_angle: f32,
    ) -> Result<Edit, Refusal>
        ensures { edited_or self.now.st result ≡ plan_curve_of self.now.setting self.now.caps (answered Done self.now.st) self.now.last p0 p1 p2 (Some in_angle) (Some out_angle) }
    {
        if self.caps.quads <= self.st.quads {
            return Err(Refusal::QuadsFull);
        }
        let start = p0.applied();
        let end = p2.applied();
        let opens = self.opens(Kind::Round, Some(in_angle), start);
        if opens & (self.caps.splines <= self.st.splines) {
            return Err(Refusal::SplinesFull);
        }
        let curve = curve(start, p1.applied(), end);
        let sum = self.sum_before(opens) + curve.curvature;
        if !(sum <= SUM_LIMIT) {
            return Err(Refusal::SumTooLarge);
        }
        let quads = self.st.quads + 1;
        let edit = self.spline_edit(opens, start, end, sum, quads, Some(out_angle));
        Ok(Edit::Bend(edit, self.st.quads, quad_row(p0, p1, p2, curve, edit)))
    }

    // A line is planned in one place. With a second one the compiler builds each edit in memory, and the copy of it calls memcpy.
    pub fn plan(&self, p: Primitive) -> Result<Edit, Refusal>
        ensures { edited_or self.now.st result ≡ plan_of self.now.setting self.now.caps (answered Done self.now.st) self.now.last p }
    {
        match shape(p) {
            Shape::Nothing => Ok(Edit::Keep(self.st)),
            Shape::Mark => Ok(Edit::Keep(self.marked())),
            Shape::Excess => Err(Refusal::TooManyPieces),
            Shape::Straight(start, end) => self.plan_line(start, end),
            Shape::Curved(p0, p1, p2, in_angle, out_angle) => {
                self.plan_curve(p0, p1, p2, in_angle, out_angle)
            }
        }
    }
}
