// When a primitive opens a spline, and the spline's row and the state after it: last_spline_or_insert_with as a plain decision.
ghost use Rattle.std.specs.Prelude.{true, ◌≡◌, ◌<◌};
ghost use Rattle.answer.specs.Answer.{Done};
ghost use Rattle.primitives.specs.Edits.{answered, spline_edited};
ghost use Rattle.primitives.specs.Splines.{far_of, spline_kind_of, apart_of, opens_of, line_angle_of, move_angle_of, sum_before, quad_count_of, spline_edit_of};

use crate::{Kind, Run, SplineEdit, SplineRow, State};
use point::{Point, Setting, changed};

// The square of MAX_ERROR, 0.0625.
const MAX_ERROR_SQUARED: f32 = 0.00390625;

// The rounded root reaches 0.0625 exactly when the square reaches 0.0625 squared, so no root is needed.
fn far(start: Point, last: SplineRow) -> bool
    ensures { result ≡ far_of start last }
{
    (start - last.p2).squared() >= MAX_ERROR_SQUARED
}

// A quad's own curvature is above 1, so a spline with a quad has a sum above 0.
#[tactic(auto, unfolding(crate::specs::Splines::spline_kind_of))]
fn spline_kind(spline: SplineRow) -> Kind
    ensures { result ≡ spline_kind_of spline }
{
    if spline.curvature == 0.0 {
        Kind::Straight
    } else {
        Kind::Round
    }
}

// For the knife the joint between straight and round is a vertex.
#[tactic(auto, unfolding(crate::specs::Splines::apart_of))]
fn apart(setting: Setting, a: Kind, b: Kind) -> bool
    ensures { result ≡ apart_of setting a b }
{
    match setting {
        Setting::Screen => false,
        Setting::Knife => a != b,
    }
}

// How many of the quads stored so far a spline has whose first is this one. On a row made by hand the number may not fit: then it is the largest that does.
#[tactic(auto, unfolding(crate::specs::Splines::quad_count_of))]
fn quad_count(first: usize, quads: usize) -> u32
    ensures { result ≡ quad_count_of first quads }
{
    u32::try_from(quads.saturating_sub(first)).unwrap_or(u32::MAX)
}

impl Run {
    #[tactic(auto, unfolding(crate::specs::Splines::opens_of))]
    pub(crate) fn opens(&self, kind: Kind, angle: Option<f32>, start: Point) -> bool
        ensures { result ≡ opens_of self.now.setting kind (answered Done self.now.st) self.now.last angle start }
    {
        self.st.mark
            | changed(self.setting, self.st.last, angle)
            | far(start, self.last)
            | apart(self.setting, kind, spline_kind(self.last))
    }

    // The last angle after a line: the knife keeps the one before where a line has none.
    #[tactic(auto, unfolding(crate::specs::Splines::line_angle_of))]
    pub(crate) fn line_angle(&self, angle: Option<f32>) -> Option<f32>
        ensures { result ≡ line_angle_of self.now.setting self.now.st.last angle }
    {
        match self.setting {
            Setting::Screen => angle,
            Setting::Knife => angle.or(self.st.last),
        }
    }

    // The last angle after a Move: the knife forgets it, so that no contour knows the one before.
    #[tactic(auto, unfolding(crate::specs::Splines::move_angle_of))]
    pub(crate) fn move_angle(&self) -> Option<f32>
        ensures { result ≡ move_angle_of self.now.setting self.now.st.last }
    {
        match self.setting {
            Setting::Screen => self.st.last,
            Setting::Knife => None,
        }
    }

    #[tactic(auto, unfolding(crate::specs::Splines::sum_before))]
    pub(crate) fn sum_before(&self, opens: bool) -> f32
        ensures { result ≡ sum_before opens self.now.last }
    {
        if opens { 0.0 } else { self.last.curvature }
    }

    // Callers first refuse a spline past the capacity, so the count plus one does not wrap.
    #[tactic(auto, unfolding(crate::specs::Splines::spline_edit_of))]
    pub(crate) fn spline_edit(
        &self,
        opens: bool,
        start: Point,
        end: Point,
        sum: f32,
        quads: usize,
        angle: Option<f32>,
    ) -> SplineEdit
        requires { opens ≡ true → self.now.st.splines < 4294967295 }
        ensures { spline_edited result ≡ spline_edit_of opens (answered Done self.now.st) self.now.last start end sum quads angle }
    {
        let next = State {
            splines: self.st.splines,
            quads,
            mark: false,
            last: angle,
        };
        if opens {
            let row = SplineRow {
                curvature: sum,
                p0: start,
                p2: end,
                contour: true,
                first_quad: self.st.quads,
                quad_count: quad_count(self.st.quads, quads),
            };
            return SplineEdit {
                clears: !self.st.mark,
                at: self.st.splines,
                row,
                next: State {
                    splines: self.st.splines + 1,
                    ..next
                },
            };
        }
        SplineEdit {
            clears: false,
            at: self.st.splines.saturating_sub(1),
            row: SplineRow {
                curvature: sum,
                p2: end,
                quad_count: quad_count(self.last.first_quad, quads),
                ..self.last
            },
            next,
        }
    }
}
