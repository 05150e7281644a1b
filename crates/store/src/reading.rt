// A drawing, read: whether it is usable and drawable, its points, and whether its last contour is unclosed.

ghost use Rattle.std.specs.Prelude.{◌≡◌, eqb, take};
ghost use Rattle.store.specs.Columns.{even_of, usable_of, last_command_of, stored_point_of, uses_of};
ghost use Rattle.store.specs.Closing.{unclosed_of};
ghost use Rattle.store.specs.Drawable.{total_uses_of, stored_ok_of, drawable_of};
ghost use Rattle.store.specs.Lent.{drawing_columns};

use crate::{CUBIC, Drawing, MOVE, StoreState, limits};
use columns::read;
use point::{Point, WeightedPoint};

impl Drawing<'_> {
    #[tactic(auto, unfolding(crate::specs::Columns::even_of))]
    pub(crate) fn even(&self) -> bool
        ensures { result ≡ even_of (drawing_columns self.now) }
    {
        (self.y.len() == self.x.len()) & (self.weight.len() == self.x.len())
    }

    #[tactic(auto, unfolding(crate::specs::Columns::last_command_of))]
    pub(crate) fn last_command(&self) -> u8
        ensures { result ≡ last_command_of self.now.state (drawing_columns self.now) }
    {
        read(self.commands, self.state.commands.saturating_sub(1), 0)
    }

    // Answer 3 of the drawing calls. Of the contents only the last command is read.
    #[tactic(auto, unfolding(crate::specs::Columns::usable_of))]
    pub(crate) fn usable(&self) -> bool
        ensures { result ≡ usable_of self.now.state (drawing_columns self.now) }
    {
        let StoreState {
            points,
            commands,
            opening,
        } = self.state;
        self.even()
            & (1 <= points)
            & (points <= self.x.len())
            & (1 <= commands)
            & (commands <= self.commands.len())
            & (opening < points)
            & (self.last_command() <= CUBIC)
    }

    // The Rust's `points!`; past a column's end it is NaN.
    pub fn stored_point(&self, i: usize) -> WeightedPoint
        ensures { result ≡ stored_point_of (drawing_columns self.now) i }
    {
        let x = read(self.x, i, f32::NAN);
        let y = read(self.y, i, f32::NAN);
        let weight = read(self.weight, i, f32::NAN);
        WeightedPoint {
            point: Point { x, y },
            weight,
        }
    }

    // PathData::close compares the points divided by their weights, not as they are stored.
    #[tactic(auto, unfolding(crate::specs::Closing::unclosed_of, point::specs::Point::same_of))]
    pub(crate) fn unclosed(&self) -> bool
        ensures { result ≡ unclosed_of self.now.state (drawing_columns self.now) }
    {
        let last = self.stored_point(self.state.points.saturating_sub(1));
        let opening = self.stored_point(self.state.opening);
        last.applied() != opening.applied()
    }

    // Whether the commands use as many points as there are. It counts down what is left, so no sum can wrap.
    fn uses_all(&self) -> bool
        ensures { result ≡ eqb (total_uses_of (take self.now.state.commands self.now.commands.now)) self.now.state.points }
    {
        self.commands.iter().take(self.state.commands).fold(
            Some(self.state.points),
            |left, command| left?.checked_sub(uses(*command)),
        ) == Some(0)
    }

    // Flattening's test for answer 3, over the whole drawing. Sub-slices: with `take` each step would test two ends.
    pub fn drawable(&self) -> bool
        ensures { result ≡ drawable_of self.now.state (drawing_columns self.now) }
    {
        if !self.usable() {
            return false;
        }
        let StoreState {
            points,
            commands,
            ..
        } = self.state;
        let drawn = self.commands[..commands].iter().all(|c| *c <= CUBIC)
            & (read(self.commands, 0, 0) == MOVE)
            & self.uses_all();
        let held = self.weight[..points].iter().all(|w| limits::weight_ok(*w))
            & self.x[..points].iter().all(|v| stored_ok(*v))
            & self.y[..points].iter().all(|v| stored_ok(*v));
        drawn & held
    }
}

// How many points a command uses.
pub fn uses(command: u8) -> usize
    ensures { result ≡ uses_of command }
{
    usize::from(command).max(1)
}

// 65,536 times 64: what a coordinate in range times a weight in range can reach.
fn stored_ok(v: f32) -> bool
    ensures { result ≡ stored_ok_of v }
{
    matches!(v, -4194304.0..=4194304.0)
}
