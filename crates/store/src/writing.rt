// What a call writes, once the tests for answers 3, 1 and 2 are passed. Where there is no room for all of it nothing is written.

ghost use Rattle.std.specs.Prelude.{◌≡◌, true, leb, cond, ◌+◌, ◌<◌, ◌^◌, length};
ghost use Rattle.store.specs.Columns.{usable_of, put_point, put_command};
ghost use Rattle.store.specs.Drawing.{outcome, writes, appended, writes_of, put_points, put_commands};
ghost use Rattle.store.specs.Lent.{store_columns, SameColumns};
ghost use Rattle.store.specs.Writing.{carried_out};

use crate::{CUBIC, Call, LINE, MOVE, QUAD, Store, StoreState};
use answer::Refusal;
use columns::write;
use point::{Point, WeightedPoint};

// Where n entries from `at` on end, if the column is that long.
fn end_within(at: usize, n: usize, len: usize) -> Result<usize, Refusal>
    ensures { result ≡ cond (leb (at + n) len) (Ok (at + n)) (Err Refusal.StoreFull) }
{
    at.checked_add(n)
        .filter(|end| *end <= len)
        .ok_or(Refusal::StoreFull)
}

impl Store<'_> {
    #[tactic(auto, unfolding(crate::specs::Columns::put_point))]
    fn put_point(&mut self, i: usize, p: WeightedPoint)
        ensures same { SameColumns self.old self.new }
        ensures state { self.new.state ≡ self.old.state }
        ensures put { store_columns self.new ≡ put_point (store_columns self.old) i p }
    {
        write(self.x, i, p.point.x);
        write(self.y, i, p.point.y);
        write(self.weight, i, p.weight);
    }

    #[tactic(auto, unfolding(crate::specs::Columns::put_command))]
    fn put_command(&mut self, i: usize, command: u8)
        ensures same { SameColumns self.old self.new }
        ensures state { self.new.state ≡ self.old.state }
        ensures put { store_columns self.new ≡ put_command (store_columns self.old) i command }
    {
        write(self.commands, i, command);
    }

    // Points and commands are written by a loop each: one generic function would have to lend `self` to a closure that writes to it.
    #[tactic(auto, using(crate::proofs::Deciding::points_step, crate::proofs::Deciding::points_done))]
    fn put_points(&mut self, at: usize, points: &[WeightedPoint])
        requires { at + length points.now < 2 ^ 64 }
        ensures same { SameColumns self.old self.new }
        ensures state { self.new.state ≡ self.old.state }
        ensures put { store_columns self.new ≡ put_points at points.now (store_columns self.old) }
    {
        for (i, p) in points.iter().enumerate() {
            self.put_point(at + i, *p);
        }
    }

    #[tactic(auto, using(crate::proofs::Deciding::commands_step, crate::proofs::Deciding::commands_done))]
    fn put_commands(&mut self, at: usize, commands: &[u8])
        requires { at + length commands.now < 2 ^ 64 }
        ensures same { SameColumns self.old self.new }
        ensures state { self.new.state ≡ self.old.state }
        ensures put { store_columns self.new ≡ put_commands at commands.now (store_columns self.old) }
    {
        for (i, command) in commands.iter().enumerate() {
            self.put_command(at + i, *command);
        }
    }

    // Points from an index on, commands after the last one, and the open index after the call.
    #[tactic(auto, unfolding(crate::specs::Drawing::room_of, crate::specs::Drawing::written, crate::specs::Drawing::state_after, crate::specs::Writing::carried_out))]
    pub(crate) fn write(
        &mut self,
        at: usize,
        points: &[WeightedPoint],
        commands: &[u8],
        opening: usize,
    ) -> Result<(), Refusal>
        ensures same { SameColumns self.old self.new }
        ensures written { outcome result self.new.state (store_columns self.new) ≡ carried_out (writes at points.now commands.now opening) self.old.state (store_columns self.old) }
    {
        let next = end_within(at, points.len(), self.x.len())?;
        let next_command = end_within(self.state.commands, commands.len(), self.commands.len())?;
        self.put_points(at, points);
        self.put_commands(self.state.commands, commands);
        self.state = StoreState {
            points: next,
            commands: next_command,
            opening,
        };
        Ok(())
    }

    // After the last point and the last command.
    #[tactic(auto, unfolding(crate::specs::Drawing::appended))]
    fn append(&mut self, points: &[WeightedPoint], command: u8) -> Result<(), Refusal>
        ensures same { SameColumns self.old self.new }
        ensures written { outcome result self.new.state (store_columns self.new) ≡ carried_out (appended self.old.state points.now command) self.old.state (store_columns self.old) }
    {
        self.write(self.state.points, points, &[command], self.state.opening)
    }

    // PathData::close.
    #[tactic(auto, using(crate::proofs::Deciding::close_none), unfolding(crate::specs::Drawing::writes_of, crate::specs::Drawing::closed))]
    fn close(&mut self) -> Result<(), Refusal>
        requires { usable_of self.old.state (store_columns self.old) ≡ true }
        ensures same { SameColumns self.old self.new }
        ensures written { outcome result self.new.state (store_columns self.new) ≡ carried_out (writes_of (Call.Build) self.old.state (store_columns self.old)) self.old.state (store_columns self.old) }
    {
        let drawing = self.drawing();
        if !drawing.unclosed() {
            return Ok(());
        }
        let opening = drawing.stored_point(drawing.state.opening);
        self.append(&[opening], LINE)
    }

    // PathBuilder::move_to: a move after a Move overwrites the last point, and any other closes first.
    #[tactic(auto, unfolding(crate::specs::Drawing::writes_of, crate::specs::Drawing::moved, crate::specs::Drawing::room_of, crate::specs::Writing::carried_out))]
    fn move_on(&mut self, p: Point) -> Result<(), Refusal>
        ensures same { SameColumns self.old self.new }
        ensures written { outcome result self.new.state (store_columns self.new) ≡ carried_out (writes_of (Call.Move p) self.old.state (store_columns self.old)) self.old.state (store_columns self.old) }
    {
        let StoreState {
            points,
            opening,
            ..
        } = self.state;
        let new = WeightedPoint::plain(p);
        let drawing = self.drawing();
        if drawing.last_command() == MOVE {
            return self.write(points.saturating_sub(1), &[new], &[], opening);
        }
        if !drawing.unclosed() {
            return self.write(points, &[new], &[MOVE], points);
        }
        let first = drawing.stored_point(opening);
        let next = end_within(points, 1, self.x.len())?;
        self.write(points, &[first, new], &[LINE, MOVE], next)
    }

    #[tactic(auto, unfolding(crate::specs::Drawing::writes_of))]
    pub(crate) fn carry_out(&mut self, call: Call) -> Result<(), Refusal>
        requires { usable_of self.old.state (store_columns self.old) ≡ true }
        ensures same { SameColumns self.old self.new }
        ensures written { outcome result self.new.state (store_columns self.new) ≡ carried_out (writes_of call self.old.state (store_columns self.old)) self.old.state (store_columns self.old) }
    {
        match call {
            Call::Move(p) => self.move_on(p),
            Call::Line(p) => self.append(&[WeightedPoint::plain(p)], LINE),
            Call::Quad(p1, p2) => {
                let points = [WeightedPoint::plain(p1), WeightedPoint::plain(p2)];
                self.append(&points, QUAD)
            }
            Call::Cubic(p1, p2, p3) => {
                let points = [
                    WeightedPoint::plain(p1),
                    WeightedPoint::plain(p2),
                    WeightedPoint::plain(p3),
                ];
                self.append(&points, CUBIC)
            }
            Call::RatQuad(p1, p2, w) => {
                let points = [WeightedPoint::rational(p1, w), WeightedPoint::plain(p2)];
                self.append(&points, QUAD)
            }
            Call::RatCubic(p1, p2, p3, w1, w2) => {
                let points = [
                    WeightedPoint::rational(p1, w1),
                    WeightedPoint::rational(p2, w2),
                    WeightedPoint::plain(p3),
                ];
                self.append(&points, CUBIC)
            }
            Call::Build => self.close(),
        }
    }
}
