// Primitives pushed into the tables, as planned: push_line, push_quad and push_cubic of path.rs.
ghost use Rattle.std.specs.Prelude.{◌≡◌, [], ◌∷◌};
ghost use Rattle.answer.specs.Answer.{Done};
ghost use Rattle.primitives.specs.Cubics.{cubic_quads_of};
ghost use Rattle.primitives.specs.Edits.{edited};
ghost use Rattle.tables.specs.Lent.{quads_mut_of, splines_mut_of, SameTables, SameRun, world_of};
ghost use Rattle.tables.specs.Run.{apply_of, run_of};

use crate::lent::Tables;
use answer::Answer;
use primitives::{Cubic, Edit, Primitive, Run, State};

const MAX_PIECES: u32 = 1024;

impl Tables<'_, '_, '_, '_> {
    // The few changes of an edit, in the tables.
    #[tactic(auto, unfolding(crate::specs::Run::apply_of))]
    fn apply(&mut self, edit: Edit) -> State
        ensures same { SameTables self.old self.new }
        ensures applied { world_of Done result self.new ≡ apply_of (edited edit) (quads_mut_of self.old.quads.now) (splines_mut_of self.old.splines.now) }
    {
        match edit {
            Edit::Keep(st) => st,
            Edit::Extend(spline) => {
                self.splines.put(spline);
                spline.next
            }
            Edit::Bend(spline, i, row) => {
                self.quads.put(i, row);
                self.splines.put(spline);
                spline.next
            }
        }
    }

    // One primitive, if nothing was refused before it. On a refusal all stays.
    #[tactic(auto, unfolding(crate::specs::Run::run_of, crate::specs::Run::push_of, crate::specs::Run::apply_of))]
    pub fn push(&mut self, before: Answer, run: &mut Run, p: Primitive) -> Answer
        ensures same { SameTables self.old self.new }
        ensures goes_on { SameRun run.old run.new }
        ensures ran { world_of result run.new.st self.new ≡ run_of run.old.setting run.old.caps (p ∷ []) (world_of before run.old.st self.old) }
    {
        before?;
        let last = self.splines.view().last(run.st.splines);
        let edit = Run { last, ..*run }.plan(p)?;
        run.st = self.apply(edit);
        Ok(())
    }

    // The pieces of a cubic, or the refusal of too many of them, if nothing was refused before.
    pub fn push_cubic(&mut self, before: Answer, run: &mut Run, c: Cubic) -> Answer
        ensures same { SameTables self.old self.new }
        ensures goes_on { SameRun run.old run.new }
        ensures ran { world_of result run.new.st self.new ≡ run_of run.old.setting run.old.caps (cubic_quads_of c) (world_of before run.old.st self.old) }
    {
        if before.is_err() {
            return before;
        }
        let n = c.pieces();
        if n > MAX_PIECES {
            return self.push(Ok(()), run, Primitive::Excess);
        }
        let incr = 1.0 / n as f32;
        let mut start = c.p0.applied();
        for i in 1..=n {
            let t = i as f32 * incr;
            let end = c.point(t);
            self.push(Ok(()), run, c.piece(start, end, t - 0.5 * incr))?;
            start = end;
        }
        Ok(())
    }
}
