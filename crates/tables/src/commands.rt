// The commands of a store, taken in order: PathData::segments.
ghost use Rattle.std.specs.Prelude.{◌≡◌};
ghost use Rattle.store.specs.Lent.{drawing_columns};
ghost use Rattle.answer.specs.Answer.{Done};
ghost use Rattle.tables.specs.Lent.{quads_mut_of, splines_mut_of, SameTables, SameRun, world_of, filled_world};
ghost use Rattle.tables.specs.Run.{run_of};
ghost use Rattle.tables.specs.Commands.{cubic_from, command_primitives_of, tables_of};

use crate::lent::{Refused, Tables};
use answer::Refusal;
use point::Setting;
use primitives::{Capacities, Cubic, Primitive, Run, State};
use store::{Drawing, LINE, MOVE, QUAD, uses};

// The cubic whose start is point i. No column is so long that the last index has a point.
fn cubic_from(drawing: &Drawing<'_>, i: usize) -> Cubic
    ensures { result ≡ cubic_from (drawing_columns drawing.now) i }
{
    Cubic {
        p0: drawing.stored_point(i),
        p1: drawing.stored_point(i.saturating_add(1)),
        p2: drawing.stored_point(i.saturating_add(2)),
        p3: drawing.stored_point(i.saturating_add(3)),
    }
}

impl Tables<'_, '_, '_, '_> {
    // The primitives of the command k, where j points are used up before it: it starts from the last of them.
    fn push_command(
        &mut self,
        run: &mut Run,
        drawing: &Drawing<'_>,
        k: u8,
        j: usize,
    ) -> Result<(), Refusal>
        ensures same { SameTables self.old self.new }
        ensures goes_on { SameRun run.old run.new }
        ensures ran { world_of result run.new.st self.new ≡ run_of run.old.setting run.old.caps (command_primitives_of (drawing_columns drawing.now) k j) (world_of Done run.old.st self.old) }
    {
        let before = j.saturating_sub(1);
        let p = match k {
            MOVE => Primitive::Contour,
            LINE => Primitive::Line(drawing.stored_point(before), drawing.stored_point(j)),
            QUAD => {
                let p0 = drawing.stored_point(before);
                let p1 = drawing.stored_point(j);
                Primitive::Quad(p0, p1, drawing.stored_point(j.saturating_add(1)))
            }
            _ => return self.push_cubic(Ok(()), run, cubic_from(drawing, before)),
        };
        self.push(Ok(()), run, p)
    }

    // The tables of a drawing: its commands are taken in order, and a refusal stops the run.
    pub fn fill(&mut self, setting: Setting, drawing: &Drawing<'_>) -> Result<State, Refused>
        ensures same { SameTables self.old self.new }
        ensures filled { filled_world result self.new ≡ tables_of setting drawing.now.state (drawing_columns drawing.now) (quads_mut_of self.old.quads.now) (splines_mut_of self.old.splines.now) }
    {
        let mut run = Run {
            setting,
            caps: Capacities {
                quads: self.quads.view().capacity(),
                splines: self.splines.view().capacity(),
            },
            st: State {
                splines: 0,
                quads: 0,
                mark: true,
                last: None,
            },
            last: self.splines.view().last(0),
        };
        let n = drawing.state.commands.min(drawing.commands.len());
        let mut j = 0usize;
        for k in &drawing.commands[..n] {
            if let Err(refusal) = self.push_command(&mut run, drawing, *k, j) {
                return Err(Refused {
                    refusal,
                    state: run.st,
                });
            }
            j = j.saturating_add(uses(*k));
        }
        Ok(run.st)
    }
}
