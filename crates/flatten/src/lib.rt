// The public flattening, in both settings.
#![tactic(auto)]

ghost use Rattle.std.specs.Prelude.{◌≡◌};
ghost use Rattle.store.specs.Lent.{drawing_columns};
ghost use Rattle.tables.specs.Lent.{quads_mut_of, splines_mut_of, SameTables};
ghost use Rattle.evaluate.specs.Lent.{output_of, SameOutputs};
ghost use Rattle.flatten.specs.Answer.{answered};
ghost use Rattle.flatten.specs.Flatten.{flattening, flatten_of};

use answer::Refusal;
use evaluate::Outputs;
use point::Setting;
use primitives::State;
use store::Drawing;
use tables::Tables;

// How many splines, quads and points there are.
#[derive(Clone, Copy)]
pub struct Flattened {
    pub splines: usize,
    pub quads: usize,
    pub points: usize,
}

// The refusal, and how many splines and quads the tables hold.
#[derive(Clone, Copy)]
pub struct Refused {
    pub refusal: Refusal,
    pub splines: usize,
    pub quads: usize,
}

// The drawing in the store becomes tables, words and points. It is not closed first, and each call reads it anew.
pub fn flatten(
    setting: Setting,
    drawing: &Drawing<'_>,
    tables: &mut Tables<'_, '_, '_, '_>,
    outputs: &mut Outputs<'_>,
) -> Result<Flattened, Refused>
    ensures same { SameTables tables.old tables.new × SameOutputs outputs.old outputs.new }
    ensures whole { flattening (answered result) (quads_mut_of tables.new.quads.now) (splines_mut_of tables.new.splines.now) (output_of outputs.new) ≡ flatten_of setting drawing.now.state (drawing_columns drawing.now) (quads_mut_of tables.old.quads.now) (splines_mut_of tables.old.splines.now) (output_of outputs.old) }
{
    if !drawing.drawable() {
        return Err(Refused {
            refusal: Refusal::Unusable,
            splines: 0,
            quads: 0,
        });
    }
    let refused = |refusal, state: State| Refused {
        refusal,
        splines: state.splines as usize,
        quads: state.quads,
    };
    let state = tables
        .fill(setting, drawing)
        .map_err(|stop| refused(stop.refusal, stop.state))?;
    let points = evaluate::deliver(
        setting,
        &tables.quads.view(),
        &tables.splines.view(),
        state.splines,
        outputs,
    )
    .ok_or(refused(Refusal::OutputShort, state))?;
    Ok(Flattened {
        splines: state.splines as usize,
        quads: state.quads,
        points,
    })
}
