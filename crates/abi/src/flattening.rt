// The flattening, with all its counts written through references.

ghost use Rattle.std.specs.Prelude.{◌≡◌};
ghost use Rattle.store.specs.Columns.{columns, state_at};
ghost use Rattle.tables.specs.Tables.{quad_table, spline_table};
ghost use Rattle.evaluate.specs.Output.{output};
ghost use Rattle.flatten.specs.Flatten.{flatten_of};
ghost use Rattle.store.specs.Lent.{drawing_columns};
ghost use Rattle.tables.specs.Lent.{quads_mut_of, splines_mut_of, SameTables};
ghost use Rattle.evaluate.specs.Lent.{output_of, SameOutputs};
ghost use Rattle.abi.specs.Lent.{SameCounts};
ghost use Rattle.abi.specs.Reply.{flat_reply, flat_reply_of, setting_of};

use evaluate::Outputs;
use point::Setting;
use store::{Drawing, StoreState};
use tables::{QuadColumnsMut, SplineColumnsMut, Tables};

// C gives a number. Not by From, since Setting is the point crate's, and which number stands for which setting is the C interface's.
#[tactic(auto, unfolding(crate::specs::Reply::setting_of))]
fn setting_of(number: u32) -> Setting
    ensures { result ≡ setting_of number }
{
    match number {
        0 => Setting::Screen,
        _ => Setting::Knife,
    }
}

// The counts that a flattening writes.
#[derive(Drop)]
struct Counts<'a> {
    splines: &'a mut usize,
    quads: &'a mut usize,
    length: &'a mut usize,
}

impl Counts<'_> {
    #[tactic(auto, unfolding(crate::specs::Reply::flat_reply_of))]
    fn flatten(
        &mut self,
        setting: Setting,
        drawing: &Drawing<'_>,
        tables: &mut Tables<'_, '_, '_, '_>,
        outputs: &mut Outputs<'_>,
    ) -> u32
        ensures same { SameCounts self.old self.new × SameTables tables.old tables.new × SameOutputs outputs.old outputs.new }
        ensures told { flat_reply result self.new.splines.now self.new.quads.now self.new.length.now (quads_mut_of tables.new.quads.now) (splines_mut_of tables.new.splines.now) (output_of outputs.new) ≡ flat_reply_of (flatten_of setting drawing.now.state (drawing_columns drawing.now) (quads_mut_of tables.old.quads.now) (splines_mut_of tables.old.splines.now) (output_of outputs.old)) }
    {
        let answer = match flatten::flatten(setting, drawing, tables, outputs) {
            Ok(f) => {
                *self.splines = f.splines;
                *self.quads = f.quads;
                *self.length = f.points;
                Ok(())
            }
            Err(r) => {
                *self.splines = r.splines;
                *self.quads = r.quads;
                *self.length = 0;
                Err(r.refusal)
            }
        };
        answer::number(answer)
    }
}

// points, used and opening are the store's; splines, quads and length are written. setting is 0 for the screen, any other number for the knife.
pub fn kermezhul_flatten(
    setting: u32,
    points: usize,
    used: usize,
    opening: usize,
    x: &[f32],
    y: &[f32],
    weight: &[f32],
    commands: &[u8],
    quad_rows: &mut [f32],
    partial_splines: &mut [u32],
    curvature: &mut [f32],
    p0x: &mut [f32],
    p0y: &mut [f32],
    p2x: &mut [f32],
    p2y: &mut [f32],
    contour: &mut [u8],
    first_quad: &mut [usize],
    quad_count: &mut [u32],
    words: &mut [u32],
    out_x: &mut [f32],
    out_y: &mut [f32],
    out_end: &mut [u8],
    splines: &mut usize,
    quads: &mut usize,
    length: &mut usize,
) -> u32
    ensures { flat_reply result splines.new quads.new length.new (quad_table quad_rows.new partial_splines.new) (spline_table curvature.new p0x.new p0y.new p2x.new p2y.new contour.new first_quad.new quad_count.new) (output words.new out_x.new out_y.new out_end.new) ≡ flat_reply_of (flatten_of (setting_of setting) (state_at points used opening) (columns x.now y.now weight.now commands.now) (quad_table quad_rows.old partial_splines.old) (spline_table curvature.old p0x.old p0y.old p2x.old p2y.old contour.old first_quad.old quad_count.old) (output words.old out_x.old out_y.old out_end.old)) }
{
    let drawing = Drawing {
        x,
        y,
        weight,
        commands,
        state: StoreState {
            points,
            commands: used,
            opening,
        },
    };
    let mut tables = Tables {
        quads: &mut QuadColumnsMut {
            quad_rows,
            partial_splines,
        },
        splines: &mut SplineColumnsMut {
            curvature,
            p0x,
            p0y,
            p2x,
            p2y,
            contour,
            first_quad,
            quad_count,
        },
    };
    let mut outputs = Outputs {
        words,
        x: out_x,
        y: out_y,
        end: out_end,
    };
    let mut counts = Counts {
        splines,
        quads,
        length,
    };
    counts.flatten(setting_of(setting), &drawing, &mut tables, &mut outputs)
}
