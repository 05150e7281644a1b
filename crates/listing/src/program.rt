// The program on slices: a listing in, points out. Its columns are its own, of the lengths that the program has room for; `told` alone delivers into lent ones.

ghost use Rattle.std.specs.Prelude.{◌≡◌};
ghost use Rattle.store.specs.Lent.{store_columns, drawing_columns, SameColumns};
ghost use Rattle.evaluate.specs.Lent.{output_of, SameOutputs};
ghost use Rattle.listing.specs.Writing.{listed, listed_as};
ghost use Rattle.listing.specs.Program.{program_columns, ready, drawn_as, drawn_of, listing_of};
ghost use Rattle.listing.specs.Told.{account_as, telling, told_from, told_of};

use crate::writing::Points;
use crate::{Refused, reading, writing};
use answer::Refusal;
use evaluate::Outputs;
use point::Setting;
use store::{Drawing, Store, StoreState};
use tables::{QuadColumnsMut, SplineColumnsMut, Tables};

// The most bytes that are read as a listing.
pub const LONGEST: usize = 16_384;

// The listing drawn, and built. What is not on a command's line is on line 0, the final build too.
fn draw(listing: &[u8], store: &mut Store<'_>) -> Result<(), Refused>
    requires { store_columns store.old ≡ program_columns }
    ensures same { SameColumns store.old store.new }
    ensures drawn { drawn_as result store.new.state (store_columns store.new) ≡ drawn_of listing.now }
{
    if listing.len() > LONGEST {
        return Err(Refused::from(Refusal::InputTooLong));
    }
    store.fresh()?;
    reading::read(listing, store)?;
    store.build()?;
    Ok(())
}

// The drawing flattened, with the program's own room for the tables; how many points there are.
fn flat(
    setting: Setting,
    drawing: &Drawing<'_>,
    outputs: &mut Outputs<'_>,
) -> Result<usize, Refused>
    ensures same { SameOutputs outputs.old outputs.new }
    ensures told { telling (account_as result) (output_of outputs.new) ≡ told_from setting (ready drawing.now.state (drawing_columns drawing.now)) (output_of outputs.old) }
{
    // The tables' room is a local of whoever flattens, here and in flatten_cases: see `listing` below.
    let mut quad_rows = [0.0f32; 3840];
    let mut partial_splines = [0u32; 256];
    let mut curvature = [0.0f32; 256];
    let mut p0x = [0.0f32; 256];
    let mut p0y = [0.0f32; 256];
    let mut p2x = [0.0f32; 256];
    let mut p2y = [0.0f32; 256];
    let mut contour = [0u8; 256];
    let mut first_quad = [0usize; 256];
    let mut quad_count = [0u32; 256];
    let mut quads = QuadColumnsMut {
        quad_rows: &mut quad_rows,
        partial_splines: &mut partial_splines,
    };
    let mut splines = SplineColumnsMut {
        curvature: &mut curvature,
        p0x: &mut p0x,
        p0y: &mut p0y,
        p2x: &mut p2x,
        p2y: &mut p2y,
        contour: &mut contour,
        first_quad: &mut first_quad,
        quad_count: &mut quad_count,
    };
    let mut tables = Tables {
        quads: &mut quads,
        splines: &mut splines,
    };
    let flattened = flatten::flatten(setting, drawing, &mut tables, outputs)?;
    Ok(flattened.points)
}

// The front half of the program: from the bytes of a listing to words and points in lent columns, and how many points there are.
pub fn told(setting: Setting, input: &[u8], outputs: &mut Outputs<'_>) -> Result<usize, Refused>
    ensures same { SameOutputs outputs.old outputs.new }
    ensures told { telling (account_as result) (output_of outputs.new) ≡ told_of setting input.now (output_of outputs.old) }
{
    let mut x = [0.0f32; 512];
    let mut y = [0.0f32; 512];
    let mut weight = [0.0f32; 512];
    let mut commands = [0u8; 512];
    let mut store = Store {
        x: &mut x,
        y: &mut y,
        weight: &mut weight,
        commands: &mut commands,
        state: StoreState::default(),
    };
    draw(input, &mut store)?;
    flat(setting, &store.drawing(), outputs)
}

// All of the program: from the bytes of a listing to all bytes of the output and their count; none if the output is too short for them.
pub fn listing(input: &[u8], output: &mut [u8]) -> Option<usize>
    ensures { listed result output.new ≡ listed_as (listing_of input.now) output.old }
{
    // Spelled out in plotting too: an array cannot be lent out of the function that owns it, and there is no heap.
    let mut words = [0u32; 512];
    let mut x = [0.0f32; 512];
    let mut y = [0.0f32; 512];
    let mut end = [0u8; 512];
    let mut outputs = Outputs {
        words: &mut words,
        x: &mut x,
        y: &mut y,
        end: &mut end,
    };
    match told(Setting::Screen, input, &mut outputs) {
        Ok(points) => {
            let Outputs { x, y, end, .. } = outputs;
            let finished = Points {
                x: &x[..points],
                y: &y[..points],
                end: &end[..points],
            };
            writing::report(output, &finished)
        }
        Err(refused) => writing::refuse(output, refused),
    }
}
