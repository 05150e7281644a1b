// The longest row of straight quads, whose sum is 65,536, and the row with one more, which is refused.
ghost use Rattle.std.specs.Prelude.{◌≤◌};

use answer::Refusal;
use evaluate::Outputs;
use point::{Point, Setting};
use replay::Tally;
use store::{Drawing, Store, StoreState};
use tables::{QuadColumnsMut, SplineColumnsMut, Tables};

// Room for 32,769 quads, and their walk.
const POINTS: usize = 65_600;

const COMMANDS: usize = 32_800;

const QUADS: usize = 32_800;

// Their rows.
const NUMBERS: usize = 492_000;

const SPLINES: usize = 16;

// n straight quads of length 1 in a row, then closed. What a call answers shows in the flattening.
fn row(store: &mut Store<'_>, n: u32)
    requires { n ≤ 65536 }
{
    let _ = store.fresh();
    for k in 0..n {
        let a = k as f32;
        let _ = store.quad_to(Point::new(a + 0.5, 0.0), Point::new(a + 1.0, 0.0));
    }
    let _ = store.build();
}

// A Start, then steps of size 1.0, and a flagged End.
fn stepped(words: &[u32]) -> bool {
    match words {
        [start, steps @ .., end] => {
            *start == 0x7f80_0000
                && *end == 0xffc0_0000
                && steps.iter().all(|step| *step == 0x3f80_0000)
        }
        _ => false,
    }
}

// The words of so many points, and no word if there is to be no point.
fn walked(words: &[u32; POINTS], due: Result<usize, Refusal>) -> bool {
    match due {
        Ok(points) => words.get(..points).is_some_and(|words| stepped(words)),
        Err(_) => words.iter().all(|word| *word == 0),
    }
}

// Whether a row's first 32,768 quads are one spline, and so many points are written or none, with this refusal.
fn gives(drawing: &Drawing<'_>, due: Result<usize, Refusal>) -> bool {
    // All zeros, where flattening.rt marks what is untouched; why no function makes them for both is said there.
    let mut quad_rows = [0.0f32; NUMBERS];
    let mut partial_splines = [0u32; QUADS];
    let mut curvature = [0.0f32; SPLINES];
    let mut p0x = [0.0f32; SPLINES];
    let mut p0y = [0.0f32; SPLINES];
    let mut p2x = [0.0f32; SPLINES];
    let mut p2y = [0.0f32; SPLINES];
    let mut contour = [0u8; SPLINES];
    let mut first_quad = [0usize; SPLINES];
    let mut quad_count = [0u32; SPLINES];
    let mut words = [0u32; POINTS];
    let mut x = [0.0f32; POINTS];
    let mut y = [0.0f32; POINTS];
    let mut end = [0u8; POINTS];
    let mut quads = QuadColumnsMut {
        quad_rows: &mut quad_rows,
        partial_splines: &mut partial_splines,
    };
    let mut splines = SplineColumnsMut {
        curvature: &mut curvature,
        p0x: &mut p0x,
        p0y: &mut p0y,
        p2x: &mut p2x,
        p2y: &mut p2y,
        contour: &mut contour,
        first_quad: &mut first_quad,
        quad_count: &mut quad_count,
    };
    let mut tables = Tables {
        quads: &mut quads,
        splines: &mut splines,
    };
    let mut outputs = Outputs {
        words: &mut words,
        x: &mut x,
        y: &mut y,
        end: &mut end,
    };
    let (splines, quads, points) = match flatten::flatten(
        Setting::Screen,
        drawing,
        &mut tables,
        &mut outputs,
    ) {
        Ok(r) => (r.splines, r.quads, Ok(r.points)),
        Err(r) => (r.splines, r.quads, Err(r.refusal)),
    };
    splines == 1
        && quads == 32_768
        && points == due
        && quad_count[0] == 32_768
        && walked(&words, due)
}

// The same of the row of n quads, which also stores as many points.
fn row_gives(n: u32, stored: usize, due: Result<usize, Refusal>) -> bool
    requires { n ≤ 65536 }
{
    let mut x = [0.0f32; POINTS];
    let mut y = [0.0f32; POINTS];
    let mut weight = [0.0f32; POINTS];
    let mut commands = [0u8; COMMANDS];
    let mut store = Store {
        x: &mut x,
        y: &mut y,
        weight: &mut weight,
        commands: &mut commands,
        state: StoreState::default(),
    };
    row(&mut store, n);
    store.state.points == stored && gives(&store.drawing(), due)
}

pub fn rows() -> Tally {
    let mut tally = Tally::default();
    tally.count(row_gives(32_768, 65_538, Ok(65_537)));
    tally.count(row_gives(32_769, 65_540, Err(Refusal::SumTooLarge)));
    tally
}
