// Replays the original Rust's answers, from standard input: draws each listed drawing, flattens it and compares the store, both tables, words and points,
// number by number. Then it flattens the first ones, in both settings, with each column of the tables full before each row in turn, and just long enough. Last
// come drawings past a limit. It writes the number of each drawing that differs, and how many hold. tests/rust/answers/README.md says how the list is laid out
// and made.
#![tactic(auto)]

mod calls;
mod flattening;
mod layout;
mod limits;
mod longest;
mod refusing;

use flatten::{Flattened, Refused};
use layout::{ALL, COMMANDS, OUTPUTS, POINTS, QUADS, SPLINES, rows_follow};
use point::Setting;
use refusing::{each_column, each_enough};
use replay::{Tally, number};
use std::io;
use std::io::Read;
use store::{Drawing, Store, StoreState};

// As many drawings from the first on, all small, are flattened with full columns too.
const FULL: u32 = 472;

// The first row of a drawing: its setting, and how many of each there are.
#[derive(Clone, Copy)]
struct Expected {
    setting: Setting,
    calls: u32,
    points: u32,
    commands: u32,
    opening: u32,
    quads: u32,
    splines: u32,
    words: u32,
}

// Whether a drawing is as listed, its runs with a full column and those with just enough room.
#[derive(Clone, Copy)]
struct Replayed {
    same: bool,
    full: Tally,
    enough: Tally,
}

// The same of all drawings.
#[derive(Clone, Copy, Default)]
struct Total {
    same: Tally,
    full: Tally,
    enough: Tally,
}

fn counts(list: &mut impl Read) -> io::Result<Expected> {
    Ok(Expected {
        setting: match number(list)? {
            0 => Setting::Screen,
            _ => Setting::Knife,
        },
        calls: number(list)?,
        points: number(list)?,
        commands: number(list)?,
        opening: number(list)?,
        quads: number(list)?,
        splines: number(list)?,
        words: number(list)?,
    })
}

// Done, with as many of each as expected.
fn is_expected(r: Result<Flattened, Refused>, due: Expected) -> bool {
    match r {
        Ok(r) => r.quads == due.quads as usize
            && r.splines == due.splines as usize
            && r.points == due.words as usize,
        Err(_) => false,
    }
}

fn is_stored(state: StoreState, due: Expected) -> bool {
    state.points == due.points as usize
        && state.commands == due.commands as usize
        && state.opening == due.opening as usize
}

// The rows of the store, of both tables and of the outputs.
fn all_follow(list: &mut impl Read, seen: &[u32; ALL], due: Expected) -> io::Result<bool> {
    let points = rows_follow(list, seen, &POINTS, due.points)?;
    let commands = rows_follow(list, seen, &COMMANDS, due.commands)?;
    let quads = rows_follow(list, seen, &QUADS, due.quads)?;
    let splines = rows_follow(list, seen, &SPLINES, due.splines)?;
    let outputs = rows_follow(list, seen, &OUTPUTS, due.words)?;
    Ok(points && commands && quads && splines && outputs)
}

// The store as it was drawn, and the flattening.
fn holds(list: &mut impl Read, drawing: &Drawing<'_>, due: Expected) -> io::Result<bool> {
    let mut seen = [0u32; ALL];
    flattening::put_store(&mut seen, drawing);
    let r = flattening::flattened(drawing, due.setting, None, &mut seen);
    let followed = all_follow(list, &seen, due)?;
    Ok(is_stored(drawing.state, due) && is_expected(r, due) && followed)
}

// One drawing of the list. Those of the knife setting are listed where it differs: the runs that follow are of both settings.
fn case(list: &mut impl Read, k: u32) -> io::Result<Replayed> {
    let due = counts(list)?;
    let mut x = [0.0f32; 256];
    let mut y = [0.0f32; 256];
    let mut weight = [0.0f32; 256];
    let mut commands = [0u8; 256];
    let mut store = Store {
        x: &mut x,
        y: &mut y,
        weight: &mut weight,
        commands: &mut commands,
        state: StoreState::default(),
    };
    let done = calls::draw(list, &mut store, due.calls)?;
    let drawing = store.drawing();
    let same = done & holds(list, &drawing, due)?;
    let mut full = Tally::default();
    let mut enough = Tally::default();
    if k < FULL && matches!(due.setting, Setting::Screen) {
        for setting in [Setting::Screen, Setting::Knife] {
            full = full + each_column(&drawing, setting);
            enough = enough + each_enough(&drawing, setting);
        }
    }
    Ok(Replayed { same, full, enough })
}

fn cases(rt: &impl Print, list: &mut impl Read, n: u32) -> io::Result<Total> {
    let mut total = Total::default();
    for k in 0..n {
        let c = case(list, k)?;
        total.same.count(c.same);
        total.full = total.full + c.full;
        total.enough = total.enough + c.enough;
        if !(c.same && c.full.is_right() && c.enough.is_right()) {
            println!(rt; "drawing {k} differs")?;
        }
    }
    Ok(total)
}

fn main(rt: HostRuntime) -> io::Result<()> {
    let mut list = rt.stdin();
    let n = number(&mut list)?;
    let r = cases(&rt, &mut list, n)?;
    println!(rt;
        "{} drawings are as the original Rust flattens them",
        r.same
    )?;
    println!(rt;
        "{} runs with a full column are refused and keep what was pushed",
        r.full
    )?;
    println!(rt;
        "{} runs with a column just long enough are as with more room",
        r.enough
    )?;
    println!(rt;
        "{} runs past a limit are refused and keep what was pushed",
        limits::each_setting()
    )?;
    println!(rt;
        "{} rows of quads are flattened up to a sum of 65,536 and refused beyond",
        longest::rows()
    )
}
