// The refusals 5 and 8, on drawings made here: the run stops at the last command with the tables as they are without it.
use crate::flattening::{Full, Short, flattened};
use crate::layout::{ALL, Column, OUTPUTS, tables};
use crate::refusing::all_kept;
use answer::Refusal;
use flatten::{Flattened, Refused};
use point::{Point, Setting};
use replay::Tally;
use store::{Call, Store, StoreState};

// 28 rounds of four quads have a sum of at most 65,536, and one more quad makes it larger.
const LONGEST: u32 = 112;

// The farthest points that can be drawn.
fn corner(x: f32, y: f32) -> Point {
    Point {
        x: 65536.0 * x,
        y: 65536.0 * y,
    }
}

// A quad from the middle of a square's side to the next one, where k quads are left. One goes on smoothly from another, so that they make one spline.
fn quarter(k: u32) -> Call {
    match k % 4 {
        0 => Call::Quad(corner(1.0, -1.0), corner(1.0, 0.0)),
        3 => Call::Quad(corner(1.0, 1.0), corner(0.0, 1.0)),
        2 => Call::Quad(corner(-1.0, 1.0), corner(-1.0, 0.0)),
        _ => Call::Quad(corner(-1.0, -1.0), corner(0.0, -1.0)),
    }
}

// Whole rounds, n quads in all. What a call answers shows in the flattening.
fn rounds(store: &mut Store<'_>, n: u32) {
    let _ = store.fresh();
    let _ = store.draw(Call::Move(corner(0.0, -1.0)));
    for left in (1..=n).rev() {
        let _ = store.draw(quarter(left));
    }
}

// Refused so, with one spline of so many quads.
fn is_refused(r: Result<Flattened, Refused>, refusal: Refusal, quads: usize) -> bool {
    match r {
        Ok(_) => false,
        Err(r) => r.refusal == refusal && r.splines == 1 && r.quads == quads,
    }
}

// Both tables are the same to the last entry that is seen, and no word and no point is written.
fn same_tables(got: &[u32; ALL], before: &[u32; ALL]) -> bool {
    all_kept(got, before, &OUTPUTS, 0) && tables(got) == tables(before)
}

// Flattens n quads, whose walk is longer than the outputs, and then with `last` drawn after them. That must be refused by `roomy` with room, and by `filled`
// if the quad table is full as well.
fn stops(setting: Setting, n: u32, last: Call, roomy: Refusal, filled: Refusal) -> bool {
    let mut x = [0.0f32; 256];
    let mut y = [0.0f32; 256];
    let mut weight = [0.0f32; 256];
    let mut commands = [0u8; 256];
    let mut before = [0u32; ALL];
    let mut room = [0u32; ALL];
    let mut none = [0u32; ALL];
    let mut store = Store {
        x: &mut x,
        y: &mut y,
        weight: &mut weight,
        commands: &mut commands,
        state: StoreState::default(),
    };
    let quads = n as usize;
    let full = Full {
        short: Short::Of(Column::QuadRows),
        place: quads,
    };
    rounds(&mut store, n);
    let a = flattened(&store.drawing(), setting, None, &mut before);
    let _ = store.draw(last);
    let b = flattened(&store.drawing(), setting, None, &mut room);
    let c = flattened(&store.drawing(), setting, Some(full), &mut none);
    is_refused(a, Refusal::OutputShort, quads)
        && is_refused(b, roomy, quads)
        && same_tables(&room, &before)
        && is_refused(c, filled, quads)
        && same_tables(&none, &before)
}

// A cubic with the greatest weights and far points, and a sum that is too large. If the quad table is full as well, 5 comes before 6 and 6 before 8.
fn each_limit(setting: Setting) -> Tally {
    let (p1, p2, p3) = (corner(1.0, 1.0), corner(-1.0, -1.0), corner(1.0, 0.0));
    let cubic = Call::RatCubic(p1, p2, p3, 64.0, 64.0);
    let many = Refusal::TooManyPieces;
    let mut tally = Tally::default();
    tally.count(stops(setting, 4, cubic, many, many));
    tally.count(stops(
        setting,
        LONGEST,
        quarter(0),
        Refusal::SumTooLarge,
        Refusal::QuadsFull,
    ));
    tally
}

pub fn each_setting() -> Tally {
    each_limit(Setting::Screen) + each_limit(Setting::Knife)
}
