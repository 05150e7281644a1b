// The drawing store: PathBuilder's calls and PathData's closing, on lent columns x, y, weight and commands.
#![tactic(auto)]

ghost use Rattle.std.specs.Prelude.{◌≡◌};
ghost use Rattle.store.specs.Drawing.{outcome, draw_of, fresh_of};
ghost use Rattle.store.specs.Lent.{drawing_columns, store_columns, SameColumns};

use answer::Refusal;
use point::{Point, WeightedPoint};

mod builder;
mod limits;
mod reading;
mod writing;

pub use reading::uses;

// The commands are bytes here too, since the column that C lends holds bytes.
pub const MOVE: u8 = 0;

pub const LINE: u8 = 1;

pub const QUAD: u8 = 2;

pub const CUBIC: u8 = 3;

// The state beside the columns: how many points and commands there are, and which point opened the contour.
#[derive(Clone, Copy, Default, PartialEq, Eq)]
pub struct StoreState {
    pub points: usize,
    pub commands: usize,
    pub opening: usize,
}

// A store: the columns that a caller lends, and the state beside them.
#[derive(Drop)]
pub struct Store<'a> {
    pub x: &'a mut [f32],
    pub y: &'a mut [f32],
    pub weight: &'a mut [f32],
    pub commands: &'a mut [u8],
    pub state: StoreState,
}

// A store, to read.
#[derive(Clone, Copy)]
pub struct Drawing<'a> {
    pub x: &'a [f32],
    pub y: &'a [f32],
    pub weight: &'a [f32],
    pub commands: &'a [u8],
    pub state: StoreState,
}

// A drawing call as a value; the weights of a rational call come last.
#[derive(Clone, Copy)]
pub enum Call {
    Move(Point),
    Line(Point),
    Quad(Point, Point),
    Cubic(Point, Point, Point),
    RatQuad(Point, Point, f32),
    RatCubic(Point, Point, Point, f32, f32),
    Build,
}

impl Store<'_> {
    pub fn drawing(&self) -> Drawing<'_>
        ensures columns { drawing_columns result ≡ store_columns self.now }
        ensures state { result.state ≡ self.now.state }
    {
        Drawing {
            x: self.x,
            y: self.y,
            weight: self.weight,
            commands: self.commands,
            state: self.state,
        }
    }

    // PathBuilder::new. Old counts are not read.
    #[tactic(auto, using(crate::proofs::Deciding::fresh_even), unfolding(crate::specs::Drawing::fresh_of))]
    pub fn fresh(&mut self) -> Result<(), Refusal>
        ensures same { SameColumns self.old self.new }
        ensures fresh { outcome result self.new.state (store_columns self.new) ≡ fresh_of (store_columns self.old) }
    {
        self.state = StoreState::default();
        if !self.drawing().even() {
            return Err(Refusal::Unusable);
        }
        let origin = WeightedPoint::plain(Point::new(0.0, 0.0));
        self.write(0, &[origin], &[MOVE], 0)
    }

    // Any drawing call. The tests for answers 3, 1, 2 and 4, in that order, come before anything is written.
    #[tactic(auto, unfolding(crate::specs::Drawing::draw_of, crate::specs::Drawing::answer_of, crate::specs::Writing::carried_out))]
    pub fn draw(&mut self, call: Call) -> Result<(), Refusal>
        ensures same { SameColumns self.old self.new }
        ensures drawn { outcome result self.new.state (store_columns self.new) ≡ draw_of call self.old.state (store_columns self.old) }
    {
        if !self.drawing().usable() {
            return Err(Refusal::Unusable);
        }
        if !call.coordinates_ok() {
            return Err(Refusal::BadCoordinate);
        }
        if !call.weights_ok() {
            return Err(Refusal::BadWeight);
        }
        self.carry_out(call)
    }
}
