// PathBuilder's calls, each by its name.

ghost use Rattle.std.specs.Prelude.{◌≡◌};
ghost use Rattle.store.specs.Drawing.{outcome, draw_of};
ghost use Rattle.store.specs.Lent.{store_columns, SameColumns};

use crate::{Call, Store};
use answer::Refusal;
use point::Point;

impl Store<'_> {
    pub fn move_to(&mut self, p: Point) -> Result<(), Refusal>
        ensures same { SameColumns self.old self.new }
        ensures drawn { outcome result self.new.state (store_columns self.new) ≡ draw_of (Call.Move p) self.old.state (store_columns self.old) }
    {
        self.draw(Call::Move(p))
    }

    pub fn line_to(&mut self, p: Point) -> Result<(), Refusal>
        ensures same { SameColumns self.old self.new }
        ensures drawn { outcome result self.new.state (store_columns self.new) ≡ draw_of (Call.Line p) self.old.state (store_columns self.old) }
    {
        self.draw(Call::Line(p))
    }

    pub fn quad_to(&mut self, p1: Point, p2: Point) -> Result<(), Refusal>
        ensures same { SameColumns self.old self.new }
        ensures drawn { outcome result self.new.state (store_columns self.new) ≡ draw_of (Call.Quad p1 p2) self.old.state (store_columns self.old) }
    {
        self.draw(Call::Quad(p1, p2))
    }

    pub fn cubic_to(&mut self, p1: Point, p2: Point, p3: Point) -> Result<(), Refusal>
        ensures same { SameColumns self.old self.new }
        ensures drawn { outcome result self.new.state (store_columns self.new) ≡ draw_of (Call.Cubic p1 p2 p3) self.old.state (store_columns self.old) }
    {
        self.draw(Call::Cubic(p1, p2, p3))
    }

    pub fn rat_quad_to(&mut self, p1: Point, p2: Point, w: f32) -> Result<(), Refusal>
        ensures same { SameColumns self.old self.new }
        ensures drawn { outcome result self.new.state (store_columns self.new) ≡ draw_of (Call.RatQuad p1 p2 w) self.old.state (store_columns self.old) }
    {
        self.draw(Call::RatQuad(p1, p2, w))
    }

    pub fn rat_cubic_to(
        &mut self,
        p1: Point,
        p2: Point,
        p3: Point,
        w1: f32,
        w2: f32,
    ) -> Result<(), Refusal>
        ensures same { SameColumns self.old self.new }
        ensures drawn { outcome result self.new.state (store_columns self.new) ≡ draw_of (Call.RatCubic p1 p2 p3 w1 w2) self.old.state (store_columns self.old) }
    {
        self.draw(Call::RatCubic(p1, p2, p3, w1, w2))
    }

    pub fn build(&mut self) -> Result<(), Refusal>
        ensures same { SameColumns self.old self.new }
        ensures drawn { outcome result self.new.state (store_columns self.new) ≡ draw_of (Call.Build) self.old.state (store_columns self.old) }
    {
        self.draw(Call::Build)
    }
}
