// The drawing calls. points, used and opening are the store's counts and open index: each call reads them, writes the new ones and returns the answer's number.
// A refused call changes nothing, except for `kermezhul_fresh`: it reads no counts, and if it is refused it sets all three to 0. The heads name what is lent one by
// one, since they are the C interface.

ghost use Rattle.std.specs.Prelude.{◌≡◌};
ghost use Rattle.point.specs.Point.{point_at};
ghost use Rattle.store.specs.Columns.{columns, state_at};
ghost use Rattle.store.specs.Drawing.{draw_of, fresh_of};
ghost use Rattle.answer.specs.Number.{number_of};
ghost use Rattle.abi.specs.Lent.{lent_state, lent_columns, SameLent};
ghost use Rattle.abi.specs.Reply.{reply, reply_of};

use answer::Answer;
use point::Point;
use store::{Call, Store, StoreState};

// All that a drawing call is lent.
#[derive(Drop)]
struct Lent<'a> {
    x: &'a mut [f32],
    y: &'a mut [f32],
    weight: &'a mut [f32],
    commands: &'a mut [u8],
    points: &'a mut usize,
    used: &'a mut usize,
    opening: &'a mut usize,
}

impl Lent<'_> {
    #[tactic(auto, unfolding(crate::specs::Reply::reply_of))]
    fn fresh(&mut self) -> u32
        ensures same { SameLent self.old self.new }
        ensures fresh { reply result (lent_state self.new) (lent_columns self.new) ≡ reply_of (fresh_of (lent_columns self.old)) }
    {
        let mut store = Store {
            x: self.x,
            y: self.y,
            weight: self.weight,
            commands: self.commands,
            state: StoreState::default(),
        };
        let answer = store.fresh();
        let state = store.state;
        self.told(answer, state)
    }

    #[tactic(auto, unfolding(crate::specs::Reply::reply_of))]
    fn draw(&mut self, call: Call) -> u32
        ensures same { SameLent self.old self.new }
        ensures drawn { reply result (lent_state self.new) (lent_columns self.new) ≡ reply_of (draw_of call (lent_state self.old) (lent_columns self.old)) }
    {
        let state = StoreState {
            points: *self.points,
            commands: *self.used,
            opening: *self.opening,
        };
        let mut store = Store {
            x: self.x,
            y: self.y,
            weight: self.weight,
            commands: self.commands,
            state,
        };
        let answer = store.draw(call);
        let state = store.state;
        self.told(answer, state)
    }

    // The counts and the open index after a call, and the number of its answer.
    fn told(&mut self, answer: Answer, state: StoreState) -> u32
        ensures same { SameLent self.old self.new }
        ensures state { lent_state self.new ≡ state }
        ensures columns { lent_columns self.new ≡ lent_columns self.old }
        ensures number { result ≡ number_of answer }
    {
        *self.points = state.points;
        *self.used = state.commands;
        *self.opening = state.opening;
        answer::number(answer)
    }
}

// A fresh drawing; the counts are not read.
pub fn kermezhul_fresh(
    x: &mut [f32],
    y: &mut [f32],
    weight: &mut [f32],
    commands: &mut [u8],
    points: &mut usize,
    used: &mut usize,
    opening: &mut usize,
) -> u32
    ensures { reply result (state_at points.new used.new opening.new) (columns x.new y.new weight.new commands.new) ≡ reply_of (fresh_of (columns x.old y.old weight.old commands.old)) }
{
    Lent {
        x,
        y,
        weight,
        commands,
        points,
        used,
        opening,
    }
    .fresh()
}

pub fn kermezhul_move_to(
    x: &mut [f32],
    y: &mut [f32],
    weight: &mut [f32],
    commands: &mut [u8],
    points: &mut usize,
    used: &mut usize,
    opening: &mut usize,
    px: f32,
    py: f32,
) -> u32
    ensures { reply result (state_at points.new used.new opening.new) (columns x.new y.new weight.new commands.new) ≡ reply_of (draw_of (Call.Move (point_at px py)) (state_at points.old used.old opening.old) (columns x.old y.old weight.old commands.old)) }
{
    Lent {
        x,
        y,
        weight,
        commands,
        points,
        used,
        opening,
    }
    .draw(Call::Move(Point::new(px, py)))
}

pub fn kermezhul_line_to(
    x: &mut [f32],
    y: &mut [f32],
    weight: &mut [f32],
    commands: &mut [u8],
    points: &mut usize,
    used: &mut usize,
    opening: &mut usize,
    px: f32,
    py: f32,
) -> u32
    ensures { reply result (state_at points.new used.new opening.new) (columns x.new y.new weight.new commands.new) ≡ reply_of (draw_of (Call.Line (point_at px py)) (state_at points.old used.old opening.old) (columns x.old y.old weight.old commands.old)) }
{
    Lent {
        x,
        y,
        weight,
        commands,
        points,
        used,
        opening,
    }
    .draw(Call::Line(Point::new(px, py)))
}

pub fn kermezhul_quad_to(
    x: &mut [f32],
    y: &mut [f32],
    weight: &mut [f32],
    commands: &mut [u8],
    points: &mut usize,
    used: &mut usize,
    opening: &mut usize,
    x1: f32,
    y1: f32,
    x2: f32,
    y2: f32,
) -> u32
    ensures { reply result (state_at points.new used.new opening.new) (columns x.new y.new weight.new commands.new) ≡ reply_of (draw_of (Call.Quad (point_at x1 y1) (point_at x2 y2)) (state_at points.old used.old opening.old) (columns x.old y.old weight.old commands.old)) }
{
    let call = Call::Quad(Point::new(x1, y1), Point::new(x2, y2));
    Lent {
        x,
        y,
        weight,
        commands,
        points,
        used,
        opening,
    }
    .draw(call)
}

pub fn kermezhul_cubic_to(
    x: &mut [f32],
    y: &mut [f32],
    weight: &mut [f32],
    commands: &mut [u8],
    points: &mut usize,
    used: &mut usize,
    opening: &mut usize,
    x1: f32,
    y1: f32,
    x2: f32,
    y2: f32,
    x3: f32,
    y3: f32,
) -> u32
    ensures { reply result (state_at points.new used.new opening.new) (columns x.new y.new weight.new commands.new) ≡ reply_of (draw_of (Call.Cubic (point_at x1 y1) (point_at x2 y2) (point_at x3 y3)) (state_at points.old used.old opening.old) (columns x.old y.old weight.old commands.old)) }
{
    let call = Call::Cubic(Point::new(x1, y1), Point::new(x2, y2), Point::new(x3, y3));
    Lent {
        x,
        y,
        weight,
        commands,
        points,
        used,
        opening,
    }
    .draw(call)
}

pub fn kermezhul_rat_quad_to(
    x: &mut [f32],
    y: &mut [f32],
    weight: &mut [f32],
    commands: &mut [u8],
    points: &mut usize,
    used: &mut usize,
    opening: &mut usize,
    x1: f32,
    y1: f32,
    x2: f32,
    y2: f32,
    w: f32,
) -> u32
    ensures { reply result (state_at points.new used.new opening.new) (columns x.new y.new weight.new commands.new) ≡ reply_of (draw_of (Call.RatQuad (point_at x1 y1) (point_at x2 y2) w) (state_at points.old used.old opening.old) (columns x.old y.old weight.old commands.old)) }
{
    let call = Call::RatQuad(Point::new(x1, y1), Point::new(x2, y2), w);
    Lent {
        x,
        y,
        weight,
        commands,
        points,
        used,
        opening,
    }
    .draw(call)
}

pub fn kermezhul_rat_cubic_to(
    x: &mut [f32],
    y: &mut [f32],
    weight: &mut [f32],
    commands: &mut [u8],
    points: &mut usize,
    used: &mut usize,
    opening: &mut usize,
    x1: f32,
    y1: f32,
    x2: f32,
    y2: f32,
    x3: f32,
    y3: f32,
    w1: f32,
    w2: f32,
) -> u32
    ensures { reply result (state_at points.new used.new opening.new) (columns x.new y.new weight.new commands.new) ≡ reply_of (draw_of (Call.RatCubic (point_at x1 y1) (point_at x2 y2) (point_at x3 y3) w1 w2) (state_at points.old used.old opening.old) (columns x.old y.old weight.old commands.old)) }
{
    let call = Call::RatCubic(
        Point::new(x1, y1),
        Point::new(x2, y2),
        Point::new(x3, y3),
        w1,
        w2,
    );
    Lent {
        x,
        y,
        weight,
        commands,
        points,
        used,
        opening,
    }
    .draw(call)
}

pub fn kermezhul_build(
    x: &mut [f32],
    y: &mut [f32],
    weight: &mut [f32],
    commands: &mut [u8],
    points: &mut usize,
    used: &mut usize,
    opening: &mut usize,
) -> u32
    ensures { reply result (state_at points.new used.new opening.new) (columns x.new y.new weight.new commands.new) ≡ reply_of (draw_of Call.Build (state_at points.old used.old opening.old) (columns x.old y.old weight.old commands.old)) }
{
    Lent {
        x,
        y,
        weight,
        commands,
        points,
        used,
        opening,
    }
    .draw(Call::Build)
}
