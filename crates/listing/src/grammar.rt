// The op names, their keys in order, and the call that each makes.

ghost use Rattle.std.specs.Prelude.{◌≡◌, get_or};
ghost use Rattle.std.specs.Float.{nan};
ghost use Rattle.listing.specs.Grammar.{value_point, op_line_of, keys_of, call_of, key_texts};

use crate::Op;
use point::Point;
use store::Call;

pub const OPS: [Op; 6] = [
    Op::Move,
    Op::Line,
    Op::Quad,
    Op::RatQuad,
    Op::Cubic,
    Op::RatCubic,
];

fn value(values: &[f32], i: usize) -> f32
    ensures { result ≡ get_or values.now i nan }
{
    columns::read(values, i, f32::NAN)
}

fn value_point(values: &[f32], i: usize, j: usize) -> Point
    ensures { result ≡ value_point values.now i j }
{
    Point {
        x: value(values, i),
        y: value(values, j),
    }
}

impl Op {
    #[tactic(auto, unfolding(crate::specs::Grammar::op_line_of))]
    pub(crate) fn line(self) -> &'static [u8]
        ensures { result.now ≡ op_line_of self }
    {
        match self {
            Op::Move => b"op=move\n",
            Op::Line => b"op=line\n",
            Op::Quad => b"op=quad\n",
            Op::RatQuad => b"op=rquad\n",
            Op::Cubic => b"op=cubic\n",
            Op::RatCubic => b"op=rcubic\n",
        }
    }

    #[tactic(auto, unfolding(crate::specs::Grammar::keys_of, crate::specs::Grammar::quad_keys, crate::specs::Grammar::cubic_keys))]
    pub(crate) fn keys(self) -> &'static [&'static [u8]]
        ensures { key_texts result.now ≡ keys_of self }
    {
        match self {
            Op::Move | Op::Line => &[b"x", b"y"],
            Op::Quad => &[b"x1", b"y1", b"x2", b"y2"],
            Op::RatQuad => &[b"x1", b"y1", b"x2", b"y2", b"w"],
            Op::Cubic => &[b"x1", b"y1", b"x2", b"y2", b"x3", b"y3"],
            Op::RatCubic => &[b"x1", b"y1", b"x2", b"y2", b"x3", b"y3", b"w1", b"w2"],
        }
    }

    // The call of the values of the keys.
    #[tactic(auto, unfolding(crate::specs::Grammar::call_of))]
    pub(crate) fn call(self, values: &[f32]) -> Call
        ensures { result ≡ call_of self values.now }
    {
        let p1 = value_point(values, 0, 1);
        let p2 = value_point(values, 2, 3);
        let p3 = value_point(values, 4, 5);
        match self {
            Op::Move => Call::Move(p1),
            Op::Line => Call::Line(p1),
            Op::Quad => Call::Quad(p1, p2),
            Op::RatQuad => Call::RatQuad(p1, p2, value(values, 4)),
            Op::Cubic => Call::Cubic(p1, p2, p3),
            Op::RatCubic => Call::RatCubic(p1, p2, p3, value(values, 6), value(values, 7)),
        }
    }
}
