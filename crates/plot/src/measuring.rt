// What a text needs, before a byte of it is written.

ghost use Rattle.std.specs.Prelude.{◌≡◌, true, length};
ghost use Rattle.contours.specs.Finished.{position};
ghost use Rattle.plot.specs.Text.{pen_of, move_of};
ghost use Rattle.plot.specs.Plot.{measured_of};
ghost use Rattle.plot.specs.Lent.{points_of};

use crate::{Finished, spot};
use answer::{Answer, Refusal};

// How many bytes a move takes; the pen's letters are two either way.
fn move_length(x: i32, y: i32) -> usize
    ensures { result ≡ length (move_of (pen_of true) (position x y)) }
{
    5 + text::signed_length(i64::from(x)) + text::signed_length(i64::from(y))
}

impl Finished<'_> {
    // Whether all points have plotter units, and then whether their text fits in a room.
    pub fn measured(&self, room: usize) -> Answer
        ensures { result ≡ measured_of (points_of self.now) room }
    {
        // What is left of the room, while the text fits: a text can be longer than any count.
        let mut left = room.checked_sub(3);
        for i in 0..self.len() {
            let (x, y) = self.at(i);
            let Some((px, py)) = spot(x, y) else {
                return Err(Refusal::NotPrintable);
            };
            let bytes = move_length(px, py);
            left = left.and_then(|room| room.checked_sub(bytes));
        }
        match left {
            Some(_) => Ok(()),
            None => Err(Refusal::BufferShort),
        }
    }
}
