// The text of points that are tested and measured.

ghost use Rattle.std.specs.Prelude.{◌≡◌, true, [], ◌∷◌, ◌++◌, map, ◌+◌, ◌≤◌, length};
ghost use Rattle.text.specs.Signed.{signed_of};
ghost use Rattle.text.specs.Written.{WrittenAs};
ghost use Rattle.contours.specs.Finished.{position};
ghost use Rattle.plot.specs.Text.{pen_of, move_of, moves_of};
ghost use Rattle.plot.specs.Plot.{all_printable, whole_vertex, plot_text};
ghost use Rattle.plot.specs.Lent.{points_of};

use crate::{Finished, spot};

// A text and the place in it are two parameters: a struct of both would make each function promise that it still holds the caller's text, and say no more.

// Writes the pen's letters and the blank after them, and gives the place after both.
fn put_pen(text: &mut [u8], at: usize, up: bool) -> usize
    requires { at + 3 ≤ length text.old }
    ensures { WrittenAs (pen_of up ++ (0x20 ∷ [])) text.old at text.new result }
{
    let letters = if up { b"PU " } else { b"PD " };
    text::put_bytes(text, at, letters);
    at + 3
}

// Writes a number and the byte after it, and gives the place after both.
fn put_number(text: &mut [u8], at: usize, n: i32, after: u8) -> usize
    requires { at + length (signed_of n) + 1 ≤ length text.old }
    ensures { WrittenAs (signed_of n ++ (after ∷ [])) text.old at text.new result }
{
    let digits = text::put_signed(text, at, i64::from(n));
    let behind = at + digits;
    text::put_byte(text, behind, 0, after);
    behind + 1
}

fn put_move(text: &mut [u8], at: usize, up: bool, x: i32, y: i32) -> usize
    requires { at + length (move_of (pen_of true) (position x y)) ≤ length text.old }
    ensures { WrittenAs (move_of (pen_of up) (position x y)) text.old at text.new result }
{
    let first = put_pen(text, at, up);
    let second = put_number(text, first, x, b',');
    put_number(text, second, y, b';')
}

impl Finished<'_> {
    // Writes the moves after the first three bytes. A contour begins at the first point and after each flagged one.
    fn put_moves(&self, text: &mut [u8]) -> usize
        requires printable { all_printable (points_of self.now) ≡ true }
        requires room { 3 + length (moves_of true (map whole_vertex (points_of self.now))) ≤ length text.old }
        ensures { WrittenAs (moves_of true (map whole_vertex (points_of self.now))) text.old 3 text.new result }
    {
        let mut at = 3;
        let mut up = true;
        for i in 0..self.len() {
            let (x, y) = self.at(i);
            // This is never none: all points were tested.
            let Some((px, py)) = spot(x, y) else {
                return at;
            };
            let flag = self.flag(i);
            at = put_move(text, at, up, px, py);
            up = flag;
        }
        at
    }

    pub fn put_text(&self, text: &mut [u8]) -> usize
        requires printable { all_printable (points_of self.now) ≡ true }
        requires room { length (plot_text (points_of self.now)) ≤ length text.old }
        ensures { WrittenAs (plot_text (points_of self.now)) text.old 0 text.new result }
    {
        text::put_bytes(text, 0, b"IN;");
        self.put_moves(text)
    }
}
