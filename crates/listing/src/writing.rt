// What the program says, written into a buffer.

ghost use Rattle.std.specs.Prelude.{◌≡◌, [], ◌+◌, ◌*◌, ◌≤◌, length};
ghost use Rattle.std.proofs.lemmas.List.Edits.{sets};
ghost use Rattle.answer.specs.Answer.{Done};
ghost use Rattle.columns.specs.Flags.{is_flag_of};
ghost use Rattle.point.specs.Point.{point_at};
ghost use Rattle.evaluate.specs.Evaluate.{finished};
ghost use Rattle.text.specs.Written.{WrittenAs};
ghost use Rattle.listing.specs.Writing.{line_of, value_of, point_lines, all_point_lines, report_of, refusal_of, head_of, points_in, listed, listed_as};

use crate::Refused;
use answer::Answer;

// A buffer and the place in it are two parameters: a struct of both would make each function promise that it still holds the caller's buffer, and say no more.

// What stands behind a key: a number in plain decimal, or the bits of a float in eight hex digits.
#[derive(Clone, Copy)]
enum Value {
    Decimal(u64),
    Bits(f32),
}

impl Value {
    // Writes it, and gives its count of bytes.
    fn put(self, buffer: &mut [u8], at: usize) -> usize
        ensures { (result ≡ length (value_of self)) × (buffer.new ≡ sets buffer.old at (value_of self)) }
    {
        match self {
            Value::Decimal(n) => text::put_decimal(buffer, at, n),
            Value::Bits(v) => {
                text::put_hex(buffer, at, leaves::bits(v));
                8
            }
        }
    }
}

// Writes a line, and gives the place after it.
fn put_line(buffer: &mut [u8], at: usize, key: &[u8], value: Value) -> usize
    requires { at + length (line_of key.now (value_of value)) ≤ length buffer.old }
    ensures { WrittenAs (line_of key.now (value_of value)) buffer.old at buffer.new result }
{
    text::put_bytes(buffer, at, key);
    let equals = at + key.len();
    text::put_bytes(buffer, equals, b"=");
    let start = equals + 1;
    let width = value.put(buffer, start);
    let end = start + width;
    text::put_bytes(buffer, end, b"\n");
    end + 1
}

// Writes the three lines of a finished point, and gives the place after them.
fn point_lines(buffer: &mut [u8], at: usize, x: f32, y: f32, end: u8) -> usize
    requires { at + 28 ≤ length buffer.old }
    ensures { WrittenAs (point_lines (finished (point_at x y) (is_flag_of end))) buffer.old at buffer.new result }
{
    let second = put_line(buffer, at, b"x", Value::Bits(x));
    let third = put_line(buffer, second, b"y", Value::Bits(y));
    let flag = columns::flag_byte(columns::is_flag(end));
    put_line(buffer, third, b"end", Value::Decimal(u64::from(flag)))
}

// Finished points, one in each row of the columns.
#[derive(Clone, Copy)]
pub struct Points<'a> {
    pub x: &'a [f32],
    pub y: &'a [f32],
    pub end: &'a [u8],
}

// The loop goes over one column and reads the others by index: the prover's laws of `zip` are for two slices.
fn put_points(buffer: &mut [u8], at: usize, points: &Points<'_>)
    requires { at + 28 * length points.now.x.now ≤ length buffer.old }
    ensures { buffer.new ≡ sets buffer.old at (all_point_lines (points_in points.now)) }
{
    let mut next = at;
    for (i, x) in points.x.iter().enumerate() {
        let y = columns::read(points.y, i, f32::NAN);
        let flag = columns::read(points.end, i, 0);
        next = point_lines(buffer, next, *x, y, flag);
    }
}

// The head's three numbers are parameters here and below: a struct of them would be built at each call, and the definition's `head_of` takes three.
fn head_length(number: u64, line: u64, points: u64) -> usize
    ensures { result ≡ length (head_of number line points) }
{
    22 + text::decimal_length(number) + text::decimal_length(line) + text::decimal_length(points)
}

fn put_head(buffer: &mut [u8], number: u64, line: u64, points: u64) -> usize
    requires { length (head_of number line points) ≤ length buffer.old }
    ensures { WrittenAs (head_of number line points) buffer.old 0 buffer.new result }
{
    let second = put_line(buffer, 0, b"answer", Value::Decimal(number));
    let third = put_line(buffer, second, b"line", Value::Decimal(line));
    put_line(buffer, third, b"points", Value::Decimal(points))
}

// The report of a refusal: no point follows.
pub fn refuse(output: &mut [u8], refused: Refused) -> Option<usize>
    ensures { listed result output.new ≡ listed_as (report_of (Err refused.refusal) refused.line []) output.old }
{
    let number = u64::from(u32::from(refused.refusal));
    let line = refused.line as u64;
    let needed = head_length(number, line, 0);
    if output.len() < needed {
        return None;
    }
    put_head(output, number, line, 0);
    Some(needed)
}

// The two lines of a refusal alone, for a program that has another output than points. It is beside `refuse` and not in it, since the length is tested before the
// first byte is written, and is another one with the third line.
pub fn refusal(output: &mut [u8], answer: Answer, line: usize) -> Option<usize>
    ensures { listed result output.new ≡ listed_as (refusal_of answer line) output.old }
{
    let number = u64::from(answer::number(answer));
    let needed = 14 + text::decimal_length(number) + text::decimal_length(line as u64);
    if output.len() < needed {
        return None;
    }
    let second = put_line(output, 0, b"answer", Value::Decimal(number));
    put_line(output, second, b"line", Value::Decimal(line as u64));
    Some(needed)
}

// The report of a flattened drawing.
pub fn report(output: &mut [u8], points: &Points<'_>) -> Option<usize>
    requires { length points.now.x.now ≤ 512 }
    ensures { listed result output.new ≡ listed_as (report_of Done 0 (points_in points.now)) output.old }
{
    let count = points.x.len();
    let head = head_length(0, 0, count as u64);
    let needed = head + 28 * count;
    if output.len() < needed {
        return None;
    }
    let at = put_head(output, 0, 0, count as u64);
    put_points(output, at, points);
    Some(needed)
}
