// The pass that writes: words and points together, in the order of the walk, after its length was tested.
ghost use Rattle.std.specs.Prelude.{◌≡◌, ◌≤◌};
ghost use Rattle.point.specs.declared.Setting.TheVariants.{Screen};
ghost use Rattle.tables.specs.Lent.{quads_of, splines_of};
ghost use Rattle.tables.specs.Tables.{quad_row_at};
ghost use Rattle.evaluate.specs.Evaluate.{finished};
ghost use Rattle.evaluate.specs.Lent.{output_of, SameOutputs};
ghost use Rattle.evaluate.specs.Output.{fits_output};
ghost use Rattle.evaluate.specs.Writing.{written, write_entry_of, write_start_of, write_steps_of, end_cursor_of, write_spline_of, write_walk_of};
ghost use Rattle.evaluate.specs.Delivery.{delivers, deliver_of};

use crate::{Outputs, Place, StepQuad};
use columns::{flag_byte, write};
use command::PointCommand;
use point::{Point, Setting};
use primitives::SplineRow;
use tables::{QuadColumns, SplineColumns};

impl Outputs<'_> {
    // Whether each holds this many entries.
    #[tactic(auto, unfolding(crate::specs::Output::fits_output))]
    fn holds(&self, length: u64) -> bool
        ensures { result ≡ fits_output length (output_of self.now) }
    {
        (length <= self.words.len() as u64)
            & (length <= self.x.len() as u64)
            & (length <= self.y.len() as u64)
            & (length <= self.end.len() as u64)
    }

    #[tactic(auto, unfolding(crate::specs::Writing::write_entry_of))]
    fn write_entry(&mut self, at: usize, word: u32, point: Point, flag: bool)
        ensures same { SameOutputs self.old self.new }
        ensures written { output_of self.new ≡ write_entry_of at word (finished point flag) (output_of self.old) }
    {
        write(self.words, at, word);
        write(self.x, at, point.x);
        write(self.y, at, point.y);
        write(self.end, at, flag_byte(flag));
    }

    // The Start of spline k at its first point, if it has one. The bound on the place stands in three contracts and is no invariant of Place: it is another one
    // after each entry, and for the cursor another one in each setting.
    #[tactic(auto, unfolding(crate::specs::Writing::write_start_of))]
    fn write_start(&mut self, starts: bool, k: u32, first: Point, from: Place) -> Place
        requires { from.at ≤ 0x4000_0000_0000_0000 }
        ensures same { SameOutputs self.old self.new }
        ensures written { written (output_of self.new) result ≡ write_start_of starts k first from (output_of self.old) }
    {
        if !starts {
            return from;
        }
        let word = u32::from(PointCommand::Start(k as usize));
        self.write_entry(from.at, word, first, false);
        Place {
            at: from.at + 1,
            ..from
        }
    }
}

// The n steps of a spline.
fn write_steps(
    quads: &QuadColumns<'_>,
    outputs: &mut Outputs<'_>,
    size: f32,
    n: u32,
    from: Place,
) -> Place
    requires { (n ≤ 65536) × (from.at ≤ 0x4000_0000_0000_0001) }
    ensures same { SameOutputs outputs.old outputs.new }
    ensures written { written (output_of outputs.new) result ≡ write_steps_of (quad_row_at (quads_of quads.now)) size n from (output_of outputs.old) }
{
    let word = u32::from(PointCommand::Incr(size));
    let mut at = from.at;
    let mut cursor = from.cursor;
    for p in 1..=n {
        cursor = walk::cursor_at(quads, p as f32, cursor);
        let quad = StepQuad::at(quads, cursor);
        let point = quad.point(size, p);
        outputs.write_entry(at, word, point, false);
        at += 1;
    }
    Place { at, cursor }
}

// The cursor after a spline: on the screen past its last quad, if it has one. For the knife it stays, since the next spline sets it; a first quad lent by hand may
// be any number, and one more than that may wrap.
#[tactic(auto, unfolding(crate::specs::Writing::end_cursor_of))]
fn end_cursor(setting: Setting, sum: f32, cursor: usize) -> usize
    requires { setting ≡ Screen → cursor ≤ 0x4000_0000_0002_0000 }
    ensures { result ≡ end_cursor_of setting sum cursor }
{
    match setting {
        Setting::Screen if leaves::whole_up(sum) > 0 => cursor + 1,
        Setting::Screen | Setting::Knife => cursor,
    }
}

// Spline k, with a Start or without.
fn write_spline(
    setting: Setting,
    quads: &QuadColumns<'_>,
    outputs: &mut Outputs<'_>,
    k: u32,
    starts: bool,
    row: SplineRow,
    from: Place,
) -> Place
    requires { (from.at ≤ 0x4000_0000_0000_0000) × (setting ≡ Screen → from.cursor ≤ 0x4000_0000_0000_0000) }
    ensures same { SameOutputs outputs.old outputs.new }
    ensures written { written (output_of outputs.new) result ≡ write_spline_of setting (quad_row_at (quads_of quads.now)) k starts row from (output_of outputs.old) }
{
    let sum = row.curvature;
    let begin = Place {
        cursor: walk::cursor_start(setting, row.first_quad, from.cursor),
        ..from
    };
    let start = outputs.write_start(starts, k, row.p0, begin);
    let size = walk::size(sum);
    let n = walk::steps(sum);
    let to = write_steps(quads, outputs, size, n, start);
    let word = u32::from(PointCommand::End(k as usize, row.contour));
    outputs.write_entry(to.at, word, row.p2, row.contour);
    let at = to.at + 1;
    Place {
        at,
        cursor: end_cursor(setting, sum, to.cursor),
    }
}

// All splines. The place stays small: at most 65,538 entries for each of fewer than 2^32.
fn write_walk(
    setting: Setting,
    quads: &QuadColumns<'_>,
    splines: &SplineColumns<'_>,
    n: u32,
    outputs: &mut Outputs<'_>,
)
    ensures same { SameOutputs outputs.old outputs.new }
    ensures written { output_of outputs.new ≡ write_walk_of setting (quad_row_at (quads_of quads.now)) (splines_of splines.now) n (output_of outputs.old) }
{
    let mut last = splines.at(0);
    let mut place = Place { at: 0, cursor: 0 };
    for k in 0..n {
        let row = splines.at(k as usize);
        let starts = walk::starts_after(k, last, row);
        place = write_spline(setting, quads, outputs, k, starts, row, place);
        last = row;
    }
}

// The walk over n splines, written if it fits: how many points it has, or None where the outputs are too short for it.
pub fn deliver(
    setting: Setting,
    quads: &QuadColumns<'_>,
    splines: &SplineColumns<'_>,
    n: u32,
    outputs: &mut Outputs<'_>,
) -> Option<usize>
    ensures same { SameOutputs outputs.old outputs.new }
    ensures delivered { delivers result (output_of outputs.new) ≡ deliver_of setting (quad_row_at (quads_of quads.now)) (splines_of splines.now) n (output_of outputs.old) }
{
    let length = walk::walk_length(splines, n);
    if !outputs.holds(length) {
        return None;
    }
    write_walk(setting, quads, splines, n, outputs);
    Some(length as usize)
}
