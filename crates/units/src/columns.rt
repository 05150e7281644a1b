// Finished points to whole plotter units. All are tested before one is written.

ghost use Rattle.std.specs.Prelude.{◌≡◌, true, ◌≤◌, length, map};
ghost use Rattle.std.proofs.lemmas.List.Edits.{sets};
ghost use Rattle.units.specs.Whole.{whole_of};
ghost use Rattle.units.specs.Columns.{all_printable, rounding, rounding_of, wholes_of};

use crate::coordinate::whole;
use answer::Refusal;

// Whether all entries round into the plotter's range.
fn all_printable(column: &[f32]) -> bool
    ensures { result ≡ all_printable column.now }
{
    column.iter().all(|v| whole(*v).is_some())
}

// The entries, rounded. By index: of what an `iter_mut` lends the kit knows no element of `to` afterwards.
fn put_wholes(from: &[f32], to: &mut [i32])
    requires room { length from.now ≤ length to.old }
    requires printable { all_printable from.now ≡ true }
    ensures { to.new ≡ sets to.old 0 (map whole_of from.now) }
{
    for (i, v) in from.iter().enumerate() {
        // This is never none: all entries were tested.
        if let Some(n) = whole(*v) {
            to[i] = n;
        }
    }
}

// 12 before 13; neither writes.
#[tactic(auto, using(std::proofs::lemmas::Bool::Decides::nat_tests), unfolding(crate::specs::Columns::rounding_in, crate::specs::Columns::rounding_of))]
pub fn whole_points(
    x: &[f32],
    y: &[f32],
    whole_x: &mut [i32],
    whole_y: &mut [i32],
) -> Result<usize, Refusal>
    ensures { rounding (wholes_of result) whole_x.new whole_y.new ≡ rounding_of x.now y.now whole_x.old whole_y.old }
{
    let n = x.len().min(y.len());
    let (x, y) = (&x[..n], &y[..n]);
    if !all_printable(x) || !all_printable(y) {
        return Err(Refusal::NotPrintable);
    }
    if whole_x.len() < n || whole_y.len() < n {
        return Err(Refusal::BufferShort);
    }
    put_wholes(x, whole_x);
    put_wholes(y, whole_y);
    Ok(n)
}
