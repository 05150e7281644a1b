// One command: its op line, then its fields.

ghost use Rattle.std.specs.Prelude.{◌≡◌};
ghost use Rattle.listing.specs.Reading.{Placed, FieldsCalled, ops, op_at_of, command_as, command_at};

use crate::grammar::OPS;
use crate::{BadLine, Op, Place, fields};
use store::Call;

fn op_at(listing: &[u8], at: usize) -> Option<Op>
    ensures { result ≡ op_at_of listing.now at ops }
{
    OPS.iter()
        .copied()
        .find(|op| text::stands_at(listing, at, op.line()))
}

// The fields of an op, each on a line of its own; the place goes behind them.
fn call_at(listing: &[u8], place: &mut Place, op: Op) -> Result<Call, BadLine>
    requires { Placed listing.now place.old.at place.old.line }
    ensures { FieldsCalled listing.now place.old.at place.old.line op result place.new }
{
    let keys = op.keys();
    // There is no heap: room for the op with the most fields.
    let mut values = [0.0f32; 8];
    for (i, key) in keys.iter().enumerate() {
        values[i] = fields::field_at(listing, place.at, key).ok_or(BadLine(place.line))?;
        place.at += key.len() + 10;
        place.line += 1;
    }
    Ok(op.call(&values[..keys.len()]))
}

// The next command, or None at the end of the text.
pub fn command_at(listing: &[u8], place: &mut Place) -> Result<Option<Call>, BadLine>
    requires { Placed listing.now place.old.at place.old.line }
    ensures { command_as result place.new ≡ command_at listing.now place.old.at place.old.line }
{
    if listing.len() <= place.at {
        return Ok(None);
    }
    let op = op_at(listing, place.at).ok_or(BadLine(place.line))?;
    place.at += op.line().len();
    place.line += 1;
    let call = call_at(listing, place, op)?;
    Ok(Some(call))
}
