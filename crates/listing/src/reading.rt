// The text, command by command, drawn on the store.

ghost use Rattle.std.specs.Prelude.{◌≡◌};
ghost use Rattle.answer.specs.Answer.{Done};
ghost use Rattle.store.specs.Drawing.{outcome};
ghost use Rattle.store.specs.Lent.{store_columns, SameColumns};
ghost use Rattle.listing.specs.Reading.{read_of, progress_of};

use crate::commands::command_at;
use crate::{Place, Refused};
use store::Store;

// The whole text, from its first byte, which is on line 1.
pub fn read(listing: &[u8], store: &mut Store<'_>) -> Result<(), Refused>
    ensures same { SameColumns store.old store.new }
    ensures read { progress_of result store.new.state (store_columns store.new) ≡ read_of listing.now (outcome Done store.old.state (store_columns store.old)) }
{
    let mut place = Place { at: 0, line: 1 };
    let mut op_line = place.line;
    while let Some(call) = command_at(listing, &mut place)? {
        store.draw(call).map_err(|refusal| Refused {
            refusal,
            line: op_line,
        })?;
        op_line = place.line;
    }
    Ok(())
}
