// The questions about what is lent, in their order: the first one that is answered no.
ghost use Rattle.std.specs.Prelude.{◌≡◌};
ghost use Rattle.definitions.specs.Call.{lendings, first_short};
ghost use Rattle.definitions.specs.Export.{export_lendings};
ghost use Rattle.solver.specs.Lent.{short_of};

use crate::{EXPORT_ROOM, ROOM};
use definitions::Question;

pub fn check_room(room: usize) -> Result<(), Question>
    ensures { short_of result ≡ first_short (lendings room) }
{
    if room < ROOM {
        return Err(Question::Room);
    }
    Ok(())
}

// The same for an export, which is lent a room of its own besides.
pub fn check_rooms(room: usize, cnf: usize) -> Result<(), Question>
    ensures { short_of result ≡ first_short (export_lendings room cnf) }
{
    check_room(room)?;
    if cnf < EXPORT_ROOM {
        return Err(Question::ExportRoom);
    }
    Ok(())
}
