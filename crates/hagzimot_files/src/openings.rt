//! Ways to open outputs, and the files that outputs must differ from.
ghost use Rattle.std.specs.Prelude.{◌≡◌, ◌↔◌, IsTrue};
ghost use Rattle.hagzimot_files.specs.Openings.{IsOpening, WouldLose, owners_there};

use crate::drafts::Goal;
use crate::files::Owners;
use crate::places::{FileId, Place, Target, is_at};

/// The way to open an output.
#[derive(Debug, Drop)]
pub enum Opening {
    /// A draft is made beside the name, and gets the name once it is whole.
    Draft(Goal),
    /// The output that is there is written to as it is.
    Direct(Target),
}

/// Who may read and write the file at a place, if a file is there.
fn owners_there(place: &Place) -> Option<Owners>
    ensures { result ≡ owners_there place.now }
{
    match place {
        Place::File { owners, .. } => Some(*owners),
        Place::Free { .. } | Place::Device(_) | Place::Stream(_) => None,
    }
}

/// Returns how the output of a name is opened. A device, a pipe, a socket and an open descriptor
/// are written to as they are. A file that is there is never opened: it keeps its bytes until the
/// draft gets its name, with its mode and, if permitted, its owners.
pub fn opening_of(target: Target, process: u32, sync: bool) -> Opening
    ensures { IsOpening target process sync result }
{
    if matches!(target.place, Place::Device(_) | Place::Stream(_)) {
        return Opening::Direct(target);
    }
    let owners = owners_there(&target.place);
    Opening::Draft(Goal {
        path: target.path,
        owners,
        process,
        sync,
    })
}

/// The messages that an output takes.
#[derive(Clone, Copy, Debug, PartialEq, Eq)]
pub enum Role {
    /// The messages of the run.
    Messages,
    /// The messages that are refused, as they came.
    Refused,
}

/// Another use of a file in a run.
#[derive(Clone, Copy, Debug, PartialEq, Eq)]
pub enum Use {
    /// It is read before any message: a schema, calls or renames.
    Setting,
    /// Messages are read from it.
    Input,
    /// It is standard error.
    Log,
}

/// Returns whether a file would lose data if this output were opened too, or the output would. An
/// input may be the output that it is edited into: the draft gets its name after the last read.
pub fn would_lose(place: &Place, role: Role, used: Use, file: FileId) -> bool
    ensures { IsTrue result ↔ WouldLose place.now role used file }
{
    if !is_at(place, file) {
        return false;
    }
    match used {
        Use::Setting => true,
        Use::Input => role == Role::Refused || matches!(place, Place::Stream(_)),
        Use::Log => matches!(place, Place::File { .. }),
    }
}
