//! Records that are printed, and calls that run at them.
ghost use Rattle.std.specs.Prelude.{◌≡◌, true};
ghost use Rattle.capnp_units.specs.Segments.{words_in};
ghost use Rattle.capnp_copy_arenas.specs.Deep.{IsDeep};
ghost use Rattle.capnp_calls.specs.Roots.{IsRoot};

use crate::dynamics::record;
use crate::fault::Fault;
use crate::marks;
use crate::messages::{Segments, end, outcome, put_words, refusal, small, tree_of};
use crate::relays::{CALLS, NEWER, RENAMED, SCHEMA, renamings, settings, version};
use crate::schemas::{NEW, root_place, schema_of, set_of, struct_at};
use capnp_calls::Call;
use capnp_calls::reply::Reply;
use capnp_calls_run::builder::run;
use capnp_calls_run::fault::RunFault;
use capnp_calls_versions::admitted::{Admission, admitted, admitted_with};
use capnp_calls_versions::compatible::{compatible, compatible_with};
use capnp_calls_versions::renamings::Renamings;
use capnp_calls_versions::root::Root;
use capnp_copy_arenas::arena::{BuilderArena, Memory};
use capnp_copy_arenas::laws_of_arenas::arenas_are_deep;
use capnp_message::message::{DEFAULT_READER_OPTIONS, HeapAllocator};
use capnp_relay_show::show::{ShowFault, show};
use capnp_schema_structs::init::Part;
use capnp_units::errors::{Error, Result};
use capnp_units::kinds::ErrorKind;
use capnp_values::dynamic_struct;
use capnp_values::dynamic_value::Reader;
use capnp_values_print::stringify::{print, print_field};
use capnp_values_queries::structs::StructSchema;
use capnp_wire_objects::arena::{ReaderArena, ReaderArenaImpl};
use std::alloc::Global;

/// A frame of a struct of the number 0 and the text `hi`.
const HI: [u8; 40] = [
    0, 0, 0, 0, 4, 0, 0, 0, 0, 0, 0, 0, 1, 0, 1, 0, 0, 0, 0, 0, 0, 0, 0, 0, 1, 0, 0, 0, 0x1a, 0, 0,
    0, 0x68, 0x69, 0, 0, 0, 0, 0, 0,
];

/// The line of a call to which memory was refused.
const REFUSED: &str = "refused Memory";

/// Runs calls at the root of a message, between the marks.
fn answered<A: BuilderArena>(
    rt: &HostRuntime,
    memory: &mut Memory<A>,
    schema: StructSchema<'_>,
) -> std::result::Result<String, Fault>
    requires arena { IsDeep A.segments A.nesting }
    requires root { IsRoot schema }
{
    let alloc = rt.alloc();
    let settings = settings(alloc, "framed", CALLS)?;
    let place = root_place(memory, schema)?;
    let mut root = struct_at(memory, Part { place, schema });
    marks::begin(rt);
    let replies = run(alloc, &mut root, &settings.calls);
    marks::end(rt);
    match replies {
        Ok(replies) => match replies.as_slice() {
            [Reply::Done, Reply::Text(text)] => {
                Ok(format!(in alloc; "done; {}", str::from_utf8(text).unwrap_or("?"))?)
            }
            _ => Err(Fault::Unmade),
        },
        Err(RunFault::Refused(error)) if error.kind == ErrorKind::OutOfMemory => {
            Ok(format!(in alloc; "{REFUSED}; changed")?)
        }
        Err(_) => Err(Fault::Unmade),
    }
}

/// Runs calls, and returns their line, with the value after them.
fn ran(rt: &HostRuntime) -> std::result::Result<String, Fault> {
    arenas_are_deep::<HeapAllocator>();
    let alloc = rt.alloc();
    let version = version(alloc, SCHEMA)?;
    let mut message = small(alloc);
    let put = put_words(&mut message.memory, &[0; 8]);
    let told = answered(rt, &mut message.memory, version.root());
    let tree = tree_of(alloc, &message.memory.arena);
    end(message);
    put?;
    Ok(format!(in alloc; "{}; {}", told?.as_str(), tree?.as_str())?)
}

/// Prints a record, or a field of it, after the contents of a vector.
fn print_by<A: ReaderArena>(
    record: dynamic_struct::Reader<'_, A>,
    call: &str,
    text: &mut Vec<u8>,
) -> Result<()> {
    match call {
        "print_field" => {
            let field = record.get_schema().get_field_by_name("structs")?;
            print_field(record, field, false, text)
        }
        _ => print(Reader::Struct(record), call == "print_alternate", text),
    }
}

/// Prints a record after the contents of a vector, and returns the line. A refusal of memory leaves
/// the contents unchanged. Lines are in quotes.
fn printed_by<A: ReaderArena>(
    rt: &HostRuntime,
    record: dynamic_struct::Reader<'_, A>,
    call: &str,
) -> std::result::Result<String, Fault> {
    let alloc = rt.alloc();
    let mut text = b"is ".to_vec(alloc)?;
    marks::begin(rt);
    let done = print_by(record, call, &mut text);
    marks::end(rt);
    let is_standing = text.as_slice() == b"is ".as_slice();
    let text = str::from_utf8(&text).ok().ok_or(Fault::Unmade)?;
    if call == "print_alternate" {
        let lines = format!(in alloc; "{text:?}")?;
        return outcome(alloc, done, is_standing, lines.as_str());
    }
    outcome(alloc, done, is_standing, text)
}

/// Prints a record of each sort of field, and returns the line.
fn printed(rt: &HostRuntime, call: &str) -> std::result::Result<String, Fault> {
    let alloc = rt.alloc();
    let set = set_of(alloc)?;
    let bytes = hex::decode(alloc, NEW.as_bytes())?;
    let segments = [bytes.as_slice()];
    let arena: Segments<'_> = ReaderArenaImpl::new(segments.as_slice(), 64);
    printed_by(rt, record(&arena, schema_of(&set, 1)?)?, call)
}

/// Shows a framed message of the same schema as the relay's.
fn shown(rt: &HostRuntime) -> std::result::Result<String, Fault> {
    let alloc = rt.alloc();
    let version = version(alloc, SCHEMA)?;
    marks::begin(rt);
    let text = show(alloc, &HI, version.root(), DEFAULT_READER_OPTIONS);
    marks::end(rt);
    match text {
        Ok(text) => {
            let text = str::from_utf8(&text).ok().ok_or(Fault::Unmade)?;
            Ok(format!(in alloc; "done; {text}")?)
        }
        Err(ShowFault::Memory) => Ok(String::from_str(alloc, REFUSED)?),
        Err(_) => Err(Fault::Unmade),
    }
}

/// Returns the answer of a call about two versions: whether they are compatible, or the calls are
/// admitted.
fn compared(
    alloc: Global,
    call: &str,
    older: Root<'_>,
    newer: Root<'_>,
    calls: &[Call],
    renamings: &Renamings,
) -> Result<bool> {
    let admission = match call {
        "compatible" => return compatible(alloc, older, newer),
        "compatible_with" => return compatible_with(alloc, older, newer, renamings),
        "admitted" => admitted(alloc, calls, older, newer)?,
        "admitted_with" => admitted_with(alloc, calls, older, newer, renamings)?,
        _ => return Err(Error::from(ErrorKind::FieldNotFound)),
    };
    Ok(matches!(admission, Admission::Admitted))
}

/// Makes a call about two versions, and returns its line.
fn told_of_versions(rt: &HostRuntime, call: &str) -> std::result::Result<String, Fault> {
    let alloc = rt.alloc();
    let file = if call.ends_with("_with") {
        RENAMED
    } else {
        NEWER
    };
    let (older, newer) = (version(alloc, SCHEMA)?, version(alloc, file)?);
    let settings = settings(alloc, "framed", CALLS)?;
    let renamings = renamings(alloc)?;
    let older = Root {
        set: older.root().set(),
        id: 1,
    };
    let newer = Root {
        set: newer.root().set(),
        id: 1,
    };
    marks::begin(rt);
    let answer = compared(alloc, call, older, newer, &settings.calls, &renamings);
    marks::end(rt);
    match answer {
        Ok(is_so) => Ok(format!(in alloc; "done; {is_so}")?),
        Err(error) => refusal(alloc, error),
    }
}

/// Makes a case, and returns its line.
pub fn told(rt: &HostRuntime, call: &str) -> std::result::Result<String, Fault> {
    match call {
        "run" => ran(rt),
        "print" | "print_alternate" | "print_field" => printed(rt, call),
        "show" => shown(rt),
        _ => told_of_versions(rt, call),
    }
}
