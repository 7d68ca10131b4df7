//! Sequences of calls at a record.
ghost use Rattle.std.specs.Prelude.{◌≡◌, map, IfOk, IfErr};
ghost use Rattle.capnp_copy_arenas.specs.Deep.{IsDeep};
ghost use Rattle.capnp_copy_arenas.specs.Refusals.{IsSizeOrRefusal};
ghost use Rattle.capnp_schema_structs.specs.Builders.{IsReady, words_around_struct};
ghost use Rattle.capnp_calls.specs.CallViews.{call_view};
ghost use Rattle.capnp_calls.specs.Replies.{reply_view};
ghost use Rattle.capnp_calls.specs.Roots.{IsRoot};
ghost use Rattle.capnp_calls_run.specs.Handles.{IsSameHandle};
ghost use Rattle.capnp_calls_run.specs.Runs.{RunsAt};
ghost use Rattle.capnp_relay.specs.Runs.{CallsStopAt};

use capnp_calls::Call;
use capnp_calls::reply::Reply;
use capnp_calls_run::builder::run as run_at;
use capnp_calls_run::fault::RunFault;
use capnp_copy_arenas::arena::BuilderArena;
use capnp_schema_structs::dynamic_struct;
use capnp_units::errors::{Error, Result};
use capnp_units::kinds::ErrorKind;
use std::alloc::Global;

/// Answers calls in order at a struct. Each call is tested whole on the reading of the struct, then
/// written. A call that is refused changes nothing, and doesn't stop the next call. The handle
/// stays at its place.
///
/// It is refused, and then the earlier calls are written,
/// - with `SizeOverflow` if a call makes a text or data of 2^29 bytes or more, including the last
///   zero, or a list of structs of 2^29 words or more;
/// - otherwise with `OutOfMemory`, or with the allocator's error.
pub fn run<A: BuilderArena>(
    alloc: Global,
    root: &mut dynamic_struct::Builder<'_, A>,
    calls: &[Call],
) -> Result<Vec<Reply>>
    requires arena { IsDeep A.segments A.nesting }
    requires ready { IsReady A.segments root.old }
    requires root { IsRoot root.old.schema }
    ensures all { let words = words_around_struct A.segments in IfOk result (λ told.
        RunsAt (words root.old) (words root.new)
        (record { place = root.old.place; schema = root.old.schema }) (map call_view calls.now)
        (map reply_view told.items)) }
    ensures ends { let words = words_around_struct A.segments in IfErr result
        (CallsStopAt (IsSizeOrRefusal A.refuses) (words root.old) (words root.new)
        (record { place = root.old.place; schema = root.old.schema }) (map call_view calls.now)) }
    ensures handle { IsSameHandle root.old root.new }
    ensures books { A.books root.new.memory.now.arena ≡ A.books root.old.memory.now.arena }
{
    match run_at(alloc, root, calls) {
        Ok(replies) => Ok(replies),
        Err(RunFault::Refused(error)) => Err(error),
        Err(RunFault::Size) => Err(Error::from(ErrorKind::SizeOverflow)),
    }
}
