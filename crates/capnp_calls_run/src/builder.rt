//! Sequences of calls at the struct of a builder.
ghost use Rattle.std.specs.Prelude.{◌≡◌, map, Err, IfOk, IfErr};
ghost use Rattle.capnp_copy_arenas.specs.Deep.{IsDeep};
ghost use Rattle.capnp_copy_arenas.specs.Refusals.{IsSizeOrRefusal};
ghost use Rattle.capnp_schema_structs.specs.Builders.{IsReady};
ghost use Rattle.capnp_calls.specs.CallViews.{call_view};
ghost use Rattle.capnp_calls.specs.Replies.{reply_view};
ghost use Rattle.capnp_calls.specs.Roots.{IsRoot};
ghost use Rattle.capnp_calls_run.specs.declared.fault.RunFault.{RunFault};
ghost use Rattle.capnp_calls_run.specs.Handles.{IsSameHandle, RunsBuilder, StopsBuilder, EndsLongBuilder};

use crate::fault::RunFault;
use crate::run::run_at;
use capnp_calls::Call;
use capnp_calls::reply::Reply;
use capnp_calls::resolved::resolve;
use capnp_copy_arenas::arena::BuilderArena;
use capnp_schema_structs::dynamic_struct;
use std::alloc::Global;

/// Answers calls in order at the struct of a builder, like `run_at`, and with its refusals. The
/// calls are resolved first, and a refusal of memory for that is `Refused` too. The handle stays at
/// its place.
pub fn run<A: BuilderArena>(
    alloc: Global,
    root: &mut dynamic_struct::Builder<'_, A>,
    calls: &[Call],
) -> Result<Vec<Reply>, RunFault>
    requires arena { IsDeep A.segments A.nesting }
    requires ready { IsReady A.segments root.old }
    requires root { IsRoot root.old.schema }
    ensures all { IfOk result (λ told. RunsBuilder A.segments root.old root.new
        (map call_view calls.now) (map reply_view told.items)) }
    ensures stops { IfErr result (StopsBuilder A.segments (IsSizeOrRefusal A.refuses) root.old
        root.new (map call_view calls.now)) }
    ensures size { result ≡ Err RunFault.Size
        → EndsLongBuilder A.segments root.old (map call_view calls.now) }
    ensures handle { IsSameHandle root.old root.new }
    ensures books { A.books root.new.memory.now.arena ≡ A.books root.old.memory.now.arena }
{
    let (place, schema) = (root.place, root.schema);
    let resolved = resolve(alloc, schema, calls)?;
    run_at(alloc, &mut root.memory.arena, place, schema, &resolved)
}
