//! Sequences of calls at the root of a message.
ghost use Rattle.std.specs.Prelude.{◌≡◌, map, true, Err, IfOk, IfErr};
ghost use Rattle.std.specs.Option.{is_some};
ghost use Rattle.capnp_model.specs.Segments.{root, words_at};
ghost use Rattle.capnp_units.specs.Segments.{words_in};
ghost use Rattle.capnp_copy_arenas.specs.Deep.{IsDeep};
ghost use Rattle.capnp_copy_arenas.specs.Refusals.{IsSizeOrRefusal};
ghost use Rattle.capnp_calls.specs.Replies.{reply_view};
ghost use Rattle.capnp_calls.specs.Resolved.{calls_of, AreResolved};
ghost use Rattle.capnp_calls.specs.Roots.{IsRoot};
ghost use Rattle.capnp_calls_run.specs.declared.fault.RunFault.{RunFault};
ghost use Rattle.capnp_calls_run.specs.Arenas.{BytesRunRoot, BytesEndLongRoot, BytesStopRoot};

use crate::fault::RunFault;
use crate::run::run_at;
use capnp_calls::reply::Reply;
use capnp_calls::resolved::Resolved;
use capnp_copy_arenas::arena::BuilderArena;
use capnp_copy_widening::structs::get_struct;
use capnp_model_writes::laws::{changes_of_values, objects_of_pointers};
use capnp_model_writes::laws_of_depths::{changes_with_fewer_levels, depths_of_owned_values};
use capnp_schema_structs::init::struct_size;
use capnp_values_queries::structs::StructSchema;
use capnp_wire_objects::place::ROOT;
use std::alloc::Global;

/// Answers calls in order at the root of a message, like `run_at`. The root is read as a struct of
/// at least its schema's two sizes, a null root as the empty struct.
///
/// `Refused`: like that struct, with `WrongPointerKind` if the root is a list or a capability, and
/// then like `run_at`. `Size`: like `run_at`.
pub fn run_root<A: BuilderArena>(
    alloc: Global,
    arena: &mut A,
    schema: StructSchema<'_>,
    calls: &[Resolved<'_>],
) -> Result<Vec<Reply>, RunFault>
    requires arena { IsDeep A.segments A.nesting }
    requires there { is_some (words_at (words_in (A.segments arena.old)) root 1) ≡ true }
    requires root { IsRoot schema }
    requires resolved { AreResolved schema calls.now }
    ensures all { IfOk result (λ told. BytesRunRoot (A.segments arena.old) (A.segments arena.new)
        schema.entry (calls_of calls.now) (map reply_view told.items)) }
    ensures size { result ≡ Err RunFault.Size
        → BytesEndLongRoot (A.segments arena.old) schema.entry (calls_of calls.now) }
    ensures stops { IfErr result (BytesStopRoot (IsSizeOrRefusal A.refuses) (A.segments arena.old)
        (A.segments arena.new) schema.entry (calls_of calls.now)) }
    ensures books { A.books arena.new ≡ A.books arena.old }
{
    changes_of_values();
    changes_with_fewer_levels();
    depths_of_owned_values();
    objects_of_pointers();
    let object = get_struct(arena, ROOT, struct_size(schema))?;
    run_at(alloc, arena, object, schema, calls)
}
