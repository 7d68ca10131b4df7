//! Sequences of calls, each tested on a reader of the struct, and then written.
ghost use Rattle.std.specs.Prelude.{◌≡◌, ◌+◌, ◌^◌, ◌<◌, ◌≤◌, map, Err, IfOk, IfErr};
ghost use Rattle.capnp_model.specs.Answers.{reply_of};
ghost use Rattle.capnp_model.specs.Trees.{Trees, structure};
ghost use Rattle.capnp_model.specs.Steps.{step};
ghost use Rattle.capnp_units.specs.Segments.{words_in};
ghost use Rattle.capnp_model_writes.specs.Footprints.{OwnsObject};
ghost use Rattle.capnp_copy_arenas.specs.Deep.{IsDeep};
ghost use Rattle.capnp_copy_arenas.specs.Refusals.{IsSizeOrRefusal};
ghost use Rattle.capnp_copy_arenas.specs.Structs.{object_of_struct};
ghost use Rattle.capnp_wire_objects.specs.Places.{place_view};
ghost use Rattle.capnp_wire.specs.Views as views;
ghost use Rattle.capnp_values.specs.Sources.{struct_seen};
ghost use Rattle.capnp_values_queries.specs.Structs.{shape_of_struct, id_of};
ghost use Rattle.capnp_values_queries.specs.declared.structs.StructSchema.{StructSchema as AnySchema};
ghost use Rattle.capnp_schema_structs.specs.Edits.{IsThere, HoldsShape};
ghost use Rattle.capnp_calls.specs.Replies.{reply_view};
ghost use Rattle.capnp_calls.specs.Resolved.{call_of, calls_of, IsResolved, AreResolved};
ghost use Rattle.capnp_calls.specs.Roots.{IsRoot};
ghost use Rattle.capnp_model.specs.Printing.{as_it_is};
ghost use Rattle.capnp_units.specs.declared.kinds.ErrorKind.{ErrorKind};
ghost use Rattle.capnp_calls_run.specs.declared.fault.RunFault.{RunFault};
ghost use Rattle.capnp_calls_run.specs.Runs.{TestsAt, TellsWhy};
ghost use Rattle.capnp_calls_run.specs.Arenas.{part_at, BytesAnswerAt, BytesFailAt, BytesPutLongAt, BytesRunAt, BytesStopAt, BytesEndLongAt};

use crate::fault::RunFault;
use capnp_calls::laws::roots_are_no_groups;
use capnp_calls::reply::Reply;
use capnp_calls::resolved::Resolved;
use capnp_calls_edits::path::write_path;
use capnp_calls_replies::root::reply_to;
use capnp_copy_arenas::arena::BuilderArena;
use capnp_copy_arenas::fields::StructPlace;
use capnp_model::laws_of_edits::records_after_calls;
use capnp_model_writes::laws::changes_of_objects;
use capnp_model_writes::laws_of_depths::{changes_with_fewer_levels, depths_of_owned_values};
use capnp_units::errors::{self, Error};
use capnp_units::kinds::ErrorKind;
use capnp_values::dynamic_struct;
use capnp_values_queries::structs::StructSchema;
use capnp_wire::structs::StructReader;
use capnp_wire_objects::arena::ReaderArena;
use capnp_wire_objects::place::has_words;
use std::alloc::Global;

/// Returns the struct, to read.
fn struct_of<'a, A: ReaderArena>(
    arena: &'a A,
    object: StructPlace,
    schema: StructSchema<'a>,
) -> dynamic_struct::Reader<'a, A>
    requires there { IsThere (words_in (A.segments arena.now)) object }
    ensures source { struct_seen A.segments result.source ≡ views.struct_at (A.segments arena.now)
        (A.nesting arena.now) (place_view object.start) object.data_words object.pointers }
    ensures schema { result.schema ≡ schema.entry }
{
    let reader = StructReader::at(arena, object.start, object.data_words, object.pointers);
    dynamic_struct::Reader::new(reader, schema)
}

/// Returns the reply of a call at the struct, or that the call is to be written.
fn test<A: ReaderArena>(
    alloc: Global,
    arena: &A,
    object: StructPlace,
    schema: StructSchema<'_>,
    call: &Resolved<'_>,
) -> errors::Result<Reply>
    requires arena { IsDeep A.segments A.nesting }
    requires there { IsThere (words_in (A.segments arena.now)) object }
    requires resolved { IsResolved schema call.now }
    ensures replied { IfOk result (λ r.
        TestsAt (words_in (A.segments arena.now)) object schema.entry (call_of call.now)
        (reply_view r)) }
    ensures memory { IfErr result (λ e. e.kind ≡ ErrorKind.OutOfMemory) }
{
    changes_with_fewer_levels();
    depths_of_owned_values();
    reply_to(alloc, struct_of(arena, object, schema), call)
}

/// Returns the reason for which a call that is done at the struct wasn't written there.
fn fault_of(call: &Resolved<'_>, error: Error) -> RunFault
    ensures { (schema : AnySchema) → IsResolved schema call.now
        → TellsWhy schema (call_of call.now) error result }
{
    match error.kind {
        ErrorKind::SizeOverflow if call.is_long() => RunFault::Size,
        _ => RunFault::Refused(error),
    }
}

/// Answers a call at the struct, if the struct exists; otherwise it is refused with `OutOfBounds`.
/// After an error nothing is promised of the struct's value.
fn answer<A: BuilderArena>(
    alloc: Global,
    arena: &mut A,
    object: StructPlace,
    schema: StructSchema<'_>,
    call: &Resolved<'_>,
) -> Result<Reply, RunFault>
    requires arena { IsDeep A.segments A.nesting }
    requires near { object.start.position + (object.data_words + object.pointers) < 2 ^ 61 }
    requires wide { HoldsShape object (shape_of_struct schema) }
    requires resolved { IsResolved schema call.now }
    ensures answer { IfOk result (λ r. BytesAnswerAt (A.segments arena.old) (A.segments arena.new)
        (part_at object schema.entry) (call_of call.now) (reply_view r)) }
    ensures stops { IfErr result (BytesFailAt (IsSizeOrRefusal A.refuses) (A.segments arena.old)
        (A.segments arena.new) (part_at object schema.entry)
        (call_of call.now)) }
    ensures size { result ≡ Err RunFault.Size
        → BytesPutLongAt (A.segments arena.old) object schema.entry (call_of call.now) }
    ensures books { A.books arena.new ≡ A.books arena.old }
{
    changes_of_objects();
    changes_with_fewer_levels();
    depths_of_owned_values();
    let words = object.data_words as usize + object.pointers as usize;
    if !has_words(arena, object.start, words) {
        return Err(RunFault::Refused(Error::from(ErrorKind::OutOfBounds)));
    }
    let reply = test(alloc, arena, object, schema, call)?;
    match reply {
        Reply::Done => match write_path(arena, object, schema, call) {
            Ok(()) => Ok(Reply::Done),
            Err(error) => Err(fault_of(call, error)),
        },
        other => Ok(other),
    }
}

/// Answers calls in order at a struct of a message, each on the result of the earlier calls. Its
/// reply is that of the record machine, and the struct becomes what the edits make of it. A refused
/// call and a `get` change nothing, and don't stop the next call.
///
/// The struct has at least its schema's two sizes. The calls are resolved under the schema, so no
/// name is looked up here. `Size`: a call that is done makes a text or data of 2^29 bytes or more
/// including the last zero, or a list of structs of 2^29 words or more. `Refused` is
/// - `OutOfBounds`: the struct doesn't exist;
/// - `SizeOverflow`, of the arena: the words of the message would exceed 2^29 - 1;
/// - otherwise lack of memory, or the error of the arena.
///
/// After both the earlier calls have their effect, and the next call perhaps a part of it.
pub fn run_at<A: BuilderArena>(
    alloc: Global,
    arena: &mut A,
    object: StructPlace,
    schema: StructSchema<'_>,
    calls: &[Resolved<'_>],
) -> Result<Vec<Reply>, RunFault>
    requires arena { IsDeep A.segments A.nesting }
    requires near { object.start.position + (object.data_words + object.pointers) < 2 ^ 61 }
    requires wide { HoldsShape object (shape_of_struct schema) }
    requires root { IsRoot schema }
    requires resolved { AreResolved schema calls.now }
    ensures all { IfOk result (λ told. BytesRunAt (A.segments arena.old) (A.segments arena.new)
        (part_at object schema.entry) (calls_of calls.now) (map reply_view told.items)) }
    ensures stops { IfErr result (BytesStopAt (IsSizeOrRefusal A.refuses) (A.segments arena.old)
        (A.segments arena.new) (part_at object schema.entry) (calls_of calls.now)) }
    ensures size { result ≡ Err RunFault.Size
        → BytesEndLongAt (A.segments arena.old) object schema.entry (calls_of calls.now) }
    ensures books { A.books arena.new ≡ A.books arena.old }
{
    records_after_calls();
    roots_are_no_groups();
    changes_of_objects();
    let mut replies = Vec::new(alloc);
    for call in calls {
        replies.push(answer(alloc, arena, object, schema, call)?)?;
    }
    Ok(replies)
}
