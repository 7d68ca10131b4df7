//! Calls at fields of dynamic builders.
ghost use Rattle.std.specs.Prelude.{◌≡◌};
ghost use Rattle.capnp_units.specs.Segments.{words_in};
ghost use Rattle.capnp_values_queries.specs.Structs.{shape_of_struct};
ghost use Rattle.capnp_schema_structs.specs.Edits.{IsThere, HoldsShape};

use crate::fault::Fault;
use crate::marks;
use crate::messages::{Segments, end, outcome, put_words, segments_of, small, stands};
use crate::schemas::{DEFAULTS, NEW, OLD, root_place, root_text, schema_of, set_of, struct_at};
use capnp_copy_arenas::arena::{BuilderArena, Memory};
use capnp_schema_structs::init::Part;
use capnp_schema_values::dynamic_struct as gets;
use capnp_units::errors::{Error, Result};
use capnp_units::kinds::ErrorKind;
use capnp_units::limiter::ReadLimiter;
use capnp_values::dynamic_struct;
use capnp_values::dynamic_value::Reader;
use capnp_values_queries::structs::StructSchema;
use capnp_wire::pointer::PointerReader;
use capnp_wire_objects::arena::{ReaderArena, ReaderArenaImpl};

/// A call at a field: `VERB.FIELD`.
#[derive(Clone, Copy)]
pub struct Call<'a> {
    pub verb: &'a str,
    pub field: &'a str,
}

impl<'a> Call<'a> {
    /// Parses the call of a name.
    pub fn new(name: &'a str) -> std::result::Result<Call<'a>, Fault> {
        let (verb, field) = name.split_once('.').ok_or(Fault::NoCase)?;
        Ok(Call { verb, field })
    }
}

/// Returns the field of a source that has the value for a field; an untyped field is set to a text.
fn source_of(field: &str) -> &str {
    if field == "untyped" { "text" } else { field }
}

/// Returns whether a call takes a value.
fn takes_a_value(call: Call<'_>) -> bool {
    matches!(call.verb, "set" | "set_named")
}

/// Sets a field to a value.
fn set<A: BuilderArena, B: ReaderArena>(
    rt: &HostRuntime,
    memory: &mut Memory<A>,
    part: Part<'_>,
    call: Call<'_>,
    value: Reader<'_, B>,
) -> Result<()>
    requires there { IsThere (words_in (A.segments memory.old.arena)) part.place }
    requires wide { HoldsShape part.place (shape_of_struct part.schema) }
{
    let field = part.schema.get_field_by_name(call.field)?;
    let mut object = struct_at(memory, part);
    marks::begin(rt);
    let done = if call.verb == "set_named" {
        object.set_named(call.field, value)
    } else {
        object.set(field, value)
    };
    marks::end(rt);
    done
}

/// Begins, clears or gets a field.
fn edit<A: BuilderArena>(memory: &mut Memory<A>, part: Part<'_>, call: Call<'_>) -> Result<()>
    requires there { IsThere (words_in (A.segments memory.old.arena)) part.place }
    requires wide { HoldsShape part.place (shape_of_struct part.schema) }
{
    let field = part.schema.get_field_by_name(call.field)?;
    let mut object = struct_at(memory, part);
    match call.verb {
        "init" => {
            let _part = object.init(field)?;
        }
        "init_named" => {
            let _part = object.init_named(call.field)?;
        }
        "initn" => object.initn(field, 2)?,
        "initn_named" => object.initn_named(call.field, 2)?,
        "initn_and_get" => {
            let _placed = gets::initn(&mut object, field, 2)?;
        }
        "clear" => object.clear(field)?,
        "clear_named" => object.clear_named(call.field)?,
        "get" => {
            let _placed = gets::get(&mut object, field)?;
        }
        "get_named" => {
            let _placed = gets::get_named(&mut object, call.field)?;
        }
        _ => return Err(Error::from(ErrorKind::FieldNotFound)),
    }
    Ok(())
}

/// Returns the record at the root of a source.
pub fn record<'a>(
    arena: &'a Segments<'a>,
    schema: StructSchema<'a>,
) -> Result<dynamic_struct::Reader<'a, Segments<'a>>> {
    let mut unlimited = ReadLimiter::new(None);
    let root = PointerReader::get_root_from_arena(arena)?;
    let reader = root.get_struct(&mut unlimited, None)?;
    Ok(dynamic_struct::Reader::new(reader, schema))
}

/// Makes a call at the root. A value comes from the same field of a source.
fn called<A: BuilderArena>(
    rt: &HostRuntime,
    memory: &mut Memory<A>,
    schema: StructSchema<'_>,
    call: Call<'_>,
    source: &[u8],
) -> Result<()> {
    let place = root_place(memory, schema)?;
    let part = Part { place, schema };
    if !takes_a_value(call) {
        marks::begin(rt);
        let done = edit(memory, part, call);
        marks::end(rt);
        return done;
    }
    let segments = [source];
    let arena: Segments<'_> = ReaderArenaImpl::new(segments.as_slice(), 64);
    let value = record(&arena, schema)?.get_named(source_of(call.field))?;
    set(rt, memory, part, call, value)
}

/// Makes a call at a message, and returns its line.
fn told_of<A: BuilderArena>(
    rt: &HostRuntime,
    memory: &mut Memory<A>,
    schema: StructSchema<'_>,
    call: Call<'_>,
    old: &str,
) -> std::result::Result<String, Fault> {
    let alloc = rt.alloc();
    put_words(memory, &hex::decode(alloc, old.as_bytes())?)?;
    let source = hex::decode(alloc, NEW.as_bytes())?;
    let before = segments_of(alloc, &memory.arena)?;
    let done = called(rt, memory, schema, call, &source);
    let is_standing = stands(&memory.arena, &before);
    outcome(
        alloc,
        done,
        is_standing,
        root_text(alloc, memory, schema)?.as_str(),
    )
}

/// Makes a case, at a record of the struct of an id, and returns its line.
fn told_at(rt: &HostRuntime, call: &str, id: u64, old: &str) -> std::result::Result<String, Fault> {
    let call = Call::new(call)?;
    let set = set_of(rt.alloc())?;
    let schema = schema_of(&set, id)?;
    let mut message = small(rt.alloc());
    let told = told_of(rt, &mut message.memory, schema, call, old);
    end(message);
    told
}

/// Makes a case, and returns its line.
pub fn told(rt: &HostRuntime, call: &str) -> std::result::Result<String, Fault> {
    told_at(rt, call, 1, OLD)
}

/// Makes a case at a record whose fields have defaults, and are null, and returns its line.
pub fn told_of_defaults(rt: &HostRuntime, call: &str) -> std::result::Result<String, Fault> {
    told_at(rt, call, 5, DEFAULTS)
}
