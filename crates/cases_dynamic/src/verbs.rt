//! Calls of dynamic builders, by their verbs.
ghost use Rattle.std.specs.Prelude.{◌≡◌};
ghost use Rattle.capnp_units.specs.Segments.{words_in};
ghost use Rattle.capnp_values_queries.specs.Structs.{shape_of_struct};
ghost use Rattle.capnp_schema_structs.specs.Edits.{IsThere, HoldsShape};
ghost use Rattle.capnp_schema_values.specs.Built.{IsPlaced, IsListPlaced};

use crate::answers::{Answer, truth};
use crate::fault::{Fault, Stop};
use crate::steps::{Step, follow, list_at, step_of, struct_at};
use crate::values::{Segments, bytes_in, number_in, value_of};
use crate::{readers, wholes};
use capnp_copy_arenas::arena::{BuilderArena, Memory};
use capnp_schema_structs::init::Part;
use capnp_schema_values::placed::{ListPart, Placed};
use capnp_schema_values::{dynamic_list as list_gets, dynamic_struct as struct_gets};
use capnp_values::dynamic_value::Reader;
use capnp_values_print::stringify::print;
use capnp_wire_objects::arena::{ReaderArena, ReaderArenaImpl};
use std::alloc::Global;

/// A call in a line: `VERB SIZE VALUE STEP..`, or `VERB STEP..` if the verb takes neither size nor
/// value.
#[derive(Clone, Copy)]
pub struct Call<'a> {
    pub verb: &'a str,
    pub size: u32,
    pub value: &'a str,
    pub path: &'a [&'a str],
}

fn is_step(word: &str) -> bool {
    word.starts_with('.') || word.starts_with('#')
}

/// Parses the call of a line's words.
pub fn call_of<'a>(words: &'a [&'a str]) -> Result<Call<'a>, Fault> {
    let [verb, others @ ..] = words else {
        return Err(Fault::Shape);
    };
    let (size, value, path) = match others {
        [] => (0, "-", others),
        [first, ..] if is_step(first) => (0, "-", others),
        [size, value, path @ ..] => (number_in::<u32>(size)?, *value, path),
        _ => return Err(Fault::Shape),
    };
    Ok(Call {
        verb,
        size,
        value,
        path,
    })
}

/// Gets a field by its name, and returns its text.
fn reach_field<A: BuilderArena>(
    alloc: Global,
    memory: &mut Memory<A>,
    part: Part<'_>,
    name: &str,
) -> Result<Answer, Stop>
    requires there { IsThere (words_in (A.segments memory.old.arena)) part.place }
    requires wide { HoldsShape part.place (shape_of_struct part.schema) }
{
    let mut object = struct_at(memory, part);
    let placed = struct_gets::get_named(&mut object, name)?;
    let value = struct_gets::value(object, placed);
    let mut text = Vec::new(alloc);
    print(value.into_reader(), false, &mut text)?;
    Ok(Answer::Text(text))
}

/// Gets an element, and returns its text.
fn reach_element<A: BuilderArena>(
    alloc: Global,
    memory: &mut Memory<A>,
    part: ListPart<'_>,
    index: u32,
) -> Result<Answer, Stop>
    requires { IsListPlaced (words_in (A.segments memory.old.arena)) part }
{
    let mut list = list_at(memory, part);
    if index >= list.len() {
        return Err(Stop::NoCall);
    }
    let placed = list_gets::get(&mut list, index)?;
    let value = list_gets::value(list, placed);
    let mut text = Vec::new(alloc);
    print(value.into_reader(), false, &mut text)?;
    Ok(Answer::Text(text))
}

/// Sets a field of a struct to a value.
fn set_field<A: BuilderArena, B: ReaderArena>(
    memory: &mut Memory<A>,
    part: Part<'_>,
    name: &str,
    call: Call<'_>,
    value: Reader<'_, B>,
) -> Result<Answer, Stop>
    requires there { IsThere (words_in (A.segments memory.old.arena)) part.place }
    requires wide { HoldsShape part.place (shape_of_struct part.schema) }
{
    let schema = part.schema;
    let mut object = struct_at(memory, part);
    if call.verb == "set_named" {
        object.set_named(name, value)?;
    } else {
        object.set(schema.get_field_by_name(name)?, value)?;
    }
    Ok(Answer::Done)
}

/// Sets a field of a struct to the value that a call gives, whose bytes are these.
fn give_field<A: BuilderArena>(
    memory: &mut Memory<A>,
    part: Part<'_>,
    name: &str,
    call: Call<'_>,
    bytes: &[u8],
) -> Result<Answer, Stop>
    requires there { IsThere (words_in (A.segments memory.old.arena)) part.place }
    requires wide { HoldsShape part.place (shape_of_struct part.schema) }
{
    let field = part.schema.get_field_by_name(name)?;
    let ty = field.get_type();
    let set = field.parent().set();
    let segments = [bytes];
    let arena: Segments<'_> = ReaderArenaImpl::new(segments.as_slice(), 64);
    let value = value_of(set, ty, call.value, &arena)?;
    set_field(memory, part, name, call, value)
}

/// Begins or clears a field of a struct.
fn edit_field<A: BuilderArena>(
    memory: &mut Memory<A>,
    part: Part<'_>,
    name: &str,
    call: Call<'_>,
) -> Result<Answer, Stop>
    requires there { IsThere (words_in (A.segments memory.old.arena)) part.place }
    requires wide { HoldsShape part.place (shape_of_struct part.schema) }
{
    let schema = part.schema;
    let mut object = struct_at(memory, part);
    match call.verb {
        "clear" => object.clear(schema.get_field_by_name(name)?)?,
        "clear_named" => object.clear_named(name)?,
        "init" => {
            let _part = object.init(schema.get_field_by_name(name)?)?;
        }
        "init_named" => {
            let _part = object.init_named(name)?;
        }
        "initn" => object.initn(schema.get_field_by_name(name)?, call.size)?,
        "initn_named" => object.initn_named(name, call.size)?,
        _ => return Err(Stop::NoCall),
    }
    Ok(Answer::Done)
}

/// Returns whether a field of a struct is there.
fn has_field<A: BuilderArena>(
    alloc: Global,
    memory: &mut Memory<A>,
    part: Part<'_>,
    name: &str,
    call: Call<'_>,
) -> Result<Answer, Stop>
    requires there { IsThere (words_in (A.segments memory.old.arena)) part.place }
    requires wide { HoldsShape part.place (shape_of_struct part.schema) }
{
    let schema = part.schema;
    let object = struct_at(memory, part);
    if call.verb == "has_named" {
        return truth(alloc, object.has_named(name)?);
    }
    truth(alloc, object.has(schema.get_field_by_name(name)?)?)
}

/// Does a call at a field of a struct.
fn at_field<A: BuilderArena>(
    alloc: Global,
    memory: &mut Memory<A>,
    part: Part<'_>,
    name: &str,
    call: Call<'_>,
) -> Result<Answer, Stop>
    requires there { IsThere (words_in (A.segments memory.old.arena)) part.place }
    requires wide { HoldsShape part.place (shape_of_struct part.schema) }
{
    match call.verb {
        "reach" => reach_field(alloc, memory, part, name),
        "set" | "set_named" => {
            let bytes = bytes_in(alloc, call.value)?;
            give_field(memory, part, name, call, &bytes)
        }
        "has" | "has_named" => has_field(alloc, memory, part, name, call),
        _ => edit_field(memory, part, name, call),
    }
}

/// Sets an element of a list to a value.
fn set_element<A: BuilderArena, B: ReaderArena>(
    memory: &mut Memory<A>,
    part: ListPart<'_>,
    index: u32,
    value: Reader<'_, B>,
) -> Result<Answer, Stop>
    requires { IsListPlaced (words_in (A.segments memory.old.arena)) part }
{
    let mut list = list_at(memory, part);
    if index >= list.len() {
        return Err(Stop::NoCall);
    }
    list.set(index, value)?;
    Ok(Answer::Done)
}

/// Sets an element of a list to the value that a call gives, whose bytes are these.
fn give_element<A: BuilderArena>(
    memory: &mut Memory<A>,
    part: ListPart<'_>,
    index: u32,
    call: Call<'_>,
    bytes: &[u8],
) -> Result<Answer, Stop>
    requires { IsListPlaced (words_in (A.segments memory.old.arena)) part }
{
    let set = part.set;
    let ty = part.element_type;
    let segments = [bytes];
    let arena: Segments<'_> = ReaderArenaImpl::new(segments.as_slice(), 64);
    let value = value_of(set, ty, call.value, &arena)?;
    set_element(memory, part, index, value)
}

/// Begins an element of a list.
fn begin_element<A: BuilderArena>(
    memory: &mut Memory<A>,
    part: ListPart<'_>,
    index: u32,
    size: u32,
) -> Result<Answer, Stop>
    requires { IsListPlaced (words_in (A.segments memory.old.arena)) part }
{
    let mut list = list_at(memory, part);
    if index >= list.len() {
        return Err(Stop::NoCall);
    }
    list.init(index, size)?;
    Ok(Answer::Done)
}

/// Does a call at an element of a list.
fn at_element<A: BuilderArena>(
    alloc: Global,
    memory: &mut Memory<A>,
    part: ListPart<'_>,
    index: u32,
    call: Call<'_>,
) -> Result<Answer, Stop>
    requires { IsListPlaced (words_in (A.segments memory.old.arena)) part }
{
    match call.verb {
        "reach" => reach_element(alloc, memory, part, index),
        "set" => {
            let bytes = bytes_in(alloc, call.value)?;
            give_element(memory, part, index, call, &bytes)
        }
        "initn" => begin_element(memory, part, index, call.size),
        _ => Err(Stop::NoCall),
    }
}

/// Does a call at the last step of its path.
fn at_end<A: BuilderArena>(
    alloc: Global,
    memory: &mut Memory<A>,
    root: Part<'_>,
    call: Call<'_>,
) -> Result<Answer, Stop>
    requires there { IsThere (words_in (A.segments memory.old.arena)) root.place }
    requires wide { HoldsShape root.place (shape_of_struct root.schema) }
{
    let [front @ .., last] = call.path else {
        return Err(Stop::NoCall);
    };
    let step = step_of(last)?;
    match follow(memory, Placed::Struct(root), front)? {
        Placed::Struct(part) => match step {
            Step::Name(name) => at_field(alloc, memory, part, name, call),
            Step::Index(_) => Err(Stop::NoCall),
        },
        Placed::List(part) => match step {
            Step::Index(index) => at_element(alloc, memory, part, index, call),
            Step::Name(_) => Err(Stop::NoCall),
        },
        _ => Err(Stop::NoCall),
    }
}

/// Answers a call at a struct.
pub fn answer<A: BuilderArena>(
    alloc: Global,
    memory: &mut Memory<A>,
    root: Part<'_>,
    call: Call<'_>,
) -> Result<Answer, Stop>
    requires there { IsThere (words_in (A.segments memory.old.arena)) root.place }
    requires wide { HoldsShape root.place (shape_of_struct root.schema) }
{
    match call.verb {
        "get" => {
            let object = struct_at(memory, root);
            readers::answer(alloc, Reader::Struct(object.into_reader()), call)
        }
        "which"
        | "where"
        | "write"
        | "put"
        | "null"
        | "get_text"
        | "get_data"
        | "init_text"
        | "init_data"
        | "init_null"
        | "clear_pointer" => {
            let placed = follow(memory, Placed::Struct(root), call.path)?;
            wholes::answer(alloc, memory, placed, call)
        }
        _ => at_end(alloc, memory, root, call),
    }
}
