//! Paths through dynamic builders, step by step.
ghost use Rattle.std.specs.Prelude.{◌≡◌, ◌<◌, IfOk};
ghost use Rattle.capnp_units.specs.Segments.{words_in};
ghost use Rattle.capnp_values_queries.specs.Structs.{shape_of_struct};
ghost use Rattle.capnp_schema_structs.specs.Builders.{IsReady as IsStructReady};
ghost use Rattle.capnp_schema_structs.specs.Edits.{IsThere, HoldsShape};
ghost use Rattle.capnp_schema_lists.specs.Builders.{IsReadyList as IsListReady};
ghost use Rattle.capnp_schema_values.specs.Built.{IsPlaced, IsListPlaced};

use crate::fault::{Fault, Stop};
use capnp_copy_arenas::arena::{BuilderArena, Memory};
use capnp_layout_builders::list_builder::ListBuilder;
use capnp_layout_builders::struct_builder::StructBuilder;
use capnp_schema_lists::dynamic_list;
use capnp_schema_structs::dynamic_struct;
use capnp_schema_structs::init::Part;
use capnp_schema_values::dynamic_struct::get;
use capnp_schema_values::elements::get_element;
use capnp_schema_values::placed::{ListPart, Placed};

/// A step of a path: `.name` or `#index`.
#[derive(Clone, Copy)]
pub enum Step<'a> {
    Name(&'a str),
    Index(u32),
}

/// Parses the step of a word.
pub fn step_of(word: &str) -> Result<Step<'_>, Fault> {
    if let Some(name) = word.strip_prefix('.') {
        return Ok(Step::Name(name));
    }
    let digits = word.strip_prefix('#').ok_or(Fault::Shape)?;
    Ok(Step::Index(digits.parse::<u32>().ok().ok_or(Fault::Shape)?))
}

/// Returns a struct that is there, to write under its schema.
pub fn struct_at<'a, A: BuilderArena>(
    memory: &'a mut Memory<A>,
    part: Part<'a>,
) -> dynamic_struct::Builder<'a, A>
    requires there { IsThere (words_in (A.segments memory.old.arena)) part.place }
    requires wide { HoldsShape part.place (shape_of_struct part.schema) }
    ensures same { result.memory.ghost_name ≡ memory.entry.ghost_name }
    ensures now { result.memory.now ≡ memory.old }
    ensures schema { result.schema ≡ part.entry.schema }
    ensures ready { IsStructReady A.segments result }
{
    let Part { place, schema } = part;
    dynamic_struct::Builder::new(StructBuilder { memory, place }, schema)
}

/// Returns a list that is there, to write.
pub fn list_at<'a, A: BuilderArena>(
    memory: &'a mut Memory<A>,
    list: ListPart<'a>,
) -> dynamic_list::Builder<'a, A>
    requires { IsListPlaced (words_in (A.segments memory.old.arena)) list }
    ensures same { result.memory.ghost_name ≡ memory.entry.ghost_name }
    ensures now { result.memory.now ≡ memory.old }
    ensures place { result.place ≡ list.entry.place }
    ensures ready { IsListReady A.segments result }
{
    let ListPart {
        place,
        set,
        element_type,
    } = list;
    dynamic_list::Builder::new(ListBuilder { memory, place }, set, element_type)
}

/// Gets a field of a struct.
fn field_of<'a, A: BuilderArena>(
    memory: &mut Memory<A>,
    part: Part<'a>,
    name: &str,
) -> Result<Placed<'a>, Stop>
    requires there { IsThere (words_in (A.segments memory.old.arena)) part.place }
    requires wide { HoldsShape part.place (shape_of_struct part.schema) }
    ensures { IfOk result (IsPlaced (words_in (A.segments memory.new.arena))) }
{
    let schema = part.schema;
    let field = schema.get_field_by_name(name)?;
    let mut object = struct_at(memory, part);
    match get(&mut object, field) {
        Ok(placed) => Ok(placed),
        Err(error) => Err(Stop::Refused(error.kind)),
    }
}

/// Gets an element of a list.
fn element_of<'a, A: BuilderArena>(
    memory: &mut Memory<A>,
    list: ListPart<'a>,
    index: u32,
) -> Result<Placed<'a>, Stop>
    requires { IsListPlaced (words_in (A.segments memory.old.arena)) list }
    ensures { IfOk result (IsPlaced (words_in (A.segments memory.new.arena))) }
{
    if index >= list.place.count {
        return Err(Stop::NoCall);
    }
    match get_element(memory, list.place, list.set, list.element_type, index) {
        Ok(placed) => Ok(placed),
        Err(error) => Err(Stop::Refused(error.kind)),
    }
}

/// Returns the value that a step leads to.
fn step_on<'a, A: BuilderArena>(
    memory: &mut Memory<A>,
    placed: Placed<'a>,
    word: &str,
) -> Result<Placed<'a>, Stop>
    requires { IsPlaced (words_in (A.segments memory.old.arena)) placed }
    ensures { IfOk result (IsPlaced (words_in (A.segments memory.new.arena))) }
{
    let step = step_of(word)?;
    match placed {
        Placed::Struct(part) => match step {
            Step::Name(name) => field_of(memory, part, name),
            Step::Index(_) => Err(Stop::NoCall),
        },
        Placed::List(list) => match step {
            Step::Index(index) => element_of(memory, list, index),
            Step::Name(_) => Err(Stop::NoCall),
        },
        _ => Err(Stop::NoCall),
    }
}

/// Returns the value that a path leads to.
pub fn follow<'a, A: BuilderArena>(
    memory: &mut Memory<A>,
    placed: Placed<'a>,
    path: &[&str],
) -> Result<Placed<'a>, Stop>
    requires { IsPlaced (words_in (A.segments memory.old.arena)) placed }
    ensures { IfOk result (IsPlaced (words_in (A.segments memory.new.arena))) }
{
    match path {
        [] => Ok(placed),
        [first, rest @ ..] => {
            let next = step_on(memory, placed, first)?;
            follow(memory, next, rest)
        }
    }
}
