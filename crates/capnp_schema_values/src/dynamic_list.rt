//! Getters of dynamic builders of lists.
ghost use Rattle.std.specs.Prelude.{◌≡◌, ◌<◌, [], IfOk, IfSome, OnErr};
ghost use Rattle.capnp_model.specs.Accepted.{schema_of};
ghost use Rattle.capnp_model.specs.Calls.{initn, element_content};
ghost use Rattle.capnp_model.specs.Edits.{edit_element};
ghost use Rattle.capnp_units.specs.Segments.{words_in};
ghost use Rattle.capnp_copy_arenas.specs.Refusals.{IsSizeOrRefusal};
ghost use Rattle.capnp_records.specs.Sets.{nodes_of};
ghost use Rattle.capnp_values_queries.specs.Types.{ty_of};
ghost use Rattle.capnp_schema_lists.specs.Builders.{IsReadyList, PutsElement, ListStays, words_around_list};
ghost use Rattle.capnp_schema_values.specs.Built.{memory_in, placed_of, IsPlaced, IsAtEnd, IsAtStart, IsReadyValue as IsValueReady};
ghost use Rattle.capnp_schema_values.specs.Builders.{GetsAt, KeepsListReady};
ghost use Rattle.capnp_schema_values.specs.Inits.{BeginsAndGets};

use crate::dynamic_value;
use crate::elements::get_element;
use crate::placed::Placed;
use capnp_copy_arenas::arena::BuilderArena;
use capnp_schema_lists::dynamic_list::Builder;
use capnp_units::errors::Result;

/// Returns the element at an index, which is within the list, as a value to write, which `value`
/// lends:
/// - a plain element as it is read, by the bits at its front;
/// - a struct at its place, with the list's sizes;
/// - any other element at the place of its pointer's value.
///
/// A null pointer stays null: a text, data and a list of anything but structs are empty, and an
/// untyped pointer is null. A list of structs is widened to their schema's sizes.
///
/// It is refused like `get` of a struct's builder.
pub fn get<'b, A: BuilderArena>(builder: &mut Builder<'b, A>, index: u32) -> Result<Placed<'b>>
    requires ready { IsReadyList A.segments builder.old }
    requires index { index < builder.old.place.count }
    ensures same { builder.new.memory.ghost_name ≡ builder.old.memory.ghost_name }
    ensures gets { GetsAt A.segments A.nesting builder.old builder.new index result }
    ensures there { IfOk result (IsPlaced (words_around_list A.segments builder.new)) }
    ensures ready { KeepsListReady A.segments builder.old builder.new }
    ensures books { A.books builder.new.memory.now.arena ≡ A.books builder.old.memory.now.arena }
{
    let place = builder.place;
    let set = builder.set;
    let ty = builder.element_type;
    get_element(builder.memory, place, set, ty, index)
}

/// Lends a value of the list's message that a getter returned, to write, if it is still at its
/// place. The memory of a plain value isn't held.
pub fn value<'a, A: BuilderArena>(
    builder: Builder<'a, A>,
    placed: Placed<'a>,
) -> dynamic_value::Builder<'a, A>
    requires there { IsPlaced (words_in (A.segments builder.memory.now.arena)) placed }
    ensures same { IfSome (memory_in result)
        (λ m. m.ghost_name ≡ builder.entry.memory.ghost_name) }
    ensures now { IfSome (memory_in result) (λ m. m.now ≡ builder.entry.memory.now) }
    ensures placed { placed_of result ≡ placed.entry }
    ensures end { IsAtEnd result }
    ensures ready { IsValueReady A.segments result }
{
    let Builder { memory, .. } = builder;
    dynamic_value::Builder::new(memory, placed)
}

/// Begins a text, data or a list of n bytes or elements in the element at an index, like the
/// builder's own `init`. It returns the place, like `get`; `begun` lends the value.
///
/// It is refused like `init`, and then the list is unchanged, or like a `get` of the begun value.
pub fn init<'b, A: BuilderArena>(
    builder: &mut Builder<'b, A>,
    index: u32,
    size: u32,
) -> Result<Placed<'b>>
    requires ready { IsReadyList A.segments builder.old }
    requires index { index < builder.old.place.count }
    ensures same { builder.new.memory.ghost_name ≡ builder.old.memory.ghost_name }
    ensures begins { let ty = ty_of builder.old.element_type in
        let s = schema_of (nodes_of builder.old.set.now) in
        BeginsAndGets (λ b r. PutsElement A.segments A.room A.books (IsSizeOrRefusal A.refuses)
        builder.old b (edit_element s [] (initn size) ty) index
        (element_content s (initn size) ty) r × OnErr r (ListStays A.segments builder.old b))
        (λ b r. GetsAt A.segments A.nesting b builder.new index r) builder.new result }
    ensures there { IfOk result (IsPlaced (words_around_list A.segments builder.new)) }
    ensures books { A.books builder.new.memory.now.arena ≡ A.books builder.old.memory.now.arena }
{
    match builder.init(index, size) {
        Ok(()) => get(builder, index),
        Err(error) => Err(error),
    }
}

/// Lends a value of the list's message that `init` returned, to write, if it is still at its place:
/// a text from its first byte on.
pub fn begun<'a, A: BuilderArena>(
    builder: Builder<'a, A>,
    placed: Placed<'a>,
) -> dynamic_value::Builder<'a, A>
    requires there { IsPlaced (words_in (A.segments builder.memory.now.arena)) placed }
    ensures same { IfSome (memory_in result)
        (λ m. m.ghost_name ≡ builder.entry.memory.ghost_name) }
    ensures now { IfSome (memory_in result) (λ m. m.now ≡ builder.entry.memory.now) }
    ensures placed { placed_of result ≡ placed.entry }
    ensures start { IsAtStart result }
    ensures ready { IsValueReady A.segments result }
{
    let Builder { memory, .. } = builder;
    dynamic_value::Builder::begun(memory, placed)
}
