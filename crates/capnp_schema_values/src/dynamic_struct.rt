//! Getters of dynamic builders of structs.
ghost use Rattle.std.specs.Prelude.{◌≡◌, None, IfOk, IfSome, OnErr};
ghost use Rattle.capnp_model.specs.Calls.{initn as initn_verb};
ghost use Rattle.capnp_units.specs.Segments.{words_in};
ghost use Rattle.capnp_copy_arenas.specs.Refusals.{IsSizeOrRefusal};
ghost use Rattle.capnp_values_queries.specs.Fields.{place_of_name};
ghost use Rattle.capnp_values_queries.specs.Handles.{entry_of_field};
ghost use Rattle.capnp_values_queries.specs.Structs.{fields_of_struct, schema_around};
ghost use Rattle.capnp_values.specs.Shown.{AnswersNamed};
ghost use Rattle.capnp_schema_structs.specs.Calls.{edit_of};
ghost use Rattle.capnp_schema_structs.specs.NewLists.{initn_field};
ghost use Rattle.capnp_schema_structs.specs.Builders.{IsReady, Puts, StructStays, words_around_struct};
ghost use Rattle.capnp_schema_values.specs.Built.{memory_in, placed_of, IsPlaced, IsAtEnd, IsAtStart, IsReadyValue as IsValueReady};
ghost use Rattle.capnp_schema_values.specs.Builders.{GetsFieldByHandle, KeepsReady};
ghost use Rattle.capnp_schema_values.specs.Inits.{BeginsAndGets};

use crate::dynamic_value;
use crate::fields::get_field;
use crate::placed::Placed;
use capnp_copy_arenas::arena::BuilderArena;
use capnp_schema_structs::dynamic_struct::Builder;
use capnp_units::errors::Result;
use capnp_values_queries::fields::Field;

/// Returns a field of a struct, as a value to write, which `value` lends:
/// - a plain field as it is read, by its bits, exclusive-or'ed with those of its default;
/// - a group as the same struct under its own schema;
/// - any other field at the place of its pointer's value.
///
/// A null pointer gets its default, if there is one. Otherwise a struct gets a struct of zeros and
/// nulls, and any other type stays null: a text, data and a list are empty, and an untyped pointer
/// is null. A struct, and a list of structs, are widened to their schema's sizes. A union member
/// that isn't active is read all the same, and the union is unchanged.
///
/// It is refused
/// - with the fault of the value of the field's pointer;
/// - with `WrongPointerKind`, `WrongElementSize` or `TextWithoutZeroByte` if that value isn't of
///   the field's type;
/// - a default and a wider copy with `SizeOverflow` exactly when the message's words would exceed
///   2^29 - 1, otherwise with the allocator's error.
///
/// Then all words are unchanged, and new words are zero. The only exception: a default that
/// replaced null remains, if its value is refused, or has no room to be widened.
pub fn get<'b, A: BuilderArena>(
    builder: &mut Builder<'_, A>,
    field: Field<'b>,
) -> Result<Placed<'b>>
    requires ready { IsReady A.segments builder.old }
    requires field { field.parent ≡ builder.old.schema }
    ensures same { builder.new.memory.ghost_name ≡ builder.old.memory.ghost_name }
    ensures gets { GetsFieldByHandle A.segments A.nesting builder.old builder.new field.entry
        result }
    ensures there { IfOk result (IsPlaced (words_around_struct A.segments builder.new)) }
    ensures ready { KeepsReady A.segments builder.old builder.new }
    ensures books { A.books builder.new.memory.now.arena ≡ A.books builder.old.memory.now.arena }
{
    let place = builder.place;
    get_field(builder.memory, place, field)
}

/// Returns the field of a name, like `get`. A name that the struct lacks is refused with
/// `FieldNotFound`, and everything is unchanged.
pub fn get_named<'b, A: BuilderArena>(
    builder: &mut Builder<'b, A>,
    name: &str,
) -> Result<Placed<'b>>
    requires ready { IsReady A.segments builder.old }
    ensures same { builder.new.memory.ghost_name ≡ builder.old.memory.ghost_name }
    ensures gets { AnswersNamed builder.old.schema name.now (λ f r.
        GetsFieldByHandle A.segments A.nesting builder.old builder.new f r) result }
    ensures unknown { place_of_name name.now (fields_of_struct builder.old.schema) ≡ None
        → StructStays A.segments builder.old builder.new }
    ensures there { IfOk result (IsPlaced (words_around_struct A.segments builder.new)) }
    ensures ready { KeepsReady A.segments builder.old builder.new }
    ensures books { A.books builder.new.memory.now.arena ≡ A.books builder.old.memory.now.arena }
{
    let place = builder.place;
    let schema = builder.schema;
    let field = schema.get_field_by_name(name)?;
    get_field(builder.memory, place, field)
}

/// Lends a value of the struct's message that a getter returned, to write, if it is still at its
/// place. The memory of a plain value isn't held.
pub fn value<'a, A: BuilderArena>(
    builder: Builder<'a, A>,
    placed: Placed<'a>,
) -> dynamic_value::Builder<'a, A>
    requires there { IsPlaced (words_in (A.segments builder.memory.now.arena)) placed }
    ensures same { IfSome (memory_in result)
        (λ m. m.ghost_name ≡ builder.entry.memory.ghost_name) }
    ensures now { IfSome (memory_in result) (λ m. m.now ≡ builder.entry.memory.now) }
    ensures placed { placed_of result ≡ placed.entry }
    ensures end { IsAtEnd result }
    ensures ready { IsValueReady A.segments result }
{
    let Builder { memory, .. } = builder;
    dynamic_value::Builder::new(memory, placed)
}

/// Begins a text, data or a list of n bytes or elements in a field, like the builder's own `initn`,
/// and returns the place, like `get`; `begun` lends the value.
///
/// It is refused like the builder's `initn`, and then the struct is unchanged, or like a `get` of
/// the begun value.
pub fn initn<'b, A: BuilderArena>(
    builder: &mut Builder<'_, A>,
    field: Field<'b>,
    count: u32,
) -> Result<Placed<'b>>
    requires ready { IsReady A.segments builder.old }
    requires field { field.parent ≡ builder.old.schema }
    ensures same { builder.new.memory.ghost_name ≡ builder.old.memory.ghost_name }
    ensures begins { BeginsAndGets
        (λ b r. Puts A.segments A.room A.books (IsSizeOrRefusal A.refuses) builder.old b
        (edit_of field.entry (initn_verb count))
        (initn_field (schema_around field.entry.parent) count (entry_of_field field.entry)) r
        × OnErr r (StructStays A.segments builder.old b))
        (λ b r. GetsFieldByHandle A.segments A.nesting b builder.new field.entry r) builder.new
        result }
    ensures there { IfOk result (IsPlaced (words_around_struct A.segments builder.new)) }
    ensures books { A.books builder.new.memory.now.arena ≡ A.books builder.old.memory.now.arena }
{
    match builder.initn(field, count) {
        Ok(()) => get(builder, field),
        Err(error) => Err(error),
    }
}

/// Lends a value of the struct's message that `initn` returned, to write, if it is still at its
/// place: a text from its first byte on.
pub fn begun<'a, A: BuilderArena>(
    builder: Builder<'a, A>,
    placed: Placed<'a>,
) -> dynamic_value::Builder<'a, A>
    requires there { IsPlaced (words_in (A.segments builder.memory.now.arena)) placed }
    ensures same { IfSome (memory_in result)
        (λ m. m.ghost_name ≡ builder.entry.memory.ghost_name) }
    ensures now { IfSome (memory_in result) (λ m. m.now ≡ builder.entry.memory.now) }
    ensures placed { placed_of result ≡ placed.entry }
    ensures start { IsAtStart result }
    ensures ready { IsValueReady A.segments result }
{
    let Builder { memory, .. } = builder;
    dynamic_value::Builder::begun(memory, placed)
}
