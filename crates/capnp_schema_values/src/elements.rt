//! Elements of lists, read for writing.
ghost use Rattle.std.specs.Prelude.{◌≡◌, ◌<◌, ℕ, Some, true, IfOk};
ghost use Rattle.capnp_model.specs.Accepted.{schema_of};
ghost use Rattle.capnp_model.specs.Schemas.{PlainType, plain, width};
ghost use Rattle.capnp_units.specs.Segments.{words_in};
ghost use Rattle.capnp_wire.specs.Views.{list_at, element_number};
ghost use Rattle.capnp_copy_arenas.specs.Elements.{first_element};
ghost use Rattle.capnp_records.specs.Sets.{nodes_of};
ghost use Rattle.capnp_values_queries.specs.Types.{ty_of, is_type_of};
ghost use Rattle.capnp_values.specs.Shown.{number_shown};
ghost use Rattle.capnp_schema_lists.specs.Places.{typed_element};
ghost use Rattle.capnp_schema_lists.specs.Lists.{IsListThere, GrowsIn};
ghost use Rattle.capnp_schema_lists.specs.Elements.{Holds, HoldsStructs};
ghost use Rattle.capnp_schema_values.specs.Built.{IsPlaced};
ghost use Rattle.capnp_schema_values.specs.Kinds.{IsKind};
ghost use Rattle.capnp_schema_values.specs.Plain.{placed_shown, IsPlainType};
ghost use Rattle.capnp_schema_values.specs.Elements.{GetsElementAt};

use crate::placed::Placed;
use crate::plain::plain_of;
use crate::slots::get_slot;
use capnp_copy_arenas::arena::{BuilderArena, Memory};
use capnp_copy_arenas::elements::first_element;
use capnp_copy_arenas::init::ListPlace;
use capnp_records::set::SchemaSet;
use capnp_schema_lists::laws::{elements_as_pointers, elements_as_structs};
use capnp_schema_lists::places::{element_pointer, element_struct};
use capnp_schema_structs::init::Part;
use capnp_units::errors::Result;
use capnp_values::dynamic_list::Reader;
use capnp_values_queries::introspect::{Type, TypeVariant};
use capnp_values_queries::structs::StructSchema;
use capnp_wire::list::ListReader;

/// The place of a type's elements in a list.
#[derive(Clone, Copy)]
enum Kind<'a> {
    Void,
    Plain,
    /// In the list itself.
    Struct(StructSchema<'a>),
    /// At the places that pointers lead to.
    Behind,
}

/// Returns the kind of place of elements of a type of the set.
fn kind_of(set: &SchemaSet, ty: Type) -> Kind<'_>
    requires { is_type_of (nodes_of set.now) ty ≡ true }
    ensures { IsKind (schema_of (nodes_of set.now)) (ty_of ty) result }
{
    match ty.which() {
        TypeVariant::Void => Kind::Void,
        TypeVariant::Struct(raw) => Kind::Struct(StructSchema::new(set, raw)),
        TypeVariant::Text
        | TypeVariant::Data
        | TypeVariant::AnyPointer
        | TypeVariant::Capability
        | TypeVariant::List(_) => Kind::Behind,
        _ => Kind::Plain,
    }
}

/// Returns a plain element of a list, as it is read.
fn plain_element<'a, A: BuilderArena>(
    arena: &A,
    list: ListPlace,
    set: &'a SchemaSet,
    ty: Type,
    index: u32,
) -> Placed<'a>
    requires there { IsListThere (words_in (A.segments arena.now)) list }
    requires index { index < list.count }
    requires holds { Holds list (ty_of ty) }
    requires known { is_type_of (nodes_of set.now) ty ≡ true }
    requires plain { IsPlainType (ty_of ty) }
    ensures { (p : PlainType) → ty_of ty ≡ plain p
        → placed_shown result ≡ Some (number_shown (schema_of (nodes_of set.now)) p
        (element_number (list_at (A.segments arena.now) (A.nesting arena.now) (first_element list)
        list.size list.count list.data_words list.pointers) index (width p))) }
{
    let reader = ListReader::at(
        arena,
        first_element(list),
        list.count,
        list.size,
        list.data_words,
        list.pointers,
    );
    match Reader::new(reader, set, ty).get(index) {
        Ok(value) => plain_of(set, ty, value),
        Err(_) => Placed::Void,
    }
}

/// Returns an element of a list, whose elements fit a type of the set, as a value to write:
/// - a plain element as it is read, by the bits at its front;
/// - a struct at its place;
/// - an element with a pointer as `get_slot` returns it, without a default.
///
/// It is only refused for an element with a pointer, like `get_slot`.
pub fn get_element<'a, A: BuilderArena>(
    memory: &mut Memory<A>,
    list: ListPlace,
    set: &'a SchemaSet,
    ty: Type,
    index: u32,
) -> Result<Placed<'a>>
    requires there { IsListThere (words_in (A.segments memory.old.arena)) list }
    requires index { index < list.count }
    requires holds { Holds list (ty_of ty) }
    requires sizes { HoldsStructs (schema_of (nodes_of set.now)) list (ty_of ty) }
    requires known { is_type_of (nodes_of set.now) ty ≡ true }
    ensures gets { GetsElementAt A.segments A.nesting memory.old.arena memory.new.arena
        (typed_element list index (schema_of (nodes_of set.now)) (ty_of ty))
        result }
    ensures there { IfOk result (IsPlaced (words_in (A.segments memory.new.arena))) }
    ensures grows { GrowsIn (words_in (A.segments memory.old.arena))
        (words_in (A.segments memory.new.arena)) list }
    ensures books { A.books memory.new.arena ≡ A.books memory.old.arena }
{
    match kind_of(set, ty) {
        Kind::Void => Ok(Placed::Void),
        Kind::Plain => Ok(plain_element(&memory.arena, list, set, ty, index)),
        Kind::Struct(schema) => {
            elements_as_structs();
            let place = element_struct(list, index);
            Ok(Placed::Struct(Part { place, schema }))
        }
        Kind::Behind => {
            elements_as_pointers();
            let slot = element_pointer(list, index);
            get_slot(memory, slot, set, ty, None)
        }
    }
}
