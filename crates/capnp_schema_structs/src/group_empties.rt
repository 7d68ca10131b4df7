//! Empty values, as which null pointers of active members count when groups are set.
ghost use Rattle.std.specs.Prelude.{◌≡◌, ◌<◌, ◌^◌, true, IfSome, IfNone};
ghost use Rattle.std.specs.Option.{is_some};
ghost use Rattle.capnp_model.specs.Accepted.{schema_of};
ghost use Rattle.capnp_model.specs.Calls.{refused_by, initn_content};
ghost use Rattle.capnp_model.specs.Groups.{empty_tree};
ghost use Rattle.capnp_model.specs.Kinds.{InitnIsOnlyValidForListTextOrDataFields};
ghost use Rattle.capnp_model.specs.Segments.{words_at};
ghost use Rattle.capnp_units.specs.Segments.{words_in};
ghost use Rattle.capnp_wire_objects.specs.Places.{place_view};
ghost use Rattle.capnp_records.specs.Sets.{nodes_of};
ghost use Rattle.capnp_values_queries.specs.Types.{ty_of, is_type_of};
ghost use Rattle.capnp_schema_structs.specs.NewLists.{tree_of_new, IsMade};
ghost use Rattle.capnp_schema_structs.specs.GroupSets.{PutsValue, is_struct_list};
ghost use Rattle.capnp_copy_arenas.specs.States.{state_in};
ghost use Rattle.capnp_copy_arenas.specs.Refusals.{IsSizeOrRefusal};

use crate::initn::{NewList, list_for, put_list};
use capnp_copy_arenas::arena::BuilderArena;
use capnp_copy_arenas::init::init_struct;
use capnp_records::set::SchemaSet;
use capnp_units::errors::{Error, Result};
use capnp_units::kinds::ErrorKind;
use capnp_units::sizes::StructSize;
use capnp_values_queries::introspect::{Type, TypeVariant};
use capnp_wire_objects::place::Place;

/// The size of a struct without sections.
const NOTHING: StructSize = StructSize {
    data_words: 0,
    pointers: 0,
};

/// Returns whether a type is a list of structs.
fn is_struct_list(ty: Type) -> bool
    ensures { result ≡ is_struct_list (ty_of ty) }
{
    match ty.which() {
        TypeVariant::List(element) => match element.which() {
            TypeVariant::Struct(_) => true,
            _ => false,
        },
        _ => false,
    }
}

/// Returns the empty text, data or list of a type.
fn empty_list(set: &SchemaSet, ty: Type) -> Option<NewList>
    requires { is_type_of (nodes_of set.now) ty ≡ true }
    ensures list { IfSome result (λ l.
        tree_of_new l 0 ≡ empty_tree (schema_of (nodes_of set.now)) (ty_of ty)) }
    ensures made { IfSome result IsMade }
    ensures none { IfNone result (refused_by InitnIsOnlyValidForListTextOrDataFields
        ≡ initn_content (schema_of (nodes_of set.now)) 0 (ty_of ty)
        InitnIsOnlyValidForListTextOrDataFields) }
{
    if is_struct_list(ty) {
        return Some(NewList::Structs(NOTHING));
    }
    list_for(set, ty)
}

/// Replaces the value of the pointer at a place by the empty value of a type. A type without an
/// empty value is refused with `TypeMismatch`, others only for lack of room: with `SizeOverflow`,
/// or with the allocator's error.
pub(crate) fn put_empty<A: BuilderArena>(
    arena: &mut A,
    slot: Place,
    set: &SchemaSet,
    ty: Type,
) -> Result<()>
    requires there { is_some (words_at (words_in (A.segments arena.old)) (place_view slot) 1)
        ≡ true }
    requires near { slot.position < 2 ^ 61 }
    requires known { is_type_of (nodes_of set.now) ty ≡ true }
    ensures { let at = state_in A.segments A.room A.books in
        PutsValue (IsSizeOrRefusal A.refuses) (at arena.old) (at arena.new) slot
        (empty_tree (schema_of (nodes_of set.now)) (ty_of ty)) result }
{
    if let TypeVariant::Struct(_) = ty.which() {
        init_struct(arena, slot, NOTHING)?;
        return Ok(());
    }
    let Some(list) = empty_list(set, ty) else {
        return Err(Error::from(ErrorKind::TypeMismatch));
    };
    put_list(arena, slot, list, 0)
}
