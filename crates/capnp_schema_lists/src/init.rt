//! Lists of zeros, nulls and empty structs, and texts and data of zero bytes, as new values of
//! elements, over places.
ghost use Rattle.std.specs.Prelude.{◌≡◌, ◌<◌, true, IfErr, OnErr};
ghost use Rattle.capnp_model.specs.Calls.{initn, element_content};
ghost use Rattle.capnp_model.specs.Coverage.{Grows};
ghost use Rattle.capnp_units.specs.Errors.{kind_of};
ghost use Rattle.capnp_units.specs.Segments.{words_in};
ghost use Rattle.capnp_records.specs.Sets.{nodes_of};
ghost use Rattle.capnp_values_queries.specs.Types.{ty_of, is_type_of};
ghost use Rattle.capnp_copy_arenas.specs.Refusals.{IsSizeOrRefusal};
ghost use Rattle.capnp_copy_arenas.specs.States.{state_in};
ghost use Rattle.capnp_values.specs.Shown.{schema_in};
ghost use Rattle.capnp_schema_structs.specs.Puts.{HasCause};
ghost use Rattle.capnp_schema_lists.specs.Places.{typed_element};
ghost use Rattle.capnp_schema_lists.specs.Elements.{Holds, no_new_element};
ghost use Rattle.capnp_schema_lists.specs.Lists.{IsListThere};
ghost use Rattle.capnp_schema_lists.specs.Puts.{PutsElementZeros};

use crate::places::element_pointer;
use capnp_copy_arenas::arena::BuilderArena;
use capnp_copy_arenas::init::ListPlace;
use capnp_records::set::SchemaSet;
use capnp_schema_structs::initn::{list_for, put_list};
use capnp_units::errors::{Error, Result};
use capnp_units::kinds::ErrorKind;
use capnp_values_queries::introspect::{Type, TypeVariant};

/// Returns the reason for which no list is made in an element whose type is not a list, text or
/// data.
fn refusal(ty: Type) -> ErrorKind
    ensures { kind_of result ≡ no_new_element (ty_of ty) }
{
    match ty.which() {
        TypeVariant::AnyPointer => ErrorKind::ListAnyPointerNotSupported,
        _ => ErrorKind::ExpectedAListOrBlob,
    }
}

/// Replaces the value of an element's pointer, which is cleared, by n zeros, like `init` of a
/// dynamic list's builder. A text or data becomes n zero bytes, and a text also has its own zero
/// byte. A list becomes n zeros, nulls or empty structs. The index is within the list. The new list
/// takes its words, including the tag of structs, if the list's segment has room for them,
/// otherwise at most one more.
///
/// It is refused
/// - with `ListAnyPointerNotSupported` if the elements are untyped pointers;
/// - with `ExpectedAListOrBlob` if they are of another type;
/// - with `SizeOverflow` exactly when the elements, structs' words or the message's words,
///   including a pad, would exceed 2^29 - 1;
/// - otherwise with the allocator's error.
///
/// Then everything is unchanged.
pub fn init_element<A: BuilderArena>(
    arena: &mut A,
    list: ListPlace,
    set: &SchemaSet,
    ty: Type,
    index: u32,
    size: u32,
) -> Result<()>
    requires there { IsListThere (words_in (A.segments arena.old)) list }
    requires holds { Holds list (ty_of ty) }
    requires known { is_type_of (nodes_of set.now) ty ≡ true }
    requires index { index < list.count }
    ensures puts { let seen = state_in A.segments A.room A.books in PutsElementZeros (seen
        arena.old) (seen arena.new) (typed_element list index (schema_in set.now) (ty_of ty)) size
        result }
    ensures cause { IfErr result (HasCause (element_content (schema_in set.now) (initn size)
        (ty_of ty)) (IsSizeOrRefusal A.refuses)) }
    ensures refused { OnErr result (A.segments arena.new ≡ A.segments arena.old) }
    ensures grows { Grows (words_in (A.segments arena.old)) (words_in (A.segments arena.new)) }
    ensures books { A.books arena.new ≡ A.books arena.old }
{
    match list_for(set, ty) {
        Some(new) => put_list(arena, element_pointer(list, index), new, size),
        None => Err(Error::from(refusal(ty))),
    }
}
