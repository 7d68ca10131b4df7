//! Values of null pointers of active members when groups are set.
ghost use Rattle.std.specs.Prelude.{ℕ, ◌≡◌, ◌<◌, ◌^◌, true, Option, Some, option_map, option_copied, IsSome};
ghost use Rattle.std.specs.Option.{is_some};
ghost use Rattle.capnp_model.specs.Accepted.{schema_of};
ghost use Rattle.capnp_model.specs.Decoding.{decode};
ghost use Rattle.capnp_model.specs.Groups.{source_tree};
ghost use Rattle.capnp_model.specs.Schemas.{Ty, pointer_slot, default_or_null};
ghost use Rattle.capnp_model.specs.Segments.{words_at};
ghost use Rattle.capnp_model.specs.Trees.{Tree, null};
ghost use Rattle.capnp_units.specs.Segments.{words_in};
ghost use Rattle.capnp_wire_objects.specs.Places.{place_view};
ghost use Rattle.capnp_records.specs.NodeViews.{value_of};
ghost use Rattle.capnp_records.specs.Sets.{nodes_of};
ghost use Rattle.capnp_values_queries.specs.Handles.{entry_of_field};
ghost use Rattle.capnp_values_queries.specs.Types.{ty_of, is_type_of};
ghost use Rattle.capnp_schema_structs.specs.GroupSets.{PutsValue, null_tree, IsReadable, IsDefault};
ghost use Rattle.capnp_copy_arenas.specs.States.{state_in};
ghost use Rattle.capnp_copy_arenas.specs.Refusals.{IsSizeOrRefusal};

use crate::group_empties::put_empty;
use crate::roots::{copy_root, default_said, has_null_root, words_of};
use crate::setting::{Blob, put_blob};
use capnp_copy_arenas::arena::BuilderArena;
use capnp_model::laws::values_on_walks;
use capnp_records::node::Value;
use capnp_records::set::SchemaSet;
use capnp_units::errors::Result;
use capnp_values_queries::fields::Field;
use capnp_values_queries::introspect::Type;
use capnp_wire_objects::place::Place;

/// Returns the default of a field that is a pointer.
pub(crate) fn default_value<'a>(field: Field<'a>) -> Option<&'a Value>
    ensures { (i : ℕ) (ty : Ty) (d : Option Tree)
        → option_map (λ e. e.body) (entry_of_field field.entry) ≡ Some (pointer_slot i ty d)
        → IsDefault d (option_map value_of (option_copied result)) }
{
    default_said(field.get_proto())
}

/// Replaces the value of the pointer at a place by the value of a segment; if the segment's root is
/// null, by the empty value of a type. It is refused like `put_null`.
fn put_segment<A: BuilderArena>(
    arena: &mut A,
    slot: Place,
    set: &SchemaSet,
    ty: Type,
    bytes: &[u8],
) -> Result<()>
    requires there { is_some (words_at (words_in (A.segments arena.old)) (place_view slot) 1)
        ≡ true }
    requires near { slot.position < 2 ^ 61 }
    requires known { is_type_of (nodes_of set.now) ty ≡ true }
    requires reads { IsSome (decode bytes.now) }
    ensures { let at = state_in A.segments A.room A.books in
        let around = schema_of (nodes_of set.now) in let d = default_or_null (decode bytes.now) in
        PutsValue (IsSizeOrRefusal A.refuses) (at arena.old) (at arena.new) slot
        (source_tree around (ty_of ty) d null) result }
{
    values_on_walks();
    let words = words_of(bytes);
    if has_null_root(words) {
        return put_empty(arena, slot, set, ty);
    }
    copy_root(arena, slot, words)
}

/// Replaces the value of the pointer at a place by the value as which a null pointer counts: its
/// default. Without a default, or if the default is null, this is the empty value of its type. A
/// type that has neither is refused with `TypeMismatch`, others only for lack of room: with
/// `SizeOverflow`, or with the allocator's error.
pub(crate) fn put_null<A: BuilderArena>(
    arena: &mut A,
    slot: Place,
    set: &SchemaSet,
    ty: Type,
    default: Option<&Value>,
) -> Result<()>
    requires there { is_some (words_at (words_in (A.segments arena.old)) (place_view slot) 1)
        ≡ true }
    requires near { slot.position < 2 ^ 61 }
    requires known { is_type_of (nodes_of set.now) ty ≡ true }
    requires readable { IsReadable (option_map value_of (option_copied default)) }
    ensures { let at = state_in A.segments A.room A.books in
        PutsValue (IsSizeOrRefusal A.refuses) (at arena.old) (at arena.new) slot
        (null_tree (schema_of (nodes_of set.now)) (ty_of ty)
        (option_map value_of (option_copied default.entry))) result }
{
    let Some(value) = default else {
        return put_empty(arena, slot, set, ty);
    };
    match value {
        Value::Text(text) => put_blob(arena, slot, Blob::Text(text)),
        Value::Data(data) => put_blob(arena, slot, Blob::Data(data)),
        Value::Struct(segment) => put_segment(arena, slot, set, ty, segment),
        Value::List(segment) => put_segment(arena, slot, set, ty, segment),
        _ => put_empty(arena, slot, set, ty),
    }
}
