//! Texts and data of elements of lists that are built, over places.
ghost use Rattle.std.specs.Prelude.{◌≡◌, ◌<◌, option_map, IfErr, OnOk, OnErr};
ghost use Rattle.capnp_model.specs.Calls.{blob_tree};
ghost use Rattle.capnp_model.specs.Coverage.{Grows};
ghost use Rattle.capnp_units.specs.Segments.{words_in};
ghost use Rattle.capnp_values_queries.specs.Types.{ty_of};
ghost use Rattle.capnp_schema_structs.specs.Blobs.{list_bytes_of};
ghost use Rattle.capnp_copy_arenas.specs.Refusals.{IsSizeOrRefusal};
ghost use Rattle.capnp_copy_arenas.specs.States.{state_in};
ghost use Rattle.capnp_schema_structs.specs.Puts.{NewObjectRefused};
ghost use Rattle.capnp_schema_lists.specs.Elements.{blob_given};
ghost use Rattle.capnp_schema_lists.specs.Lists.{IsListThere, HasPointer};
ghost use Rattle.capnp_schema_lists.specs.Puts.{PutsElementTree};

use crate::places::element_pointer;
use capnp_copy_arenas::arena::BuilderArena;
use capnp_copy_arenas::init::ListPlace;
use capnp_schema_structs::setting;
use capnp_schema_structs::setting::Blob;
use capnp_units::errors::Result;
use capnp_values::dynamic_value::Reader;
use capnp_values_queries::introspect::{Type, TypeVariant};

/// Returns the text or the data of a value, if elements of the type are texts or data.
pub(crate) fn blob_for<'a, B>(ty: Type, value: &Reader<'a, B>) -> Option<Blob<'a>>
    ensures { option_map list_bytes_of result ≡ blob_given value.now (ty_of ty) }
{
    match (ty.which(), value) {
        (TypeVariant::Text, Reader::Text(text)) => Some(Blob::Text(text.as_bytes())),
        (TypeVariant::Data, Reader::Data(data)) => Some(Blob::Data(data)),
        _ => None,
    }
}

/// Replaces the value of an element's pointer, which is cleared, by a text or data.
pub(crate) fn put_blob<A: BuilderArena>(
    arena: &mut A,
    list: ListPlace,
    index: u32,
    blob: Blob<'_>,
) -> Result<()>
    requires there { IsListThere (words_in (A.segments arena.old)) list }
    requires pointer { HasPointer list }
    requires index { index < list.count }
    ensures puts { let at = state_in A.segments A.room A.books in OnOk result (PutsElementTree
        (at arena.old) (at arena.new) list (blob_tree (list_bytes_of blob.entry)) index) }
    ensures refused { let t = blob_tree (list_bytes_of blob.entry) in IfErr result
        (NewObjectRefused (state_in A.segments A.room A.books arena.old) list.start.segment t) }
    ensures cause { IfErr result (IsSizeOrRefusal A.refuses) }
    ensures stays { OnErr result (A.segments arena.new ≡ A.segments arena.old) }
    ensures grows { Grows (words_in (A.segments arena.old)) (words_in (A.segments arena.new)) }
    ensures books { A.books arena.new ≡ A.books arena.old }
{
    let slot = element_pointer(list, index);
    setting::put_blob(arena, slot, blob)
}
