//! Values of any kind, set into elements: lists are copied whole, structs as far as they fit.
ghost use Rattle.std.specs.Prelude.{◌≡◌, ◌<◌, ◌&&◌, true, false, OnSome, OnErr, option_map};
ghost use Rattle.capnp_model.specs.Coverage.{Grows};
ghost use Rattle.capnp_model.specs.Edits.{put_child};
ghost use Rattle.capnp_units.specs.Segments.{words_in};
ghost use Rattle.capnp_units.specs.Sizes.{size_number};
ghost use Rattle.capnp_wire.specs.Views.{seen_struct};
ghost use Rattle.capnp_copy_arenas.specs.Refusals.{IsSizeOrRefusal};
ghost use Rattle.capnp_copy_values.specs.Copies.{GrowsByZeros};
ghost use Rattle.capnp_layout_builders.specs.Copied.{TakesOver};
ghost use Rattle.capnp_layout_builders.specs.Making.{state_of};
ghost use Rattle.capnp_values_queries.specs.Types.{ty_of};
ghost use Rattle.capnp_values.specs.Sources.{WithoutLimit, struct_seen};
ghost use Rattle.capnp_schema_structs.specs.Edits.{IsThere};
ghost use Rattle.capnp_schema_structs.specs.Given.{is_flat};
ghost use Rattle.capnp_schema_structs.specs.Sources.{source_view, PutsSource};
ghost use Rattle.capnp_schema_structs.specs.Values.{is_capability, struct_given};
ghost use Rattle.capnp_schema_lists.specs.Elements.{Holds, element_edit};
ghost use Rattle.capnp_schema_lists.specs.Lists.{IsListThere, HasPointer};
ghost use Rattle.capnp_schema_lists.specs.Values.{list_given, are_capabilities, element_given, ElementWithin, TakesStruct, AreStructs, IsListType, LeavesUnlessTaken, PutsElementGiven};

use crate::elements::set_flat;
use crate::places::{element_pointer, element_struct};
use capnp_copy_arenas::arena::{BuilderArena, Memory};
use capnp_copy_arenas::fields::StructPlace;
use capnp_copy_arenas::init::ListPlace;
use capnp_layout_builders::struct_builder::StructBuilder;
use capnp_schema_structs::values::{Source, put_source, struct_for};
use capnp_units::errors::{Error, Result};
use capnp_units::kinds::ErrorKind;
use capnp_units::limiter::ReadLimiter;
use capnp_values::dynamic_value::Reader;
use capnp_values::source::StructSource;
use capnp_values_queries::introspect::{Type, TypeVariant};
use capnp_wire::structs::StructReader;
use capnp_wire_objects::arena::ReaderArena;

/// Returns the list of a value, if elements of the type are lists.
fn list_for<'a, B: ReaderArena>(ty: Type, value: &Reader<'a, B>) -> Option<Source<'a, B>>
    ensures given { option_map (source_view B.segments) result
        ≡ list_given B.segments value.now (ty_of ty) }
    ensures lists { OnSome result (IsListType (ty_of ty)) }
    ensures flat { OnSome result (is_flat value.now ≡ false) }
{
    match (ty.which(), value) {
        (TypeVariant::List(_), Reader::List(value)) => Some(Source::List(value.source())),
        _ => None,
    }
}

/// Returns whether elements of the type are capabilities, and the value is a capability.
fn are_capabilities<B>(ty: Type, value: &Reader<'_, B>) -> bool
    ensures { result ≡ (are_capabilities (ty_of ty) && is_capability value.now) }
{
    match (ty.which(), value) {
        (TypeVariant::Capability, Reader::Capability(_)) => true,
        _ => false,
    }
}

/// Replaces the value of an element's pointer, which is cleared, by a copy, without a limit of
/// words.
fn set_source<A: BuilderArena, B: ReaderArena>(
    memory: &mut Memory<A>,
    list: ListPlace,
    index: u32,
    source: Source<'_, B>,
) -> Result<()>
    requires there { IsListThere (words_in (A.segments memory.old.arena)) list }
    requires pointer { HasPointer list }
    requires index { index < list.count }
    ensures puts { let s = words_in (A.segments memory.old.arena) in
        let u = words_in (A.segments memory.new.arena) in
        WithoutLimit (PutsSource (source_view B.segments source.entry) s u (λ n t.
        ElementWithin n s u list (λ words pointers. put_child 0 t) index)) result }
    ensures stands { OnErr result (GrowsByZeros (words_in (A.segments memory.old.arena))
        (words_in (A.segments memory.new.arena))) }
    ensures grows { Grows (words_in (A.segments memory.old.arena))
        (words_in (A.segments memory.new.arena)) }
    ensures books { A.books memory.new.arena ≡ A.books memory.old.arena }
{
    put_source(memory, element_pointer(list, index), source)
}

/// Copies the content of a struct into another, as far as it fits.
fn copy_content<A: BuilderArena, B: ReaderArena>(
    memory: &mut Memory<A>,
    place: StructPlace,
    limiter: &mut ReadLimiter,
    value: StructReader<'_, B>,
) -> Result<()>
    requires { IsThere (words_in (A.segments memory.old.arena)) place }
    ensures takes { TakesOver (seen_struct B.segments value.entry)
        (words_in (A.segments memory.old.arena)) (words_in (A.segments memory.new.arena)) place
        limiter.old result limiter.new }
    ensures books { A.books memory.new.arena ≡ A.books memory.old.arena }
{
    let mut object = StructBuilder { memory, place };
    object.copy_content_from(limiter, value)
}

/// Copies the content of a struct of a message or of a default into another, as far as it fits.
fn copy_any<A: BuilderArena, B: ReaderArena>(
    memory: &mut Memory<A>,
    place: StructPlace,
    limiter: &mut ReadLimiter,
    source: StructSource<'_, B>,
) -> Result<()>
    requires { IsThere (words_in (A.segments memory.old.arena)) place }
    ensures takes { TakesOver (struct_seen B.segments source.entry)
        (words_in (A.segments memory.old.arena)) (words_in (A.segments memory.new.arena)) place
        limiter.old result limiter.new }
    ensures books { A.books memory.new.arena ≡ A.books memory.old.arena }
{
    match source {
        StructSource::Message(value) => copy_content(memory, place, limiter, value),
        StructSource::Default(value) => copy_content(memory, place, limiter, value),
    }
}

/// Copies the content of a struct into an element that is a struct, as far as it fits, without a
/// limit of words.
fn set_struct<A: BuilderArena, B: ReaderArena>(
    memory: &mut Memory<A>,
    list: ListPlace,
    index: u32,
    source: StructSource<'_, B>,
) -> Result<()>
    requires there { IsListThere (words_in (A.segments memory.old.arena)) list }
    requires structs { size_number list.size ≡ 7 }
    requires index { index < list.count }
    ensures takes { WithoutLimit (TakesStruct (struct_seen B.segments source.entry)
        (words_in (A.segments memory.old.arena)) (words_in (A.segments memory.new.arena)) list
        index) result }
    ensures grows { Grows (words_in (A.segments memory.old.arena))
        (words_in (A.segments memory.new.arena)) }
    ensures books { A.books memory.new.arena ≡ A.books memory.old.arena }
{
    let mut unlimited = ReadLimiter::new(None);
    copy_any(memory, element_struct(list, index), &mut unlimited, source)
}

/// Sets an element to a value, or a Void element to any value. The value is checked and memory
/// taken first, and a pointer is written last. So after a refusal all words are unchanged, and
/// those that were allocated are zero. The exception is a struct that is refused: it leaves a
/// beginning of its content.
pub fn set_value<A: BuilderArena, B: ReaderArena>(
    memory: &mut Memory<A>,
    list: ListPlace,
    ty: Type,
    index: u32,
    value: &Reader<'_, B>,
) -> Result<()>
    requires there { IsListThere (words_in (A.segments memory.old.arena)) list }
    requires holds { Holds list (ty_of ty) × AreStructs list (ty_of ty) }
    requires index { index < list.count }
    ensures puts { let seen = state_of A.segments A.room A.books in
        PutsElementGiven (IsSizeOrRefusal A.refuses) (seen memory.old) (seen memory.new)
        (record { place = list; at = index; edit = element_edit value.now (ty_of ty) })
        (element_given B.segments value.now (ty_of ty)) result }
    ensures leaves { LeavesUnlessTaken (struct_given B.segments value.now (ty_of ty))
        (words_in (A.segments memory.old.arena)) (words_in (A.segments memory.new.arena)) result }
    ensures flat { is_flat value.now ≡ true → OnErr result
        (A.segments memory.new.arena ≡ A.segments memory.old.arena) }
    ensures books { A.books memory.new.arena ≡ A.books memory.old.arena }
{
    if let Some(source) = struct_for(ty, value) {
        return set_struct(memory, list, index, source);
    }
    if let Some(source) = list_for(ty, value) {
        return set_source(memory, list, index, source);
    }
    if are_capabilities(ty, value) {
        return Err(Error::from(ErrorKind::ListCapabilityNotSupported));
    }
    set_flat(&mut memory.arena, list, ty, index, value)
}
