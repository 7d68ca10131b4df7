//! Values to which an untyped pointer can be set.
ghost use Rattle.std.specs.Prelude.{◌≡◌, ◌+◌, ◌<◌, ◌^◌, ⊤, true, length, string_bytes, Result};
ghost use Rattle.std.specs.Option.{is_some};
ghost use Rattle.capnp_model.specs.Coverage.{Grows};
ghost use Rattle.capnp_model.specs.Sections.{number_of};
ghost use Rattle.capnp_model.specs.Segments.{Segments, words_at};
ghost use Rattle.capnp_units.specs.Segments.{words_in};
ghost use Rattle.capnp_units.specs.declared.errors.Error.{Error};
ghost use Rattle.capnp_wire_objects.specs.declared.place.Place as code;
ghost use Rattle.capnp_wire_objects.specs.Places.{place_view};
ghost use Rattle.capnp_wire.specs.Views.{seen_pointer};
ghost use Rattle.capnp_layout_builders.specs.Copied.{CopiesPointer, SetsStruct, SetsList};
ghost use Rattle.capnp_values.specs.Sources.{WithoutLimit, pointer_seen, struct_seen, list_seen};
ghost use Rattle.capnp_schema_values.specs.Inputs.{PutsByteList};

use crate::any_pointer::Owned;
use capnp_copy_arenas::arena::{BuilderArena, Memory};
use capnp_copy_arenas::blobs::{set_data, set_text};
use capnp_layout_builders::pointer_builder::PointerBuilder;
use capnp_schema_structs::values::{Source, put_source};
use capnp_text::{data, text};
use capnp_units::errors::Result;
use capnp_units::limiter::ReadLimiter;
use capnp_values::source::PointerSource;
use capnp_values::{any_pointer, dynamic_list, dynamic_struct};
use capnp_wire::pointer::PointerReader;
use capnp_wire_objects::arena::ReaderArena;
use capnp_wire_objects::place::Place;

/// A value to which an untyped pointer can be set, as a value of a type.
pub trait PointerInput<T>: Sized {
    /// The relation between the segments before and after, the place of the pointer that is set,
    /// and the result.
    ghost sets: { Self → Segments → Segments → code.Place → Result ⊤ Error → Type 0 };

    /// Replaces the pointer's value, which is cleared, by this value. It is refused by the rules of
    /// the input. Each segment of the message still exists then, and is not shorter.
    fn set_at<A: BuilderArena>(memory: &mut Memory<A>, place: Place, value: Self) -> Result<()>
        requires there { is_some (words_at (words_in (A.segments memory.old.arena))
            (place_view place) 1) ≡ true }
        requires near { place.position < 2 ^ 61 }
        ensures sets { sets value (words_in (A.segments memory.old.arena))
            (words_in (A.segments memory.new.arena)) place result }
        ensures grows { Grows (words_in (A.segments memory.old.arena))
            (words_in (A.segments memory.new.arena)) }
        ensures books { A.books memory.new.arena ≡ A.books memory.old.arena };
}

/// Data: these bytes. It is refused with `SizeOverflow` exactly when they are too many for the
/// message, otherwise with the allocator's error; then all words are unchanged.
impl PointerInput<data::Owned> for &[u8] {
    ghost sets = { λ b. PutsByteList (length b.now) (number_of 8 b.now) };

    fn set_at<A: BuilderArena>(memory: &mut Memory<A>, place: Place, value: &[u8]) -> Result<()> {
        set_data(&mut memory.arena, place, value)
    }
}

/// A text: these bytes, followed by a zero byte. It is refused like data.
impl PointerInput<text::Owned> for text::Reader<'_> {
    ghost sets = { λ t. PutsByteList (length t.0.now + 1) (number_of 8 t.0.now) };

    fn set_at<A: BuilderArena>(
        memory: &mut Memory<A>,
        place: Place,
        value: text::Reader<'_>,
    ) -> Result<()> {
        let text::Reader(bytes) = value;
        set_text(&mut memory.arena, place, bytes)
    }
}

/// A text: the bytes of a `str`, followed by a zero byte.
impl PointerInput<text::Owned> for &str {
    ghost sets = { λ t. PutsByteList (length t.now + 1) (number_of 8 t.now) };

    fn set_at<A: BuilderArena>(memory: &mut Memory<A>, place: Place, value: &str) -> Result<()> {
        set_text(&mut memory.arena, place, value.as_bytes())
    }
}

/// A text: the bytes of a `String`, followed by a zero byte.
impl PointerInput<text::Owned> for &String {
    ghost sets = { λ t. PutsByteList (length (string_bytes t.now) + 1)
        (number_of 8 (string_bytes t.now)) };

    fn set_at<A: BuilderArena>(memory: &mut Memory<A>, place: Place, value: &String) -> Result<()> {
        let bytes = value.as_bytes();
        set_text(&mut memory.arena, place, bytes)
    }
}

/// Replaces the value of the pointer at a place by a copy of a pointer's value.
fn put_pointer<A: BuilderArena, B: ReaderArena>(
    memory: &mut Memory<A>,
    slot: Place,
    limiter: &mut ReadLimiter,
    value: PointerReader<'_, B>,
) -> Result<()>
    requires there { is_some (words_at (words_in (A.segments memory.old.arena)) (place_view slot)
        1) ≡ true }
    requires near { slot.position < 2 ^ 61 }
    ensures copy { CopiesPointer (seen_pointer B.segments value.entry)
        (words_in (A.segments memory.old.arena))
        (words_in (A.segments memory.new.arena)) (place_view slot) limiter.old result limiter.new }
    ensures books { A.books memory.new.arena ≡ A.books memory.old.arena }
{
    let mut pointer = PointerBuilder {
        memory,
        place: slot,
    };
    pointer.copy_from(limiter, value)
}

/// An untyped pointer, of a message or of a default: the whole tree of its value, without a limit
/// of words. It is refused like `PointerBuilder::copy_from`; then all words are unchanged, and new
/// words are zero.
impl<B: ReaderArena> PointerInput<Owned> for any_pointer::Reader<'_, B> {
    ghost sets = { λ v s u p. WithoutLimit
        (CopiesPointer (pointer_seen B.segments v.source) s u (place_view p)) };

    fn set_at<A: BuilderArena>(
        memory: &mut Memory<A>,
        place: Place,
        value: any_pointer::Reader<'_, B>,
    ) -> Result<()> {
        let mut unlimited = ReadLimiter::new(None);
        match value.source() {
            PointerSource::Message(pointer) => {
                put_pointer(memory, place, &mut unlimited, pointer)
            }
            PointerSource::Default(pointer) => {
                put_pointer(memory, place, &mut unlimited, pointer)
            }
        }
    }
}

/// A struct, of a message or of a default, whatever its schema: its data in whole words and the
/// values of its pointers, without a limit of words. It is refused like
/// `PointerBuilder::set_struct`; then all words are unchanged, and new words are zero.
impl<B: ReaderArena> PointerInput<Owned> for dynamic_struct::Reader<'_, B> {
    ghost sets = { λ v s u p. WithoutLimit
        (SetsStruct (struct_seen B.segments v.source) s u (place_view p)) };

    fn set_at<A: BuilderArena>(
        memory: &mut Memory<A>,
        place: Place,
        value: dynamic_struct::Reader<'_, B>,
    ) -> Result<()> {
        put_source(memory, place, Source::Struct(value.source()))
    }
}

/// A list, of a message or of a default, whatever its type: a list of structs is copied whole. It
/// is refused like `PointerBuilder::set_list`, without a limit of words; then all words are
/// unchanged, and new words are zero.
impl<B: ReaderArena> PointerInput<Owned> for dynamic_list::Reader<'_, B> {
    ghost sets = { λ v s u p. WithoutLimit
        (SetsList (list_seen B.segments v.source) s u (place_view p)) };

    fn set_at<A: BuilderArena>(
        memory: &mut Memory<A>,
        place: Place,
        value: dynamic_list::Reader<'_, B>,
    ) -> Result<()> {
        put_source(memory, place, Source::List(value.source()))
    }
}
