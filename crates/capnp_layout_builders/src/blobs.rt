//! Texts and data that a pointer leads to: made and read in place.
ghost use Rattle.std.specs.Prelude.{◌≡◌, ◌⊎◌, ◌+◌, ◌*◌, ◌<◌, ◌^◌, Some, option_copied, Ok, Err, IfOk, IfErr, IfSome, IfNone};
ghost use Rattle.std.specs.Borrow.{sem, RestsIfErr};
ghost use Rattle.capnp_model.specs.Sections.{words_for};
ghost use Rattle.capnp_model.specs.Segments.{word_at};
ghost use Rattle.capnp_model.specs.Pointers.{a_list};
ghost use Rattle.capnp_wire_objects.specs.Objects.{AreThere};
ghost use Rattle.capnp_units.specs.Segments.{words_in};
ghost use Rattle.capnp_wire_objects.specs.Places.{place_view, seen};
ghost use Rattle.capnp_copy_arenas.specs.Refusals.{IsSizeOrRefusal};
ghost use Rattle.capnp_copy_arenas.specs.States.{state_in, HasWords};
ghost use Rattle.capnp_copy_arenas.specs.Values.{LeadsTo};
ghost use Rattle.capnp_copy_arenas.specs.contracts.arena.Memory.{the_row};
ghost use Rattle.capnp_copy_arenas.specs.declared.bytes.BlobPlace.{BlobPlace};
ghost use Rattle.capnp_layout_builders.specs.Blobs.{bytes_named, data_named, text_named, ends_in_zero, GetsDataOrDefault, GetsTextOrDefault};
ghost use Rattle.capnp_layout_builders.specs.Making.{state_of, StaysAt, MakesData, MakesText, BytesRefused, MakesBytes, BytesNotSet};

use crate::data_builder::DataBuilder;
use crate::gets::begin;
use crate::pointer_builder::PointerBuilder;
use crate::text_builder::TextBuilder;
use capnp_copy_arenas::arena::BuilderArena;
use capnp_copy_arenas::bits::bits_in;
use capnp_copy_arenas::bytes::BlobPlace;
use capnp_copy_arenas::init::init_list;
use capnp_model_writes::laws::{changes_of_values, changes_with_more_levels};
use capnp_units::errors::{Error, Result};
use capnp_units::kinds::ErrorKind;
use capnp_units::limits::MOST_WORDS;
use capnp_units::sizes::{ElementSize, Word};
use capnp_units::units::ElementCount32;
use capnp_wire_objects::arena::ReaderArena;
use capnp_wire_objects::named::found_at;
use capnp_wire_objects::object::{Object, whole};
use capnp_wire_objects::place::{Place, word_at};

/// Replaces the value of the pointer at a place by a list of n zero bytes.
fn init_bytes<A: BuilderArena>(arena: &mut A, slot: Place, count: u32) -> Result<Place>
    requires there { HasWords (A.segments arena.old) slot 1 }
    requires near { slot.position < 2 ^ 61 }
    ensures made { let at = state_in A.segments A.room A.books in
        IfOk result (MakesBytes (at arena.old) (at arena.new) slot count) }
    ensures refused { let at = state_in A.segments A.room A.books in
        IfErr result (BytesNotSet (at arena.old) (at arena.new) slot.segment count) }
    ensures cause { IfErr result (λ e. IsSizeOrRefusal A.refuses e) }
{
    let list = init_list(arena, slot, ElementSize::Byte, count)?;
    Ok(list.start)
}

/// Returns the bytes of the list of bytes that the pointer at a place names, or `None` for null.
#[tactic(auto, unfolding(capnp_wire_objects::specs::Objects::object_at))]
fn bytes_here<A: ReaderArena>(arena: &A, slot: Place) -> Result<Option<BlobPlace>>
    ensures bytes { seen (λ o. o) result
        ≡ bytes_named (words_in (A.segments arena.now)) (place_view slot) }
    ensures there { IfOk result (λ r.
        IfSome r (λ o.
        AreThere (words_in (A.segments arena.now)) (place_view o.start)
        (words_for (8 * o.count)))) }
    ensures null { IfOk result (λ r.
        IfNone r (word_at (words_in (A.segments arena.now)) (place_view slot) ≡ Some 0)) }
    ensures object { IfOk result (λ r.
        IfSome r (λ o.
        LeadsTo (words_in (A.segments arena.now)) (place_view slot)
        (a_list (place_view o.start) 2 o.count))) }
{
    let found = found_at(arena, slot)?;
    match whole(arena, found.object)? {
        Object::Null => Ok(None),
        Object::List {
            start,
            size: ElementSize::Byte,
            count,
        } => Ok(Some(BlobPlace { start, count })),
        Object::List { .. } | Object::PointerList { .. } | Object::StructList { .. } => {
            Err(Error::from(ErrorKind::WrongElementSize))
        }
        Object::Struct { .. } | Object::Capability { .. } => {
            Err(Error::from(ErrorKind::WrongPointerKind))
        }
    }
}

/// Returns whether there is a last byte, and it is zero.
fn ends_in_zero<A: ReaderArena>(arena: &A, blob: BlobPlace) -> bool
    requires { AreThere (words_in (A.segments arena.now)) (place_view blob.start)
        (words_for (8 * blob.count)) }
    ensures { result ≡ ends_in_zero (words_in (A.segments arena.now)) blob }
{
    if blob.count == 0 {
        return false;
    }
    let last = blob.count as usize - 1;
    let place = Place {
        segment: blob.start.segment,
        position: blob.start.position + last / 8,
    };
    match word_at(arena, place) {
        Some(word) => bits_in(word, 8 * (last % 8) as u32, 8) == 0,
        None => false,
    }
}

/// Returns the data that the pointer at a place names.
fn data_at<A: ReaderArena>(arena: &A, slot: Place) -> Result<BlobPlace>
    requires { slot.position < 2 ^ 61 }
    ensures data { seen (λ o. o) result ≡ data_named (words_in (A.segments arena.now)) slot }
    ensures object { IfOk result (λ o.
        (word_at (words_in (A.segments arena.now)) (place_view slot) ≡ Some 0)
        ⊎ LeadsTo (words_in (A.segments arena.now)) (place_view slot)
        (a_list (place_view o.start) 2 o.count)) }
    ensures near { IfOk result (λ o. o.start.position < 2 ^ 61) }
{
    match bytes_here(arena, slot)? {
        None => Ok(BlobPlace {
            start: slot,
            count: 0,
        }),
        Some(blob) => Ok(blob),
    }
}

/// Returns the text that the pointer at a place names.
fn text_at<A: ReaderArena>(arena: &A, slot: Place) -> Result<BlobPlace>
    requires { slot.position < 2 ^ 61 }
    ensures text { seen (λ o. o) result ≡ text_named (words_in (A.segments arena.now)) slot }
    ensures object { IfOk result (λ o.
        (word_at (words_in (A.segments arena.now)) (place_view slot) ≡ Some 0)
        ⊎ LeadsTo (words_in (A.segments arena.now)) (place_view slot)
        (a_list (place_view o.start) 2 (o.count + 1))) }
    ensures near { IfOk result (λ o. o.start.position < 2 ^ 61) }
{
    match bytes_here(arena, slot)? {
        None => Ok(BlobPlace {
            start: slot,
            count: 0,
        }),
        Some(blob) => {
            if !ends_in_zero(arena, blob) {
                return Err(Error::from(ErrorKind::TextWithoutZeroByte));
            }
            Ok(BlobPlace {
                start: blob.start,
                count: blob.count - 1,
            })
        }
    }
}

/// Returns the data at a place, with a default instead of null.
fn data_here<A: BuilderArena>(
    arena: &mut A,
    slot: Place,
    default: Option<&[Word]>,
) -> Result<BlobPlace>
    requires there { HasWords (A.segments arena.old) slot 1 }
    requires near { slot.position < 2 ^ 61 }
    ensures { let at = state_in A.segments A.room A.books in
        GetsDataOrDefault (option_copied default.entry) (at arena.old) (at arena.new) slot result }
{
    changes_of_values();
    changes_with_more_levels();
    begin(arena, slot, default)?;
    data_at(arena, slot)
}

/// Returns the text at a place, with a default instead of null.
fn text_here<A: BuilderArena>(
    arena: &mut A,
    slot: Place,
    default: Option<&[Word]>,
) -> Result<BlobPlace>
    requires there { HasWords (A.segments arena.old) slot 1 }
    requires near { slot.position < 2 ^ 61 }
    ensures { let at = state_in A.segments A.room A.books in
        GetsTextOrDefault (option_copied default.entry) (at arena.old) (at arena.new) slot result }
{
    changes_of_values();
    changes_with_more_levels();
    begin(arena, slot, default)?;
    text_at(arena, slot)
}

/// Replaces the value of the pointer at a place by a text of n zero bytes, followed by its zero
/// byte.
fn init_text_bytes<A: BuilderArena>(arena: &mut A, slot: Place, count: u32) -> Result<Place>
    requires there { HasWords (A.segments arena.old) slot 1 }
    requires near { slot.position < 2 ^ 61 }
    ensures made { let at = state_in A.segments A.room A.books in
        IfOk result (MakesBytes (at arena.old) (at arena.new) slot (count + 1)) }
    ensures refused { let at = state_in A.segments A.room A.books in
        IfErr result (BytesNotSet (at arena.old) (at arena.new) slot.segment (count + 1)) }
    ensures cause { IfErr result (λ e. IsSizeOrRefusal A.refuses e) }
{
    if count >= MOST_WORDS {
        return Err(Error::from(ErrorKind::SizeOverflow));
    }
    init_bytes(arena, slot, count + 1)
}

impl<'a, A: BuilderArena> PointerBuilder<'a, A> {
    /// Replaces the value, which is cleared, by data of n zero bytes, and returns the data to
    /// write.
    ///
    /// It is refused, and everything is unchanged,
    /// - with `SizeOverflow` exactly when the bytes or the message's words, including a pad, would
    ///   exceed 2^29 - 1;
    /// - otherwise with the allocator's error.
    pub fn init_data(self, size: ElementCount32) -> Result<DataBuilder<'a, A>>
        requires there { HasWords (A.segments self.memory.now.arena) self.place 1 }
        requires near { self.place.position < 2 ^ 61 }
        ensures same { IfOk result (λ o. o.memory.ghost_name ≡ self.entry.memory.ghost_name) }
        ensures made { let at = state_of A.segments A.room A.books in IfOk result (λ o.
            MakesData (at self.entry.memory.now) (at o.memory.now) self.entry.place size
            o.place) }
        ensures kind { let at = state_of A.segments A.room A.books in IfErr result
            (BytesRefused (at self.entry.memory.now) self.entry.place.segment size) }
        ensures cause { IfErr result (λ e. IsSizeOrRefusal A.refuses e) }
        ensures* refused { sem 𝓛 (RestsIfErr (the_row A.row) self.entry.memory
            (λ o. o.memory.ghost_name) result (StaysAt A.segments A.books self.entry.memory.now)) }
    {
        let PointerBuilder { memory, place } = self;
        let start = init_bytes(&mut memory.arena, place, size)?;
        let place = BlobPlace { start, count: size };
        Ok(DataBuilder { memory, place })
    }

    /// Replaces the value, which is cleared, by a text of n zero bytes, and returns the text to
    /// write, from its first byte on. The zero byte after the text isn't part of it.
    ///
    /// It is refused, and everything is unchanged,
    /// - with `SizeOverflow` exactly when the bytes with the zero byte, or the message's words,
    ///   including a pad, would exceed 2^29 - 1;
    /// - otherwise with the allocator's error.
    pub fn init_text(self, size: ElementCount32) -> Result<TextBuilder<'a, A>>
        requires there { HasWords (A.segments self.memory.now.arena) self.place 1 }
        requires near { self.place.position < 2 ^ 61 }
        ensures same { IfOk result (λ o. o.memory.ghost_name ≡ self.entry.memory.ghost_name) }
        ensures made { let at = state_of A.segments A.room A.books in IfOk result (λ o.
            MakesText (at self.entry.memory.now) (at o.memory.now) self.entry.place size
            o.place × (o.position ≡ 0)) }
        ensures kind { let at = state_of A.segments A.room A.books in IfErr result
            (BytesRefused (at self.entry.memory.now) self.entry.place.segment (size + 1)) }
        ensures cause { IfErr result (λ e. IsSizeOrRefusal A.refuses e) }
        ensures* refused { sem 𝓛 (RestsIfErr (the_row A.row) self.entry.memory
            (λ o. o.memory.ghost_name) result (StaysAt A.segments A.books self.entry.memory.now)) }
    {
        let PointerBuilder { memory, place } = self;
        let start = init_text_bytes(&mut memory.arena, place, size)?;
        let place = BlobPlace { start, count: size };
        Ok(TextBuilder {
            memory,
            place,
            position: 0,
        })
    }

    /// Returns the data that the pointer names, to write. Null is replaced by the default, if there
    /// is a default and its root isn't null; otherwise the data are empty, and null stays.
    ///
    /// It is refused
    /// - like `write_default`;
    /// - then with the fault of the value there;
    /// - with `WrongPointerKind` if the value isn't a list;
    /// - with `WrongElementSize` if its elements aren't bytes.
    ///
    /// Then all words are unchanged, and new words are zero. The only exception: if the default was
    /// written, and isn't data, the default remains.
    pub fn get_data(self, default: Option<&[Word]>) -> Result<DataBuilder<'a, A>>
        requires there { HasWords (A.segments self.memory.now.arena) self.place 1 }
        requires near { self.place.position < 2 ^ 61 }
        ensures same { IfOk result (λ o. o.memory.ghost_name ≡ self.entry.memory.ghost_name) }
        ensures got { let at = state_of A.segments A.room A.books in IfOk result (λ o.
            GetsDataOrDefault (option_copied default.entry) (at self.entry.memory.now)
            (at o.memory.now) self.entry.place (Ok o.place)) }
        ensures* refused { let at = state_of A.segments A.room A.books in sem 𝓛 (RestsIfErr
            (the_row A.row) self.entry.memory (λ o. o.memory.ghost_name) result (λ n.
            IfErr result (λ e. GetsDataOrDefault (option_copied default.entry)
            (at self.entry.memory.now) (at n) self.entry.place (Err e)))) }
    {
        let PointerBuilder { memory, place } = self;
        let place = data_here(&mut memory.arena, place, default)?;
        Ok(DataBuilder { memory, place })
    }

    /// Returns the text that the pointer names, to write, from its end on; the zero byte after the
    /// text isn't part of it. Null is replaced by the default, if there is a default and its root
    /// isn't null; otherwise the text is empty, and null stays.
    ///
    /// It is refused like data, and with `TextWithoutZeroByte` if the last byte isn't zero or there
    /// is no byte.
    pub fn get_text(self, default: Option<&[Word]>) -> Result<TextBuilder<'a, A>>
        requires there { HasWords (A.segments self.memory.now.arena) self.place 1 }
        requires near { self.place.position < 2 ^ 61 }
        ensures same { IfOk result (λ o. o.memory.ghost_name ≡ self.entry.memory.ghost_name) }
        ensures got { let at = state_of A.segments A.room A.books in IfOk result (λ o.
            GetsTextOrDefault (option_copied default.entry) (at self.entry.memory.now)
            (at o.memory.now) self.entry.place (Ok o.place)) }
        ensures position { IfOk result (λ o. o.position ≡ o.place.count) }
        ensures* refused { let at = state_of A.segments A.room A.books in sem 𝓛 (RestsIfErr
            (the_row A.row) self.entry.memory (λ o. o.memory.ghost_name) result (λ n.
            IfErr result (λ e. GetsTextOrDefault (option_copied default.entry)
            (at self.entry.memory.now) (at n) self.entry.place (Err e)))) }
    {
        let PointerBuilder { memory, place } = self;
        let place = text_here(&mut memory.arena, place, default)?;
        let position = place.count as usize;
        Ok(TextBuilder {
            memory,
            place,
            position,
        })
    }
}
