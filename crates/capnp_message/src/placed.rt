//! Handles that know the places of their values, and are made at a pointer of a message that is
//! built.
ghost use Rattle.std.specs.Prelude.{◌≡◌, ◌+◌, ◌<◌, ◌^◌, ◌↔◌, ℕ, None, IfOk, IfErr, OnErr};
ghost use Rattle.capnp_model.specs.Segments.{Segments};
ghost use Rattle.capnp_units.specs.declared.errors.Error.{Error};
ghost use Rattle.capnp_units.specs.declared.kinds.ErrorKind.TheVariants.{SizeOverflow};
ghost use Rattle.capnp_units.specs.declared.sizes.StructSize.{StructSize};
ghost use Rattle.capnp_wire_objects.specs.declared.place.Place as code;
ghost use Rattle.capnp_wire_objects.specs.Places.{place_view};
ghost use Rattle.capnp_copy_arenas.specs.Allocations.{total_words};
ghost use Rattle.capnp_copy_arenas.specs.Clearing.{ClearsValue};
ghost use Rattle.capnp_copy_arenas.specs.Refusals.{IsSizeOrRefusal};
ghost use Rattle.capnp_copy_arenas.specs.States.{HasWords};
ghost use Rattle.capnp_copy_arenas.specs.declared.fields.StructPlace.{StructPlace};
ghost use Rattle.capnp_layout_builders.specs.Blobs.{DataMade, TextMade, DataGot, NoDataGot, TextGot, NoTextGot};
ghost use Rattle.capnp_layout_builders.specs.Inputs.{IsTooLong};
ghost use Rattle.capnp_layout_builders.specs.Making.{memory_words};
ghost use Rattle.capnp_message.specs.Built.{rooted, words_held, place_held, loans_held, NoRootMade, StaysRooted, RootNotSet};
ghost use Rattle.capnp_message.specs.Placed.{root_slot, StructPlaced, StructIsTooLarge, StructFound, NoStructFound, NoRootFound};

use crate::builder::Builder;
use crate::roots::begin;
use crate::typed_builder::TypedBuilder;
use capnp_copy_arenas::allocator::Allocator;
use capnp_copy_arenas::arena::{BuilderArena, Memory};
pub use capnp_copy_arenas::bytes::BlobPlace;
use capnp_copy_arenas::clear::clear;
pub use capnp_copy_arenas::fields::StructPlace;
use capnp_copy_arenas::init::init_struct;
use capnp_layout_builders::gets::struct_or_default;
use capnp_layout_builders::pointer_builder::PointerBuilder;
use capnp_text::{data, text};
use capnp_units::errors::Result;
pub use capnp_units::sizes::StructSize;
use capnp_wire_objects::place::{Place, ROOT};

/// A handle that knows the place of its value and holds no memory, so that its calls take the
/// memory of the message. A handle over a struct is a `PlacedStruct`. The pointer's word stays at
/// its place.
pub trait Placed: Sized {
    /// The relation between the segments before and after, the count, and the handle, if a new
    /// value replaces the value at a place.
    ghost is_made: { Segments → Segments → code.Place → ℕ → Self → Type 0 };

    /// With such a count the value is too large for a message that has n words.
    ghost is_too_large: { ℕ → ℕ → Type 0 };

    /// The relation between the segments before and after, and the handle, if the value at a place
    /// is read.
    ghost is_got: { Segments → Segments → code.Place → Self → Type 0 };

    /// The errors with which reading it is refused, and the segments then.
    ghost is_not_got: { Segments → Segments → code.Place → Error → Type 0 };

    /// Replaces the pointer's value, which is cleared, by a new value with n bytes or elements;
    /// types without a count ignore the length.
    ///
    /// It is refused, and everything is unchanged,
    /// - with `SizeOverflow` exactly when the value is too large;
    /// - otherwise with the allocator's error.
    fn init_at<A: BuilderArena>(memory: &mut Memory<A>, place: Place, length: u32) -> Result<Self>
        requires there { HasWords (A.segments memory.old.arena) place 1 }
        requires near { place.position < 2 ^ 61 }
        ensures there { HasWords (A.segments memory.new.arena) place 1 }
        ensures books { A.books memory.new.arena ≡ A.books memory.old.arena }
        ensures made { let at = memory_words A.segments in IfOk result (λ o.
            is_made (at memory.old) (at memory.new) place length o) }
        ensures refused { OnErr result
            (A.segments memory.new.arena ≡ A.segments memory.old.arena) }
        ensures kind { let at = memory_words A.segments in IfErr result (λ e.
            (e.kind ≡ SizeOverflow) ↔ is_too_large length (total_words (at memory.old))) }
        ensures cause { IfErr result (λ e. IsSizeOrRefusal A.refuses e) };

    /// Returns the value that the pointer names.
    ///
    /// It is refused by the rules of the type.
    fn get_at<A: BuilderArena>(memory: &mut Memory<A>, place: Place) -> Result<Self>
        requires there { HasWords (A.segments memory.old.arena) place 1 }
        requires near { place.position < 2 ^ 61 }
        ensures there { HasWords (A.segments memory.new.arena) place 1 }
        ensures books { A.books memory.new.arena ≡ A.books memory.old.arena }
        ensures got { let at = memory_words A.segments in IfOk result (λ o.
            is_got (at memory.old) (at memory.new) place o) }
        ensures refused { let at = memory_words A.segments in IfErr result (λ e.
            is_not_got (at memory.old) (at memory.new) place e) };
}

/// A handle over a struct, which is made of the place of the struct.
pub trait PlacedStruct: Sized {
    /// The data words and the pointers of such a struct.
    ghost STRUCT_SIZE: { StructSize };

    /// The place.
    ghost place_of: { Self → StructPlace };

    /// The data words and the pointers of such a struct.
    const STRUCT_SIZE: StructSize;

    /// Makes the handle of the struct at a place.
    fn at_place(place: StructPlace) -> Self
        ensures { place_of result ≡ place };
}

/// A type of values, with the handle that builds them.
pub trait OwnedPlaced {
    /// The handle.
    type Builder: Placed;
}

/// Replaces the pointer's value, which is cleared, by a struct of zeros and nulls, and returns its
/// place.
///
/// It is refused, and everything is unchanged,
/// - with `SizeOverflow` exactly when the message's words, including a pad, would exceed 2^29 - 1;
/// - otherwise with the allocator's error.
fn init_struct_at<A: BuilderArena>(
    memory: &mut Memory<A>,
    place: Place,
    size: StructSize,
) -> Result<StructPlace>
    requires there { HasWords (A.segments memory.old.arena) place 1 }
    requires near { place.position < 2 ^ 61 }
    ensures there { HasWords (A.segments memory.new.arena) place 1 }
    ensures books { A.books memory.new.arena ≡ A.books memory.old.arena }
    ensures made { let at = memory_words A.segments in IfOk result
        (StructPlaced size (at memory.old) (at memory.new) place) }
    ensures refused { OnErr result
        (A.segments memory.new.arena ≡ A.segments memory.old.arena) }
    ensures kind { let at = memory_words A.segments in IfErr result (λ e.
        (e.kind ≡ SizeOverflow) ↔ StructIsTooLarge size (total_words (at memory.old))) }
    ensures cause { IfErr result (λ e. IsSizeOrRefusal A.refuses e) }
{
    init_struct(&mut memory.arena, place, size)
}

/// Returns the struct that the pointer names, with at least these sections, like
/// `PointerBuilder::get_struct` without a default.
fn get_struct_at<A: BuilderArena>(
    memory: &mut Memory<A>,
    place: Place,
    size: StructSize,
) -> Result<StructPlace>
    requires there { HasWords (A.segments memory.old.arena) place 1 }
    requires near { place.position < 2 ^ 61 }
    ensures there { HasWords (A.segments memory.new.arena) place 1 }
    ensures books { A.books memory.new.arena ≡ A.books memory.old.arena }
    ensures got { let at = memory_words A.segments in IfOk result
        (StructFound size (at memory.old) (at memory.new) place) }
    ensures refused { let at = memory_words A.segments in IfErr result
        (NoStructFound size (at memory.old) (at memory.new) place) }
{
    struct_or_default(&mut memory.arena, place, size, None)
}

/// A struct is made of zeros and nulls, whatever the count. It is read with at least the sizes of
/// its type, and refused, as in `PointerBuilder::get_struct`.
impl<T: PlacedStruct> Placed for T {
    ghost is_made = { λ s u slot n o. StructPlaced T.STRUCT_SIZE s u slot (T.place_of o) };

    ghost is_too_large = { λ n words. StructIsTooLarge T.STRUCT_SIZE words };

    ghost is_got = { λ s u slot o. StructFound T.STRUCT_SIZE s u slot (T.place_of o) };

    ghost is_not_got = { λ s u slot e. NoStructFound T.STRUCT_SIZE s u slot e };

    fn init_at<A: BuilderArena>(memory: &mut Memory<A>, place: Place, _length: u32) -> Result<T> {
        let place = init_struct_at(memory, place, T::STRUCT_SIZE)?;
        Ok(T::at_place(place))
    }

    fn get_at<A: BuilderArena>(memory: &mut Memory<A>, place: Place) -> Result<T> {
        let place = get_struct_at(memory, place, T::STRUCT_SIZE)?;
        Ok(T::at_place(place))
    }
}

/// The place of the bytes of a text, without its zero byte; a `TextBuilder` over the place writes
/// them.
#[derive(Clone, Copy)]
pub struct TextPlace(pub BlobPlace);

/// A text is made of n zero bytes.
impl Placed for TextPlace {
    ghost is_made = { λ s u slot n o. TextMade s u slot n o.0 };

    ghost is_too_large = { λ n words. IsTooLong (n + 1) words };

    ghost is_got = { λ s u slot o. TextGot None s u slot o.0 };

    ghost is_not_got = { λ s u slot e. NoTextGot None s u slot e };

    fn init_at<A: BuilderArena>(
        memory: &mut Memory<A>,
        place: Place,
        length: u32,
    ) -> Result<TextPlace> {
        let pointer = PointerBuilder { memory, place };
        Ok(TextPlace(pointer.init_text(length)?.place))
    }

    fn get_at<A: BuilderArena>(memory: &mut Memory<A>, place: Place) -> Result<TextPlace> {
        let pointer = PointerBuilder { memory, place };
        Ok(TextPlace(pointer.get_text(None)?.place))
    }
}

/// The place of data; a `DataBuilder` over the place writes them.
#[derive(Clone, Copy)]
pub struct DataPlace(pub BlobPlace);

/// Data are made of n zero bytes.
impl Placed for DataPlace {
    ghost is_made = { λ s u slot n o. DataMade s u slot n o.0 };

    ghost is_too_large = { λ n words. IsTooLong n words };

    ghost is_got = { λ s u slot o. DataGot None s u slot o.0 };

    ghost is_not_got = { λ s u slot e. NoDataGot None s u slot e };

    fn init_at<A: BuilderArena>(
        memory: &mut Memory<A>,
        place: Place,
        length: u32,
    ) -> Result<DataPlace> {
        let pointer = PointerBuilder { memory, place };
        Ok(DataPlace(pointer.init_data(length)?.place))
    }

    fn get_at<A: BuilderArena>(memory: &mut Memory<A>, place: Place) -> Result<DataPlace> {
        let pointer = PointerBuilder { memory, place };
        Ok(DataPlace(pointer.get_data(None)?.place))
    }
}

/// The place of an untyped pointer; a `PointerBuilder` over the place writes it, for example as a
/// list.
#[derive(Clone, Copy)]
pub struct PointerPlace(pub Place);

/// An untyped pointer is made null, and read as it is; neither is refused.
impl Placed for PointerPlace {
    ghost is_made = { λ s u slot n o. ClearsValue s u (place_view slot) × (o.0 ≡ slot) };

    ghost is_too_large = { λ n words. ⊥ };

    ghost is_got = { λ s u slot o. (u ≡ s) × (o.0 ≡ slot) };

    ghost is_not_got = { λ s u slot e. ⊥ };

    fn init_at<A: BuilderArena>(
        memory: &mut Memory<A>,
        place: Place,
        _length: u32,
    ) -> Result<PointerPlace> {
        clear(&mut memory.arena, place);
        Ok(PointerPlace(place))
    }

    fn get_at<A: BuilderArena>(_memory: &mut Memory<A>, place: Place) -> Result<PointerPlace> {
        Ok(PointerPlace(place))
    }
}

/// Texts are built by the place of their bytes.
impl OwnedPlaced for text::Owned {
    type Builder = TextPlace;
}

/// Data are built by their place.
impl OwnedPlaced for data::Owned {
    type Builder = DataPlace;
}

impl<A: Allocator> Builder<A> {
    /// Replaces the value of the root, which is cleared, by a new value of n bytes or elements, and
    /// returns its handle.
    ///
    /// It is refused
    /// - with `OutOfBounds` if the first segment was allocated by hand and has no word;
    /// - with `SizeOverflow` only if the value is too large for the message;
    /// - otherwise with the allocator's error.
    ///
    /// Then everything is unchanged, except that a root that is null may have been made.
    pub fn initn_root<T: Placed>(&mut self, length: u32) -> Result<T>
        ensures made { IfOk result (T.is_made (rooted (words_held self.old.memory.arena))
            (words_held self.new.memory.arena) root_slot length) }
        ensures refused { OnErr result (StaysRooted self.old.memory.arena self.new.memory.arena) }
        ensures kind { IfErr result (λ e. e.kind ≡ SizeOverflow
            → T.is_too_large length (total_words (rooted (words_held self.old.memory.arena)))) }
        ensures cause { IfErr result (RootNotSet self.old.memory.arena) }
        ensures place { place_held self.new.memory.arena ≡ place_held self.old.memory.arena }
        ensures loans { loans_held self.new.memory.arena ≡ loans_held self.old.memory.arena }
    {
        begin(&mut self.memory.arena)?;
        T::init_at(&mut self.memory, ROOT, length)
    }

    /// Does what `initn_root` does, with no bytes or elements: it makes a struct of zeros and
    /// nulls, for a handle over structs.
    pub fn init_root<T: Placed>(&mut self) -> Result<T>
        ensures made { IfOk result (T.is_made (rooted (words_held self.old.memory.arena))
            (words_held self.new.memory.arena) root_slot 0) }
        ensures refused { OnErr result (StaysRooted self.old.memory.arena self.new.memory.arena) }
        ensures kind { IfErr result (λ e. e.kind ≡ SizeOverflow
            → T.is_too_large 0 (total_words (rooted (words_held self.old.memory.arena)))) }
        ensures cause { IfErr result (RootNotSet self.old.memory.arena) }
        ensures place { place_held self.new.memory.arena ≡ place_held self.old.memory.arena }
        ensures loans { loans_held self.new.memory.arena ≡ loans_held self.old.memory.arena }
    {
        self.initn_root(0)
    }

    /// Returns the handle of the root's value. If the message has no segment yet, the root is made,
    /// as null.
    ///
    /// It is refused
    /// - with `OutOfBounds` if the first segment was allocated by hand and has no word, and
    ///   everything is unchanged;
    /// - with the allocator's error if there is no root, and everything is unchanged;
    /// - otherwise by the rules of the type.
    pub fn get_root<T: Placed>(&mut self) -> Result<T>
        ensures got { IfOk result (T.is_got (rooted (words_held self.old.memory.arena))
            (words_held self.new.memory.arena) root_slot) }
        ensures refused { IfErr result (NoRootFound T.is_not_got
            (NoRootMade self.old.memory.arena) (words_held self.old.memory.arena)
            (words_held self.new.memory.arena)) }
        ensures place { place_held self.new.memory.arena ≡ place_held self.old.memory.arena }
        ensures loans { loans_held self.new.memory.arena ≡ loans_held self.old.memory.arena }
    {
        begin(&mut self.memory.arena)?;
        T::get_at(&mut self.memory, ROOT)
    }
}

impl<T: OwnedPlaced, A: Allocator> TypedBuilder<T, A> {
    /// Replaces the value of the root by a new value of n bytes or elements, like
    /// `Builder::initn_root`.
    pub fn initn_root(&mut self, length: u32) -> Result<T::Builder>
        ensures made { IfOk result (T.Builder.is_made
            (rooted (words_held self.old.message.memory.arena))
            (words_held self.new.message.memory.arena) root_slot length) }
        ensures refused { OnErr result
            (StaysRooted self.old.message.memory.arena self.new.message.memory.arena) }
        ensures kind { IfErr result (λ e. e.kind ≡ SizeOverflow → T.Builder.is_too_large length
            (total_words (rooted (words_held self.old.message.memory.arena)))) }
        ensures cause { IfErr result (RootNotSet self.old.message.memory.arena) }
        ensures place { place_held self.new.message.memory.arena
            ≡ place_held self.old.message.memory.arena }
        ensures loans { loans_held self.new.message.memory.arena
            ≡ loans_held self.old.message.memory.arena }
    {
        self.message.initn_root(length)
    }

    /// Replaces the value of the root by a new value without bytes or elements, like
    /// `Builder::init_root`.
    pub fn init_root(&mut self) -> Result<T::Builder>
        ensures made { IfOk result (T.Builder.is_made
            (rooted (words_held self.old.message.memory.arena))
            (words_held self.new.message.memory.arena) root_slot 0) }
        ensures refused { OnErr result
            (StaysRooted self.old.message.memory.arena self.new.message.memory.arena) }
        ensures kind { IfErr result (λ e. e.kind ≡ SizeOverflow → T.Builder.is_too_large 0
            (total_words (rooted (words_held self.old.message.memory.arena)))) }
        ensures cause { IfErr result (RootNotSet self.old.message.memory.arena) }
        ensures place { place_held self.new.message.memory.arena
            ≡ place_held self.old.message.memory.arena }
        ensures loans { loans_held self.new.message.memory.arena
            ≡ loans_held self.old.message.memory.arena }
    {
        self.message.init_root()
    }

    /// Returns the handle of the root's value, like `Builder::get_root`.
    pub fn get_root(&mut self) -> Result<T::Builder>
        ensures got { IfOk result (T.Builder.is_got
            (rooted (words_held self.old.message.memory.arena))
            (words_held self.new.message.memory.arena) root_slot) }
        ensures refused { IfErr result (NoRootFound T.Builder.is_not_got
            (NoRootMade self.old.message.memory.arena)
            (words_held self.old.message.memory.arena) (words_held self.new.message.memory.arena)) }
        ensures place { place_held self.new.message.memory.arena
            ≡ place_held self.old.message.memory.arena }
        ensures loans { loans_held self.new.message.memory.arena
            ≡ loans_held self.old.message.memory.arena }
    {
        self.message.get_root()
    }
}
