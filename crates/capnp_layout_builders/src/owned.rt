//! Traits of callers' types that are built.
ghost use Rattle.std.specs.Prelude.{◌≡◌, ◌+◌, ◌<◌, ◌^◌, ◌↔◌, ℕ, List, Option, Ok, Err, option_copied, IfOk, IfErr};
ghost use Rattle.std.specs.Borrow.{sem, MutBor, RestsIfErr};
ghost use Rattle.capnp_model.specs.Segments.{Segments};
ghost use Rattle.capnp_units.specs.declared.errors.Error.{Error};
ghost use Rattle.capnp_units.specs.declared.kinds.ErrorKind.TheVariants.{SizeOverflow};
ghost use Rattle.capnp_wire_objects.specs.declared.place.Place.{Place};
ghost use Rattle.capnp_wire_objects.specs.Places.{place_view};
ghost use Rattle.capnp_copy_arenas.specs.Allocations.{total_words};
ghost use Rattle.capnp_copy_arenas.specs.Clearing.{ClearsValue};
ghost use Rattle.capnp_copy_arenas.specs.States.{HasWords};
ghost use Rattle.capnp_copy_arenas.specs.contracts.arena.Memory.{the_row};
ghost use Rattle.capnp_copy_arenas.specs.declared.arena.Memory.{Memory};
ghost use Rattle.capnp_layout_builders.specs.Blobs.{DataMade, TextMade, DataGot, NoDataGot, TextGot, NoTextGot};
ghost use Rattle.capnp_layout_builders.specs.Gets.{Begins};
ghost use Rattle.capnp_layout_builders.specs.Inputs.{IsTooLong};
ghost use Rattle.capnp_layout_builders.specs.Leaving.{HoldsMemory};
ghost use Rattle.capnp_layout_builders.specs.Making.{StaysAt, memory_words};

use crate::data_builder::DataBuilder;
use crate::gets::begin;
use crate::pointer_builder::PointerBuilder;
use crate::struct_builder::StructBuilder;
use crate::text_builder::TextBuilder;
use capnp_copy_arenas::arena::BuilderArena;
use capnp_copy_arenas::clear::clear;
use capnp_text::{data, text};
use capnp_units::errors::Result;
use capnp_units::sizes::Word;
use capnp_wire::traits::{FromPointerReader, HasStructSize, IntoInternalStructReader};

/// A type as which a pointer can be built: a handle that holds the pointer's memory.
pub trait FromPointerBuilder<'a, A: BuilderArena>: Sized {
    /// The memory of a handle.
    ghost memory_of: { Self → MutBor (Memory A) };

    /// The relation between the segments before and after, the count, and the handle, if a new
    /// value replaces the value at a place.
    ghost is_made: { Segments → Segments → Place → ℕ → Self → Type 0 };

    /// The errors with which making it is refused, by the segments and the count.
    ghost is_not_made: { Segments → ℕ → Error → Type 0 };

    /// The relation between the segments before and after, and the handle, if the value at a place
    /// is read, with a default instead of null.
    ghost is_got: { Option (List (List ℕ)) → Segments → Segments → Place → Self → Type 0 };

    /// The errors with which reading it is refused, and the segments then.
    ghost is_not_got: { Option (List (List ℕ)) → Segments → Segments → Place → Error → Type 0 };

    /// Replaces the pointer's value, which is cleared, by a new value with n bytes or elements;
    /// types without a count ignore the length.
    ///
    /// It is refused by the rules of the type; then everything is unchanged.
    fn init_pointer(builder: PointerBuilder<'a, A>, length: u32) -> Result<Self>
        requires there { HasWords (A.segments builder.memory.now.arena) builder.place 1 }
        requires near { builder.place.position < 2 ^ 61 }
        ensures same { HoldsMemory memory_of builder.entry.memory result }
        ensures made { let b = builder.entry in let at = memory_words A.segments in IfOk result
            (λ o. is_made (at b.memory.now) (at (memory_of o).now) b.place length o) }
        ensures books { IfOk result (λ o.
            A.books (memory_of o).now.arena ≡ A.books builder.entry.memory.now.arena) }
        ensures kind { IfErr result
            (is_not_made (memory_words A.segments builder.entry.memory.now) length) }
        ensures* refused { let b = builder.entry in sem 𝓛 (RestsIfErr (the_row A.row) b.memory
            (λ o. (memory_of o).ghost_name) result (StaysAt A.segments A.books b.memory.now)) };

    /// Returns the value that the pointer names, to write. Null is replaced by the default, if
    /// there is a default and its root isn't null.
    ///
    /// It is refused by the rules of the type.
    fn get_from_pointer(builder: PointerBuilder<'a, A>, default: Option<&[Word]>) -> Result<Self>
        requires there { HasWords (A.segments builder.memory.now.arena) builder.place 1 }
        requires near { builder.place.position < 2 ^ 61 }
        ensures same { HoldsMemory memory_of builder.entry.memory result }
        ensures got { let b = builder.entry in let at = memory_words A.segments in IfOk result
            (λ o. is_got (option_copied default.entry) (at b.memory.now) (at (memory_of o).now)
            b.place o) }
        ensures books { IfOk result (λ o.
            A.books (memory_of o).now.arena ≡ A.books builder.entry.memory.now.arena) }
        ensures* refused { let b = builder.entry in let at = memory_words A.segments in sem 𝓛
            (RestsIfErr (the_row A.row) b.memory (λ o. (memory_of o).ghost_name) result (λ n.
            IfErr result (is_not_got (option_copied default.entry) (at b.memory.now) (at n) b.place)
            × (A.books n.arena ≡ A.books b.memory.now.arena))) };
}

/// Data are made of n zero bytes.
impl<'a, A: BuilderArena> FromPointerBuilder<'a, A> for DataBuilder<'a, A> {
    ghost memory_of = { λ o. o.memory };

    ghost is_made = { λ s u slot n o. DataMade s u slot n o.place };

    ghost is_not_made = { λ s n e. (e.kind ≡ SizeOverflow) ↔ IsTooLong n (total_words s) };

    ghost is_got = { λ default s u slot o. DataGot default s u slot o.place };

    ghost is_not_got = { λ default s u slot e. NoDataGot default s u slot e };

    fn init_pointer(builder: PointerBuilder<'a, A>, length: u32) -> Result<DataBuilder<'a, A>>
        requires there { HasWords (A.segments builder.memory.now.arena) builder.place 1 }
        requires near { builder.place.position < 2 ^ 61 }
        ensures same { IfOk result (λ o. o.memory.ghost_name ≡ builder.entry.memory.ghost_name) }
        ensures made { let b = builder.entry in let at = memory_words A.segments in IfOk result
            (λ o. DataMade (at b.memory.now) (at o.memory.now) b.place length o.place) }
        ensures books { IfOk result (λ o.
            A.books o.memory.now.arena ≡ A.books builder.entry.memory.now.arena) }
        ensures kind { IfErr result (λ e. (e.kind ≡ SizeOverflow) ↔ IsTooLong length
            (total_words (memory_words A.segments builder.entry.memory.now))) }
        ensures* refused { let b = builder.entry in sem 𝓛 (RestsIfErr (the_row A.row) b.memory
            (λ o. o.memory.ghost_name) result (StaysAt A.segments A.books b.memory.now)) }
    {
        builder.init_data(length)
    }

    fn get_from_pointer(
        builder: PointerBuilder<'a, A>,
        default: Option<&[Word]>,
    ) -> Result<DataBuilder<'a, A>>
        requires there { HasWords (A.segments builder.memory.now.arena) builder.place 1 }
        requires near { builder.place.position < 2 ^ 61 }
        ensures same { IfOk result (λ o. o.memory.ghost_name ≡ builder.entry.memory.ghost_name) }
        ensures got { let b = builder.entry in let at = memory_words A.segments in IfOk result
            (λ o. DataGot (option_copied default.entry) (at b.memory.now) (at o.memory.now)
            b.place o.place) }
        ensures books { IfOk result (λ o.
            A.books o.memory.now.arena ≡ A.books builder.entry.memory.now.arena) }
        ensures* refused { let b = builder.entry in let at = memory_words A.segments in sem 𝓛
            (RestsIfErr (the_row A.row) b.memory (λ o. o.memory.ghost_name) result (λ n.
            IfErr result (NoDataGot (option_copied default.entry) (at b.memory.now) (at n) b.place)
            × (A.books n.arena ≡ A.books b.memory.now.arena))) }
    {
        builder.get_data(default)
    }
}

/// A text is made of n zero bytes.
impl<'a, A: BuilderArena> FromPointerBuilder<'a, A> for TextBuilder<'a, A> {
    ghost memory_of = { λ o. o.memory };

    ghost is_made = { λ s u slot n o. TextMade s u slot n o.place × (o.position ≡ 0) };

    ghost is_not_made = { λ s n e. (e.kind ≡ SizeOverflow) ↔ IsTooLong (n + 1) (total_words s) };

    ghost is_got = { λ default s u slot o.
        TextGot default s u slot o.place × (o.position ≡ o.place.count) };

    ghost is_not_got = { λ default s u slot e. NoTextGot default s u slot e };

    fn init_pointer(builder: PointerBuilder<'a, A>, length: u32) -> Result<TextBuilder<'a, A>>
        requires there { HasWords (A.segments builder.memory.now.arena) builder.place 1 }
        requires near { builder.place.position < 2 ^ 61 }
        ensures same { IfOk result (λ o. o.memory.ghost_name ≡ builder.entry.memory.ghost_name) }
        ensures made { let b = builder.entry in let at = memory_words A.segments in IfOk result
            (λ o. TextMade (at b.memory.now) (at o.memory.now) b.place length o.place
            × (o.position ≡ 0)) }
        ensures books { IfOk result (λ o.
            A.books o.memory.now.arena ≡ A.books builder.entry.memory.now.arena) }
        ensures kind { IfErr result (λ e. (e.kind ≡ SizeOverflow) ↔ IsTooLong (length + 1)
            (total_words (memory_words A.segments builder.entry.memory.now))) }
        ensures* refused { let b = builder.entry in sem 𝓛 (RestsIfErr (the_row A.row) b.memory
            (λ o. o.memory.ghost_name) result (StaysAt A.segments A.books b.memory.now)) }
    {
        builder.init_text(length)
    }

    fn get_from_pointer(
        builder: PointerBuilder<'a, A>,
        default: Option<&[Word]>,
    ) -> Result<TextBuilder<'a, A>>
        requires there { HasWords (A.segments builder.memory.now.arena) builder.place 1 }
        requires near { builder.place.position < 2 ^ 61 }
        ensures same { IfOk result (λ o. o.memory.ghost_name ≡ builder.entry.memory.ghost_name) }
        ensures got { let b = builder.entry in let at = memory_words A.segments in IfOk result
            (λ o. TextGot (option_copied default.entry) (at b.memory.now) (at o.memory.now)
            b.place o.place × (o.position ≡ o.place.count)) }
        ensures books { IfOk result (λ o.
            A.books o.memory.now.arena ≡ A.books builder.entry.memory.now.arena) }
        ensures* refused { let b = builder.entry in let at = memory_words A.segments in sem 𝓛
            (RestsIfErr (the_row A.row) b.memory (λ o. o.memory.ghost_name) result (λ n.
            IfErr result (NoTextGot (option_copied default.entry) (at b.memory.now) (at n) b.place)
            × (A.books n.arena ≡ A.books b.memory.now.arena))) }
    {
        builder.get_text(default)
    }
}

/// An untyped pointer is made null, which is never refused, and read as the value there, whatever
/// its kind.
impl<'a, A: BuilderArena> FromPointerBuilder<'a, A> for PointerBuilder<'a, A> {
    ghost memory_of = { λ o. o.memory };

    ghost is_made = { λ s u slot n o. ClearsValue s u (place_view slot) × (o.place ≡ slot) };

    ghost is_not_made = { λ s n e. ⊥ };

    ghost is_got = { λ default s u slot o.
        Begins default s u (place_view slot) (Ok tt) × (o.place ≡ slot) };

    ghost is_not_got = { λ default s u slot e. Begins default s u (place_view slot) (Err e) };

    fn init_pointer(builder: PointerBuilder<'a, A>, _length: u32) -> Result<PointerBuilder<'a, A>>
        requires there { HasWords (A.segments builder.memory.now.arena) builder.place 1 }
        requires near { builder.place.position < 2 ^ 61 }
        ensures same { IfOk result (λ o. o.memory.ghost_name ≡ builder.entry.memory.ghost_name) }
        ensures made { let b = builder.entry in let at = memory_words A.segments in IfOk result
            (λ o. ClearsValue (at b.memory.now) (at o.memory.now) (place_view b.place)
            × (o.place ≡ b.place)) }
        ensures books { IfOk result (λ o.
            A.books o.memory.now.arena ≡ A.books builder.entry.memory.now.arena) }
        ensures kind { IfErr result (λ e. ⊥) }
        ensures* refused { let b = builder.entry in sem 𝓛 (RestsIfErr (the_row A.row) b.memory
            (λ o. o.memory.ghost_name) result (StaysAt A.segments A.books b.memory.now)) }
    {
        let PointerBuilder { memory, place } = builder;
        clear(&mut memory.arena, place);
        Ok(PointerBuilder { memory, place })
    }

    fn get_from_pointer(
        builder: PointerBuilder<'a, A>,
        default: Option<&[Word]>,
    ) -> Result<PointerBuilder<'a, A>>
        requires there { HasWords (A.segments builder.memory.now.arena) builder.place 1 }
        requires near { builder.place.position < 2 ^ 61 }
        ensures same { IfOk result (λ o. o.memory.ghost_name ≡ builder.entry.memory.ghost_name) }
        ensures got { let b = builder.entry in let at = memory_words A.segments in IfOk result
            (λ o. Begins (option_copied default.entry) (at b.memory.now) (at o.memory.now)
            (place_view b.place) (Ok tt) × (o.place ≡ b.place)) }
        ensures books { IfOk result (λ o.
            A.books o.memory.now.arena ≡ A.books builder.entry.memory.now.arena) }
        ensures* refused { let b = builder.entry in let at = memory_words A.segments in sem 𝓛
            (RestsIfErr (the_row A.row) b.memory (λ o. o.memory.ghost_name) result (λ n.
            IfErr result (λ e. Begins (option_copied default.entry) (at b.memory.now) (at n)
            (place_view b.place) (Err e)) × (A.books n.arena ≡ A.books b.memory.now.arena))) }
    {
        let PointerBuilder { memory, place } = builder;
        begin(&mut memory.arena, place, default)?;
        Ok(PointerBuilder { memory, place })
    }
}

/// A type of pointers' values, with the types as which they are read and built.
pub trait Owned<'a, A: BuilderArena> {
    /// The type as which its values are read.
    type Reader: FromPointerReader<'a, A>;
    /// The type as which its values are built.
    type Builder: FromPointerBuilder<'a, A>;
}

/// Data are read as their bytes.
impl<'a, A: BuilderArena + 'a> Owned<'a, A> for data::Owned {
    type Reader = &'a [u8];

    type Builder = DataBuilder<'a, A>;
}

/// Texts are read as their bytes without the zero byte.
impl<'a, A: BuilderArena + 'a> Owned<'a, A> for text::Owned {
    type Reader = text::Reader<'a>;

    type Builder = TextBuilder<'a, A>;
}

/// A type of structs, with the types as which they are read and built.
pub trait OwnedStruct<'a, A: BuilderArena + 'a> {
    /// The type as which its structs are read.
    type Reader: IntoInternalStructReader<'a, A>;
    /// The type as which its structs are built: handles with the sizes of the type.
    type Builder: From<StructBuilder<'a, A>> + HasStructSize;
}
