//! Values to which a pointer can be set.
ghost use Rattle.std.specs.Prelude.{◌≡◌, ◌+◌, ◌<◌, ◌^◌, ◌↔◌, ℕ, length, string_bytes, IfErr, OnOk, OnErr};
ghost use Rattle.capnp_model.specs.Sections.{number_of};
ghost use Rattle.capnp_model.specs.Trees.{Tree, plain_list};
ghost use Rattle.capnp_units.specs.declared.kinds.ErrorKind.TheVariants.{SizeOverflow};
ghost use Rattle.capnp_copy_arenas.specs.Allocations.{total_words};
ghost use Rattle.capnp_copy_arenas.specs.Inits.{BecomesAt};
ghost use Rattle.capnp_copy_arenas.specs.Refusals.{IsSizeOrRefusal};
ghost use Rattle.capnp_copy_arenas.specs.States.{HasWords};
ghost use Rattle.capnp_layout_builders.specs.Inputs.{IsTooLong};
ghost use Rattle.capnp_layout_builders.specs.Making.{state_of, memory_words};

use crate::pointer_builder::PointerBuilder;
use capnp_copy_arenas::arena::BuilderArena;
use capnp_copy_arenas::blobs::{set_data, set_text};
use capnp_text::{data, text};
use capnp_units::errors::Result;

/// A value to which a pointer to values of a type can be set.
pub trait SetterInput<T>: Sized {
    /// The value that the pointer gets.
    ghost tree: { Self → Tree };

    /// The value is too large for a message that has n words.
    ghost is_too_large: { Self → ℕ → Type 0 };

    /// Replaces the pointer's value, which is cleared, by this value. Texts and data ignore
    /// `canonicalize`.
    ///
    /// It is refused, and everything is unchanged,
    /// - with `SizeOverflow` exactly when the value is too large;
    /// - otherwise with the allocator's error.
    fn set_pointer_builder<A: BuilderArena>(
        builder: PointerBuilder<'_, A>,
        value: Self,
        canonicalize: bool,
    ) -> Result<()>
        requires there { HasWords (A.segments builder.memory.now.arena) builder.place 1 }
        requires near { builder.place.position < 2 ^ 61 }
        ensures books { A.books builder.exit.0.now.arena ≡ A.books builder.entry.memory.now.arena }
        ensures value { let at = state_of A.segments A.room A.books in OnOk result
            (BecomesAt (at builder.entry.memory.now) (at builder.exit.0.now) builder.entry.place
            (tree value)) }
        ensures refused { OnErr result
            (A.segments builder.exit.0.now.arena ≡ A.segments builder.entry.memory.now.arena) }
        ensures kind { IfErr result (λ e. (e.kind ≡ SizeOverflow) ↔ is_too_large value
            (total_words (memory_words A.segments builder.entry.memory.now))) }
        ensures cause { IfErr result (λ e. IsSizeOrRefusal A.refuses e) };
}

/// Data are set to these bytes.
impl SetterInput<data::Owned> for &[u8] {
    ghost tree = { λ b. plain_list 2 (length b.now) (number_of 8 b.now) };

    ghost is_too_large = { λ b words. IsTooLong (length b.now) words };

    fn set_pointer_builder<A: BuilderArena>(
        builder: PointerBuilder<'_, A>,
        value: &[u8],
        _canonicalize: bool,
    ) -> Result<()> {
        let PointerBuilder { memory, place } = builder;
        set_data(&mut memory.arena, place, value)
    }
}

/// A text is set to these bytes, followed by a zero byte.
impl SetterInput<text::Owned> for text::Reader<'_> {
    ghost tree = { λ t. plain_list 2 (length t.0.now + 1) (number_of 8 t.0.now) };

    ghost is_too_large = { λ t words. IsTooLong (length t.0.now + 1) words };

    fn set_pointer_builder<A: BuilderArena>(
        builder: PointerBuilder<'_, A>,
        value: text::Reader<'_>,
        _canonicalize: bool,
    ) -> Result<()> {
        let PointerBuilder { memory, place } = builder;
        let text::Reader(bytes) = value;
        set_text(&mut memory.arena, place, bytes)
    }
}

/// A text is set to the bytes of a `str`, followed by a zero byte.
impl SetterInput<text::Owned> for &str {
    ghost tree = { λ t. plain_list 2 (length t.now + 1) (number_of 8 t.now) };

    ghost is_too_large = { λ t words. IsTooLong (length t.now + 1) words };

    fn set_pointer_builder<A: BuilderArena>(
        builder: PointerBuilder<'_, A>,
        value: &str,
        _canonicalize: bool,
    ) -> Result<()> {
        let PointerBuilder { memory, place } = builder;
        set_text(&mut memory.arena, place, value.as_bytes())
    }
}

/// A text is set to the bytes of a `String`, followed by a zero byte.
impl SetterInput<text::Owned> for &String {
    ghost tree = { λ t. plain_list 2 (length (string_bytes t.now) + 1)
        (number_of 8 (string_bytes t.now)) };

    ghost is_too_large = { λ t words. IsTooLong (length (string_bytes t.now) + 1) words };

    fn set_pointer_builder<A: BuilderArena>(
        builder: PointerBuilder<'_, A>,
        value: &String,
        _canonicalize: bool,
    ) -> Result<()> {
        let PointerBuilder { memory, place } = builder;
        let bytes = value.as_bytes();
        set_text(&mut memory.arena, place, bytes)
    }
}
