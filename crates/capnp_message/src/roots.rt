//! Roots of messages that are built.
ghost use Rattle.std.specs.Prelude.{◌≡◌, ◌≢◌, ◌⊎◌, ◌^◌, ◌<◌, ◌++◌, ◌∷◌, [], true, false, pos, length, IfOk, IfErr, OnOk, OnErr};
ghost use Rattle.std.specs.Borrow.{sem, RestsIfErr};
ghost use Rattle.capnp_units.specs.Segments.{words_in};
ghost use Rattle.capnp_copy_arenas.specs.contracts.arena.Memory.{the_row};
ghost use Rattle.std.specs.List.{flat_map};
ghost use Rattle.std.specs.Option.{is_some};
ghost use Rattle.capnp_model.specs.Segments.{root, words_at};
ghost use Rattle.capnp_units.specs.declared.kinds.ErrorKind.TheVariants.{SizeOverflow};
ghost use Rattle.capnp_copy_arenas.specs.Allocations.{total_words};
ghost use Rattle.capnp_copy_arenas.specs.States.{HasWords};
ghost use Rattle.capnp_copy_arenas.specs.Values.{Becomes};
ghost use Rattle.capnp_layout_builders.specs.Making.{StaysAt, memory_words};
ghost use Rattle.capnp_wire_objects.specs.Places.{seen};
ghost use Rattle.capnp_wire.specs.Views.{seen_pointer};
ghost use Rattle.capnp_message.specs.Built.{used_bytes, rooted, words_held, place_held, loans_held, HasNoRootWord, StaysRooted, RootNotSet};
ghost use Rattle.capnp_message.specs.Options.{boundless};
ghost use Rattle.capnp_message.specs.Placed.{root_slot};
ghost use Rattle.capnp_message.specs.Roots.{ReadsRoot, built_root};

use crate::builder::Builder;
use crate::options::ReaderOptions;
use crate::reader::Reader;
use capnp_copy_arenas::allocator::{Allocator, SegmentBytes};
use capnp_copy_arenas::arena::{BuilderArena, Memory};
use capnp_copy_arenas::segments::BuilderArenaImpl;
use capnp_layout_builders::pointer_builder::PointerBuilder;
use capnp_layout_builders::traits::SetterInput;
use capnp_units::errors::{Error, Result};
use capnp_units::kinds::ErrorKind;
use capnp_units::limiter::ReadLimiter;
use capnp_wire::backing::Backing;
use capnp_wire::levels::levels_of;
use capnp_wire::pointer::PointerReader;
use capnp_wire::structs::StructReader;
use capnp_wire::traits::FromPointerReader;
use capnp_wire_objects::arena::ReaderArena;
use capnp_wire_objects::place::{ROOT, has_words};

/// A value that is built is trusted: there is no limit of words, and the limit of levels is the
/// highest.
const BOUNDLESS: ReaderOptions = ReaderOptions {
    traversal_limit_in_words: None,
    nesting_limit: i32::MAX,
};

/// Makes the root pointer if an arena has no segment yet, and checks that its word exists.
pub(crate) fn begin<A: BuilderArena>(arena: &mut A) -> Result<()>
    ensures rooted { OnOk result (words_in (A.segments arena.new)
        ≡ rooted (words_in (A.segments arena.old))) }
    ensures there { OnOk result
        (is_some (words_at (words_in (A.segments arena.new)) root 1) ≡ true) }
    ensures refused { OnErr result (A.segments arena.new ≡ A.segments arena.old) }
    ensures none { OnErr result
        (is_some (words_at (words_in (A.segments arena.old)) root 1) ≡ false) }
    ensures kind { IfErr result (λ e. e.kind ≢ SizeOverflow) }
    ensures cause { IfErr result (λ e.
        HasNoRootWord (words_in (A.segments arena.old)) e ⊎ A.refuses arena.old 1 e.kind) }
    ensures books { A.books arena.new ≡ A.books arena.old }
{
    if has_words(arena, ROOT, 1) {
        return Ok(());
    }
    if has_words(arena, ROOT, 0) {
        return Err(Error::from(ErrorKind::OutOfBounds));
    }
    match arena.allocate_anywhere(1) {
        Ok(_) => Ok(()),
        Err(e) => Err(e),
    }
}

/// Returns the root pointer of a message that is built in an arena, to write. If there is no
/// segment yet, the root pointer is made, as null.
///
/// It is refused with the allocator's error, or with `OutOfBounds` if the first segment was
/// allocated by hand and has no word; then everything is unchanged.
pub fn root_of<A: BuilderArena>(memory: &mut Memory<A>) -> Result<PointerBuilder<'_, A>>
    ensures same { IfOk result (λ p. p.memory.ghost_name ≡ memory.entry.ghost_name) }
    ensures place { IfOk result (λ p. p.place ≡ root_slot) }
    ensures rooted { let at = memory_words A.segments in IfOk result (λ p.
        at p.memory.now ≡ rooted (at memory.entry.now)) }
    ensures there { IfOk result (λ p. HasWords (A.segments p.memory.now.arena) root_slot 1) }
    ensures books { IfOk result (λ p.
        A.books p.memory.now.arena ≡ A.books memory.entry.now.arena) }
    ensures kind { IfErr result (λ e. e.kind ≢ SizeOverflow) }
    ensures cause { let m = memory.entry.now in IfErr result (λ e.
        HasNoRootWord (memory_words A.segments m) e ⊎ A.refuses m.arena 1 e.kind) }
    ensures* refused { let m = memory.entry in sem 𝓛 (RestsIfErr (the_row A.row) m
        (λ p. p.memory.ghost_name) result (StaysAt A.segments A.books m.now)) }
{
    begin(&mut memory.arena)?;
    Ok(PointerBuilder {
        memory,
        place: ROOT,
    })
}

/// Returns the root pointer to read: null if the arena has no segment. It is refused with
/// `OutOfBounds` if the first segment has no word.
fn root_to_read<A: Allocator>(
    arena: &BuilderArenaImpl<A>,
) -> Result<PointerReader<'_, BuilderArenaImpl<A>>>
    ensures { seen (seen_pointer (λ a. used_bytes (λ h. h.used)
        (λ h. A.Segment.bytes h.segment) a.segments.items)) result
        ≡ built_root (used_bytes (λ h. h.used) (λ h. A.Segment.bytes h.segment)
        arena.now.segments.items) boundless.nesting_limit }
{
    if arena.len() == 0 {
        let levels = levels_of(arena.nesting_limit());
        let nothing = StructReader::empty(Backing::Arena(arena), levels);
        return Ok(nothing.get_pointer_field(0));
    }
    PointerReader::get_root_from_arena(arena)
}

impl<A: Allocator> Builder<A> {
    /// Sets the root to a value, which replaces its old value; the old value is cleared. Texts and
    /// data are copied.
    ///
    /// It is refused
    /// - with `OutOfBounds` if the first segment was allocated by hand and has no word;
    /// - with `SizeOverflow` only if the value is too large for the message;
    /// - otherwise with the allocator's error.
    ///
    /// Then everything is unchanged, except that a root that is null may have been made.
    pub fn set_root<T, V: SetterInput<T> + Drop>(&mut self, value: V) -> Result<()>
        ensures value { OnOk result (Becomes (rooted (words_held self.old.memory.arena))
            (words_held self.new.memory.arena) root (V.tree value)) }
        ensures refused { OnErr result (StaysRooted self.old.memory.arena self.new.memory.arena) }
        ensures kind { IfErr result (λ e. e.kind ≡ SizeOverflow
            → V.is_too_large value (total_words (rooted (words_held self.old.memory.arena)))) }
        ensures cause { IfErr result (RootNotSet self.old.memory.arena) }
        ensures place { place_held self.new.memory.arena ≡ place_held self.old.memory.arena }
        ensures loans { loans_held self.new.memory.arena ≡ loans_held self.old.memory.arena }
    {
        begin(&mut self.memory.arena)?;
        let pointer = PointerBuilder::get_root(&mut self.memory);
        V::set_pointer_builder(pointer, value, false)
    }

    /// Returns the root to read, as a caller's type, at any depth. If nothing was written, the root
    /// is null, which costs nothing.
    ///
    /// It is refused with `OutOfBounds`, at no cost, if the first segment was allocated by hand and
    /// has no word; otherwise like the type's reading of a pointer.
    pub fn get_root_as_reader<'a, T: FromPointerReader<'a, BuilderArenaImpl<A>>>(
        &'a self,
        limiter: &mut ReadLimiter,
    ) -> Result<T>
        ensures { ReadsRoot T.reads (built_root (used_bytes (λ h. h.used)
            (λ h. A.Segment.bytes h.segment) self.now.memory.arena.segments.items)
            boundless.nesting_limit) limiter.old result limiter.new }
    {
        let pointer = root_to_read(&self.memory.arena)?;
        T::get_from_pointer(&pointer, limiter, None)
    }

    /// Returns the message to read, without a limit of words and under the highest limit of levels.
    /// `into_segments` returns the builder.
    pub fn into_reader(self) -> Reader<Builder<A>>
        ensures { result ≡ record { segments = self; options = boundless } }
    {
        Reader::new(self, BOUNDLESS)
    }
}
