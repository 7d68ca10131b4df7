//! Messages that are built, whose root's type is known.
ghost use Rattle.std.specs.Prelude.{◌≡◌, ◌++◌, ◌∷◌, [], length, IfErr, OnOk, OnErr};
ghost use Rattle.std.specs.Borrow.{sem};
ghost use Rattle.std.specs.List.{flat_map};
ghost use Rattle.capnp_model.specs.Segments.{root};
ghost use Rattle.capnp_units.specs.declared.kinds.ErrorKind.TheVariants.{SizeOverflow};
ghost use Rattle.capnp_copy_arenas.specs.Allocations.{total_words};
ghost use Rattle.capnp_copy_arenas.specs.Values.{Becomes};
ghost use Rattle.capnp_message.specs.Built.{used_bytes, rooted, words_held, place_held, loans_held, StaysRooted, RootNotSet};
ghost use Rattle.capnp_message_allocators.specs.Growth.{suggested_growth};
ghost use Rattle.capnp_message.specs.Options.{boundless};
ghost use Rattle.capnp_message.specs.Roots.{ReadsRoot, built_root};

use crate::builder::Builder;
use crate::typed::TypedReader;
use capnp_copy_arenas::allocator::{Allocator, SegmentBytes};
use capnp_copy_arenas::segments::BuilderArenaImpl;
use capnp_layout_builders::traits::SetterInput;
use capnp_message_allocators::heap::HeapAllocator;
use capnp_units::errors::Result;
use capnp_units::limiter::ReadLimiter;
use capnp_wire::traits::Owned;
use std::alloc::Global;
use std::marker::PhantomData;

/// A message that is built, whose root is of the type `T`.
///
/// It must not be dropped: its message ends by `into_allocator`. Handles of its values take `&mut
/// typed.message.memory`.
pub struct TypedBuilder<T, A: Allocator> {
    pub message: Builder<A>,
    root: PhantomData<T>,
}

impl<T, A: Allocator> TypedBuilder<T, A> {
    /// Wraps this message.
    pub fn new(message: Builder<A>) -> TypedBuilder<T, A>
        ensures { result.message ≡ message }
    {
        TypedBuilder {
            message,
            root: PhantomData,
        }
    }

    /// Sets the root to a value, like `Builder::set_root`.
    pub fn set_root<V: SetterInput<T> + Drop>(&mut self, value: V) -> Result<()>
        ensures value { OnOk result (Becomes (rooted (words_held self.old.message.memory.arena))
            (words_held self.new.message.memory.arena) root (V.tree value)) }
        ensures refused { OnErr result
            (StaysRooted self.old.message.memory.arena self.new.message.memory.arena) }
        ensures kind { IfErr result (λ e. e.kind ≡ SizeOverflow
            → V.is_too_large value (total_words (rooted (words_held
            self.old.message.memory.arena)))) }
        ensures cause { IfErr result (RootNotSet self.old.message.memory.arena) }
        ensures place { place_held self.new.message.memory.arena
            ≡ place_held self.old.message.memory.arena }
        ensures loans { loans_held self.new.message.memory.arena
            ≡ loans_held self.old.message.memory.arena }
    {
        self.message.set_root(value)
    }

    /// Returns the root to read, at any depth; it is null if nothing was written. It is refused
    /// like `Builder::get_root_as_reader`.
    pub fn get_root_as_reader<'a>(&'a self, limiter: &mut ReadLimiter) -> Result<T::Reader>
    where
        T: Owned<'a, BuilderArenaImpl<A>>,
        ensures { ReadsRoot T.Reader.reads (built_root (used_bytes (λ h. h.used)
            (λ h. A.Segment.bytes h.segment) self.now.message.memory.arena.segments.items)
            boundless.nesting_limit) limiter.old result limiter.new }
    {
        self.message.get_root_as_reader(limiter)
    }

    /// Returns the message.
    pub fn into_inner(self) -> Builder<A>
        ensures { result ≡ self.message }
    {
        let TypedBuilder { message, root: _ } = self;
        message
    }

    /// Returns the message, lent.
    pub fn borrow_inner(&self) -> &Builder<A>
        ensures { result.now ≡ self.now.message }
    {
        &self.message
    }

    /// Returns the message to read, without a limit of words and under the highest limit of levels.
    pub fn into_reader(self) -> TypedReader<Builder<A>, T>
        ensures { result.message ≡ record { segments = self.message; options = boundless } }
    {
        let TypedBuilder { message, root: _ } = self;
        TypedReader::new(message.into_reader())
    }
}

impl<T> TypedBuilder<T, HeapAllocator> {
    /// Makes a message on the heap, with the suggested sizes of segments.
    pub fn new_default(alloc: Global) -> TypedBuilder<T, HeapAllocator>
        ensures empty { result.message.memory.arena.segments.items ≡ [] }
        ensures growth { result.message.memory.arena.allocator.growth ≡ suggested_growth }
    {
        TypedBuilder::new(Builder::new_default(alloc))
    }
}

impl<A: Allocator> Builder<A> {
    /// Wraps this message, whose root is of the type `T`.
    pub fn into_typed<T>(self) -> TypedBuilder<T, A>
        ensures { result.message ≡ self }
    {
        TypedBuilder::new(self)
    }
}

impl<T, A: Allocator> From<Builder<A>> for TypedBuilder<T, A> {
    ghost from_gives = { λ message typed. typed.message ≡ message };

    fn from(message: Builder<A>) -> TypedBuilder<T, A> {
        TypedBuilder::new(message)
    }
}

impl<T, A: Allocator> From<Builder<A>> for TypedReader<Builder<A>, T> {
    ghost from_gives = { λ message typed. typed.message
        ≡ record { segments = message; options = boundless } };

    fn from(message: Builder<A>) -> TypedReader<Builder<A>, T> {
        TypedReader::new(message.into_reader())
    }
}

impl<T, A: Allocator> From<TypedBuilder<T, A>> for TypedReader<Builder<A>, T> {
    ghost from_gives = { λ built typed. typed.message
        ≡ record { segments = built.message; options = boundless } };

    fn from(built: TypedBuilder<T, A>) -> TypedReader<Builder<A>, T> {
        built.into_reader()
    }
}
