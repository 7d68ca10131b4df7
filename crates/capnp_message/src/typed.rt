//! Messages whose root's type is known.
ghost use Rattle.std.specs.Prelude.{◌≡◌};
ghost use Rattle.capnp_wire.specs.Reads.{root_of};
ghost use Rattle.capnp_message.specs.Roots.{ReadsRoot};

use crate::reader::Reader;
use capnp_units::errors::Result;
use capnp_units::limiter::ReadLimiter;
use capnp_units::segments::ReaderSegments;
use capnp_wire::traits::Owned;
use std::marker::PhantomData;

/// A message whose root is read as the type `T` says.
#[derive(Drop)]
pub struct TypedReader<S, T> {
    message: Reader<S>,
    root: PhantomData<T>,
}

impl<S: ReaderSegments, T> TypedReader<S, T> {
    /// Wraps this message.
    pub fn new(message: Reader<S>) -> TypedReader<S, T>
        ensures { result.message ≡ message }
    {
        TypedReader {
            message,
            root: PhantomData,
        }
    }

    /// Returns the root. It is refused with `OutOfBounds` if the first segment has no word, at no
    /// cost; otherwise like the type's reading of a pointer.
    pub fn get<'a>(&'a self, limiter: &mut ReadLimiter) -> Result<T::Reader>
    where
        T: Owned<'a, Reader<S>>,
        ensures { ReadsRoot T.Reader.reads
            (root_of (S.segments self.now.message.segments) self.now.message.options.nesting_limit)
            limiter.old result limiter.new }
    {
        self.message.get_root(limiter)
    }

    /// Returns the message.
    pub fn into_inner(self) -> Reader<S>
        ensures { result ≡ self.message }
    {
        self.message
    }

    /// Returns the segments, lent.
    pub fn get_segments(&self) -> &S
        ensures { result.now ≡ self.now.message.segments }
    {
        self.message.get_segments()
    }
}

impl<S: ReaderSegments> Reader<S> {
    /// Wraps this message, whose root is read as the type `T` says.
    pub fn into_typed<T>(self) -> TypedReader<S, T>
        ensures { result.message ≡ self }
    {
        TypedReader::new(self)
    }
}

impl<S: ReaderSegments, T> From<Reader<S>> for TypedReader<S, T> {
    ghost from_gives = { λ message typed. typed.message ≡ message };

    fn from(message: Reader<S>) -> TypedReader<S, T> {
        TypedReader::new(message)
    }
}
