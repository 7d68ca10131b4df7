//! Whole messages that are read.
ghost use Rattle.std.specs.Prelude.{◌≡◌, ◌-◌, ◌^◌, length, map, min};
ghost use Rattle.capnp_wire_objects.specs.Arenas.{words_before};
ghost use Rattle.capnp_wire.specs.Reads.{root_of};
ghost use Rattle.capnp_message.specs.Roots.{ReadsRoot};

use crate::options::ReaderOptions;
use capnp_units::errors::Result;
use capnp_units::limiter::ReadLimiter;
use capnp_units::segments::ReaderSegments;
use capnp_units::sizes::SegmentId;
use capnp_wire::pointer::PointerReader;
use capnp_wire::traits::FromPointerReader;
use capnp_wire_objects::arena::{ReaderArena, ReaderArenaImpl};

/// Segments in a lent slice of slices.
#[derive(Clone, Copy)]
pub struct SegmentArray<'a> {
    segments: &'a [&'a [u8]],
}

impl<'a> SegmentArray<'a> {
    /// Makes an array of these segments.
    pub fn new(segments: &'a [&'a [u8]]) -> SegmentArray<'a>
        ensures { result.segments.now ≡ segments.now }
    {
        SegmentArray { segments }
    }
}

impl ReaderSegments for SegmentArray<'_> {
    ghost segments = { λ s. map (λ bytes. bytes.now) s.segments.now };

    fn get_segment(&self, id: SegmentId) -> Option<&[u8]> {
        match self.segments.get(id as usize) {
            Some(bytes) => Some(*bytes),
            None => None,
        }
    }

    fn len(&self) -> usize {
        self.segments.len()
    }
}

/// A message: its segments, and the limit of nesting of its values. It is the arena that its
/// handles read.
#[derive(Drop)]
pub struct Reader<S> {
    segments: S,
    pub(crate) options: ReaderOptions,
}

impl<S: ReaderSegments> Reader<S> {
    /// Makes the message of these segments, read under these options. Each call takes a limiter,
    /// which pays for the objects that it follows.
    pub fn new(segments: S, options: ReaderOptions) -> Reader<S>
        ensures segments { result.segments ≡ segments }
        ensures options { result.options ≡ options }
    {
        Reader { segments, options }
    }

    /// Returns the root, read as a caller's type. It is refused with `OutOfBounds` if the first
    /// segment has no word, at no cost; otherwise like the type's reading of a pointer.
    pub fn get_root<'a, T: FromPointerReader<'a, Reader<S>>>(
        &'a self,
        limiter: &mut ReadLimiter,
    ) -> Result<T>
        ensures { ReadsRoot T.reads
            (root_of (S.segments self.now.segments) self.now.options.nesting_limit)
            limiter.old result limiter.new }
    {
        let root = PointerReader::get_root_from_arena(self)?;
        T::get_from_pointer(&root, limiter, None)
    }

    /// Consumes the message, and returns the segments.
    pub fn into_segments(self) -> S
        ensures { result ≡ self.segments }
    {
        self.segments
    }

    /// Returns the segments, lent.
    pub fn get_segments(&self) -> &S
        ensures { result.now ≡ self.now.segments }
    {
        &self.segments
    }

    /// Returns the number of words of the segments that a pointer can name, which are the first
    /// 2^32. Bytes after the last whole word of a segment don't count. The count stops at 2^64 - 1.
    pub fn size_in_words(&self) -> usize
        ensures { result ≡ min (words_before (S.segments self.now.segments)
            (min (length (S.segments self.now.segments)) (2 ^ 32))) (2 ^ 64 - 1) }
    {
        ReaderArenaImpl::new(&self.segments, self.options.nesting_limit).size_in_words()
    }
}

impl<S: ReaderSegments> ReaderArena for Reader<S> {
    ghost segments = { λ m. S.segments m.segments };

    ghost nesting = { λ m. m.options.nesting_limit };

    fn get_segment(&self, id: SegmentId) -> Option<&[u8]> {
        self.segments.get_segment(id)
    }

    fn nesting_limit(&self) -> i32 {
        self.options.nesting_limit
    }

    fn size_in_words(&self) -> usize {
        Reader::size_in_words(self)
    }
}
