//! Messages that are made of words: canonical messages, and those whose words are in a segment
//! already.
ghost use Rattle.std.specs.Prelude.{◌≡◌, ◌≢◌, ◌↔◌, ◌⊎◌, ◌+◌, ◌*◌, ◌^◌, ◌<◌, ◌≤◌, ◌++◌, ◌∷◌, [], length, Err, IfErr, OnOk, OnErr};
ghost use Rattle.std.specs.List.{flat_map};
ghost use Rattle.capnp_model.specs.Answers.{levels};
ghost use Rattle.capnp_units.specs.Segments.{words_in};
ghost use Rattle.capnp_units.specs.declared.kinds.ErrorKind.TheVariants.{OutOfMemory, SizeOverflow};
ghost use Rattle.capnp_wire_canonical.specs.Writes.{words_view};
ghost use Rattle.capnp_copy_arenas.specs.Allocations.{words_used};
ghost use Rattle.capnp_copy_arenas.specs.Memory.{ZeroFrom};
ghost use Rattle.capnp_copy_arenas.specs.Refusals.{arena_refuses};
ghost use Rattle.capnp_message.specs.Built.{words_held, place_held, loans_held, lent_with, IsRefusalOf};
ghost use Rattle.capnp_message.specs.Canonical.{GivesCanonical, ReplacesRoot, SetsCanonical};

use crate::builder::Builder;
use crate::options::DEFAULT_READER_OPTIONS;
use crate::reader::{Reader, SegmentArray};
use capnp_copy_arenas::allocator::{Allocator, SegmentBytes};
use capnp_copy_arenas::arena::BuilderArena;
use capnp_copy_values::copy::copy_from;
use capnp_model::laws::{
    trimmed_values, values_on_walks, values_that_are_read, words_mean_their_value,
};
use capnp_units::errors::{Error, Result};
use capnp_units::kinds::ErrorKind;
use capnp_units::limiter::ReadLimiter;
use capnp_units::limits::MOST_WORDS;
use capnp_units::segments::ReaderSegments;
use capnp_units::sizes::{Word, words_as_bytes};
use capnp_wire_objects::place::{Place, ROOT, has_words};
use std::alloc::Global;

/// Sets the root to the value of words that begin with its pointer. This replaces the root's old
/// value, which is cleared.
fn replace_root<A: BuilderArena>(arena: &mut A, words: &[Word], levels: u32) -> Result<()>
    ensures copy { ReplacesRoot levels (words_view words.now) (words_in (A.segments arena.old))
        (words_in (A.segments arena.new)) result }
    ensures books { A.books arena.new ≡ A.books arena.old }
{
    if !has_words(arena, ROOT, 1) {
        return Err(Error::from(ErrorKind::OutOfBounds));
    }
    let segments = [words_as_bytes(words)];
    let source = Reader::new(SegmentArray::new(&segments), DEFAULT_READER_OPTIONS);
    let mut unlimited = ReadLimiter::new(None);
    copy_from(arena, ROOT, &mut unlimited, &source, ROOT, levels)
}

impl<A: Allocator> Builder<A> {
    /// Makes a message that has no segment yet of these words, as its only segment; they are
    /// copied.
    ///
    /// It is refused, and there is still no segment,
    /// - with `SizeOverflow` exactly when there are more than 2^29 - 1 words;
    /// - with `OutOfMemory` if the list of segments can't grow;
    /// - otherwise with the allocator's error.
    pub fn set_words(&mut self, words: &[Word]) -> Result<()>
        requires empty { self.old.memory.arena.segments.items ≡ [] }
        ensures words { OnOk result (words_held self.new.memory.arena ≡ words_view words.now ∷ []) }
        ensures refused { OnErr result (words_held self.new.memory.arena ≡ []) }
        ensures kind { IfErr result (λ e. (e.kind ≡ SizeOverflow) ↔ (2 ^ 29 ≤ length words.now)) }
        ensures cause { IfErr result (λ e. (2 ^ 29 ≤ length words.now)
            ⊎ arena_refuses self.old.memory.arena (length words.now) e.kind) }
        ensures place { place_held self.new.memory.arena ≡ place_held self.old.memory.arena }
        ensures loans { loans_held self.new.memory.arena ≡ A.loans self.old.memory.arena.allocator }
    {
        let count = words.len();
        if count > MOST_WORDS as usize {
            return Err(Error::from(ErrorKind::SizeOverflow));
        }
        match self.memory.arena.allocate_anywhere(count as u32) {
            Ok((segment, at)) => {
                let place = Place {
                    segment,
                    position: at as usize,
                };
                let bytes = words_as_bytes(words);
                self.memory.arena.write_words(place, bytes);
                Ok(())
            }
            Err(e) => Err(e),
        }
    }

    /// Sets the root to the value of a message, as its canonical copy. This replaces the root's old
    /// value, which is cleared. If the message has no segment yet, the canonical words become its
    /// only segment.
    ///
    /// It is refused
    /// - like `Reader::canonicalize`, and then nothing was allocated;
    /// - if there is no segment, like `set_words`, and there is still none;
    /// - with `OutOfBounds` if the first segment has no word, and nothing was allocated;
    /// - with `SizeOverflow` exactly when a count, or the message's words with the next object and
    ///   a pad, would exceed 2^29 - 1;
    /// - otherwise with the allocator's error.
    ///
    /// Then the root has its old value, and all words are unchanged. The words that were allocated
    /// are zero: they are at most twice the words that following the canonical words costs.
    pub fn set_root_canonical<S: ReaderSegments>(
        &mut self,
        alloc: Global,
        limiter: &mut ReadLimiter,
        source: &Reader<S>,
    ) -> Result<()>
        ensures copy { SetsCanonical (levels source.now.options.nesting_limit)
            source.now.options.traversal_limit_in_words (words_in (S.segments source.now.segments))
            (words_held self.old.memory.arena) (words_held self.new.memory.arena) limiter.old result
            limiter.new }
        ensures cause { IfErr result (λ e. words_held self.old.memory.arena ≡ []
            → GivesCanonical (levels source.now.options.nesting_limit)
            source.now.options.traversal_limit_in_words (words_in (S.segments source.now.segments))
            limiter.old (Err e) limiter.new ⊎ IsRefusalOf self.old.memory.arena e) }
        ensures place { place_held self.new.memory.arena ≡ place_held self.old.memory.arena }
        ensures loans { loans_held self.new.memory.arena ≡ loans_held self.old.memory.arena }
    {
        let words = source.canonicalize(alloc, limiter)?;
        if self.memory.arena.len() == 0 {
            return self.set_words(&words);
        }
        words_mean_their_value();
        trimmed_values();
        values_that_are_read();
        values_on_walks();
        let levels = source.levels().unwrap_or(0);
        replace_root(&mut self.memory.arena, &words, levels)
    }

    /// Takes a segment whose first n words are used already as the only segment of a message that
    /// has no segment yet. The later words are zero, and the segment and the allocator together
    /// have at most one lent slice. Later values are built after the used words.
    ///
    /// `OutOfMemory`: the list of segments can't grow; then the segment was returned to the
    /// allocator, which makes it zero.
    pub fn hold_segment(&mut self, segment: A::Segment, used: u32) -> Result<()>
        requires empty { self.old.memory.arena.segments.items ≡ [] }
        requires inside { 8 * used ≤ length (A.Segment.bytes segment) }
        requires rest { ZeroFrom (8 * used) (A.Segment.bytes segment) }
        requires few { used < 2 ^ 29 }
        requires one { length (A.Segment.loans segment)
            + length (A.loans self.old.memory.arena.allocator) ≤ 1 }
        ensures words { OnOk result (words_held self.new.memory.arena
            ≡ words_used used (A.Segment.bytes segment) ∷ []) }
        ensures refused { OnErr result (self.new.memory.arena.segments.items ≡ []) }
        ensures kind { IfErr result (λ e. e.kind ≡ OutOfMemory) }
        ensures place { place_held self.new.memory.arena ≡ place_held self.old.memory.arena }
        ensures loans { loans_held self.new.memory.arena ≡ lent_with segment self.old.memory.arena }
    {
        self.memory.arena.hold_segment(segment, used)
    }
}
