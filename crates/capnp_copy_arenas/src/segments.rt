//! An arena that takes its segments from an allocator.
ghost use Rattle.std.specs.Prelude.{◌≡◌, ◌≢◌, ◌⊎◌, ◌+◌, ◌-◌, ◌*◌, ◌/◌, ◌<◌, ◌≤◌, ◌^◌, ◌++◌, ◌∷◌, [], length, map, take, get_or, pos, vec_capacity, OnSome, IfSome, IfNone, IfOk, IfErr, OnOk, OnErr};
ghost use Rattle.std.specs.List.{flat_map};
ghost use Rattle.capnp_copy_arenas.specs.Allocations.{total_of, words_used};
ghost use Rattle.capnp_copy_arenas.specs.Holding.{held_words, free_words, held_loans, EndsAt, UsesMore, IsFull, HasFree, LeavesFree};
ghost use Rattle.capnp_copy_arenas.specs.Memory.{ZeroFrom};
ghost use Rattle.capnp_units.specs.declared.kinds.ErrorKind.TheVariants.{SizeOverflow, OutOfMemory};

use crate::allocator::{Allocator, SegmentBytes};
use crate::arena::BuilderArena;
use crate::grown::{grow_in, used_bytes_at, write_in_segment, zero_in_segment};
use crate::held::Held;
use capnp_units::errors::{Error, Result};
use capnp_units::kinds::ErrorKind;
use capnp_units::limits::MOST_WORDS;
use capnp_units::sizes::SegmentId;
use capnp_wire_objects::arena::ReaderArena;
use capnp_wire_objects::place::Place;
use std::alloc::Global;

/// Segments that an allocator handed out. In each segment words are allocated one after the other,
/// and only allocated words are read.
///
/// It must not be dropped: it ends by `into_allocator`, which returns every segment to the
/// allocator.
pub struct BuilderArenaImpl<A: Allocator> {
    pub allocator: A,
    pub segments: Vec<Held<A::Segment>>,
    words: u32,
    ghost sum: { words ≡ total_of (λ h. h.used) segments.items },
    ghost few: { words < 2 ^ 29 },
    ghost numbered: { length segments.items < 2 ^ 32 },
}

impl<A: Allocator> BuilderArenaImpl<A> {
    ghost use Rattle.capnp_copy_arenas.specs.Refusals.{arena_refuses};
    ghost use Rattle.capnp_copy_arenas.specs.Arenas.{arena_loans};

    /// Makes an arena without segments. Memory for the list of its segments comes from `alloc`,
    /// their bytes come from the allocator.
    pub fn new(alloc: Global, allocator: A) -> Self
        ensures allocator { result.allocator ≡ allocator }
        ensures empty { result.segments.items ≡ [] }
    {
        BuilderArenaImpl {
            allocator,
            segments: Vec::new(alloc),
            words: 0,
        }
    }

    /// Returns the number of segments.
    pub fn len(&self) -> usize
        ensures { result ≡ length self.now.segments.items }
    {
        self.segments.len()
    }

    /// Takes a segment of at least n words from the allocator; m of them are used at once.
    fn add_segment(&mut self, minimum: u32, used: u32) -> Result<()>
        requires fits { used ≤ minimum }
        requires few { self.old.words + used < 2 ^ 29 }
        ensures words { OnOk result (UsesMore self.old.segments.items self.new.segments.items
            (length self.old.segments.items) used) }
        ensures len { OnOk result (length self.old.segments.items < 2 ^ 32 - 1) }
        ensures room { OnOk result (minimum ≤ used
            + get_or (free_words self.new.segments.items) (length self.old.segments.items) 0) }
        ensures refused { OnErr result (self.new.segments.items ≡ self.old.segments.items) }
        ensures kind { IfErr result (λ e. e.kind ≢ SizeOverflow) }
        ensures cause { IfErr result (λ e. arena_refuses self.old minimum e.kind) }
        ensures place { A.place self.new.allocator ≡ A.place self.old.allocator }
        ensures loans { arena_loans self.new ≡ arena_loans self.old }
    {
        if self.segments.len() >= u32::MAX as usize {
            return Err(Error::from(ErrorKind::OutOfMemory));
        }
        if self.segments.reserve(1).is_err() {
            return Err(Error::from(ErrorKind::OutOfMemory));
        }
        let segment = self.allocator.allocate_segment(minimum)?;
        let held = Held::new(segment, used);
        match self.segments.push(held) {
            Ok(()) => {
                self.words += used;
                Ok(())
            }
            Err(failed) => {
                let Held { segment, used: _ } = failed.value;
                drop(segment);
                Err(Error::from(ErrorKind::OutOfMemory))
            }
        }
    }
}

impl<A: Allocator> BuilderArenaImpl<A> {
    ghost use Rattle.capnp_copy_arenas.specs.Refusals.{arena_refuses};
    ghost use Rattle.capnp_copy_arenas.specs.Arenas.{arena_loans, UsesInArena};

    /// Takes a segment of at least n words from the allocator, with no word used yet. It is refused
    /// with `OutOfMemory` if the list of segments can't grow, otherwise with the allocator's error;
    /// then the arena is unchanged.
    pub fn allocate_segment(&mut self, minimum: u32) -> Result<()>
        ensures words { OnOk result (UsesMore self.old.segments.items self.new.segments.items
            (length self.old.segments.items) 0) }
        ensures room { OnOk result (minimum
            ≤ get_or (free_words self.new.segments.items) (length self.old.segments.items) 0) }
        ensures refused { OnErr result (self.new.segments.items ≡ self.old.segments.items) }
        ensures kind { IfErr result (λ e. e.kind ≢ SizeOverflow) }
        ensures cause { IfErr result (λ e. arena_refuses self.old minimum e.kind) }
        ensures place { A.place self.new.allocator ≡ A.place self.old.allocator }
        ensures loans { arena_loans self.new ≡ arena_loans self.old }
    {
        self.add_segment(minimum, 0)
    }

    /// Takes a segment whose first n words are used already as the only segment; the later words
    /// are zero. The segment and the allocator together have at most one lent slice.
    ///
    /// It is refused with `OutOfMemory` if the list of segments can't grow; then the segment was
    /// returned to the allocator.
    pub fn hold_segment(&mut self, segment: A::Segment, used: u32) -> Result<()>
        requires empty { self.old.segments.items ≡ [] }
        requires inside { 8 * used ≤ length (A.Segment.bytes segment) }
        requires rest { ZeroFrom (8 * used) (A.Segment.bytes segment) }
        requires few { used < 2 ^ 29 }
        requires one { length (A.Segment.loans segment) + length (A.loans self.old.allocator) ≤ 1 }
        ensures words { OnOk result
            (held_words self.new.segments.items ≡ words_used used (A.Segment.bytes segment) ∷ []) }
        ensures refused { OnErr result (self.new.segments.items ≡ []) }
        ensures kind { IfErr result (λ e. e.kind ≡ OutOfMemory) }
        ensures place { A.place self.new.allocator ≡ A.place self.old.allocator }
        ensures loans { held_loans self.new.segments.items ++ A.loans self.new.allocator
            ≡ A.Segment.loans segment ++ A.loans self.old.allocator }
    {
        match self.segments.push(Held { segment, used }) {
            Ok(()) => {
                self.words = used;
                Ok(())
            }
            Err(failed) => {
                let Held {
                    segment,
                    used: words,
                } = failed.value;
                self.allocator.deallocate_segment(segment, words);
                Err(Error::from(ErrorKind::OutOfMemory))
            }
        }
    }

    /// Uses n more words of a segment, if it exists and has as many free.
    fn use_in(&mut self, segment: SegmentId, words: u32) -> Option<u32>
        requires { self.old.words + words < 2 ^ 29 }
        ensures at { IfSome result (λ at. EndsAt self.old.segments.items segment at) }
        ensures words { IfSome result (λ at. UsesInArena self.old self.new segment words) }
        ensures room { OnSome result (HasFree self.old.segments.items segment words) }
        ensures left { OnSome result
            (LeavesFree self.old.segments.items self.new.segments.items segment words) }
        ensures full { IfNone result (IsFull self.old.segments.items segment words) }
        ensures none { IfNone result (self.new.segments.items ≡ self.old.segments.items) }
        ensures capacity { vec_capacity self.new.segments ≡ vec_capacity self.old.segments }
        ensures allocator { self.new.allocator ≡ self.old.allocator }
        ensures place { A.place self.new.allocator ≡ A.place self.old.allocator }
        ensures loans { arena_loans self.new ≡ arena_loans self.old }
    {
        let at = grow_in(self.segments.as_mut_slice(), segment as usize, words)?;
        self.words += words;
        Some(at)
    }

    /// Uses n more words of the last segment, if it has as many free.
    fn use_in_last(&mut self, words: u32) -> Option<(SegmentId, u32)>
        requires { self.old.words + words < 2 ^ 29 }
        ensures at { IfSome result (λ p. EndsAt self.old.segments.items p.0 p.1) }
        ensures words { IfSome result (λ p.
            UsesMore self.old.segments.items self.new.segments.items p.0 words) }
        ensures full { let all = self.old.segments.items in IfNone result
            ((length all ≡ 0) ⊎ (get_or (free_words all) (length all - 1) 0 < words)) }
        ensures none { IfNone result (self.new.segments.items ≡ self.old.segments.items) }
        ensures capacity { vec_capacity self.new.segments ≡ vec_capacity self.old.segments }
        ensures allocator { self.new.allocator ≡ self.old.allocator }
        ensures place { A.place self.new.allocator ≡ A.place self.old.allocator }
        ensures loans { arena_loans self.new ≡ arena_loans self.old }
    {
        let count = self.segments.len();
        if count == 0 {
            return None;
        }
        let last = (count - 1) as SegmentId;
        let at = self.use_in(last, words)?;
        Some((last, at))
    }

    /// Uses n words of a new segment.
    fn use_in_new(&mut self, words: u32) -> Result<(SegmentId, u32)>
        requires { self.old.words + words < 2 ^ 29 }
        ensures at { IfOk result (λ p. (p.0 ≡ length self.old.segments.items) × (p.1 ≡ 0)) }
        ensures words { OnOk result (UsesMore self.old.segments.items self.new.segments.items
            (length self.old.segments.items) words) }
        ensures refused { OnErr result (self.new.segments.items ≡ self.old.segments.items) }
        ensures kind { IfErr result (λ e. e.kind ≢ SizeOverflow) }
        ensures cause { IfErr result (λ e. arena_refuses self.old words e.kind) }
        ensures place { A.place self.new.allocator ≡ A.place self.old.allocator }
        ensures loans { arena_loans self.new ≡ arena_loans self.old }
    {
        let count = self.segments.len();
        self.add_segment(words, words)?;
        Ok((count as SegmentId, 0))
    }

    /// Returns every segment to the allocator.
    #[tactic(auto, using(crate::proofs::HeldWords::total_popped))]
    fn release(&mut self)
        requires { length (held_loans self.old.segments.items ++ A.loans self.old.allocator) ≤ 1 }
        ensures empty { self.new.segments.items ≡ [] }
        ensures place { A.place self.new.allocator ≡ A.place self.old.allocator }
        ensures loans { A.loans self.new.allocator
            ≡ held_loans self.old.segments.items ++ A.loans self.old.allocator }
    {
        while let Some(held) = self.segments.pop() {
            let Held { segment, used } = held;
            self.words -= used;
            self.allocator.deallocate_segment(segment, used);
        }
    }

    /// Returns the allocator, after every segment was returned to it. The segments and the
    /// allocator together have at most one lent slice.
    pub fn into_allocator(mut self) -> A
        requires { length (held_loans self.segments.items ++ A.loans self.allocator) ≤ 1 }
        ensures place { A.place result ≡ A.place self.allocator }
        ensures loans { A.loans result ≡ held_loans self.segments.items ++ A.loans self.allocator }
    {
        self.release();
        let BuilderArenaImpl {
            allocator,
            segments: _,
            words: _,
        } = self;
        allocator
    }
}

impl<A: Allocator> ReaderArena for BuilderArenaImpl<A> {
    ghost segments = { λ a. map (λ h. take (8 * h.used) (A.Segment.bytes h.segment))
        a.segments.items };

    ghost nesting = { λ a. pos 2147483647 };

    fn get_segment(&self, id: SegmentId) -> Option<&[u8]> {
        used_bytes_at(self.segments.as_slice(), id)
    }

    fn nesting_limit(&self) -> i32 {
        i32::MAX
    }

    fn size_in_words(&self) -> usize {
        self.words as usize
    }
}

impl<A: Allocator> BuilderArena for BuilderArenaImpl<A> {
    ghost use Rattle.capnp_copy_arenas.specs.Refusals.{arena_refuses};

    ghost books = { λ a. A.place a.allocator
        ∷ (flat_map (λ h. A.Segment.loans h.segment) a.segments.items ++ A.loans a.allocator)
        ∷ [] };

    ghost room = { λ a. map (λ h. length (A.Segment.bytes h.segment) / 8 - h.used)
        a.segments.items };

    ghost refuses = { λ a n kind. arena_refuses a n kind };

    fn allocate(&mut self, segment: SegmentId, words: u32) -> Option<u32> {
        if words > MOST_WORDS - self.words {
            return None;
        }
        self.use_in(segment, words)
    }

    fn allocate_anywhere(&mut self, words: u32) -> Result<(SegmentId, u32)> {
        if words > MOST_WORDS - self.words {
            return Err(Error::from(ErrorKind::SizeOverflow));
        }
        match self.use_in_last(words) {
            Some(start) => Ok(start),
            None => self.use_in_new(words),
        }
    }

    fn write_word(&mut self, place: Place, word: u64) {
        write_in_segment(self.segments.as_mut_slice(), place, &word.to_le_bytes());
    }

    fn write_words(&mut self, place: Place, words: &[u8]) {
        write_in_segment(self.segments.as_mut_slice(), place, words);
    }

    fn zero_words(&mut self, place: Place, count: usize) {
        zero_in_segment(self.segments.as_mut_slice(), place, count);
    }
}

impl<A: Allocator> BuilderArenaImpl<A> {
    /// Returns the used bytes of each segment, in order, for output. `alloc` provides memory only
    /// for the list.
    pub fn get_segments_for_output(&self, alloc: Global) -> Result<Vec<&[u8]>>
        ensures segments { IfOk result (λ v.
            map (λ b. b.now) v.items
            ≡ map (λ h. take (8 * h.used) (A.Segment.bytes h.segment)) self.now.segments.items) }
        ensures kind { IfErr result (λ e. e.kind ≡ OutOfMemory) }
    {
        let mut all = Vec::new(alloc);
        for held in &self.segments {
            all.push(held.used_bytes())?;
        }
        Ok(all)
    }
}
