//! Tests whether the value of a reader is in canonical form in its segment.
ghost use Rattle.std.specs.Prelude.{◌≡◌, ◌+◌};
ghost use Rattle.std.specs.Bool.{OnTrue, OnFalse};
ghost use Rattle.capnp_units.specs.Segments.{words_in};
ghost use Rattle.capnp_wire_objects.specs.Places.{place_view};
ghost use Rattle.capnp_wire_objects.specs.Objects.{AreThere};
ghost use Rattle.capnp_wire.specs.Views.{backing_bytes, is_paid, seen_pointer, seen_struct};
ghost use Rattle.capnp_wire.specs.Canonical.{ToldOn, PointerTells, StructTellsIn, StructTells, LiesAt, section_words};

use crate::backing::Backing;
use crate::pointer::PointerReader;
use crate::section::are_equal;
use crate::structs::StructReader;
use capnp_units::errors::{Error, Result};
use capnp_units::kinds::ErrorKind;
use capnp_units::limiter::ReadLimiter;
use capnp_units::sizes::StructSize;
use capnp_wire_canonical::check::{is_canonical, is_canonical_struct};
use capnp_wire_objects::arena::ReaderArena;
use capnp_wire_objects::place::{Place, has_words};

impl<'a, A: ReaderArena> PointerReader<'a, A> {
    /// Returns whether the pointer and its value are laid out as the value's canonical words. The
    /// pointer is at its place. From the head on, a later place in its segment, are the words of
    /// its value, trimmed. If the answer is yes, the head is moved past those words; otherwise it
    /// is unchanged. A pointer without a place isn't canonical. (Encoding, "Canonicalization")
    ///
    /// In an arena pointers are followed, and objects paid for, as in `total_size`, up to the first
    /// difference. A capability is a difference, and so is a head at another place. It is refused
    /// only if a walk over the whole value is refused:
    /// - at the first fault, with its kind;
    /// - with `ReadLimitExceeded` at the first object that costs more words than are left;
    /// - with `NestingLimitExceeded` under a negative nesting limit.
    ///
    /// A no is exact in a segment of at most 2^29 - 1 words, the most that a message has.
    ///
    /// It takes no memory.
    pub fn is_canonical(&self, limiter: &mut ReadLimiter, head: &mut Place) -> Result<bool>
        ensures { PointerTells (seen_pointer A.segments self.now) (place_view head.old)
            limiter.old result (place_view head.new) limiter.new }
    {
        let Some(levels) = self.levels else {
            return Err(Error::from(ErrorKind::NestingLimitExceeded));
        };
        let Some(place) = self.place else {
            return Ok(false);
        };
        match self.backing {
            Backing::Arena(arena) => is_canonical(arena, limiter, place, levels, head),
            Backing::Default(_) => {
                let mut unlimited = ReadLimiter::new(None);
                is_canonical(&self.backing, &mut unlimited, place, levels, head)
            }
        }
    }
}

impl<'a, A: ReaderArena> StructReader<'a, A> {
    /// Returns whether the struct's own words are those from a place on.
    fn lies_at(&self, place: Place) -> bool
        ensures lies { let v = seen_struct A.segments self.now in OnTrue result
            (LiesAt v (place_view place)
            × AreThere v.basis.segments (place_view place) (section_words v + v.pointers)) }
        ensures elsewhere { OnFalse result
            (LiesAt (seen_struct A.segments self.now) (place_view place) → ⊥) }
    {
        let words = self.section.len() / 8;
        let count = words + self.pointers as usize;
        if self.section.len() % 8 != 0 || !has_words(&self.backing, place, count) {
            return false;
        }
        let first = Place {
            segment: place.segment,
            position: place.position + words,
        };
        self.first == first && are_equal(self.section, self.backing.lend(place, words))
    }

    /// Returns whether the struct is in an arena with the segments that it is read from, with its
    /// own words from a place on.
    fn stands_in<B: ReaderArena>(
        &self,
        arena: &B,
        limiter: &mut ReadLimiter,
        start: Place,
        levels: u32,
        head: &mut Place,
    ) -> Result<bool>
        requires same { words_in (B.segments arena.now)
            ≡ words_in (backing_bytes A.segments self.now.backing) }
        ensures { StructTellsIn levels (seen_struct A.segments self.now) (place_view start)
            (place_view head.old) result (place_view head.new) limiter.old limiter.new }
    {
        if !self.lies_at(start) {
            return Ok(false);
        }
        let size = StructSize {
            data_words: (self.section.len() / 8) as u16,
            pointers: self.pointers,
        };
        is_canonical_struct(arena, limiter, start, size, levels, head)
    }

    /// Returns whether the struct begins at a place. The words are paid for in an arena, and free
    /// in a default.
    fn stands_at(
        &self,
        limiter: &mut ReadLimiter,
        start: Place,
        levels: u32,
        head: &mut Place,
    ) -> Result<bool>
        ensures { ToldOn (is_paid self.now.backing) (StructTellsIn levels
            (seen_struct A.segments self.now) (place_view start) (place_view head.old) result
            (place_view head.new)) limiter.old limiter.new }
    {
        match self.backing {
            Backing::Arena(arena) => self.stands_in(arena, limiter, start, levels, head),
            Backing::Default(_) => {
                let mut unlimited = ReadLimiter::new(None);
                self.stands_in(&self.backing, &mut unlimited, start, levels, head)
            }
        }
    }

    /// Returns whether the struct and the values of its pointers are laid out as canonical words.
    /// The struct's own words begin at one head; neither the last word of its data nor its last
    /// pointer is zero. The words of its pointers' values, trimmed, begin at the other head, after
    /// the pointers in their segment, one value after the other. If the answer is yes, each head is
    /// moved past its words; otherwise it is unchanged. (Encoding, "Canonicalization")
    ///
    /// It is refused, and exact, like `PointerReader::is_canonical`. The struct's own words were
    /// paid for before; if they are at another place, no pointer is followed. It takes no memory.
    pub fn is_canonical(
        &self,
        limiter: &mut ReadLimiter,
        read_head: &mut Place,
        pointer_head: &mut Place,
    ) -> Result<bool>
        ensures { StructTells (seen_struct A.segments self.now) (place_view read_head.old)
            (place_view pointer_head.old) limiter.old result (place_view read_head.new)
            (place_view pointer_head.new) limiter.new }
    {
        let Some(levels) = self.levels else {
            return Err(Error::from(ErrorKind::NestingLimitExceeded));
        };
        let stands = self.stands_at(limiter, *read_head, levels, pointer_head)?;
        if stands {
            read_head.position += self.section.len() / 8 + self.pointers as usize;
        }
        Ok(stands)
    }
}
