//! Shared parts of the tests: segments of exactly the requested words, and views of a message.
ghost use Rattle.std.specs.Prelude.{◌≡◌, ◌<◌, ◌^◌, [], true};
ghost use Rattle.std.specs.Option.{is_some};
ghost use Rattle.capnp_model.specs.Segments.{words_at};
ghost use Rattle.capnp_units.specs.Segments.{words_in};
ghost use Rattle.capnp_units.specs.declared.kinds.ErrorKind.TheVariants.{OutOfMemory};
ghost use Rattle.capnp_wire_objects.specs.Places.{place_view};

use capnp_copy_arenas::allocator::Allocator;
use capnp_copy_arenas::arena::{BuilderArena, Memory};
use capnp_layout_builders::pointer_builder::PointerBuilder;
use capnp_units::errors::{Error, Result};
use capnp_units::kinds::ErrorKind;
use capnp_units::limiter::ReadLimiter;
use capnp_wire::pointer::PointerReader;
use capnp_wire_objects::arena::ReaderArena;
use capnp_wire_objects::place::{Place, has_words, word_at};
use std::alloc::Global;

pub(crate) const ROOT: Place = Place {
    segment: 0,
    position: 0,
};

/// Positions that are too far for a handle.
pub(crate) const FAR: usize = 1 << 60;

/// Hands out n segments, each of exactly the requested words, and keeps the last requested number.
#[derive(Drop)]
pub(crate) struct Exact {
    pub(crate) alloc: Global,
    pub(crate) left: u32,
    pub(crate) asked: u32,
}

/// Makes an allocator of n segments.
pub(crate) fn exact_segments(alloc: Global, left: u32) -> Exact {
    Exact {
        alloc,
        left,
        asked: 0,
    }
}

impl Allocator for Exact {
    type Segment = Vec<u8>;

    ghost loans = { λ _. [] };

    ghost place = { λ _. [] };

    ghost refuses = { λ _ _ kind. kind ≡ OutOfMemory };

    fn allocate_segment(&mut self, minimum: u32) -> Result<Vec<u8>> {
        self.asked = minimum;
        if self.left == 0 {
            return Err(Error::from(ErrorKind::OutOfMemory));
        }
        self.left -= 1;
        let mut bytes = Vec::new(self.alloc);
        bytes.resize(8 * minimum as usize, 0)?;
        Ok(bytes)
    }

    fn deallocate_segment(&mut self, segment: Vec<u8>, _words_used: u32) {
        drop(segment);
    }
}

/// Returns whether there is a pointer's word at a place.
pub(crate) fn is_there<A: ReaderArena>(arena: &A, place: Place) -> bool
    ensures { result ≡ true → (is_some (words_at (words_in (A.segments arena.now))
        (place_view place) 1) ≡ true) × (place.position < 2 ^ 61) }
{
    place.position < FAR && has_words(arena, place, 1)
}

/// Clears the root.
pub(crate) fn clear_root<A: BuilderArena>(memory: &mut Memory<A>)
    ensures { A.books memory.new.arena ≡ A.books memory.old.arena }
{
    let mut root = PointerBuilder::get_root(memory);
    root.clear();
}

/// Returns the number of words that aren't zero.
pub(crate) fn nonzero<A: ReaderArena>(arena: &A, segments: u32) -> usize {
    let mut count: usize = 0;
    for segment in 0..segments {
        for position in 0..400 {
            let place = Place { segment, position };
            if word_at(arena, place).unwrap_or(0) != 0 {
                count = count.saturating_add(1);
            }
        }
    }
    count
}

/// Returns whether the root holds these bytes, read as a text or as data.
pub(crate) fn holds<A: ReaderArena>(arena: &A, bytes: &[u8], text: bool) -> Result<bool> {
    let mut limiter = ReadLimiter::new(None);
    let root = PointerReader::get_root_from_arena(arena)?;
    let found = if text {
        root.get_text(&mut limiter, None)?
    } else {
        root.get_data(&mut limiter, None)?
    };
    Ok(found == bytes)
}
