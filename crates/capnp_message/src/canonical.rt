//! Canonical messages.
ghost use Rattle.capnp_model.specs.Answers.{levels};
ghost use Rattle.capnp_units.specs.Segments.{words_in};
ghost use Rattle.std.specs.Prelude.{◌≡◌, ◌+◌, ◌-◌, ◌^◌, ◌<◌, min, OnOk};
ghost use Rattle.capnp_model.specs.Segments.{root};
ghost use Rattle.capnp_model.specs.Visits.{visits};
ghost use Rattle.capnp_wire_canonical.specs.Copies.{copy_visits};
ghost use Rattle.capnp_message.specs.Canonical.{TellsCanonical, GivesCanonical, CostsWithin, IsAsked, Suffices, TellsWhole, most_cost};

use crate::options::ReaderOptions;
use crate::reader::Reader;
use capnp_units::errors::{Error, Result};
use capnp_units::kinds::ErrorKind;
use capnp_units::limiter::ReadLimiter;
use capnp_units::limits::MOST_WORDS;
use capnp_units::segments::ReaderSegments;
use capnp_units::sizes::Word;
use capnp_wire::levels::levels_of;
use capnp_wire_canonical::check::is_canonical_message;
use capnp_wire_canonical::copy::write_canonical;
use capnp_wire_objects::arena::ReaderArena;
use capnp_wire_objects::place::ROOT;
use capnp_wire_objects::size::size_at;
use std::alloc::Global;

/// Room for the canonical words of a value.
#[derive(Clone, Copy)]
struct Room {
    words: usize,
    /// Whether all objects that are followed cost at most the words that the options and a message
    /// allow.
    is_whole: bool,
}

/// Returns one word more than the cost, at most the words of a message.
fn room_for(cost: u64) -> usize
    ensures { result ≡ min cost (2 ^ 29 - 2) + 1 }
{
    cost.min(MOST_WORDS as u64 - 1) as usize + 1
}

/// Returns one word more than following the root costs, as far as the options' words go, and at
/// most the words of a message.
fn room_of<A: ReaderArena>(arena: &A, options: ReaderOptions, levels: u32) -> Room
    ensures room { Suffices (copy_visits levels (words_in (A.segments arena.now)) root)
        (most_cost options.traversal_limit_in_words) result.words }
    ensures few { result.words < 2 ^ 29 }
    ensures asked { IsAsked (visits levels (words_in (A.segments arena.now)) root) result.words }
    ensures whole { TellsWhole (copy_visits levels (words_in (A.segments arena.now)) root)
        (most_cost options.traversal_limit_in_words) result.is_whole }
{
    let mut limiter = options.read_limiter();
    match size_at(arena, &mut limiter, ROOT, levels) {
        Ok(_) => {
            let cost = limiter.granted();
            Room {
                words: room_for(cost),
                is_whole: cost < MOST_WORDS as u64,
            }
        }
        Err(_) => {
            let cost = limiter.granted();
            Room {
                words: room_for(cost),
                is_whole: false,
            }
        }
    }
}

impl<S: ReaderSegments> Reader<S> {
    /// Returns the levels of pointers; `None` under a negative limit.
    pub(crate) fn levels(&self) -> Option<u32>
        ensures { result ≡ levels self.now.options.nesting_limit }
    {
        levels_of(self.options.nesting_limit)
    }

    /// Returns whether the message is one segment of the canonical words of its value. It takes no
    /// memory.
    ///
    /// Pointers are followed, and objects paid for, up to the first difference; a capability is a
    /// difference. If there is a second segment, no pointer is followed. It is refused only if a
    /// walk over the whole value would be refused:
    /// - with `NestingLimitExceeded` under a negative nesting limit, at no cost;
    /// - at the first fault, with its kind;
    /// - with `ReadLimitExceeded` at the first object that costs more words than are left.
    ///
    /// A no means that more levels wouldn't make it a yes, so a message that is only too deep is
    /// refused. The answer is exact if the segment has at most 2^29 - 1 words, the most that a
    /// message has. (Encoding, "Canonicalization")
    pub fn is_canonical(&self, limiter: &mut ReadLimiter) -> Result<bool>
        ensures { TellsCanonical (levels self.now.options.nesting_limit)
            (words_in (S.segments self.now.segments)) limiter.old result limiter.new }
    {
        let Some(levels) = self.levels() else {
            return Err(Error::from(ErrorKind::NestingLimitExceeded));
        };
        is_canonical_message(self, limiter, levels)
    }

    /// Returns the canonical words of the message's value.
    ///
    /// Pointers are followed, and objects paid for, in the order of reading. It is refused
    /// - with `NestingLimitExceeded` under a negative nesting limit, at no cost;
    /// - at the first fault, with its kind; a capability is a fault (`CapabilityInCanonical`);
    /// - with `ReadLimitExceeded` at the first object that costs more words than are left.
    ///
    /// `BufferNotLargeEnough`: the objects that are followed cost more words than the options'
    /// limit, or than the 2^29 - 2 words that a message has after its root. `OutOfMemory`: there is
    /// no memory for the words; then nothing was followed. It takes memory for one word more than
    /// the objects that are followed cost. (Encoding, "Canonicalization")
    pub fn canonicalize(&self, alloc: Global, limiter: &mut ReadLimiter) -> Result<Vec<Word>>
        ensures given { GivesCanonical (levels self.now.options.nesting_limit)
            self.now.options.traversal_limit_in_words
            (words_in (S.segments self.now.segments)) limiter.old result limiter.new }
        ensures within { OnOk result (CostsWithin (levels self.now.options.nesting_limit)
            self.now.options.traversal_limit_in_words
            (words_in (S.segments self.now.segments))) }
    {
        let Some(levels) = self.levels() else {
            return Err(Error::from(ErrorKind::NestingLimitExceeded));
        };
        let room = room_of(self, self.options, levels);
        let mut words = vec![in alloc; [0u8; 8]; room.words]?;
        let count = write_canonical(self, limiter, ROOT, levels, words.as_mut_slice())?;
        if !room.is_whole {
            return Err(Error::from(ErrorKind::BufferNotLargeEnough));
        }
        words.truncate(count);
        Ok(words)
    }
}
