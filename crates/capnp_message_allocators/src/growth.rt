//! The number of words that an allocator requests when fewer would suffice.
ghost use Rattle.std.specs.Prelude.{◌≡◌};
ghost use Rattle.capnp_message_allocators.specs.Growth.{grown, suggested_growth, words_handed};

use capnp_units::limits::MOST_WORDS;

/// The sizes of a message's later segments.
#[derive(Clone, Copy, Debug, PartialEq, Eq)]
pub enum AllocationStrategy {
    /// Each segment has the words of the first, or more if more are requested.
    FixedSize,
    /// Each segment has about the words of all earlier segments.
    GrowHeuristically,
}

/// The words of a message's first segment, unless another number is set. The crate that is ported
/// suggests the same number.
pub const SUGGESTED_FIRST_SEGMENT_WORDS: u32 = 1024;

/// The sizes of later segments, unless another strategy is set.
pub const SUGGESTED_ALLOCATION_STRATEGY: AllocationStrategy = AllocationStrategy::GrowHeuristically;

/// The number of words of the next segment, if no more are requested.
#[derive(Clone, Copy, Debug)]
pub(crate) struct Growth {
    pub(crate) first: u32,
    pub(crate) next: u32,
    pub(crate) most: u32,
    pub(crate) strategy: AllocationStrategy,
}

impl Growth {
    /// Makes the suggested sizes.
    pub(crate) fn new() -> Growth
        ensures { result ≡ suggested_growth }
    {
        Growth {
            first: SUGGESTED_FIRST_SEGMENT_WORDS,
            next: SUGGESTED_FIRST_SEGMENT_WORDS,
            most: MOST_WORDS,
            strategy: SUGGESTED_ALLOCATION_STRATEGY,
        }
    }

    /// Returns the number of words of the next segment, if at least n words are requested.
    pub(crate) fn words_for(&self, minimum: u32) -> u32
        ensures { result ≡ words_handed self.now minimum }
    {
        minimum.max(self.next.min(self.most))
    }

    /// Sets the number of words of the first segment to n.
    pub(crate) fn start_with(&mut self, words: u32)
        ensures { self.new ≡ record self.old { first = words; next = words } }
    {
        self.first = words;
        self.next = words;
    }

    /// Records that a segment of n words was handed out.
    pub(crate) fn grow(&mut self, words: u32)
        ensures { self.new ≡ grown self.old words }
    {
        match self.strategy {
            AllocationStrategy::FixedSize => {}
            AllocationStrategy::GrowHeuristically => self.next = self.next.saturating_add(words),
        }
    }

    /// Records that the segments were returned.
    pub(crate) fn restart(&mut self)
        ensures { self.new ≡ record self.old { next = self.old.first } }
    {
        self.next = self.first;
    }
}
