//! Allocators over memory that holds words already.
ghost use Rattle.std.specs.Prelude.{◌≡◌, ◌*◌, ◌^◌, ◌<◌, ◌≤◌, ◌++◌, [], ℕ, List, length, take, OnSome, IfSome, IfNone};
ghost use Rattle.capnp_copy_arenas.specs.Memory.{ZeroFrom};

use capnp_copy_arenas::allocator::{Allocator, SegmentBytes};

/// An allocator that may hold a segment whose first words are used already.
pub trait OpensSegment: Allocator {
    /// The bytes of those words: `None` if the allocator holds no such segment, or has handed it
    /// out.
    ghost opened: { Self → List ℕ };

    /// Hands out the segment, with the number of its used words, which is not zero; `None` if the
    /// allocator holds no such segment. It is handed out once.
    fn take_opened(&mut self) -> Option<(Self::Segment, u32)>
        ensures words { IfSome result (λ p. take (8 * p.1) (Self.Segment.bytes p.0)
            ≡ opened self.old) }
        ensures some { IfSome result (λ p. (0 < p.1) × (p.1 < 2 ^ 29)) }
        ensures inside { IfSome result (λ p. 8 * p.1 ≤ length (Self.Segment.bytes p.0)) }
        ensures rest { IfSome result (λ p. ZeroFrom (8 * p.1) (Self.Segment.bytes p.0)) }
        ensures moved { IfSome result (λ p. Self.loans self.old
            ≡ Self.Segment.loans p.0 ++ Self.loans self.new) }
        ensures once { OnSome result (opened self.new ≡ []) }
        ensures none { IfNone result (opened self.old ≡ []) }
        ensures kept { IfNone result (Self.loans self.new ≡ Self.loans self.old) }
        ensures place { Self.place self.new ≡ Self.place self.old };
}

impl<L: OpensSegment> OpensSegment for &mut L {
    ghost opened = { λ s. L.opened s.now };

    fn take_opened(&mut self) -> Option<(L::Segment, u32)> {
        (**self).take_opened()
    }
}
