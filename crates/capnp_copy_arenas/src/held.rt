//! Segments that an arena holds, with the number of used words of each.
ghost use Rattle.std.specs.Prelude.{◌≡◌, ◌⊎◌, ◌+◌, ◌*◌, ◌/◌, ◌<◌, ◌≤◌, ◌^◌, ℕ, List, length, take, replicate, IfSome, IfNone};
ghost use Rattle.capnp_copy_arenas.specs.Memory.{AllZero, ZeroFrom, overwritten};

use crate::allocator::SegmentBytes;

/// A segment whose first n words are used. All later words are zero.
#[derive(Drop)]
pub struct Held<S: SegmentBytes> {
    pub segment: S,
    pub used: u32,
    pub ghost inside: { 8 * used ≤ length (S.bytes segment) },
    pub ghost rest: { ZeroFrom (8 * used) (S.bytes segment) },
}

impl<S: SegmentBytes> Held<S> {
    /// Makes a segment whose first words are used; all its bytes are zero.
    #[tactic(auto, using(crate::proofs::Zeros::zero_from_all))]
    pub fn new(segment: S, used: u32) -> Self
        requires inside { 8 * used ≤ length (S.bytes segment) }
        requires zeros { AllZero (S.bytes segment) }
        ensures segment { result.segment ≡ segment }
        ensures used { result.used ≡ used }
    {
        Held { segment, used }
    }

    /// Returns the used bytes.
    pub fn used_bytes(&self) -> &[u8]
        ensures { result.now ≡ take (8 * self.now.used) (S.bytes self.now.segment) }
    {
        let used = 8 * self.used as usize;
        let segment = &self.segment;
        &segment.as_bytes()[..used]
    }

    /// Uses n more words, if as many are free, and returns the position of the first.
    #[tactic(auto, using(crate::proofs::Zeros::zero_from_more))]
    pub fn grow(&mut self, words: u32) -> Option<u32>
        ensures some { IfSome result (λ at.
            (at ≡ self.old.used) × (self.new.used ≡ self.old.used + words)) }
        ensures segment { self.new.segment ≡ self.old.segment }
        ensures none { IfNone result (self.new ≡ self.old) }
        ensures full { IfNone result
            ((length (S.bytes self.old.segment) / 8 < self.old.used + words)
            ⊎ (2 ^ 32 ≤ self.old.used + words)) }
    {
        let used = self.used;
        let room = {
            let segment = &self.segment;
            segment.as_bytes().len() / 8
        };
        if used as usize + words as usize > room {
            return None;
        }
        if words > u32::MAX - used {
            return None;
        }
        self.used = used + words;
        Some(used)
    }

    /// Writes whole words over used words, from a position on.
    #[tactic(auto, using(crate::proofs::Zeros::zero_behind, crate::proofs::Zeros::overwritten_length))]
    pub fn write(&mut self, position: usize, from: &[u8])
        requires { 8 * position + length from.now ≤ 8 * self.old.used }
        ensures used { self.new.used ≡ self.old.used }
        ensures bytes { S.bytes self.new.segment
            ≡ overwritten (8 * position) from.now (S.bytes self.old.segment) }
        ensures loans { S.loans self.new.segment ≡ S.loans self.old.segment }
    {
        let segment = &mut self.segment;
        segment.write(8 * position, from);
    }

    /// Writes zeros over n used words.
    #[tactic(auto, using(crate::proofs::Zeros::zero_behind, crate::proofs::Zeros::overwritten_length))]
    pub fn zero(&mut self, position: usize, count: usize)
        requires { position + count ≤ self.old.used }
        ensures used { self.new.used ≡ self.old.used }
        ensures bytes { S.bytes self.new.segment
            ≡ overwritten (8 * position) (replicate (8 * count) 0) (S.bytes self.old.segment) }
        ensures loans { S.loans self.new.segment ≡ S.loans self.old.segment }
    {
        let segment = &mut self.segment;
        segment.zero(8 * position, 8 * count);
    }
}
