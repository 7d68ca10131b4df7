//! Messages of several segments, whose first segments are looked up once.
ghost use Rattle.std.specs.Prelude.{◌≡◌, pos, slice_get, option_copied};

use capnp_units::sizes::SegmentId;
use capnp_wire_objects::arena::ReaderArena;

/// The segments of a message. The first four are looked up once, so reading them uses no table of
/// segments.
#[derive(Drop)]
pub(crate) struct NearSegments<'a, M: ReaderArena> {
    message: &'a M,
    first: Option<&'a [u8]>,
    second: Option<&'a [u8]>,
    third: Option<&'a [u8]>,
    fourth: Option<&'a [u8]>,
    ghost one: { option_copied first ≡ slice_get (M.segments message.now) 0 },
    ghost two: { option_copied second ≡ slice_get (M.segments message.now) 1 },
    ghost three: { option_copied third ≡ slice_get (M.segments message.now) 2 },
    ghost four: { option_copied fourth ≡ slice_get (M.segments message.now) 3 },
}

impl<'a, M: ReaderArena> NearSegments<'a, M> {
    /// Makes the segments of this message.
    #[inline(always)]
    pub(crate) fn new(message: &'a M) -> NearSegments<'a, M>
        ensures { result.message.now ≡ message.now }
    {
        NearSegments {
            message,
            first: message.get_segment(0),
            second: message.get_segment(1),
            third: message.get_segment(2),
            fourth: message.get_segment(3),
        }
    }
}

impl<M: ReaderArena> ReaderArena for NearSegments<'_, M> {
    ghost segments = { λ s. M.segments s.message.now };

    ghost nesting = { λ _. pos 2147483647 };

    #[inline(always)]
    fn get_segment(&self, id: SegmentId) -> Option<&[u8]> {
        match id {
            0 => self.first,
            1 => self.second,
            2 => self.third,
            3 => self.fourth,
            _ => self.message.get_segment(id),
        }
    }

    #[inline]
    fn nesting_limit(&self) -> i32 {
        i32::MAX
    }

    #[inline]
    fn size_in_words(&self) -> usize {
        self.message.size_in_words()
    }
}
