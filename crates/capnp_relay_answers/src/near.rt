//! Messages of one segment, read without a table of segments.
ghost use Rattle.std.specs.Prelude.{◌≡◌, [], ◌∷◌, IfSome};

use capnp_wire_objects::arena::ReaderArena;

/// The one segment of a message.
#[derive(Clone, Copy, Debug)]
pub(crate) struct OneSegment<'a> {
    /// Its bytes.
    pub(crate) bytes: &'a [u8],
}

impl ReaderArena for OneSegment<'_> {
    ghost use Rattle.std.specs.Prelude.{pos, [], ◌∷◌};

    ghost segments = { λ s. s.bytes.now ∷ [] };

    ghost nesting = { λ _. pos 2147483647 };

    #[inline]
    fn get_segment(&self, id: u32) -> Option<&[u8]> {
        if id == 0 { Some(self.bytes) } else { None }
    }

    #[inline]
    fn nesting_limit(&self) -> i32 {
        i32::MAX
    }

    #[inline]
    fn size_in_words(&self) -> usize {
        self.bytes.len() / 8
    }
}

/// Returns the bytes of the only segment of a message; `None` unless it has one segment.
#[inline(always)]
pub(crate) fn only_segment<M: ReaderArena>(message: &M) -> Option<&[u8]>
    ensures { IfSome result (λ bytes. M.segments message.now ≡ bytes.now ∷ []) }
{
    if message.get_segment(1).is_some() {
        return None;
    }
    message.get_segment(0)
}
