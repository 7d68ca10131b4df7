//! Segments of allocators that were lent a slice.
ghost use Rattle.std.specs.Prelude.{◌≡◌, ◌*◌};
ghost use Rattle.capnp_copy_arenas.specs.Memory.{AllZero, ZeroFrom};

use capnp_copy_arenas::allocator::{SegmentBytes, write_in, zero_in};

/// A segment: the slice that was lent, or bytes of its own.
#[derive(Drop)]
pub enum Segment<'a> {
    Lent(&'a mut [u8]),
    Owned(Vec<u8>),
}

impl<'a> SegmentBytes for Segment<'a> {
    ghost use Rattle.capnp_message_allocators.specs.Segments.{bytes_of, loans_of_segment};

    ghost bytes = { bytes_of };

    ghost loans = { loans_of_segment };

    fn as_bytes(&self) -> &[u8] {
        match self {
            Segment::Lent(slice) => slice,
            Segment::Owned(bytes) => bytes.as_slice(),
        }
    }

    fn write(&mut self, at: usize, from: &[u8]) {
        match self {
            Segment::Lent(slice) => write_in(slice, at, from),
            Segment::Owned(bytes) => write_in(bytes.as_mut_slice(), at, from),
        }
    }

    fn zero(&mut self, at: usize, count: usize) {
        match self {
            Segment::Lent(slice) => zero_in(slice, at, count),
            Segment::Owned(bytes) => zero_in(bytes.as_mut_slice(), at, count),
        }
    }
}

/// Makes the used words of a slice zero again; the later words are zero already.
pub(crate) fn wipe(slice: &mut [u8], words_used: u32)
    requires { ZeroFrom (8 * words_used) slice.old }
    ensures { AllZero slice.new }
{
    let end = slice.len().min(8 * words_used as usize);
    slice[..end].fill(0);
}
