//! Framed messages at the front of a slice.
ghost use Rattle.std.specs.Prelude.{◌≡◌, ◌≢◌, Ok, Err, IsOk, IfOk, IfErr, OnErr};
ghost use Rattle.capnp_units.specs.Errors.{kind_of};
ghost use Rattle.capnp_units.specs.declared.kinds.ErrorKind.{ErrorKind};
ghost use Rattle.capnp_units.specs.Segments.{words_in};
ghost use Rattle.capnp_model.specs.Messages.{flat_at};
ghost use Rattle.capnp_stream.specs.Buffers.{buffer_segments, found_segments};

use crate::buffers::{BufferSegments, NoAllocBufferSegments, NoAllocSliceSegments, SliceSegments};
use capnp_units::errors::Result;
use std::alloc::Global;

/// Returns the segments of the framed message at the front of the slice, and moves the slice past
/// the message.
///
/// A message of more words than the limit is refused. It is refused with the kind of the first part
/// that can't be read, and with `OutOfMemory` if all parts can be read; then the slice is
/// unchanged.
pub fn read_message_from_flat_slice<'a>(
    alloc: Global,
    slice: &mut &'a [u8],
    limit: Option<usize>,
) -> Result<SliceSegments<'a>>
    ensures message { IfOk result
        (λ s. flat_at limit slice.old.now ≡ Ok (words_in (buffer_segments s), slice.new.now)) }
    ensures refused { IfErr result
        (λ e. e.kind ≢ ErrorKind.OutOfMemory → flat_at limit slice.old.now ≡ Err (kind_of e.kind)) }
    ensures wanted { IfErr result
        (λ e. e.kind ≡ ErrorKind.OutOfMemory → IsOk (flat_at limit slice.old.now)) }
    ensures kept { OnErr result (slice.new.now ≡ slice.old.now) }
{
    BufferSegments::from_slice(alloc, slice, limit)
}

/// Returns the segments like the function above, and takes no memory.
pub fn read_message_from_flat_slice_no_alloc<'a>(
    slice: &mut &'a [u8],
    limit: Option<usize>,
) -> Result<NoAllocSliceSegments<'a>>
    ensures message { IfOk result
        (λ s. flat_at limit slice.old.now ≡ Ok (words_in (found_segments s), slice.new.now)) }
    ensures refused { IfErr result (λ e. flat_at limit slice.old.now ≡ Err (kind_of e.kind)) }
    ensures kept { OnErr result (slice.new.now ≡ slice.old.now) }
{
    NoAllocBufferSegments::from_slice(slice, limit)
}
