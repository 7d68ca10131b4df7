//! Copies of the segments of a message.
ghost use Rattle.std.specs.Prelude.{◌≡◌, ◌<◌, ◌*◌, ◌/◌, [], ◌∷◌, ◌++◌, length, take, Err, IfOk, OnOk};
ghost use Rattle.capnp_relay_loop.specs.MessageAnswers.{each_segment_bytes};
ghost use Rattle.capnp_relay_loop.specs.declared.answer.Want.{Want};
ghost use Rattle.hagzimot_commands.specs.Copies.{CopiesWholeWords};

use capnp_relay_loop::answer::Want;
use capnp_units::errors::Error;
use capnp_units::segments::ReaderSegments;
use std::alloc::Global;

/// The most segments of a message.
const MOST_SEGMENTS: usize = 511;

/// A segment has fewer bytes than this, those of 2^29 words.
const SEGMENT_BYTES: usize = 8 * 0x2000_0000;

/// Appends a copy of the whole words of a segment to others. `OutOfMemory`: memory for it was
/// refused.
fn push_copy(alloc: Global, copies: &mut Vec<Vec<u8>>, bytes: &[u8]) -> Result<(), Error>
    ensures { OnOk result (each_segment_bytes copies.new
        ≡ each_segment_bytes copies.old ++ take (8 * (length bytes.now / 8)) bytes.now ∷ []) }
{
    let copy = bytes[..8 * (bytes.len() / 8)].to_vec(alloc)?;
    copies.push(copy)?;
    Ok(())
}

/// Copies the whole words of the segments of a message, in their order. `Size`: there are more than
/// 511 segments. `Memory`: memory for the copies was refused, or a segment has 2^29 words or more.
pub fn copy_segments<S: ReaderSegments>(alloc: Global, segments: &S) -> Result<Vec<Vec<u8>>, Want>
    ensures copies { IfOk result
        (λ copies. CopiesWholeWords (S.segments segments.now) (each_segment_bytes copies)) }
    ensures size { result ≡ Err Want.Size → 511 < length (S.segments segments.now) }
{
    let mut copies = Vec::new(alloc);
    let mut id = 0;
    while let Some(bytes) = segments.get_segment(id) {
        if copies.len() == MOST_SEGMENTS {
            return Err(Want::Size);
        }
        if bytes.len() >= SEGMENT_BYTES {
            return Err(Want::Memory);
        }
        push_copy(alloc, &mut copies, bytes)?;
        id += 1;
    }
    Ok(copies)
}
