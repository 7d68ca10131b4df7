//! The value of a message.

ghost use Rattle.std.specs.Prelude.{◌≡◌, ◌%◌, length, IsSome, IfOk, option_map};
ghost use Rattle.capnp_model.specs.Bytes.{bytes_of_words};
ghost use Rattle.capnp_model.specs.Decoding.{decode};
ghost use Rattle.capnp_units.specs.Segments.{whole_words, words_in};
ghost use Rattle.capnp_wire_canonical.specs.Writes.{words_view};
ghost use Rattle.capnp_stream.specs.Buffers.{found_segments};
ghost use Rattle.capnp_calls.specs.Frames.{one_frame};

use crate::copied::{MOST_LEVELS, MOST_WORDS, canonical_words};
use capnp_model::laws::texts_in_slices;
use capnp_stream::buffers::NoAllocSliceSegments;
use capnp_stream::slices::read_message_from_flat_slice_no_alloc;
use capnp_units::sizes::{Word, words_as_bytes};
use capnp_wire_canonical::laws::segments_of_words;
use capnp_wire_objects::arena::ReaderArenaImpl;
use std::alloc::{AllocError, Global};

/// Returns the segments of bytes that are one frame, with nothing after it.
fn one_frame<'a>(bytes: &'a [u8]) -> Option<NoAllocSliceSegments<'a>>
    ensures { option_map (λ s. words_in (found_segments s)) result ≡ one_frame bytes.now }
{
    texts_in_slices();
    let mut rest = bytes;
    match read_message_from_flat_slice_no_alloc(&mut rest, Some(MOST_WORDS)) {
        Ok(segments) if rest.is_empty() => Some(segments),
        _ => None,
    }
}

/// Returns a copy of the bytes of whole words.
fn copied(alloc: Global, bytes: &[u8]) -> Result<Vec<u8>, AllocError>
    requires { length bytes.now % 8 ≡ 0 }
    ensures { IfOk result (λ v. v.items ≡ bytes_of_words (whole_words bytes.now)) }
{
    bytes.to_vec(alloc)
}

/// Returns the bytes of words, the lowest byte of each first.
fn bytes_of_words(alloc: Global, words: &[Word]) -> Result<Vec<u8>, AllocError>
    ensures { IfOk result (λ v. v.items ≡ bytes_of_words (words_view words.now)) }
{
    segments_of_words(words);
    copied(alloc, words_as_bytes(words))
}

/// The value of a message, as the bytes of its canonical words.
#[derive(Debug, Drop)]
pub struct MessageValue {
    segment: Vec<u8>,
    pub ghost readable: { IsSome (decode segment.items) },
}

impl MessageValue {
    ghost use Rattle.std.specs.Prelude.{◌≡◌, IsSome, IfOk, OnErr, option_map};
    ghost use Rattle.capnp_calls.specs.Frames.{one_frame, value_in};
    ghost use Rattle.capnp_calls.specs.Messages.{tree_of_message};

    /// Returns the value of the bytes of one frame, with nothing after it. It returns `None` if
    /// - the bytes are not a frame, or the frame has more than 2^23 words;
    /// - the value has a capability or a malformed pointer;
    /// - the value has more than 64 levels, or costs more than 2^23 words to follow.
    ///
    /// The error is lack of memory; bytes that are not a frame take no memory.
    pub fn new(alloc: Global, bytes: &[u8]) -> Result<Option<MessageValue>, AllocError>
        ensures value { IfOk result (λ m. option_map tree_of_message m ≡ value_in bytes.now) }
        ensures wanted { OnErr result (IsSome (one_frame bytes.now)) }
    {
        let Some(segments) = one_frame(bytes) else {
            return Ok(None);
        };
        let arena = ReaderArenaImpl::new(segments, MOST_LEVELS as i32);
        match canonical_words(alloc, &arena)? {
            Some(words) => Ok(Some(MessageValue {
                segment: bytes_of_words(alloc, &words)?,
            })),
            None => Ok(None),
        }
    }

    /// Returns the bytes of the value's canonical words.
    pub fn segment(&self) -> &[u8]
        ensures { result.now ≡ self.now.segment.items }
    {
        &self.segment
    }
}
