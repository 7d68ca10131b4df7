//! The message at the front of bytes.
ghost use Rattle.std.specs.Prelude.{◌≡◌, ℕ, true, false, List, Ok, Err, IfOk, IfErr};
ghost use Rattle.capnp_units.specs.Errors.{kind_of};
ghost use Rattle.capnp_units.specs.declared.kinds.ErrorKind.{ErrorKind};
ghost use Rattle.capnp_units.specs.Segments.{words_in};
ghost use Rattle.capnp_stream.specs.Buffers.{found_segments};
ghost use Rattle.capnp_relay_show.specs.Showing.{first_message};
ghost use Rattle.capnp_relay_show.specs.Streams.{streamed};

use capnp_message::message::{Reader, ReaderOptions};
use capnp_message::serialize::{NoAllocSliceSegments, read_message_from_flat_slice_no_alloc};
use capnp_model::laws::texts_in_slices;
use capnp_units::errors::{Error, Result};
use capnp_units::kinds::ErrorKind;

/// Returns the kind with which a stream of bytes is refused, if a slice of them is refused with
/// this kind.
fn stream_kind(is_empty: bool, kind: ErrorKind) -> ErrorKind
    ensures empty { is_empty ≡ true → result ≡ ErrorKind.PrematureEndOfFile }
    ensures some { is_empty ≡ false → kind_of result ≡ streamed (kind_of kind) }
{
    if is_empty {
        return ErrorKind::PrematureEndOfFile;
    }
    match kind {
        ErrorKind::MessageEndsPrematurely => ErrorKind::FailedToFillTheWholeBuffer,
        other => other,
    }
}

/// Returns the framed message at the front of bytes, lent in place. It is refused with the kind of
/// the first part that can't be read, like a message from a stream of the bytes.
pub(crate) fn first_message<'a>(
    bytes: &'a [u8],
    options: ReaderOptions,
) -> Result<Reader<NoAllocSliceSegments<'a>>>
    ensures message { IfOk result (λ m. (rest : List ℕ)
        × (first_message options.traversal_limit_in_words bytes.now
        ≡ Ok (words_in (found_segments m.segments), rest))) }
    ensures options { IfOk result (λ m. m.options ≡ options) }
    ensures refused { IfErr result (λ e.
        first_message options.traversal_limit_in_words bytes.now ≡ Err (kind_of e.kind)) }
{
    texts_in_slices();
    let mut left = bytes;
    match read_message_from_flat_slice_no_alloc(&mut left, options) {
        Ok(message) => Ok(message),
        Err(e) => Err(Error::from(stream_kind(bytes.is_empty(), e.kind))),
    }
}
