//! The next message in bytes that may be anything.
ghost use Rattle.std.specs.Prelude.{◌≡◌, ◌≤◌, ◌<◌, ◌*◌, ◌%◌, ℕ, true, false, Some, Ok, length, drop, option_copied, IsErr, IfOk, IfErr, IfSome, IfNone};
ghost use Rattle.capnp_model.specs.Segments.{Segments};
ghost use Rattle.capnp_model.specs.Messages.{frame_at};
ghost use Rattle.capnp_units.specs.declared.kinds.ErrorKind.{ErrorKind};
ghost use Rattle.hagzimot_salvage.specs.Frames.{has_zero_padding, behind_frame, is_plausible, is_settled, IsNext};

use crate::roots::{SalvageLimits, has_root};
use capnp_model::laws::{texts_in_slices, texts_of_messages};
use capnp_stream::buffers::NoAllocBufferSegments;
use capnp_units::errors::Result;
use capnp_units::segments::ReaderSegments;
use capnp_wire_objects::place::word_in;
use std::alloc::Global;

/// The number of values of a half of a word.
const HALF: u64 = 1 << 32;

/// Returns the number of bytes of the framed message at the front of the bytes, if they begin with
/// one of at most `limit` words.
pub fn frame_len(bytes: &[u8], limit: usize) -> Option<usize>
    ensures message { IfSome result (λ n. (s : Segments)
        × (frame_at (Some limit) bytes.now ≡ Ok (s, drop n bytes.now))) }
    ensures some { IfSome result (λ n. (0 < n) × (n ≤ length bytes.now)) }
    ensures none { IfNone result (IsErr (frame_at (Some limit) bytes.now)) }
{
    texts_in_slices();
    texts_of_messages();
    let mut rest = bytes;
    match NoAllocBufferSegments::from_slice(&mut rest, Some(limit)) {
        Ok(_) => Some(bytes.len() - rest.len()),
        Err(_) => None,
    }
}

/// Returns whether the half word that follows an even number of lengths in a table is zero.
fn has_zero_padding(bytes: &[u8], count: usize) -> bool
    ensures { result ≡ has_zero_padding count bytes.now }
{
    if count % 2 == 1 {
        return true;
    }
    match word_in(bytes, count / 2) {
        Some(word) => word / HALF == 0,
        None => false,
    }
}

/// Returns the bytes after the message at the front of the bytes, if they begin with one whose
/// padding is zero and which has a root.
fn behind_frame(alloc: Global, bytes: &[u8], limits: SalvageLimits) -> Result<Option<&[u8]>>
    ensures rest { IfOk result (λ o. option_copied o ≡ behind_frame limits bytes.now) }
    ensures refusal { IfErr result (λ e. e.kind ≡ ErrorKind.OutOfMemory) }
{
    texts_in_slices();
    let mut rest = bytes;
    let message = match NoAllocBufferSegments::from_slice(&mut rest, Some(limits.message_words)) {
        Ok(message) => message,
        Err(_) => return Ok(None),
    };
    if !has_zero_padding(bytes, message.len()) {
        return Ok(None);
    }
    let segments = message.to_slice_segments(alloc)?;
    let words = bytes.len().saturating_sub(rest.len()) / 8;
    if !has_root(segments, words, limits) {
        return Ok(None);
    }
    Ok(Some(rest))
}

/// Returns whether the bytes begin with a message that has a root, and nothing or another such
/// message follows it. (Encoding, "Serialization Over a Stream")
///
/// It takes a step for each pointer that it follows, at most `2 * root_words + 2`, and two for each
/// segment of two messages, at most 2044. `OutOfMemory`: the memory for the places of a message's
/// segments was refused, 16 bytes each.
#[tactic(auto, unfolding(crate::specs::Frames::is_plausible))]
pub fn is_plausible(alloc: Global, bytes: &[u8], limits: SalvageLimits) -> Result<bool>
    ensures answer { IfOk result (λ b. b ≡ is_plausible limits bytes.now) }
    ensures refusal { IfErr result (λ e. e.kind ≡ ErrorKind.OutOfMemory) }
{
    let rest = match behind_frame(alloc, bytes, limits)? {
        Some(rest) => rest,
        None => return Ok(false),
    };
    if rest.is_empty() {
        return Ok(true);
    }
    let behind = behind_frame(alloc, rest, limits)?;
    Ok(behind.is_some())
}

/// Returns whether a message of n bytes at the front of the bytes is settled: it has a root, or
/// nothing or a message with a root follows it.
#[tactic(auto, unfolding(crate::specs::Frames::is_settled))]
fn is_settled(alloc: Global, bytes: &[u8], len: usize, limits: SalvageLimits) -> Result<bool>
    requires frame { (s : Segments)
        × (frame_at (Some limits.message_words) bytes.now ≡ Ok (s, drop len bytes.now)) }
    requires within { len ≤ length bytes.now }
    ensures answer { IfOk result (λ b. b ≡ is_settled limits bytes.now) }
    ensures refusal { IfErr result (λ e. e.kind ≡ ErrorKind.OutOfMemory) }
{
    let own = behind_frame(alloc, bytes, limits)?;
    if own.is_some() {
        return Ok(true);
    }
    let rest = &bytes[len..];
    if rest.is_empty() {
        return Ok(true);
    }
    let next = behind_frame(alloc, rest, limits)?;
    Ok(next.is_some())
}

/// Returns the number of bytes of the message at the front of the bytes, if they begin with one
/// that is settled. `OutOfMemory`: memory was refused, as in `is_plausible`.
pub fn settled_len(alloc: Global, bytes: &[u8], limits: SalvageLimits) -> Result<Option<usize>>
    ensures message { IfOk result (λ o. IfSome o (λ n. (s : Segments)
        × (frame_at (Some limits.message_words) bytes.now ≡ Ok (s, drop n bytes.now)))) }
    ensures settled { IfOk result (λ o. IfSome o (λ n. is_settled limits bytes.now ≡ true)) }
    ensures some { IfOk result (λ o. IfSome o (λ n. (0 < n) × (n ≤ length bytes.now))) }
    ensures none { IfOk result (λ o. IfNone o (is_settled limits bytes.now ≡ false)) }
    ensures refusal { IfErr result (λ e. e.kind ≡ ErrorKind.OutOfMemory) }
{
    let Some(len) = frame_len(bytes, limits.message_words) else {
        return Ok(None);
    };
    if !is_settled(alloc, bytes, len, limits)? {
        return Ok(None);
    }
    Ok(Some(len))
}

/// Returns the first byte after `from`, at a multiple of eight, that a plausible message begins at.
///
/// It tries each word once, so its time grows with the length of the bytes only. `OutOfMemory`:
/// memory was refused, as in `is_plausible`.
pub fn next_frame(
    alloc: Global,
    bytes: &[u8],
    from: usize,
    limits: SalvageLimits,
) -> Result<Option<usize>>
    requires { from < length bytes.now }
    ensures next { IfOk result (IsNext limits bytes.now from) }
    ensures refusal { IfErr result (λ e. e.kind ≡ ErrorKind.OutOfMemory) }
{
    let words = (bytes.len() + 7) / 8;
    for word in from / 8 + 1..words {
        let at = 8 * word;
        if is_plausible(alloc, &bytes[at..], limits)? {
            return Ok(Some(at));
        }
    }
    Ok(None)
}
