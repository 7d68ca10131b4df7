//! Canonical messages, in lent memory.
ghost use Rattle.std.specs.Prelude.{◌≡◌, ◌≢◌, true, false, length, Ok, Err, IfOk};
ghost use Rattle.capnp_model.specs.Segments.{Segments};
ghost use Rattle.capnp_model.specs.Canonical.{is_canonical_message};
ghost use Rattle.capnp_units.specs.declared.kinds.ErrorKind.TheVariants.{BufferNotLargeEnough};
ghost use Rattle.capnp_wire_canonical.specs.Writes.{filled};
ghost use Rattle.hagzimot_in_process.specs.Frames.{BeginsWith, BeginsWithNone, IsCanonicalForm, IsNotCanonical, IsBeyond, HasNoForm, HasNoRoom};
ghost use Rattle.hagzimot_in_process.specs.declared.frames.FrameFault.{FrameFault};

use capnp_model::laws::values_on_walks;
use capnp_stream::slices::read_message_from_flat_slice_no_alloc;
use capnp_units::kinds::ErrorKind;
use capnp_units::limiter::ReadLimiter;
use capnp_units::sizes::Word;
use capnp_wire_canonical::check::is_canonical_message;
use capnp_wire_canonical::copy::write_canonical;
use capnp_wire_canonical::laws::copies_as_walks;
use capnp_wire_objects::arena::ReaderArenaImpl;
use capnp_wire_objects::place::ROOT;

/// The number of values of a half of a word.
const HALF: u64 = 0x1_0000_0000;

/// The limits of following a message.
#[derive(Clone, Copy, Debug, PartialEq, Eq)]
pub struct Limits {
    /// The most words of the message, and the most that following it may cost.
    pub words: u32,
    /// The most levels of pointers.
    pub levels: u32,
}

/// The reason for which a message has no canonical form, or can't be looked at.
#[derive(Clone, Copy, Debug, PartialEq, Eq)]
pub enum FrameFault {
    /// The input doesn't begin with a message within the limit of words.
    Framing,
    /// The message has no value within the limits, or one with a capability.
    Value,
    /// The memory is too short for the canonical form.
    Room,
}

/// Returns the fault of a copy that was refused with this kind.
fn copy_fault(kind: ErrorKind) -> FrameFault
    ensures room { result ≡ FrameFault.Room → kind ≡ BufferNotLargeEnough }
    ensures value { result ≡ FrameFault.Value → kind ≢ BufferNotLargeEnough }
    ensures framing { result ≢ FrameFault.Framing }
{
    match kind {
        ErrorKind::BufferNotLargeEnough => FrameFault::Room,
        _ => FrameFault::Value,
    }
}

/// Writes the canonical form of the framed message at the front of the input, and returns the
/// number of its words: one for the table, and those of the one segment. It takes no memory.
pub fn canonical(input: &[u8], limits: Limits, out: &mut [Word]) -> Result<usize, FrameFault>
    ensures form { IfOk result
        (λ count. IsCanonicalForm limits input.now (filled count out.new)) }
    ensures none { result ≡ Err FrameFault.Framing → BeginsWithNone limits.words input.now }
    ensures value { result ≡ Err FrameFault.Value → HasNoForm limits input.now }
    ensures room { result ≡ Err FrameFault.Room →
        HasNoRoom limits input.now (length out.old) }
{
    values_on_walks();
    copies_as_walks();
    let mut rest = input;
    let words = limits.words as usize;
    let Ok(message) = read_message_from_flat_slice_no_alloc(&mut rest, Some(words)) else {
        return Err(FrameFault::Framing);
    };
    let arena = ReaderArenaImpl::new(message, i32::MAX);
    let mut limiter = ReadLimiter::new(Some(limits.words as u64));
    let Some((head, into)) = out.split_first_mut() else {
        return Err(FrameFault::Room);
    };
    match write_canonical(&arena, &mut limiter, ROOT, limits.levels, into) {
        Ok(count) => {
            *head = (count as u64 * HALF).to_le_bytes();
            Ok(count + 1)
        }
        Err(e) => Err(copy_fault(e.kind)),
    }
}

/// Returns whether the framed message at the front of the input is canonical. It takes no memory.
pub fn is_canonical(input: &[u8], limits: Limits) -> Result<bool, FrameFault>
    ensures yes { result ≡ Ok true → (s : Segments) × BeginsWith limits.words input.now s
        × (is_canonical_message limits.levels s ≡ true) }
    ensures no { result ≡ Ok false → IsNotCanonical limits input.now }
    ensures none { result ≡ Err FrameFault.Framing → BeginsWithNone limits.words input.now }
    ensures value { result ≡ Err FrameFault.Value → IsBeyond limits input.now }
{
    values_on_walks();
    let mut rest = input;
    let words = limits.words as usize;
    let Ok(message) = read_message_from_flat_slice_no_alloc(&mut rest, Some(words)) else {
        return Err(FrameFault::Framing);
    };
    let arena = ReaderArenaImpl::new(message, i32::MAX);
    let mut limiter = ReadLimiter::new(Some(limits.words as u64));
    match is_canonical_message(&arena, &mut limiter, limits.levels) {
        Ok(answer) => Ok(answer),
        Err(_) => Err(FrameFault::Value),
    }
}
