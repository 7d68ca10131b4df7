//! The canonical words of the value of a message.
ghost use Rattle.std.specs.Prelude.{◌≡◌, ◌≤◌, ◌<◌, ◌/◌, true, [], ◌∷◌, ◌++◌, IfOk, OnOk, length, drop};
ghost use Rattle.std.specs.Bool.{OnTrue};
ghost use Rattle.capnp_model.specs.Encoding.{canonical_words};
ghost use Rattle.capnp_model.specs.Trees.{Tree};
ghost use Rattle.capnp_units.specs.Segments.{whole_words, words_in};
ghost use Rattle.capnp_wire_canonical.specs.Writes.{filled};
ghost use Rattle.capnp_relay_answers.specs.Reading.{ReadsWithinBounds, StandsCanonical, can_be_opened};

use crate::bounds::Bounds;
use crate::near::{OneSegment, only_segment};
use crate::several::NearSegments;
use capnp_model::laws::{canonical_tests, trimmed_values, values_on_walks, values_that_are_read};
use capnp_units::errors::{Error, Result};
use capnp_units::kinds::ErrorKind;
use capnp_units::limiter::ReadLimiter;
use capnp_units::sizes::Word;
use capnp_wire_canonical::check::is_canonical_message;
use capnp_wire_canonical::copy::write_canonical;
use capnp_wire_canonical::laws::copies_as_walks;
use capnp_wire_objects::arena::ReaderArena;
use capnp_wire_objects::place::ROOT;

/// The bound of a message's words: a message has fewer, because a pointer's offset reaches no
/// further.
const MESSAGE_WORDS: usize = 0x2000_0000;

/// The most levels of pointers that are followed in a value, whatever the bounds allow, because
/// each walk takes stack for each level. Measured in LLVM's builds, a level takes 200 bytes in
/// nested structs, and 820 in lists of structs with far pointers. So these levels fit into 1 MiB. A
/// `get` takes 850 bytes for each struct, list and group that it prints.
pub(crate) const STACK_LEVELS: u32 = 1024;

/// The number of words that a growing buffer gets beyond those that are requested. So a struct that
/// gets wider by a write, or a text that gets longer, mostly needs no allocation of its own.
const SPARE_WORDS: usize = 16;

/// Gives the buffer n words, and some more. `OutOfMemory`: it can't grow.
#[inline(never)]
fn grow(words: &mut Vec<Word>, count: usize) -> Result<()>
    ensures { OnOk result (count ≤ length words.new.items) }
{
    words.resize(count.saturating_add(SPARE_WORDS), [0u8; 8])?;
    Ok(())
}

/// Gives the buffer at least n words. `OutOfMemory`: it can't grow.
#[inline(always)]
pub(crate) fn make_room(words: &mut Vec<Word>, count: usize) -> Result<()>
    ensures { OnOk result (count ≤ length words.new.items) }
{
    if words.len() < count {
        return grow(words, count);
    }
    Ok(())
}

/// Writes the canonical words of a message's value into a buffer, and returns their number. `None`
/// if the message has no value within the bounds, or a value with a capability.
///
/// It is refused
/// - with `BufferNotLargeEnough` if the buffer has no room for them;
/// - with `NestingLimitExceeded` if the bounds allow more levels than `STACK_LEVELS`, and an object
///   below those is met before any other fault.
fn read_canonical<M: ReaderArena>(
    message: &M,
    bounds: Bounds,
    words: &mut Vec<Word>,
) -> Result<Option<usize>>
    ensures { IfOk result (ReadsWithinBounds bounds (words_in (M.segments message.now))
        words.new.items) }
{
    values_that_are_read();
    values_on_walks();
    trimmed_values();
    copies_as_walks();
    let mut limiter = ReadLimiter::new(Some(bounds.words as u64));
    let levels = bounds.nesting.min(STACK_LEVELS);
    let into = words.as_mut_slice();
    match write_canonical(message, &mut limiter, ROOT, levels, into) {
        Ok(count) => Ok(Some(count)),
        Err(e) => match e.kind {
            ErrorKind::BufferNotLargeEnough => Err(e),
            ErrorKind::NestingLimitExceeded => {
                if levels < bounds.nesting {
                    return Err(e);
                }
                Ok(None)
            }
            _ => Ok(None),
        },
    }
}

/// Writes the canonical words of a message's value into a buffer, which grows if they don't fit,
/// and returns their number. `None` if the message has no value within the bounds, or a value with
/// a capability.
///
/// The buffer first gets room for as many words as the message. If its pointers share words, its
/// canonical words may be more; then the buffer gets one word more than the bounds allow, and the
/// walk begins again. It is refused
/// - with `OutOfMemory` if the buffer can't grow;
/// - with `BufferNotLargeEnough` if the canonical words are 2^29 or more;
/// - with `NestingLimitExceeded` like `read_canonical`.
#[inline(never)]
fn write_value<M: ReaderArena>(
    message: &M,
    bounds: Bounds,
    words: &mut Vec<Word>,
) -> Result<Option<usize>>
    ensures { IfOk result (ReadsWithinBounds bounds (words_in (M.segments message.now))
        words.new.items) }
{
    make_room(words, message.size_in_words())?;
    match read_canonical(message, bounds, words) {
        Err(e) if e.kind == ErrorKind::BufferNotLargeEnough => {}
        read => return read,
    }
    make_room(words, bounds.words as usize + 1)?;
    read_canonical(message, bounds, words)
}

/// Returns whether the words of a message of one segment are the canonical words of its value, and
/// fewer than 2^29. Then the value is within the bounds and `STACK_LEVELS` and has no capability.
/// The words are looked at up to the first that differs.
#[inline(always)]
fn stands_canonical(message: &OneSegment<'_>, bounds: Bounds) -> bool
    ensures { OnTrue result (StandsCanonical bounds (words_in (message.now.bytes.now ∷ []))) }
{
    values_that_are_read();
    values_on_walks();
    trimmed_values();
    copies_as_walks();
    canonical_tests();
    if message.bytes.len() / 8 >= MESSAGE_WORDS {
        return false;
    }
    let mut limiter = ReadLimiter::new(Some(bounds.words as u64));
    match is_canonical_message(message, &mut limiter, bounds.nesting.min(STACK_LEVELS)) {
        Ok(stands) => stands,
        Err(_) => false,
    }
}

/// Copies words to the front of a buffer.
#[inline]
fn lay_front(into: &mut [Word], row: &[Word])
    requires { length row.now ≤ length into.old }
    ensures { into.new ≡ row.now ++ drop (length row.now) into.old }
{
    into[..row.len()].copy_from_slice(row);
}

/// Copies the words of a segment to the front of a buffer, which grows if they don't fit, and
/// returns their number.
#[inline(always)]
pub(crate) fn copy_segment(bytes: &[u8], words: &mut Vec<Word>) -> Result<usize>
    ensures words { IfOk result (λ count. filled count words.new.items ≡ whole_words bytes.now) }
    ensures count { IfOk result
        (λ count. (count ≡ length bytes.now / 8) × (count ≤ length words.new.items)) }
{
    let (whole, _) = bytes.as_chunks::<8>();
    make_room(words, whole.len())?;
    lay_front(words.as_mut_slice(), whole);
    Ok(whole.len())
}

/// Does what `write_value` does, for a message of this one segment: if its words are canonical
/// already, they are copied unchanged.
#[inline(always)]
fn read_segment(bytes: &[u8], bounds: Bounds, words: &mut Vec<Word>) -> Result<Option<usize>>
    ensures { IfOk result (ReadsWithinBounds bounds (words_in (bytes.now ∷ [])) words.new.items) }
{
    let message = OneSegment { bytes };
    if !stands_canonical(&message, bounds) {
        return write_value(&message, bounds, words);
    }
    let count = copy_segment(bytes, words)?;
    Ok(Some(count))
}

/// Does what `write_value` does. A message of one segment is read only by its bytes, and copied if
/// its words are canonical already. For several segments the first are looked up once.
#[inline(always)]
pub(crate) fn read_value<M: ReaderArena>(
    message: &M,
    bounds: Bounds,
    words: &mut Vec<Word>,
) -> Result<Option<usize>>
    ensures { IfOk result (ReadsWithinBounds bounds (words_in (M.segments message.now))
        words.new.items) }
{
    match only_segment(message) {
        Some(bytes) => read_segment(bytes, bounds, words),
        None => write_value(&NearSegments::new(message), bounds, words),
    }
}

/// Returns whether the value whose n words are at the front of a buffer is a struct or null.
#[inline]
pub(crate) fn can_be_opened(words: &[Word], count: usize) -> bool
    requires { (0 < count) × (count ≤ length words.now) }
    ensures { (t : Tree) → filled count words.now ≡ canonical_words t → result ≡ can_be_opened t }
{
    u64::from_le_bytes(words[0]) % 4 == 0
}
