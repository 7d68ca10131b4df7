//! The canonical words of a message's value, within the default limits of readers.
ghost use Rattle.std.specs.Prelude.{◌≡◌, ◌^◌, ◌≤◌, length, option_map, IfOk, OnErr};
ghost use Rattle.capnp_units.specs.Segments.{words_in};
ghost use Rattle.capnp_wire_canonical.specs.Writes.{filled, words_view};
ghost use Rattle.capnp_calls.specs.Copied.{canonical_words_in};

use capnp_model::laws::values_on_walks;
use capnp_units::errors::Error;
use capnp_units::kinds::ErrorKind;
use capnp_units::limiter::ReadLimiter;
use capnp_units::sizes::Word;
use capnp_wire_canonical::copy::write_canonical;
use capnp_wire_canonical::laws::copies_as_walks;
use capnp_wire_objects::arena::ReaderArena;
use capnp_wire_objects::place::ROOT;
use std::alloc::{AllocError, Global};

/// The most words that following a message may cost: those of the default reader options.
pub(crate) const MOST_WORDS: usize = 8_388_608;

/// The most levels of pointers of a message: those of the default reader options.
pub(crate) const MOST_LEVELS: u32 = 64;

/// Writes the canonical words of a message's value to the front of a slice, and returns their
/// number, or `None` if the message has no value within the limits, or a value with a capability.
///
/// It is refused with `BufferNotLargeEnough` if the slice has no room for them, which can only
/// happen if the slice has at most 2^23 words.
fn write_words<A: ReaderArena>(arena: &A, into: &mut [Word]) -> Result<Option<usize>, Error>
    ensures words { IfOk result (λ count. option_map (λ n. filled n into.new) count
        ≡ canonical_words_in (words_in (A.segments arena.now))) }
    ensures short { OnErr result (length into.old ≤ 2 ^ 23) }
{
    values_on_walks();
    copies_as_walks();
    let mut limiter = ReadLimiter::new(Some(MOST_WORDS as u64));
    match write_canonical(arena, &mut limiter, ROOT, MOST_LEVELS, into) {
        Ok(count) => Ok(Some(count)),
        Err(e) => match e.kind {
            ErrorKind::BufferNotLargeEnough => Err(e),
            _ => Ok(None),
        },
    }
}

/// Returns the first n words, if there is a number.
fn front(mut words: Vec<Word>, count: Option<usize>) -> Option<Vec<Word>>
    ensures { option_map (λ w. words_view w.items) result
        ≡ option_map (λ n. filled n words.items) count }
{
    match count {
        Some(count) => {
            words.truncate(count);
            Some(words)
        }
        None => None,
    }
}

/// Returns the canonical words of a message's value; `None` if the message has no value within the
/// limits, or a value with a capability.
///
/// They are written into a buffer as long as the message. If there are more words, because pointers
/// share words, they are written into a buffer of 2^23 + 1 words.
pub(crate) fn canonical_words<A: ReaderArena>(
    alloc: Global,
    arena: &A,
) -> Result<Option<Vec<Word>>, AllocError>
    ensures { IfOk result (λ words. option_map (λ w. words_view w.items) words
        ≡ canonical_words_in (words_in (A.segments arena.now))) }
{
    let most = MOST_WORDS + 1;
    let room = arena.size_in_words().min(most);
    let mut words = vec![in alloc; [0u8; 8]; room]?;
    if let Ok(count) = write_words(arena, words.as_mut_slice()) {
        return Ok(front(words, count));
    }
    words.resize(most, [0u8; 8])?;
    let Ok(count) = write_words(arena, words.as_mut_slice()) else {
        unreachable!()
    };
    Ok(front(words, count))
}
