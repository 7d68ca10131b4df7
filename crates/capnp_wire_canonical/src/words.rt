//! Words of a slice.
ghost use Rattle.std.specs.Prelude.{◌≡◌, ℕ, ◌+◌, ◌-◌, ◌*◌, ◌%◌, ◌≤◌, ◌<◌, ◌^◌, ◌++◌, List, length, get_or, set, min, MatchResult};
ghost use Rattle.std.specs.Bool.{OnTrue};
ghost use Rattle.capnp_model.specs.Encoding.{struct_pointer, list_pointer};
ghost use Rattle.capnp_units.specs.declared.kinds.ErrorKind.TheVariants.{BufferNotLargeEnough};
ghost use Rattle.capnp_model.specs.Sections.{words_for, words_of};
ghost use Rattle.capnp_wire_canonical.specs.Copies.{Behind};
ghost use Rattle.capnp_wire_canonical.specs.Writes.{words_view, filled};

use capnp_units::errors::{Error, Result};
use capnp_units::kinds::ErrorKind;
use capnp_units::limits::MOST_WORDS;
use capnp_units::sizes::Word;

/// Returns where n words end that come after those that are used. They are refused with
/// `BufferNotLargeEnough` exactly when the slice, or a message's 2^29 - 1 words, has no room for
/// them.
#[inline(always)]
pub(crate) fn end_of(into: &[Word], used: usize, words: usize) -> Result<usize>
    ensures { MatchResult
        result (λ end. (end ≡ used + words) × (end ≤ length into.now) × (end < 2 ^ 29)) (λ e.
        (e.kind ≡ BufferNotLargeEnough) × (min (length into.now) (2 ^ 29 - 1) < used + words)) }
{
    let room = into.len().min(MOST_WORDS as usize);
    if room < used || room - used < words {
        return Err(Error::from(ErrorKind::BufferNotLargeEnough));
    }
    Ok(used + words)
}

/// Returns whether the slice, and a message's 2^29 - 1 words, have room for n words after those
/// that are used.
#[inline(always)]
pub(crate) fn has_room(into: &[Word], used: usize, words: usize) -> bool
    requires { (used ≤ length into.now) × (used < 2 ^ 29) }
    ensures { OnTrue result ((used + words ≤ length into.now) × (used + words < 2 ^ 29)) }
{
    words <= into.len().min(MOST_WORDS as usize) - used
}

/// Puts a word at a place.
#[inline(always)]
pub(crate) fn put(into: &mut [Word], at: usize, word: u64)
    requires { at < length into.old }
    ensures words { words_view into.new ≡ set (words_view into.old) at word }
    ensures behind { Behind (at + 1) into.old into.new }
{
    into[at] = word.to_le_bytes();
}

/// Returns a struct pointer.
#[inline(always)]
pub(crate) fn pointer_to_struct(offset: u64, data_words: u64, pointers: u64) -> u64
    requires offset { offset < 2 ^ 30 }
    requires words { data_words < 2 ^ 16 }
    requires pointers { pointers < 2 ^ 16 }
    ensures { result ≡ struct_pointer offset data_words pointers }
{
    4 * offset + 0x1_0000_0000 * data_words + 0x1_0000_0000_0000 * pointers
}

/// Returns a list pointer.
#[inline(always)]
pub(crate) fn pointer_to_list(offset: u64, size: u64, count: u64) -> u64
    requires offset { offset < 2 ^ 30 }
    requires size { size < 8 }
    requires count { count < 2 ^ 29 }
    ensures { result ≡ list_pointer offset size count }
{
    1 + 4 * offset + 0x1_0000_0000 * size + 0x8_0000_0000 * count
}

/// Returns the word at a place.
#[inline(always)]
fn word_in(into: &[Word], at: usize) -> u64
    requires { at < length into.now }
    ensures { result ≡ get_or (words_view into.now) at 0 }
{
    u64::from_le_bytes(into[at])
}

/// Clears the bits after the first n in the words that end at a place.
#[inline(always)]
pub(crate) fn mask_last(into: &mut [Word], end: usize, bits: u64)
    requires end { end ≤ length into.old }
    requires some { words_for bits ≤ end }
    ensures words { (front : List ℕ) (section : ℕ)
        → filled end into.old ≡ front ++ words_of (words_for bits) section
        → filled end into.new ≡ front ++ words_of (words_for bits) (section % 2 ^ bits) }
    ensures behind { Behind end into.old into.new }
{
    let spare = bits % 64;
    if spare != 0 {
        let last = word_in(into, end - 1) % (1 << spare);
        put(into, end - 1, last);
    }
}
