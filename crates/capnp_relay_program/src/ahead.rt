//! Tests whether a message is present as a whole before it is read.
ghost use Rattle.std.specs.Prelude.{◌≡◌, ℕ, Option, List, [], ◌∷◌, ◌*◌, ◌%◌, ◌^◌, ◌<◌, ◌≤◌, length, sum, Ok, IsTrue};
ghost use Rattle.capnp_units.specs.Segments.{whole_words};
ghost use Rattle.capnp_model.specs.Messages.{halves, behind_first, message_at};
ghost use Rattle.capnp_stream.specs.Pieces.{EndsEarly};
ghost use Rattle.capnp_relay_program.specs.Ahead.{SplitsFirstWord};

use capnp_stream::forms::{Framed, MessageForm};
use capnp_stream_packed::form::Packed;

/// The number of words of a table that are looked at after its first: those of a message of at most
/// 31 segments.
const OTHER_WORDS: usize = 15;

/// The number of values of a half of a word.
const HALF: u64 = 1 << 32;

/// A form of messages with a bound of the bytes that words take.
pub trait BoundedForm: MessageForm {
    /// The most bytes that a word takes.
    ghost MOST_BYTES: { ℕ };

    /// The most bytes that a word takes.
    const MOST_BYTES: usize;

    /// A word takes at least one byte.
    ghost some: { 0 < MOST_BYTES };

    /// Returns the word that a reader reads from the front of the bytes, and the later bytes;
    /// `None` if the reader reads no word there.
    fn split_first_word(bytes: &[u8]) -> Option<(u64, &[u8])>
        ensures { SplitsFirstWord Self.reader bytes.now result };

    /// For no words no bytes are read.
    ghost none: { (bytes : List ℕ) → Self.reader 0 bytes ≡ Ok ([], bytes) };

    /// Pieces don't end early in n bytes for each of their words.
    ghost enough: { (n : ℕ) (bytes : List ℕ) → MOST_BYTES * n ≤ length bytes
        → EndsEarly (Self.reader n bytes) → ⊥ };
}

impl BoundedForm for Framed {
    ghost use Rattle.capnp_relay_program.specs.Enough.{plain_words_enough, plain_words_none, some_plain};

    ghost MOST_BYTES = { 8 };

    const MOST_BYTES: usize = 8;

    ghost some = { some_plain };

    #[inline(always)]
    fn split_first_word(bytes: &[u8]) -> Option<(u64, &[u8])> {
        match bytes.split_first_chunk::<8>() {
            Some((word, behind)) => Some((u64::from_le_bytes(*word), behind)),
            None => None,
        }
    }

    ghost none = { plain_words_none };

    ghost enough = { plain_words_enough };
}

/// A group has at most a tag, eight bytes and a count.
impl BoundedForm for Packed {
    ghost use Rattle.capnp_relay_program.specs.Enough.{unpacked_enough, unpacked_none, some_packed};

    ghost MOST_BYTES = { 10 };

    const MOST_BYTES: usize = 10;

    ghost some = { some_packed };

    fn split_first_word(bytes: &[u8]) -> Option<(u64, &[u8])> {
        read_first_word::<Packed>(bytes)
    }

    ghost none = { unpacked_none };

    ghost enough = { unpacked_enough };
}

/// Returns the word at the front of the bytes, read as a piece, and the later bytes; `None` if no
/// word is read there.
fn read_first_word<F: MessageForm>(bytes: &[u8]) -> Option<(u64, &[u8])>
    ensures { SplitsFirstWord F.reader bytes.now result }
{
    let mut behind = bytes;
    let mut word = [0u8; 8];
    match F::read_piece(&mut behind, &mut word) {
        Ok(()) => Some((u64::from_le_bytes(word), behind)),
        Err(_) => None,
    }
}

/// Returns the sum of the numbers in the halves of a table's words.
fn sum_of_halves(table: &[u8]) -> u64
    requires whole { length table.now % 8 ≡ 0 }
    requires few { length table.now ≤ 8 * 15 }
    ensures sum { result ≡ sum (halves (whole_words table.now)) }
    ensures bound { result ≤ 30 * 2 ^ 32 }
{
    let mut sum: u64 = 0;
    let mut left = table;
    while let Some((word, behind)) = left.split_first_chunk::<8>() {
        let word = u64::from_le_bytes(*word);
        sum += word % HALF + word / HALF;
        left = behind;
    }
    sum
}

/// Returns whether n words, and any fewer, or their fault, can be read from these bytes only. If
/// this can't be found cheaply, it returns false.
fn holds_words<F: BoundedForm>(bytes: &[u8], words: u64) -> bool
    ensures { IsTrue result → (n : ℕ) → n ≤ words → EndsEarly (F.reader n bytes.now) → ⊥ }
{
    words <= (bytes.len() / F::MOST_BYTES) as u64
}

/// Does the test of `holds_behind` for the bytes after the first word of a message of more than
/// three segments. For more than 31 segments it returns false.
#[inline(never)]
fn holds_behind_table<F: BoundedForm>(first: u64, bytes: &[u8]) -> bool
    ensures { IsTrue result → (limit : Option ℕ) → EndsEarly
        (behind_first F.reader F.reader limit (halves (first ∷ [])) bytes.now) → ⊥ }
{
    let others_len = (first % HALF).div_ceil(2) as usize;
    if others_len > OTHER_WORDS {
        return false;
    }
    let mut left = bytes;
    let mut others = [0u8; 8 * OTHER_WORDS];
    let (others, _) = others.split_at_mut(8 * others_len);
    let Ok(()) = F::read_piece(&mut left, others) else {
        return false;
    };
    holds_words::<F>(left, first / HALF + sum_of_halves(others))
}

/// Returns whether the rest of a message after its first word, or its fault, can be read from these
/// bytes only.
#[inline(always)]
fn holds_behind<F: BoundedForm>(first: u64, bytes: &[u8]) -> bool
    ensures { IsTrue result → (limit : Option ℕ) → EndsEarly
        (behind_first F.reader F.reader limit (halves (first ∷ [])) bytes.now) → ⊥ }
{
    let others = first % HALF;
    if others == 0 {
        return holds_words::<F>(bytes, first / HALF);
    }
    if others > 2 {
        return holds_behind_table::<F>(first, bytes);
    }
    match F::split_first_word(bytes) {
        Some((second, left)) => {
            holds_words::<F>(left, first / HALF + second % HALF + second / HALF)
        }
        None => false,
    }
}

/// Returns whether the next message, or its fault, can be read from these bytes only. If this can't
/// be found cheaply, it returns false.
#[inline(always)]
pub(crate) fn holds_next<F: BoundedForm>(bytes: &[u8]) -> bool
    ensures { IsTrue result → (limit : Option ℕ)
        → EndsEarly (message_at F.reader limit bytes.now) → ⊥ }
{
    match F::split_first_word(bytes) {
        Some((first, behind)) => holds_behind::<F>(first, behind),
        None => false,
    }
}
