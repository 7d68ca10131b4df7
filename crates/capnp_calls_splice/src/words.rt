//! The data words of a root, among the canonical words of a message.
ghost use Rattle.std.specs.Prelude.{◌≡◌, ℕ, ◌*◌, ◌^◌, ◌<◌, ◌≤◌, length, true, IfSome};
ghost use Rattle.capnp_model.specs.Sections.{needed_words};
ghost use Rattle.capnp_model.specs.Trees.{Tree};
ghost use Rattle.capnp_model.specs.Fits.{Fits};
ghost use Rattle.capnp_model.specs.Encoding.{canonical_words};
ghost use Rattle.capnp_wire_canonical.specs.Writes.{words_view};
ghost use Rattle.capnp_calls_splice.specs.DataWords.{put_set, put_sets, AreData, HasData, AreWordsAfter};

use crate::plain::PlainSet;
use capnp_copy_arenas::bits::word_with;
use capnp_units::sizes::Word;

/// Returns the number of data words of the root of these words; `None` if the root is null or not a
/// struct, or its data aren't among the words.
pub(crate) fn root_data_words(words: &[Word]) -> Option<usize>
    ensures count { (t : Tree) → Fits t → words_view words.now ≡ canonical_words t
        → IfSome result (λ n. HasData n t) }
    ensures inside { IfSome result (λ n. n < length words.now) }
{
    let root = u64::from_le_bytes(*words.first()?);
    let count = ((root >> 32) % 0x1_0000) as usize;
    if root == 0 || root % 4 != 0 || words.len() <= count {
        return None;
    }
    Some(count)
}

/// Writes a number into the words of a section; one of them is the number's.
pub(crate) fn put(slice: &mut [Word], set: PlainSet)
    requires { set.word < length slice.old }
    ensures words { (section : ℕ) → AreData slice.old section
        → AreData slice.new (put_set set section) }
    ensures len { length slice.new ≡ length slice.old }
{
    let at = set.word as usize;
    let word = word_with(
        u64::from_le_bytes(slice[at]),
        set.shift,
        set.width,
        set.bits,
    );
    slice[at] = word.to_le_bytes();
}

/// Writes numbers into the words of a section, one after the other, and returns whether each has a
/// word there. If a number has no word, the earlier numbers are written.
pub(crate) fn put_all(slice: &mut [Word], sets: &[PlainSet]) -> bool
    ensures words { (section : ℕ) → AreData slice.old section → result ≡ true
        → AreData slice.new (put_sets sets.now section) }
    ensures len { length slice.new ≡ length slice.old }
{
    for set in sets {
        if set.word as usize >= slice.len() {
            return false;
        }
        put(slice, *set);
    }
    true
}

/// Returns whether the last of a section's words isn't zero, if there is one.
pub(crate) fn ends_in_some(slice: &[Word]) -> bool
    ensures { (section : ℕ) → AreData slice.now section → result ≡ true
        → needed_words (length slice.now) section ≡ length slice.now }
{
    match slice.last() {
        Some(word) => u64::from_le_bytes(*word) != 0,
        None => true,
    }
}

/// Puts numbers into the data of a root whose message is these canonical words. It returns whether
/// they are the canonical words of what that makes, trimmed; where they aren't, some of the numbers
/// may be put.
pub fn put_in_root(words: &mut [Word], sets: &[PlainSet]) -> bool
    ensures words { (t : Tree) → result ≡ true → Fits t → words_view words.old ≡ canonical_words t
        → AreWordsAfter sets.now t (words_view words.new) }
    ensures len { length words.new ≡ length words.old }
{
    let Some(count) = root_data_words(words) else {
        return false;
    };
    let slice = &mut words[1..1 + count];
    put_all(slice, sets) && ends_in_some(slice)
}
