//! Pointers among canonical words.
ghost use Rattle.std.specs.Prelude.{◌≡◌, ℕ, ◌+◌, ◌*◌, ◌/◌, ◌%◌, ◌^◌, ◌<◌, ◌≤◌, [], length, map, true, max, IfOk, IfErr, IfSome, MatchOption};
ghost use Rattle.capnp_model.specs.Trees.{Tree, Trees, tree_count, size_bits, depths};
ghost use Rattle.capnp_model.specs.Fits.{Fits, FitEach};
ghost use Rattle.capnp_model.specs.Encoding.{pointer, list_pointer, body, links, bodies};
ghost use Rattle.capnp_wire_canonical.specs.Writes.{words_view};
ghost use Rattle.capnp_calls_splice.specs.declared.area.Unput.{Unput};
ghost use Rattle.capnp_calls_splice.specs.Splices.{IsPlainList, TakesBlob, IsElement};
ghost use Rattle.capnp_calls_splice.specs.Cells.{IsStructWith, IsSizedStruct, IsPointerList, FitsInOffsets, AreLinks, IsEnd, is_fixed, shifted};

use crate::area::{Area, Run, Unput};
use crate::plain::PlainSet;
use capnp_units::sizes::Word;

/// The pointer to an empty struct, which is at the pointer itself.
const EMPTY: u64 = 0xffff_fffc;

/// Returns the number of words between a pointer and its object.
#[inline(always)]
pub(crate) fn gap_of(word: u64) -> usize
    ensures { result ≡ word / 4 % 2 ^ 30 }
{
    ((word >> 2) % 0x4000_0000) as usize
}

/// Returns the struct that a pointer leads to; the pointer's word ends at `end`. `Place` if the
/// pointer doesn't lead to a struct, leads to an empty one, or leads past n words.
#[inline]
pub(crate) fn struct_behind(word: u64, end: usize, count: usize) -> Result<Area, Unput>
    requires { (end ≤ count) × (count < 2 ^ 29) }
    ensures behind { (gap : ℕ) (t : Tree) → Fits t → gap < 2 ^ 30 → word ≡ pointer gap t
        → IfOk result (λ a. IsSizedStruct a t × (a.at ≡ end + gap)) }
    ensures within { IfOk result (λ a. (end ≤ a.at) × (a.data_words < 2 ^ 16)
        × (a.pointers < 2 ^ 16) × (a.at + a.data_words + a.pointers ≤ count)) }
    ensures some { IfOk result (λ a. 0 < a.data_words + a.pointers) }
    ensures kind { IfErr result (λ why. why ≡ Unput.Place) }
{
    let at = end + gap_of(word);
    let data_words = ((word >> 32) % 0x1_0000) as usize;
    let pointers = (word >> 48) as usize;
    if word % 4 != 0 || data_words + pointers == 0 || at + data_words + pointers > count {
        return Err(Unput::Place);
    }
    Ok(Area {
        at,
        data_words,
        pointers,
    })
}

/// Returns the number of bits of an element of the plain list that a pointer leads to; `Place` if
/// its elements are pointers or structs.
#[inline(always)]
fn element_bits(word: u64) -> Result<u64, Unput>
    ensures bits { IfOk result (λ bits. (word / 2 ^ 32 % 8 < 6)
        × (bits ≡ size_bits (word / 2 ^ 32 % 8)) × (bits ≤ 64)) }
    ensures kind { IfErr result (λ why. why ≡ Unput.Place) }
{
    match (word >> 32) % 8 {
        0 => Ok(0),
        1 => Ok(1),
        2 => Ok(8),
        3 => Ok(16),
        4 => Ok(32),
        5 => Ok(64),
        _ => Err(Unput::Place),
    }
}

/// Returns the words of the list of plain elements that a pointer leads to; `Place` if it doesn't
/// lead to such a list, or leads past n words.
#[inline]
pub(crate) fn plain_list_behind(word: u64, end: usize, count: usize) -> Result<Run, Unput>
    requires { (end ≤ count) × (count < 2 ^ 29) }
    ensures behind { (gap : ℕ) (t : Tree) → Fits t → gap < 2 ^ 30 → word ≡ pointer gap t
        → IfOk result (λ r. IsPlainList t × (r.start ≡ end + gap) × (r.len ≡ length (body t))) }
    ensures within { IfOk result (λ r. (end ≤ r.start) × (r.start + r.len ≤ count)) }
    ensures kind { IfErr result (λ why. why ≡ Unput.Place) }
{
    let bits = element_bits(word)?;
    let start = end + gap_of(word);
    let len = ((bits * (word >> 35) + 63) / 64) as usize;
    if word % 4 != 1 || start + len > count {
        return Err(Unput::Place);
    }
    Ok(Run { start, len })
}

/// Returns whether a pointer has no distance: null, a capability, or the pointer to an empty
/// struct.
#[inline(always)]
fn is_fixed(word: u64) -> bool
    ensures { result ≡ is_fixed word }
{
    word == 0 || (word % 4 == 3 || word == EMPTY)
}

/// Returns the beginning of the object of the first pointer in a row that has a distance; the row
/// begins at a word. `None` if no pointer has a distance.
#[inline]
pub(crate) fn first_target(slice: &[Word], at: usize) -> Option<usize>
    requires { at + length slice.now < 2 ^ 60 }
    ensures begins { (n m : ℕ) (ts : Trees) → AreLinks n m ts slice.now
        → MatchOption result (bodies ts ≡ [])
        (λ start. (0 < depths ts) × (start ≡ at + (tree_count ts + n + m))) }
{
    for i in 0..slice.len() {
        let word = u64::from_le_bytes(slice[i]);
        if !is_fixed(word) {
            return Some(at + i + 1 + gap_of(word));
        }
    }
    None
}

/// Returns the beginning of the objects of the pointers after one, which begin at a word, or the
/// end if there is no such object. `None` if the end isn't given.
#[inline]
pub(crate) fn end_before(others: &[Word], at: usize, end: Option<usize>) -> Option<usize>
    requires { at + length others.now < 2 ^ 60 }
    ensures tells { (n m : ℕ) (ts : Trees) → AreLinks n m ts others.now
        → IsEnd end (at + (tree_count ts + n + m) + length (bodies ts))
        → IsEnd result (at + (tree_count ts + n + m)) }
{
    let e = end?;
    match first_target(others, at) {
        Some(start) => Some(start),
        None => Some(e),
    }
}

/// Returns the beginning of a value that replaces null, like `end_before`. `None` if no other
/// pointer of its row has a distance, neither before it nor after it.
#[inline]
fn start_between(front: &[Word], others: &[Word], at: usize, end: Option<usize>) -> Option<usize>
    requires { at + length others.now + length front.now < 2 ^ 60 }
    ensures start { (n m k l : ℕ) (ts us : Trees) → AreLinks n m ts others.now
        → AreLinks k l us front.now
        → IsEnd end (at + (tree_count ts + n + m) + length (bodies ts))
        → IfSome result (λ start. (0 < max (depths us) (depths ts))
        × (start ≡ at + (tree_count ts + n + m))) }
{
    match first_target(others, at) {
        Some(start) => Some(start),
        None => {
            let e = end?;
            first_target(front, 0)?;
            Some(e)
        }
    }
}

/// Returns the words that those of a text or data replace, for a pointer. They are those of the
/// plain list that the pointer leads to. For null there are no words, at the place at which they
/// would begin. `Place` if
/// - the pointer leads to something else, or past n words;
/// - it is null, and no other pointer of its row has a distance, or the later pointers have no
///   objects and their end isn't given.
#[inline]
pub(crate) fn blob_run(
    word: u64,
    front: &[Word],
    others: &[Word],
    at: usize,
    count: usize,
    end: Option<usize>,
) -> Result<Run, Unput>
    requires { (at + length others.now ≤ count) × (length front.now ≤ count) × (count < 2 ^ 29) }
    ensures behind { (n m k l : ℕ) (t : Tree) (ts us : Trees) → Fits t
        → AreLinks n (m + length (body t)) ts others.now → AreLinks k l us front.now
        → word ≡ pointer (tree_count ts + n + m) t
        → IsEnd end (at + (tree_count ts + n + (m + length (body t))) + length (bodies ts))
        → IfOk result (λ r. TakesBlob (max (depths us) (depths ts)) t
        × (r.len ≡ length (body t)) × (r.start ≡ at + (tree_count ts + n + m))) }
    ensures within { IfOk result (λ r. (at ≤ r.start) × (r.start + r.len ≤ count)) }
    ensures kind { IfErr result (λ why. why ≡ Unput.Place) }
{
    if word != 0 {
        return plain_list_behind(word, at, count);
    }
    match start_between(front, others, at, end) {
        Some(start) if start >= at && start <= count => Ok(Run { start, len: 0 }),
        _ => Err(Unput::Place),
    }
}

/// Returns whether a number replaces the element at an index of the plain list that a pointer leads
/// to: the elements have its width, and its place is that of the element.
#[inline]
pub(crate) fn is_element(word: u64, index: u32, set: PlainSet) -> bool
    ensures { (gap : ℕ) (t : Tree) → Fits t → gap < 2 ^ 30 → word ≡ pointer gap t → IsPlainList t
        → result ≡ true → IsElement index set t }
{
    let at = 64 * u64::from(set.word) + u64::from(set.shift);
    let width = u64::from(set.width);
    match element_bits(word) {
        Ok(bits) => bits == width
            && u64::from(index) < word >> 35
            && at == width * u64::from(index),
        Err(_) => false,
    }
}

/// Returns the list of pointers that a pointer leads to, as the pointers of a struct without data;
/// `Place` if it doesn't lead to such a list, or leads past n words.
#[inline]
pub(crate) fn pointers_behind(word: u64, end: usize, count: usize) -> Result<Area, Unput>
    requires { (end ≤ count) × (count < 2 ^ 29) }
    ensures behind { (gap : ℕ) (t : Tree) → Fits t → gap < 2 ^ 30 → word ≡ pointer gap t
        → IfOk result (λ a. IsPointerList a.pointers t × (a.at ≡ end + gap)) }
    ensures within { IfOk result (λ a. (end ≤ a.at) × (a.data_words ≡ 0)
        × (a.at + a.pointers ≤ count)) }
    ensures kind { IfErr result (λ why. why ≡ Unput.Place) }
{
    let at = end + gap_of(word);
    let pointers = (word >> 35) as usize;
    if word % 4 != 1 || (word >> 32) % 8 != 6 || at + pointers > count {
        return Err(Unput::Place);
    }
    Ok(Area {
        at,
        data_words: 0,
        pointers,
    })
}

/// Returns the pointer to a struct of these sizes with the distance of another pointer.
#[inline]
pub(crate) fn sized_pointer(word: u64, data_words: usize, pointers: usize) -> u64
    requires { (data_words < 2 ^ 16) × (pointers < 2 ^ 16) }
    ensures { (gap d k : ℕ) (t u : Tree) → gap < 2 ^ 30 → word ≡ pointer gap t
        → IsStructWith d k t → 0 < d + k → IsStructWith data_words pointers u
        → result ≡ pointer gap u }
{
    if data_words + pointers == 0 {
        return EMPTY;
    }
    word % 0x1_0000_0000 + ((data_words as u64) << 32) + ((pointers as u64) << 48)
}

/// Returns the pointer to a list of n bytes that begins `gap` words after it.
#[inline]
pub(crate) fn bytes_pointer(gap: usize, len: u32) -> u64
    requires { (gap < 2 ^ 30) × (len < 2 ^ 29) }
    ensures { result ≡ list_pointer gap 2 len }
{
    0x2_0000_0001 + 4 * gap as u64 + 0x8_0000_0000 * len as u64
}

/// Returns a pointer with `by` added, or the pointer itself if it has no distance.
#[inline(always)]
fn with_shift(word: u64, by: u64) -> u64
    ensures { result ≡ shifted by word }
{
    if word == 0 || word % 4 == 3 || word == EMPTY {
        return word;
    }
    word.wrapping_add(by)
}

/// Adds `by` to each pointer, except to those without a distance.
pub(crate) fn shift_all(slice: &mut [Word], by: u64)
    ensures words { words_view slice.new ≡ map (shifted by) (words_view slice.old) }
    ensures len { length slice.new ≡ length slice.old }
{
    for word in slice.iter_mut() {
        *word = with_shift(u64::from_le_bytes(*word), by).to_le_bytes();
    }
}

/// Moves the objects of pointers in a row, when a message of n words gets m: by the difference.
#[inline]
pub(crate) fn move_pointers(slice: &mut [Word], old: usize, new: usize)
    requires { (old < 2 ^ 29) × (new < 2 ^ 29) }
    ensures moved { (behind before after : ℕ) (ts : Trees) → before + new ≡ after + old
        → FitsInOffsets behind before ts → FitsInOffsets behind after ts → FitEach ts
        → words_view slice.old ≡ links behind before ts
        → words_view slice.new ≡ links behind after ts }
    ensures len { length slice.new ≡ length slice.old }
{
    if old == new {
        return;
    }
    let by = (4 * new as u64).wrapping_sub(4 * old as u64);
    shift_all(slice, by);
}
