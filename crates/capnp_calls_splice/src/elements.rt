//! Elements of lists of structs among canonical words.
ghost use Rattle.std.specs.Prelude.{◌≡◌, ℕ, ◌+◌, ◌*◌, ◌/◌, ◌%◌, ◌^◌, ◌<◌, ◌≤◌, List, ◌++◌, length, IfOk, IfErr};
ghost use Rattle.capnp_model.specs.Trees.{Tree, Elements, element_count};
ghost use Rattle.capnp_model.specs.Fits.{Fits, FitElements};
ghost use Rattle.capnp_model.specs.Encoding.{pointer, body, cells, element_bodies};
ghost use Rattle.capnp_wire_canonical.specs.Writes.{words_view, filled};
ghost use Rattle.capnp_calls_splice.specs.declared.area.Unput.{Unput};
ghost use Rattle.capnp_calls_splice.specs.Cells.{IsStructs, AreNear, AreCells, IsEnd, TellsBegin, MovesElements};

use crate::area::{Area, Structs, Unput};
use crate::pointers::{first_target, gap_of, shift_all};
use capnp_units::sizes::Word;

/// Returns the elements of the list of structs that a pointer leads to; the pointer's word ends at
/// `end`. `Place` if it doesn't lead to such a list, or leads past n words.
pub(crate) fn structs_behind(
    words: &[Word],
    count: usize,
    word: u64,
    end: usize,
) -> Result<Structs, Unput>
    requires { (end ≤ count) × (count ≤ length words.now) × (count < 2 ^ 29) }
    ensures behind { (gap : ℕ) (t : Tree) (x r : List ℕ) → Fits t → gap < 2 ^ 30
        → word ≡ pointer gap t → filled count words.now ≡ x ++ (body t ++ r)
        → length x ≡ end + gap → IfOk result (λ l. IsStructs l t × (l.first ≡ end + gap + 1)) }
    ensures within { IfOk result (λ l. (end < l.first)
        × (l.first + l.count * (l.data_words + l.pointers) ≤ count)
        × (l.data_words < 2 ^ 16) × (l.data_words + l.pointers < 2 ^ 17)) }
    ensures kind { IfErr result (λ why. why ≡ Unput.Place) }
{
    let start = end + gap_of(word);
    if word % 4 != 1 || (word >> 32) % 8 != 7 || start >= count {
        return Err(Unput::Place);
    }
    let tag = u64::from_le_bytes(words[start]);
    let list = Structs {
        first: start + 1,
        count: gap_of(tag),
        data_words: ((tag >> 32) % 0x1_0000) as usize,
        pointers: (tag >> 48) as usize,
    };
    if list.first + list.count * (list.data_words + list.pointers) > count {
        return Err(Unput::Place);
    }
    Ok(list)
}

/// Returns an element of a list of structs; `Place` if the list has no such index.
#[inline]
pub(crate) fn element_at(list: Structs, index: u32) -> Result<Area, Unput>
    requires { list.first + list.count * (list.data_words + list.pointers) < 2 ^ 29 }
    ensures place { IfOk result (λ a. (index < list.count)
        × (a.at ≡ list.first + index * (list.data_words + list.pointers))
        × (a.data_words ≡ list.data_words) × (a.pointers ≡ list.pointers)) }
    ensures within { IfOk result (λ a. a.at + a.data_words + a.pointers
        ≤ list.first + list.count * (list.data_words + list.pointers)) }
    ensures kind { IfErr result (λ why. why ≡ Unput.Place) }
{
    if index as usize >= list.count {
        return Err(Unput::Place);
    }
    Ok(Area {
        at: list.first + index as usize * (list.data_words + list.pointers),
        data_words: list.data_words,
        pointers: list.pointers,
    })
}

/// Returns the beginning of the objects of the pointers of n elements in a row, which begin at a
/// word, or the end if there is no such object. `None` if the end isn't given, or the elements have
/// no pointers.
fn end_before_cells(
    slice: &[Word],
    list: Structs,
    count: usize,
    at: usize,
    end: Option<usize>,
) -> Option<usize>
    requires len { length slice.now ≡ count * (list.data_words + list.pointers) }
    requires few { at + length slice.now < 2 ^ 60 }
    requires width { list.data_words + list.pointers < 2 ^ 17 }
    ensures tells { (m : ℕ) (es : Elements) → element_count es ≡ count
        → AreCells m list.data_words list.pointers es slice.now
        → IsEnd end (at + length slice.now + m + length (element_bodies es))
        → IsEnd result (at + length slice.now + m) }
{
    let e = end?;
    if list.pointers == 0 {
        return None;
    }
    let width = list.data_words + list.pointers;
    for i in 0..count {
        let first = i * width + list.data_words;
        let found = first_target(&slice[first..first + list.pointers], at + first);
        if found.is_some() {
            return found;
        }
    }
    Some(e)
}

/// Returns the end of the objects of an element of a list: the beginning of the objects of the
/// later elements, or otherwise the end of all objects of the list. `None` if that isn't given.
pub(crate) fn end_of_element(
    words: &[Word],
    list: Structs,
    index: u32,
    end: Option<usize>,
) -> Option<usize>
    requires index { index < list.count }
    requires inside { list.first + list.count * (list.data_words + list.pointers)
        ≤ length words.now }
    requires few { list.first + list.count * (list.data_words + list.pointers) < 2 ^ 29 }
    requires width { list.data_words + list.pointers < 2 ^ 17 }
    ensures tells { TellsBegin list index end words.now result }
{
    let width = list.data_words + list.pointers;
    let behind = index as usize + 1;
    let first = list.first + behind * width;
    let later = &words[first..list.first + list.count * width];
    end_before_cells(later, list, list.count - behind, first, end)
}

/// Moves the objects of the pointers of n elements in a row, like `move_pointers`.
fn move_cells(slice: &mut [Word], list: Structs, count: usize, old: usize, new: usize)
    requires len { length slice.old ≡ count * (list.data_words + list.pointers) }
    requires width { list.data_words + list.pointers < 2 ^ 17 }
    requires few { (old < 2 ^ 29) × (new < 2 ^ 29) }
    ensures moved { (before after : ℕ) (es : Elements) → element_count es ≡ count
        → before + new ≡ after + old → AreNear before list.data_words list.pointers es
        → AreNear after list.data_words list.pointers es
        → FitElements list.data_words list.pointers es
        → words_view slice.old ≡ cells before list.data_words list.pointers es
        → words_view slice.new ≡ cells after list.data_words list.pointers es }
    ensures len { length slice.new ≡ length slice.old }
{
    if old == new {
        return;
    }
    let by = (4 * new as u64).wrapping_sub(4 * old as u64);
    let width = list.data_words + list.pointers;
    for i in 0..count {
        let at = i * width + list.data_words;
        shift_all(&mut slice[at..at + list.pointers], by);
    }
}

/// Moves the objects of the pointers of the elements after one of a list, in place among words.
pub(crate) fn move_elements(words: &mut [Word], list: Structs, index: u32, old: usize, new: usize)
    requires index { index < list.count }
    requires inside { list.first + list.count * (list.data_words + list.pointers)
        ≤ length words.old }
    requires width { list.data_words + list.pointers < 2 ^ 17 }
    requires few { (old < 2 ^ 29) × (new < 2 ^ 29) }
    ensures moved { MovesElements list index old new words.old words.new }
    ensures len { length words.new ≡ length words.old }
{
    let width = list.data_words + list.pointers;
    let behind = index as usize + 1;
    let later = &mut words[list.first + behind * width..list.first + list.count * width];
    move_cells(later, list, list.count - behind, old, new);
}
