//! Splices written into a message's canonical words in place.
ghost use Rattle.std.specs.Prelude.{◌≡◌, ℕ, suc, ◌+◌, ◌^◌, ◌<◌, ◌≤◌, List, [], ◌∷◌, length, get_or, IfOk, IfErr, IfSome, MatchOption};
ghost use Rattle.capnp_units.specs.declared.kinds.ErrorKind.{ErrorKind};
ghost use Rattle.capnp_model.specs.Trees.{Tree};
ghost use Rattle.capnp_model.specs.Fits.{Fits};
ghost use Rattle.capnp_model.specs.Encoding.{canonical_words};
ghost use Rattle.capnp_wire_canonical.specs.Writes.{filled};
ghost use Rattle.std.specs.Int.{from_le_bytes, w64};
ghost use Rattle.capnp_calls_splice.specs.declared.area.Unput.{Unput};
ghost use Rattle.capnp_calls_splice.specs.declared.splice.Put.TheVariants as puts;
ghost use Rattle.capnp_calls_splice.specs.Splices.{PutsIntoCell, PutsBehind, HasSpliced, StandsWithin, TellsSplice, number_room, put_room};
ghost use Rattle.capnp_calls_splice.specs.Cells.{ChangesArea, ChangesUpTo, stays, IsAreaInside, IsWithin, LeavesWords};

use crate::area::{Area, Placed, Unput};
use crate::blob::Blob;
use crate::data::{put_member, put_number};
use crate::elements::{element_at, end_of_element, move_elements, structs_behind};
use crate::plain::PlainSet;
use crate::pointers::{
    blob_run, bytes_pointer, end_before, is_element, move_pointers, plain_list_behind,
    pointers_behind, sized_pointer, struct_behind,
};
use crate::splice::{Hop, Put, Splice, Spliced};
use crate::tails::replace;
use crate::words::put;
use capnp_units::errors::Error;
use capnp_units::limits::MOST_WORDS;
use capnp_units::sizes::Word;

/// The pointer of a struct, and the end of the objects of the later pointers.
#[derive(Clone, Copy)]
struct Slot {
    at: usize,
    end: usize,
    word: u64,
}

/// Returns a pointer of a struct; `Place` if the struct has no such pointer.
#[inline]
fn slot_of(words: &[Word], area: Area, pointer: u32) -> Result<Slot, Unput>
    requires own { area.at + area.data_words + area.pointers ≤ length words.now }
    requires few { length words.now < 2 ^ 61 }
    ensures place { IfOk result (λ s. (s.at ≡ area.at + area.data_words + pointer)
        × (s.end ≡ area.at + area.data_words + area.pointers) × (s.at < s.end)) }
    ensures word { IfOk result (λ s. s.word ≡ from_le_bytes w64 (get_or words.now s.at [])) }
    ensures kind { IfErr result (λ why. why ≡ Unput.Place) }
{
    let end = area.at + area.data_words + area.pointers;
    let at = area.at + area.data_words + pointer as usize;
    if at >= end {
        return Err(Unput::Place);
    }
    let word = u64::from_le_bytes(words[at]);
    Ok(Slot { at, end, word })
}

/// Returns the state after a write at a pointer of a struct, which keeps its words.
#[inline(always)]
fn stays(area: Area, count: usize) -> Placed
    ensures { result ≡ stays area count }
{
    Placed {
        count,
        data_words: area.data_words,
    }
}

/// Writes a text or data at a pointer of a struct, in place of the plain list there or of null.
fn put_blob(
    words: &mut [Word],
    count: usize,
    area: Area,
    end: Option<usize>,
    pointer: u32,
    blob: &Blob,
) -> Result<Placed, Unput>
    requires { IsAreaInside area count words.old }
    ensures changes { IfOk result (ChangesUpTo (PutsIntoCell (puts.Blob pointer blob.now))
        area end count words.old words.new) }
    ensures within { IfOk result (IsWithin words.new) }
    ensures kept { IfErr result (λ why. LeavesWords why words.old words.new) }
    ensures len { length words.new ≡ length words.old }
{
    let slot = slot_of(words, area, pointer)?;
    let behind = slot.at + 1;
    let front = &words[area.at + area.data_words..slot.at];
    let run = blob_run(
        slot.word,
        front,
        &words[behind..slot.end],
        behind,
        count,
        end,
    )?;
    let now = replace(words, count, run, &blob.words)?;
    words[slot.at] = bytes_pointer(run.start - behind, blob.len).to_le_bytes();
    move_pointers(&mut words[slot.at + 1..slot.end], count, now);
    Ok(stays(area, now))
}

/// Writes a text or data at an index of the list of pointers of a pointer of a struct, in place of
/// a plain list or of null.
fn put_blob_at(
    words: &mut [Word],
    count: usize,
    area: Area,
    end: Option<usize>,
    pointer: u32,
    index: u32,
    blob: &Blob,
) -> Result<Placed, Unput>
    requires { IsAreaInside area count words.old }
    ensures changes { IfOk result (ChangesUpTo (PutsIntoCell (puts.BlobAt pointer index blob.now))
        area end count words.old words.new) }
    ensures within { IfOk result (IsWithin words.new) }
    ensures kept { IfErr result (λ why. LeavesWords why words.old words.new) }
    ensures len { length words.new ≡ length words.old }
{
    let slot = slot_of(words, area, pointer)?;
    let list = pointers_behind(slot.word, slot.at + 1, count)?;
    let own = end_before(&words[slot.at + 1..slot.end], slot.at + 1, end);
    let placed = put_blob(words, count, list, own, index, blob)?;
    move_pointers(&mut words[slot.at + 1..slot.end], count, placed.count);
    Ok(stays(area, placed.count))
}

/// Writes a number in place of the element at an index of the list of elements of its width, which
/// a pointer of a struct leads to.
fn put_number_at(
    words: &mut [Word],
    count: usize,
    area: Area,
    pointer: u32,
    index: u32,
    set: PlainSet,
) -> Result<Placed, Unput>
    requires { IsAreaInside area count words.old }
    ensures changes { IfOk result (ChangesArea (PutsIntoCell (puts.NumberAt pointer index set))
        area count words.old words.new) }
    ensures within { IfOk result (IsWithin words.new) }
    ensures kept { IfErr result (λ why. LeavesWords why words.old words.new) }
    ensures len { length words.new ≡ length words.old }
{
    let slot = slot_of(words, area, pointer)?;
    let run = plain_list_behind(slot.word, slot.at + 1, count)?;
    if set.word as usize >= run.len || !is_element(slot.word, index, set) {
        return Err(Unput::Place);
    }
    put(&mut words[run.start..run.start + run.len], set);
    Ok(stays(area, count))
}

/// Writes a number, a member, a text or data into a struct, or into a list that a pointer of the
/// struct leads to.
fn put_here(
    words: &mut [Word],
    count: usize,
    area: Area,
    end: Option<usize>,
    put: &Put,
) -> Result<Placed, Unput>
    requires { IsAreaInside area count words.old }
    ensures changes { IfOk result
        (ChangesUpTo (PutsIntoCell put.now) area end count words.old words.new) }
    ensures within { IfOk result (IsWithin words.new) }
    ensures kept { IfErr result (λ why. LeavesWords why words.old words.new) }
    ensures len { length words.new ≡ length words.old }
{
    match put {
        Put::Number(set) => put_number(words, count, area, *set),
        Put::Blob { pointer, blob } => put_blob(words, count, area, end, *pointer, blob),
        Put::Member { mark, number } => put_member(words, count, area, *mark, *number),
        Put::BlobAt {
            pointer,
            index,
            blob,
        } => put_blob_at(words, count, area, end, *pointer, *index, blob),
        Put::NumberAt {
            pointer,
            index,
            set,
        } => put_number_at(words, count, area, *pointer, *index, *set),
    }
}

/// Returns the first of hops, and the later ones.
#[inline]
fn first_hop(hops: &[Hop]) -> Option<(Hop, &[Hop])>
    ensures { MatchOption result (hops.now ≡ []) (λ p. hops.now ≡ p.0 ∷ p.1.now) }
{
    match hops {
        [] => None,
        [hop, rest @ ..] => Some((*hop, rest)),
    }
}

/// Writes a number, a member, a text or data into the struct that hops lead to from this one. The
/// objects of this struct end at a word, if that is given.
fn put_in_cell(
    words: &mut [Word],
    count: usize,
    area: Area,
    end: Option<usize>,
    hops: &[Hop],
    put: &Put,
) -> Result<Placed, Unput>
    requires { IsAreaInside area count words.old }
    ensures changes { IfOk result
        (ChangesUpTo (PutsBehind put.now hops.now) area end count words.old words.new) }
    ensures within { IfOk result (IsWithin words.new) }
    ensures kept { IfErr result (λ why. LeavesWords why words.old words.new) }
    ensures len { length words.new ≡ length words.old }
{
    let Some((hop, rest)) = first_hop(hops) else {
        return put_here(words, count, area, end, put);
    };
    match hop {
        Hop::Pointer(pointer) => {
            let slot = slot_of(words, area, pointer)?;
            let child = struct_behind(slot.word, slot.at + 1, count)?;
            let own = end_before(&words[slot.at + 1..slot.end], slot.at + 1, end);
            let placed = put_in_cell(words, count, child, own, rest, put)?;
            let word = sized_pointer(slot.word, placed.data_words, child.pointers);
            words[slot.at] = word.to_le_bytes();
            move_pointers(&mut words[slot.at + 1..slot.end], count, placed.count);
            Ok(stays(area, placed.count))
        }
        Hop::Group => put_in_cell(words, count, area, end, rest, put),
        Hop::Element { pointer, index } => {
            let slot = slot_of(words, area, pointer)?;
            let list = structs_behind(words, count, slot.word, slot.at + 1)?;
            let element = element_at(list, index)?;
            let after = end_before(&words[slot.at + 1..slot.end], slot.at + 1, end);
            let own = end_of_element(words, list, index, after);
            let placed = put_in_cell(words, count, element, own, rest, put)?;
            if placed.data_words != list.data_words {
                return Err(Unput::Spoiled);
            }
            move_elements(words, list, index, count, placed.count);
            move_pointers(&mut words[slot.at + 1..slot.end], count, placed.count);
            Ok(stays(area, placed.count))
        }
    }
}

/// Returns the end of the words of a message, for a write that may replace null; `None` for others.
#[inline]
fn end_for(put: &Put, count: usize) -> Option<usize>
    ensures { IfSome result (λ e. e ≡ count) }
{
    match put {
        Put::Blob { .. } | Put::BlobAt { .. } => Some(count),
        Put::Number(_) | Put::Member { .. } | Put::NumberAt { .. } => None,
    }
}

/// Does the write of a splice in a message, like `put_splice`, if there is room for it.
fn put_at_root(words: &mut [Word], count: usize, splice: &Splice) -> Result<usize, Unput>
    requires inside { count ≤ length words.old }
    requires few { count < 2 ^ 29 }
    ensures spliced { (t : Tree) → Fits t → filled count words.old ≡ canonical_words t
        → IfOk result (λ n. HasSpliced splice.now t (filled n words.new)) }
    ensures within { IfOk result (StandsWithin words.new) }
    ensures kept { IfErr result (λ why. LeavesWords why words.old words.new) }
    ensures len { length words.new ≡ length words.old }
{
    if count == 0 {
        return Err(Unput::Place);
    }
    let word = u64::from_le_bytes(words[0]);
    let root = struct_behind(word, 1, count)?;
    let end = end_for(&splice.put, count);
    let placed = put_in_cell(words, count, root, end, &splice.hops, &splice.put)?;
    words[0] = sized_pointer(word, placed.data_words, root.pointers).to_le_bytes();
    Ok(placed.count)
}

/// Returns the most words that a number adds to a message, if there is a number.
#[inline]
fn room_for_number(number: Option<PlainSet>) -> usize
    ensures room { result ≡ number_room number }
    ensures few { result ≤ 2 ^ 32 }
{
    match number {
        Some(set) => set.word as usize + 1,
        None => 0,
    }
}

/// Returns the most words that a write adds to a message.
fn room_for(put: &Put) -> usize
    ensures few { result ≤ 2 ^ 32 }
    ensures room { result ≡ put_room put.now }
{
    match put {
        Put::Number(set) => set.word as usize + 1,
        Put::Member { mark, number } => (mark.word as usize + 1).max(room_for_number(*number)),
        Put::Blob { blob, .. } | Put::BlobAt { blob, .. } => blob.words.len(),
        Put::NumberAt { .. } => 0,
    }
}

/// Makes a buffer of at least n words, and keeps its words. `OutOfMemory`: the memory was refused.
fn make_room(words: &mut Vec<Word>, count: usize) -> Result<(), Error>
    ensures kept { (n : ℕ) → n ≤ length words.old.items
        → filled n words.new.items ≡ filled n words.old.items }
    ensures len { length words.old.items ≤ length words.new.items }
    ensures kind { IfErr result (λ e. e.kind ≡ ErrorKind.OutOfMemory) }
    ensures short { IfErr result (λ _. length words.old.items < count) }
{
    if words.len() < count {
        words.resize(count, [0; 8])?;
    }
    Ok(())
}

/// Writes a number, a member of a union, a text or data into a message whose `count` canonical
/// words are at the front of a buffer. If the write is done, they are the canonical words of the
/// value after the write. Each struct, including the root, then has as many data words as it needs.
/// The write has no place if
/// - the hops don't lead to a struct that has a word or a pointer;
/// - the struct lacks the pointer of a text or data, or the pointer isn't null and leads to
///   something other than a list of bytes, bits or numbers;
/// - the pointer is null, and no other pointer of the struct or list leads to a list or to a struct
///   with words;
/// - a list has no element at the index, or its elements are neither pointers, for a text or data,
///   nor of the number's width;
/// - the struct would have 2^16 data words or more, or the message 2^29 words or more.
///
/// If an element of a list would need more or fewer data words than the list has for each, the
/// words are spoiled.
///
/// The buffer grows if it is too short. `OutOfMemory`: that was refused.
pub fn put_splice(words: &mut Vec<Word>, count: usize, splice: &Splice) -> Result<Spliced, Error>
    requires inside { count ≤ length words.old.items }
    ensures told { IfOk result
        (TellsSplice splice.now count words.old.items words.new.items) }
    ensures kind { IfErr result (λ e. e.kind ≡ ErrorKind.OutOfMemory) }
    ensures short { IfErr result (λ _. length words.old.items < count + put_room splice.now.put) }
{
    if count > MOST_WORDS as usize {
        return Ok(Spliced::Unplaced);
    }
    match put_at_root(words.as_mut_slice(), count, splice) {
        Ok(now) => return Ok(Spliced::Done(now)),
        Err(Unput::Spoiled) => return Ok(Spliced::Spoiled),
        Err(Unput::Place) => return Ok(Spliced::Unplaced),
        Err(Unput::Room) => {}
    }
    make_room(words, count + room_for(&splice.put))?;
    match put_at_root(words.as_mut_slice(), count, splice) {
        Ok(now) => Ok(Spliced::Done(now)),
        Err(Unput::Spoiled) => Ok(Spliced::Spoiled),
        Err(Unput::Room | Unput::Place) => Ok(Spliced::Unplaced),
    }
}
