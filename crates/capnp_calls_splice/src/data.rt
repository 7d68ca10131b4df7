//! Writes of numbers into the data of structs, which get as many words as they need.
ghost use Rattle.std.specs.Prelude.{◌≡◌, ℕ, ◌+◌, ◌*◌, ◌^◌, ◌<◌, ◌≤◌, length, map, IfOk, IfErr};
ghost use Rattle.capnp_model.specs.Sections.{needed_words};
ghost use Rattle.capnp_model.specs.Edits.{Cell};
ghost use Rattle.capnp_wire_canonical.specs.Writes.{words_view, filled};
ghost use Rattle.capnp_calls_splice.specs.DataWords.{AreData};
ghost use Rattle.capnp_calls_splice.specs.Splices.{PutsNumber, PutsMember};
ghost use Rattle.capnp_calls_splice.specs.Cells.{Frame, StandsIn, with_data_words, ChangesArea, IsAreaInside, IsWithin, LeavesWords};

use crate::area::{Area, Placed, Unput};
use crate::plain::PlainSet;
use crate::tails::move_tail;
use crate::words::put;
use capnp_units::limits::MOST_WORDS;
use capnp_units::sizes::Word;

/// The bound of a struct's data words: a struct has fewer.
const STRUCT_WORDS: usize = 0x1_0000;

/// Returns an area with n words of data.
#[inline(always)]
fn with_data_words(area: Area, data_words: usize) -> Area
    ensures { result ≡ with_data_words area data_words }
{
    Area {
        at: area.at,
        data_words,
        pointers: area.pointers,
    }
}

/// Writes zeros over words.
fn zero_words(slice: &mut [Word])
    ensures zeros { words_view slice.new ≡ map (λ _. 0) (words_view slice.old) }
    ensures len { length slice.new ≡ length slice.old }
{
    for word in slice.iter_mut() {
        *word = [0; 8];
    }
}

/// Gives the data of a struct n words, like `resize_data`, if their number differs.
#[inline]
fn fit_data(words: &mut [Word], count: usize, area: Area, wide: usize) -> Result<usize, Unput>
    requires inside { IsAreaInside area count words.old }
    requires wide { wide < 2 ^ 16 }
    ensures stands { IfOk result (λ n. (f : Frame) (c : Cell)
        → StandsIn area f c (filled count words.old) → c.section < 2 ^ (64 * wide)
        → StandsIn (with_data_words area wide) f c (filled n words.new)) }
    ensures within { IfOk result (λ n. IsAreaInside (with_data_words area wide) n words.new) }
    ensures kept { IfErr result (λ why. LeavesWords why words.old words.new) }
    ensures len { length words.new ≡ length words.old }
{
    if wide == area.data_words {
        return Ok(count);
    }
    resize_data(words, count, area, wide)
}

/// Gives the data of a struct n words, and returns the number of used words then: zeros are added
/// after the data, or dropped there. `Room` if they don't fit the slice, `Place` if they are 2^29
/// or more.
fn resize_data(words: &mut [Word], count: usize, area: Area, wide: usize) -> Result<usize, Unput>
    requires inside { IsAreaInside area count words.old }
    requires wide { wide < 2 ^ 16 }
    ensures stands { IfOk result (λ n. (f : Frame) (c : Cell)
        → StandsIn area f c (filled count words.old) → c.section < 2 ^ (64 * wide)
        → StandsIn (with_data_words area wide) f c (filled n words.new)) }
    ensures within { IfOk result (λ n. IsAreaInside (with_data_words area wide) n words.new) }
    ensures kept { IfErr result (λ why. LeavesWords why words.old words.new) }
    ensures len { length words.new ≡ length words.old }
{
    let end = area.at + area.data_words;
    let tail = area.at + wide;
    let now = tail + (count - end);
    if now > MOST_WORDS as usize {
        return Err(Unput::Place);
    }
    if now > words.len() {
        return Err(Unput::Room);
    }
    move_tail(words, end, count, tail);
    if tail > end {
        zero_words(&mut words[end..tail]);
    }
    Ok(now)
}

/// Returns the number of words of a section that are needed: those up to the last that isn't zero.
fn count_needed(slice: &[Word]) -> usize
    ensures needed { (section : ℕ) → AreData slice.now section
        → result ≡ needed_words (length slice.now) section }
    ensures most { result ≤ length slice.now }
{
    let mut count = slice.len();
    while count > 0 && u64::from_le_bytes(slice[count - 1]) == 0 {
        count -= 1;
    }
    count
}

/// Writes a number into the data of a struct. If its word is the last of them, or after the last,
/// the data then have as many words as they need.
pub(crate) fn put_number(
    words: &mut [Word],
    count: usize,
    area: Area,
    set: PlainSet,
) -> Result<Placed, Unput>
    requires { IsAreaInside area count words.old }
    ensures changes { IfOk result
        (ChangesArea (PutsNumber set) area count words.old words.new) }
    ensures inside { IfOk result
        (λ p. IsAreaInside (with_data_words area p.data_words) p.count words.new) }
    ensures within { IfOk result (IsWithin words.new) }
    ensures kept { IfErr result (λ why. LeavesWords why words.old words.new) }
    ensures len { length words.new ≡ length words.old }
{
    let wide = set.word as usize + 1;
    if wide < area.data_words {
        put(&mut words[area.at..area.at + area.data_words], set);
        return Ok(Placed {
            count,
            data_words: area.data_words,
        });
    }
    if wide >= STRUCT_WORDS {
        return Err(Unput::Place);
    }
    let more = fit_data(words, count, area, wide)?;
    put(&mut words[area.at..area.at + wide], set);
    let needed = count_needed(&words[area.at..area.at + wide]);
    match fit_data(words, more, with_data_words(area, wide), needed) {
        Ok(now) => Ok(Placed {
            count: now,
            data_words: needed,
        }),
        Err(_) => Err(Unput::Spoiled),
    }
}

/// Writes a discriminant into the data of a struct, and then the number of its member, if it has
/// one, each like `put_number`.
pub(crate) fn put_member(
    words: &mut [Word],
    count: usize,
    area: Area,
    mark: PlainSet,
    number: Option<PlainSet>,
) -> Result<Placed, Unput>
    requires { IsAreaInside area count words.old }
    ensures changes { IfOk result
        (ChangesArea (PutsMember mark number) area count words.old words.new) }
    ensures within { IfOk result (IsWithin words.new) }
    ensures kept { IfErr result (λ why. LeavesWords why words.old words.new) }
    ensures len { length words.new ≡ length words.old }
{
    let marked = put_number(words, count, area, mark)?;
    let Some(set) = number else {
        return Ok(marked);
    };
    match put_number(
        words,
        marked.count,
        with_data_words(area, marked.data_words),
        set,
    ) {
        Ok(placed) => Ok(placed),
        Err(_) => Err(Unput::Spoiled),
    }
}
