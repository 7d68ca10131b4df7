//! Replacing of words, and moving of the later words.
ghost use Rattle.std.specs.Prelude.{◌≡◌, ℕ, ◌+◌, ◌-◌, ◌^◌, ◌<◌, ◌≤◌, List, ◌++◌, length, take, drop, IfOk, IfErr};
ghost use Rattle.capnp_wire_canonical.specs.Writes.{words_view, filled};
ghost use Rattle.capnp_calls_splice.specs.Cells.{LeavesWords};

use crate::area::{Run, Unput};
use capnp_units::limits::MOST_WORDS;
use capnp_units::sizes::Word;

/// Moves the words from a place to an end to another place.
#[inline]
pub(crate) fn move_tail(words: &mut [Word], from: usize, end: usize, to: usize)
    requires from { (from ≤ end) × (end ≤ length words.old) }
    requires to { to + (end - from) ≤ length words.old }
    ensures words { words.new ≡ take to words.old
        ++ (take (end - from) (drop from words.old) ++ drop (to + (end - from)) words.old) }
    ensures len { length words.new ≡ length words.old }
{
    if from == to {
        return;
    }
    words.copy_within(from..end, to);
}

/// Replaces a run of the used words by other words, and returns the number of used words then.
/// `Room` if they don't fit the slice, `Place` if they are 2^29 or more.
pub(crate) fn replace(
    words: &mut [Word],
    count: usize,
    run: Run,
    new: &[Word],
) -> Result<usize, Unput>
    requires run { run.start + run.len ≤ count }
    requires count { (count ≤ length words.old) × (count < 2 ^ 29) }
    requires few { length new.now < 2 ^ 29 }
    ensures words { (x l r : List ℕ) → filled count words.old ≡ x ++ (l ++ r)
        → length x ≡ run.start → length l ≡ run.len
        → IfOk result (λ n. filled n words.new ≡ x ++ (words_view new.now ++ r)) }
    ensures within { IfOk result (λ n. (run.start ≤ n) × (n ≤ length words.new)
        × (n < 2 ^ 29)) }
    ensures kept { IfErr result (λ why. LeavesWords why words.old words.new) }
    ensures len { length words.new ≡ length words.old }
{
    let end = run.start + run.len;
    let behind = run.start + new.len();
    let now = behind + (count - end);
    if now > MOST_WORDS as usize {
        return Err(Unput::Place);
    }
    if now > words.len() {
        return Err(Unput::Room);
    }
    move_tail(words, end, count, behind);
    words[run.start..behind].copy_from_slice(new);
    Ok(now)
}
