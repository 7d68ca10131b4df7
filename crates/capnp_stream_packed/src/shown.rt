//! Unpacks whole groups of the bytes that a source shows, without checking for their end between
//! the bytes of a group.
ghost use Rattle.std.specs.Prelude.{◌≡◌, ◌<◌, ◌≤◌, ◌%◌, ◌⊎◌, length, take, drop, IfSome};
ghost use Rattle.capnp_stream_packed.specs.Runs.{IsOver, NeedsBytes};
ghost use Rattle.capnp_stream_packed.specs.Steps.{IsFirst};

use crate::copies::{clear_front, copy_first, copy_front, copy_words};
use crate::runs::Run;
use crate::tags::{byte_behind, marked, spread};

/// The most bytes of a group that isn't followed by verbatim words: a tag, eight bytes and a count.
pub(crate) const GROUP_LEN: usize = 10;

/// Returns the first byte; 0 if there is none.
#[inline(always)]
fn first_byte(bytes: &[u8]) -> u8
    ensures { IsFirst result bytes.now }
{
    match bytes.first() {
        Some(byte) => *byte,
        None => 0,
    }
}

/// Returns the eight bytes after a tag.
#[inline(always)]
fn behind_tag(bytes: &[u8; GROUP_LEN]) -> &[u8; 8]
    ensures { result.now ≡ take 8 (drop 1 bytes.now) }
{
    let Some(behind) = bytes[1..].first_chunk::<8>() else {
        unreachable!()
    };
    behind
}

/// A whole group and its whole run: n bytes were taken and m bytes of a buffer filled. It also has
/// the next byte, if there is one.
#[derive(Clone, Copy)]
pub(crate) struct Group {
    taken: usize,
    filled: usize,
    next: u8,
}

impl Group {
    ghost use Rattle.capnp_stream_packed.specs.Steps.{BeginsWithTag, UnpacksGroup};

    /// Returns the group of the tag 0 at the front of these bytes, and its run, whose count is in
    /// the group. The group's word is in the buffer. `None`: the run has more words than the buffer
    /// has room for.
    #[inline(always)]
    fn of_zeros(shown: &[u8], buf: &mut [u8]) -> Option<Group>
        requires long { 10 ≤ length shown.now }
        requires front { BeginsWithTag 0 (take 8 buf.old) shown.now }
        requires whole { length buf.old % 8 ≡ 0 }
        requires some { 0 < length buf.old }
        ensures { IfSome result (λ g. UnpacksGroup shown.now buf.new g) }
    {
        let len = 8 * shown[1] as usize;
        if len > buf.len() - 8 {
            return None;
        }
        clear_front(len, &mut buf[8..]);
        Some(Group {
            taken: 2,
            filled: 8 + len,
            next: first_byte(&shown[2..]),
        })
    }

    /// Returns the group of the tag 255 at the front of these bytes, and its run, whose count is in
    /// the group. The group's word is in the buffer. `None`: the run isn't shown whole, or has more
    /// words than the buffer has room for.
    #[inline(always)]
    fn of_words(shown: &[u8], buf: &mut [u8]) -> Option<Group>
        requires long { 10 ≤ length shown.now }
        requires front { BeginsWithTag 255 (take 8 buf.old) shown.now }
        requires whole { length buf.old % 8 ≡ 0 }
        requires some { 0 < length buf.old }
        ensures { IfSome result (λ g. UnpacksGroup shown.now buf.new g) }
    {
        let words = shown[9] as usize;
        let len = 8 * words;
        if len > buf.len() - 8 || len > shown.len() - GROUP_LEN {
            return None;
        }
        // The eight bytes in front of the run take the place of the group's word, which is put back
        // then.
        copy_words(words, &shown[2..], buf);
        copy_first(&shown[1..], buf);
        let taken = GROUP_LEN + len;
        Some(Group {
            taken,
            filled: 8 + len,
            next: first_byte(&shown[taken..]),
        })
    }

    /// Returns the group of the tag 0 or 255 at the front of these bytes, and its run. The group's
    /// word is in the buffer. `None`: the run isn't shown whole, or has more words than the buffer
    /// has room for.
    #[inline(always)]
    fn with_run(tag: u8, shown: &[u8], buf: &mut [u8]) -> Option<Group>
        requires long { 10 ≤ length shown.now }
        requires front { BeginsWithTag tag (take 8 buf.old) shown.now }
        requires counted { (tag ≡ 0) ⊎ (tag ≡ 255) }
        requires whole { length buf.old % 8 ≡ 0 }
        requires some { 0 < length buf.old }
        ensures { IfSome result (λ g. UnpacksGroup shown.now buf.new g) }
    {
        if tag == 0 {
            Group::of_zeros(shown, buf)
        } else {
            Group::of_words(shown, buf)
        }
    }
}

/// A step, which took n bytes and filled m bytes of a buffer, and ended at a run.
#[derive(Clone, Copy)]
pub(crate) struct Step {
    pub(crate) taken: usize,
    pub(crate) filled: usize,
    pub(crate) run: Run,
}

impl Step {
    ghost use Rattle.capnp_stream_packed.specs.Steps.{Unpacks};

    /// Fills the front of the buffer with the rest of a run, as far as its verbatim words are
    /// shown.
    #[inline(always)]
    pub(crate) fn of_run(run: Run, shown: &[u8], buf: &mut [u8]) -> Step
        requires { length buf.old % 8 ≡ 0 }
        ensures unpacked { Unpacks run shown.now buf.new result }
        ensures some { (NeedsBytes run → ⊥) → 0 < length buf.old → 0 < result.filled }
    {
        match run {
            Run::Zeros(count) => {
                let words = (buf.len() / 8).min(count as usize);
                clear_front(8 * words, buf);
                Step {
                    taken: 0,
                    filled: 8 * words,
                    run: Run::Zeros(count - words as u8),
                }
            }
            Run::Verbatim(count) => {
                let words = (buf.len() / 8).min(shown.len() / 8).min(count as usize);
                copy_front(8 * words, shown, buf);
                Step {
                    taken: 8 * words,
                    filled: 8 * words,
                    run: Run::Verbatim(count - words as u8),
                }
            }
            _ => Step {
                taken: 0,
                filled: 0,
                run,
            },
        }
    }

    /// Fills the front of the buffer with whole groups and their whole runs, as far as they are
    /// shown and the buffer has room for them.
    #[inline(always)]
    fn of_groups(run: Run, shown: &[u8], buf: &mut [u8]) -> Step
        requires whole { length buf.old % 8 ≡ 0 }
        requires over { IsOver run }
        ensures { Unpacks run shown.now buf.new result }
    {
        let mut left = shown;
        let mut filled = 0;
        let mut tag = first_byte(shown);
        while filled < buf.len() {
            let Some(group) = left.first_chunk::<GROUP_LEN>() else {
                break;
            };
            let behind = behind_tag(group);
            // Loads and stores stand before the branch, so that the next tag is shifted out of
            // bytes that were read.
            let word = spread(tag, behind);
            buf[filled..filled + 8].copy_from_slice(&word);
            if tag != 0 && tag != 255 {
                left = &left[1 + marked(tag)..];
                filled += 8;
                tag = byte_behind(tag, behind);
                continue;
            }
            let Some(next) = Group::with_run(tag, left, &mut buf[filled..]) else {
                break;
            };
            left = &left[next.taken..];
            filled += next.filled;
            tag = next.next;
        }
        Step {
            taken: shown.len() - left.len(),
            filled,
            run: if filled == 0 { run } else { Run::Next },
        }
    }

    /// Fills the front of the buffer with the rest of a run and with whole groups, as far as they
    /// are shown.
    #[inline(always)]
    pub(crate) fn of_shown(run: Run, shown: &[u8], buf: &mut [u8]) -> Step
        requires { length buf.old % 8 ≡ 0 }
        ensures { Unpacks run shown.now buf.new result }
    {
        if run.is_over() {
            return Step::of_groups(run, shown, buf);
        }
        let step = Step::of_run(run, shown, buf);
        if !step.run.is_over() {
            return step;
        }
        let behind = Step::of_groups(step.run, &shown[step.taken..], &mut buf[step.filled..]);
        Step {
            taken: step.taken + behind.taken,
            filled: step.filled + behind.filled,
            run: behind.run,
        }
    }
}
