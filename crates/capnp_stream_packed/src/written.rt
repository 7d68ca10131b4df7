//! Packs whole groups into a buffer that has room for them, without checking for its end between
//! the bytes of a group.
ghost use Rattle.std.specs.Prelude.{◌≡◌, ◌≤◌, ◌<◌, ◌%◌, ◌∷◌, ◌++◌, length, take};
ghost use Rattle.capnp_model.specs.Packing.{byte_tag, nonzero, count_byte};
ghost use Rattle.capnp_stream_packed.specs.Runs.{run_view};
ghost use Rattle.capnp_stream_packed.specs.Written.{PacksFront};

use crate::copies::copy_front;
use crate::groups::{are_bytes, longest_run};
use crate::runs::Run;
use crate::shown::GROUP_LEN;
use crate::tags::{gather, marked, tag_of};

/// The first n bytes of a buffer, which spell words. Then come the verbatim words of a run, for
/// which the buffer had no room, and then the groups of the rest.
#[derive(Clone, Copy)]
pub(crate) struct Written<'a> {
    pub(crate) len: usize,
    pub(crate) run: &'a [u8],
    pub(crate) rest: &'a [u8],
}

/// Writes a word's tag, the bytes that it marks and the count of its run to the front of the
/// buffer, and returns their number.
#[inline(always)]
fn put_head(word: &[u8; 8], tag: u8, run: Run, buf: &mut [u8]) -> usize
    requires tag_of { tag ≡ byte_tag word.now }
    requires room { 10 ≤ length buf.old }
    ensures head { take result buf.new ≡ tag ∷ (nonzero word.now ++ count_byte (run_view run)) }
    ensures most { result ≤ 10 }
{
    buf[0] = tag;
    buf[1..9].copy_from_slice(&gather(tag, word));
    let len = 1 + marked(tag);
    match run {
        Run::Zeros(count) | Run::Verbatim(count) => {
            buf[len] = count;
            len + 1
        }
        Run::First | Run::Next => len,
    }
}

/// Packs the group of the first word and its run, as far as the buffer has room for the run's
/// words.
#[inline(always)]
fn pack_group<'a>(bytes: &'a [u8], buf: &mut [u8]) -> Written<'a>
    requires whole { length bytes.now % 8 ≡ 0 }
    requires some { 0 < length bytes.now }
    requires room { 10 ≤ length buf.old }
    ensures { PacksFront bytes.now buf.new result.len result.run.now result.rest.now }
{
    let Some((word, behind)) = bytes.split_first_chunk::<8>() else {
        unreachable!()
    };
    are_bytes(word);
    are_bytes(behind);
    let tag = tag_of(word);
    let run = longest_run(tag, behind);
    let len = put_head(word, tag, run, buf);
    let (run, rest) = run.split(behind);
    if run.is_empty() || run.len() > buf.len() - len {
        return Written { len, run, rest };
    }
    copy_front(run.len(), behind, &mut buf[len..]);
    Written {
        len: len + run.len(),
        run: &[],
        rest,
    }
}

/// Packs groups as far as the buffer has room for them.
pub(crate) fn pack_groups<'a>(bytes: &'a [u8], buf: &mut [u8]) -> Written<'a>
    requires whole { length bytes.now % 8 ≡ 0 }
    requires some { 0 < length bytes.now }
    requires room { 10 ≤ length buf.old }
    ensures { PacksFront bytes.now buf.new result.len result.run.now result.rest.now }
{
    let mut len = 0;
    let mut left = bytes;
    while buf.len() - len >= GROUP_LEN {
        let Some((word, behind)) = left.split_first_chunk::<8>() else {
            break;
        };
        let tag = tag_of(word);
        if tag != 0 && tag != 255 {
            are_bytes(word);
            are_bytes(behind);
            len += put_head(word, tag, Run::Next, &mut buf[len..]);
            left = behind;
            continue;
        }
        let made = pack_group(left, &mut buf[len..]);
        len += made.len;
        left = made.rest;
        if !made.run.is_empty() {
            return Written {
                len,
                run: made.run,
                rest: left,
            };
        }
    }
    Written {
        len,
        run: &[],
        rest: left,
    }
}
