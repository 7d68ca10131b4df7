//! Runs after written groups.
ghost use Rattle.std.specs.Prelude.{◌≡◌, ◌*◌, ◌≤◌, length};
ghost use Rattle.capnp_model.specs.Packing.{is_zero, is_dense, run_of, longest_run};
ghost use Rattle.capnp_model.specs.Bytes.{AreBytes};
ghost use Rattle.capnp_stream.specs.Segments.{whole_words};
ghost use Rattle.capnp_stream_packed.specs.Runs.{run_view, run_words};

use crate::runs::Run;
use crate::tags::is_dense;

/// A slice of bytes holds numbers of a byte.
pub(crate) fn are_bytes(bytes: &[u8])
    ensures { AreBytes bytes.now }
{}

/// Returns the number of zero words at the front, at most 255.
fn zero_words(bytes: &[u8]) -> u8
    ensures count { result ≡ run_of is_zero 255 (whole_words bytes.now) }
    ensures fits { 8 * result ≤ length bytes.now }
{
    let mut count = 0;
    let mut left = bytes;
    while let Some((word, behind)) = left.split_first_chunk::<8>() {
        if count == 255 || u64::from_le_bytes(*word) != 0 {
            return count;
        }
        count += 1;
        left = behind;
    }
    count
}

/// Returns the number of words at the front that have at most one zero byte, at most 255.
fn dense_words(bytes: &[u8]) -> u8
    ensures count { result ≡ run_of is_dense 255 (whole_words bytes.now) }
    ensures fits { 8 * result ≤ length bytes.now }
{
    let mut count = 0;
    let mut left = bytes;
    while let Some((word, behind)) = left.split_first_chunk::<8>() {
        if count == 255 || !is_dense(word) {
            return count;
        }
        count += 1;
        left = behind;
    }
    count
}

/// Returns the run after a word of this tag, before these bytes.
pub(crate) fn longest_run(tag: u8, behind: &[u8]) -> Run
    ensures run { run_view result ≡ longest_run tag (whole_words behind.now) }
    ensures fits { 8 * run_words result ≤ length behind.now }
{
    match tag {
        0 => Run::Zeros(zero_words(behind)),
        255 => Run::Verbatim(dense_words(behind)),
        _ => Run::Next,
    }
}
