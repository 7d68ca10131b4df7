//! Tags of groups.
//!
//! Bit i of a tag marks byte i of a word. The marked bytes follow the tag, in order; the others are
//! zero:
//!
//! ```text
//! word  00 00 0c 00 00 22 00 00
//! tag   0  0  1  0  0  1  0  0    = 24, the lowest bit first
//! group 24 0c 22
//! ```
ghost use Rattle.std.specs.Prelude.{◌≡◌, ◌≢◌, ◌≤◌, ◌<◌, ◌++◌, ℕ, List, Ok, take, map, slice_index, All};
ghost use Rattle.std.specs.Int.{w64, from_le_bytes};
ghost use Rattle.capnp_model.specs.Packing.{byte_tag, nonzero, is_dense};
ghost use Rattle.capnp_stream_packed.specs.Parts.{tagged};
ghost use Rattle.capnp_stream_packed.specs.Tags.{marks};

use crate::groups::are_bytes;
use crate::places::places_of;
use crate::sources::sources_of;
use std::simd::prelude::*;

/// Returns, in lane i, the byte at place i of `places`; zero for the place 8.
#[inline(always)]
fn at_places(bytes: &[u8; 8], places: [u8; 8]) -> [u8; 8]
    requires { (i : ℕ) → slice_index places i < 9 }
    ensures { result ≡ map (λ i. slice_index bytes.now i) places }
{
    let [a, b, c, d, e, f, g, h] = *bytes;
    let [i, j, k, l, m, n, o, p] = places;
    let from = u8x16::from_array([a, b, c, d, e, f, g, h, 0, 0, 0, 0, 0, 0, 0, 0]);
    let at = u8x16::from_array([i, j, k, l, m, n, o, p, 8, 8, 8, 8, 8, 8, 8, 8]);
    let [a, b, c, d, e, f, g, h, ..] = from.swizzle_dyn(at).to_array();
    [a, b, c, d, e, f, g, h]
}

/// Returns the number of bytes that a tag marks.
#[inline(always)]
pub(crate) fn marked(tag: u8) -> usize
    ensures count { result ≡ marks 8 tag }
    ensures most { result ≤ 8 }
{
    tag.count_ones() as usize
}

/// Returns the word of a tag from the bytes after the tag. Bytes after the marked ones are ignored.
#[inline(always)]
pub(crate) fn spread(tag: u8, behind: &[u8; 8]) -> [u8; 8]
    ensures { (more : List ℕ)
        → tagged tag (take (marks 8 tag) behind.now ++ more) ≡ Ok (result, more) }
{
    at_places(behind, sources_of(tag))
}

/// Returns the byte after those that the tag marks, from the eight bytes after the tag. If the
/// group has no count, this byte is the next tag. It is shifted out of bytes that were read
/// already, so that no further read has to wait for the tag.
#[inline(always)]
pub(crate) fn byte_behind(tag: u8, behind: &[u8; 8]) -> u8
    requires { tag ≢ 255 }
    ensures { result ≡ slice_index behind.now (marks 8 tag) }
{
    are_bytes(behind);
    let left = u64::from_le_bytes(*behind) >> (8 * marked(tag));
    left.to_le_bytes()[0]
}

/// Returns the tag of a word.
#[inline(always)]
pub(crate) fn tag_of(word: &[u8; 8]) -> u8
    ensures { result ≡ byte_tag word.now }
{
    let marks = u8x8::from_array(*word).simd_ne(u8x8::splat(0));
    marks.to_bitmask() as u8
}

/// Returns the bytes of a word that its tag marks, in order, followed by others.
#[inline(always)]
pub(crate) fn gather(tag: u8, word: &[u8; 8]) -> [u8; 8]
    requires { tag ≡ byte_tag word.now }
    ensures { take (marks 8 tag) result ≡ nonzero word.now }
{
    at_places(word, places_of(tag))
}

/// Returns whether at most one byte of a word is zero.
#[inline(always)]
pub(crate) fn is_dense(word: &[u8; 8]) -> bool
    ensures { result ≡ is_dense (from_le_bytes w64 word.now) }
{
    are_bytes(word);
    marked(tag_of(word)) >= 7
}
