//! The segments of a message, as a caller lends them.
ghost use Rattle.std.specs.Prelude.{◌≡◌, ◌==◌, ℕ, List, length, map, slice_get, option_copied};

use crate::sizes::SegmentId;
use std::convert::AsSlice;

/// Segments of bytes, which readers read as words of eight bytes. Bytes after a segment's last
/// whole word aren't read.
pub trait ReaderSegments {
    /// The bytes of each segment.
    ghost segments: { Self → List (List ℕ) };

    /// Returns the bytes of a segment, or `None` after the last segment.
    fn get_segment(&self, id: SegmentId) -> Option<&[u8]>
        ensures { option_copied result ≡ slice_get (segments self.now) id };

    /// Returns the number of segments.
    fn len(&self) -> usize
        ensures { result ≡ length (segments self.now) };

    /// Returns whether there is no segment.
    fn is_empty(&self) -> bool
        ensures { result ≡ (length (segments self.now) == 0) }
    {
        self.len() == 0
    }
}

impl<S: ReaderSegments> ReaderSegments for &S {
    ghost segments = { λ s. S.segments s.now };

    fn get_segment(&self, id: SegmentId) -> Option<&[u8]> {
        S::get_segment(*self, id)
    }

    fn len(&self) -> usize {
        S::len(*self)
    }
}

/// Returns the bytes of the owner at an index.
fn bytes_at<I: AsSlice<u8>>(owners: &[I], index: SegmentId) -> Option<&[u8]>
    ensures { option_copied result ≡ slice_get (map I.items owners.now) index }
{
    match owners.get(index as usize) {
        None => None,
        Some(owner) => Some(owner.as_slice()),
    }
}

impl<I: AsSlice<u8>> ReaderSegments for &[I] {
    ghost segments = { λ s. map I.items s.now };

    fn get_segment(&self, id: SegmentId) -> Option<&[u8]> {
        bytes_at(*self, id)
    }

    fn len(&self) -> usize {
        (*self).len()
    }
}

impl<I: AsSlice<u8>> ReaderSegments for Vec<I> {
    ghost segments = { λ s. map I.items s.items };

    fn get_segment(&self, id: SegmentId) -> Option<&[u8]> {
        bytes_at(self.as_slice(), id)
    }

    fn len(&self) -> usize {
        Vec::len(self)
    }
}
