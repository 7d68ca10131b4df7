//! Runs of words in packed pieces.
ghost use Rattle.std.specs.Prelude.{◌≡◌, ◌≤◌, ◌*◌, ◌↔◌, length, drop, IsTrue};
ghost use Rattle.capnp_stream_packed.specs.Runs.{IsOver, NeedsBytes, end_kind, run_words, run_bytes};

use capnp_units::kinds::ErrorKind;

/// The next part of a piece: its first group, a further group, or n words of a run, followed by a
/// group.
#[derive(Clone, Copy)]
pub(crate) enum Run {
    First,
    Next,
    Zeros(u8),
    Verbatim(u8),
}

impl Run {
    /// Returns the kind of an end at which a group should begin.
    pub(crate) fn end_kind(self) -> ErrorKind
        ensures { result ≡ end_kind self }
    {
        match self {
            Run::First => ErrorKind::FailedToFillTheWholeBuffer,
            _ => ErrorKind::PrematureEndOfPackedInput,
        }
    }

    /// Returns whether no word of the run is left, so that a group comes next.
    #[inline(always)]
    pub(crate) fn is_over(self) -> bool
        ensures { IsTrue result ↔ IsOver self }
    {
        match self {
            Run::Zeros(count) | Run::Verbatim(count) => count == 0,
            _ => true,
        }
    }

    /// Returns whether the next word needs bytes: no zero word of a run is left.
    pub(crate) fn needs_bytes(self) -> bool
        ensures { IsTrue result ↔ NeedsBytes self }
    {
        match self {
            Run::Zeros(count) => count == 0,
            _ => true,
        }
    }

    /// Returns the bytes of this run as they are written, and the later bytes.
    pub(crate) fn split(self, bytes: &[u8]) -> (&[u8], &[u8])
        requires { 8 * run_words self ≤ length bytes.now }
        ensures written { result.0.now ≡ run_bytes self bytes.now }
        ensures rest { result.1.now ≡ drop (8 * run_words self) bytes.now }
    {
        match self {
            Run::Zeros(count) => (&[], &bytes[8 * count as usize..]),
            Run::Verbatim(count) => bytes.split_at(8 * count as usize),
            _ => (&[], bytes),
        }
    }
}
