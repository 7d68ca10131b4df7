//! The source of the segments of a message that is built.
ghost use Rattle.std.specs.Prelude.{◌≡◌, ◌≢◌, ◌+◌, ◌*◌, ◌≤◌, ◌++◌, ◌∷◌, [], ℕ, List, length, replicate, IfOk, IfErr, OnErr};
ghost use Rattle.capnp_copy_arenas.specs.Memory.{AllZero, ZeroFrom, overwritten};
ghost use Rattle.capnp_units.specs.declared.kinds.ErrorKind.{ErrorKind};
ghost use Rattle.capnp_units.specs.declared.kinds.ErrorKind.TheVariants.{SizeOverflow};

use capnp_units::errors::Result;

/// The bytes of a segment: owned, or a slice that is lent.
///
/// In clauses a lent slice has a name, so that its lender knows the final bytes of the slice.
pub trait SegmentBytes {
    /// The bytes.
    ghost bytes: { Self → List ℕ };

    /// The names of the lent slices in it.
    ghost loans: { Self → List ℕ };

    /// The bytes, lent.
    fn as_bytes(&self) -> &[u8]
        ensures { result.now ≡ bytes self.now };

    /// Writes bytes over as many bytes from a position on.
    fn write(&mut self, at: usize, from: &[u8])
        requires { at + length from.now ≤ length (bytes self.old) }
        ensures bytes { bytes self.new ≡ overwritten at from.now (bytes self.old) }
        ensures loans { loans self.new ≡ loans self.old };

    /// Writes n zero bytes from a position on.
    fn zero(&mut self, at: usize, count: usize)
        requires { at + count ≤ length (bytes self.old) }
        ensures bytes { bytes self.new ≡ overwritten at (replicate count 0) (bytes self.old) }
        ensures loans { loans self.new ≡ loans self.old };
}

/// Hands out segments and takes them back.
pub trait Allocator {
    type Segment: SegmentBytes + Drop;

    /// The names of the lent slices that it holds now.
    ghost loans: { Self → List ℕ };

    /// The names of the memory that it borrows and never hands out.
    ghost place: { Self → List ℕ };

    /// The kinds with which, in this state, a request for a segment of n words may be refused.
    ghost refuses: { Self → ℕ → ErrorKind → Type 0 };

    /// Returns a segment of at least n words, all zero. A refusal has a kind that the allocator
    /// allows, which is any kind except `SizeOverflow`, and leaves the allocator what it holds.
    fn allocate_segment(&mut self, minimum: u32) -> Result<Self::Segment>
        ensures zeros { IfOk result (λ s. AllZero (Self.Segment.bytes s)) }
        ensures room { IfOk result (λ s. 8 * minimum ≤ length (Self.Segment.bytes s)) }
        ensures kind { IfErr result (λ e. e.kind ≢ SizeOverflow) }
        ensures cause { IfErr result (λ e. refuses self.old minimum e.kind) }
        ensures moved { IfOk result (λ s. loans self.old ≡ Self.Segment.loans s ++ loans self.new) }
        ensures kept { OnErr result (loans self.new ≡ loans self.old) }
        ensures place { place self.new ≡ place self.old };

    /// Takes a segment back whose first n words were used. The segment and the allocator together
    /// have at most one lent slice, and the words after the used ones are zero.
    fn deallocate_segment(&mut self, segment: Self::Segment, words_used: u32)
        requires one { length (Self.Segment.loans segment) + length (loans self.old) ≤ 1 }
        requires rest { ZeroFrom (8 * words_used) (Self.Segment.bytes segment) }
        ensures moved { loans self.new ≡ Self.Segment.loans segment ++ loans self.old }
        ensures place { place self.new ≡ place self.old };
}

impl<L: Allocator> Allocator for &mut L {
    type Segment = L::Segment;

    ghost loans = { λ s. L.loans s.now };

    ghost place = { λ s. s.ghost_name ∷ L.place s.now };

    ghost refuses = { λ s n kind. L.refuses s.now n kind };

    fn allocate_segment(&mut self, minimum: u32) -> Result<L::Segment> {
        (**self).allocate_segment(minimum)
    }

    fn deallocate_segment(&mut self, segment: L::Segment, words_used: u32) {
        (**self).deallocate_segment(segment, words_used);
    }
}

/// Writes bytes into a slice.
pub fn write_in(to: &mut [u8], at: usize, from: &[u8])
    requires { at + length from.now ≤ length to.old }
    ensures { to.new ≡ overwritten at from.now to.old }
{
    to[at..at + from.len()].copy_from_slice(from);
}

/// Writes zeros into a slice.
pub fn zero_in(to: &mut [u8], at: usize, count: usize)
    requires { at + count ≤ length to.old }
    ensures { to.new ≡ overwritten at (replicate count 0) to.old }
{
    to[at..at + count].fill(0);
}

impl SegmentBytes for Vec<u8> {
    ghost bytes = { λ v. v.items };

    ghost loans = { λ _. [] };

    fn as_bytes(&self) -> &[u8] {
        self.as_slice()
    }

    fn write(&mut self, at: usize, from: &[u8]) {
        write_in(self.as_mut_slice(), at, from);
    }

    fn zero(&mut self, at: usize, count: usize) {
        zero_in(self.as_mut_slice(), at, count);
    }
}
