//! Numbers in the bytes of data sections.
ghost use Rattle.std.specs.Prelude.{◌≡◌, ◌+◌, ◌*◌, ◌/◌, ◌<◌, ◌≤◌, ◌^◌, ◌==◌, ℕ, length, slice_index, MatchOption};
ghost use Rattle.std.specs.Bool.{OnTrue, OnFalse};
ghost use Rattle.capnp_model.specs.Sections.{bits_at, number_of, numbers_in};

/// Returns the bytes from a number of n bytes on, at an index in units of its width, if the number
/// is wholly in the section.
#[inline(always)]
pub(crate) fn bytes_from(section: &[u8], index: usize, width: usize) -> Option<&[u8]>
    ensures within { MatchOption result
        (length section.now < width * index + width)
        (λ rest. width * index + width ≤ length section.now) }
    ensures there { MatchOption result
        (length section.now < width * index + width) (λ rest. width ≤ length rest.now) }
    ensures bits { MatchOption result
        (length section.now < width * index + width) (λ rest.
        number_of 8 rest.now ≡ number_of 8 section.now / 2 ^ (8 * (width * index))) }
{
    let start = index.checked_mul(width)?;
    if start > section.len() || width > section.len() - start {
        return None;
    }
    Some(&section[start..])
}

/// Returns a bit of bytes, counted from the lowest of the first byte.
#[inline(always)]
pub(crate) fn bit_of(bytes: &[u8], index: usize) -> bool
    requires { index < 8 * length bytes.now }
    ensures { result ≡ (bits_at index 1 (number_of 8 bytes.now) == 1) }
{
    bytes[index / 8] / (1 << (index % 8)) % 2 == 1
}

/// Returns the first n bytes.
#[inline(always)]
pub(crate) fn front_of(bytes: &[u8], count: usize) -> &[u8]
    requires { count ≤ length bytes.now }
    ensures { result.now ≡ numbers_in 8 count (number_of 8 bytes.now) }
{
    &bytes[..count]
}

/// Bytes are numbers below 256.
fn are_bytes(bytes: &[u8])
    ensures { (i : ℕ) → slice_index bytes.now i < 256 }
{}

/// Returns whether bytes are equal to others, which they are exactly when their numbers are equal.
pub(crate) fn are_equal(bytes: &[u8], others: &[u8]) -> bool
    requires { length bytes.now ≡ length others.now }
    ensures same { OnTrue result (number_of 8 bytes.now ≡ number_of 8 others.now) }
    ensures apart { OnFalse result (number_of 8 bytes.now ≡ number_of 8 others.now → ⊥) }
{
    are_bytes(bytes);
    are_bytes(others);
    bytes == others
}
