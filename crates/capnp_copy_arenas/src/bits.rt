//! Bits of words, read and written.
ghost use Rattle.std.specs.Prelude.{◌≡◌, ◌+◌, ◌*◌, ◌<◌, ◌≤◌, ◌^◌, ℕ};
ghost use Rattle.capnp_model.specs.Sections.{bits_at, with_bits};
ghost use Rattle.capnp_wire.specs.Views.{bit_of_bool};

use capnp_units::primitive::Primitive;

/// Returns the number in n bits of a word.
pub fn bits_in(word: u64, at: u32, width: u32) -> u64
    requires { (at + width ≤ 64) × (0 < width) }
    ensures { result ≡ bits_at at width word }
{
    if width == 64 {
        return word;
    }
    (word >> at) % (1 << width)
}

/// Returns a word after a number is written into n of its bits.
pub fn word_with(word: u64, at: u32, width: u32, value: u64) -> u64
    requires within { (at + width ≤ 64) × (0 < width) }
    requires fits { value < 2 ^ width }
    ensures bits { result ≡ with_bits at width value word }
    ensures word { word < 2 ^ 64 }
{
    if width == 64 {
        return value;
    }
    let high = (word >> at) >> width;
    let low = word % (1 << at);
    (((high << width) + value) << at) + low
}

/// Returns the bit of a truth value.
pub fn bit_of(value: bool) -> u64
    ensures { result ≡ bit_of_bool value }
{
    if value { 1 } else { 0 }
}

/// Returns the bits of a number, as a word.
pub fn bits_of<T: Primitive>(value: T) -> u64
    ensures bits { result ≡ T.bits value }
    ensures fits { result < 2 ^ (8 * T.BYTES) }
    ensures back { T.from_bits result ≡ value }
{
    let mut bytes = [0; 8];
    T::set(&mut bytes[..], value);
    u64::get(&bytes)
}

/// Returns the number that has the lowest bits of a word.
pub fn number_in<T: Primitive>(word: u64) -> T
    ensures { result ≡ T.from_bits (bits_at 0 (8 * T.BYTES) word) }
{
    T::get(&word.to_le_bytes())
}
