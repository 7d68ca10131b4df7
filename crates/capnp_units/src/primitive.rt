//! Whole numbers in data sections and lists of elements.
ghost use Rattle.std.specs.Prelude.{◌≡◌, ◌⊎◌, refl, ℕ, ◌*◌, ◌^◌, ◌<◌, ◌≤◌, length, bit_xor};
ghost use Rattle.std.specs.Int.{w8, w16, w32, w64, cast_signed, cast_unsigned};
ghost use Rattle.std.proofs.Common.{rules, inl, inr};
ghost use Rattle.capnp_model.specs.Sections.{bits_at, with_bits, number_of};

use crate::units::ByteCount;

/// A whole number of one, two, four or eight bytes, with or without a sign. Bytes hold it with the
/// lowest byte first.
pub trait Primitive: Copy {
    /// The bytes of a number.
    ghost BYTES: { ℕ };

    /// The bits of a number; those of a negative number are its two's complement.
    ghost bits: { Self → ℕ };

    /// The number that has these bits.
    ghost from_bits: { ℕ → Self };

    /// The bytes of a number: 1, 2, 4 or 8.
    const BYTES: ByteCount;

    /// A number has 1, 2, 4 or 8 bytes, so it fits one word.
    ghost of_a_word: { (BYTES ≡ 1) ⊎ ((BYTES ≡ 2) ⊎ ((BYTES ≡ 4) ⊎ (BYTES ≡ 8))) };

    /// Returns the number in the first bytes.
    fn get(bytes: &[u8]) -> Self
        requires { BYTES ≤ length bytes.now }
        ensures value { result ≡ from_bits (bits_at 0 (8 * BYTES) (number_of 8 bytes.now)) };

    /// Writes the number into the first bytes, and leaves the other bytes.
    fn set(bytes: &mut [u8], value: Self)
        requires { BYTES ≤ length bytes.old }
        ensures bits { number_of 8 bytes.new
            ≡ with_bits 0 (8 * BYTES) (bits value) (number_of 8 bytes.old) }
        ensures len { length bytes.new ≡ length bytes.old }
        ensures within { bits value < 2 ^ (8 * BYTES) }
        ensures back { from_bits (bits value) ≡ value };

    /// Bits that are few enough are those of their number.
    ghost same_bits: { (n : ℕ) → n < 2 ^ (8 * BYTES) → bits (from_bits n) ≡ n };
}

/// A number whose bits are all zero.
pub trait Zero: Primitive {
    /// Returns zero.
    fn zero() -> Self
        ensures bits { Self.bits result ≡ 0 }
        ensures value { result ≡ Self.from_bits 0 };
}

/// A number that is stored as the exclusive or with its default.
pub trait Mask: Primitive {
    /// The type of a default.
    type T: Copy;

    /// The bits of a default.
    ghost mask_bits: { Self.T → ℕ };

    /// Returns the number whose bits are the exclusive or of those of two numbers. With the same
    /// mask a second time it returns the first number.
    fn mask(value: Self, mask: Self::T) -> Self
        ensures value { result ≡ Self.from_bits (bit_xor (Self.bits value) (mask_bits mask)) }
        ensures bits { Self.bits result ≡ bit_xor (Self.bits value) (mask_bits mask) }
        ensures twice { Self.from_bits (bit_xor (Self.bits result) (mask_bits mask)) ≡ value };
}

impl Primitive for u8 {
    ghost BYTES = { 1 };

    ghost bits = { λ n. n };

    ghost from_bits = { λ n. n };

    const BYTES: ByteCount = 1;

    ghost of_a_word = { inl refl };

    fn get(bytes: &[u8]) -> u8 {
        bytes[0]
    }

    fn set(bytes: &mut [u8], value: u8) {
        bytes[..1].copy_from_slice(&value.to_le_bytes());
    }

    ghost same_bits = { Prim.search rules };
}

impl Zero for u8 {
    fn zero() -> u8 {
        0
    }
}

impl Mask for u8 {
    type T = u8;

    ghost mask_bits = { λ n. n };

    fn mask(value: u8, mask: u8) -> u8 {
        value ^ mask
    }
}

impl Primitive for i8 {
    ghost BYTES = { 1 };

    ghost bits = { cast_unsigned w8 };

    ghost from_bits = { cast_signed w8 };

    const BYTES: ByteCount = 1;

    ghost of_a_word = { inl refl };

    fn get(bytes: &[u8]) -> i8 {
        u8::get(bytes).cast_signed()
    }

    fn set(bytes: &mut [u8], value: i8) {
        u8::set(bytes, value.cast_unsigned());
    }

    ghost same_bits = { Prim.search rules };
}

impl Zero for i8 {
    fn zero() -> i8 {
        0
    }
}

impl Mask for i8 {
    type T = i8;

    ghost mask_bits = { cast_unsigned w8 };

    fn mask(value: i8, mask: i8) -> i8 {
        u8::mask(value.cast_unsigned(), mask.cast_unsigned()).cast_signed()
    }
}

impl Primitive for u16 {
    ghost BYTES = { 2 };

    ghost bits = { λ n. n };

    ghost from_bits = { λ n. n };

    const BYTES: ByteCount = 2;

    ghost of_a_word = { inr (inl refl) };

    fn get(bytes: &[u8]) -> u16 {
        u16::from_le_bytes([bytes[0], bytes[1]])
    }

    fn set(bytes: &mut [u8], value: u16) {
        bytes[..2].copy_from_slice(&value.to_le_bytes());
    }

    ghost same_bits = { Prim.search rules };
}

impl Zero for u16 {
    fn zero() -> u16 {
        0
    }
}

impl Mask for u16 {
    type T = u16;

    ghost mask_bits = { λ n. n };

    fn mask(value: u16, mask: u16) -> u16 {
        value ^ mask
    }
}

impl Primitive for i16 {
    ghost BYTES = { 2 };

    ghost bits = { cast_unsigned w16 };

    ghost from_bits = { cast_signed w16 };

    const BYTES: ByteCount = 2;

    ghost of_a_word = { inr (inl refl) };

    fn get(bytes: &[u8]) -> i16 {
        u16::get(bytes).cast_signed()
    }

    fn set(bytes: &mut [u8], value: i16) {
        u16::set(bytes, value.cast_unsigned());
    }

    ghost same_bits = { Prim.search rules };
}

impl Zero for i16 {
    fn zero() -> i16 {
        0
    }
}

impl Mask for i16 {
    type T = i16;

    ghost mask_bits = { cast_unsigned w16 };

    fn mask(value: i16, mask: i16) -> i16 {
        u16::mask(value.cast_unsigned(), mask.cast_unsigned()).cast_signed()
    }
}

impl Primitive for u32 {
    ghost BYTES = { 4 };

    ghost bits = { λ n. n };

    ghost from_bits = { λ n. n };

    const BYTES: ByteCount = 4;

    ghost of_a_word = { inr (inr (inl refl)) };

    fn get(bytes: &[u8]) -> u32 {
        u32::from_le_bytes([bytes[0], bytes[1], bytes[2], bytes[3]])
    }

    fn set(bytes: &mut [u8], value: u32) {
        bytes[..4].copy_from_slice(&value.to_le_bytes());
    }

    ghost same_bits = { Prim.search rules };
}

impl Zero for u32 {
    fn zero() -> u32 {
        0
    }
}

impl Mask for u32 {
    type T = u32;

    ghost mask_bits = { λ n. n };

    fn mask(value: u32, mask: u32) -> u32 {
        value ^ mask
    }
}

impl Primitive for i32 {
    ghost BYTES = { 4 };

    ghost bits = { cast_unsigned w32 };

    ghost from_bits = { cast_signed w32 };

    const BYTES: ByteCount = 4;

    ghost of_a_word = { inr (inr (inl refl)) };

    fn get(bytes: &[u8]) -> i32 {
        u32::get(bytes).cast_signed()
    }

    fn set(bytes: &mut [u8], value: i32) {
        u32::set(bytes, value.cast_unsigned());
    }

    ghost same_bits = { Prim.search rules };
}

impl Zero for i32 {
    fn zero() -> i32 {
        0
    }
}

impl Mask for i32 {
    type T = i32;

    ghost mask_bits = { cast_unsigned w32 };

    fn mask(value: i32, mask: i32) -> i32 {
        u32::mask(value.cast_unsigned(), mask.cast_unsigned()).cast_signed()
    }
}

impl Primitive for u64 {
    ghost BYTES = { 8 };

    ghost bits = { λ n. n };

    ghost from_bits = { λ n. n };

    const BYTES: ByteCount = 8;

    ghost of_a_word = { inr (inr (inr refl)) };

    #[tactic(auto, using(crate::proofs::lemmas::FirstBytes::first_eight))]
    fn get(bytes: &[u8]) -> u64 {
        u64::from_le_bytes([
            bytes[0], bytes[1], bytes[2], bytes[3], bytes[4], bytes[5], bytes[6], bytes[7],
        ])
    }

    fn set(bytes: &mut [u8], value: u64) {
        bytes[..8].copy_from_slice(&value.to_le_bytes());
    }

    ghost same_bits = { Prim.search rules };
}

impl Zero for u64 {
    fn zero() -> u64 {
        0
    }
}

impl Mask for u64 {
    type T = u64;

    ghost mask_bits = { λ n. n };

    fn mask(value: u64, mask: u64) -> u64 {
        value ^ mask
    }
}

impl Primitive for i64 {
    ghost BYTES = { 8 };

    ghost bits = { cast_unsigned w64 };

    ghost from_bits = { cast_signed w64 };

    const BYTES: ByteCount = 8;

    ghost of_a_word = { inr (inr (inr refl)) };

    fn get(bytes: &[u8]) -> i64 {
        u64::get(bytes).cast_signed()
    }

    fn set(bytes: &mut [u8], value: i64) {
        u64::set(bytes, value.cast_unsigned());
    }

    ghost same_bits = { Prim.search rules };
}

impl Zero for i64 {
    fn zero() -> i64 {
        0
    }
}

impl Mask for i64 {
    type T = i64;

    ghost mask_bits = { cast_unsigned w64 };

    fn mask(value: i64, mask: i64) -> i64 {
        u64::mask(value.cast_unsigned(), mask.cast_unsigned()).cast_signed()
    }
}
