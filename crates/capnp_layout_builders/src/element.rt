//! Types as which elements of lists can be written.
ghost use Rattle.std.specs.Prelude.{◌≡◌, ◌*◌, ◌<◌, ◌^◌, ◌==◌, ℕ};
ghost use Rattle.std.specs.Int.{w8, w16, w32, w64, cast_unsigned};
ghost use Rattle.capnp_model.specs.Sections.{bits_at};
ghost use Rattle.capnp_wire.specs.Views.{bit_of_bool};

use capnp_copy_arenas::bits::{bit_of, bits_of, number_in};
use capnp_wire::element::PrimitiveElement;

/// A type as which an element of a list can be written: a whole number, a truth value, or nothing.
pub trait BuilderElement: PrimitiveElement {
    /// The bits of a value; those of a negative number are its two's complement.
    ghost bits: { Self → ℕ };

    /// Returns the bits of a value, from which the value can be made again.
    fn bits_of_element(value: Self) -> u64
        ensures bits { result ≡ bits value }
        ensures fits { result < 2 ^ Self.width }
        ensures back { Self.of_bits result ≡ value };

    /// Returns the value that has the lowest bits of a word.
    fn element_of_bits(word: u64) -> Self
        ensures { result ≡ Self.of_bits (bits_at 0 Self.width word) };
}

impl BuilderElement for () {
    ghost bits = { λ v. 0 };

    fn bits_of_element(_value: ()) -> u64 {
        0
    }

    fn element_of_bits(_word: u64) {}
}

impl BuilderElement for bool {
    ghost bits = { bit_of_bool };

    fn bits_of_element(value: bool) -> u64 {
        bit_of(value)
    }

    fn element_of_bits(word: u64) -> bool {
        word % 2 == 1
    }
}

impl BuilderElement for u8 {
    ghost bits = { λ n. n };

    fn bits_of_element(value: u8) -> u64 {
        bits_of(value)
    }

    fn element_of_bits(word: u64) -> u8 {
        number_in(word)
    }
}

impl BuilderElement for u16 {
    ghost bits = { λ n. n };

    fn bits_of_element(value: u16) -> u64 {
        bits_of(value)
    }

    fn element_of_bits(word: u64) -> u16 {
        number_in(word)
    }
}

impl BuilderElement for u32 {
    ghost bits = { λ n. n };

    fn bits_of_element(value: u32) -> u64 {
        bits_of(value)
    }

    fn element_of_bits(word: u64) -> u32 {
        number_in(word)
    }
}

impl BuilderElement for u64 {
    ghost bits = { λ n. n };

    fn bits_of_element(value: u64) -> u64 {
        bits_of(value)
    }

    fn element_of_bits(word: u64) -> u64 {
        number_in(word)
    }
}

impl BuilderElement for i8 {
    ghost bits = { cast_unsigned w8 };

    fn bits_of_element(value: i8) -> u64 {
        bits_of(value)
    }

    fn element_of_bits(word: u64) -> i8 {
        number_in(word)
    }
}

impl BuilderElement for i16 {
    ghost bits = { cast_unsigned w16 };

    fn bits_of_element(value: i16) -> u64 {
        bits_of(value)
    }

    fn element_of_bits(word: u64) -> i16 {
        number_in(word)
    }
}

impl BuilderElement for i32 {
    ghost bits = { cast_unsigned w32 };

    fn bits_of_element(value: i32) -> u64 {
        bits_of(value)
    }

    fn element_of_bits(word: u64) -> i32 {
        number_in(word)
    }
}

impl BuilderElement for i64 {
    ghost bits = { cast_unsigned w64 };

    fn bits_of_element(value: i64) -> u64 {
        bits_of(value)
    }

    fn element_of_bits(word: u64) -> i64 {
        number_in(word)
    }
}
