//! Data sections apart from a message: fields of a struct are set in a section, and all are written
//! at once. Each function is inlined, so that a field at a constant offset takes a few
//! instructions.
ghost use Rattle.std.specs.Prelude.{◌≡◌, ◌+◌, ◌*◌, ◌%◌, ◌^◌, ◌<◌, ◌≤◌, ◌==◌, bit_xor, length};
ghost use Rattle.capnp_model.specs.Bytes.{words_in_bytes};
ghost use Rattle.capnp_model.specs.Sections.{bits_at, with_bits};
ghost use Rattle.capnp_wire_canonical.specs.Writes.{words_view};
ghost use Rattle.capnp_wire.specs.Views.{bit_of_bool};

use capnp_copy_arenas::bits::{bit_of, bits_in, bits_of, number_in, word_with};
use capnp_units::primitive::{Mask, Primitive};
use capnp_units::sizes::{Word, words_as_bytes};
use capnp_units::units::ElementCount;

/// Returns the bytes of words, lent in place.
#[inline(always)]
fn bytes_of(words: &[Word]) -> &[u8]
    ensures len { length result.now ≡ 8 * length words.now }
    ensures words { words_in_bytes (length words.now) result.now ≡ words_view words.now }
{
    words_as_bytes(words)
}

/// The data section of a struct of N words, apart from any message. A struct takes it over by
/// `StructBuilder::set_data_section`, which looks its words up once.
#[derive(Clone, Copy, Debug, PartialEq, Eq)]
pub struct DataSection<const N: usize> {
    pub words: [Word; N],
    pub ghost few: { N < 2 ^ 16 },
}

impl<const N: usize> DataSection<N> {
    ghost use Rattle.capnp_layout_builders.specs.DataSections.{section_number};

    /// Makes a section of zeros, like that of a new struct.
    pub fn new() -> Self
        requires { N < 2 ^ 16 }
        ensures { section_number result ≡ 0 }
    {
        DataSection { words: [[0; 8]; N] }
    }

    /// Returns n bits of the section, which are in one of its words.
    #[inline(always)]
    fn get_bits(&self, at: usize, width: u32) -> u64
        requires inside { at + width ≤ 64 * N }
        requires one_word { (at % 64 + width ≤ 64) × (0 < width) }
        ensures { result ≡ bits_at at width (section_number self.now) }
    {
        let word = u64::from_le_bytes(self.words[at / 64]);
        bits_in(word, (at % 64) as u32, width)
    }

    /// Sets n bits of the section, which are in one of its words.
    #[inline(always)]
    fn set_bits(&mut self, at: usize, width: u32, value: u64)
        requires inside { at + width ≤ 64 * N }
        requires one_word { (at % 64 + width ≤ 64) × (0 < width) }
        requires fits { value < 2 ^ width }
        ensures { section_number self.new ≡ with_bits at width value (section_number self.old) }
    {
        let word = u64::from_le_bytes(self.words[at / 64]);
        let word = word_with(word, (at % 64) as u32, width, value);
        self.words[at / 64] = word.to_le_bytes();
    }

    /// Returns a number of the section, at an offset in units of its width. The field is in the
    /// section.
    #[inline(always)]
    pub fn get_data_field<T: Primitive>(&self, offset: ElementCount) -> T
        requires inside { T.BYTES * offset + T.BYTES ≤ 8 * N }
        ensures { result ≡ T.from_bits
            (bits_at (8 * (T.BYTES * offset)) (8 * T.BYTES) (section_number self.now)) }
    {
        let bits = self.get_bits(8 * (T::BYTES * offset), 8 * T::BYTES as u32);
        number_in(bits)
    }

    /// Returns a number like the getter without a mask, with its bits exclusive-or'ed with those of
    /// the field's default.
    #[inline(always)]
    pub fn get_data_field_mask<T: Primitive + Mask>(&self, offset: ElementCount, mask: T::T) -> T
        requires inside { T.BYTES * offset + T.BYTES ≤ 8 * N }
        ensures { let at = 8 * (T.BYTES * offset) in result ≡ T.from_bits
            (bit_xor (bits_at at (8 * T.BYTES) (section_number self.now)) (T.mask_bits mask)) }
    {
        T::mask(self.get_data_field::<T>(offset), mask)
    }

    /// Sets a number of the section, at an offset in units of its width. The field is in the
    /// section; its neighbours keep their bits.
    #[inline(always)]
    pub fn set_data_field<T: Primitive>(&mut self, offset: ElementCount, value: T)
        requires inside { T.BYTES * offset + T.BYTES ≤ 8 * N }
        ensures { section_number self.new ≡ with_bits
            (8 * (T.BYTES * offset)) (8 * T.BYTES) (T.bits value) (section_number self.old) }
    {
        let bits = bits_of(value);
        self.set_bits(8 * (T::BYTES * offset), 8 * T::BYTES as u32, bits);
    }

    /// Sets a number like the setter without a mask, with the value's bits exclusive-or'ed with
    /// those of the field's default: read with this mask, the field is the value.
    #[inline(always)]
    pub fn set_data_field_mask<T: Primitive + Mask>(
        &mut self,
        offset: ElementCount,
        value: T,
        mask: T::T,
    )
        requires inside { T.BYTES * offset + T.BYTES ≤ 8 * N }
        ensures { section_number self.new ≡ with_bits (8 * (T.BYTES * offset)) (8 * T.BYTES)
            (bit_xor (T.bits value) (T.mask_bits mask)) (section_number self.old) }
    {
        self.set_data_field(offset, T::mask(value, mask));
    }

    /// Returns a bit of the section, at an offset in bits. The field is in the section.
    #[inline(always)]
    pub fn get_bool_field(&self, offset: ElementCount) -> bool
        requires inside { offset < 64 * N }
        ensures { result ≡ (bits_at offset 1 (section_number self.now) == 1) }
    {
        self.get_bits(offset, 1) == 1
    }

    /// Returns a bit like the getter without a mask, exclusive-or'ed with the field's default.
    #[inline(always)]
    pub fn get_bool_field_mask(&self, offset: ElementCount, mask: bool) -> bool
        requires inside { offset < 64 * N }
        ensures { result
            ≡ (bit_xor (bits_at offset 1 (section_number self.now)) (bit_of_bool mask) == 1) }
    {
        self.get_bool_field(offset) != mask
    }

    /// Sets a bit of the section, at an offset in bits. The field is in the section; its neighbours
    /// keep their bits.
    #[inline(always)]
    pub fn set_bool_field(&mut self, offset: ElementCount, value: bool)
        requires inside { offset < 64 * N }
        ensures { section_number self.new
            ≡ with_bits offset 1 (bit_of_bool value) (section_number self.old) }
    {
        self.set_bits(offset, 1, bit_of(value));
    }

    /// Sets a bit like the setter without a mask, with the value exclusive-or'ed with the field's
    /// default.
    #[inline(always)]
    pub fn set_bool_field_mask(&mut self, offset: ElementCount, value: bool, mask: bool)
        requires inside { offset < 64 * N }
        ensures { section_number self.new ≡ with_bits offset 1
            (bit_xor (bit_of_bool value) (bit_of_bool mask)) (section_number self.old) }
    {
        self.set_bool_field(offset, value != mask);
    }

    /// Returns the bytes of the section, lent in place.
    #[inline(always)]
    pub fn as_bytes(&self) -> &[u8]
        ensures len { length result.now ≡ 8 * N }
        ensures words { words_in_bytes N result.now ≡ words_view self.now.words }
    {
        bytes_of(&self.words)
    }
}
