//! Lists that pointers lead to, whose elements are read as elements of an expected size.
ghost use Rattle.std.specs.Prelude.{◌≡◌, ◌≢◌, ◌+◌, ◌*◌, ◌<◌, ◌≤◌, ◌^◌, length, IfOk, option_copied};
ghost use Rattle.capnp_wire.specs.Views.{ground_of, seen_pointer, seen_list, list_view};
ghost use Rattle.capnp_wire.specs.Reads.{with_default, GetGives, read_list, read_elements, list_head};
ghost use Rattle.capnp_wire_objects.specs.Places.{seen, place_view};
ghost use Rattle.capnp_wire.specs.Elements.{step_bits, step_words};
ghost use Rattle.capnp_model.specs.Sections.{number_of};
ghost use Rattle.capnp_model.specs.Readings.{is_accepted_as};
ghost use Rattle.capnp_units.specs.Sizes.{size_number};

use crate::levels::level_below;
use crate::list::ListReader;
use crate::pointer::PointerReader;
use capnp_units::errors::{Error, Result};
use capnp_units::kinds::ErrorKind;
use capnp_units::limiter::ReadLimiter;
use capnp_units::sizes::{ElementSize, Word, data_bits_per_element, pointers_per_element};
use capnp_wire_objects::arena::ReaderArena;
use capnp_wire_objects::object::{Object, words_of_elements};
use capnp_wire_objects::place::Place;

impl<'a, A: ReaderArena> PointerReader<'a, A> {
    /// Returns a list whose bytes are lent, if a level is left and its elements can be read as
    /// elements of the expected size.
    #[inline(always)]
    fn list_of(
        &self,
        expected: ElementSize,
        bytes: &'a [u8],
        start: Place,
        count: u32,
        size: ElementSize,
        data_words: u16,
        pointers: u16,
    ) -> Result<ListReader<'a, A>>
        requires inside { step_bits (size_number size) data_words pointers * count ≤ 8 * length
            bytes.now }
        requires near { start.position + step_words (size_number size) data_words pointers * count
            < 2 ^ 61 }
        ensures list { seen (seen_list A.segments) result
            ≡ read_elements self.now.levels expected
            (list_view (ground_of A.segments self.now.backing) size count
            (number_of 8 bytes.now) (place_view start) data_words pointers) size data_words
            pointers }
        ensures bytewise { size_number expected ≢ 1
            → IfOk result (λ l. size_number (seen_list A.segments l).size ≢ 1) }
    {
        let levels = level_below(self.levels)?;
        if !is_accepted(expected, size, data_words, pointers) {
            return Err(Error::from(ErrorKind::WrongElementSize));
        }
        Ok(ListReader::of_parts(
            self.backing,
            bytes,
            start,
            count,
            size,
            data_words,
            pointers,
            levels,
        ))
    }

    /// Returns the list that the pointer leads to; null is the empty list of the expected size.
    #[inline(never)]
    fn list_here(
        &self,
        limiter: &mut ReadLimiter,
        expected: ElementSize,
    ) -> Result<ListReader<'a, A>>
        ensures list { GetGives (seen_list A.segments)
            (read_list (ground_of A.segments self.now.backing) self.now.levels expected)
            (seen_pointer A.segments self.now) limiter.old result limiter.new }
        ensures bytewise { size_number expected ≢ 1
            → IfOk result (λ l. size_number (seen_list A.segments l).size ≢ 1) }
    {
        let reached = self.reach(limiter)?;
        match reached.object {
            Object::Null => Ok(ListReader::empty(self.backing, expected, self.levels)),
            Object::List { start, size, count } => {
                let words = words_of_elements(size, count) as usize;
                let bytes = self.backing.lend_of(reached.bytes, start, words);
                self.list_of(expected, bytes, start, count, size, 0, 0)
            }
            Object::PointerList { start, count } => {
                self.list_of(expected, &[], start, count, ElementSize::Pointer, 0, 0)
            }
            Object::StructList {
                start,
                count,
                data_words,
                pointers,
                ..
            } => {
                let words = count as usize * (data_words as usize + pointers as usize);
                let bytes = self.backing.lend_of(reached.bytes, start, words);
                let size = ElementSize::InlineComposite;
                self.list_of(expected, bytes, start, count, size, data_words, pointers)
            }
            Object::Struct { .. } | Object::Capability { .. } => {
                Err(Error::from(ErrorKind::WrongPointerKind))
            }
        }
    }

    /// Returns the list that the pointer leads to, whose elements can be read as elements of the
    /// expected size. The elements are lent in place. A null pointer reads as the default's root,
    /// or without a default as the empty list of that size.
    ///
    /// It is refused like a struct, and with `WrongElementSize` if its elements are too narrow.
    /// Single bits are only read as single bits, and never from structs. Any other element needs
    /// the bits and the pointers of the expected element; for `InlineComposite` it needs none.
    #[inline(always)]
    pub fn get_list(
        &self,
        limiter: &mut ReadLimiter,
        expected: ElementSize,
        default: Option<&'a [Word]>,
    ) -> Result<ListReader<'a, A>>
        ensures list { let p = with_default (seen_pointer A.segments self.now)
            (option_copied default.entry) in
            GetGives (seen_list A.segments) (read_list p.basis p.levels expected) p limiter.old
            result limiter.new }

        // Where no single bits are expected, none are given.
        ensures bytewise { size_number expected ≢ 1
            → IfOk result (λ l. size_number (seen_list A.segments l).size ≢ 1) }
    {
        match default {
            None => self.list_here(limiter, expected),
            Some(_) => self.with_default(default).list_here(limiter, expected),
        }
    }
}

/// Returns whether elements of a size can be read as elements of an expected size. Structs have n
/// data words and pointers.
#[inline(always)]
fn is_accepted(expected: ElementSize, size: ElementSize, data_words: u16, pointers: u16) -> bool
    ensures { result ≡ is_accepted_as (size_number expected) (list_head size data_words pointers) }
{
    let bits = data_bits_per_element(expected) as u64;
    let refs = pointers_per_element(expected);
    match size {
        ElementSize::InlineComposite => {
            expected != ElementSize::Bit
                && bits <= 64 * data_words as u64
                && refs <= pointers as u32
        }
        ElementSize::Bit => expected == ElementSize::Bit,
        _ => { bits <= data_bits_per_element(size) as u64 && refs <= pointers_per_element(size) }
    }
}
