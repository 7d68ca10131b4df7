//! The words of a message that is being made, in one segment.

use crate::fault::MakeFault;
use std::alloc::{AllocError, Global};

/// The most words of a message.
const MOST_WORDS: usize = (1 << 29) - 1;

/// The sections of a struct: its first word, and the sizes of both.
#[derive(Clone, Copy, Debug, PartialEq, Eq)]
pub struct Sections {
    /// The first word, counted from the first word of the segment.
    pub start: usize,
    pub data_words: u16,
    pub pointers: u16,
}

impl Sections {
    /// Returns the number of words of both sections.
    fn words(self) -> usize {
        usize::from(self.data_words).saturating_add(usize::from(self.pointers))
    }

    /// Returns the word of a pointer.
    pub fn pointer(self, index: u32) -> usize {
        let before = self.start.saturating_add(usize::from(self.data_words));
        before.saturating_add(index as usize)
    }
}

/// A list of structs: its first element, and the sizes of each.
#[derive(Clone, Copy, Debug, PartialEq, Eq)]
pub struct StructList {
    first: Sections,
}

impl StructList {
    /// Returns the sections of an element.
    pub fn element(self, index: usize) -> Sections {
        let before = self.first.words().saturating_mul(index);
        Sections {
            start: self.first.start.saturating_add(before),
            ..self.first
        }
    }
}

/// The size of the elements of a list without structs, as the number that the pointer has.
#[derive(Clone, Copy, Debug, PartialEq, Eq)]
pub enum Size {
    Void,
    /// Elements of a number of bits: 1, 8, 16, 32 or 64.
    Bits(u32),
    Pointer,
}

impl Size {
    /// Returns the number that a list pointer has for the size. (Encoding, "Lists")
    fn code(self) -> u32 {
        match self {
            Size::Void => 0,
            Size::Bits(1) => 1,
            Size::Bits(8) => 2,
            Size::Bits(16) => 3,
            Size::Bits(32) => 4,
            Size::Bits(_) => 5,
            Size::Pointer => 6,
        }
    }

    /// Returns the number of words that elements of the size take.
    fn words(self, count: u32) -> usize {
        let bits = match self {
            Size::Void => 0,
            Size::Bits(width) => u64::from(width.min(64)),
            Size::Pointer => 64,
        };
        let all = u64::from(count).saturating_mul(bits);
        all.div_ceil(64) as usize
    }
}

/// The words of one segment. The first word is the root pointer.
#[derive(Debug, Drop)]
pub struct Draft {
    bytes: Vec<u8>,
}

impl Draft {
    /// Makes a segment with a null root pointer.
    pub fn new(alloc: Global) -> Result<Draft, AllocError> {
        let mut bytes = Vec::new(alloc);
        bytes.resize(8, 0)?;
        Ok(Draft { bytes })
    }

    /// Makes the segment a null root pointer again, and keeps its memory.
    pub fn clear(&mut self) -> Result<(), AllocError> {
        self.bytes.clear();
        self.bytes.resize(8, 0)
    }

    /// Returns the bytes of the segment.
    pub fn as_bytes(&self) -> &[u8] {
        &self.bytes
    }

    /// Appends zero words, and returns the first of them.
    fn add(&mut self, count: usize) -> Result<usize, MakeFault> {
        let start = self.bytes.len() / 8;
        let Some(end) = start.checked_add(count) else {
            return Err(MakeFault::TooLarge);
        };
        if end > MOST_WORDS {
            return Err(MakeFault::TooLarge);
        }
        self.bytes.resize(end * 8, 0)?;
        Ok(start)
    }

    /// Writes bytes over those from an offset on.
    fn put(&mut self, offset: usize, bytes: &[u8]) {
        let mut offset = offset;
        for byte in bytes {
            if let Some(place) = self.bytes.get_mut(offset) {
                *place = *byte;
            }
            offset = offset.saturating_add(1);
        }
    }

    /// Writes a pointer to words from `start` on, with the upper half that its kind has.
    /// (Encoding, "Structs" and "Lists")
    fn point(&mut self, at: usize, kind: u64, start: usize, upper: u32) {
        let offset = (start as u64).wrapping_sub(at as u64).wrapping_sub(1) & 0x3fff_ffff;
        let word = (u64::from(upper) << 32) | (offset << 2) | kind;
        self.put(at.saturating_mul(8), &word.to_le_bytes());
    }

    /// Makes a struct of zeros and nulls, to which the pointer at a word leads.
    pub fn add_struct(
        &mut self,
        at: usize,
        data_words: u16,
        pointers: u16,
    ) -> Result<Sections, MakeFault> {
        let sizes = Sections {
            start: at,
            data_words,
            pointers,
        };
        let upper = u32::from(data_words) | (u32::from(pointers) << 16);
        let count = sizes.words();
        if count == 0 {
            self.point(at, 0, at, upper);
            return Ok(sizes);
        }
        let start = self.add(count)?;
        self.point(at, 0, start, upper);
        Ok(Sections { start, ..sizes })
    }

    /// Makes a list of zeros or nulls, to which the pointer at a word leads, and returns its first
    /// word.
    pub fn add_list(&mut self, at: usize, size: Size, count: u32) -> Result<usize, MakeFault> {
        if count as usize > MOST_WORDS {
            return Err(MakeFault::TooLarge);
        }
        let start = self.add(size.words(count))?;
        self.point(at, 1, start, (count << 3) | size.code());
        Ok(start)
    }

    /// Makes a list of structs of zeros and nulls, to which the pointer at a word leads.
    /// (Encoding, "Lists")
    pub fn add_structs(
        &mut self,
        at: usize,
        count: u32,
        data_words: u16,
        pointers: u16,
    ) -> Result<StructList, MakeFault> {
        let sizes = Sections {
            start: 0,
            data_words,
            pointers,
        };
        let words = sizes.words().saturating_mul(count as usize);
        if count as usize > MOST_WORDS || words > MOST_WORDS {
            return Err(MakeFault::TooLarge);
        }
        let tag = self.add(words.saturating_add(1))?;
        self.point(at, 1, tag, ((words as u32) << 3) | 7);
        let upper = u64::from(data_words) | (u64::from(pointers) << 16);
        let word = (upper << 32) | (u64::from(count) << 2);
        self.put(tag.saturating_mul(8), &word.to_le_bytes());
        let first = Sections {
            start: tag.saturating_add(1),
            ..sizes
        };
        Ok(StructList { first })
    }

    /// Makes a list of bytes, to which the pointer at a word leads. A text ends in a zero byte.
    pub fn add_bytes(&mut self, at: usize, bytes: &[u8], is_text: bool) -> Result<(), MakeFault> {
        let count = bytes.len().saturating_add(usize::from(is_text));
        if count > MOST_WORDS {
            return Err(MakeFault::TooLarge);
        }
        let start = self.add_list(at, Size::Bits(8), count as u32)?;
        let from = start.saturating_mul(8);
        let end = from.saturating_add(bytes.len());
        if from <= end && end <= self.bytes.len() {
            self.bytes[from..end].copy_from_slice(bytes);
        }
        Ok(())
    }

    /// Writes the lowest bits of a number `index` widths after a word. The width is 1, 8, 16, 32 or
    /// 64.
    pub fn put_bits(&mut self, word: usize, index: usize, width: u32, bits: u64) {
        let start = word.saturating_mul(8);
        let number = bits.to_le_bytes();
        if width == 1 {
            let offset = start.saturating_add(index / 8);
            let mask = 1u8 << (index % 8) as u32;
            if let Some(place) = self.bytes.get_mut(offset) {
                *place = if bits & 1 == 1 {
                    *place | mask
                } else {
                    *place & !mask
                };
            }
            return;
        }
        let size = (width / 8) as usize;
        let offset = start.saturating_add(index.saturating_mul(size));
        if let Some(some) = number.get(..size) {
            self.put(offset, some);
        }
    }
}
