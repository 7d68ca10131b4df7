//! The words of a line, taken one by one.

use crate::outcomes::Stop;
use capnp_units::sizes::{ElementSize, StructSize};
use hex::FromHexError;
use std::alloc::Global;
use std::str::SplitWhitespace;

/// The words of a line that weren't taken yet.
#[derive(Drop)]
pub struct Line<'a> {
    words: SplitWhitespace<'a>,
}

impl<'a> Line<'a> {
    pub fn new(text: &'a str) -> Line<'a> {
        Line {
            words: text.split_whitespace(),
        }
    }

    /// Takes the next word.
    pub fn word(&mut self) -> Result<&'a str, Stop> {
        self.words.next().ok_or(Stop::Shape)
    }

    /// Takes the next number.
    pub fn number(&mut self) -> Result<u64, Stop> {
        self.word()?.parse::<u64>().map_err(|_| Stop::Shape)
    }

    pub fn index(&mut self) -> Result<usize, Stop> {
        Ok(self.number()? as usize)
    }

    pub fn short(&mut self) -> Result<u32, Stop> {
        u32::try_from(self.number()?).map_err(|_| Stop::Shape)
    }

    /// Takes the sizes of a struct's sections.
    pub fn struct_size(&mut self) -> Result<StructSize, Stop> {
        let data_words = u16::try_from(self.number()?).map_err(|_| Stop::Shape)?;
        let pointers = u16::try_from(self.number()?).map_err(|_| Stop::Shape)?;
        Ok(StructSize {
            data_words,
            pointers,
        })
    }

    pub fn element_size(&mut self) -> Result<ElementSize, Stop> {
        let number = self.number()?;
        if number > 7 {
            return Err(Stop::Shape);
        }
        Ok(ElementSize::from_number(number))
    }

    /// Takes a number, or nothing for `-`.
    pub fn limit(&mut self) -> Result<Option<u64>, Stop> {
        let word = self.word()?;
        if word == "-" {
            return Ok(None);
        }
        Ok(Some(word.parse::<u64>().map_err(|_| Stop::Shape)?))
    }

    /// Takes a number of bytes, and each byte.
    pub fn bytes(&mut self, alloc: Global) -> Result<Vec<u8>, Stop> {
        let count = self.index()?;
        let mut bytes = Vec::new(alloc);
        for _ in 0..count {
            bytes.push(u8::try_from(self.number()?).map_err(|_| Stop::Shape)?)?;
        }
        Ok(bytes)
    }

    /// Takes bytes in hex; no bytes for `-`.
    pub fn hex(&mut self, alloc: Global) -> Result<Vec<u8>, Stop> {
        let word = self.word()?;
        if word == "-" {
            return Ok(Vec::new(alloc));
        }
        match hex::decode(alloc, word.as_bytes()) {
            Ok(bytes) => Ok(bytes),
            Err(FromHexError::OutOfMemory) => Err(Stop::Memory),
            Err(_) => Err(Stop::Shape),
        }
    }

    /// Takes a number of segments, and the bytes of each in hex.
    pub fn segments(&mut self, alloc: Global) -> Result<Vec<Vec<u8>>, Stop> {
        let count = self.index()?;
        let mut segments = Vec::new(alloc);
        for _ in 0..count {
            segments.push(self.hex(alloc)?)?;
        }
        Ok(segments)
    }
}
