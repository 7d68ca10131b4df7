//! Settings of the calls of a script.

use crate::line::Line;
use crate::outcomes::Stop;
use capnp_units::limiter::ReadLimiter;
use capnp_units::sizes::Word;
use std::alloc::Global;

/// The literal segments to copy from, and the literal default; the limits of a copy; the words and
/// pointers that the last copy used; and segments that are kept for a comparison.
#[derive(Drop)]
pub struct Settings {
    pub literals: Vec<Vec<u8>>,
    pub default: Vec<Word>,
    pub budget: Option<u64>,
    pub levels: i32,
    pub lent: usize,
    pub granted: u64,
    pub followed: u64,
    pub kept: Vec<Vec<u8>>,
}

/// The most words of a copy if the script sets no limit.
const BUDGET: u64 = 8 << 20;

/// The number of words that are lent for a canonical copy if the script doesn't say.
const LENT: usize = 4096;

impl Settings {
    pub fn new(alloc: Global) -> Settings {
        Settings {
            literals: Vec::new(alloc),
            default: Vec::new(alloc),
            budget: Some(BUDGET),
            levels: 64,
            lent: LENT,
            granted: 0,
            followed: 0,
            kept: Vec::new(alloc),
        }
    }

    /// Sets the limits that a line gives: of words, of levels, and the number of words that are
    /// lent.
    pub fn set_limits(&mut self, line: &mut Line<'_>) -> Result<(), Stop> {
        self.budget = line.limit()?;
        self.levels = line.word()?.parse::<i32>().map_err(|_| Stop::Shape)?;
        self.lent = line.index()?;
        Ok(())
    }

    /// Sets the literal segments that a line gives byte by byte.
    pub fn set_literals(&mut self, alloc: Global, line: &mut Line<'_>) -> Result<(), Stop> {
        let count = line.index()?;
        self.literals.clear();
        for _ in 0..count {
            self.literals.push(line.bytes(alloc)?)?;
        }
        Ok(())
    }

    /// Sets the default that a line gives in hex.
    pub fn set_default(&mut self, alloc: Global, line: &mut Line<'_>) -> Result<(), Stop> {
        let bytes = line.hex(alloc)?;
        self.default.clear();
        for chunk in bytes.chunks_exact(8) {
            let mut word: Word = [0; 8];
            word.copy_from_slice(chunk);
            self.default.push(word)?;
        }
        Ok(())
    }

    /// Keeps the words and pointers that a copy used.
    pub fn note(&mut self, limiter: &ReadLimiter) {
        self.granted = limiter.granted();
        self.followed = limiter.followed();
    }

    /// Returns whether the last copy used n words, and followed m pointers, if the line gives
    /// these.
    pub fn took(&self, line: &mut Line<'_>) -> Result<bool, Stop> {
        let granted = line.limit()?.unwrap_or(self.granted);
        let followed = line.limit()?.unwrap_or(self.followed);
        Ok(granted == self.granted && followed == self.followed)
    }
}

/// A struct with the number 9 and the text `hi`.
const STRUCT: &[Word] = &[
    [0, 0, 0, 0, 1, 0, 1, 0],
    [9, 0, 0, 0, 0, 0, 0, 0],
    [1, 0, 0, 0, 0x1a, 0, 0, 0],
    [0x68, 0x69, 0, 0, 0, 0, 0, 0],
];

/// The numbers 1, 2 and 3 of two bytes each.
const NUMBERS: &[Word] = &[[1, 0, 0, 0, 0x1b, 0, 0, 0], [1, 0, 2, 0, 3, 0, 0, 0]];

/// The text `hi`.
const TEXT: &[Word] = &[[1, 0, 0, 0, 0x1a, 0, 0, 0], [0x68, 0x69, 0, 0, 0, 0, 0, 0]];

/// Two structs: 5 with two zero bytes as data, and 6 with null.
const STRUCTS: &[Word] = &[
    [1, 0, 0, 0, 0x27, 0, 0, 0],
    [8, 0, 0, 0, 1, 0, 1, 0],
    [5, 0, 0, 0, 0, 0, 0, 0],
    [9, 0, 0, 0, 0x12, 0, 0, 0],
    [6, 0, 0, 0, 0, 0, 0, 0],
    [0; 8],
    [0; 8],
];

/// Returns the default of a number; 5 is the script's own.
pub fn default_of<'a>(
    settings: &'a Settings,
    line: &mut Line<'_>,
) -> Result<Option<&'a [Word]>, Stop> {
    match line.number()? {
        0 => Ok(None),
        1 => Ok(Some(STRUCT)),
        2 => Ok(Some(NUMBERS)),
        3 => Ok(Some(TEXT)),
        4 => Ok(Some(STRUCTS)),
        5 => Ok(Some(settings.default.as_slice())),
        _ => Err(Stop::Shape),
    }
}
