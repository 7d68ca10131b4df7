//! An allocator with room for one segment.
ghost use Rattle.std.specs.Prelude.{◌≡◌, []};
ghost use Rattle.capnp_units.specs.declared.kinds.ErrorKind.TheVariants.{OutOfMemory};

use capnp_copy_arenas::allocator::Allocator;
use capnp_units::errors::{Error, Result};
use capnp_units::kinds::ErrorKind;
use std::alloc::Global;

/// Hands out one segment of n words.
#[derive(Drop)]
pub struct Room {
    alloc: Global,
    words: u32,
    is_left: bool,
}

impl Room {
    /// Makes an allocator with room for n words.
    pub fn new(alloc: Global, words: u32) -> Room {
        Room {
            alloc,
            words,
            is_left: true,
        }
    }
}

impl Allocator for Room {
    type Segment = Vec<u8>;

    ghost loans = { λ _. [] };

    ghost place = { λ _. [] };

    ghost refuses = { λ _ _ kind. kind ≡ OutOfMemory };

    fn allocate_segment(&mut self, minimum: u32) -> Result<Vec<u8>> {
        if !self.is_left || minimum > self.words {
            return Err(Error::from(ErrorKind::OutOfMemory));
        }
        self.is_left = false;
        let mut bytes = Vec::new(self.alloc);
        bytes.resize(8 * self.words as usize, 0)?;
        Ok(bytes)
    }

    fn deallocate_segment(&mut self, segment: Vec<u8>, _words_used: u32) {
        drop(segment);
    }
}
