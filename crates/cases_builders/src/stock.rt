//! Segments of the sizes that a script gives.
ghost use Rattle.std.specs.Prelude.{◌≡◌, []};
ghost use Rattle.capnp_units.specs.declared.kinds.ErrorKind.TheVariants.{OutOfMemory};

use capnp_copy_arenas::allocator::Allocator;
use capnp_units::errors::{Error, Result};
use capnp_units::kinds::ErrorKind;
use std::alloc::Global;

/// The least words of each segment, in order, and the number of segments; if the script gives none,
/// the least words of every segment.
#[derive(Drop)]
pub struct Stock {
    alloc: Global,
    least: u32,
    sizes: Option<Vec<u32>>,
    next: usize,
}

/// The most words of a segment here.
const MOST: u32 = 1 << 20;

impl Stock {
    pub fn new(alloc: Global, least: u32, sizes: Option<Vec<u32>>) -> Stock {
        Stock {
            alloc,
            least,
            sizes,
            next: 0,
        }
    }

    /// Returns the least words of the next segment, if there is one.
    fn next_size(&self) -> Option<u32> {
        match &self.sizes {
            None => Some(self.least),
            Some(sizes) => sizes.get(self.next).copied(),
        }
    }
}

impl Allocator for Stock {
    type Segment = Vec<u8>;

    ghost loans = { λ _. [] };

    ghost place = { λ _. [] };

    ghost refuses = { λ _ _ kind. kind ≡ OutOfMemory };

    fn allocate_segment(&mut self, minimum: u32) -> Result<Vec<u8>> {
        let words = match self.next_size() {
            Some(least) if minimum <= MOST && least <= MOST => minimum.max(least),
            _ => return Err(Error::from(ErrorKind::OutOfMemory)),
        };
        self.next = self.next.saturating_add(1);
        let mut bytes = Vec::new(self.alloc);
        bytes.resize(8 * words as usize, 0)?;
        Ok(bytes)
    }

    fn deallocate_segment(&mut self, segment: Vec<u8>, _words_used: u32) {
        drop(segment);
    }
}
