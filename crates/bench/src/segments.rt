//! Segments of a MiB.
ghost use Rattle.std.specs.Prelude.{◌≡◌, []};
ghost use Rattle.capnp_units.specs.declared.kinds.ErrorKind.TheVariants.{OutOfMemory};

use capnp_copy_arenas::allocator::Allocator;
use capnp_units::errors::Result;
use std::alloc::Global;

/// The number of words of a segment, unless more are requested.
const WORDS: u32 = 1 << 17;

/// Hands out segments of a MiB, or of as many words as are requested.
#[derive(Drop)]
pub struct Large {
    pub alloc: Global,
}

impl Allocator for Large {
    type Segment = Vec<u8>;

    ghost loans = { λ _. [] };

    ghost place = { λ _. [] };

    ghost refuses = { λ _ _ kind. kind ≡ OutOfMemory };

    fn allocate_segment(&mut self, minimum: u32) -> Result<Vec<u8>> {
        let mut bytes = Vec::new(self.alloc);
        bytes.resize(8 * minimum.max(WORDS) as usize, 0)?;
        Ok(bytes)
    }

    fn deallocate_segment(&mut self, segment: Vec<u8>, _words_used: u32) {
        drop(segment);
    }
}
