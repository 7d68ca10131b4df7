//! Data sections of structs.

ghost use Rattle.std.specs.Prelude.{◌≡◌, IfOk, IfErr};
ghost use Rattle.capnp_source_layout.specs.Sections.{size_of, offsets_of, words_of, IsSectionFault};

use crate::holes::place;
use std::alloc::{AllocError, AllocFailed, Global};

/// The size of a field in a data section.
#[derive(Clone, Copy, Debug, PartialEq, Eq)]
pub enum DataSize {
    Bit,
    Byte,
    TwoBytes,
    FourBytes,
    EightBytes,
}

/// The places of fields in a data section.
#[derive(Debug, Drop)]
pub struct DataSection {
    /// The size in words.
    pub words: u64,
    /// The offset of each field, in fields of its size.
    pub offsets: Vec<u64>,
}

/// A reason why fields can't be laid out.
#[derive(Clone, Copy, Debug, PartialEq, Eq)]
pub enum SectionFault {
    /// An offset would pass 2^63.
    TooLarge,
    /// An allocation was refused.
    Memory,
}

impl From<AllocError> for SectionFault {
    ghost use Rattle.std.specs.Prelude.{◌≡◌};
    ghost use Rattle.capnp_source_layout.specs.declared.sections.SectionFault.{SectionFault};

    ghost from_gives = { λ _ fault. fault ≡ SectionFault.Memory };

    fn from(_e: AllocError) -> SectionFault {
        SectionFault::Memory
    }
}

impl<T: Drop> From<AllocFailed<T>> for SectionFault {
    ghost use Rattle.std.specs.Prelude.{◌≡◌};
    ghost use Rattle.capnp_source_layout.specs.declared.sections.SectionFault.{SectionFault};

    ghost from_gives = { λ _ fault. fault ≡ SectionFault.Memory };

    fn from(_e: AllocFailed<T>) -> SectionFault {
        SectionFault::Memory
    }
}

/// Returns the exponent of a size, which is a power of two bits.
pub fn size_of(size: DataSize) -> usize
    ensures { result ≡ size_of size }
{
    match size {
        DataSize::Bit => 0,
        DataSize::Byte => 3,
        DataSize::TwoBytes => 4,
        DataSize::FourBytes => 5,
        DataSize::EightBytes => 6,
    }
}

/// Lays fields out in a data section of their own, in their order. Each takes the first place that
/// is left, as `holes::place` finds it.
///
/// Returns `TooLarge` if an offset would pass 2^63, which takes more fields than a struct may have,
/// and `Memory` if an allocation is refused.
pub fn data_section(alloc: Global, sizes: &[DataSize]) -> Result<DataSection, SectionFault>
    ensures offsets { IfOk result (λ s. s.offsets.items ≡ offsets_of sizes.now) }
    ensures words { IfOk result (λ s. s.words ≡ words_of sizes.now) }
    ensures err { IfErr result (IsSectionFault sizes.now) }
{
    let mut words = 0;
    let mut holes = [None; 6];
    let mut offsets = Vec::new(alloc);
    let mut left = sizes;
    while let [size, others @ ..] = left {
        let Some(offset) = place(size_of(*size), &mut words, &mut holes) else {
            return Err(SectionFault::TooLarge);
        };
        offsets.push(offset)?;
        left = others;
    }
    Ok(DataSection { words, offsets })
}
