//! Lists of plain elements by themselves, so that readers of only such lists need no `Object`.
ghost use Rattle.std.specs.Prelude.{◌≡◌, ◌<◌, ◌^◌};
ghost use Rattle.capnp_wire_objects.specs.declared.object.Object.TheVariants as seen;
ghost use Rattle.capnp_wire_objects.specs.Near.{list_object, IsMeasured};

use crate::place::Place;
use capnp_units::sizes::{ElementSize, data_bits_per_element};

/// A list of plain elements, of a size from `Void` to `EightBytes`.
#[derive(Clone, Copy, Debug, PartialEq, Eq)]
pub struct NearList {
    /// The place of the first element.
    pub start: Place,
    pub size: ElementSize,
    /// The number of elements, at most 2^29 - 1.
    pub count: u32,
    /// The number of bits of the elements.
    pub bits: u64,
    /// The number of words that hold those bits.
    pub words: usize,
}

impl NearList {
    /// Makes a list of n elements of a size.
    #[inline(always)]
    pub fn new(start: Place, size: ElementSize, count: u32) -> NearList
        ensures object { list_object result ≡ seen.List start size count }
        ensures measured { IsMeasured result }
        ensures few { result.words < 2 ^ 33 }
    {
        let bits = data_bits_per_element(size) as u64 * count as u64;
        NearList {
            start,
            size,
            count,
            bits,
            words: ((bits + 63) / 64) as usize,
        }
    }
}
