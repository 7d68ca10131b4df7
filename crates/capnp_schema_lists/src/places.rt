//! Places of elements that are structs, and of the pointers of elements.
ghost use Rattle.std.specs.Prelude.{◌≡◌, ◌<◌, ◌^◌};
ghost use Rattle.capnp_units.specs.Sizes.{size_number};
ghost use Rattle.capnp_schema_lists.specs.Places.{IsStructAt, IsElementPointer};

use capnp_copy_arenas::fields::StructPlace;
use capnp_copy_arenas::init::ListPlace;
use capnp_units::sizes::ElementSize;
use capnp_wire_objects::place::Place;

/// Returns the place of an element of a list of structs, with the list's data words and pointers.
/// The index is within the list. The law `elements_as_structs` relates the struct to the list.
pub fn element_struct(list: ListPlace, index: u32) -> StructPlace
    requires structs { size_number list.size ≡ 7 }
    requires near { list.start.position < 2 ^ 61 }
    ensures { IsStructAt list index result }
{
    let words = list.data_words as usize + list.pointers as usize;
    StructPlace {
        start: Place {
            segment: list.start.segment,
            position: list.start.position + 1 + index as usize * words,
        },
        data_words: list.data_words,
        pointers: list.pointers,
    }
}

/// Returns the place of the pointer of an element of a list: the element itself, or the first
/// pointer of a struct. The index is within the list, whose elements have pointers. The law
/// `elements_as_pointers` relates the pointer to the list.
pub fn element_pointer(list: ListPlace, index: u32) -> Place
    requires near { list.start.position < 2 ^ 61 }
    ensures segment { result.segment ≡ list.start.segment }
    ensures place { IsElementPointer list index result }
{
    let start = list.start;
    let position = match list.size {
        ElementSize::InlineComposite => {
            let words = list.data_words as usize + list.pointers as usize;
            start.position + 1 + index as usize * words + list.data_words as usize
        }
        _ => start.position + index as usize,
    };
    Place {
        segment: start.segment,
        position,
    }
}
