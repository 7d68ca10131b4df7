//! Laws of reading, each the contract of an empty function: a call of the function adds its
//! clauses.
ghost use Rattle.capnp_wire.specs.Laws.{BytesAreRead, StructsAreRead, ListsAreRead};

pub use capnp_wire_objects::laws::values_by_levels;

/// Getters are the model's readings of the value, if a level is left:
/// - texts and data are its bytes;
/// - a struct has its data section, and the pointer at an index leads to the child there;
/// - a list has its elements, each with its bits and its children.
///
/// A refusal has the kind of the refusal of the model's reading.
pub fn gets_are_readings()
    ensures bytes { BytesAreRead }
    ensures structs { StructsAreRead }
    ensures lists { ListsAreRead }
{}
