//! Places of the values that builders read for writing.
use capnp_copy_arenas::bytes::BlobPlace;
use capnp_copy_arenas::init::ListPlace;
use capnp_records::set::SchemaSet;
use capnp_schema_structs::init::Part;
use capnp_values::dynamic_value::{Capability, Enum};
use capnp_values_queries::introspect::Type;
use capnp_wire_objects::place::Place;

/// A list of the message, with the type of its elements.
#[derive(Clone, Copy)]
pub struct ListPart<'a> {
    pub place: ListPlace,
    pub set: &'a SchemaSet,
    pub element_type: Type,
}

/// A value that a builder returned: a plain value itself, any other by its place in the message.
#[derive(Clone, Copy)]
pub enum Placed<'a> {
    Void,
    Bool(bool),
    Int8(i8),
    Int16(i16),
    Int32(i32),
    Int64(i64),
    UInt8(u8),
    UInt16(u16),
    UInt32(u32),
    UInt64(u64),
    Enum(Enum<'a>),
    /// A text's bytes, without the zero byte after them.
    Text(BlobPlace),
    Data(BlobPlace),
    Struct(Part<'a>),
    List(ListPart<'a>),
    /// An untyped pointer's word.
    AnyPointer(Place),
    Capability(Capability),
}
