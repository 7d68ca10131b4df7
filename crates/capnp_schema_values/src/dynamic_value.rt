//! Values whose type is known at run time, to write.
use crate::any_pointer;
use capnp_layout_builders::data_builder::DataBuilder;
use capnp_layout_builders::text_builder::TextBuilder;
use capnp_schema_lists::dynamic_list;
use capnp_schema_structs::dynamic_struct;
use capnp_values::dynamic_value::{Capability, Enum};

/// A value to write, by its type: a plain value itself, any other by its place in a message.
#[derive(Drop)]
pub enum Builder<'a, A> {
    Void,
    Bool(bool),
    Int8(i8),
    Int16(i16),
    Int32(i32),
    Int64(i64),
    UInt8(u8),
    UInt16(u16),
    UInt32(u32),
    UInt64(u64),
    Enum(Enum<'a>),
    Text(TextBuilder<'a, A>),
    Data(DataBuilder<'a, A>),
    Struct(dynamic_struct::Builder<'a, A>),
    List(dynamic_list::Builder<'a, A>),
    AnyPointer(any_pointer::Builder<'a, A>),
    Capability(Capability),
}
