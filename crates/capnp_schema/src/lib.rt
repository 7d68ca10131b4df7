//! The schema layer under one name: node records and sets of them, types and schemas, dynamic
//! readers and builders, texts and data, and printed text.
#![tactic(auto)]

pub mod any_pointer;
pub mod dynamic_list;
pub mod dynamic_struct;
pub mod dynamic_value;
pub mod introspect;
pub mod laws;
pub mod schema;

pub use capnp_records::fault::SchemaFault;
pub use capnp_records::node::{
    AnnotationRecord, BaseType, EnumerantRecord, FieldBody, FieldRecord, NO_DISCRIMINANT, NodeBody,
    NodeRecord, StructRecord, TypeRecord, Value,
};
pub use capnp_records::of_set::OfSet;
pub use capnp_records::set::SchemaSet;
pub use capnp_text::{data, text};
pub use capnp_values_print::stringify;
