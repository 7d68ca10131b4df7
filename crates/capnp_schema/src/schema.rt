//! The contents of a schema set: structs with their fields, enums with their enumerants,
//! annotations.

pub use capnp_values_queries::annotations::{Annotation, AnnotationList};
pub use capnp_values_queries::enumerants::{Enumerant, EnumerantList};
pub use capnp_values_queries::enums::EnumSchema;
pub use capnp_values_queries::fields::{Field, FieldList};
pub use capnp_values_queries::names::NameCount;
pub use capnp_values_queries::slots::{FieldPlace, PlainType};
pub use capnp_values_queries::structs::StructSchema;
pub use capnp_values_queries::subsets::FieldSubset;
