//! Types as schemas name them, and schemas by their place in a set.

pub use capnp_records::raw::{RawBrandedStructSchema, RawEnumSchema};
pub use capnp_values_queries::introspect::{Introspect, Type, TypeVariant};
