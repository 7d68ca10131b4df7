//! Laws of schemas and of dynamic values, each the contract of a function that does nothing.

pub use capnp_records::laws::struct_is_named;
pub use capnp_schema_lists::laws::{elements_as_pointers, elements_as_structs};
pub use capnp_schema_structs::laws::refused_groups_are_begun;
pub use capnp_values::laws::{
    discriminants_are_read, elements_are_read, fields_are_read, nulls_are_read, pointers_are_read,
    records_are_read, values_are_read,
};
pub use capnp_values_print::laws::{fields_are_models, texts_are_models, wholes_are_read};
pub use capnp_values_queries::laws::struct_is_node;
