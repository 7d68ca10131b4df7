//! Untyped pointers.

pub use capnp_schema_values::any_pointer::{Builder, Owned};
pub use capnp_schema_values::inputs::PointerInput;
pub use capnp_values::any_pointer::{FromAnyPointer, Reader};
