//! Values whose type is known at run time.

pub use capnp_schema_values::downcast::DowncastBuilder;
pub use capnp_schema_values::dynamic_value::Builder;
pub use capnp_schema_values::placed::{ListPart, Placed};
pub use capnp_values::downcast::DowncastReader;
pub use capnp_values::dynamic_value::{Capability, Enum, Reader};
pub use capnp_values::source::{ListSource, PointerSource, StructSource};
