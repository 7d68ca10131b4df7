//! Structs whose schema is known at run time.
//!
//! A value that a builder reads or begins is lent in two steps. The first returns its place, while
//! the struct is borrowed; then its handle takes the struct's memory. A field is read by `let
//! placed = get_named(&mut record, "name")?;` and `let value = value(record, placed);`. A struct or
//! a group is begun by `let part = record.init_struct(field)?;` and `let mut inner =
//! record.part(part);`. A text, data or a list is begun by `let placed = initn(&mut record, field,
//! 5)?;` and `let value = begun(record, placed);`.

pub use capnp_schema_structs::dynamic_struct::{Builder, has_sizes};
pub use capnp_schema_structs::init::Part;
pub use capnp_schema_values::callers::{downcast_struct, fits_struct};
pub use capnp_schema_values::dynamic_struct::{begun, get, get_named, initn, value};
pub use capnp_values::dynamic_struct::Reader;
