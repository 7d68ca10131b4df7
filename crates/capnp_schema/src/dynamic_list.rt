//! Lists whose element type is known at run time.
//!
//! A value that a builder reads or begins is lent in two steps. The first returns its place, while
//! the list is borrowed; then its handle takes the list's memory. An element is read by `let placed
//! = get(&mut list, 2)?;` and `let value = value(list, placed);`. An element is begun by `let
//! placed = init(&mut list, 2, 5)?;` and `let value = begun(list, placed);`. For an element that is
//! a struct, use `let part = list.struct_at(2)?;` and `let mut inner = list.part(part);`.

pub use capnp_schema_lists::dynamic_list::{Builder, holds};
pub use capnp_schema_values::dynamic_list::{begun, get, init, value};
pub use capnp_values::dynamic_list::Reader;
