//! The names and files that values refer to.

use crate::faults::ValueFault;
use capnp_source_nodes::nodes::Node;
use capnp_source_nodes::types::Type;
use capnp_source_nodes::values::Value;
use capnp_source_syntax::tree::{Expression, Span};

/// A constant that an expression names.
#[derive(Drop)]
pub struct Constant<'a> {
    pub ty: &'a Type,
    pub value: &'a Value,
    /// The own name of the scope around the constant, and "" if that is the file.
    pub scope: &'a str,
}

/// The declarations and files that a value may refer to.
pub trait Names {
    /// Returns the node with an id: a struct or a group with its fields at their offsets and with
    /// their defaults, an enum, or an interface. `None` if it isn't known.
    fn node(&self, id: u64) -> Option<&Node>;

    /// Returns the constant that a path names. `Wrong` if it doesn't name a constant, `Pending` if
    /// the constant doesn't have its value yet.
    fn constant(&self, path: &Expression) -> Result<Constant<'_>, ValueFault>;

    /// Returns the bytes of a file that is embedded. `Wrong` if it can't be read.
    fn embedded(&self, path: &[u8], span: Span) -> Result<&[u8], ValueFault>;
}
