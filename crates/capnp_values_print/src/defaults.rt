//! Null pointers that print as defaults.
ghost use Rattle.std.specs.Prelude.{◌≡◌};
ghost use Rattle.capnp_records.specs.NodeViews.{kind_of_field};
ghost use Rattle.capnp_values_print.specs.Defaults.{is_null_segment, enters};

use capnp_records::node::{FieldBody, Value};
use capnp_wire::pointer::PointerReader;
use capnp_wire_objects::arena::ReaderArenaImpl;

/// Returns whether the root of a default is null.
fn is_null_root(bytes: &[u8]) -> bool
    ensures { result ≡ is_null_segment bytes.now }
{
    let segments = [bytes];
    let arena = ReaderArenaImpl::new(segments.as_slice(), 64);
    match PointerReader::get_root_from_arena(&arena) {
        Ok(root) => root.is_null(),
        Err(_) => false,
    }
}

/// Returns whether a field's record has a default whose root isn't null.
pub(crate) fn has_default(body: &FieldBody) -> bool
    ensures { result ≡ enters (kind_of_field body.now) }
{
    match body {
        FieldBody::Slot {
            default: Some(value),
            ..
        } => match value {
            Value::Text(_) | Value::Data(_) => true,
            Value::List(bytes) | Value::Struct(bytes) => !is_null_root(bytes),
            _ => false,
        },
        _ => false,
    }
}
