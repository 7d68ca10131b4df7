//! The test for active union members.
ghost use Rattle.std.specs.Prelude.{◌≡◌};
ghost use Rattle.capnp_values.specs.Sources.{struct_seen};
ghost use Rattle.capnp_calls_replies.specs.Parts.{OfField, IsLive};

use capnp_records::node::NO_DISCRIMINANT;
use capnp_values::dynamic_struct;
use capnp_values::laws::discriminants_are_read;
use capnp_values_queries::fields::Field;
use capnp_wire_objects::arena::ReaderArena;

/// Returns whether a field of a struct is not a union member, or is the active member.
pub(crate) fn is_active<A: ReaderArena>(
    reader: dynamic_struct::Reader<'_, A>,
    field: Field<'_>,
) -> bool
    requires { field.parent ≡ reader.schema }
    ensures { OfField field.entry (struct_seen A.segments reader.entry.source) (IsLive result) }
{
    discriminants_are_read();
    let member = field.get_proto().discriminant_value;
    if member == NO_DISCRIMINANT {
        return true;
    }
    match reader.which() {
        Ok(Some(active)) => member == active.get_proto().discriminant_value,
        Ok(None) => false,
        Err(_) => false,
    }
}
