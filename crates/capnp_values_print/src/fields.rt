//! The values that fields and elements show, and the defaults that are entered for them.
ghost use Rattle.std.specs.Prelude.{◌≡◌, ◌<◌};
ghost use Rattle.capnp_wire_objects.specs.Places.{seen};
ghost use Rattle.capnp_values.specs.Shown.{shown, shown_at};
ghost use Rattle.capnp_values.specs.Sources.{struct_seen, list_seen};
ghost use Rattle.capnp_values_print.specs.Parts.{IsActive, OpensMember};

use crate::members::enters_default;
use capnp_units::errors::{Error, Result};
use capnp_units::kinds::ErrorKind;
use capnp_values::laws::nulls_are_read;
use capnp_values::{dynamic_list, dynamic_struct, dynamic_value};
use capnp_values_queries::fields::Field;
use capnp_wire_objects::arena::ReaderArena;

/// The value that a field shows, and the number of defaults that may be entered within it.
#[derive_where(Clone, Copy)]
pub(crate) struct Opened<'a, A> {
    pub(crate) value: dynamic_value::Reader<'a, A>,
    pub(crate) left: u32,
}

/// Opens a field, with n defaults that may be entered: a null pointer is its default, which is
/// entered, otherwise the empty value.
// Inlined, what it takes of the stack would be taken by each struct that is printed in another.
#[inline(never)]
pub(crate) fn open_member<'a, A: ReaderArena>(
    reader: &dynamic_struct::Reader<'a, A>,
    field: &Field<'a>,
    left: u32,
) -> Result<Opened<'a, A>>
    requires parent { field.now.parent ≡ reader.now.schema }
    requires active { IsActive reader.now.schema (struct_seen A.segments reader.now.source)
        field.now }
    ensures { let r = reader.now in
        OpensMember A.segments left r.schema (struct_seen A.segments r.source) field.now result }
{
    nulls_are_read();
    let enters = enters_default(*reader, *field)?;
    let got = reader.get(*field);
    if !enters {
        let value = got?;
        return Ok(Opened { value, left });
    }
    if left == 0 {
        return Err(Error::from(ErrorKind::NestingLimitExceeded));
    }
    let default = got?;
    Ok(Opened {
        value: default,
        left: left - 1,
    })
}

/// Returns the value that an element of a list shows.
// Inlined, what it takes of the stack would be taken by each list that is printed in another.
#[inline(never)]
pub(crate) fn open_element<'a, A: ReaderArena>(
    list: &dynamic_list::Reader<'a, A>,
    index: u32,
) -> Result<dynamic_value::Reader<'a, A>>
    requires { index < (list_seen A.segments list.now.source).count }
    ensures { seen (shown A.segments) result ≡ shown_at A.segments list.now index }
{
    list.get(index)
}
