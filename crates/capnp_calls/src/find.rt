//! Fields of names that were found before.
ghost use Rattle.std.specs.Prelude.{◌≡◌, ℕ, slice_get, List, Some, None, IfOk, IfErr, IfSome, IsOkAnd};
ghost use Rattle.capnp_units.specs.declared.kinds.ErrorKind.TheVariants.{FieldNotFound};
ghost use Rattle.capnp_model.specs.Printing.{fields_in};
ghost use Rattle.capnp_model.specs.Schemas.{Schema};
ghost use Rattle.capnp_values_queries.specs.Fields.{place_of_name};
ghost use Rattle.capnp_values_queries.specs.Handles.{IsFieldAt};
ghost use Rattle.capnp_values_queries.specs.Structs.{schema_around, id_of, index_named};
ghost use Rattle.capnp_calls.specs.Ways.{Finds, FindsFirst, fields_behind_first};

use capnp_units::errors::{Error, Result};
use capnp_units::kinds::ErrorKind;
use capnp_values_queries::fields::Field;
use capnp_values_queries::structs::StructSchema;

/// The field that a name of a path finds.
#[derive(Clone, Copy, Debug, PartialEq, Eq, Drop)]
pub struct FoundField {
    /// The id of the node of the struct or the group under which it was found.
    pub(crate) node: u64,
    /// The index of the field there; `None` if the struct or group has no field of the name.
    pub(crate) place: Option<u16>,
}

/// Returns the first field of a way.
#[inline]
fn first_found(way: &[FoundField]) -> Option<FoundField>
    ensures { result ≡ slice_get way.now 0 }
{
    way.first().copied()
}

/// Returns the index of the field that a name finds in the struct or the group of a node,
/// `Some(None)` if there is no such field. It returns `None` if the way doesn't have this node.
#[inline]
pub fn known_place(way: &[FoundField], node: u64) -> Option<Option<u16>>
    ensures { (s : Schema) (name : List ℕ) → FindsFirst s name way.now
        → IfSome result (λ place. place ≡ place_of_name name (fields_in (s.shape_of node))) }
{
    match first_found(way) {
        Some(found) if found.node == node => Some(found.place),
        _ => None,
    }
}

/// Returns the field of a name, as it was found under this very struct.
#[inline]
fn known_field<'a>(
    schema: StructSchema<'a>,
    name: &str,
    found: FoundField,
) -> Result<Option<Field<'a>>>
    requires here { found.node ≡ id_of schema }
    requires finds { Finds (schema_around schema) name.now found }
    ensures { IsOkAnd result
        (λ found. IsFieldAt schema.entry (index_named schema.entry name.now) found) }
{
    match found.place {
        Some(place) => Ok(Some(schema.get_fields()?.get(place))),
        None => Ok(None),
    }
}

/// Returns the field of a name, with a way that may have it already. If the way was found under
/// this very struct, no name is compared.
#[inline]
pub fn find_field<'a>(
    schema: StructSchema<'a>,
    name: &str,
    way: &[FoundField],
) -> Result<Option<Field<'a>>>
    requires way { FindsFirst (schema_around schema) name.now way.now }
    ensures { IsOkAnd result
        (λ found. IsFieldAt schema.entry (index_named schema.entry name.now) found) }
{
    if let Some(found) = first_found(way) {
        if found.node == schema.raw().id {
            return known_field(schema, name, found);
        }
    }
    schema.find_field_by_name(name)
}

/// Returns the field of a name, like `find_field`. A name that the struct lacks is refused with
/// `FieldNotFound`.
#[inline]
pub fn get_field<'a>(schema: StructSchema<'a>, name: &str, way: &[FoundField]) -> Result<Field<'a>>
    requires way { FindsFirst (schema_around schema) name.now way.now }
    ensures found { IfOk result (λ field.
        IsFieldAt schema.entry (index_named schema.entry name.now) (Some field)) }
    ensures missing { IfErr result (λ e.
        (e.kind ≡ FieldNotFound) × (index_named schema.entry name.now ≡ None)) }
{
    match find_field(schema, name, way) {
        Ok(Some(field)) => Ok(field),
        Ok(None) => Err(Error::from(ErrorKind::FieldNotFound)),
        Err(error) => Err(error),
    }
}

/// Returns the rest of a way, after the first name of a path.
#[inline]
pub fn rest_of_way(way: &[FoundField]) -> &[FoundField]
    ensures { result.now ≡ fields_behind_first way.now }
{
    match way {
        [_, rest @ ..] => rest,
        [] => &[],
    }
}
