//! Places in values of a schema, by the steps of a path.

use capnp_calls::Step;
use capnp_relay_requests::request::FloatField;
use capnp_values_queries::introspect::{Type, TypeVariant};
use capnp_values_queries::slots::FieldPlace;
use capnp_values_queries::structs::StructSchema;

/// The sort of the value at which a path has arrived.
#[derive(Clone, Copy)]
pub enum Place<'a> {
    /// A struct or a group.
    Struct(StructSchema<'a>),
    /// The value of a pointer, or an element of a list.
    Value {
        ty: Type,
        /// Whether whole numbers in the value are the bits of floats.
        is_float: bool,
    },
    /// A value that holds no others.
    Single,
}

/// Returns the schema of a struct, if that is what a place has.
pub fn struct_at<'a>(root: StructSchema<'a>, place: Place<'a>) -> Option<StructSchema<'a>> {
    let raw = match place {
        Place::Struct(schema) => return Some(schema),
        Place::Value { ty, is_float: _ } => match ty.which() {
            TypeVariant::Struct(raw) => raw,
            _ => return None,
        },
        Place::Single => return None,
    };
    let set = root.set();
    set.struct_by_id(raw.id)
        .map(|known| StructSchema::new(set, known))
}

/// Returns the place of the field of a name; `None` if the struct has no such field.
pub fn field_in<'a>(
    schema: StructSchema<'a>,
    floats: &[FloatField],
    name: &str,
) -> Option<Place<'a>> {
    let Ok(Some(field)) = schema.find_field_by_name(name) else {
        return None;
    };
    let node = schema.get_proto().id;
    let index = u32::from(field.get_index());
    let is_float = floats
        .iter()
        .any(|float| float.node == node && float.index == index);
    Some(match field.place() {
        FieldPlace::Group { schema } => Place::Struct(schema),
        FieldPlace::Pointer { ty, .. } => Place::Value { ty, is_float },
        FieldPlace::Plain { .. } | FieldPlace::Void { .. } => Place::Single,
    })
}

/// Returns the place of each element of a list; `None` if a place is not a list.
pub fn element_in(place: Place<'_>) -> Option<Place<'_>> {
    match place {
        Place::Value { ty, is_float } => match ty.which() {
            TypeVariant::List(ty) => Some(Place::Value { ty, is_float }),
            _ => None,
        },
        Place::Struct(_) | Place::Single => None,
    }
}

/// Returns the place to which a path leads; `None` if it leads nowhere.
pub fn place_at<'a>(
    root: StructSchema<'a>,
    floats: &[FloatField],
    path: &[Step],
) -> Option<Place<'a>> {
    let mut place = Place::Struct(root);
    for step in path {
        place = match step {
            Step::Name(name) => field_in(struct_at(root, place)?, floats, name.as_str())?,
            Step::Index(_) => element_in(place)?,
        };
    }
    Some(place)
}
