//! Queries of schemas, by their verbs.
use crate::answers::{Answer, told, truth};
use crate::fault::Stop;
use crate::readers::name_of;
use crate::steps::{Step, step_of};
use crate::verbs::Call;
use capnp_values_queries::enums::EnumSchema;
use capnp_values_queries::fields::Field;
use capnp_values_queries::introspect::{Type, TypeVariant};
use capnp_values_queries::slots::FieldPlace;
use capnp_values_queries::structs::StructSchema;
use std::alloc::Global;

/// Appends a field's name and a blank.
fn push_name(names: &mut String, field: Field<'_>) -> Result<(), Stop> {
    names.push_str(field.get_proto().name.as_str())?;
    names.push_str(" ")?;
    Ok(())
}

/// Returns the names of all fields, of the union's members, or of the other fields, with a blank
/// after each.
fn names(alloc: Global, schema: StructSchema<'_>, verb: &str) -> Result<Answer, Stop> {
    let mut names = String::new(alloc);
    match verb {
        "fields" => {
            for field in schema.get_fields()? {
                push_name(&mut names, field)?;
            }
        }
        "members" => {
            for field in schema.get_union_fields()? {
                push_name(&mut names, field)?;
            }
        }
        _ => {
            for field in schema.get_non_union_fields()? {
                push_name(&mut names, field)?;
            }
        }
    }
    told(alloc, names.as_str())
}

/// Returns the name of a type that isn't a list.
fn base_name(ty: Type) -> &'static str {
    match ty.which() {
        TypeVariant::Void => "Void",
        TypeVariant::Bool => "Bool",
        TypeVariant::Int8 => "Int8",
        TypeVariant::Int16 => "Int16",
        TypeVariant::Int32 => "Int32",
        TypeVariant::Int64 => "Int64",
        TypeVariant::UInt8 => "UInt8",
        TypeVariant::UInt16 => "UInt16",
        TypeVariant::UInt32 => "UInt32",
        TypeVariant::UInt64 => "UInt64",
        TypeVariant::Text => "Text",
        TypeVariant::Data => "Data",
        TypeVariant::Struct(_) => "Struct",
        TypeVariant::AnyPointer => "AnyPointer",
        TypeVariant::Capability => "Capability",
        TypeVariant::Enum(_) => "Enum",
        TypeVariant::List(_) => "List",
    }
}

/// Returns the place of a field.
fn place_of(alloc: Global, field: Field<'_>) -> Result<Answer, Stop> {
    let text = match field.place() {
        FieldPlace::Void { .. } => String::from_str(alloc, "void")?,
        FieldPlace::Plain {
            offset,
            default_bits,
            ..
        } => format!(in alloc; "plain {offset} {default_bits}")?,
        FieldPlace::Pointer { index, default, .. } => {
            let default = if default.is_some() { "default" } else { "none" };
            format!(in alloc; "pointer {index} {default}")?
        }
        FieldPlace::Group { schema } => format!(in alloc; "group {}", schema.get_proto().id)?,
    };
    told(alloc, text.as_str())
}

/// Answers a query of a field.
fn of_field(alloc: Global, field: Field<'_>, verb: &str) -> Result<Answer, Stop> {
    let ty = field.get_type();
    let text = match verb {
        "index" => format!(in alloc; "{}", field.get_index())?,
        "type" => format!(in alloc; "{} {}", base_name(ty), ty.list_count())?,
        "element_size" => format!(in alloc; "{:?}", ty.expected_element_size())?,
        "place" => return place_of(alloc, field),
        "pointer" => return truth(alloc, ty.is_pointer_type()),
        "held" => return truth(alloc, field.parent().set().holds(ty)),
        "annotations" => format!(in alloc; "{}", field.get_annotations()?.len())?,
        _ => return Err(Stop::NoCall),
    };
    told(alloc, text.as_str())
}

/// Answers a query of a struct or a group.
pub fn of_struct(alloc: Global, schema: StructSchema<'_>, call: Call<'_>) -> Result<Answer, Stop> {
    if let [word] = call.path {
        let Step::Name(name) = step_of(word)? else {
            return Err(Stop::NoCall);
        };
        if call.verb == "find" {
            return truth(alloc, schema.find_field_by_name(name)?.is_some());
        }
        return of_field(alloc, schema.get_field_by_name(name)?, call.verb);
    }
    match call.verb {
        "fields" | "members" | "others" => names(alloc, schema, call.verb),
        "name" => told(alloc, schema.get_proto().display_name.as_str()),
        "member" => {
            let Ok(discriminant) = u16::try_from(call.size) else {
                return Err(Stop::NoCall);
            };
            name_of(alloc, schema.get_field_by_discriminant(discriminant)?)
        }
        "offset" => match schema.discriminant_offset() {
            Some(offset) => told(alloc, format!(in alloc; "{offset}")?.as_str()),
            None => told(alloc, "none"),
        },
        _ => Err(Stop::NoCall),
    }
}

/// Answers a query of an enum.
pub fn of_enum(alloc: Global, schema: EnumSchema<'_>, call: Call<'_>) -> Result<Answer, Stop> {
    match call.verb {
        "name" => told(alloc, schema.get_proto().display_name.as_str()),
        "enumerants" => {
            let mut names = String::new(alloc);
            for enumerant in schema.get_enumerants()? {
                names.push_str(enumerant.get_proto().name.as_str())?;
                names.push_str(" ")?;
            }
            told(alloc, names.as_str())
        }
        _ => Err(Stop::NoCall),
    }
}
