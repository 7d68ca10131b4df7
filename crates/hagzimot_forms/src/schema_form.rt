//! The form of schema files.
ghost use Rattle.std.specs.Prelude.{IfNone, IsUtf8};

use crate::ids::Id;
use serde::Deserialize;
use serde_json::Error;
use std::alloc::Global;

/// A type.
#[derive(Drop, Deserialize)]
#[serde(recursive)]
enum Type {
    Void,
    Bool,
    Int8,
    Int16,
    Int32,
    Int64,
    UInt8,
    UInt16,
    UInt32,
    UInt64,
    Float32,
    Float64,
    Text,
    Data,
    AnyPointer,
    Capability,
    #[serde(rename = "enum")]
    Enum(Id),
    #[serde(rename = "struct")]
    Struct(Id),
    #[serde(rename = "list")]
    List(#[serde(recursive)] Box<Type>),
}

/// A default.
#[derive(Drop, Deserialize)]
#[serde(untagged)]
enum Default {
    Bool(bool),
    Number(i128),
    Text(String),
}

/// The keys of a field.
#[derive(Drop, Deserialize)]
#[serde(deny_unknown_fields)]
struct FieldKeys {
    #[serde(rename = "name")]
    _name: String,
    #[serde(rename = "type")]
    ty: Option<Type>,
    offset: Option<u32>,
    group: Option<Id>,
    discriminant: Option<u16>,
    default: Option<Default>,
}

/// A field that was checked.
#[derive(Clone, Copy, Debug, Drop, Deserialize)]
#[serde(try_from = "FieldKeys")]
struct Field;

/// Returns the reason for which a default is not of a type.
fn default_fault(ty: &Type, default: &Default) -> Option<&'static str> {
    let (least, greatest) = match ty {
        Type::Bool => {
            return match default {
                Default::Bool(_) => None,
                _ => Some("its default is true or false"),
            };
        }
        Type::Text => {
            return match default {
                Default::Text(_) => None,
                _ => Some("its default is a text"),
            };
        }
        Type::Data | Type::Struct(_) | Type::List(_) => {
            return match default {
                Default::Text(hex) if is_hex(hex.as_bytes()) => None,
                _ => Some("its default is a text of hex"),
            };
        }
        Type::Int8 => (i8::MIN as i128, i8::MAX as i128),
        Type::Int16 => (i16::MIN as i128, i16::MAX as i128),
        Type::Int32 => (i32::MIN as i128, i32::MAX as i128),
        Type::Int64 => (i64::MIN as i128, i64::MAX as i128),
        Type::UInt8 => (0, u8::MAX as i128),
        Type::UInt16 | Type::Enum(_) => (0, u16::MAX as i128),
        Type::UInt32 => (0, u32::MAX as i128),
        Type::UInt64 => (0, u64::MAX as i128),
        Type::Void | Type::Float32 | Type::Float64 | Type::AnyPointer | Type::Capability => {
            return Some("its type has no default");
        }
    };
    match default {
        Default::Number(number) if least <= *number && *number <= greatest => None,
        Default::Number(_) => Some("its default is out of range"),
        _ => Some("its default is a number"),
    }
}

/// Tests whether bytes are pairs of hexadecimal digits.
pub(crate) fn is_hex(text: &[u8]) -> bool {
    text.len() % 2 == 0 && text.iter().all(|byte| byte.is_ascii_hexdigit())
}

impl TryFrom<FieldKeys> for Field {
    type Error = &'static str;

    fn try_from(keys: FieldKeys) -> Result<Field, &'static str> {
        if keys.discriminant == Some(u16::MAX) {
            return Err("a discriminant is at most 65534");
        }
        let Some(ty) = &keys.ty else {
            return match (&keys.group, &keys.offset, &keys.default) {
                (Some(_), None, None) => Ok(Field),
                (Some(_), _, _) => Err("a group has no offset or default"),
                (None, _, _) => Err("a field has a type or a group"),
            };
        };
        if keys.group.is_some() {
            return Err("a field has a type or a group");
        }
        if keys.offset.is_none() {
            return Err("a field of a type has an offset");
        }
        match &keys.default {
            Some(default) => match default_fault(ty, default) {
                Some(why) => Err(why),
                None => Ok(Field),
            },
            None => Ok(Field),
        }
    }
}

/// The keys of a node.
#[derive(Drop, Deserialize)]
#[serde(deny_unknown_fields)]
struct NodeKeys {
    #[serde(rename = "id")]
    _id: Id,
    #[serde(rename = "name")]
    _name: String,
    data: Option<u16>,
    pointers: Option<u16>,
    group: Option<bool>,
    union: Option<u32>,
    fields: Option<Vec<Field>>,
    enumerants: Option<Vec<String>>,
}

/// A node that was checked.
#[derive(Clone, Copy, Debug, Drop, Deserialize)]
#[serde(try_from = "NodeKeys")]
struct Node;

impl TryFrom<NodeKeys> for Node {
    type Error = &'static str;

    fn try_from(keys: NodeKeys) -> Result<Node, &'static str> {
        let is_enum = keys.enumerants.is_some();
        let counts = [
            keys.data.is_some(),
            keys.pointers.is_some(),
            keys.fields.is_some(),
        ];
        if is_enum {
            let has_more = keys.group.is_some() || keys.union.is_some();
            if has_more || counts != [false, false, false] {
                return Err("an enum has only enumerants");
            }
            return Ok(Node);
        }
        match counts {
            [true, true, true] => Ok(Node),
            [false, _, _] => Err("a struct has \"data\""),
            [_, false, _] => Err("a struct has \"pointers\""),
            [_, _, false] => Err("a struct has \"fields\""),
        }
    }
}

/// Returns the first fault in the form of a schema file, with line and column. Returns `None` if
/// this function finds no fault.
pub fn schema_form_fault(alloc: Global, bytes: &[u8]) -> Option<Error>
    ensures { IfNone result (IsUtf8 bytes.now) }
{
    serde_json::from_slice::<Vec<Node>>(alloc, bytes).err()
}
