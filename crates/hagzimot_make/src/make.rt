//! Values of a schema that JSON values describe, written into a message.

use crate::draft::{Draft, Sections, Size};
use crate::fault::{JsonStep, MakeFault, below, in_member, value_fault};
use crate::fields::{field_of, is_member, second_member};
use crate::numbers::{Plain, misfit, plain_bits};
use crate::places::{Place, struct_at};
use capnp_records::raw::RawBrandedStructSchema;
use capnp_records::set::SchemaSet;
use capnp_relay_requests::request::FloatField;
use capnp_values_queries::fields::Field;
use capnp_values_queries::introspect::{Type, TypeVariant};
use capnp_values_queries::slots::{FieldPlace, PlainType, width_of};
use capnp_values_queries::structs::StructSchema;
use serde_json::Value as Json;
use std::alloc::Global;

/// The most objects and arrays within one another. JSON is read no deeper.
const MOST_LEVELS: u32 = 128;

/// The schema under which messages are made.
#[derive(Clone, Copy)]
pub struct Making<'a> {
    pub alloc: Global,
    /// The struct at the root of messages.
    pub root: StructSchema<'a>,
    /// The fields whose whole numbers are the bits of floats.
    pub floats: &'a [FloatField],
}

/// The pointer whose value is made: its word, and the type of the value.
#[derive(Clone, Copy)]
struct Target {
    at: usize,
    ty: Type,
    /// Whether whole numbers in the value are the bits of floats.
    is_float: bool,
}

/// Returns the plain type of a variant.
pub fn plain_type(variant: TypeVariant) -> Option<PlainType> {
    match variant {
        TypeVariant::Bool => Some(PlainType::Bool),
        TypeVariant::Int8 => Some(PlainType::Int8),
        TypeVariant::Int16 => Some(PlainType::Int16),
        TypeVariant::Int32 => Some(PlainType::Int32),
        TypeVariant::Int64 => Some(PlainType::Int64),
        TypeVariant::UInt8 => Some(PlainType::UInt8),
        TypeVariant::UInt16 => Some(PlainType::UInt16),
        TypeVariant::UInt32 => Some(PlainType::UInt32),
        TypeVariant::UInt64 => Some(PlainType::UInt64),
        TypeVariant::Enum(raw) => Some(PlainType::Enum(raw)),
        _ => None,
    }
}

/// Returns the bytes of an array of numbers below 256.
fn bytes_of(alloc: Global, items: &[Json]) -> Result<Option<Vec<u8>>, MakeFault> {
    let mut bytes = Vec::new(alloc);
    for item in items {
        match item.as_u64().map(u8::try_from) {
            Some(Ok(byte)) => bytes.push(byte)?,
            _ => return Ok(None),
        }
    }
    Ok(Some(bytes))
}

impl Making<'_> {
    fn set(&self) -> &SchemaSet {
        self.root.set()
    }

    /// Returns whether whole numbers in a field are the bits of floats.
    fn is_float(&self, field: Field<'_>) -> bool {
        let node = field.parent().get_proto().id;
        let index = u32::from(field.get_index());
        self.floats
            .iter()
            .any(|float| float.node == node && float.index == index)
    }

    /// Makes the message of an object in a draft that has a null root: its root is a struct of the
    /// schema's sizes, with the fields that the object names. Other fields keep their defaults.
    ///
    /// Numbers are JSON numbers or texts of digits, enum values names or numbers, data arrays of
    /// bytes, Void `null`. A text is a text, or an array of bytes. A pointer field that is `null`
    /// stays null.
    ///
    /// Errors, after each of which the draft has a part of the message:
    /// - `Wrong`: a value doesn't fit its field, a name is not a field's, or two names are members of
    ///   one union;
    /// - `TooLarge`: the message would have 2^29 words or more;
    /// - `Memory`: an allocation was refused.
    pub fn make(self, draft: &mut Draft, json: &Json) -> Result<(), MakeFault> {
        let record = self.root.record();
        let sections = draft.add_struct(0, record.data_word_count, record.pointer_count)?;
        self.put_struct(draft, sections, self.root, json, MOST_LEVELS)
    }

    /// Makes the message of the value at a place in a draft that has a null root, and returns
    /// whether there is such a message: of a value that is not a struct, a group or a list there is
    /// none.
    ///
    /// Errors are those of `make`.
    pub fn make_at(
        self,
        draft: &mut Draft,
        place: Place<'_>,
        json: &Json,
    ) -> Result<bool, MakeFault> {
        if let Some(schema) = struct_at(self.root, place) {
            let record = schema.record();
            let sections = draft.add_struct(0, record.data_word_count, record.pointer_count)?;
            self.put_struct(draft, sections, schema, json, MOST_LEVELS)?;
            return Ok(true);
        }
        match place {
            Place::Value { ty, is_float } if ty.list_count() > 0 => {
                let target = Target {
                    at: 0,
                    ty,
                    is_float,
                };
                self.put_pointer(draft, target, json, MOST_LEVELS)?;
                Ok(true)
            }
            _ => Ok(false),
        }
    }

    /// Writes the fields that an object names into a struct or a group.
    #[cycle(value)]
    fn put_struct(
        self,
        draft: &mut Draft,
        sections: Sections,
        schema: StructSchema<'_>,
        json: &Json,
        left: u32,
    ) -> Result<(), MakeFault> {
        let alloc = self.alloc;
        let Some(object) = json.as_object() else {
            return Err(misfit(alloc, json, "an object"));
        };
        if left == 0 {
            return Err(value_fault(
                alloc,
                String::from_str(alloc, "the value is nested too deeply")?,
            ));
        }
        let mut active = None;
        for (name, value) in object.iter() {
            let field = match field_of(alloc, schema, name.as_str()) {
                Ok(field) => field,
                Err(fault) => return Err(in_member(alloc, fault, name.as_str())),
            };
            if is_member(field) {
                if let Some(first) = active {
                    let fault = second_member(alloc, first);
                    return Err(in_member(alloc, fault, name.as_str()));
                }
                active = Some(field);
                self.put_member(draft, sections, field);
            }
            if let Err(fault) = self.put_field(draft, sections, field, value, left - 1) {
                return Err(in_member(alloc, fault, name.as_str()));
            }
        }
        Ok(())
    }

    /// Makes a field the active member of its union.
    fn put_member(self, draft: &mut Draft, sections: Sections, field: Field<'_>) {
        if let Some(offset) = field.parent().discriminant_offset() {
            let bits = u64::from(field.get_proto().discriminant_value);
            draft.put_bits(sections.start, offset as usize, 16, bits);
        }
    }

    /// Writes a field.
    #[cycle(value)]
    fn put_field(
        self,
        draft: &mut Draft,
        sections: Sections,
        field: Field<'_>,
        json: &Json,
        left: u32,
    ) -> Result<(), MakeFault> {
        let is_float = self.is_float(field);
        match field.place() {
            FieldPlace::Void { offset: _ } => self.check_void(json),
            FieldPlace::Plain {
                ty,
                offset,
                default_bits,
            } => {
                let plain = Plain { ty, is_float };
                let bits = plain_bits(self.alloc, self.set(), plain, json)? ^ default_bits;
                draft.put_bits(sections.start, offset as usize, width_of(ty), bits);
                Ok(())
            }
            FieldPlace::Pointer {
                index,
                ty,
                default: _,
            } => {
                let at = sections.pointer(index);
                self.put_pointer(draft, Target { at, ty, is_float }, json, left)
            }
            FieldPlace::Group { schema } => self.put_struct(draft, sections, schema, json, left),
        }
    }

    /// Checks the value of a Void field or element.
    fn check_void(self, json: &Json) -> Result<(), MakeFault> {
        if json.is_null() {
            return Ok(());
        }
        Err(misfit(self.alloc, json, "null (Void is wanted)"))
    }

    /// Makes the value of a pointer; of `null` nothing.
    #[cycle(value)]
    fn put_pointer(
        self,
        draft: &mut Draft,
        target: Target,
        json: &Json,
        left: u32,
    ) -> Result<(), MakeFault> {
        let alloc = self.alloc;
        if json.is_null() {
            return Ok(());
        }
        match target.ty.which() {
            TypeVariant::Text => self.put_text(draft, target.at, json),
            TypeVariant::Data => self.put_data(draft, target.at, json, false),
            TypeVariant::Struct(raw) => {
                let Some(schema) = self.struct_of(raw) else {
                    return Err(misfit(alloc, json, "of a struct of the schema"));
                };
                let record = schema.record();
                let (data, pointers) = (record.data_word_count, record.pointer_count);
                let sections = draft.add_struct(target.at, data, pointers)?;
                self.put_struct(draft, sections, schema, json, left)
            }
            TypeVariant::List(ty) => self.put_list(draft, Target { ty, ..target }, json, left),
            _ => {
                let text = "an untyped pointer or a capability has no JSON (leave it out)";
                Err(value_fault(alloc, String::from_str(alloc, text)?))
            }
        }
    }

    /// Returns the schema of a struct of the set.
    fn struct_of(&self, raw: RawBrandedStructSchema) -> Option<StructSchema<'_>> {
        let set = self.set();
        set.struct_by_id(raw.id)
            .map(|known| StructSchema::new(set, known))
    }

    /// Makes a text from a JSON text, or from the bytes of an array.
    fn put_text(self, draft: &mut Draft, at: usize, json: &Json) -> Result<(), MakeFault> {
        match json.as_str() {
            Some(text) => draft.add_bytes(at, text.as_bytes(), true),
            None => self.put_data(draft, at, json, true),
        }
    }

    /// Makes data, or a text, from an array of bytes.
    fn put_data(
        self,
        draft: &mut Draft,
        at: usize,
        json: &Json,
        is_text: bool,
    ) -> Result<(), MakeFault> {
        let wanted = if is_text {
            "a text"
        } else {
            "an array of bytes (numbers below 256)"
        };
        let Some(items) = json.as_array() else {
            return Err(misfit(self.alloc, json, wanted));
        };
        match bytes_of(self.alloc, items)? {
            Some(bytes) => draft.add_bytes(at, &bytes, is_text),
            None => Err(misfit(self.alloc, json, wanted)),
        }
    }

    /// Makes a list of elements of the target's type.
    #[cycle(value)]
    fn put_list(
        self,
        draft: &mut Draft,
        target: Target,
        json: &Json,
        left: u32,
    ) -> Result<(), MakeFault> {
        let alloc = self.alloc;
        let Some(items) = json.as_array() else {
            return Err(misfit(alloc, json, "an array"));
        };
        if left == 0 {
            return Err(value_fault(
                alloc,
                String::from_str(alloc, "the value is nested too deeply")?,
            ));
        }
        let Ok(count) = u32::try_from(items.len()) else {
            return Err(MakeFault::TooLarge);
        };
        let variant = target.ty.which();
        if let TypeVariant::Struct(raw) = variant {
            return self.put_structs(draft, target, raw, json, left - 1);
        }
        let plain = plain_type(variant);
        let size = match (variant, plain) {
            (TypeVariant::Void, _) => Size::Void,
            (_, Some(ty)) => Size::Bits(width_of(ty)),
            _ => Size::Pointer,
        };
        let start = draft.add_list(target.at, size, count)?;
        for (index, item) in items.iter().enumerate() {
            let element = Target {
                at: start.saturating_add(index),
                ..target
            };
            let put = match (size, plain) {
                (Size::Void, _) => self.check_void(item),
                (_, Some(ty)) => self.put_element(
                    draft,
                    start,
                    index,
                    Plain {
                        ty,
                        is_float: target.is_float,
                    },
                    item,
                ),
                _ => self.put_pointer(draft, element, item, left - 1),
            };
            if let Err(fault) = put {
                return Err(below(fault, JsonStep::Index(index)));
            }
        }
        Ok(())
    }

    /// Writes an element of a list of plain values.
    fn put_element(
        self,
        draft: &mut Draft,
        start: usize,
        index: usize,
        plain: Plain,
        json: &Json,
    ) -> Result<(), MakeFault> {
        let bits = plain_bits(self.alloc, self.set(), plain, json)?;
        draft.put_bits(start, index, width_of(plain.ty), bits);
        Ok(())
    }

    /// Makes a list of structs.
    #[cycle(value)]
    fn put_structs(
        self,
        draft: &mut Draft,
        target: Target,
        raw: RawBrandedStructSchema,
        json: &Json,
        left: u32,
    ) -> Result<(), MakeFault> {
        let alloc = self.alloc;
        let (Some(items), Some(schema)) = (json.as_array(), self.struct_of(raw)) else {
            return Err(misfit(alloc, json, "an array"));
        };
        let Ok(count) = u32::try_from(items.len()) else {
            return Err(MakeFault::TooLarge);
        };
        let record = schema.record();
        let (data, pointers) = (record.data_word_count, record.pointer_count);
        let list = draft.add_structs(target.at, count, data, pointers)?;
        for (index, item) in items.iter().enumerate() {
            let element = list.element(index);
            if let Err(fault) = self.put_struct(draft, element, schema, item, left) {
                return Err(below(fault, JsonStep::Index(index)));
            }
        }
        Ok(())
    }
}
