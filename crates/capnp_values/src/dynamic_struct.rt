//! Structs whose schema is known at run time.
ghost use Rattle.std.specs.Prelude.{◌≡◌, ◌<◌, ◌^◌, true, Some, Ok, IsOkAnd, IfSome, option_map, option_copied};
ghost use Rattle.std.specs.List.{AllByRecursion};
ghost use Rattle.capnp_wire.specs.Views.{seen_struct};
ghost use Rattle.capnp_wire.specs.ValueSizes.{StructSizeOf};
ghost use Rattle.capnp_values.specs.Sources.{struct_seen, WithoutLimit};
ghost use Rattle.capnp_records.specs.NodeViews.{kind_of_field, value_of};
ghost use Rattle.capnp_values_queries.specs.Handles.{IsFieldAt};
ghost use Rattle.capnp_values.specs.GoodDefaults.{HoldsOnlyBytes};
ghost use Rattle.capnp_values.specs.Shown.{default_said, ShowsField, discriminant_shown, is_active_in, is_null_in, has_field, active_in, TellsField, AnswersNamed};
ghost use Rattle.capnp_values.specs.Variants.{message_struct, fits_type};

use crate::dynamic_value;
use crate::opening::open_slot;
use crate::plain::plain_value;
use crate::source::StructSource;
use capnp_records::node::{FieldBody, NO_DISCRIMINANT, Value};
use capnp_units::errors::Result;
use capnp_units::sizes::MessageSize;
use capnp_values_queries::fields::Field;
use capnp_values_queries::introspect::{Introspect, TypeVariant};
use capnp_values_queries::slots::FieldPlace;
use capnp_values_queries::structs::StructSchema;
use capnp_wire::structs::StructReader;
use capnp_wire::traits::OwnedStruct;
use capnp_wire_objects::arena::ReaderArena;

/// A text's or data's bytes are bytes.
fn are_bytes(bytes: &[u8])
    ensures { AllByRecursion (λ b. b < 2 ^ 8) bytes.now }
{}

/// Returns a default, whose bytes are bytes.
fn with_bytes(value: &Value) -> &Value
    ensures same { result.now ≡ value.now }
    ensures bytes { HoldsOnlyBytes (value_of value.now) }
{
    match value {
        Value::Text(bytes) | Value::Data(bytes) => are_bytes(bytes),
        _ => {}
    }
    value
}

/// Returns the default of a slot's record.
fn default_of(body: &FieldBody) -> Option<&Value>
    ensures said { option_map value_of (option_copied result)
        ≡ default_said (kind_of_field body.now) }
    ensures bytes { IfSome (default_said (kind_of_field body.now)) HoldsOnlyBytes }
{
    match body {
        FieldBody::Slot {
            default: Some(value),
            ..
        } => Some(with_bytes(value)),
        _ => None,
    }
}

/// A struct or a group to read, of a message or of a default. Its sizes may differ from those of
/// its schema.
#[derive_where(Clone, Copy)]
pub struct Reader<'a, A> {
    pub(crate) source: StructSource<'a, A>,
    pub(crate) schema: StructSchema<'a>,
}

impl<'a, A: ReaderArena> Reader<'a, A> {
    /// Makes a message's struct under a schema.
    pub fn new(reader: StructReader<'a, A>, schema: StructSchema<'a>) -> Self
        ensures source { struct_seen A.segments result.source
            ≡ seen_struct A.segments reader.entry }
        ensures schema { result.schema ≡ schema.entry }
    {
        Reader {
            source: StructSource::Message(reader),
            schema,
        }
    }

    /// Returns the source from which the struct is read, for copies.
    pub fn source(&self) -> StructSource<'a, A>
        ensures { result ≡ self.now.source }
    {
        self.source
    }

    /// Returns the struct's schema.
    pub fn get_schema(&self) -> StructSchema<'a>
        ensures { result ≡ self.now.schema }
    {
        self.schema
    }

    /// Returns the words of the struct's sections and of the objects that its pointers lead to, and
    /// its capabilities. It is refused, and bounded in time and stack, like
    /// `StructReader::total_size` without a limit of words.
    pub fn total_size(&self) -> Result<MessageSize>
        ensures { WithoutLimit (StructSizeOf (struct_seen A.segments self.now.source)) result }
    {
        self.source.total_size()
    }

    /// Returns the value of a field of the struct:
    /// - a plain field by its bits, exclusive-or'ed with those of its default;
    /// - a field with a pointer as the value that the pointer names; null as its default, which has
    ///   levels of its own, otherwise as the empty value;
    /// - a group as the same struct under the group's schema.
    ///
    /// A union member that isn't the active one is read all the same. It takes no memory, and has
    /// no limit of words.
    ///
    /// It is refused
    /// - with the kind of the fault at the field's pointer;
    /// - with `NestingLimitExceeded` if no level is left for the field;
    /// - with `WrongPointerKind`, `WrongElementSize` or `TextWithoutZeroByte` if the value there
    ///   can't be read as the field's type.
    pub fn get(self, field: Field<'a>) -> Result<dynamic_value::Reader<'a, A>>
        ensures { ShowsField A.segments (struct_seen A.segments self.entry.source) field.entry
            result }
    {
        let set = field.parent().set();
        let said = field.get_proto();
        let default = default_of(&said.body);
        match field.place() {
            FieldPlace::Void { .. } => Ok(dynamic_value::Reader::Void),
            FieldPlace::Plain {
                ty,
                offset,
                default_bits,
            } => Ok(plain_value(&self.source, set, ty, offset as usize, default_bits)),
            FieldPlace::Pointer { index, .. } => {
                open_slot(
                    self.source.pointer(index as usize),
                    set,
                    field.get_type(),
                    default,
                )
            }
            FieldPlace::Group { schema } => Ok(dynamic_value::Reader::Struct(Reader {
                source: self.source,
                schema,
            })),
        }
    }

    /// Returns the value of the discriminant, if the schema has a union; 0 if the discriminant
    /// isn't in the section.
    #[tactic(auto, using(crate::proofs::Bits::tag_bits))]
    fn discriminant(&self, schema: StructSchema<'a>) -> Option<u16>
        ensures { result ≡ discriminant_shown schema.entry
            (struct_seen A.segments self.now.source) }
    {
        match schema.discriminant_offset() {
            None => None,
            Some(offset) => Some(self.source.number(offset as usize, 0)),
        }
    }

    /// Returns whether a field is not a union member, or is the active member.
    fn is_active(&self, field: Field<'a>) -> bool
        ensures { result ≡ is_active_in (struct_seen A.segments self.now.source) field.entry }
    {
        let member = field.get_proto().discriminant_value;
        if member == NO_DISCRIMINANT {
            return true;
        }
        match self.discriminant(field.parent()) {
            None => false,
            Some(active) => member == active,
        }
    }

    /// Returns whether a field has a pointer that is null.
    fn is_null_slot(&self, field: Field<'a>) -> bool
        ensures { result ≡ is_null_in (struct_seen A.segments self.now.source) field.entry }
    {
        match field.place() {
            FieldPlace::Pointer { index, .. } => self.source.pointer(index as usize).is_null(),
            _ => false,
        }
    }

    /// Returns whether a field of the struct is present. It is not present if it is a union member
    /// that isn't active, or if its pointer is null. Other fields are present, groups too. It is
    /// never refused.
    pub fn has(&self, field: Field<'a>) -> Result<bool>
        ensures { result ≡ Ok (has_field (struct_seen A.segments self.now.source) field.entry) }
    {
        Ok(self.is_active(field) && !self.is_null_slot(field))
    }

    /// Returns the union's active member: `None` without a union, and if no member has the
    /// discriminant. It is never refused.
    pub fn which(self) -> Result<Option<Field<'a>>>
        ensures { IsOkAnd result (IsFieldAt self.entry.schema (active_in A.segments self.entry)) }
    {
        match self.discriminant(self.schema) {
            None => Ok(None),
            Some(active) => self.schema.get_field_by_discriminant(active),
        }
    }

    /// Returns the value of the field of a name, like `get`. A name that the struct lacks is
    /// refused with `FieldNotFound`.
    pub fn get_named(self, name: &str) -> Result<dynamic_value::Reader<'a, A>>
        ensures { let r = self.entry in
            AnswersNamed r.schema name.now
            (ShowsField A.segments (struct_seen A.segments r.source)) result }
    {
        let field = self.schema.get_field_by_name(name)?;
        self.get(field)
    }

    /// Returns whether the field of a name is present, like `has`. It is only refused for a name
    /// that the struct lacks, with `FieldNotFound`.
    pub fn has_named(&self, name: &str) -> Result<bool>
        ensures { let r = self.now in
            AnswersNamed r.schema name.now (TellsField (struct_seen A.segments r.source)) result }
    {
        let field = self.schema.get_field_by_name(name)?;
        self.has(field)
    }

    /// Returns whether the struct can be passed on as a caller's type: its schema's id is that of
    /// the type, and the struct is a message's. A struct of a default can't be passed on, because
    /// callers' types only read messages.
    pub fn fits<T: Introspect>(&self) -> bool
        ensures { result ≡ fits_type T.ty self.now }
    {
        match (self.source, T::introspect().which()) {
            (StructSource::Message(_), TypeVariant::Struct(raw)) => raw == self.schema.raw(),
            _ => false,
        }
    }

    /// Returns the struct as a caller's type, if `fits` returns true. Its reader is the one from
    /// which it was made.
    pub fn downcast<T: OwnedStruct<'a, A> + Introspect>(self) -> T::Reader
        requires { fits_type T.ty self ≡ true }
        ensures { message_struct self.entry.source ≡ Some (T.Reader.inner_struct result) }
    {
        let StructSource::Message(reader) = self.source else {
            unreachable!()
        };
        <T::Reader as From<StructReader<'a, A>>>::from(reader)
    }
}
