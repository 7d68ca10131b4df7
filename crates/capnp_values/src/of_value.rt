//! Values of node records, for example of annotations.
ghost use Rattle.std.specs.Prelude.{◌≡◌, true};
ghost use Rattle.capnp_wire_objects.specs.Places.{seen};
ghost use Rattle.capnp_records.specs.NodeViews.{value_of};
ghost use Rattle.capnp_records.specs.Sets.{nodes_of};
ghost use Rattle.capnp_values_queries.specs.Types.{ty_of, is_type_of};
ghost use Rattle.capnp_values.specs.Shown.{shown, schema_in};
ghost use Rattle.capnp_values.specs.ValuesShown.{value_shown};

use crate::any_pointer;
use crate::defaults::null;
use crate::dynamic_value::{Capability, Enum, Reader};
use crate::opening::{list_of_default, struct_of_default};
use crate::source::PointerSource;
use capnp_records::node::Value;
use capnp_records::set::SchemaSet;
use capnp_text::text;
use capnp_units::errors::{Error, Result};
use capnp_units::kinds::ErrorKind;
use capnp_values_queries::enums::EnumSchema;
use capnp_values_queries::introspect::{Type, TypeVariant};
use capnp_wire_objects::arena::ReaderArena;

impl<'a, A: ReaderArena> Reader<'a, A> {
    /// Makes a value of a node record under a type of the set, for example of an annotation under
    /// its own type. A struct or a list has 64 levels of its own; an untyped value is null. It
    /// takes no memory, and has no limit of words.
    ///
    /// It is refused
    /// - with `TypeMismatch` if the value and the type are of two sorts;
    /// - like `PointerReader::get_struct` and `get_list` if the bytes of a struct or a list can't
    ///   be read as the type. Values that the rules accept can be read, or are refused with the
    ///   kind of a wrong type.
    #[tactic(auto, using(crate::proofs::Named::named_rules))]
    pub fn new(set: &'a SchemaSet, value: &'a Value, ty: Type) -> Result<Self>
        requires { is_type_of (nodes_of set.now) ty ≡ true }
        ensures { seen (shown A.segments) result
            ≡ value_shown (schema_in set.now) (ty_of ty) (value_of value.now) }
    {
        match (value, ty.which()) {
            (Value::Void, TypeVariant::Void) => Ok(Reader::Void),
            (Value::Bool(x), TypeVariant::Bool) => Ok(Reader::Bool(*x)),
            (Value::Int8(x), TypeVariant::Int8) => Ok(Reader::Int8(*x)),
            (Value::Int16(x), TypeVariant::Int16) => Ok(Reader::Int16(*x)),
            (Value::Int32(x), TypeVariant::Int32) => Ok(Reader::Int32(*x)),
            (Value::Int64(x), TypeVariant::Int64) => Ok(Reader::Int64(*x)),
            (Value::UInt8(x), TypeVariant::UInt8) => Ok(Reader::UInt8(*x)),
            (Value::UInt16(x), TypeVariant::UInt16) => Ok(Reader::UInt16(*x)),
            (Value::UInt32(x), TypeVariant::UInt32) => Ok(Reader::UInt32(*x)),
            (Value::UInt64(x), TypeVariant::UInt64) => Ok(Reader::UInt64(*x)),
            (Value::Enum(x), TypeVariant::Enum(raw)) => {
                Ok(Reader::Enum(Enum::new(*x, EnumSchema::new(set, raw))))
            }
            (Value::Text(bytes), TypeVariant::Text) => Ok(Reader::Text(text::Reader(bytes))),
            (Value::Data(bytes), TypeVariant::Data) => Ok(Reader::Data(bytes)),
            (Value::Struct(bytes), TypeVariant::Struct(raw)) => struct_of_default(bytes, set, raw),
            (Value::List(bytes), TypeVariant::List(element_type)) => {
                list_of_default(bytes, set, element_type)
            }
            (Value::AnyPointer, TypeVariant::AnyPointer) => {
                let source = PointerSource::Default(null());
                Ok(Reader::AnyPointer(any_pointer::Reader::of_source(source)))
            }
            (Value::Interface, TypeVariant::Capability) => Ok(Reader::Capability(Capability)),
            _ => Err(Error::from(ErrorKind::TypeMismatch)),
        }
    }
}
