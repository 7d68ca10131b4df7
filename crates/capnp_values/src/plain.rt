//! Plain values of structs.
ghost use Rattle.std.specs.Prelude.{◌≡◌, ◌*◌, ◌^◌, ◌<◌, true};
ghost use Rattle.capnp_model.specs.Schemas.{width};
ghost use Rattle.capnp_records.specs.Sets.{nodes_of};
ghost use Rattle.capnp_values_queries.specs.Handles.{plain_of, is_plain_of};
ghost use Rattle.capnp_values.specs.Sources.{struct_seen};
ghost use Rattle.capnp_values.specs.Shown.{shown, schema_in, plain_shown};

use crate::dynamic_value::{Enum, Reader};
use crate::source::StructSource;
use capnp_records::set::SchemaSet;
use capnp_values_queries::enums::EnumSchema;
use capnp_values_queries::slots::PlainType;
use capnp_wire_objects::arena::ReaderArena;

/// Returns a plain value of a struct: its bits, exclusive-or'ed with those of its default. Outside
/// the section it is only the bits of the default.
pub(crate) fn plain_value<'a, A: ReaderArena>(
    source: &StructSource<'a, A>,
    set: &'a SchemaSet,
    ty: PlainType,
    offset: usize,
    default_bits: u64,
) -> Reader<'a, A>
    requires fits { default_bits < 2 ^ width (plain_of ty) }
    requires known { is_plain_of (nodes_of set.now) ty ≡ true }
    ensures { shown A.segments result
        ≡ plain_shown (schema_in set.now) (struct_seen A.segments source.now) (plain_of ty) offset
        default_bits }
{
    match ty {
        PlainType::Bool => Reader::Bool(source.bit(offset, default_bits == 1)),
        PlainType::Int8 => Reader::Int8(source.number(offset, (default_bits as u8).cast_signed())),
        PlainType::Int16 => {
            Reader::Int16(source.number(offset, (default_bits as u16).cast_signed()))
        }
        PlainType::Int32 => {
            Reader::Int32(source.number(offset, (default_bits as u32).cast_signed()))
        }
        PlainType::Int64 => Reader::Int64(source.number(offset, default_bits.cast_signed())),
        PlainType::UInt8 => Reader::UInt8(source.number(offset, default_bits as u8)),
        PlainType::UInt16 => Reader::UInt16(source.number(offset, default_bits as u16)),
        PlainType::UInt32 => Reader::UInt32(source.number(offset, default_bits as u32)),
        PlainType::UInt64 => Reader::UInt64(source.number(offset, default_bits)),
        PlainType::Enum(raw) => {
            let value = source.number(offset, default_bits as u16);
            Reader::Enum(Enum::new(value, EnumSchema::new(set, raw)))
        }
    }
}
