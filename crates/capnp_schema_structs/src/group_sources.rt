//! Structs to read, as sources from which groups are set.
ghost use Rattle.std.specs.Prelude.{ℕ, ◌≡◌, ◌*◌, ◌<◌, ◌^◌, IfErr, OnOk};
ghost use Rattle.capnp_model.specs.Readings.{discriminant, field_bits, is_active};
ghost use Rattle.capnp_model.specs.Schemas.{width};
ghost use Rattle.capnp_model.specs.Trees.{Tree, child};
ghost use Rattle.capnp_units.specs.Segments.{words_in};
ghost use Rattle.capnp_wire.specs.Views.{seen_struct, pointer_field};
ghost use Rattle.capnp_values_queries.specs.Fields.{union_in};
ghost use Rattle.capnp_values_queries.specs.Handles.{entry_of_field, plain_of};
ghost use Rattle.capnp_values_queries.specs.Structs.{shape_of_struct};
ghost use Rattle.capnp_copy_arenas.specs.Refusals.{IsSizeOrRefusal};
ghost use Rattle.capnp_copy_arenas.specs.States.{HasWords};
ghost use Rattle.capnp_schema_structs.specs.GroupRefusals.{ChildRefused};
ghost use Rattle.capnp_values.specs.Standing.{LeadsToValue};
ghost use Rattle.capnp_schema_structs.specs.GroupWrites.{GroupSource};
ghost use Rattle.capnp_schema_structs.specs.GroupSets.{IsNotNull, IsSource, PutsChild, entry_turn};
ghost use Rattle.capnp_schema_structs.specs.Sources.{StandsIfRefused};

use capnp_copy_arenas::arena::BuilderArena;
use capnp_copy_values::copy::copy_from;
use capnp_records::node::NO_DISCRIMINANT;
use capnp_units::errors::{Error, Result};
use capnp_units::kinds::ErrorKind;
use capnp_units::limiter::ReadLimiter;
use capnp_values_queries::fields::Field;
use capnp_values_queries::slots::PlainType;
use capnp_values_queries::structs::StructSchema;
use capnp_wire::structs::StructReader;
use capnp_wire_objects::arena::ReaderArena;
use capnp_wire_objects::place::Place;

/// Returns whether the union's member of a discriminant is the active member in the source.
fn is_active<B: ReaderArena>(
    source: &StructReader<'_, B>,
    schema: StructSchema<'_>,
    member: u16,
) -> bool
    ensures { (from : GroupSource) → IsSource (seen_struct B.segments source.now) from
        → result ≡ is_active (Some member)
        (discriminant (union_in (shape_of_struct schema.entry)) from.extent from.section) }
{
    // For the proof, which cites how many bits the section has.
    let _section = source.section();
    match schema.discriminant_offset() {
        Some(offset) => member == source.get_data_field::<u16>(offset as usize),
        None => false,
    }
}

/// Returns whether it is a field's turn: first that of the member that is active in the source,
/// then of the fields that are not members.
pub(crate) fn has_turn<B: ReaderArena>(
    source: &StructReader<'_, B>,
    field: Field<'_>,
    members: bool,
) -> bool
    ensures { (from : GroupSource) → IsSource (seen_struct B.segments source.now) from
        → result ≡ entry_turn members (union_in (shape_of_struct field.entry.parent))
        (entry_of_field field.entry) from }
{
    let member = field.get_proto().discriminant_value;
    if member == NO_DISCRIMINANT {
        return !members;
    }
    members && is_active(source, field.parent(), member)
}

/// Returns the bits of a plain slot of the source: zero unless they are wholly in its data section.
pub(crate) fn bits_in<B: ReaderArena>(
    source: &StructReader<'_, B>,
    ty: PlainType,
    offset: u32,
) -> u64
    ensures bits { (from : GroupSource) → IsSource (seen_struct B.segments source.now) from
        → result ≡ field_bits from.extent from.section (width (plain_of ty) * offset)
        (width (plain_of ty)) }
    ensures fit { result < 2 ^ width (plain_of ty) }
{
    // For the proof, which cites how many bits the section has.
    let _section = source.section();
    let offset = offset as usize;
    match ty {
        PlainType::Bool => { if source.get_bool_field(offset) { 1 } else { 0 } }
        PlainType::Int8 | PlainType::UInt8 => u64::from(source.get_data_field::<u8>(offset)),
        PlainType::Int16 | PlainType::UInt16 | PlainType::Enum(_) => {
            u64::from(source.get_data_field::<u16>(offset))
        }
        PlainType::Int32 | PlainType::UInt32 => u64::from(source.get_data_field::<u32>(offset)),
        PlainType::Int64 | PlainType::UInt64 => source.get_data_field::<u64>(offset),
    }
}

/// Replaces the value of the pointer at a place by a value of the source, which isn't null.
pub(crate) fn copy_child<A: BuilderArena, B: ReaderArena>(
    arena: &mut A,
    slot: Place,
    source: &StructReader<'_, B>,
    index: u32,
) -> Result<()>
    requires there { HasWords (A.segments arena.old) slot 1 }
    requires near { slot.position < 2 ^ 61 }
    requires some { IsNotNull (seen_struct B.segments source.now) index }
    ensures puts { (from : GroupSource) → IsSource (seen_struct B.segments source.now) from
        → OnOk result (PutsChild A.segments arena.old arena.new slot (child from.kids index)) }
    ensures stands { StandsIfRefused (words_in (A.segments arena.old))
        (words_in (A.segments arena.new)) result }
    ensures why { IfErr result (ChildRefused (IsSizeOrRefusal A.refuses)
        (seen_struct B.segments source.now) index (words_in (A.segments arena.new))) }
    ensures cause { let p = pointer_field (seen_struct B.segments source.now) index in
        (n : ℕ) (t : Tree) → LeadsToValue n p t → IfErr result (IsSizeOrRefusal A.refuses) }
    ensures books { A.books arena.new ≡ A.books arena.old }
{
    let Some(levels) = source.levels() else {
        return Err(Error::from(ErrorKind::NestingLimitExceeded));
    };
    let first = source.first_pointer();
    let place = Place {
        segment: first.segment,
        position: first.position + index as usize,
    };
    let mut limiter = ReadLimiter::new(None);
    copy_from(arena, slot, &mut limiter, &source.backing(), place, levels)
}
