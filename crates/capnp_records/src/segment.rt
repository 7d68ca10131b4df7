//! Values that node records hold as the bytes of one segment.

ghost use Rattle.std.specs.Prelude.{◌≡◌, ◌-◌, ◌<◌, Some};
ghost use Rattle.capnp_model.specs.Trees.{Tree, size_bits};
ghost use Rattle.capnp_model.specs.Segments.{root};
ghost use Rattle.capnp_model.specs.Traversal.{tree_at};
ghost use Rattle.capnp_model.specs.Canonical.{is_canonical_message};
ghost use Rattle.capnp_model.specs.Schemas.{base_type, lists_of, type_of};
ghost use Rattle.capnp_model.specs.Readings.{expected_size, have_room, is_accepted_as};
ghost use Rattle.capnp_model.specs.Accepted.{opens_as, is_good_segment};
ghost use Rattle.capnp_units.specs.Segments.{words_in};
ghost use Rattle.capnp_wire_canonical.specs.Standing.{IsSmall};
ghost use Rattle.capnp_records.specs.NodeViews.{base_of, type_record_of};
ghost use Rattle.capnp_records.specs.Segments.{form_of, wants};

use crate::node::{BaseType, TypeRecord};
use capnp_model::laws::values_on_walks;
use capnp_units::limiter::ReadLimiter;
use capnp_wire_canonical::check::is_canonical_message;
use capnp_wire_objects::arena::{ReaderArena, ReaderArenaImpl};
use capnp_wire_objects::laws::values_by_levels;
use capnp_wire_objects::object::{Object, object_at};
use capnp_wire_objects::place::ROOT;

/// The most levels of a value that a node record holds.
const MOST_LEVELS: u32 = 64;

/// Fewer bytes than these 2^32 are fewer than 2^29 words.
const TOO_MANY_BYTES: usize = 0x1_0000_0000;

/// The condition that a value has to meet.
#[derive(Clone, Copy)]
pub(crate) enum Wanted {
    Anything,
    /// The value is null or can be read as the type.
    Of(TypeRecord),
}

// ---- types of values

/// Returns the number of the element size with which lists of the base are written.
fn size_of_base(base: BaseType) -> u64
    ensures { result ≡ expected_size (base_type (base_of base)) }
{
    match base {
        BaseType::Void | BaseType::Float32 | BaseType::Float64 => 0,
        BaseType::Bool => 1,
        BaseType::Int8 | BaseType::UInt8 => 2,
        BaseType::Int16 | BaseType::UInt16 | BaseType::Enum(_) => 3,
        BaseType::Int32 | BaseType::UInt32 => 4,
        BaseType::Int64 | BaseType::UInt64 => 5,
        BaseType::Struct(_) => 7,
        BaseType::Text | BaseType::Data | BaseType::AnyPointer | BaseType::Capability => 6,
    }
}

fn expected_size(ty: TypeRecord) -> u64
    ensures { result ≡ expected_size (type_of (type_record_of ty)) }
{
    if ty.list_count > 0 {
        return 6;
    }
    size_of_base(ty.base)
}

/// Returns the number of bits of an element of a size.
fn size_bits(size: u64) -> u64
    ensures { result ≡ size_bits size }
{
    match size {
        0 => 0,
        1 => 1,
        2 => 8,
        3 => 16,
        4 => 32,
        _ => 64,
    }
}

/// Returns whether elements of n bits and pointers can be read as elements of the size.
fn have_room(bits: u64, pointers: u64, expected: u64) -> bool
    ensures { result ≡ have_room bits pointers expected }
{
    let needed_bits = if expected < 6 { size_bits(expected) } else { 0 };
    let needed_pointers = if expected == 6 { 1 } else { 0 };
    needed_bits <= bits && needed_pointers <= pointers
}

fn is_accepted_as(expected: u64, object: Object) -> bool
    ensures { result ≡ is_accepted_as expected (form_of object) }
{
    match object {
        Object::List { size, .. } => {
            let size = size.number();
            if size == 1 {
                expected == 1
            } else {
                have_room(size_bits(size), 0, expected)
            }
        }
        Object::PointerList { .. } => have_room(0, 1, expected),
        Object::StructList {
            data_words,
            pointers,
            ..
        } => {
            expected != 1 && have_room(64 * u64::from(data_words), u64::from(pointers), expected)
        }
        Object::Null | Object::Struct { .. } | Object::Capability { .. } => false,
    }
}

/// Returns whether the elements of a list can be read as those of the list type.
fn list_opens_as(object: Object, ty: TypeRecord) -> bool
    requires { 0 < ty.list_count }
    ensures { let element = lists_of (ty.list_count - 1) (base_type (base_of ty.base)) in
        result ≡ is_accepted_as (expected_size element) (form_of object) }
{
    let element = TypeRecord {
        list_count: ty.list_count - 1,
        base: ty.base,
    };
    is_accepted_as(expected_size(element), object)
}

/// Returns whether an object is null or can be read as the type.
#[tactic(auto, using(crate::proofs::lemmas::Segments::lists))]
fn opens_as(object: Object, ty: TypeRecord) -> bool
    ensures { result ≡ opens_as (form_of object) (type_of (type_record_of ty)) }
{
    if let Object::Null = object {
        return true;
    }
    if ty.list_count > 0 {
        return list_opens_as(object, ty);
    }
    matches!(object, Object::Struct { .. }) && matches!(ty.base, BaseType::Struct(_))
}

/// Returns whether the value at the root, which exists, meets the condition.
fn is_wanted<A: ReaderArena>(arena: &A, wanted: Wanted) -> bool
    ensures { (t : Tree) → tree_at 64 (words_in (A.segments arena.now)) root ≡ Some t
        → result ≡ wants wanted t }
{
    values_on_walks();
    values_by_levels();
    match wanted {
        Wanted::Anything => true,
        Wanted::Of(ty) => match object_at(arena, ROOT) {
            Ok(found) => opens_as(found.object, ty),
            Err(_) => false,
        },
    }
}

// ---- canonical bytes

/// Returns whether a message under 2^29 words is one segment, of the canonical words of a value of
/// at most 64 levels without capabilities.
fn is_canonical<A: ReaderArena>(arena: &A) -> bool
    requires { IsSmall (words_in (A.segments arena.now)) root }
    ensures { result ≡ is_canonical_message 64 (words_in (A.segments arena.now)) }
{
    values_on_walks();
    let mut unlimited = ReadLimiter::new(None);
    match is_canonical_message(arena, &mut unlimited, MOST_LEVELS) {
        Ok(stands) => stands,
        Err(_) => false,
    }
}

/// Returns whether the bytes are a canonical value under 2^29 words, of at most 64 levels and
/// without capabilities, which meets the condition.
pub(crate) fn is_good_segment(bytes: &[u8], wanted: Wanted) -> bool
    ensures { result ≡ is_good_segment (wants wanted) bytes.now }
{
    if bytes.len() >= TOO_MANY_BYTES || bytes.len() % 8 != 0 {
        return false;
    }
    let owners: [&[u8]; 1] = [bytes];
    let arena = ReaderArenaImpl::new(owners.as_slice(), MOST_LEVELS as i32);
    is_canonical(&arena) && is_wanted(&arena, wanted)
}
