//! Calls that no record could take, refused before any message is read.
ghost use Rattle.std.specs.Prelude.{◌≡◌, true, false, IfErr, OnErr, OnOk, map};
ghost use Rattle.capnp_model.specs.Calls.{set_to, init};
ghost use Rattle.capnp_values_queries.specs.Structs.{nodes_around, schema_around, id_of};
ghost use Rattle.capnp_calls.specs.CallViews.{step_view, slot_value_view, action_view, call_view};
ghost use Rattle.capnp_calls_replies.specs.Checks.{can_take};
ghost use Rattle.hagzimot_commands.specs.Sorts.{sort_told};
ghost use Rattle.hagzimot_commands.specs.Strict.{numbers_of, is_number_among, base_takes_number, base_takes, is_whole_message, has_sort_of, is_in_type, is_in_range_there, numbers_there, is_struct_there, is_untyped_there, is_many_there, is_index, ends_with_index, fits_there, IsOutOfRange, IsMisfitThere, IsMisfit, IsMisfitUnder};

use crate::paths::{Landing, Misstep, landing_from};
use capnp_calls::{Action, Call, SlotValue, Step};
use capnp_calls_replies::checks::could_be_taken;
use capnp_records::node::{BaseType, NodeRecord, TypeRecord};
use capnp_values_queries::structs::StructSchema;
use std::alloc::Global;
use std::fmt;
use std::fmt::{Display, Formatter, Write};

/// The reason for which no record could take a call.
#[derive(Debug, Drop)]
pub enum Misfit {
    /// The path of the call leads nowhere.
    Path(Misstep),
    /// The value is of another sort than the target.
    Sort {
        given: &'static str,
        there: &'static str,
    },
    /// The value is a message that doesn't fit the target.
    Value {
        there: &'static str,
    },
    /// The number isn't one of the type, which has those from `least` to `greatest`.
    Range {
        number: i128,
        there: &'static str,
        least: i128,
        greatest: i128,
    },
    /// `init` or `initn` of a target that can't be made in this way.
    NotMade {
        verb: &'static str,
        wanted: &'static str,
        there: &'static str,
    },
    /// `init` or `clear` of an element.
    AtElement {
        verb: &'static str,
    },
    /// `set` of an element of a list of untyped pointers.
    UntypedElement,
    /// `initn` of `count` elements, whose words exceed the limit of a message.
    Size {
        count: u32,
        words: u64,
        limit: u64,
    },
}

/// Returns the name of a plain type, or of the sort of any other type.
pub fn sort_of(ty: TypeRecord) -> &'static str
    ensures { result.now ≡ sort_told ty }
{
    if ty.list_count > 0 {
        return "a list";
    }
    match ty.base {
        BaseType::Void => "Void",
        BaseType::Bool => "a Bool",
        BaseType::Int8 => "an Int8",
        BaseType::Int16 => "an Int16",
        BaseType::Int32 => "an Int32",
        BaseType::Int64 => "an Int64",
        BaseType::UInt8 => "a UInt8",
        BaseType::UInt16 => "a UInt16",
        BaseType::UInt32 => "a UInt32",
        BaseType::UInt64 => "a UInt64",
        BaseType::Float32 => "a Float32",
        BaseType::Float64 => "a Float64",
        BaseType::Text => "a text",
        BaseType::Data => "data",
        BaseType::Enum(_) => "an enum",
        BaseType::Struct(_) => "a struct",
        BaseType::AnyPointer => "an untyped pointer",
        BaseType::Capability => "a capability",
    }
}

impl Display for Misfit {
    fn fmt<W: Write>(&self, f: &mut Formatter<W>) -> fmt::Result {
        match self {
            Misfit::Path(misstep) => write!(f, "{misstep}"),
            Misfit::Sort { given, there } => write!(
                f,
                "{given} can't be set where the path leads to {there}"
            ),
            Misfit::Value { there } => write!(
                f,
                "the value of the message doesn't fit where the path leads to {there}"
            ),
            Misfit::Range {
                number,
                there,
                least,
                greatest,
            } => write!(
                f,
                "{number} is out of the range of {there} ({least} to {greatest})"
            ),
            Misfit::NotMade {
                verb,
                wanted,
                there,
            } => write!(f, "{verb} needs {wanted}, but the path leads to {there}"),
            Misfit::AtElement { verb } => write!(
                f,
                "{verb} needs a field, but its path ends with an index"
            ),
            Misfit::UntypedElement => write!(
                f,
                "an element of a list of untyped pointers can't be set"
            ),
            Misfit::Size {
                count,
                words,
                limit,
            } => write!(
                f,
                "{count} elements take {words} words, and a message has at most {limit} (allow more by --words)"
            ),
        }
    }
}

/// Returns the least and the greatest number of a type of whole numbers.
fn range_of(base: BaseType) -> Option<(i128, i128)>
    ensures { result ≡ numbers_of base }
{
    match base {
        BaseType::Int8 => Some((i8::MIN as i128, i8::MAX as i128)),
        BaseType::Int16 => Some((i16::MIN as i128, i16::MAX as i128)),
        BaseType::Int32 => Some((i32::MIN as i128, i32::MAX as i128)),
        BaseType::Int64 => Some((i64::MIN as i128, i64::MAX as i128)),
        BaseType::UInt8 => Some((0, u8::MAX as i128)),
        BaseType::UInt16 => Some((0, u16::MAX as i128)),
        BaseType::UInt32 => Some((0, u32::MAX as i128)),
        BaseType::UInt64 => Some((0, u64::MAX as i128)),
        _ => None,
    }
}

/// Tests whether a value is of a base type. Void accepts any value, and an untyped pointer any
/// value that isn't plain.
fn is_of_base(value: &SlotValue, base: BaseType) -> bool
    ensures { result ≡ base_takes (slot_value_view value.now) base }
{
    if base == BaseType::Void {
        return true;
    }
    match value {
        SlotValue::Number(_) => range_of(base).is_some(),
        SlotValue::Bool(_) => base == BaseType::Bool,
        SlotValue::Enum(_) => matches!(base, BaseType::Enum(_)),
        SlotValue::Text(_) => matches!(base, BaseType::Text | BaseType::AnyPointer),
        SlotValue::Data(_) => matches!(base, BaseType::Data | BaseType::AnyPointer),
        SlotValue::Message(_) => matches!(base, BaseType::Struct(_) | BaseType::AnyPointer),
    }
}

/// Returns the noun of a value.
fn given_of(value: &SlotValue) -> &'static str {
    match value {
        SlotValue::Number(_) => "a number",
        SlotValue::Bool(_) => "a bool",
        SlotValue::Enum(_) => "an enum's number",
        SlotValue::Text(_) => "a text",
        SlotValue::Data(_) => "data",
        SlotValue::Message(_) => "a message",
    }
}

/// Returns the noun of the target of a path.
fn there_at(at: Landing) -> &'static str {
    match at {
        Landing::Value(ty) => sort_of(ty),
        Landing::Group(_) => "a group",
    }
}

/// Tests whether a value is of the sort of a target. A list and a group accept a message.
fn has_sort(value: &SlotValue, at: Landing) -> bool
    ensures { result ≡ has_sort_of (slot_value_view value.now) at }
{
    match at {
        Landing::Value(ty) if ty.list_count == 0 => is_of_base(value, ty.base),
        _ => matches!(value, SlotValue::Message(_)),
    }
}

/// Returns the least and the greatest number of the type of a target, if it has numbers.
fn numbers_at(at: Landing) -> Option<(i128, i128)>
    ensures { result ≡ numbers_there at }
{
    match at {
        Landing::Value(ty) => range_of(ty.base),
        Landing::Group(_) => None,
    }
}

/// Tests whether a target is a struct or a group.
fn is_struct(at: Landing) -> bool
    ensures { result ≡ is_struct_there at }
{
    match at {
        Landing::Value(ty) => ty.list_count == 0 && matches!(ty.base, BaseType::Struct(_)),
        Landing::Group(_) => true,
    }
}

/// Tests whether a target is an untyped pointer.
fn is_untyped(at: Landing) -> bool
    ensures { result ≡ is_untyped_there at }
{
    match at {
        Landing::Value(ty) => ty.list_count == 0 && ty.base == BaseType::AnyPointer,
        Landing::Group(_) => false,
    }
}

/// Tests whether a target is a list, a text or data.
fn is_many(at: Landing) -> bool
    ensures { result ≡ is_many_there at }
{
    match at {
        Landing::Value(ty) => ty.list_count > 0
            || matches!(ty.base, BaseType::Text | BaseType::Data),
        Landing::Group(_) => false,
    }
}

/// Tests whether a step is an index.
fn is_element(step: &Step) -> bool
    ensures { result ≡ is_index (step_view step.now) }
{
    matches!(step, Step::Index(_))
}

/// Tests whether a path ends with an index.
fn ends_at_element(path: &[Step]) -> bool
    ensures { result ≡ ends_with_index (map step_view path.now) }
{
    match path.last() {
        Some(step) => is_element(step),
        None => false,
    }
}

/// Checks that a number is one of the type of a target.
fn check_number(number: i128, at: Landing) -> Result<(), Misfit>
    ensures ok { OnOk result (is_in_type number at ≡ true) }
    ensures err { IfErr result (IsOutOfRange number at) }
{
    match numbers_at(at) {
        Some((least, greatest)) if number < least || number > greatest => Err(Misfit::Range {
            number,
            there: there_at(at),
            least,
            greatest,
        }),
        _ => Ok(()),
    }
}

/// Checks that a value can be set at the target of a path.
fn check_set(value: &SlotValue, at: Landing, path: &[Step]) -> Result<(), Misfit>
    ensures ok { OnOk result (fits_there at (map step_view path.now)
        (set_to (slot_value_view value.now)) ≡ true) }
    ensures err { IfErr result (IsMisfitThere at (map step_view path.now)
        (set_to (slot_value_view value.now))) }
{
    if !has_sort(value, at) {
        return Err(Misfit::Sort {
            given: given_of(value),
            there: there_at(at),
        });
    }
    if is_untyped(at) && ends_at_element(path) {
        return Err(Misfit::UntypedElement);
    }
    match value {
        SlotValue::Number(number) => check_number(*number, at),
        _ => Ok(()),
    }
}

/// Checks that a struct or a group can be made at the target of a path.
fn check_init(at: Landing, path: &[Step]) -> Result<(), Misfit>
    ensures ok { OnOk result (fits_there at (map step_view path.now) init ≡ true) }
    ensures err { IfErr result (IsMisfitThere at (map step_view path.now) init) }
{
    if ends_at_element(path) {
        return Err(Misfit::AtElement { verb: "init" });
    }
    if is_struct(at) || is_untyped(at) {
        return Ok(());
    }
    Err(Misfit::NotMade {
        verb: "init",
        wanted: "a struct, a group or an untyped pointer",
        there: there_at(at),
    })
}

/// Checks that an action can be made at the target of a path.
fn check_there(action: &Action, at: Landing, path: &[Step]) -> Result<(), Misfit>
    ensures ok { OnOk result
        (fits_there at (map step_view path.now) (action_view action.now) ≡ true) }
    ensures err { IfErr result
        (IsMisfitThere at (map step_view path.now) (action_view action.now)) }
{
    match action {
        Action::Get => Ok(()),
        Action::Set(value) => check_set(value, at, path),
        Action::Init => check_init(at, path),
        Action::Initn(_) if is_many(at) => Ok(()),
        Action::Initn(_) => Err(Misfit::NotMade {
            verb: "initn",
            wanted: "a list, a text or data",
            there: there_at(at),
        }),
        Action::Clear if ends_at_element(path) => Err(Misfit::AtElement { verb: "clear" }),
        Action::Clear => Ok(()),
    }
}

/// Returns what is wrong with a call that no record takes. The reasons are tried in order, and
/// `Value` is the last: the call then sets a message.
fn misfit_of(alloc: Global, nodes: &[NodeRecord], root: u64, call: &Call) -> Misfit
    ensures { IsMisfit nodes.now root (call_view call.now).path (call_view call.now).verb result }
{
    let path = call.path();
    let at = match landing_from(alloc, nodes, root, path) {
        Ok(at) => at,
        Err(misstep) => return Misfit::Path(misstep),
    };
    match check_there(call.action(), at, path) {
        Ok(()) => Misfit::Value {
            there: there_at(at),
        },
        Err(misfit) => misfit,
    }
}

/// Checks that some record could take a call under the schema of a root: its path leads to a field
/// or an element, and its action fits there. A call is refused exactly if every record refuses it.
/// The error says what is wrong:
/// - `Path`: a step of the path leads nowhere;
/// - `Sort`: the value is of another sort than the target;
/// - `UntypedElement`: `set` of an element of a list of untyped pointers;
/// - `Range`: a number that the type of the target doesn't have;
/// - `AtElement`: `init` or `clear` of an element;
/// - `NotMade`: `init` of a target that isn't a struct, a group or an untyped pointer, or `initn`
///   of one that isn't a list, a text or data;
/// - `Value`: a message whose value isn't a struct, isn't a list of such elements, or is a struct
///   that the group can't be set to.
pub fn check_call(alloc: Global, root: StructSchema<'_>, call: &Call) -> Result<(), Misfit>
    ensures taken { OnOk result
        (can_take (schema_around root.entry) (id_of root.entry) (call_view call.now) ≡ true) }
    ensures refused { OnErr result
        (can_take (schema_around root.entry) (id_of root.entry) (call_view call.now) ≡ false) }
    ensures misfit { IfErr result (IsMisfitUnder (nodes_around root.entry) (id_of root.entry)
        (call_view call.now).path (call_view call.now).verb) }
{
    if could_be_taken(root, call) {
        return Ok(());
    }
    Err(misfit_of(alloc, root.set().nodes(), root.raw().id, call))
}
