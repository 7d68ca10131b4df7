//! Values with which fields are compared.

use crate::asked::Asked;
use crate::troubles::Trouble;
use crate::ways::{Scope, Way};
use capnp_calls::{Action, Call, CallFault, SlotValue};
use capnp_records::node::BaseType;
use hagzimot_commands::paths::Landing;
use hagzimot_commands::strict::{Misfit, check_call, sort_of};
use hagzimot_commands::word_calls::{WordTrouble, WordVerb, call_of_words, path_text};
use hagzimot_expressions::tree::Operator;
use std::alloc::Global;

/// The sort of a value that can be compared.
#[derive(Clone, Copy, Debug, PartialEq, Eq)]
pub(crate) enum Sort {
    Whole,
    Truth,
    Enumerant,
    Text,
    Data,
    Float32,
    Float64,
}

/// Returns the sort of a base type, if its values can be compared.
fn sort_of_base(base: BaseType, is_float: bool) -> Option<Sort> {
    match base {
        BaseType::UInt32 if is_float => Some(Sort::Float32),
        BaseType::UInt64 if is_float => Some(Sort::Float64),
        BaseType::Int8
        | BaseType::Int16
        | BaseType::Int32
        | BaseType::Int64
        | BaseType::UInt8
        | BaseType::UInt16
        | BaseType::UInt32
        | BaseType::UInt64 => Some(Sort::Whole),
        BaseType::Bool => Some(Sort::Truth),
        BaseType::Enum(_) => Some(Sort::Enumerant),
        BaseType::Text => Some(Sort::Text),
        BaseType::Data => Some(Sort::Data),
        BaseType::Void
        | BaseType::Float32
        | BaseType::Float64
        | BaseType::Struct(_)
        | BaseType::AnyPointer
        | BaseType::Capability => None,
    }
}

/// Returns the sort of the value to which a way leads, with its name.
pub(crate) fn sort_at(way: &Way) -> Result<(Sort, &'static str), Trouble> {
    let Landing::Value(ty) = way.at else {
        return Err(Trouble::NotCompared("a group"));
    };
    let name = if way.is_float { "a float" } else { sort_of(ty) };
    if ty.list_count > 0 {
        return Err(Trouble::NotCompared("a list"));
    }
    match sort_of_base(ty.base, way.is_float) {
        Some(sort) => Ok((sort, name)),
        None => Err(Trouble::NotCompared(name)),
    }
}

/// Returns what a word sets where a way leads, as `--set` takes it.
fn call_along(alloc: Global, scope: Scope<'_>, way: &Way, word: &str) -> Result<Call, Trouble> {
    let path = path_text(alloc, &way.steps)?;
    let words = format!(in alloc; "{path}={word}")?;
    let Scope {
        nodes,
        floats,
        root,
        schema,
    } = scope;
    let verb = WordVerb::Set;
    let (path, verb, value) = call_of_words(alloc, nodes, floats, root, verb, words.as_str())?;
    let call = match Call::new(alloc, path, verb, value) {
        Ok(call) => call,
        Err(CallFault::Memory) => return Err(Trouble::Memory),
        // Not met: a path has a step, and a value isn't a message.
        Err(_) => return Err(Trouble::Value(WordTrouble::Path)),
    };
    match check_call(alloc, schema, &call) {
        Ok(()) => Ok(call),
        Err(Misfit::Path(misstep)) => Err(Trouble::from(misstep)),
        Err(misfit) => Err(Trouble::Misfit(misfit)),
    }
}

/// Returns what is asked of a value by a comparison with a word.
pub(crate) fn asked_of(
    alloc: Global,
    scope: Scope<'_>,
    way: &Way,
    sort: Sort,
    operator: Operator,
    word: &str,
) -> Result<Asked, Trouble> {
    let call = call_along(alloc, scope, way, word)?;
    let Action::Set(value) = call.action() else {
        return Err(Trouble::Value(WordTrouble::NoValue));
    };
    match (sort, value) {
        (Sort::Float32, SlotValue::Number(bits)) => match u32::try_from(*bits) {
            Ok(bits) => Ok(Asked::Float32 { operator, bits }),
            Err(_) => Err(Trouble::Value(WordTrouble::Value("a float"))),
        },
        (Sort::Float64, SlotValue::Number(bits)) => match u64::try_from(*bits) {
            Ok(bits) => Ok(Asked::Float64 { operator, bits }),
            Err(_) => Err(Trouble::Value(WordTrouble::Value("a float"))),
        },
        (_, SlotValue::Number(number)) => Ok(Asked::Whole {
            operator,
            number: *number,
        }),
        (_, SlotValue::Bool(value)) => Ok(Asked::Truth {
            operator,
            value: *value,
        }),
        (_, SlotValue::Enum(number)) => Ok(Asked::Enumerant {
            operator,
            number: *number,
        }),
        (_, SlotValue::Text(text)) => {
            let bytes = text.as_bytes().to_vec(alloc)?;
            Ok(Asked::Text { operator, bytes })
        }
        (_, SlotValue::Data(bytes)) => {
            let bytes = bytes.to_vec(alloc)?;
            Ok(Asked::Data { operator, bytes })
        }
        (_, SlotValue::Message(_)) => Err(Trouble::Value(WordTrouble::NoValue)),
    }
}
