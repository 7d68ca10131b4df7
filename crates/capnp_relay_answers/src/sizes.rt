//! The number of words of memory that a message and its edits may take.
ghost use Rattle.std.specs.Prelude.{◌≡◌, ◌↔◌, ◌≤◌, ◌<◌, ◌^◌, true, map, sum_by};
ghost use Rattle.capnp_records.specs.NodeViews.{node_kind, node_of};
ghost use Rattle.capnp_calls.specs.CallViews.{slot_value_view, action_view};
ghost use Rattle.capnp_calls.specs.Resolved.{call_of, calls_of};
ghost use Rattle.capnp_relay_answers.specs.Sizes.{words_of_kind, widest_struct, most_set, most_put, most_by, IsSumTold, MayPassWords};

use crate::bounds::Bounds;
use capnp_calls::resolved::Resolved;
use capnp_calls::{Action, SlotValue};
use capnp_records::node::{NodeBody, NodeRecord};
use capnp_values_queries::structs::StructSchema;

/// The bound of a message's words in memory: a message has fewer.
const WORDS: u64 = 1 << 29;

/// The most words of the value of a message that a call sets.
const VALUE_WORDS: u64 = 1 << 23;

/// The words that are allowed for a step of a path, as a power of 2.
const STEP_BITS: u32 = 16;

/// Returns the number of words of a node's structs; an enum has none.
fn words_of_body(body: &NodeBody) -> u64
    ensures words { result ≡ words_of_kind (node_kind body.now) }
    ensures few { result < 2 ^ 17 }
{
    match body {
        NodeBody::Struct(said) => {
            u64::from(said.data_word_count) + u64::from(said.pointer_count)
        }
        NodeBody::Enum(_) => 0,
    }
}

/// Returns the number of words of the widest struct.
fn widest_struct(nodes: &[NodeRecord]) -> u64
    ensures words { result ≡ widest_struct (map node_of nodes.now) }
    ensures few { result < 2 ^ 17 }
{
    let mut most = 0;
    for node in nodes {
        let words = words_of_body(&node.body);
        if most < words {
            most = words;
        }
    }
    most
}

/// Returns a bound of the words, or elements, of a value, at most 2^29.
fn words_set(value: &SlotValue) -> u64
    ensures told { IsSumTold (most_set (slot_value_view value.now)) result }
    ensures few { result ≤ 2 ^ 29 }
{
    match value {
        SlotValue::Number(_) | SlotValue::Bool(_) | SlotValue::Enum(_) => 0,
        SlotValue::Text(text) => (text.len() as u64).min(WORDS),
        SlotValue::Data(bytes) => (bytes.len() as u64).min(WORDS),
        SlotValue::Message(_) => VALUE_WORDS,
    }
}

/// Returns the number of words, or elements, that an action writes.
fn words_put(action: &Action) -> u64
    ensures told { IsSumTold (most_put (action_view action.now)) result }
    ensures few { result < 2 ^ 32 }
{
    match action {
        Action::Get | Action::Init | Action::Clear => 0,
        Action::Set(value) => words_set(value),
        Action::Initn(count) => u64::from(*count),
    }
}

/// Returns the number of words, or elements, that a call writes at the end of its path and on it.
fn words_by(call: &Resolved<'_>) -> u64
    ensures told { IsSumTold (most_by (call_of call.now)) result }
    ensures few { result < 2 ^ 33 }
{
    let steps = (call.path().len() as u64).min(WORDS >> STEP_BITS);
    words_put(call.action()) + (steps << STEP_BITS)
}

/// Returns the number for all calls, at most 2^29.
fn words_by_all(calls: &[Resolved<'_>]) -> u64
    ensures told { IsSumTold (sum_by most_by (calls_of calls.now)) result }
    ensures few { result ≤ 2 ^ 29 }
{
    let mut sum: u64 = 0;
    for call in calls {
        sum = (sum + words_by(call)).min(WORDS);
    }
    sum
}

/// Returns whether a message within the bounds and its edits by the calls may take more words of
/// memory than a message has.
pub(crate) fn may_pass_words(
    schema: StructSchema<'_>,
    calls: &[Resolved<'_>],
    bounds: Bounds,
) -> bool
    ensures { (result ≡ true) ↔ MayPassWords schema.entry (calls_of calls.now) bounds }
{
    let width = 4 + widest_struct(schema.set().nodes());
    let words = u64::from(bounds.words) + words_by_all(calls);
    width * words >= WORDS
}
