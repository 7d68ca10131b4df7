//! Calls whose results exceed the limit of words.
ghost use Rattle.std.specs.Prelude.{◌≡◌, ◌^◌, ◌<◌, ◌==◌, find, IfErr, OnOk};
ghost use Rattle.capnp_calls.specs.CallViews.{call_view};
ghost use Rattle.hagzimot_commands.specs.Sizes.{words_of_node, base_bits, bits_each, made_words, MakesAtMost, MakesMore};

use crate::paths::{Landing, landing_from};
use crate::strict::Misfit;
use capnp_calls::{Action, Call};
use capnp_records::node::{BaseType, NodeBody, NodeRecord};
use hagzimot_schemas::nodes::node_of_id;
use std::alloc::Global;

/// Returns the words that an element of a list of structs of an id takes. Returns 1 if the element
/// has no words, because following it costs one word.
fn struct_words(nodes: &[NodeRecord], id: u64) -> u64
    ensures words { result ≡ words_of_node (find (λ n. n.id == id) nodes.now) }
    ensures few { result < 2 ^ 17 }
{
    match node_of_id(nodes, id) {
        Some(node) => match &node.body {
            NodeBody::Struct(body) => {
                let words = body.data_word_count as u64 + body.pointer_count as u64;
                if words == 0 { 1 } else { words }
            }
            NodeBody::Enum(_) => 0,
        },
        None => 0,
    }
}

/// Returns the bits that an element of a list of a base type takes.
fn base_bits(nodes: &[NodeRecord], base: BaseType) -> u64
    ensures bits { result ≡ base_bits nodes.now base }
    ensures few { result < 2 ^ 23 }
{
    match base {
        BaseType::Void => 0,
        BaseType::Bool => 1,
        BaseType::Int8 | BaseType::UInt8 => 8,
        BaseType::Int16 | BaseType::UInt16 | BaseType::Enum(_) => 16,
        BaseType::Int32 | BaseType::UInt32 | BaseType::Float32 => 32,
        BaseType::Struct(id) => struct_words(nodes, id) * 64,
        _ => 64,
    }
}

/// Returns the bits of each element or byte that `initn` makes.
fn bits_each(nodes: &[NodeRecord], at: Landing) -> u64
    ensures bits { result ≡ bits_each nodes.now at }
    ensures few { result < 2 ^ 23 }
{
    match at {
        Landing::Group(_) => 0,
        Landing::Value(ty) => match ty.list_count {
            0 => 8,
            1 => base_bits(nodes, ty.base),
            _ => 64,
        },
    }
}

/// Returns the least number of words that `initn` makes.
fn made_words(nodes: &[NodeRecord], at: Landing, count: u32) -> u64
    ensures { result ≡ made_words nodes.now at count }
{
    (count as u64 * bits_each(nodes, at) + 63) / 64
}

/// Checks that a call makes at most `limit` words. `Path`: the path of the call leads nowhere.
/// `Size`: `initn` makes more words.
pub fn check_size(
    alloc: Global,
    nodes: &[NodeRecord],
    root: u64,
    call: &Call,
    limit: u64,
) -> Result<(), Misfit>
    ensures ok { OnOk result (MakesAtMost nodes.now root (call_view call.now).path
        (call_view call.now).verb limit) }
    ensures err { IfErr result (MakesMore nodes.now root (call_view call.now).path
        (call_view call.now).verb limit) }
{
    let Action::Initn(count) = call.action() else {
        return Ok(());
    };
    let at = match landing_from(alloc, nodes, root, call.path()) {
        Ok(at) => at,
        Err(misstep) => return Err(Misfit::Path(misstep)),
    };
    let words = made_words(nodes, at, *count);
    if words > limit {
        return Err(Misfit::Size {
            count: *count,
            words,
            limit,
        });
    }
    Ok(())
}
