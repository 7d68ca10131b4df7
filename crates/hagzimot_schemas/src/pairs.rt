//! The structs that two versions of a schema have both.
ghost use Rattle.std.specs.Prelude.{◌≡◌, ◌==◌, ◌&&◌, ◌||◌, ◌++◌, ℕ, List, Some, if◌then◌else◌, IfOk, OnOk, map, option_map, string_bytes};
ghost use Rattle.std.specs.List.{filter_map, list_any};
ghost use Rattle.std.specs.Map.{lookup};
ghost use Rattle.std.specs.Option.{option_to_list};
ghost use Rattle.std.specs.Str.{bytes_eq};
ghost use Rattle.std.proofs.Props.{props};
ghost use Rattle.hagzimot_schemas.specs.Twins.{is_own_struct, twin_of, paired, lacked, FindsIds, FindsNames};

use crate::interfaces::push_pair;
use capnp_records::node::{NodeBody, NodeRecord};
use std::alloc::{AllocError, Global};
use std::collections::{HashMap, HashSet};

/// The structs of an older schema beside those of a newer one.
#[derive(Drop)]
pub struct StructPairs<'a> {
    /// The ids of structs that both have, in the order of the older schema.
    pub pairs: Vec<(u64, u64)>,
    /// The names of the older structs that the newer schema lacks.
    pub left_out: Vec<&'a str>,
}

/// Tests whether a node is a struct of its own. Groups and structs that bind a generic type are
/// not: they are compared with the structs that lead to them.
fn is_own_struct(node: &NodeRecord) -> bool
    ensures { result ≡ is_own_struct node.now }
{
    match &node.body {
        NodeBody::Struct(body) => {
            let name = node.display_name.as_str();
            !body.is_group && !name.as_bytes().contains(&b'(')
        }
        NodeBody::Enum(_) => false,
    }
}

/// Puts the id of a node among others, if the node is a struct of its own.
fn know_id(ids: &mut HashSet<u64>, node: &NodeRecord) -> Result<(), AllocError>
    ensures { IfOk result (λ _. (i : ℕ) → list_any (λ k. i == k) ids.new.keys
        ≡ ((is_own_struct node.now && (node.now.id == i))
        || list_any (λ k. i == k) ids.old.keys)) }
{
    if is_own_struct(node) {
        ids.insert(node.id)?;
    }
    Ok(())
}

/// Puts the id of a node at its name, if the node is a struct of its own.
fn know_name<'a>(names: &mut HashMap<&'a str, u64>, node: &'a NodeRecord) -> Result<(), AllocError>
    ensures { IfOk result (λ _. (l : List ℕ) → lookup (λ k. bytes_eq l k.now) names.new.entries
        ≡ (if is_own_struct node.now && bytes_eq (string_bytes node.now.display_name) l
        then Some node.now.id else lookup (λ k. bytes_eq l k.now) names.old.entries)) }
{
    if is_own_struct(node) {
        names.insert(node.display_name.as_str(), node.id)?;
    }
    Ok(())
}

/// The nodes of a schema, and the structs among them by their ids and names.
#[derive(Drop)]
struct Structs<'a> {
    nodes: &'a [NodeRecord],
    ids: HashSet<u64>,
    names: HashMap<&'a str, u64>,
    pub ghost by_id: { FindsIds nodes.now ids.keys } by { Prim.hlevel props },
    pub ghost by_name: { FindsNames nodes.now names.entries } by { Prim.hlevel props },
}

impl<'a> Structs<'a> {
    ghost use Rattle.std.specs.Prelude.{◌≡◌, IfOk};
    ghost use Rattle.hagzimot_schemas.specs.Twins.{twin_of};

    /// Finds the structs among nodes.
    fn new(alloc: Global, nodes: &'a [NodeRecord]) -> Result<Structs<'a>, AllocError>
        ensures { IfOk result (λ structs. structs.nodes.now ≡ nodes.now) }
    {
        let mut ids: HashSet<u64> = HashSet::new(alloc);
        let mut names: HashMap<&'a str, u64> = HashMap::new(alloc);
        let mut left = nodes;
        while let [node, others @ ..] = left {
            know_id(&mut ids, node)?;
            know_name(&mut names, node)?;
            left = others;
        }
        Ok(Structs { nodes, ids, names })
    }

    /// Returns the newer struct of an older node: that of its id or, if there isn't one, the last
    /// of its name.
    fn twin(&self, node: &NodeRecord) -> Option<u64>
        ensures { result ≡ twin_of self.now.nodes.now node.now }
    {
        if self.ids.contains(&node.id) {
            return Some(node.id);
        }
        self.names.get(&node.display_name.as_str()).copied()
    }
}

/// Returns the ids of an older node and its newer struct, if it is a struct that has one.
fn paired(newer: &Structs<'_>, node: &NodeRecord) -> Option<(u64, u64)>
    ensures { result ≡ paired newer.now.nodes.now node.now }
{
    if !is_own_struct(node) {
        return None;
    }
    let twin = newer.twin(node)?;
    Some((node.id, twin))
}

/// Returns the name of an older node, if it is a struct that has no newer struct.
fn lacked<'a>(newer: &Structs<'_>, node: &'a NodeRecord) -> Option<&'a str>
    ensures { option_map (λ s. s.now) result ≡ lacked newer.now.nodes.now node.now }
{
    if !is_own_struct(node) {
        return None;
    }
    match newer.twin(node) {
        Some(_) => None,
        None => Some(node.display_name.as_str()),
    }
}

/// Appends a name to others, if there is one.
fn push_name<'a>(names: &mut Vec<&'a str>, name: Option<&'a str>) -> Result<(), AllocError>
    ensures { OnOk result (map (λ s. s.now) names.new.items
        ≡ map (λ s. s.now) names.old.items ++ option_to_list (option_map (λ s. s.now) name.entry)) }
{
    if let Some(name) = name {
        names.push(name)?;
    }
    Ok(())
}

/// Returns the structs that both schemas have: with the same id or, if there is not one, with the
/// same name.
pub fn pairs_of<'a>(
    alloc: Global,
    older: &'a [NodeRecord],
    newer: &[NodeRecord],
) -> Result<StructPairs<'a>, AllocError>
    ensures pairs { IfOk result (λ s. s.pairs.items ≡ filter_map (paired newer.now) older.now) }
    ensures left_out { IfOk result (λ s. map (λ name. name.now) s.left_out.items
        ≡ filter_map (lacked newer.now) older.now) }
{
    let structs = Structs::new(alloc, newer)?;
    let mut pairs = Vec::new(alloc);
    let mut left_out = Vec::new(alloc);
    for node in older {
        push_pair(&mut pairs, paired(&structs, node))?;
        push_name(&mut left_out, lacked(&structs, node))?;
    }
    Ok(StructPairs { pairs, left_out })
}
