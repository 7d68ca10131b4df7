//! Sentences that report what breaks the compatibility of two versions of a schema.
ghost use Rattle.std.specs.Prelude.{◌≡◌, ◌==◌, ◌≤◌, true, false, length, option_map, option_copied, slice_get, string_bytes, All, IfOk, IfErr};
ghost use Rattle.std.specs.Bool.{MatchBool};
ghost use Rattle.capnp_model.specs.Accepted.{fields_of_kind};
ghost use Rattle.capnp_records.specs.NodeViews.{node_kind};
ghost use Rattle.capnp_units.specs.declared.kinds.ErrorKind.TheVariants.{OutOfMemory};
ghost use Rattle.capnp_calls_versions.specs.Roots.{AreRootsCompatibleWith};
ghost use Rattle.capnp_calls_versions.specs.Breaks.{IsBreakFrom};
ghost use Rattle.capnp_calls_versions.specs.AllBreaks.{AreAllBreaks};
ghost use Rattle.capnp_calls_versions.specs.Renamed.{renamings_of};
ghost use Rattle.hagzimot_schemas.specs.Sentences.{names_text, node_text, field_in, name_text, enum_depth, depth_of_enums, are_enums, how_text, pair_view, nodes_text, fields_text, field_text, due_text, taken_text, missing_text, rule_text, pair_of, interface_text, sentence_text};

use crate::interfaces::InterfaceBreak;
use crate::nodes::{fields_of, node_of_id};
use capnp_calls_versions::all_breaks::all_breaks;
use capnp_calls_versions::breaks::{Break, FieldRule, Rule};
use capnp_calls_versions::compatible::first_break;
use capnp_calls_versions::renamings::Renamings;
use capnp_calls_versions::root::Root;
use capnp_records::node::{BaseType, FieldBody, FieldRecord, NodeRecord};
use capnp_units::errors::Result;
use std::alloc::{AllocError, Global};

/// Returns what breaks a newer schema's compatibility with an older one, from the two roots on:
/// only the first break or, with `all`, that of each pair of structs. Fields are paired by
/// renamings too. There is no break exactly when the schemas are compatible. `OutOfMemory` is the
/// only error.
pub fn breaks_between(
    alloc: Global,
    older: Root<'_>,
    newer: Root<'_>,
    renamings: &Renamings,
    all: bool,
) -> Result<Vec<Break>>
    ensures answer { IfOk result (λ bs.
        MatchBool (length bs.items == 0)
        (AreRootsCompatibleWith (renamings_of renamings.now) older.entry newer.entry)
        (AreRootsCompatibleWith (renamings_of renamings.now) older.entry newer.entry → ⊥)) }
    ensures every { IfOk result (λ bs.
        all ≡ true → AreAllBreaks (renamings_of renamings.now) older.entry newer.entry bs.items) }
    ensures first { IfOk result (λ bs. all ≡ false
        → All (IsBreakFrom (renamings_of renamings.now) older.entry newer.entry) bs.items) }
    ensures one { IfOk result (λ bs. all ≡ false → length bs.items ≤ 1) }
    ensures refusal { IfErr result (λ e. e.kind ≡ OutOfMemory) }
{
    if all {
        return all_breaks(alloc, older, newer, renamings);
    }
    let mut breaks = Vec::new(alloc);
    if let Some(broken) = first_break(alloc, older, newer, renamings)? {
        breaks.push(broken)?;
    }
    Ok(breaks)
}

/// A sentence, or a part of it.
type Told = std::result::Result<String, AllocError>;

/// A version of a schema: its nodes, and its age, `older` or `newer`, which sentences name.
#[derive(Clone, Copy)]
pub struct Version<'a> {
    pub nodes: &'a [NodeRecord],
    pub age: &'a str,
}

/// Returns the name of the field of an index. Returns `None` past the last field, and for an enum.
pub fn field_name(node: &NodeRecord, index: usize) -> Option<&str>
    ensures { option_copied result ≡ option_map (λ f. f.name)
        (slice_get (fields_of_kind (node_kind node.now.body)) index) }
{
    match fields_of(node).get(index) {
        Some(field) => Some(field.name.as_str()),
        None => None,
    }
}

/// Returns a name in one version. If the name is another in the version of this age, that name
/// follows. Each name is between two marks.
fn names_told(alloc: Global, mark: &str, older: &str, newer: &str, age: &str) -> Told
    ensures { IfOk result (λ s. string_bytes s
        ≡ names_text mark.now older.now newer.now age.now) }
{
    if older == newer {
        return format!(in alloc; "{mark}{older}{mark}");
    }
    format!(in alloc; "{mark}{older}{mark} (in the {age} schema {mark}{newer}{mark})")
}

/// Returns the name of a node.
fn node_name(node: Option<&NodeRecord>) -> &str
    ensures { result.now ≡ node_text (option_copied node.entry) }
{
    match node {
        Some(node) => node.display_name.as_str(),
        None => "a node that is missing",
    }
}

/// Returns the field of an index.
fn field_at(node: Option<&NodeRecord>, index: usize) -> Option<&FieldRecord>
    ensures { option_copied result ≡ field_in (option_copied node.entry) index }
{
    match node {
        Some(node) => fields_of(node).get(index),
        None => None,
    }
}

/// Returns the name of a field, or `?` if there is no field.
fn name_of(field: Option<&FieldRecord>) -> &str
    ensures { result.now ≡ name_text (option_copied field.entry) }
{
    match field {
        Some(field) => field.name.as_str(),
        None => "?",
    }
}

/// Returns the depth of a list of enums, given the depth of a list and its base. Returns `None` if
/// the base is another one.
fn enum_depth(count: u32, base: BaseType) -> Option<u32>
    ensures { result ≡ enum_depth count base }
{
    match base {
        BaseType::Enum(_) => Some(count),
        _ => None,
    }
}

/// Returns the depth of a slot that is a list of enums. Returns `None` if it is of another type, or
/// a group.
fn depth_of_enums(field: &FieldRecord) -> Option<u32>
    ensures { result ≡ depth_of_enums field.now.body }
{
    match &field.body {
        FieldBody::Slot { ty, .. } => enum_depth(ty.list_count, ty.base),
        FieldBody::Group { .. } => None,
    }
}

/// Tests whether both fields are of enums, in lists of one depth.
fn are_enums(older: Option<&FieldRecord>, newer: Option<&FieldRecord>) -> bool
    ensures { result ≡ are_enums (option_copied older.entry) (option_copied newer.entry) }
{
    let Some(older) = older else {
        return false;
    };
    let Some(newer) = newer else {
        return false;
    };
    match (depth_of_enums(older), depth_of_enums(newer)) {
        (Some(depth), Some(other)) => depth == other,
        _ => false,
    }
}

/// Returns the text of a rule that two fields break. `enums` says whether they are of enums.
fn how_told(rule: FieldRule, enums: bool) -> &'static str
    ensures { result.now ≡ how_text rule enums }
{
    match rule {
        FieldRule::Kind => "is a group in one schema and a slot in the other",
        FieldRule::Type if enums =>
            "has an enum that lacks an enumerant, or has them in another order,",
        FieldRule::Type => "has another type",
        FieldRule::Value => "doesn't have the same union value",
        FieldRule::Place => "lies elsewhere",
        FieldRule::Default => "has another default",
    }
}

/// Two nodes that break a rule. The second is in the version of this age. A missing node is `None`.
#[derive(Clone, Copy)]
struct Nodes<'a> {
    older: Option<&'a NodeRecord>,
    newer: Option<&'a NodeRecord>,
    age: &'a str,
}

/// Returns the names of the nodes.
fn nodes_told(alloc: Global, nodes: Nodes<'_>) -> Told
    ensures { IfOk result (λ s. string_bytes s ≡ nodes_text (pair_view nodes.entry)) }
{
    let (older, newer) = (node_name(nodes.older), node_name(nodes.newer));
    names_told(alloc, "", older, newer, nodes.age)
}

/// Returns the names of a field of each node.
fn fields_told(alloc: Global, nodes: Nodes<'_>, older: usize, newer: usize) -> Told
    ensures { IfOk result (λ s. string_bytes s ≡ fields_text (pair_view nodes.entry) older newer) }
{
    let older = name_of(field_at(nodes.older, older));
    let newer = name_of(field_at(nodes.newer, newer));
    names_told(alloc, "\"", older, newer, nodes.age)
}

/// Returns the sentence of a newer field that doesn't keep the older one.
fn field_told(alloc: Global, nodes: Nodes<'_>, older: usize, newer: usize, rule: FieldRule) -> Told
    ensures { IfOk result (λ s. string_bytes s
        ≡ field_text (pair_view nodes.entry) older newer rule) }
{
    let age = nodes.age;
    let fields = fields_told(alloc, nodes, older, newer)?;
    let enums = are_enums(field_at(nodes.older, older), field_at(nodes.newer, newer));
    let how = how_told(rule, enums);
    match rule {
        FieldRule::Kind => format!(in alloc; "field {fields} {how}"),
        _ => format!(in alloc; "field {fields} {how} in the {age} schema"),
    }
}

/// Returns the part of a sentence that names the older field that is due, if there is one.
fn due_told(alloc: Global, due: Option<&FieldRecord>) -> Told
    ensures { IfOk result (λ s. string_bytes s ≡ due_text (option_copied due.entry)) }
{
    match due {
        Some(field) => {
            let name = field.name.as_str();
            format!(in alloc; ", and stands before \"{name}\"")
        }
        None => Ok(String::new(alloc)),
    }
}

/// Returns the sentence of a newer field that has the union value of an older member, although
/// another older field is due.
fn taken_told(alloc: Global, nodes: Nodes<'_>, due: usize, newer: usize) -> Told
    ensures { IfOk result (λ s. string_bytes s
        ≡ taken_text (pair_view nodes.entry) due newer) }
{
    let age = nodes.age;
    let name = name_of(field_at(nodes.newer, newer));
    let due = due_told(alloc, field_at(nodes.older, due))?;
    format!(in alloc;
        "the field \"{name}\" of the {age} schema takes the union value of an older member{due}"
    )
}

/// Returns the sentence of an older field that is missing.
fn missing_told(alloc: Global, nodes: Nodes<'_>, older: usize) -> Told
    ensures { IfOk result (λ s. string_bytes s
        ≡ missing_text (pair_view nodes.entry) older) }
{
    let age = nodes.age;
    let name = name_of(field_at(nodes.older, older));
    format!(in alloc;
        "field \"{name}\" is missing in the {age} schema, or the fields have another order there"
    )
}

/// Returns the sentence of two nodes that break a rule.
fn rule_told(alloc: Global, nodes: Nodes<'_>, rule: Rule) -> Told
    ensures { IfOk result (λ s. string_bytes s ≡ rule_text (pair_view nodes.entry) rule) }
{
    let age = nodes.age;
    match rule {
        Rule::Roots => String::from_str(alloc, "one root is a group, the other is none"),
        Rule::Words => { format!(in alloc; "the data section has fewer words in the {age} schema") }
        Rule::Pointers => {
            format!(in alloc; "the pointer section has fewer pointers in the {age} schema")
        }
        Rule::Union => {
            format!(in alloc; "the union is gone or lies elsewhere in the {age} schema")
        }
        Rule::Missing { older } => missing_told(alloc, nodes, older),
        Rule::Taken { due, newer } => taken_told(alloc, nodes, due, newer),
        Rule::Field { older, newer, rule } => field_told(alloc, nodes, older, newer, rule),
    }
}

/// Returns the nodes of two ids in two versions.
fn nodes_of<'a>(older: Version<'a>, newer: Version<'a>, ids: (u64, u64)) -> Nodes<'a>
    ensures { pair_view result ≡ pair_of older.entry newer.entry ids.0 ids.1 }
{
    Nodes {
        older: node_of_id(older.nodes, ids.0),
        newer: node_of_id(newer.nodes, ids.1),
        age: newer.age,
    }
}

/// Returns the sentence of a field that has another interface in the newer version. Returns an
/// error if an allocation was refused.
pub fn interface_sentence(
    alloc: Global,
    older: Version<'_>,
    newer: Version<'_>,
    broken: InterfaceBreak,
) -> Told
    ensures { IfOk result (λ s. string_bytes s ≡ interface_text
        (pair_of older.entry newer.entry broken.older broken.newer)
        broken.older_field broken.newer_field) }
{
    let nodes = nodes_of(older, newer, (broken.older, broken.newer));
    let names = nodes_told(alloc, nodes)?;
    let fields = fields_told(alloc, nodes, broken.older_field, broken.newer_field)?;
    let age = nodes.age;
    format!(in alloc; "{names}: field {fields} has another interface in the {age} schema")
}

/// Returns the sentence of a break of the newer version's compatibility with the older, such as
/// `shop.capnp:Order: field "total" lies elsewhere in the newer schema`. If a name is another in
/// the newer version, the sentence has both names. Returns an error if an allocation was refused.
pub fn sentence(alloc: Global, older: Version<'_>, newer: Version<'_>, broken: Break) -> Told
    ensures { IfOk result (λ s. string_bytes s ≡ sentence_text
        (pair_of older.entry newer.entry broken.older broken.newer) broken.rule) }
{
    let nodes = nodes_of(older, newer, (broken.older, broken.newer));
    let names = nodes_told(alloc, nodes)?;
    let why = rule_told(alloc, nodes, broken.rule)?;
    format!(in alloc; "{names}: {why}")
}
