//! Rules of one node: the numbers of its names and annotations, and the distinctness of its names.

ghost use Rattle.std.specs.Prelude.{◌≡◌, ◌^◌, nat_lt, not, map, length, IfOk};
ghost use Rattle.std.specs.List.{list_all};
ghost use Rattle.capnp_model.specs.Accepted.{is_short, are_distinct, is_empty_name, has_good_names};
ghost use Rattle.capnp_records.specs.NodeViews.{annotation_of, field_of, enumerant_of, node_of};

use crate::node::{AnnotationRecord, EnumerantRecord, FieldRecord, NodeBody, NodeRecord};
use crate::parts::names_of;
use std::alloc::{AllocError, Global};
use std::collections::HashSet;

// ---- 2. At most 65535 fields or enumerants, at most 2^29 - 1 annotations in each list.

fn are_few(annotations: &[AnnotationRecord]) -> bool
    ensures { result ≡ nat_lt (length (map annotation_of annotations.now)) (2 ^ 29) }
{
    annotations.len() < 0x2000_0000
}

fn have_few(fields: &[FieldRecord]) -> bool
    ensures { result ≡ list_all (λ l. nat_lt (length l) (2 ^ 29)) (map (λ f. f.annotations)
        (map field_of fields.now)) }
{
    fields.iter().all(|field| are_few(&field.annotations))
}

fn have_few_each(enumerants: &[EnumerantRecord]) -> bool
    ensures { result ≡ list_all (λ l. nat_lt (length l) (2 ^ 29)) (map (λ e. e.annotations)
        (map enumerant_of enumerants.now)) }
{
    enumerants
        .iter()
        .all(|enumerant| are_few(&enumerant.annotations))
}

pub(crate) fn is_short(node: &NodeRecord) -> bool
    ensures { result ≡ is_short (node_of node.now) }
{
    match &node.body {
        NodeBody::Struct(record) => {
            record.fields.len() <= 65535 && are_few(&node.annotations) && have_few(&record.fields)
        }
        NodeBody::Enum(enumerants) => {
            enumerants.len() <= 65535 && are_few(&node.annotations) && have_few_each(enumerants)
        }
    }
}

// ---- 3. Names are distinct and not empty.

fn are_distinct(alloc: Global, names: &[&str]) -> Result<bool, AllocError>
    ensures { IfOk result (λ b. b ≡ are_distinct (map (λ s. s.now) names.now)) }
{
    let mut seen: HashSet<&str> = HashSet::with_capacity(alloc, names.len())?;
    for name in names {
        if !seen.insert(*name)? {
            return Ok(false);
        }
    }
    Ok(true)
}

fn are_named(names: &[&str]) -> bool
    ensures { result ≡ list_all (λ m. not (is_empty_name m)) (map (λ s. s.now) names.now) }
{
    let mut rest = names;
    while let [first, others @ ..] = rest {
        if first.is_empty() {
            return false;
        }
        rest = others;
    }
    true
}

pub(crate) fn has_good_names(alloc: Global, node: &NodeRecord) -> Result<bool, AllocError>
    ensures { IfOk result (λ b. b ≡ has_good_names (node_of node.now)) }
{
    let names = names_of(alloc, node)?;
    Ok(are_distinct(alloc, &names)? && are_named(&names))
}
