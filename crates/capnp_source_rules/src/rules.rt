//! Whether nodes keep the rules.

ghost use Rattle.std.specs.Prelude.{◌≡◌, ◌+◌, ◌*◌, ◌≤◌, ◌⊎◌, ◌++◌, All, IfSome, IsTrue};
ghost use Rattle.std.specs.List.{range_with_len};
ghost use Rattle.capnp_source_rules.specs.Rules.{FitsIn, HasPlace, HasDefault, AreFew, IsGoodField, number_of, member_numbers, IsGoodStruct, IsGoodEnum, IsGoodBody, KeepsRules};

use crate::sizes::{size_of_field, type_number, value_number};
use capnp_source_layout::sections::DataSize;
use capnp_source_layout::structs::FieldSize;
use capnp_source_nodes::nodes::{Annotation, Enumerant, Field, FieldBody, Node, NodeBody, Struct};

/// The most fields of a struct, and the most enumerants of an enum.
const MOST_MEMBERS: usize = 65535;

/// No list has this many annotations.
const MOST_ANNOTATIONS: usize = 1 << 29;

/// Stands for a field that is not in a union.
const NO_DISCRIMINANT: u16 = 65535;

/// Whether a field of a size and an offset is in sections of `words` words and `pointers` pointers.
fn fits_in(words: u16, pointers: u16, offset: u32, size: FieldSize) -> bool
    ensures { IsTrue result → FitsIn words pointers offset size }
{
    let bits = u64::from(words) * 64;
    let count = u64::from(offset) + 1;
    match size {
        FieldSize::Void => true,
        FieldSize::Data(size) => match size {
            DataSize::Bit => count <= bits,
            DataSize::Byte => count * 8 <= bits,
            DataSize::TwoBytes => count * 16 <= bits,
            DataSize::FourBytes => count * 32 <= bits,
            DataSize::EightBytes => count * 64 <= bits,
        },
        FieldSize::Pointer => offset < u32::from(pointers),
    }
}

/// Whether a field is in the sections of its struct.
fn has_place(words: u16, pointers: u16, body: &FieldBody) -> bool
    ensures { IsTrue result → HasPlace words pointers body.now }
{
    match body {
        FieldBody::Slot { offset, ty, .. } => {
            fits_in(words, pointers, *offset, size_of_field(ty))
        }
        FieldBody::Group(_) => true,
    }
}

/// Whether the default of a field is of the field's type.
fn has_default(body: &FieldBody) -> bool
    ensures { IsTrue result → HasDefault body.now }
{
    match body {
        FieldBody::Slot { ty, default, .. } => type_number(ty) == value_number(default),
        FieldBody::Group(_) => true,
    }
}

/// Whether a list has few annotations.
fn are_few(annotations: &[Annotation]) -> bool
    ensures { IsTrue result → AreFew annotations.now }
{
    annotations.len() < MOST_ANNOTATIONS
}

/// Whether a field keeps the rules.
fn is_good_field(words: u16, pointers: u16, field: &Field) -> bool
    ensures { IsTrue result → IsGoodField words pointers field.now }
{
    has_place(words, pointers, &field.body)
        && has_default(&field.body)
        && are_few(&field.annotations)
}

/// Whether fields keep the rules.
fn are_good_fields(words: u16, pointers: u16, fields: &[Field]) -> bool
    ensures { IsTrue result → All (IsGoodField words pointers) fields.now }
{
    for field in fields {
        if !is_good_field(words, pointers, field) {
            return false;
        }
    }
    true
}

/// Returns the next number in a union after a field; `None` if the field has another number.
fn next_after(field: &Field, next: u16) -> Option<u16>
    ensures { IfSome result (λ after. range_with_len 0 after
        ≡ range_with_len 0 next ++ number_of field.now) }
{
    if field.discriminant == NO_DISCRIMINANT {
        return Some(next);
    }
    if field.discriminant != next {
        return None;
    }
    Some(next + 1)
}

/// Whether the members of a union are numbered in their order.
fn are_numbered(fields: &[Field], count: u16) -> bool
    ensures { IsTrue result → member_numbers fields.now ≡ range_with_len 0 count }
{
    let mut next = 0;
    let mut left = fields;
    while let [field, others @ ..] = left {
        let Some(after) = next_after(field, next) else {
            return false;
        };
        next = after;
        left = others;
    }
    next == count
}

/// Whether the discriminant of a struct, if there is one, is in the data section.
fn has_discriminant(count: u16, offset: u32, words: u16) -> bool
    ensures { IsTrue result → (count ≡ 0) ⊎ ((offset + 1) * 16 ≤ words * 64) }
{
    if count == 0 {
        return true;
    }
    (u64::from(offset) + 1) * 16 <= u64::from(words) * 64
}

/// Whether a struct keeps the rules.
fn is_good_struct(body: &Struct) -> bool
    ensures { IsTrue result → IsGoodStruct body.now }
{
    body.fields.len() <= MOST_MEMBERS
        && are_good_fields(body.data_words, body.pointers, &body.fields)
        && are_numbered(&body.fields, body.discriminant_count)
        && has_discriminant(
            body.discriminant_count,
            body.discriminant_offset,
            body.data_words,
        )
}

/// Whether enumerants have few annotations.
fn have_few(enumerants: &[Enumerant]) -> bool
    ensures { IsTrue result → All (λ e. AreFew e.annotations.items) enumerants.now }
{
    for enumerant in enumerants {
        if !are_few(&enumerant.annotations) {
            return false;
        }
    }
    true
}

/// Whether an enum keeps the rules.
fn is_good_enum(enumerants: &[Enumerant]) -> bool
    ensures { IsTrue result → IsGoodEnum enumerants.now }
{
    enumerants.len() <= MOST_MEMBERS && have_few(enumerants)
}

/// Whether the body of a node keeps the rules.
fn is_good_body(body: &NodeBody) -> bool
    ensures { IsTrue result → IsGoodBody body.now }
{
    match body {
        NodeBody::Struct(body) => is_good_struct(body),
        NodeBody::Enum(enumerants) => is_good_enum(enumerants),
        NodeBody::Constant { ty, value } => type_number(ty) == value_number(value),
        NodeBody::File => true,
        NodeBody::Interface(_) => true,
        NodeBody::Annotation { .. } => true,
    }
}

/// Whether a node keeps the rules.
fn keeps_rules(node: &Node) -> bool
    ensures { IsTrue result → KeepsRules node.now }
{
    is_good_body(&node.body) && are_few(&node.annotations)
}

/// Whether nodes keep the rules.
pub fn keep_rules(nodes: &[Node]) -> bool
    ensures { IsTrue result → All KeepsRules nodes.now }
{
    for node in nodes {
        if !keeps_rules(node) {
            return false;
        }
    }
    true
}
