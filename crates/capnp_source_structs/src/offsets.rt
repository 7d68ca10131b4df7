//! Where the fields of a struct are.

use crate::members::{Members, What};
use crate::shapes::Shape;
use capnp_source_layout::structs::{FieldSize, Layout, LayoutFault, Step, lay_out};
use capnp_source_names::problems::{Stop, wrong};
use capnp_source_nodes::types::Type;
use capnp_source_rules::sizes::size_of_field;
use capnp_source_syntax::tree::Span;
use std::alloc::{AllocError, Global};

/// Returns the steps of a layout, for members in the order of their ordinals. `types` has the type of
/// each member, and any type for one that is not a field.
fn steps_of(
    alloc: Global,
    members: &Members,
    shape: &Shape,
    types: &[Type],
) -> Result<Vec<Step>, AllocError> {
    let mut steps = Vec::new(alloc);
    for index in &shape.order {
        let Some(member) = members.members.get(*index) else {
            continue;
        };
        match member.what {
            What::Field { scope, .. } => {
                let size = match types.get(*index) {
                    Some(ty) => size_of_field(ty),
                    None => FieldSize::Void,
                };
                steps.push(Step::Field { scope, size })?;
            }
            What::Union { scope, .. } => steps.push(Step::Discriminant { union: scope })?,
            What::Group(_) => {}
        }
    }
    Ok(steps)
}

/// Where the members of a struct are.
#[derive(Drop)]
pub struct Offsets {
    pub layout: Layout,
    /// The offset of each member, by its index.
    pub offsets: Vec<u32>,
}

/// Returns where the ordinal of a step is written.
fn span_of_step(members: &Members, shape: &Shape, step: usize) -> Span {
    let none = Span { start: 0, end: 0 };
    let Some(index) = shape.order.get(step) else {
        return none;
    };
    match members.members.get(*index) {
        Some(member) => match member.ordinal {
            Some(ordinal) => ordinal.span,
            None => member.span,
        },
        None => none,
    }
}

/// Returns what a fault of a layout means for the source.
fn layout_problem(
    alloc: Global,
    file: usize,
    members: &Members,
    shape: &Shape,
    fault: LayoutFault,
) -> Stop {
    let (span, text) = match fault {
        LayoutFault::Discriminant { step } => (
            span_of_step(members, shape, step),
            "the union's ordinal follows two of its members' (write a lower one, or none)",
        ),
        LayoutFault::TooLarge => (
            Span { start: 0, end: 0 },
            "a struct is too large (take fields out)",
        ),
        LayoutFault::NoScope { .. } | LayoutFault::NotApart => (
            Span { start: 0, end: 0 },
            "a union is not supported (declare it otherwise)",
        ),
        LayoutFault::Memory => return Stop::Memory,
    };
    match String::from_str(alloc, text) {
        Ok(text) => wrong(file, span, text),
        Err(_) => Stop::Memory,
    }
}

/// Returns where the members of a struct are, by their types.
pub fn offsets_of(
    alloc: Global,
    file: usize,
    members: &Members,
    shape: &Shape,
    types: &[Type],
) -> Result<Offsets, Stop> {
    let steps = steps_of(alloc, members, shape, types)?;
    let layout = match lay_out(alloc, &members.scopes, &steps) {
        Ok(layout) => layout,
        Err(fault) => return Err(layout_problem(alloc, file, members, shape, fault)),
    };
    let mut offsets = Vec::new(alloc);
    for _ in &members.members {
        offsets.push(0)?;
    }
    for (index, offset) in shape.order.iter().zip(layout.offsets.iter()) {
        if let Some(slot) = offsets.get_mut(*index) {
            *slot = *offset;
        }
    }
    Ok(Offsets { layout, offsets })
}
