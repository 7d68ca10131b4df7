//! The nodes of structs and their groups.

use crate::context::{Context, length_of};
use crate::drafts::{DefaultJob, Drafts, MarkJob, Spot, Subject};
use capnp_source_ids::ids::group_id;
use capnp_source_names::problems::{Problems, Stop};
use capnp_source_nodes::nodes::{Field, FieldBody, Node, NodeBody, Struct};
use capnp_source_nodes::types::Type;
use capnp_source_nodes::values::Value;
use capnp_source_structs::members::{Member, Members, What};
use capnp_source_structs::offsets::{Offsets, offsets_of};
use capnp_source_structs::ordinals::{ordinal_of, short};
use capnp_source_structs::shapes::{NO_DISCRIMINANT, Shape, shape_of};
use capnp_source_syntax::tree::Span;
use capnp_source_types::copies::copy_type;
use capnp_source_types::paths::type_of;
use capnp_source_types::resolver::Place;
use std::alloc::{AllocError, Global};

/// The number of the list encoding in which structs are whole.
const INLINE_COMPOSITE: u16 = 7;

/// A struct whose members are ordered and laid out.
#[derive(Drop)]
pub(crate) struct Planned<'p, 'a> {
    pub(crate) members: &'p Members<'a>,
    pub(crate) shape: Shape,
    pub(crate) types: Vec<Type>,
    pub(crate) offsets: Offsets,
    data_words: u16,
    pointers: u16,
}

/// The node of a struct or a group before its fields.
#[derive(Drop)]
pub(crate) struct Head {
    pub(crate) node: Node,
    /// Whether its fields are those of a method's parameters or results.
    pub(crate) are_parameters: bool,
}

/// Returns the type of each member; `Void` of one that is not a field, or whose type is wrong.
fn types_of(
    context: &Context,
    members: &Members,
    place: Place,
    problems: &mut Problems,
) -> Result<Vec<Type>, Stop> {
    let mut types = Vec::new(context.alloc);
    for member in &members.members {
        match member.what {
            What::Field { ty, .. } => {
                let ty = problems.kept(type_of(ty, &context.resolver, place))?;
                types.push(ty.unwrap_or(Type::Void))?;
            }
            _ => types.push(Type::Void)?,
        }
    }
    Ok(types)
}

/// Orders and lays out the members of a struct. `Wrong` if it can't be laid out.
pub(crate) fn plan<'p, 'a>(
    context: &Context,
    members: &'p Members<'a>,
    place: Place,
    problems: &mut Problems,
) -> Result<Planned<'p, 'a>, Stop> {
    let alloc = context.alloc;
    let shape = shape_of(alloc, context.file, members, problems)?;
    let types = types_of(context, members, place, problems)?;
    let offsets = offsets_of(alloc, context.file, members, &shape, &types)?;
    let data_words = u16::try_from(offsets.layout.data_words);
    let pointers = u16::try_from(offsets.layout.pointers);
    let (Ok(data_words), Ok(pointers)) = (data_words, pointers) else {
        let span = Span { start: 0, end: 0 };
        return Err(context.wrong(span, "a struct has more than 65535 words (take fields out)"));
    };
    Ok(Planned {
        members,
        shape,
        types,
        offsets,
        data_words,
        pointers,
    })
}

/// Returns the field for a member. Its default comes later.
fn field_of(
    planned: &Planned,
    index: usize,
    ids: &[u64],
    alloc: Global,
) -> Result<Option<Field>, AllocError> {
    let Some(member) = planned.members.members.get(index) else {
        return Ok(None);
    };
    let body = match member.what {
        What::Field { default, .. } => FieldBody::Slot {
            offset: planned.offsets.offsets.get(index).copied().unwrap_or(0),
            ty: match planned.types.get(index) {
                Some(ty) => copy_type(ty, alloc)?,
                None => Type::Void,
            },
            default: Value::Void,
            has_default: default.is_some(),
        },
        What::Group(group) => FieldBody::Group(ids.get(group).copied().unwrap_or(0)),
        What::Union { group, .. } => FieldBody::Group(ids.get(group).copied().unwrap_or(0)),
    };
    let discriminant = planned.shape.discriminants.get(index).copied();
    Ok(Some(Field {
        name: String::from_str(alloc, member.name)?,
        code_order: member.code_order,
        annotations: Vec::new(alloc),
        discriminant: discriminant.unwrap_or(NO_DISCRIMINANT),
        body,
        ordinal: member.ordinal.map(|ordinal| ordinal_of(&ordinal)),
    }))
}

/// Returns where the discriminant of a group's union is.
fn discriminant_offset(planned: &Planned, group: usize) -> u32 {
    let Some(group) = planned.members.groups.get(group) else {
        return 0;
    };
    let Some(scope) = group.union else {
        return 0;
    };
    match planned.offsets.layout.discriminants.get(scope) {
        Some(Some(offset)) => *offset,
        _ => 0,
    }
}

/// Returns the struct of a group, or the whole one.
fn struct_of(
    planned: &Planned,
    group: usize,
    ids: &[u64],
    alloc: Global,
) -> Result<Struct, AllocError> {
    let mut fields = Vec::new(alloc);
    if let Some(list) = planned.shape.lists.get(group) {
        for index in list {
            if let Some(field) = field_of(planned, *index, ids, alloc)? {
                fields.push(field)?;
            }
        }
    }
    Ok(Struct {
        data_words: planned.data_words,
        pointers: planned.pointers,
        list_encoding: INLINE_COMPOSITE,
        is_group: group != 0,
        discriminant_count: planned.shape.counts.get(group).copied().unwrap_or(0),
        discriminant_offset: discriminant_offset(planned, group),
        fields,
    })
}

/// Returns the member that a group is.
fn member_of<'p, 'a>(planned: &Planned<'p, 'a>, group: usize) -> Option<&'p Member<'a>> {
    let members = planned.members;
    let index = members.groups.get(group)?.member?;
    members.members.get(index)
}

/// Returns the place of a group among the fields of the struct or group around.
fn place_of_group(planned: &Planned, group: usize) -> Option<usize> {
    let index = planned.members.groups.get(group)?.member?;
    let around = planned.members.members.get(index)?.group;
    let list = planned.shape.lists.get(around)?;
    list.iter().position(|member| *member == index)
}

/// Returns the ids of the struct with an id and of its groups. A group comes after the one around.
fn ids_of(planned: &Planned, id: u64, alloc: Global) -> Result<Vec<u64>, AllocError> {
    let mut ids = Vec::new(alloc);
    for group in 0..planned.members.groups.len() {
        let around = match member_of(planned, group) {
            Some(member) => ids.get(member.group).copied(),
            None => None,
        };
        match (around, place_of_group(planned, group)) {
            (Some(around), Some(place)) => ids.push(group_id(around, short(place)))?,
            _ => ids.push(id)?,
        }
    }
    Ok(ids)
}

/// Returns the node of a group. `nodes` has the index of the node of each group before it.
fn group_node(
    planned: &Planned,
    group: usize,
    ids: &[u64],
    around: &Node,
    alloc: Global,
) -> Result<Node, AllocError> {
    let name = match member_of(planned, group) {
        Some(member) => member.name,
        None => "",
    };
    let outer = around.display_name.as_str();
    let display_name = format!(in alloc; "{outer}.{name}")?;
    let prefix = display_name.len().saturating_sub(name.len());
    Ok(Node {
        id: ids.get(group).copied().unwrap_or(0),
        display_name,
        prefix_length: length_of(prefix),
        scope: around.id,
        parameters: Vec::new(alloc),
        is_generic: around.is_generic,
        nested: Vec::new(alloc),
        annotations: Vec::new(alloc),
        body: NodeBody::Struct(struct_of(planned, group, ids, alloc)?),
    })
}

/// Returns what a member is as the subject of annotations.
fn subject_of(member: &Member, are_parameters: bool) -> Subject {
    match member.what {
        What::Field { .. } if are_parameters => Subject::Parameter,
        What::Field { .. } => Subject::Field,
        What::Group(_) => Subject::Group,
        What::Union { .. } => Subject::Union,
    }
}

/// Adds what is left to do for the fields of a group.
fn add_jobs<'a>(
    drafts: &mut Drafts<'a>,
    planned: &Planned<'_, 'a>,
    group: usize,
    node: usize,
    entry: usize,
    are_parameters: bool,
) -> Result<(), Stop> {
    let Some(list) = planned.shape.lists.get(group) else {
        return Ok(());
    };
    for (field, index) in list.iter().enumerate() {
        let Some(member) = planned.members.members.get(*index) else {
            continue;
        };
        if let What::Field {
            default: Some(expression),
            ..
        } = member.what
        {
            drafts.defaults.push(DefaultJob {
                node,
                field,
                entry,
                expression,
                is_parameter: are_parameters,
            })?;
        }
        drafts.mark(MarkJob {
            node,
            spot: Spot::Part(field),
            entry,
            subject: subject_of(member, are_parameters),
            applications: member.annotations,
        })?;
    }
    Ok(())
}

/// Adds the node of a struct, and those of its groups.
pub(crate) fn add_struct<'a>(
    drafts: &mut Drafts<'a>,
    context: &Context<'_, 'a>,
    planned: &Planned<'_, 'a>,
    head: Head,
) -> Result<usize, Stop> {
    let alloc = context.alloc;
    let ids = ids_of(planned, head.node.id, alloc)?;
    let Head {
        mut node,
        are_parameters,
    } = head;
    node.body = NodeBody::Struct(struct_of(planned, 0, &ids, alloc)?);
    let first = drafts.add(node, context.entry)?;
    let mut indices = Vec::new(alloc);
    indices.push(first)?;
    add_jobs(drafts, planned, 0, first, context.entry, are_parameters)?;
    for group in 1..planned.members.groups.len() {
        let outer = match member_of(planned, group) {
            Some(member) => indices.get(member.group).copied().unwrap_or(first),
            None => first,
        };
        let node = match drafts.nodes.get(outer) {
            Some(around) => group_node(planned, group, &ids, around, alloc)?,
            None => return Err(Stop::Known),
        };
        let index = drafts.add(node, context.entry)?;
        indices.push(index)?;
        add_jobs(drafts, planned, group, index, context.entry, are_parameters)?;
    }
    Ok(first)
}
