//! Large numbers of node records.

use capnp_records::node::{
    BaseType, EnumerantRecord, FieldBody, FieldRecord, NO_DISCRIMINANT, NodeBody, NodeRecord,
    StructRecord, TypeRecord, Value,
};
use std::alloc::{AllocError, Global};

fn of(base: BaseType) -> TypeRecord {
    TypeRecord {
        list_count: 0,
        base,
    }
}

fn list_of(base: BaseType) -> TypeRecord {
    TypeRecord {
        list_count: 1,
        base,
    }
}

/// Makes a field in a slot, which isn't a union member.
fn slot(
    alloc: Global,
    name: &str,
    offset: u32,
    ty: TypeRecord,
    default: Option<Value>,
) -> Result<FieldRecord, AllocError> {
    Ok(FieldRecord {
        name: String::from_str(alloc, name)?,
        discriminant_value: NO_DISCRIMINANT,
        annotations: Vec::new(alloc),
        body: FieldBody::Slot {
            offset,
            ty,
            default,
        },
    })
}

/// Makes a UInt16 field that is a union member.
fn member(
    alloc: Global,
    name: &str,
    offset: u32,
    discriminant_value: u16,
) -> Result<FieldRecord, AllocError> {
    Ok(FieldRecord {
        name: String::from_str(alloc, name)?,
        discriminant_value,
        annotations: Vec::new(alloc),
        body: FieldBody::Slot {
            offset,
            ty: of(BaseType::UInt16),
            default: Some(Value::UInt16(0)),
        },
    })
}

fn group(alloc: Global, name: &str, node: u64) -> Result<FieldRecord, AllocError> {
    Ok(FieldRecord {
        name: String::from_str(alloc, name)?,
        discriminant_value: NO_DISCRIMINANT,
        annotations: Vec::new(alloc),
        body: FieldBody::Group { node },
    })
}

fn node(alloc: Global, id: u64, body: NodeBody) -> Result<NodeRecord, AllocError> {
    Ok(NodeRecord {
        id,
        display_name: format!(in alloc; "node{id}")?,
        annotations: Vec::new(alloc),
        body,
    })
}

/// Makes a struct of twelve fields: numbers, a text and data, a list of the next struct, an enum, a
/// union of three and a group.
fn record(
    alloc: Global,
    id: u64,
    next: u64,
    sort: u64,
    inner: u64,
) -> Result<NodeRecord, AllocError> {
    let words = [0, 0, 0, 0, 1, 0, 0, 0, 7, 0, 0, 0, 0, 0, 0, 0];
    let seven = Some(Value::Struct(words.to_vec(alloc)?));
    let fields = vec![in alloc;
        slot(
            alloc,
            "count",
            0,
            of(BaseType::UInt64),
            Some(Value::UInt64(0))
        )?,
        slot(
            alloc,
            "size",
            2,
            of(BaseType::UInt32),
            Some(Value::UInt32(7))
        )?,
        slot(alloc, "name", 0, of(BaseType::Text), None)?,
        slot(alloc, "bytes", 1, of(BaseType::Data), None)?,
        slot(alloc, "items", 2, list_of(BaseType::Struct(next)), None)?,
        slot(alloc, "first", 3, of(BaseType::Struct(next)), seven)?,
        slot(
            alloc,
            "sort",
            6,
            of(BaseType::Enum(sort)),
            Some(Value::Enum(1))
        )?,
        slot(alloc, "any", 4, of(BaseType::AnyPointer), None)?,
        member(alloc, "one", 8, 0)?,
        member(alloc, "two", 8, 1)?,
        member(alloc, "three", 9, 2)?,
        group(alloc, "inner", inner)?,
    ]?;
    node(
        alloc,
        id,
        NodeBody::Struct(StructRecord {
            data_word_count: 4,
            pointer_count: 6,
            is_group: false,
            discriminant_count: 3,
            discriminant_offset: 7,
            fields,
        }),
    )
}

/// Makes a group of a number and a text.
fn small_group(alloc: Global, id: u64) -> Result<NodeRecord, AllocError> {
    let fields = vec![in alloc;
        slot(
            alloc,
            "width",
            6,
            of(BaseType::UInt32),
            Some(Value::UInt32(0))
        )?,
        slot(alloc, "note", 5, of(BaseType::Text), None)?,
    ]?;
    node(
        alloc,
        id,
        NodeBody::Struct(StructRecord {
            data_word_count: 4,
            pointer_count: 6,
            is_group: true,
            discriminant_count: 0,
            discriminant_offset: 0,
            fields,
        }),
    )
}

/// Makes an enum of eight enumerants.
fn colours(alloc: Global, id: u64) -> Result<NodeRecord, AllocError> {
    let mut enumerants = Vec::new(alloc);
    for name in [
        "red", "green", "blue", "white", "black", "grey", "brown", "pink",
    ] {
        enumerants.push(EnumerantRecord {
            name: String::from_str(alloc, name)?,
            annotations: Vec::new(alloc),
        })?;
    }
    node(alloc, id, NodeBody::Enum(enumerants))
}

/// Makes at least n nodes, in threes: a struct, its group, and an enum.
pub fn nodes(alloc: Global, count: u32) -> Result<Vec<NodeRecord>, AllocError> {
    let threes = u64::from(count / 3) + 1;
    let mut nodes = Vec::new(alloc);
    for i in 0..threes {
        let next = (i * 7 + 1) % threes;
        nodes.push(record(alloc, 3 * i, 3 * next, 3 * i + 2, 3 * i + 1)?)?;
        nodes.push(small_group(alloc, 3 * i + 1)?)?;
        nodes.push(colours(alloc, 3 * i + 2)?)?;
    }
    Ok(nodes)
}

/// Makes one struct of n bytes, each a field.
pub fn one_struct(alloc: Global, count: u32) -> Result<Vec<NodeRecord>, AllocError> {
    let mut fields = Vec::new(alloc);
    for i in 0..count {
        let name = format!(in alloc; "field{i}")?;
        fields.push(slot(
            alloc,
            name.as_str(),
            i,
            of(BaseType::UInt8),
            Some(Value::UInt8(0)),
        )?)?;
    }
    let body = NodeBody::Struct(StructRecord {
        data_word_count: 8_192,
        pointer_count: 0,
        is_group: false,
        discriminant_count: 0,
        discriminant_offset: 0,
        fields,
    });
    let mut nodes = Vec::new(alloc);
    nodes.push(node(alloc, 1, body)?)?;
    Ok(nodes)
}

/// Makes n structs, each but the first a group in the previous one.
pub fn chain(alloc: Global, count: u32) -> Result<Vec<NodeRecord>, AllocError> {
    let mut nodes = Vec::new(alloc);
    for i in 0..count {
        let id = u64::from(i);
        let mut fields = Vec::new(alloc);
        fields.push(slot(
            alloc,
            "byte",
            i % 8_192,
            of(BaseType::UInt8),
            Some(Value::UInt8(0)),
        )?)?;
        if i + 1 < count {
            fields.push(group(alloc, "inner", id + 1)?)?;
        }
        nodes.push(node(
            alloc,
            id,
            NodeBody::Struct(StructRecord {
                data_word_count: 1_024,
                pointer_count: 0,
                is_group: i > 0,
                discriminant_count: 0,
                discriminant_offset: 0,
                fields,
            }),
        )?)?;
    }
    Ok(nodes)
}
