//! Rules that schema files can't break: defaults of other sorts, annotations, and too many fields.
use crate::fixtures::{many_fields_text, nodes_of};
use capnp_records::fault::SchemaFault;
use capnp_records::node::{
    AnnotationRecord, BaseType, FieldBody, NodeBody, NodeRecord, TypeRecord, Value,
};
use capnp_records::set::SchemaSet;
use std::alloc::{AllocError, Global};
use std::test::Fail;

/// S (1) of a group g (3) of x UInt16, and E (2) of one name.
const PLACES: &str = r#"[
    {"id":1,"name":"S","data":1,"pointers":1,"fields":[{"name":"g","group":3}]},
    {"id":3,"name":"g","data":1,"pointers":1,"group":true,"fields":[
        {"name":"x","type":"UInt16","offset":0}]},
    {"id":2,"name":"E","enumerants":["e"]}]"#;

/// E (2) of one name, and S (1) of a field f.
const SLOT: &str = r#"[
    {"id":2,"name":"E","enumerants":["e"]},
    {"id":1,"name":"S","data":1,"pointers":1,"fields":[
        {"name":"f","type":"UInt16","offset":0}]}]"#;

fn rule(rule: u32, node: usize) -> Option<SchemaFault> {
    Some(SchemaFault::Rule { rule, node })
}

/// Returns a value of each sort, by number; the bytes of lists and structs are a null root.
fn value(alloc: Global, sort: usize) -> Result<Option<Value>, AllocError> {
    let null: [u8; 8] = [0; 8];
    Ok(Some(match sort {
        0 => Value::Void,
        1 => Value::Bool(true),
        2 => Value::Int8(-1),
        3 => Value::Int16(-1),
        4 => Value::Int32(-1),
        5 => Value::Int64(-1),
        6 => Value::UInt8(1),
        7 => Value::UInt16(1),
        8 => Value::UInt32(1),
        9 => Value::UInt64(1),
        10 => Value::Enum(5),
        11 => Value::Text(b"hi".to_vec(alloc)?),
        12 => Value::Data(b"hi".to_vec(alloc)?),
        13 => Value::Struct(null.to_vec(alloc)?),
        14 => Value::List(null.to_vec(alloc)?),
        15 => Value::AnyPointer,
        16 => Value::Interface,
        _ => return Ok(None),
    }))
}

/// The types of those sorts.
const TYPES: [(u32, BaseType); 17] = [
    (0, BaseType::Void),
    (0, BaseType::Bool),
    (0, BaseType::Int8),
    (0, BaseType::Int16),
    (0, BaseType::Int32),
    (0, BaseType::Int64),
    (0, BaseType::UInt8),
    (0, BaseType::UInt16),
    (0, BaseType::UInt32),
    (0, BaseType::UInt64),
    (0, BaseType::Enum(2)),
    (0, BaseType::Text),
    (0, BaseType::Data),
    (0, BaseType::Struct(1)),
    (2, BaseType::UInt8),
    (0, BaseType::AnyPointer),
    (0, BaseType::Capability),
];

/// Returns the fault if the field f has a type and a default.
fn fault_of_slot(
    alloc: Global,
    ty: TypeRecord,
    default: Option<Value>,
) -> Result<Option<SchemaFault>, Fail> {
    let body = FieldBody::Slot {
        offset: 0,
        ty,
        default,
    };
    let mut nodes = nodes_of(alloc, SLOT)?;
    if let [_, node] = nodes.as_mut_slice() {
        if let NodeBody::Struct(record) = &mut node.body {
            if let [field] = record.fields.as_mut_slice() {
                field.body = body;
            }
        }
    }
    Ok(SchemaSet::new(nodes).err())
}

#[test]
fn defaults_of_each_sort(rt: HostRuntime) -> Result<(), Fail> {
    let alloc = rt.alloc();
    let mut place: usize = 0;
    for (list_count, base) in TYPES {
        for sort in 0usize..18 {
            let ty = TypeRecord { list_count, base };
            let is_right = if sort == 17 {
                place >= 11
            } else {
                place == sort && place < 15
            };
            let fault = fault_of_slot(alloc, ty, value(alloc, sort)?)?;
            let expected = if is_right { None } else { rule(10, 1) };
            assert!(rt;
                fault == expected,
                "a default of sort {sort} under type {place}"
            );
        }
        place = place.saturating_add(1);
    }
    Ok(())
}

/// Notes a struct or its field, a group or its field, an enum or its enumerant.
fn annotate(nodes: &mut [NodeRecord], place: usize, note: AnnotationRecord) -> Result<(), Fail> {
    let index = place / 2;
    if index >= nodes.len() {
        return Err("a place".into());
    }
    let node = &mut nodes[index];
    if place % 2 == 0 {
        node.annotations.push(note)?;
        return Ok(());
    }
    match &mut node.body {
        NodeBody::Struct(record) => {
            let field = record.fields.first_mut().ok_or("a field")?;
            field.annotations.push(note)?;
        }
        NodeBody::Enum(names) => {
            let name = names.first_mut().ok_or("a name")?;
            name.annotations.push(note)?;
        }
    }
    Ok(())
}

/// Returns the fault for an annotation at a place.
fn fault_at(
    alloc: Global,
    place: usize,
    ty: TypeRecord,
    value: Value,
) -> Result<Option<SchemaFault>, Fail> {
    let mut nodes = nodes_of(alloc, PLACES)?;
    annotate(
        nodes.as_mut_slice(),
        place,
        AnnotationRecord { id: 90, ty, value },
    )?;
    Ok(SchemaSet::new(nodes).err())
}

#[test]
fn types_of_annotations(rt: HostRuntime) -> Result<(), Fail> {
    let alloc = rt.alloc();
    for (list_count, base, sort, broken) in [
        (0, BaseType::UInt16, 7, 0),
        (0, BaseType::UInt16, 11, 0),
        (0, BaseType::Capability, 16, 0),
        (0, BaseType::Struct(1), 13, 0),
        (0, BaseType::Enum(2), 10, 0),
        (3, BaseType::Enum(2), 14, 0),
        (0, BaseType::Float32, 0, 4),
        (2, BaseType::Float64, 14, 4),
        (0, BaseType::Struct(3), 13, 5),
        (0, BaseType::Struct(2), 13, 5),
        (1, BaseType::Struct(9), 14, 5),
        (0, BaseType::Enum(1), 10, 5),
        (1, BaseType::Enum(9), 14, 5),
    ] {
        let ty = TypeRecord { list_count, base };
        for place in 0usize..6 {
            let expected = if broken == 0 {
                None
            } else {
                rule(broken, place / 2)
            };
            let noted = value(alloc, sort)?.ok_or("a value")?;
            let fault = fault_at(alloc, place, ty, noted)?;
            assert!(rt; fault == expected, "{list_count} {base:?} at {place}");
        }
    }
    Ok(())
}

/// Returns the words of n nested structs, followed by a last word.
fn deep(alloc: Global, depth: u32, last: u64) -> Result<Vec<u8>, AllocError> {
    let holder: u64 = 0x0001_0000_0000_0000;
    let mut bytes = Vec::new(alloc);
    for _ in 0..depth {
        bytes.extend_from_slice(&holder.to_le_bytes())?;
    }
    bytes.extend_from_slice(&last.to_le_bytes())?;
    Ok(bytes)
}

#[test]
fn annotations_are_canonical(rt: HostRuntime) -> Result<(), Fail> {
    let alloc = rt.alloc();
    let structs = TypeRecord {
        list_count: 0,
        base: BaseType::Struct(1),
    };
    let empty: u64 = 0xffff_fffc;
    for (around, last, is_right) in [
        (0, empty, true),
        (1, empty, true),
        (63, empty, true),
        (64, empty, false),
        (65, empty, false),
        (1, 3, false),
        (1, 0, false),
        (1, 2, false),
    ] {
        let noted = Value::Struct(deep(alloc, around, last)?);
        let fault = fault_at(alloc, 5, structs, noted)?;
        let expected = if is_right { None } else { rule(12, 2) };
        assert!(rt; fault == expected, "{around} around {last}");
    }
    let lists = TypeRecord {
        list_count: 1,
        base: BaseType::Enum(2),
    };
    let no_words = Value::List(vec![in alloc; 0, 0, 0]?);
    let fault = fault_at(alloc, 5, lists, no_words)?;
    assert!(rt; fault == rule(12, 2));
    Ok(())
}

/// Returns the fault for a struct of n bytes, each a field.
fn fault_of_many(alloc: Global, count: u32) -> Result<Option<SchemaFault>, Fail> {
    let text = many_fields_text(alloc, count)?;
    Ok(SchemaSet::new(nodes_of(alloc, text.as_str())?).err())
}

#[test]
fn many_fields(rt: HostRuntime) -> Result<(), Fail> {
    let alloc = rt.alloc();
    assert!(rt; fault_of_many(alloc, 65535)? == None);
    assert!(rt; fault_of_many(alloc, 65536)? == rule(2, 0));
    Ok(())
}

#[test]
fn faults_are_shown(rt: HostRuntime) -> Result<(), Fail> {
    let shown = format!(in rt.alloc(); "{}", SchemaFault::Rule { rule: 9, node: 0 })?;
    assert!(rt; shown.as_str() == "node 0 breaks schema rule 9");
    Ok(())
}
