//! The number of names that are compared when a field is found by its name.
use crate::fixtures::{many_fields_text, schema_of, set_of};
use capnp_values_queries::structs::StructSchema;
use std::test::Fail;

/// F (1) of five fields, and N (2) of none.
const FIVE: &str = r#"[
    {"id":1,"name":"F","data":1,"pointers":0,"fields":[
        {"name":"year","type":"UInt8","offset":0},
        {"name":"make","type":"UInt8","offset":1},
        {"name":"makes","type":"UInt8","offset":2},
        {"name":"Year","type":"UInt8","offset":3},
        {"name":"doors","type":"UInt8","offset":4}]},
    {"id":2,"name":"N","data":0,"pointers":0,"fields":[]}]"#;

/// Returns the most names that were compared when the fields of some indices are looked up by their
/// own names.
fn most_compared(schema: StructSchema<'_>, indices: &[u16]) -> Result<u32, Fail> {
    let fields = schema.get_fields()?;
    let mut most = 0;
    for index in indices {
        if *index >= fields.len() {
            return Err("an index past the end".into());
        }
        let name = &fields.get(*index).get_proto().name;
        let (found, compared) = schema.find_field_by_name_counted(name);
        if found.ok_or("a field")?.get_index() != *index {
            return Err("another field".into());
        }
        most = most.max(compared);
    }
    Ok(most)
}

/// Returns this number for names that the struct lacks.
fn most_lacking(schema: StructSchema<'_>, names: &[&str]) -> Result<u32, Fail> {
    let mut most = 0;
    for name in names {
        let (found, compared) = schema.find_field_by_name_counted(name);
        if found.is_some() {
            return Err("a field that is none".into());
        }
        most = most.max(compared);
    }
    Ok(most)
}

#[test]
fn five_fields(rt: HostRuntime) -> Result<(), Fail> {
    let alloc = rt.alloc();
    let set = set_of(alloc, FIVE)?;
    let schema = schema_of(&set, 1)?;
    assert!(rt; most_compared(schema, &[0, 1, 2, 3, 4])? <= 3);
    assert!(rt; most_lacking(schema, &["", "MAKE", "make ", "mak", "z"])? <= 3);
    let empty = schema_of(&set, 2)?;
    assert!(rt; most_lacking(empty, &["", "make"])? == 0);
    Ok(())
}

#[test]
fn most_fields(rt: HostRuntime) -> Result<(), Fail> {
    let alloc = rt.alloc();
    let text = many_fields_text(alloc, 65535)?;
    let set = set_of(alloc, text.as_str())?;
    let schema = schema_of(&set, 1)?;
    let indices = [0, 1, 9, 10, 99, 4095, 4096, 32767, 65533, 65534];
    assert!(rt; most_compared(schema, &indices)? <= 17);
    assert!(rt; most_lacking(schema, &["", "f", "f65535", "f00", "f1 ", "g"])? <= 17);
    Ok(())
}
