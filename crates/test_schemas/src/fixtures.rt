//! Worked schemas and messages.
use capnp_records::node::NodeRecord;
use capnp_records::set::SchemaSet;
use capnp_relay_files::schema_file::schema_file;
use capnp_units::limiter::ReadLimiter;
use capnp_values::dynamic_struct;
use capnp_values_queries::structs::StructSchema;
use capnp_wire::pointer::PointerReader;
use capnp_wire_objects::arena::ReaderArenaImpl;
use std::alloc::Global;
use std::test::Fail;

pub(crate) type Segments<'a> = ReaderArenaImpl<&'a [&'a [u8]]>;

/// P (1): a UInt16, t Text. Q (2): child P. D (4): p P with default (a = 7). G (5): group g (6) of
/// x UInt16. H (8): p untyped. E (7) has the names red and green.
pub(crate) const SCHEMAS: &str = r#"[
    {"id":1,"name":"P","data":1,"pointers":1,"fields":[
        {"name":"a","type":"UInt16","offset":0},{"name":"t","type":"Text","offset":0}]},
    {"id":2,"name":"Q","data":0,"pointers":1,"fields":[
        {"name":"child","type":{"struct":1},"offset":0}]},
    {"id":4,"name":"D","data":0,"pointers":1,"fields":[
        {"name":"p","type":{"struct":1},"offset":0,"default":"00000000010000000700000000000000"}]},
    {"id":5,"name":"G","data":1,"pointers":0,"fields":[{"name":"g","group":6}]},
    {"id":6,"name":"g","data":1,"pointers":0,"group":true,"fields":[
        {"name":"x","type":"UInt16","offset":0}]},
    {"id":8,"name":"H","data":0,"pointers":1,"fields":[
        {"name":"p","type":"AnyPointer","offset":0}]},
    {"id":7,"name":"E","enumerants":["red","green"]}]"#;

/// Returns a schema file of S (1), whose n fields f0, f1 and so on are a byte each.
pub(crate) fn many_fields_text(alloc: Global, count: u32) -> Result<String, Fail> {
    let mut text = String::from_str(
        alloc,
        r#"[{"id":1,"name":"S","data":8192,"pointers":0,"fields":["#,
    )?;
    for offset in 0..count {
        let comma = if offset == 0 { "" } else { "," };
        let field = format!(in alloc;
            "{comma}{{\"name\":\"f{offset}\",\"type\":\"UInt8\",\"offset\":{offset}}}"
        )?;
        text.push_str(field.as_str())?;
    }
    text.push_str("]}]")?;
    Ok(text)
}

/// Returns the nodes of a schema file.
pub(crate) fn nodes_of(alloc: Global, text: &str) -> Result<Vec<NodeRecord>, Fail> {
    Ok(
        schema_file(alloc, text.as_bytes())
            .ok()
            .ok_or("a schema file")?,
    )
}

/// Makes the set of the nodes of a schema file.
pub(crate) fn set_of(alloc: Global, text: &str) -> Result<SchemaSet, Fail> {
    Ok(SchemaSet::new(nodes_of(alloc, text)?)?)
}

/// Returns the struct or the group of an id.
pub(crate) fn schema_of(set: &SchemaSet, id: u64) -> Result<StructSchema<'_>, Fail> {
    let raw = set.struct_or_group_by_id(id).ok_or("known")?;
    Ok(StructSchema::new(set, raw))
}

/// Returns the struct at the root of a message.
pub(crate) fn root<'a>(
    arena: &'a Segments<'a>,
    set: &'a SchemaSet,
    id: u64,
) -> Result<dynamic_struct::Reader<'a, Segments<'a>>, Fail> {
    let pointer = PointerReader::get_root_from_arena(arena)?;
    let mut limiter = ReadLimiter::new(None);
    let reader = pointer.get_struct(&mut limiter, None)?;
    Ok(dynamic_struct::Reader::new(reader, schema_of(set, id)?))
}
