//! Schemas: sets of nodes, their fields, unions and enums, and types.
use crate::fixtures::{SCHEMAS, schema_of, set_of};
use capnp_relay::{FileFault, schema_file};
use capnp_schema::dynamic_value::Enum;
use capnp_schema::introspect::{Introspect, Type, TypeVariant};
use capnp_schema::schema::{EnumSchema, StructSchema};
use capnp_schema::{
    AnnotationRecord, BaseType, EnumerantRecord, NO_DISCRIMINANT, NodeBody, NodeRecord,
    SchemaFault, SchemaSet, TypeRecord, Value,
};
use std::alloc::{AllocError, Global};
use std::test::Fail;

#[test]
fn fields_are_found(rt: HostRuntime) -> Result<(), Fail> {
    let set = set_of(rt.alloc(), SCHEMAS)?;
    let schema = schema_of(&set, 2)?;
    let fields = schema.get_fields()?;
    assert!(rt; fields.len() == 9 && !fields.is_empty());
    let field = schema.get_field_by_name("words")?;
    assert!(rt; field.get_index() == 4 && field.get_proto().name.as_str() == "words");
    let lists = Type::list_of(Type::from(TypeVariant::Text));
    assert!(rt; field.get_type() == lists);
    assert!(rt; schema.find_field_by_name("word")?.is_none());
    assert!(rt; schema.get_union_fields()?.is_empty() && schema.get_annotations()?.is_empty());
    assert!(rt; schema.get_non_union_fields()?.len() == 9);
    Ok(())
}

#[test]
fn members_are_found(rt: HostRuntime) -> Result<(), Fail> {
    let set = set_of(rt.alloc(), SCHEMAS)?;
    let schema = schema_of(&set, 4)?;
    let member = schema.get_field_by_discriminant(1)?.ok_or("a member")?;
    assert!(rt;
        member.get_proto().discriminant_value == 1 && member == schema.get_field_by_name("v")?
    );
    assert!(rt; schema.get_field_by_discriminant(2)?.is_none());
    assert!(rt; schema.get_field_by_name("n").is_err());
    let first = schema.get_field_by_name("u")?;
    assert!(rt; first.get_type() == u16::introspect() && first != member);
    assert!(rt;
        schema
            .get_field_by_name("v")?
            .get_proto()
            .discriminant_value
            != NO_DISCRIMINANT
    );
    Ok(())
}

/// Makes an enum node of one name, with a note.
fn colours(alloc: Global) -> Result<Vec<NodeRecord>, AllocError> {
    let ty = TypeRecord {
        list_count: 0,
        base: BaseType::UInt16,
    };
    let value = Value::UInt16(5);
    let note = AnnotationRecord { id: 99, ty, value };
    let red = EnumerantRecord {
        name: String::from_str(alloc, "red")?,
        annotations: Vec::new(alloc),
    };
    let node = NodeRecord {
        id: 7,
        display_name: String::from_str(alloc, "E")?,
        annotations: vec![in alloc; note]?,
        body: NodeBody::Enum(vec![in alloc; red]?),
    };
    Ok(vec![in alloc; node]?)
}

#[test]
fn nodes_are_made_by_hand(rt: HostRuntime) -> Result<(), Fail> {
    let set = SchemaSet::new(colours(rt.alloc())?)?;
    let raw = set.enum_by_id(7).ok_or("the enum")?;
    assert!(rt; set.holds(raw) && set.struct_by_id(7).is_none());
    let schema = EnumSchema::new(&set, raw);
    let names = schema.get_enumerants()?;
    assert!(rt; names.len() == 1 && schema.get_proto().display_name.as_str() == "E");
    assert!(rt; names.get(0).get_proto().name.as_str() == "red");
    assert!(rt; names.get(0).get_ordinal() == 0);
    let red = Enum::new(0, schema).get_enumerant()?.ok_or("an enumerant")?;
    assert!(rt; red == names.get(0) && Enum::new(1, schema).get_enumerant()?.is_none());
    let note = schema.get_annotations()?.find(99).ok_or("the note")?;
    assert!(rt; note.get_id() == 99 && matches!(note.get_value(), Value::UInt16(5)));
    Ok(())
}

#[test]
fn nodes_that_break_a_rule_are_refused(rt: HostRuntime) -> Result<(), Fail> {
    let mut nodes = colours(rt.alloc())?;
    nodes.append(&mut colours(rt.alloc())?)?;
    let twice = Err(SchemaFault::Rule { rule: 1, node: 1 });
    assert!(rt; SchemaSet::new(nodes).map(drop) == twice);
    let file = schema_file(rt.alloc(), b"[{}]");
    assert!(rt; file.map(drop) == Err(FileFault::Form));
    Ok(())
}

#[test]
fn schemas_are_equal_by_their_ids(rt: HostRuntime) -> Result<(), Fail> {
    let (one, two) = (set_of(rt.alloc(), SCHEMAS)?, set_of(rt.alloc(), SCHEMAS)?);
    let first: StructSchema<'_> = schema_of(&one, 1)?;
    assert!(rt; first == schema_of(&two, 1)? && first != schema_of(&two, 2)?);
    assert!(rt; first.get_proto().id == 1);
    Ok(())
}
