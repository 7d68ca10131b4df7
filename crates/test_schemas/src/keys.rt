//! Schemas, fields, enumerants and types as keys, and annotations.
use crate::fixtures::{SCHEMAS, nodes_of, schema_of, set_of};
use capnp_records::node::{AnnotationRecord, BaseType, TypeRecord, Value};
use capnp_records::raw::RawBrandedStructSchema;
use capnp_records::set::SchemaSet;
use capnp_text::{data, text};
use capnp_units::sizes::ElementSize;
use capnp_values_queries::enums::EnumSchema;
use capnp_values_queries::introspect::{Introspect, Type, TypeVariant};
use std::collections::{HashMap, HashSet};
use std::test::Fail;

#[test]
fn schemas_are_keys(rt: HostRuntime) -> Result<(), Fail> {
    let set = set_of(rt.alloc(), SCHEMAS)?;
    let one = schema_of(&set, 1)?;
    let two = schema_of(&set, 2)?;
    let again = schema_of(&set, 1)?;
    assert!(rt; one != two && one == again);
    let mut schemas = HashMap::new(rt.alloc());
    let _none = schemas.insert(one, 1u8)?;
    let _none = schemas.insert(two, 2u8)?;
    assert!(rt; schemas.len() == 2);
    assert!(rt; schemas.get(&again) == Some(&1));
    let a = one.get_field_by_name("a")?;
    let t = one.get_field_by_name("t")?;
    assert!(rt; a != t && a == again.get_field_by_name("a")?);
    let mut fields = HashMap::new(rt.alloc());
    let _none = fields.insert(a, 1u8)?;
    let _none = fields.insert(t, 2u8)?;
    assert!(rt; fields.len() == 2);
    assert!(rt; fields.get(&again.get_field_by_name("t")?) == Some(&2));
    Ok(())
}

#[test]
fn enumerants_are_keys(rt: HostRuntime) -> Result<(), Fail> {
    let set = set_of(rt.alloc(), SCHEMAS)?;
    let colours = EnumSchema::new(&set, set.enum_by_id(7).ok_or("7")?);
    let again = EnumSchema::new(&set, set.enum_by_id(7).ok_or("7")?);
    assert!(rt; colours == again && colours.get_proto().id == 7);
    let list = colours.get_enumerants()?;
    assert!(rt; list.len() == 2);
    let red = list.get(0);
    let green = list.get(1);
    assert!(rt; red != green);
    let mut names = HashMap::new(rt.alloc());
    let _none = names.insert(red, 1u8)?;
    let _none = names.insert(green, 2u8)?;
    assert!(rt; names.len() == 2);
    let mut ordinal: u16 = 0;
    for enumerant in again.get_enumerants()? {
        assert!(rt; enumerant.get_ordinal() == ordinal);
        assert!(rt; enumerant.get_containing_enum() == colours);
        assert!(rt; names.contains_key(&enumerant));
        ordinal = ordinal.saturating_add(1);
    }
    assert!(rt; ordinal == 2);
    assert!(rt; names.get(&list.get(1)) == Some(&2));
    assert!(rt; green.get_proto().name.as_str() == "green");
    assert!(rt; green.get_annotations()?.is_empty());
    Ok(())
}

#[test]
fn types_are_keys(rt: HostRuntime) -> Result<(), Fail> {
    let raw = RawBrandedStructSchema::new(0, 1);
    let elsewhere = RawBrandedStructSchema::new(3, 1);
    let one = Type::from(TypeVariant::Struct(raw));
    let same = Type::from(TypeVariant::Struct(elsewhere));
    let lists = Type::list_of(one);
    let mut types = HashSet::new(rt.alloc());
    assert!(rt; types.insert(one)? && types.insert(lists)? && !types.insert(same)?);
    let mut variants = HashSet::new(rt.alloc());
    assert!(rt; variants.insert(TypeVariant::Struct(raw))? && variants.insert(lists.which())?);
    assert!(rt; variants.contains(&TypeVariant::Struct(elsewhere)));
    assert!(rt; variants.contains(&TypeVariant::List(same)));
    Ok(())
}

#[test]
fn types_of_callers(rt: HostRuntime) -> Result<(), Fail> {
    assert!(rt; u32::introspect().which() == TypeVariant::UInt32);
    assert!(rt; u32::introspect().which() != TypeVariant::Int32);
    let base = bool::introspect();
    assert!(rt; base.list_count() == 0);
    let list = Type::list_of(base);
    assert!(rt; list.which() == TypeVariant::List(base));
    assert!(rt; list.list_count() == 1);
    assert!(rt; bool::introspect().expected_element_size() == ElementSize::Bit);
    assert!(rt; list.expected_element_size() == ElementSize::Pointer);
    assert!(rt; list.is_pointer_type() && !bool::introspect().is_pointer_type());
    assert!(rt; Type::from(TypeVariant::UInt8).loose_equals(u8::introspect()));
    assert!(rt; text::Owned::introspect().which() == TypeVariant::Text);
    assert!(rt; data::Owned::introspect().which() == TypeVariant::Data);
    Ok(())
}

/// Checks that structs are found, and that types of another set are recognised.
#[test]
fn other_sets(rt: HostRuntime) -> Result<(), Fail> {
    let set = set_of(rt.alloc(), SCHEMAS)?;
    assert!(rt; set.struct_by_id(8).is_some() && set.struct_by_id(6).is_none());
    assert!(rt; set.struct_by_id(9).is_none() && set.enum_by_id(1).is_none());
    assert!(rt; set.holds(Type::from(TypeVariant::UInt16)));
    assert!(rt; set.holds(set.struct_by_id(2).ok_or("2")?));
    assert!(rt; !set.holds(RawBrandedStructSchema::new(0, 2)));
    Ok(())
}

#[test]
fn annotations(rt: HostRuntime) -> Result<(), Fail> {
    let alloc = rt.alloc();
    let mut nodes = nodes_of(alloc, SCHEMAS)?;
    let ty = TypeRecord {
        list_count: 0,
        base: BaseType::UInt16,
    };
    let value = Value::UInt16(5);
    let note = AnnotationRecord { id: 99, ty, value };
    if let Some(first) = nodes.first_mut() {
        first.annotations.push(note)?;
    } else {
        drop(note);
    }
    let set = SchemaSet::new(nodes)?;
    let notes = schema_of(&set, 1)?.get_annotations()?;
    assert!(rt; notes.len() == 1);
    let note = notes.find(99).ok_or("note")?;
    assert!(rt; note.get_type() == u16::introspect());
    assert!(rt; matches!(note.get_value(), Value::UInt16(5)));
    assert!(rt; notes.find(98).is_none());
    let mut noted = notes.iter();
    assert!(rt; noted.len() == 1);
    assert!(rt; noted.next_back().map(|note| note.get_id()) == Some(99));
    assert!(rt; noted.next().is_none());
    let mut ids: u64 = 0;
    for note in notes {
        ids = ids.saturating_add(note.get_id());
    }
    assert!(rt; ids == 99);
    Ok(())
}
