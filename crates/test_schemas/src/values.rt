//! Values of known types, values of annotations, and texts that are refused.
use crate::fixtures::{SCHEMAS, Segments, root, set_of};
use capnp_records::node::Value;
use capnp_text::{data, text};
use capnp_units::kinds::ErrorKind;
use capnp_values::downcast::DowncastReader;
use capnp_values::dynamic_value::{Capability, Enum, Reader};
use capnp_values::{any_pointer, dynamic_list, dynamic_struct};
use capnp_values_print::stringify::print;
use capnp_values_queries::enums::EnumSchema;
use capnp_values_queries::introspect::{Type, TypeVariant};
use capnp_wire_objects::arena::ReaderArenaImpl;
use std::test::Fail;

/// Returns the types of a value, as bits in the order of `values_of_known_types`.
fn sorts(value: &Reader<'_, Segments<'_>>) -> u32 {
    let told = [
        <()>::fits(value),
        bool::fits(value),
        i8::fits(value),
        i16::fits(value),
        i32::fits(value),
        i64::fits(value),
        u8::fits(value),
        u16::fits(value),
        u32::fits(value),
        u64::fits(value),
        Enum::fits(value),
        text::Reader::fits(value),
        data::Reader::fits(value),
        <dynamic_struct::Reader<'_, Segments<'_>> as DowncastReader<'_, Segments<'_>>>::fits(value),
        dynamic_list::Reader::fits(value),
        any_pointer::Reader::fits(value),
    ];
    let mut bits = 0u32;
    let mut bit = 1u32;
    for is_one in told {
        if is_one {
            bits |= bit;
        }
        bit = bit.wrapping_mul(2);
    }
    bits
}

/// Returns a number of each type, by a downcast.
fn number(value: Reader<'_, Segments<'_>>) -> i128 {
    if bool::fits(&value) {
        let is_set: bool = value.downcast();
        return if is_set { 1 } else { 0 };
    }
    if i8::fits(&value) {
        return value.downcast::<i8>() as i128;
    }
    if i16::fits(&value) {
        return value.downcast::<i16>() as i128;
    }
    if i32::fits(&value) {
        return value.downcast::<i32>() as i128;
    }
    if i64::fits(&value) {
        return value.downcast::<i64>() as i128;
    }
    if u8::fits(&value) {
        return value.downcast::<u8>() as i128;
    }
    if u16::fits(&value) {
        return value.downcast::<u16>() as i128;
    }
    if u32::fits(&value) {
        return value.downcast::<u32>() as i128;
    }
    if u64::fits(&value) {
        return value.downcast::<u64>() as i128;
    }
    if Enum::fits(&value) {
        return value.downcast::<Enum<'_>>().get_value() as i128;
    }
    -1
}

#[test]
fn values_of_known_types(rt: HostRuntime) -> Result<(), Fail> {
    let values: [(Reader<'_, Segments<'_>>, i128); 10] = [
        (Reader::from(()), -1),
        (Reader::from(true), 1),
        (Reader::from(-7i8), -7),
        (Reader::from(-300i16), -300),
        (Reader::from(-70_000i32), -70_000),
        (Reader::from(i64::MIN), -0x8000_0000_0000_0000),
        (Reader::from(200u8), 200),
        (Reader::from(7u16), 7),
        (Reader::from(70_000u32), 70_000),
        (Reader::from(u64::MAX), 0xffff_ffff_ffff_ffff),
    ];
    let mut bit = 1u32;
    for (value, expected) in values {
        assert!(rt; sorts(&value) == bit, "{expected}");
        assert!(rt; number(value) == expected, "{expected}");
        bit = bit.wrapping_mul(2);
    }
    let text: Reader<'_, Segments<'_>> = Reader::from("hi");
    assert!(rt; sorts(&text) == 1 << 11);
    let bytes: Reader<'_, Segments<'_>> = Reader::Data(&[1, 2]);
    assert!(rt; sorts(&bytes) == 1 << 12);
    let capability: Reader<'_, Segments<'_>> = Reader::from(Capability);
    assert!(rt; sorts(&capability) == 0);
    Ok(())
}

#[test]
fn handles_of_known_types(rt: HostRuntime) -> Result<(), Fail> {
    let set = set_of(rt.alloc(), SCHEMAS)?;
    let null = [0; 8];
    let segments = [null.as_slice()];
    let arena = ReaderArenaImpl::new(segments.as_slice(), 64);
    let object = Reader::from(root(&arena, &set, 1)?);
    assert!(rt; sorts(&object) == 1 << 13);
    let untyped = root(&arena, &set, 8)?.get_named("p")?;
    assert!(rt; sorts(&untyped) == 1 << 15);
    let colours = EnumSchema::new(&set, set.enum_by_id(7).ok_or("7")?);
    let value: Reader<'_, Segments<'_>> = Reader::from(Enum::new(1, colours));
    assert!(rt; sorts(&value) == 1 << 10);
    assert!(rt; number(value) == 1);
    Ok(())
}

#[test]
fn texts_and_data_of_known_types(rt: HostRuntime) -> Result<(), Fail> {
    let value: Reader<'_, Segments<'_>> = Reader::from("hi");
    let is_hi = if text::Reader::fits(&value) {
        value.downcast::<text::Reader<'_>>().eq_str("hi")
    } else {
        false
    };
    assert!(rt; is_hi);
    let value: Reader<'_, Segments<'_>> = Reader::Data(&[1, 2]);
    let is_two = if data::Reader::fits(&value) {
        value.downcast::<data::Reader<'_>>() == &[1, 2][..]
    } else {
        false
    };
    assert!(rt; is_two);
    Ok(())
}

#[test]
fn values_of_annotations(rt: HostRuntime) -> Result<(), Fail> {
    let set = set_of(rt.alloc(), SCHEMAS)?;
    let small = Type::from(TypeVariant::UInt16);
    let number = Value::UInt16(7);
    let wide = Value::UInt32(7);
    let mut read = 0u32;
    if set.holds(small) {
        let value = Reader::<Segments<'_>>::new(&set, &number, small)
            .ok()
            .ok_or("a number")?;
        assert!(rt; matches!(value, Reader::UInt16(7)));
        assert!(rt; Reader::<Segments<'_>>::new(&set, &wide, small).is_err());
        read = read.saturating_add(1);
    }
    let any = Type::from(TypeVariant::AnyPointer);
    let untyped = Value::AnyPointer;
    if set.holds(any) {
        let value = Reader::<Segments<'_>>::new(&set, &untyped, any)
            .ok()
            .ok_or("untyped")?;
        let Reader::AnyPointer(pointer) = value else {
            return Ok(None.ok_or("untyped")?);
        };
        assert!(rt; pointer.is_null());
        read = read.saturating_add(1);
    }
    let p = Type::from(TypeVariant::Struct(set.struct_by_id(1).ok_or("known")?));
    let words = [0, 0, 0, 0, 1, 0, 0, 0, 7, 0, 0, 0, 0, 0, 0, 0];
    let seven = Value::Struct(words.to_vec(rt.alloc())?);
    if set.holds(p) {
        let value = Reader::<Segments<'_>>::new(&set, &seven, p)
            .ok()
            .ok_or("a struct")?;
        let Reader::Struct(held) = value else {
            return Ok(None.ok_or("a struct")?);
        };
        let field = held.get_named("a").ok().ok_or("a")?;
        assert!(rt; matches!(field, Reader::UInt16(7)));
        read = read.saturating_add(1);
    }
    let text = Type::from(TypeVariant::Text);
    if set.holds(text) {
        let refused = Reader::<Segments<'_>>::new(&set, &seven, text)
            .err()
            .ok_or("refused")?;
        assert!(rt; refused.kind == ErrorKind::TypeMismatch);
        read = read.saturating_add(1);
    }
    assert!(rt; read == 4);
    Ok(())
}

/// Text is printed after the earlier bytes, and a refused text leaves them.
#[test]
fn refused_texts(rt: HostRuntime) -> Result<(), Fail> {
    let set = set_of(rt.alloc(), SCHEMAS)?;
    let unended = [
        0, 0, 0, 0, 0, 0, 1, 0, 1, 0, 0, 0, 0x12, 0, 0, 0, 104, 105, 0, 0, 0, 0, 0, 0,
    ];
    let segments = [unended.as_slice()];
    let arena = ReaderArenaImpl::new(segments.as_slice(), 64);
    let mut out = b">".to_vec(rt.alloc())?;
    let value = Reader::Struct(root(&arena, &set, 1)?);
    let error = print(value, true, &mut out).err().ok_or("refused")?;
    assert!(rt; error.kind == ErrorKind::TextWithoutZeroByte);
    assert!(rt; out.as_slice() == b">".as_slice());
    let value: Reader<'_, Segments<'_>> = Reader::from("\"~");
    print(value, false, &mut out)?;
    assert!(rt; out.as_slice() == b">\"\\\"~\"".as_slice());
    Ok(())
}
