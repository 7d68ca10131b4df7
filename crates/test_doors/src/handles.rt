//! Handles that are lent, read for a while, and consumed by readers.
use capnp_layout::{
    BuilderArena, DataBuilder, ElementSize, Error, ErrorKind, ListBuilder, Memory, Result,
    StructBuilder, StructPlace, TextBuilder, has_words,
};
use capnp_message::message::{Builder, HeapAllocator, StructSize, root_of, with_message};
use std::alloc::Global;
use std::test::Fail;

/// Positions that are too far for a handle.
const FAR: usize = 1 << 60;

/// Returns a null root, as it is lent, as it is read, and as its reader is.
fn nulls(message: &mut Builder<HeapAllocator>) -> Result<(bool, bool, bool)> {
    let mut root = root_of(&mut message.memory)?;
    let lent = root.reborrow().is_null();
    let read = root.as_reader().is_null();
    Ok((lent, read, root.into_reader().reborrow().is_null()))
}

#[test]
fn pointers_are_lent(rt: HostRuntime) -> std::result::Result<(), Fail> {
    assert!(rt; with_message(rt.alloc(), nulls)? == (true, true, true));
    Ok(())
}

/// Sets a bit exclusive-or'ed with its default, and reads it and the field in each way.
fn bit<A: BuilderArena>(memory: &mut Memory<A>, place: StructPlace) -> Result<(bool, bool, bool)> {
    let words = place.data_words as usize;
    let near = place.start.position < FAR;
    if words == 0 || !near || !has_words(&memory.arena, place.start, words) {
        return Err(Error::from(ErrorKind::OutOfBounds));
    }
    let mut fields = StructBuilder { memory, place };
    fields.set_bool_field_mask(3, false, true);
    let (stored, field) = (
        fields.get_bool_field(3),
        fields.get_bool_field_mask(3, true),
    );
    if !has_words(&fields.memory.arena, place.start, words) {
        return Err(Error::from(ErrorKind::OutOfBounds));
    }
    Ok((stored, field, fields.as_reader().get_bool_field(3)))
}

/// Does this for a struct of a data word, the root.
fn root_bit(message: &mut Builder<HeapAllocator>) -> Result<(bool, bool, bool)> {
    let size = StructSize {
        data_words: 1,
        pointers: 0,
    };
    let mut fields = root_of(&mut message.memory)?.init_struct(size)?;
    let place = fields.reborrow().place;
    let StructBuilder { memory, .. } = fields;
    bit(memory, place)
}

#[test]
fn structs_are_lent(rt: HostRuntime) -> std::result::Result<(), Fail> {
    assert!(rt; with_message(rt.alloc(), root_bit)? == (true, false, true));
    Ok(())
}

/// Returns the number of elements of a list of the root, lent and directly.
fn counts(message: &mut Builder<HeapAllocator>) -> Result<(u32, u32)> {
    let mut list: ListBuilder<'_, _> = root_of(&mut message.memory)?.init_list(
        ElementSize::Bit,
        9,
    )?;
    let lent = list.reborrow().len();
    Ok((lent, list.len()))
}

#[test]
fn lists_are_lent(rt: HostRuntime) -> std::result::Result<(), Fail> {
    assert!(rt; with_message(rt.alloc(), counts)? == (9, 9));
    Ok(())
}

/// Writes a text of four bytes by a handle and by one that it lends, and returns whether it reads
/// so.
fn is_written<A: BuilderArena>(mut text: TextBuilder<'_, A>) -> bool {
    if text.len() != 4 || text.position != 0 || text.place.start.position >= FAR {
        return false;
    }
    text.push_str("hi");
    let mut lent = text.reborrow();
    if lent.position >= lent.len() || lent.place.start.position >= FAR {
        return false;
    }
    lent.push_ascii(b'!');
    text.reborrow_as_reader().eq_str("hi!\0") && text.into_reader().eq_str("hi!\0")
}

/// Makes a text as the root.
fn text_root(message: &mut Builder<HeapAllocator>) -> Result<bool> {
    Ok(is_written(root_of(&mut message.memory)?.init_text(4)?))
}

#[test]
fn texts_are_lent(rt: HostRuntime) -> std::result::Result<(), Fail> {
    assert!(rt; with_message(rt.alloc(), text_root)?);
    Ok(())
}

/// Writes three bytes of data, one by a handle that is lent, and returns whether they read so.
fn are_written<A: BuilderArena>(mut data: DataBuilder<'_, A>) -> bool {
    if data.len() != 3 || data.place.start.position >= FAR {
        return false;
    }
    data.write(0, b"ab");
    let mut lent = data.reborrow();
    if lent.len() != 3 || lent.place.start.position >= FAR {
        return false;
    }
    lent.set(2, b'c');
    data.as_bytes() == b"abc".as_slice() && data.into_reader() == b"abc".as_slice()
}

/// Makes data as the root.
fn data_root(message: &mut Builder<HeapAllocator>) -> Result<bool> {
    Ok(are_written(root_of(&mut message.memory)?.init_data(3)?))
}

#[test]
fn data_are_lent(rt: HostRuntime) -> std::result::Result<(), Fail> {
    assert!(rt; with_message(rt.alloc(), data_root)?);
    Ok(())
}

/// Returns whether the texts that are the roots of two messages are equal, and whether the same
/// bytes are as data. In the second message another text precedes it.
fn roots_equal(
    one: &mut Builder<HeapAllocator>,
    two: &mut Builder<HeapAllocator>,
    bytes: &[u8],
    others: &[u8],
) -> Result<(bool, bool)> {
    root_of(&mut one.memory)?.set_text(bytes)?;
    root_of(&mut two.memory)?.set_text(b"another")?;
    root_of(&mut two.memory)?.set_text(others)?;
    let text = root_of(&mut one.memory)?.get_text(None)?;
    let texts = text == root_of(&mut two.memory)?.get_text(None)?;
    root_of(&mut one.memory)?.set_data(bytes)?;
    root_of(&mut two.memory)?.set_data(others)?;
    let data = root_of(&mut one.memory)?.get_data(None)?;
    Ok((texts, data == root_of(&mut two.memory)?.get_data(None)?))
}

/// Does this, if the second message is new.
fn equal_beside(
    alloc: Global,
    one: &mut Builder<HeapAllocator>,
    bytes: &[u8],
    others: &[u8],
) -> Result<(bool, bool)> {
    with_message(alloc, |two| roots_equal(one, two, bytes, others))
}

/// Does this in two new messages.
fn equal_in_two(alloc: Global, bytes: &[u8], others: &[u8]) -> Result<(bool, bool)> {
    with_message(alloc, |one| equal_beside(alloc, one, bytes, others))
}

#[test]
fn built_texts_and_data_compare(rt: HostRuntime) -> std::result::Result<(), Fail> {
    let alloc = rt.alloc();
    assert!(rt; equal_in_two(alloc, b"hi", b"hi")? == (true, true));
    assert!(rt; equal_in_two(alloc, b"hi", b"ho")? == (false, false));
    assert!(rt; equal_in_two(alloc, b"hi", b"hi!")? == (false, false));
    assert!(rt; equal_in_two(alloc, b"", b"")? == (true, true));
    Ok(())
}
