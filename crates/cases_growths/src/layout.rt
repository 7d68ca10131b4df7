//! Slot writes at the root of a message.

use crate::fault::Fault;
use crate::marks;
use crate::messages::{Segments, end, outcome, put_words, segments_of, small, stands, tree_of};
use crate::samples::{LIST, OLD_STRUCT, OLD_TEXT, STRUCT};
use capnp_copy_arenas::arena::{BuilderArena, Memory};
use capnp_copy_arenas::fields::StructPlace;
use capnp_layout_builders::pointer_builder::PointerBuilder;
use capnp_layout_builders::struct_builder::StructBuilder;
use capnp_layout_canonical::copy::copy_canonical_from;
use capnp_layout_canonical::sets::{set_list_canonical, set_struct_canonical};
use capnp_units::errors::{Error, Result};
use capnp_units::kinds::ErrorKind;
use capnp_units::limiter::ReadLimiter;
use capnp_units::sizes::{ElementSize, StructSize, Word};
use capnp_wire::pointer::PointerReader;
use capnp_wire_objects::arena::{ReaderArena, ReaderArenaImpl};
use capnp_wire_objects::place::{ROOT, has_words};
use std::alloc::Global;

/// A data word and a pointer.
const SIZE: StructSize = StructSize {
    data_words: 1,
    pointers: 1,
};

/// Returns the root before a call.
fn old(call: &str) -> &'static str {
    match call {
        "copy_content_from" => OLD_STRUCT,
        _ => OLD_TEXT,
    }
}

/// Returns the source of a copy.
fn source(call: &str) -> &'static str {
    match call {
        "set_list" | "set_list_canonical" => LIST,
        _ => STRUCT,
    }
}

/// Copies the text at the root.
fn copy_text<A: BuilderArena>(alloc: Global, memory: &mut Memory<A>) -> Result<()> {
    if !has_words(&memory.arena, ROOT, 1) {
        return Err(Error::from(ErrorKind::OutOfBounds));
    }
    let text = PointerBuilder::get_root(memory).get_text(None)?;
    match text.to_string(alloc)? {
        Some(_copy) => Ok(()),
        None => Err(Error::from(ErrorKind::OutOfBounds)),
    }
}

/// Makes a call that makes a value.
fn make<A: BuilderArena>(memory: &mut Memory<A>, call: &str) -> Result<()> {
    if !has_words(&memory.arena, ROOT, 1) {
        return Err(Error::from(ErrorKind::OutOfBounds));
    }
    let mut pointer = PointerBuilder::get_root(memory);
    match call {
        "set_text" => pointer.set_text(b"hi"),
        "set_data" => pointer.set_data(&[1, 2, 3]),
        "init_text" => {
            pointer.init_text(5)?;
            Ok(())
        }
        "init_data" => {
            pointer.init_data(5)?;
            Ok(())
        }
        "init_struct" => {
            pointer.init_struct(SIZE)?;
            Ok(())
        }
        "init_list" => {
            pointer.init_list(ElementSize::FourBytes, 3)?;
            Ok(())
        }
        _ => {
            pointer.init_struct_list(2, SIZE)?;
            Ok(())
        }
    }
}

/// Returns the place of the struct at the root.
fn struct_at_root<A: BuilderArena>(memory: &mut Memory<A>) -> Result<StructPlace> {
    if !has_words(&memory.arena, ROOT, 1) {
        return Err(Error::from(ErrorKind::OutOfBounds));
    }
    match PointerBuilder::get_root(memory).get_struct(SIZE, None) {
        Ok(object) => Ok(object.place),
        Err(error) => Err(error),
    }
}

/// Copies the content of a struct into the struct at the root.
fn copy_content<A: BuilderArena, B: ReaderArena>(
    memory: &mut Memory<A>,
    source: PointerReader<'_, B>,
) -> Result<()> {
    let mut unlimited = ReadLimiter::new(None);
    let other = source.get_struct(&mut unlimited, None)?;
    let place = struct_at_root(memory)?;
    let words = place.data_words as usize + place.pointers as usize;
    if place.start.position >= 1 << 60 || !has_words(&memory.arena, place.start, words) {
        return Err(Error::from(ErrorKind::OutOfBounds));
    }
    let mut object = StructBuilder { memory, place };
    object.copy_content_from(&mut unlimited, other)
}

/// Makes a call that copies a value.
fn copy<A: BuilderArena, B: ReaderArena>(
    memory: &mut Memory<A>,
    call: &str,
    source: PointerReader<'_, B>,
    lent: &mut [Word],
) -> Result<()> {
    if !has_words(&memory.arena, ROOT, 1) {
        return Err(Error::from(ErrorKind::OutOfBounds));
    }
    let mut unlimited = ReadLimiter::new(None);
    let mut pointer = PointerBuilder::get_root(memory);
    match call {
        "copy_from" => pointer.copy_from(&mut unlimited, source),
        "set_struct" => {
            let other = source.get_struct(&mut unlimited, None)?;
            pointer.set_struct(&mut unlimited, other)
        }
        "set_list" => {
            let other = source.get_list(&mut unlimited, ElementSize::Pointer, None)?;
            pointer.set_list(&mut unlimited, other)
        }
        _ => copy_canonical_from(&mut pointer, &mut unlimited, source, lent),
    }
}

/// Makes a call that copies a value canonically through another message.
fn copy_by_way<A: BuilderArena, B: ReaderArena, C: BuilderArena>(
    memory: &mut Memory<A>,
    call: &str,
    source: PointerReader<'_, B>,
    scratch: &mut Memory<C>,
    lent: &mut [Word],
) -> Result<()> {
    if !has_words(&memory.arena, ROOT, 1) || !has_words(&scratch.arena, ROOT, 1) {
        return Err(Error::from(ErrorKind::OutOfBounds));
    }
    let mut unlimited = ReadLimiter::new(None);
    let mut way = PointerBuilder::get_root(scratch);
    let mut pointer = PointerBuilder::get_root(memory);
    if call == "set_struct_canonical" {
        let other = source.get_struct(&mut unlimited, None)?;
        return set_struct_canonical(&mut pointer, &mut unlimited, other, &mut way, lent);
    }
    let other = source.get_list(&mut unlimited, ElementSize::Pointer, None)?;
    set_list_canonical(&mut pointer, &mut unlimited, other, &mut way, lent)
}

/// Makes the named call.
fn call_of<A: BuilderArena, B: ReaderArena, C: BuilderArena>(
    alloc: Global,
    memory: &mut Memory<A>,
    call: &str,
    source: PointerReader<'_, B>,
    scratch: &mut Memory<C>,
    lent: &mut [Word],
) -> Result<()> {
    match call {
        "set_text"
        | "set_data"
        | "init_text"
        | "init_data"
        | "init_struct"
        | "init_list"
        | "init_struct_list" => make(memory, call),
        "copy_from" | "set_struct" | "set_list" | "copy_canonical_from" => {
            copy(memory, call, source, lent)
        }
        "set_struct_canonical" | "set_list_canonical" => {
            copy_by_way(memory, call, source, scratch, lent)
        }
        "copy_content_from" => copy_content(memory, source),
        "text_to_string" => copy_text(alloc, memory),
        _ => Err(Error::from(ErrorKind::FieldNotFound)),
    }
}

/// Makes the named call between the marks, with a source in these bytes.
fn called<A: BuilderArena, C: BuilderArena>(
    rt: &HostRuntime,
    memory: &mut Memory<A>,
    call: &str,
    bytes: &[u8],
    scratch: &mut Memory<C>,
) -> Result<()> {
    let segments = [bytes];
    let arena: Segments<'_> = ReaderArenaImpl::new(segments.as_slice(), 64);
    let source = PointerReader::get_root_from_arena(&arena)?;
    let mut lent = [[0; 8]; 16];
    marks::begin(rt);
    let done = call_of(rt.alloc(), memory, call, source, scratch, &mut lent);
    marks::end(rt);
    done
}

/// Makes a call at a message, and returns its line.
fn told_of<A: BuilderArena, C: BuilderArena>(
    rt: &HostRuntime,
    memory: &mut Memory<A>,
    call: &str,
    scratch: &mut Memory<C>,
) -> std::result::Result<String, Fault> {
    let alloc = rt.alloc();
    put_words(memory, &hex::decode(alloc, old(call).as_bytes())?)?;
    put_words(scratch, &[0; 8])?;
    let bytes = hex::decode(alloc, source(call).as_bytes())?;
    let before = segments_of(alloc, &memory.arena)?;
    let done = called(rt, memory, call, &bytes, scratch);
    let is_standing = stands(&memory.arena, &before);
    outcome(
        alloc,
        done,
        is_standing,
        tree_of(alloc, &memory.arena)?.as_str(),
    )
}

/// Makes a case, and returns its line.
pub fn told(rt: &HostRuntime, call: &str) -> std::result::Result<String, Fault> {
    let mut message = small(rt.alloc());
    let mut scratch = small(rt.alloc());
    let told = told_of(rt, &mut message.memory, call, &mut scratch.memory);
    end(message);
    end(scratch);
    told
}
