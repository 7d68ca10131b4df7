//! Gets of builders at the root of a message that write a default, or widen the value there.

use crate::fault::Fault;
use crate::marks;
use crate::messages::{end, outcome, put_words, segments_of, small, stands, tree_of};
use crate::samples::{LIST_WORDS, NULL, OLD_STRUCT, OLD_STRUCTS, STRUCT_WORDS, TEXT_WORDS};
use capnp_copy_arenas::arena::{BuilderArena, Memory};
use capnp_layout_builders::pointer_builder::PointerBuilder;
use capnp_units::errors::{Error, Result};
use capnp_units::kinds::ErrorKind;
use capnp_units::sizes::{ElementSize, StructSize};
use capnp_wire_objects::place::{ROOT, has_words};

/// A data word and a pointer.
const SIZE: StructSize = StructSize {
    data_words: 1,
    pointers: 1,
};

/// Two data words and two pointers.
const WIDE: StructSize = StructSize {
    data_words: 2,
    pointers: 2,
};

/// Returns the root before a call.
fn old(call: &str) -> &'static str {
    match call {
        "wider_struct" => OLD_STRUCT,
        "wider_structs" => OLD_STRUCTS,
        _ => NULL,
    }
}

/// Makes the named call.
fn get<A: BuilderArena>(memory: &mut Memory<A>, call: &str) -> Result<()> {
    if !has_words(&memory.arena, ROOT, 1) {
        return Err(Error::from(ErrorKind::OutOfBounds));
    }
    let pointer = PointerBuilder::get_root(memory);
    match call {
        "empty_struct" => {
            pointer.get_struct(SIZE, None)?;
        }
        "struct_default" => {
            pointer.get_struct(SIZE, Some(&STRUCT_WORDS))?;
        }
        "list_default" => {
            pointer.get_list(ElementSize::Pointer, Some(&LIST_WORDS))?;
        }
        "text_default" => {
            pointer.get_text(Some(&TEXT_WORDS))?;
        }
        "data_default" => {
            pointer.get_data(Some(&TEXT_WORDS))?;
        }
        "wider_struct" => {
            pointer.get_struct(WIDE, None)?;
        }
        "wider_structs" => {
            pointer.get_struct_list(WIDE, None)?;
        }
        _ => return Err(Error::from(ErrorKind::FieldNotFound)),
    }
    Ok(())
}

/// Makes a call at a message, and returns its line.
fn told_of<A: BuilderArena>(
    rt: &HostRuntime,
    memory: &mut Memory<A>,
    call: &str,
) -> std::result::Result<String, Fault> {
    let alloc = rt.alloc();
    put_words(memory, &hex::decode(alloc, old(call).as_bytes())?)?;
    let before = segments_of(alloc, &memory.arena)?;
    marks::begin(rt);
    let done = get(memory, call);
    marks::end(rt);
    let is_standing = stands(&memory.arena, &before);
    outcome(
        alloc,
        done,
        is_standing,
        tree_of(alloc, &memory.arena)?.as_str(),
    )
}

/// Makes a case, and returns its line.
pub fn told(rt: &HostRuntime, call: &str) -> std::result::Result<String, Fault> {
    let mut message = small(rt.alloc());
    let told = told_of(rt, &mut message.memory, call);
    end(message);
    told
}
