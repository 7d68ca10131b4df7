//! The sources of copies that lines give.

use crate::line::Line;
use crate::outcomes::Stop;
use crate::settings::Settings;
use crate::ways::{pointer_at, structs_of};
use capnp_units::limiter::ReadLimiter;
use capnp_units::sizes::{ElementSize, StructSize, Word};
use capnp_wire::structs::StructReader;
use capnp_wire_objects::arena::ReaderArena;
use std::alloc::Global;

/// Returns the bytes of a message's segments.
pub fn segments_of<A: ReaderArena>(alloc: Global, arena: &A) -> Result<Vec<Vec<u8>>, Stop> {
    let mut segments = Vec::new(alloc);
    for id in 0..u32::MAX {
        let Some(bytes) = arena.get_segment(id) else {
            break;
        };
        segments.push(bytes.to_vec(alloc)?)?;
    }
    Ok(segments)
}

/// The segments to copy from, and the way to read them: the struct or element that takes the copy,
/// and the expected elements.
#[derive(Drop)]
pub struct Source {
    pub segments: Vec<Vec<u8>>,
    pub size: StructSize,
    pub index: u32,
    pub expected: ElementSize,
    pub levels: i32,
}

/// Returns the source that a line gives, in its present state: this message, the other, or the
/// literal segments.
pub fn source_of<A: ReaderArena, B: ReaderArena>(
    alloc: Global,
    this: &A,
    other: &B,
    settings: &Settings,
    line: &mut Line<'_>,
) -> Result<Source, Stop> {
    let segments = match line.number()? {
        0 => segments_of(alloc, this)?,
        1 => segments_of(alloc, other)?,
        2 => settings.literals.clone()?,
        _ => return Err(Stop::Shape),
    };
    let size = line.struct_size()?;
    let index = line.short()?;
    let expected = line.element_size()?;
    Ok(Source {
        segments,
        size,
        index,
        expected,
        levels: settings.levels,
    })
}

/// Returns the struct that a line leads to, with a default in place of null; if an element is
/// requested, that element of a list read as structs.
pub fn struct_read<'a, B: ReaderArena>(
    arena: &'a B,
    limiter: &mut ReadLimiter,
    line: &mut Line<'_>,
    element: Option<u32>,
    default: Option<&'a [Word]>,
) -> Result<StructReader<'a, B>, Stop> {
    let pointer = pointer_at(arena, limiter, line)?;
    let Some(index) = element else {
        return Ok(pointer.get_struct(limiter, default)?);
    };
    let list = structs_of(pointer, limiter)?;
    if index >= list.len() {
        return Err(Stop::NoIndex);
    }
    Ok(list.get_struct_element(index))
}
