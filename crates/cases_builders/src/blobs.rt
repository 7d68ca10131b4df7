//! Texts and data that are written piece by piece.
ghost use Rattle.std.specs.Prelude.{◌≡◌};

use crate::handles::{FAR, NOT_THERE, handle};
use crate::line::Line;
use crate::outcomes::{Answer, Stop};
use crate::settings::{Settings, default_of};
use capnp_copy_arenas::arena::{BuilderArena, Memory};
use capnp_copy_arenas::bytes::BlobPlace;
use capnp_layout_builders::text_builder::TextBuilder;
use capnp_units::sizes::Word;
use capnp_wire_objects::place::{Place, has_words};
use std::alloc::Global;

/// Gets data and writes over some of their bytes. Returns the length of the data.
fn write_data<A: BuilderArena>(
    memory: &mut Memory<A>,
    place: Place,
    default: Option<&[Word]>,
    at: usize,
    bytes: &[u8],
) -> Answer
    ensures { A.books memory.new.arena ≡ A.books memory.old.arena }
{
    if place.position >= FAR || !has_words(&memory.arena, place, 1) {
        return Err(NOT_THERE);
    }
    match handle(memory, place).get_data(default) {
        Ok(mut data) => {
            let len = data.len();
            if data.place.start.position >= FAR || at > len || bytes.len() > len - at {
                return Err(Stop::NoIndex);
            }
            data.write(at, bytes);
            Ok(Some(data.len() as u64))
        }
        Err(error) => Err(Stop::Refused(error.kind)),
    }
}

/// Gets a text and writes over some of its bytes. Returns the length of the text.
fn write_text<A: BuilderArena>(
    memory: &mut Memory<A>,
    place: Place,
    default: Option<&[Word]>,
    at: usize,
    bytes: &[u8],
) -> Answer
    ensures { A.books memory.new.arena ≡ A.books memory.old.arena }
{
    if place.position >= FAR || !has_words(&memory.arena, place, 1) {
        return Err(NOT_THERE);
    }
    match handle(memory, place).get_text(default) {
        Ok(mut text) => {
            let len = text.len();
            if text.place.start.position >= FAR || at > len || bytes.len() > len - at {
                return Err(Stop::NoIndex);
            }
            text.write(at, bytes);
            Ok(Some(text.len() as u64))
        }
        Err(error) => Err(Stop::Refused(error.kind)),
    }
}

/// Calls `get_data` or `get_text`, and writes bytes from an index on.
pub fn write<A: BuilderArena>(
    alloc: Global,
    memory: &mut Memory<A>,
    place: Place,
    is_text: bool,
    settings: &Settings,
    line: &mut Line<'_>,
) -> Answer
    ensures { A.books memory.new.arena ≡ A.books memory.old.arena }
{
    let default = default_of(settings, line)?;
    let at = line.index()?;
    let bytes = line.bytes(alloc)?;
    if is_text {
        write_text(memory, place, default, at, &bytes)
    } else {
        write_data(memory, place, default, at, &bytes)
    }
}

/// Gets the text at a pointer, and returns its place.
fn text_at<A: BuilderArena>(memory: &mut Memory<A>, place: Place) -> Result<BlobPlace, Stop>
    ensures { A.books memory.new.arena ≡ A.books memory.old.arena }
{
    if place.position >= FAR || !has_words(&memory.arena, place, 1) {
        return Err(NOT_THERE);
    }
    match handle(memory, place).get_text(None) {
        Ok(text) => Ok(text.place),
        Err(error) => Err(Stop::Refused(error.kind)),
    }
}

/// Pushes a piece at a position of a text: one byte as ASCII, more as a `str`. Returns the new
/// position.
fn push<A: BuilderArena>(
    memory: &mut Memory<A>,
    place: BlobPlace,
    position: usize,
    piece: &[u8],
) -> Result<usize, Stop>
    ensures { A.books memory.new.arena ≡ A.books memory.old.arena }
{
    let count = place.count as usize;
    if place.start.position >= FAR || position > count || piece.len() > count - position {
        return Err(Stop::NoIndex);
    }
    let mut text = TextBuilder {
        memory,
        place,
        position,
    };
    match piece.first() {
        Some(byte) if piece.len() == 1 && *byte < 128 => text.push_ascii(*byte),
        _ => {
            let Ok(string) = str::from_utf8(piece) else {
                return Err(Stop::Shape);
            };
            text.push_str(string);
        }
    }
    Ok(text.position)
}

/// Calls `get_text`, and pushes a piece at a position. Returns the new position.
pub fn push_text<A: BuilderArena>(
    alloc: Global,
    memory: &mut Memory<A>,
    place: Place,
    line: &mut Line<'_>,
) -> Answer
    ensures { A.books memory.new.arena ≡ A.books memory.old.arena }
{
    let position = line.index()?;
    let piece = line.bytes(alloc)?;
    let text = text_at(memory, place)?;
    let end = push(memory, text, position, &piece)?;
    Ok(Some(end as u64))
}

/// Calls `get_text` and `clear`. Returns the new position.
pub fn clear_text<A: BuilderArena>(memory: &mut Memory<A>, place: Place) -> Answer
    ensures { A.books memory.new.arena ≡ A.books memory.old.arena }
{
    if place.position >= FAR || !has_words(&memory.arena, place, 1) {
        return Err(NOT_THERE);
    }
    match handle(memory, place).get_text(None) {
        Ok(mut text) => {
            if text.place.start.position >= FAR {
                return Err(NOT_THERE);
            }
            text.clear();
            Ok(Some(text.position as u64))
        }
        Err(error) => Err(Stop::Refused(error.kind)),
    }
}
