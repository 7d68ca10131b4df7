//! Calls of values as a whole.
ghost use Rattle.std.specs.Prelude.{◌≡◌, ◌<◌, ◌^◌, true};
ghost use Rattle.std.specs.Option.{is_some};
ghost use Rattle.capnp_units.specs.Segments.{words_in};
ghost use Rattle.capnp_values_queries.specs.Structs.{shape_of_struct};
ghost use Rattle.capnp_schema_structs.specs.Edits.{IsThere, HoldsShape};
ghost use Rattle.capnp_schema_values.specs.Built.{IsPlaced, IsReadyValue};
ghost use Rattle.capnp_schema_values.specs.Untyped.{IsReadyPointer as IsPointerReady};
ghost use Rattle.capnp_schema_values.specs.Variants.{built_data, built_text, built_untyped};

use crate::answers::{Answer, told, truth};
use crate::fault::Stop;
use crate::readers::name_of;
use crate::steps::struct_at;
use crate::values::bytes_in;
use crate::verbs::Call;
use capnp_copy_arenas::arena::{BuilderArena, Memory};
use capnp_layout_builders::data_builder::DataBuilder;
use capnp_layout_builders::text_builder::TextBuilder;
use capnp_message::placed::{DataPlace, PointerPlace, TextPlace};
use capnp_schema_structs::init::Part;
use capnp_schema_values::any_pointer;
use capnp_schema_values::dynamic_value::Builder;
use capnp_schema_values::placed::Placed;
use capnp_text::{data, text};
use std::alloc::Global;

/// Returns the text that a value is.
fn text_of<'a, A: BuilderArena>(value: Builder<'a, A>) -> TextBuilder<'a, A>
    requires is { is_some (built_text value) ≡ true }
    requires ready { IsReadyValue A.segments value }
    ensures near { result.place.start.position < 2 ^ 61 }
{
    let Builder::Text(inner) = value else {
        unreachable!()
    };
    inner
}

/// Returns the data that a value is.
fn data_of<'a, A: BuilderArena>(value: Builder<'a, A>) -> DataBuilder<'a, A>
    requires is { is_some (built_data value) ≡ true }
    requires ready { IsReadyValue A.segments value }
    ensures near { result.place.start.position < 2 ^ 61 }
{
    let Builder::Data(inner) = value else {
        unreachable!()
    };
    inner
}

/// Returns the untyped pointer that a value is.
fn untyped_of<'a, A: BuilderArena>(value: Builder<'a, A>) -> any_pointer::Builder<'a, A>
    requires is { is_some (built_untyped value) ≡ true }
    requires ready { IsReadyValue A.segments value }
    ensures ready { IsPointerReady A.segments result }
{
    let Builder::AnyPointer(inner) = value else {
        unreachable!()
    };
    inner
}

/// Returns whether a value is a text.
fn is_text<A: BuilderArena>(value: &Builder<'_, A>) -> bool
    ensures { result ≡ is_some (built_text value.now) }
{
    matches!(value, Builder::Text(_))
}

/// Returns whether a value is data.
fn is_data<A: BuilderArena>(value: &Builder<'_, A>) -> bool
    ensures { result ≡ is_some (built_data value.now) }
{
    matches!(value, Builder::Data(_))
}

/// Returns whether a value is an untyped pointer.
fn is_untyped<A: BuilderArena>(value: &Builder<'_, A>) -> bool
    ensures { result ≡ is_some (built_untyped value.now) }
{
    matches!(value, Builder::AnyPointer(_))
}

/// Returns the place of a value: a struct's position and sizes, an untyped pointer's position, the
/// number of bytes or elements of others.
fn place_of(alloc: Global, placed: Placed<'_>) -> Result<Answer, Stop> {
    let text = match placed {
        Placed::Struct(part) => {
            let place = part.place;
            let position = place.start.position;
            format!(in alloc; "struct {position} {} {}", place.data_words, place.pointers)?
        }
        Placed::List(list) => format!(in alloc; "list {}", list.place.count)?,
        Placed::Text(place) => format!(in alloc; "text {}", place.count)?,
        Placed::Data(place) => format!(in alloc; "data {}", place.count)?,
        Placed::AnyPointer(place) => format!(in alloc; "untyped {}", place.position)?,
        _ => String::from_str(alloc, "plain")?,
    };
    told(alloc, text.as_str())
}

/// Writes bytes over the first of a text that has room for them.
fn write_text<A: BuilderArena>(
    memory: &mut Memory<A>,
    placed: Placed<'_>,
    bytes: &[u8],
) -> Result<Answer, Stop>
    requires { IsPlaced (words_in (A.segments memory.old.arena)) placed }
{
    let value = Builder::new(memory, placed);
    if !is_text(&value) {
        return Err(Stop::NoCall);
    }
    let mut text = text_of(value);
    if (text.len() as usize) < bytes.len() {
        return Err(Stop::NoCall);
    }
    text.write(0, bytes);
    Ok(Answer::Done)
}

/// Writes bytes over the first bytes of data that has room for them.
fn write_data<A: BuilderArena>(
    memory: &mut Memory<A>,
    placed: Placed<'_>,
    bytes: &[u8],
) -> Result<Answer, Stop>
    requires { IsPlaced (words_in (A.segments memory.old.arena)) placed }
{
    let value = Builder::new(memory, placed);
    if !is_data(&value) {
        return Err(Stop::NoCall);
    }
    let mut data = data_of(value);
    if (data.len() as usize) < bytes.len() {
        return Err(Stop::NoCall);
    }
    data.write(0, bytes);
    Ok(Answer::Done)
}

/// Returns the active member of a union.
fn which<A: BuilderArena>(
    alloc: Global,
    memory: &mut Memory<A>,
    part: Part<'_>,
) -> Result<Answer, Stop>
    requires there { IsThere (words_in (A.segments memory.old.arena)) part.place }
    requires wide { HoldsShape part.place (shape_of_struct part.schema) }
{
    let object = struct_at(memory, part);
    name_of(alloc, object.which()?)
}

/// Returns the number of bytes of a text or data of an untyped pointer.
fn length<A: BuilderArena>(
    alloc: Global,
    memory: &mut Memory<A>,
    placed: Placed<'_>,
    verb: &str,
) -> Result<Answer, Stop>
    requires { IsPlaced (words_in (A.segments memory.old.arena)) placed }
{
    let value = Builder::new(memory, placed);
    if !is_untyped(&value) {
        return Err(Stop::NoCall);
    }
    let mut pointer = untyped_of(value);
    let text = if verb == "get_text" {
        format!(in alloc; "text {}", pointer.get_as::<TextPlace>()?.0.count)?
    } else {
        format!(in alloc; "data {}", pointer.get_as::<DataPlace>()?.0.count)?
    };
    told(alloc, text.as_str())
}

/// Sets an untyped pointer to a new text or data, or to null.
fn begin<A: BuilderArena>(
    memory: &mut Memory<A>,
    placed: Placed<'_>,
    call: Call<'_>,
) -> Result<Answer, Stop>
    requires { IsPlaced (words_in (A.segments memory.old.arena)) placed }
{
    let value = Builder::new(memory, placed);
    if !is_untyped(&value) {
        return Err(Stop::NoCall);
    }
    let mut pointer = untyped_of(value);
    match call.verb {
        "init_text" => {
            let _text = pointer.initn_as::<TextPlace>(call.size)?;
        }
        "init_data" => {
            let _data = pointer.initn_as::<DataPlace>(call.size)?;
        }
        _ => {
            let _null = pointer.init_as::<PointerPlace>()?;
        }
    }
    Ok(Answer::Done)
}

/// Asks whether an untyped pointer is null, clears the pointer, or sets it to a text or data.
fn put<A: BuilderArena>(
    alloc: Global,
    memory: &mut Memory<A>,
    placed: Placed<'_>,
    call: Call<'_>,
) -> Result<Answer, Stop>
    requires { IsPlaced (words_in (A.segments memory.old.arena)) placed }
{
    let bytes = bytes_in(alloc, call.value)?;
    let value = Builder::new(memory, placed);
    if !is_untyped(&value) {
        return Err(Stop::NoCall);
    }
    let mut pointer = untyped_of(value);
    match call.verb {
        "null" => return truth(alloc, pointer.is_null()),
        "clear_pointer" => pointer.clear(),
        _ if call.value.starts_with('t') => {
            pointer.set_as::<text::Owned, text::Reader<'_>>(text::Reader(&bytes))?;
        }
        _ => pointer.set_as::<data::Owned, &[u8]>(&bytes)?,
    }
    Ok(Answer::Done)
}

/// Answers a call of a value that `get` returned.
pub fn answer<A: BuilderArena>(
    alloc: Global,
    memory: &mut Memory<A>,
    placed: Placed<'_>,
    call: Call<'_>,
) -> Result<Answer, Stop>
    requires { IsPlaced (words_in (A.segments memory.old.arena)) placed }
{
    match call.verb {
        "where" => place_of(alloc, placed),
        "which" => match placed {
            Placed::Struct(part) => which(alloc, memory, part),
            _ => Err(Stop::NoCall),
        },
        "write" => {
            let bytes = bytes_in(alloc, call.value)?;
            match placed {
                Placed::Text(_) => write_text(memory, placed, &bytes),
                _ => write_data(memory, placed, &bytes),
            }
        }
        "get_text" | "get_data" => length(alloc, memory, placed, call.verb),
        "init_text" | "init_data" | "init_null" => begin(memory, placed, call),
        _ => put(alloc, memory, placed, call),
    }
}
