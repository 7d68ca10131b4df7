//! Values that hold no others.

use crate::capnp_floats::{put_float32, put_float64};
use crate::escapes::Escaped;
use crate::layout::{Layout, Spelling, Style, put};
use capnp_text::text;
use capnp_units::errors::Error;
use capnp_units::kinds::ErrorKind;
use capnp_values::dynamic_value::{Enum, Reader};
use capnp_values_print::stringify::print;
use capnp_wire_objects::arena::ReaderArena;
use hagzimot_floats::float_text::{Float32, Float64, FloatForm};
use hagzimot_schemas::json_text::{Numbers, Quoted};
use std::fmt::{Display, Write};

/// Writes an enumerant's name, or the number where the enum has none of it.
fn put_enum(out: &mut String, value: Enum<'_>) -> Result<(), Error> {
    match value.get_enumerant() {
        Ok(Some(enumerant)) => put(out, Quoted(enumerant.get_proto().name.as_str())),
        _ => put(out, value.get_value()),
    }
}

/// Writes a text, or where it isn't UTF-8 its bytes.
fn put_text(out: &mut String, bytes: &[u8]) -> Result<(), Error> {
    match str::from_utf8(bytes) {
        Ok(text) => put(out, Quoted(text)),
        Err(_) => put(out, Numbers(bytes)),
    }
}

/// Writes a number between double quotes.
fn put_long<T: Display + Drop>(out: &mut String, number: T) -> Result<(), Error> {
    write!(out, "\"{number}\"")?;
    Ok(())
}

/// Writes a value as JSON; of a struct or a list nothing.
fn put_json<A: ReaderArena>(out: &mut String, value: Reader<'_, A>) -> Result<(), Error> {
    match value {
        Reader::Void => put(out, "null"),
        Reader::Bool(value) => put(out, value),
        Reader::Int8(value) => put(out, value),
        Reader::Int16(value) => put(out, value),
        Reader::Int32(value) => put(out, value),
        Reader::Int64(value) => put_long(out, value),
        Reader::UInt8(value) => put(out, value),
        Reader::UInt16(value) => put(out, value),
        Reader::UInt32(value) => put(out, value),
        Reader::UInt64(value) => put_long(out, value),
        Reader::Enum(value) => put_enum(out, value),
        Reader::Text(text::Reader(bytes)) => put_text(out, bytes),
        Reader::Data(bytes) => put(out, Numbers(bytes)),
        Reader::AnyPointer(_) => put(out, "\"<opaque pointer>\""),
        Reader::Capability(_) => put(out, "\"<external capability>\""),
        Reader::Struct(_) | Reader::List(_) => Ok(()),
    }
}

/// Writes a value as `print` does.
fn put_printed<A: ReaderArena>(
    out: &mut String,
    style: Style<'_>,
    value: Reader<'_, A>,
) -> Result<(), Error> {
    let mut printed = Vec::new(style.alloc);
    print(value, false, &mut printed)?;
    match str::from_utf8(&printed) {
        Ok(text) => put(out, text),
        // Not met: what is printed of bytes that are no UTF-8 are their numbers.
        Err(_) => Err(Error::from(ErrorKind::Device)),
    }
}

/// Writes the name of an enumerant, or the number in parentheses if the enum has no such
/// enumerant, as the C++ tool does.
fn put_capnp_enum(out: &mut String, value: Enum<'_>) -> Result<(), Error> {
    match value.get_enumerant() {
        Ok(Some(enumerant)) => put(out, enumerant.get_proto().name.as_str()),
        _ => {
            let number = value.get_value();
            write!(out, "({number})")?;
            Ok(())
        }
    }
}

/// Writes a value as the C++ tool does; of a struct or a list nothing.
fn put_capnp<A: ReaderArena>(
    out: &mut String,
    style: Style<'_>,
    value: Reader<'_, A>,
) -> Result<(), Error> {
    match value {
        Reader::Void => put(out, "void"),
        Reader::Enum(value) => put_capnp_enum(out, value),
        Reader::Text(text::Reader(bytes)) => put(out, Escaped::text(bytes)),
        Reader::Data(bytes) => put(out, Escaped::data(bytes)),
        _ => put_printed(out, style, value),
    }
}

/// Returns the form of floats in a layout.
fn float_form(layout: Layout) -> FloatForm {
    match layout {
        Layout::Json => FloatForm::Json,
        Layout::Line | Layout::Pretty => FloatForm::Text,
    }
}

/// Writes a float of these bits; of a value that has none, nothing, and returns false.
fn put_float<A: ReaderArena>(
    out: &mut String,
    style: Style<'_>,
    value: Reader<'_, A>,
) -> Result<bool, Error> {
    let form = float_form(style.layout);
    let is_capnp = style.layout != Layout::Json && style.spelling == Spelling::Capnp;
    match value {
        Reader::UInt32(bits) if is_capnp => put_float32(out, style.alloc, bits)?,
        Reader::UInt64(bits) if is_capnp => put_float64(out, style.alloc, bits)?,
        Reader::UInt32(bits) => put(out, Float32 { bits, form })?,
        Reader::UInt64(bits) => put(out, Float64 { bits, form })?,
        _ => return Ok(false),
    }
    Ok(true)
}

/// Writes a value that holds no others.
pub(crate) fn put_single<A: ReaderArena>(
    out: &mut String,
    style: Style<'_>,
    value: Reader<'_, A>,
    is_float: bool,
) -> Result<(), Error> {
    if is_float && put_float(out, style, value)? {
        return Ok(());
    }
    match style.layout {
        Layout::Json => put_json(out, value),
        Layout::Line | Layout::Pretty => match style.spelling {
            Spelling::Hagzimot => put_printed(out, style, value),
            Spelling::Capnp => put_capnp(out, style, value),
        },
    }
}
