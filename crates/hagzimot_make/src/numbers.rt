//! Bits of numbers, enum values and floats that JSON values describe.

use crate::fault::{MakeFault, value_fault};
use capnp_records::node::{EnumerantRecord, NodeBody};
use capnp_records::raw::RawEnumSchema;
use capnp_records::set::SchemaSet;
use capnp_values_queries::enums::EnumSchema;
use capnp_values_queries::slots::PlainType;
use hagzimot_floats::float_bits::{float32_bits, float64_bits};
use hagzimot_floats::float_text::{Float64, FloatForm};
use serde_json::Value as Json;
use std::alloc::{AllocError, Global};
use std::num::f64_to_bits_with_nan;

/// The most bytes of a JSON value that a fault quotes.
const MOST_QUOTED: usize = 60;

/// Returns a JSON value as a fault quotes it.
pub(crate) fn quoted(alloc: Global, json: &Json) -> Result<String, AllocError> {
    match json {
        Json::Array(_) => String::from_str(alloc, "an array"),
        Json::Object(_) => String::from_str(alloc, "an object"),
        Json::String(text) if text.len() > MOST_QUOTED => String::from_str(alloc, "the text"),
        _ => json.to_string(alloc),
    }
}

/// Returns the fault of a JSON value in place of something else.
pub(crate) fn misfit(alloc: Global, json: &Json, wanted: &str) -> MakeFault {
    let Ok(found) = quoted(alloc, json) else {
        return MakeFault::Memory;
    };
    match format!(in alloc; "{found} is not {wanted}") {
        Ok(text) => value_fault(alloc, text),
        Err(_) => MakeFault::Memory,
    }
}

/// The name, the least and the greatest number of a type of whole numbers.
#[derive(Clone, Copy)]
struct Range {
    name: &'static str,
    least: i64,
    greatest: u64,
}

/// Returns the range of a type of whole numbers; `None` of other types.
fn range_of(ty: PlainType) -> Option<Range> {
    let (name, least, greatest) = match ty {
        PlainType::Int8 => ("Int8", -0x80, 0x7f),
        PlainType::Int16 => ("Int16", -0x8000, 0x7fff),
        PlainType::Int32 => ("Int32", -0x8000_0000, 0x7fff_ffff),
        PlainType::Int64 => ("Int64", i64::MIN, 0x7fff_ffff_ffff_ffff),
        PlainType::UInt8 => ("UInt8", 0, 0xff),
        PlainType::UInt16 => ("UInt16", 0, 0xffff),
        PlainType::UInt32 => ("UInt32", 0, 0xffff_ffff),
        PlainType::UInt64 => ("UInt64", 0, u64::MAX),
        PlainType::Bool | PlainType::Enum(_) => return None,
    };
    Some(Range {
        name,
        least,
        greatest,
    })
}

/// A whole number: one that is negative, or one that is not.
#[derive(Clone, Copy)]
enum Whole {
    Negative(i64),
    Natural(u64),
}

/// Returns the whole number of a JSON number, or of a text of digits.
fn whole_of(json: &Json) -> Option<Whole> {
    if let Some(text) = json.as_str() {
        if let Ok(number) = text.parse::<u64>() {
            return Some(Whole::Natural(number));
        }
        return text.parse::<i64>().ok().map(Whole::Negative);
    }
    if let Some(number) = json.as_u64() {
        return Some(Whole::Natural(number));
    }
    json.as_i64().map(Whole::Negative)
}

/// Returns the bits of a whole number of a range.
fn whole_bits(alloc: Global, range: &Range, json: &Json) -> Result<u64, MakeFault> {
    let name = range.name;
    let bits = match whole_of(json) {
        Some(Whole::Natural(number)) if number <= range.greatest => Some(number),
        Some(Whole::Negative(number)) if number >= range.least => Some(number.cast_unsigned()),
        Some(_) => None,
        None => {
            let wanted = format!(in alloc; "a whole number ({name} is wanted)")?;
            return Err(misfit(alloc, json, wanted.as_str()));
        }
    };
    let Some(bits) = bits else {
        let found = quoted(alloc, json)?;
        let text = format!(in alloc; "{found} is out of range of {name}")?;
        return Err(value_fault(alloc, text));
    };
    Ok(bits)
}

/// Returns the number of the enumerant of a name.
fn enumerant_of(enumerants: &[EnumerantRecord], name: &str) -> Option<u64> {
    let mut number: u64 = 0;
    for enumerant in enumerants {
        if enumerant.name.as_str() == name {
            return Some(number);
        }
        number = number.saturating_add(1);
    }
    None
}

/// Returns the bits of an enum value: the name of an enumerant, or a number below 65,536.
fn enum_bits(
    alloc: Global,
    set: &SchemaSet,
    raw: RawEnumSchema,
    json: &Json,
) -> Result<u64, MakeFault> {
    let number = json.as_u64().filter(|number| *number < 0x1_0000);
    let found = match (number, json.as_str(), set.enum_by_id(raw.id)) {
        (Some(number), _, _) => Some(number),
        (None, Some(name), Some(known)) => match &EnumSchema::new(set, known).get_proto().body {
            NodeBody::Enum(enumerants) => enumerant_of(enumerants, name),
            NodeBody::Struct(_) => None,
        },
        _ => None,
    };
    match found {
        Some(bits) => Ok(bits),
        None => Err(misfit(alloc, json, "an enumerant's name or number")),
    }
}

/// Returns the text of a float: of a number the shortest text, and of a text the text, with the
/// words of JSON for infinities and NaN.
fn float_word(alloc: Global, json: &Json) -> Result<Option<String>, AllocError> {
    if let Some(number) = json.as_f64() {
        let bits = f64_to_bits_with_nan(number);
        let form = FloatForm::Text;
        return Ok(Some(format!(in alloc; "{}", Float64 { bits, form })?));
    }
    let word = match json.as_str() {
        Some("Infinity") => "inf",
        Some("-Infinity") => "-inf",
        Some("NaN") => "nan",
        Some(word) => word,
        None => return Ok(None),
    };
    Ok(Some(String::from_str(alloc, word)?))
}

/// Returns the bits of a float in a field of whole numbers.
fn float_bits(alloc: Global, ty: PlainType, json: &Json) -> Result<u64, MakeFault> {
    let word = float_word(alloc, json)?;
    let bits = match (&word, ty) {
        (Some(word), PlainType::UInt32) => float32_bits(word.as_str()).map(u64::from),
        (Some(word), _) => float64_bits(word.as_str()),
        (None, _) => None,
    };
    match bits {
        Some(bits) => Ok(bits),
        None => Err(misfit(alloc, json, "a float")),
    }
}

/// A plain type whose values are made, and whether whole numbers there are the bits of floats.
#[derive(Clone, Copy)]
pub(crate) struct Plain {
    pub(crate) ty: PlainType,
    pub(crate) is_float: bool,
}

/// Returns the bits of a value of a plain type.
pub(crate) fn plain_bits(
    alloc: Global,
    set: &SchemaSet,
    plain: Plain,
    json: &Json,
) -> Result<u64, MakeFault> {
    if plain.is_float {
        return float_bits(alloc, plain.ty, json);
    }
    match (plain.ty, range_of(plain.ty)) {
        (PlainType::Enum(raw), _) => enum_bits(alloc, set, raw, json),
        (_, Some(range)) => whole_bits(alloc, &range, json),
        (_, None) => match json.as_bool() {
            Some(value) => Ok(u64::from(value)),
            None => Err(misfit(alloc, json, "true or false")),
        },
    }
}
