//! Columns: single values of messages as text.

use crate::hops::Hop;
use crate::reads::{Unread, value_behind};
use crate::troubles::{PlacedTrouble, Trouble};
pub use crate::ways::Scope;
use crate::ways::{Way, way_along};
use capnp_records::node::BaseType;
use capnp_text::text;
use capnp_values::dynamic_struct;
use capnp_values::dynamic_value::{Enum, Reader};
use capnp_wire_objects::arena::ReaderArena;
use hagzimot_commands::paths::Landing;
use hagzimot_commands::strict::sort_of;
use hagzimot_expressions::tree::Path;
use hagzimot_floats::float_text::{Float32, Float64, FloatForm};
use std::alloc::{AllocError, AllocFailed, Global};

/// A column of a table: a path to a single value.
#[derive(Debug, Drop)]
pub struct Column {
    hops: Vec<Hop>,
    is_float: bool,
}

/// Why a message has no row.
#[derive(Clone, Copy, Debug, PartialEq, Eq)]
pub enum RowFault {
    /// A value can't be read.
    Unread,
    /// An allocation was refused.
    Memory,
}

impl From<AllocError> for RowFault {
    fn from(_e: AllocError) -> RowFault {
        RowFault::Memory
    }
}

impl<T: Drop> From<AllocFailed<T>> for RowFault {
    fn from(_e: AllocFailed<T>) -> RowFault {
        RowFault::Memory
    }
}

impl From<Unread> for RowFault {
    fn from(_e: Unread) -> RowFault {
        RowFault::Unread
    }
}

/// Returns why values to which a way leads have no text.
fn check_cell(way: &Way) -> Result<(), Trouble> {
    if way.has_each {
        return Err(Trouble::Each);
    }
    let Landing::Value(ty) = way.at else {
        return Err(Trouble::NoColumn("a group"));
    };
    let is_single = !matches!(
        ty.base,
        BaseType::Struct(_) | BaseType::AnyPointer | BaseType::Capability
    );
    if ty.list_count == 0 && is_single {
        return Ok(());
    }
    Err(Trouble::NoColumn(sort_of(ty)))
}

/// Returns the column of a path under a schema, or why there is none.
pub fn column_of(alloc: Global, scope: Scope<'_>, path: &Path) -> Result<Column, PlacedTrouble> {
    let span = path.span;
    let way = match way_along(alloc, scope, &path.steps) {
        Ok(way) => way,
        Err(why) => return Err(PlacedTrouble { span, why }),
    };
    match check_cell(&way) {
        Ok(()) => Ok(Column {
            is_float: way.is_float,
            hops: way.hops,
        }),
        Err(why) => Err(PlacedTrouble { span, why }),
    }
}

/// Returns the value to which hops lead; `None` if the message has none.
fn value_along<'a, A: ReaderArena>(
    root: dynamic_struct::Reader<'a, A>,
    hops: &[Hop],
) -> Result<Option<Reader<'a, A>>, Unread> {
    let mut value = Reader::Struct(root);
    for hop in hops {
        value = match value_behind(value, *hop)? {
            Some(next) => next,
            None => return Ok(None),
        };
    }
    Ok(Some(value))
}

/// Returns an enumerant's name, or the number where the enum has none of it.
fn enum_text(alloc: Global, value: Enum<'_>) -> Result<String, AllocError> {
    let number = value.get_value();
    match value.get_enumerant() {
        Ok(Some(enumerant)) => String::from_str(alloc, enumerant.get_proto().name.as_str()),
        _ => format!(in alloc; "{number}"),
    }
}

/// Returns the text of a value; of one that holds others, nothing.
fn single_text<A: ReaderArena>(
    alloc: Global,
    value: Reader<'_, A>,
    is_float: bool,
) -> Result<String, AllocError> {
    let form = FloatForm::Text;
    match value {
        Reader::UInt32(bits) if is_float => format!(in alloc; "{}", Float32 { bits, form }),
        Reader::UInt64(bits) if is_float => format!(in alloc; "{}", Float64 { bits, form }),
        Reader::Void => String::from_str(alloc, "void"),
        Reader::Bool(value) => format!(in alloc; "{value}"),
        Reader::Int8(value) => format!(in alloc; "{value}"),
        Reader::Int16(value) => format!(in alloc; "{value}"),
        Reader::Int32(value) => format!(in alloc; "{value}"),
        Reader::Int64(value) => format!(in alloc; "{value}"),
        Reader::UInt8(value) => format!(in alloc; "{value}"),
        Reader::UInt16(value) => format!(in alloc; "{value}"),
        Reader::UInt32(value) => format!(in alloc; "{value}"),
        Reader::UInt64(value) => format!(in alloc; "{value}"),
        Reader::Enum(value) => enum_text(alloc, value),
        Reader::Data(bytes) => hex::encode(alloc, bytes),
        Reader::Text(_)
        | Reader::Struct(_)
        | Reader::List(_)
        | Reader::AnyPointer(_)
        | Reader::Capability(_) => Ok(String::new(alloc)),
    }
}

/// Returns the cell of a column in the row of a struct: a text as it is, data in hex, nothing if
/// the message has no such value.
pub fn cell<A: ReaderArena>(
    alloc: Global,
    column: &Column,
    root: dynamic_struct::Reader<'_, A>,
) -> Result<Vec<u8>, RowFault> {
    match value_along(root, &column.hops)? {
        Some(Reader::Text(text::Reader(bytes))) => Ok(bytes.to_vec(alloc)?),
        Some(value) => Ok(single_text(alloc, value, column.is_float)?.into_bytes()),
        None => Ok(Vec::new(alloc)),
    }
}
