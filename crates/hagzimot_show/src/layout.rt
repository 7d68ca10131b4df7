//! Layouts of values, and spellings of single ones.

use capnp_relay_requests::request::FloatField;
use capnp_units::errors::Error;
use capnp_values_queries::fields::Field;
use std::alloc::Global;
use std::fmt::{Display, Write};

/// The layout of values.
#[derive(Clone, Copy, Debug, PartialEq, Eq)]
pub enum Layout {
    /// Text on one line.
    Line,
    /// Text with each item on a line of its own, after two blanks for each level.
    Pretty,
    /// JSON on one line.
    Json,
}

/// The spelling of single values in text.
#[derive(Clone, Copy, Debug, PartialEq, Eq)]
pub enum Spelling {
    /// The spelling of the relay's log.
    Hagzimot,
    /// The spelling of the C++ tool `capnp`, which reads it back.
    Capnp,
}

/// A field, by the id of its struct's node and its index.
#[derive(Clone, Copy, Debug, PartialEq, Eq)]
pub(crate) struct FieldKey {
    node: u64,
    index: u16,
}

impl FieldKey {
    /// Returns the key of a field.
    pub(crate) fn of(field: Field<'_>) -> FieldKey {
        FieldKey {
            node: field.parent().get_proto().id,
            index: field.get_index(),
        }
    }
}

/// Appends something to a text.
pub(crate) fn put<T: Display + Drop>(out: &mut String, part: T) -> Result<(), Error> {
    write!(out, "{part}")?;
    Ok(())
}

/// A layout, the spelling of single values, and the fields that are floats.
#[derive(Clone, Copy)]
pub(crate) struct Style<'a> {
    pub(crate) alloc: Global,
    pub(crate) layout: Layout,
    pub(crate) spelling: Spelling,
    pub(crate) floats: &'a [FloatField],
}

/// The marks around the items of a struct or a list.
#[derive(Clone, Copy)]
pub(crate) struct Marks {
    pub(crate) open: &'static str,
    pub(crate) close: &'static str,
}

impl Style<'_> {
    /// Tests whether a field is a float, or lists of floats.
    pub(crate) fn is_float(&self, field: Field<'_>) -> bool {
        let node = field.parent().get_proto().id;
        let index = field.get_index() as u32;
        self.floats
            .iter()
            .any(|float| float.node == node && float.index == index)
    }

    /// Returns the marks of structs.
    pub(crate) fn struct_marks(&self) -> Marks {
        match self.layout {
            Layout::Json => Marks {
                open: "{",
                close: "}",
            },
            Layout::Line | Layout::Pretty => Marks {
                open: "(",
                close: ")",
            },
        }
    }

    /// Begins a line of a level, if items have lines of their own.
    pub(crate) fn put_line(&self, out: &mut String, level: u32) -> Result<(), Error> {
        if self.layout != Layout::Pretty {
            return Ok(());
        }
        put(out, '\n')?;
        for _ in 0..level {
            put(out, "  ")?;
        }
        Ok(())
    }

    /// Begins an item of a level, after a comma unless it is the first.
    pub(crate) fn put_item(
        &self,
        out: &mut String,
        is_first: bool,
        level: u32,
    ) -> Result<(), Error> {
        if !is_first {
            put(
                out,
                if self.layout == Layout::Line {
                    ", "
                } else {
                    ","
                },
            )?;
        }
        self.put_line(out, level)
    }
}
