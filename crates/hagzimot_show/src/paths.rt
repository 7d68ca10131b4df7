//! Paths to places in messages, as people read them.

use std::alloc::{AllocError, Global};

/// A part of a path.
#[derive(Clone, Copy, Debug, PartialEq, Eq)]
pub(crate) enum Part<'a> {
    /// A field of a struct or a group, by its name.
    Field(&'a str),
    /// An element of a list.
    Index(u32),
    /// A pointer of a struct, for which the schema has no field.
    Pointer(u32),
}

/// Writes a name of a schema. A control character is a question mark, since a name with a line feed
/// could pass for another line.
fn put_name(out: &mut String, name: &str) -> Result<(), AllocError> {
    for c in name.chars() {
        out.push(if c.is_control() { '?' } else { c })?;
    }
    Ok(())
}

/// Writes a part of a path; `is_first` says whether it is the first one.
fn put_part(out: &mut String, part: Part<'_>, is_first: bool) -> Result<(), AllocError> {
    match part {
        Part::Field(name) => {
            out.push_str(if is_first { "" } else { "." })?;
            put_name(out, name)
        }
        Part::Index(index) => {
            out.push_str(if is_first { "root" } else { "" })?;
            write!(out, "[{index}]")
        }
        Part::Pointer(index) => {
            out.push_str(if is_first { "root" } else { "" })?;
            write!(out, ".ptr[{index}]")
        }
    }
}

/// Returns the text of a path, such as `lines[3].article` or `root.ptr[0][3]`; `root` if it has no
/// part.
pub(crate) fn path_text(alloc: Global, parts: &[Part<'_>]) -> Result<String, AllocError> {
    let mut text = String::new(alloc);
    if parts.is_empty() {
        text.push_str("root")?;
    }
    for (i, part) in parts.iter().enumerate() {
        put_part(&mut text, *part, i == 0)?;
    }
    Ok(text)
}

/// Returns a name of a schema as a line of a log has it.
pub(crate) fn name_text(alloc: Global, name: &str) -> Result<String, AllocError> {
    let mut text = String::new(alloc);
    put_name(&mut text, name)?;
    Ok(text)
}
