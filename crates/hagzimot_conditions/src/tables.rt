//! Rows of tables.

use csv::WriterBuilder;
use std::alloc::{AllocError, Global};

/// The form of a row.
#[derive(Clone, Copy, Debug, PartialEq, Eq)]
pub enum TableForm {
    /// Cells with tabs between them. In a cell a tab, a line feed, a carriage return and a backslash
    /// are written `\t`, `\n`, `\r` and `\\`.
    Tabs,
    /// Cells with commas between them, in double quotes where they need them.
    Commas,
}

/// Adds a cell, with what would end it escaped.
fn push_escaped(row: &mut Vec<u8>, cell: &[u8]) -> Result<(), AllocError> {
    for byte in cell {
        match *byte {
            b'\t' => row.extend_from_slice(b"\\t")?,
            b'\n' => row.extend_from_slice(b"\\n")?,
            b'\r' => row.extend_from_slice(b"\\r")?,
            b'\\' => row.extend_from_slice(b"\\\\")?,
            other => row.push(other)?,
        }
    }
    Ok(())
}

/// Returns a row of cells with tabs between them.
fn tabbed(alloc: Global, cells: &[Vec<u8>]) -> Result<Vec<u8>, AllocError> {
    let mut row = Vec::new(alloc);
    let mut is_first = true;
    for cell in cells {
        if !is_first {
            row.push(b'\t')?;
        }
        is_first = false;
        push_escaped(&mut row, cell)?;
    }
    row.push(b'\n')?;
    Ok(row)
}

/// Returns a row of cells with commas between them.
fn with_commas(alloc: Global, cells: &[Vec<u8>]) -> Result<Vec<u8>, AllocError> {
    let mut fields = Vec::new(alloc);
    for cell in cells {
        fields.push(cell.as_slice())?;
    }
    let mut writer = WriterBuilder::new().from_writer(Vec::new(alloc));
    // A vector takes each write that there is memory for.
    if writer.write_fields(&fields).is_err() {
        return Err(AllocError);
    }
    match writer.into_inner() {
        Ok(row) => Ok(row),
        Err(_) => Err(AllocError),
    }
}

/// Returns a row of cells, with its line feed.
pub fn row(alloc: Global, form: TableForm, cells: &[Vec<u8>]) -> Result<Vec<u8>, AllocError> {
    match form {
        TableForm::Tabs => tabbed(alloc, cells),
        TableForm::Commas => with_commas(alloc, cells),
    }
}
