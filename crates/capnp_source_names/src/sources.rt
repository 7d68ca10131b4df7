//! The files that are compiled together.

use capnp_source_syntax::source_file::SourceFile;
use capnp_source_syntax::tree::Span;

/// A file that is compiled, with the files that it refers to.
#[derive(Debug, Drop)]
pub struct Loaded {
    /// The name that display names begin with.
    pub name: String,
    pub file: SourceFile,
    /// Whether the file was asked for. Other files are only imported.
    pub is_requested: bool,
    pub imports: Vec<Imported>,
    pub embeds: Vec<Embedded>,
}

/// A file that another file imports.
#[derive(Debug, Drop)]
pub struct Imported {
    /// The text of the import.
    pub path: Vec<u8>,
    /// The imported file, by its place in the list of files.
    pub file: usize,
}

/// A file whose bytes are a value.
#[derive(Debug, Drop)]
pub struct Embedded {
    /// The text of the `embed`.
    pub path: Vec<u8>,
    pub bytes: Vec<u8>,
}

/// A file that another file refers to.
#[derive(Debug, Drop)]
pub struct Reference {
    /// The text of the import or `embed`.
    pub path: Vec<u8>,
    /// Whether the bytes of the file are a value. Otherwise its declarations are imported.
    pub is_embed: bool,
    pub span: Span,
}
