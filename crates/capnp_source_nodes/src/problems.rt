//! Mistakes in a schema source beyond its syntax.

/// Something wrong, and where: from one byte of a file up to another.
#[derive(Debug, Drop)]
pub struct Problem {
    /// The file, by its place in the list of files that are compiled.
    pub file: usize,
    pub start: usize,
    pub end: usize,
    /// The mistake, and in parentheses what to do.
    pub text: String,
}
