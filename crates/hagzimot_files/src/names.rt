//! The parts of a path, and the names of drafts.
ghost use Rattle.std.specs.Prelude.{string_bytes, IfOk};
ghost use Rattle.hagzimot_files.specs.Names.{SplitsPath, IsFolderOf, IsDraftOf, LinkLeadsTo};

use std::alloc::{AllocError, Global};

/// The most bytes of a name that its draft's name repeats: the system takes names of 255 bytes.
const MOST_BYTES: usize = 180;

/// The folder of a path and the name in it. The folder ends with a slash, or is empty.
pub fn split_path(path: &str) -> (&str, &str)
    ensures { SplitsPath path.now result.0.now result.1.now }
{
    match path.rfind('/') {
        Some(at) => path.split_at(at + 1),
        None => ("", path),
    }
}

/// The folder of a path, as a path.
pub fn folder_of(path: &str) -> &str
    ensures { IsFolderOf path.now result.now }
{
    match path.rfind('/') {
        Some(0) => "/",
        Some(at) => path.split_at(at).0,
        None => ".",
    }
}

/// The path of a draft of the file at a path: a hidden name of its own in the same folder, with
/// the number of the process and of the try.
pub fn draft_path(
    alloc: Global,
    path: &str,
    process: u32,
    number: u32,
) -> Result<String, AllocError>
    ensures { IfOk result (λ s. IsDraftOf path.now process number (string_bytes s)) }
{
    let (folder, name) = split_path(path);
    let name = if name.len() <= MOST_BYTES { name } else { "" };
    Ok(format!(in alloc; "{folder}.{name}.hagzimot-{process}-{number}")?)
}

/// The path to which a symbolic link at a path leads in one step.
pub fn linked_path(alloc: Global, path: &str, link: &str) -> Result<String, AllocError>
    ensures { IfOk result (λ s. LinkLeadsTo path.now link.now (string_bytes s)) }
{
    if link.starts_with('/') {
        return String::from_str(alloc, link);
    }
    let (folder, _) = split_path(path);
    Ok(format!(in alloc; "{folder}{link}")?)
}
