//! The struct that the arguments name as the root of messages.
ghost use Rattle.std.specs.Prelude.{◌≡◌, ◌&&◌, [], ◌∷◌, map, IfOk, IfErr};
ghost use Rattle.hagzimot_schemas.specs.Roots.{names_view, names_exactly, names_last, with_id, roots_named, has_no_scope, structs_where, IsRootRefusal};

use crate::names::{NodeName, NodeSort, names_exactly, names_last};
use std::alloc::{AllocError, AllocFailed, Global};
use std::fmt;
use std::fmt::{Display, Formatter, Write};
use strsim::osa_distance;

/// The reason for which there is no root.
#[derive(Debug, Drop)]
pub enum RootTrouble {
    /// The word names several structs, which `structs` lists.
    Ambiguous {
        word: String,
        structs: String,
    },
    /// The word doesn't name a node. `nearest` is the nearest name of a struct, if one is near.
    Unknown {
        word: String,
        nearest: Option<String>,
    },
    /// The word names nodes, but not a struct. `sort` is that of the first node.
    NoStruct {
        word: String,
        sort: NodeSort,
    },
    /// There is no word, and the schema doesn't have one struct at its top. `structs` lists those
    /// that it has.
    NoSingle {
        structs: String,
    },
    /// An allocation was refused.
    Memory,
}

impl From<AllocError> for RootTrouble {
    ghost use Rattle.std.specs.Prelude.{◌≡◌};
    ghost use Rattle.hagzimot_schemas.specs.declared.roots.RootTrouble.{RootTrouble};

    ghost from_gives = { λ _ e. e ≡ RootTrouble.Memory };

    fn from(_e: AllocError) -> RootTrouble {
        RootTrouble::Memory
    }
}

/// Returns the noun of a sort of nodes.
fn sort_text(sort: NodeSort) -> &'static str {
    match sort {
        NodeSort::Struct => "a struct",
        NodeSort::Group => "a group",
        NodeSort::Enum => "an enum",
    }
}

impl Display for RootTrouble {
    fn fmt<W: Write>(&self, f: &mut Formatter<W>) -> fmt::Result {
        match self {
            RootTrouble::Ambiguous { word, structs } => {
                write!(f, "\"{word}\" is ambiguous: {structs}")
            }
            RootTrouble::Unknown { word, nearest } => {
                write!(f, "no struct \"{word}\"")?;
                match nearest {
                    Some(nearest) => write!(f, "; did you mean \"{nearest}\"?"),
                    None => Ok(()),
                }
            }
            RootTrouble::NoStruct { word, sort } => {
                let sort = sort_text(*sort);
                write!(f, "\"{word}\" is {sort}; the root of a message is a struct")
            }
            RootTrouble::NoSingle { structs } => {
                f.write_str("name the root with --root")?;
                if structs.is_empty() {
                    return f.write_str(": the schema has no struct at its top");
                }
                write!(f, ": the schema has {structs}")
            }
            RootTrouble::Memory => f.write_str("there is no memory for it"),
        }
    }
}

/// Tests whether another node has the same path.
fn has_twin(names: &[NodeName], name: &NodeName) -> bool {
    names
        .iter()
        .any(|other| other.id != name.id && other.path == name.path)
}

/// Returns the names and ids of the nodes of these ids, with commas between them.
fn told(alloc: Global, names: &[NodeName], ids: &[u64]) -> Result<String, AllocError> {
    let mut text = String::new(alloc);
    for name in names {
        let id = name.id;
        if ids.contains(&id) {
            if !text.is_empty() {
                text.push_str(", ")?;
            }
            let shown = if has_twin(names, name) {
                name.whole.as_str()
            } else {
                name.path.as_str()
            };
            let each = format!(in alloc; "{shown} (0x{id:016x})")?;
            text.push_str(each.as_str())?;
        }
    }
    Ok(text)
}

/// Tests whether a node is a struct that is not a group.
fn is_struct(name: &NodeName) -> bool
    ensures { result ≡ (names_view name.now).is_struct }
{
    matches!(name.sort, NodeSort::Struct)
}

/// Appends an id to others, if a test accepted it.
fn push_if(ids: &mut Vec<u64>, id: u64, is_taken: bool) -> Result<(), AllocError>
    ensures { IfOk result (λ _. ids.new.items ≡ with_id ids.old.items id is_taken) }
{
    if is_taken {
        ids.push(id)?;
    }
    Ok(())
}

/// Tests whether a word names a struct exactly.
fn is_exact(word: &[u8], name: &NodeName) -> bool
    ensures { let n = names_view name.now in result ≡ (n.is_struct && names_exactly word.now n) }
{
    is_struct(name) && names_exactly(word, name)
}

/// Tests whether a word is the last part of a struct's path.
fn is_last(word: &[u8], name: &NodeName) -> bool
    ensures { let n = names_view name.now in result ≡ (n.is_struct && names_last word.now n) }
{
    is_struct(name) && names_last(word, name)
}

/// Returns the ids of the structs that a word names: those that it names exactly or, if there
/// aren't any, those whose path has the word as its last part.
fn structs_named(alloc: Global, names: &[NodeName], word: &[u8]) -> Result<Vec<u64>, AllocError>
    ensures { IfOk result (λ ids. ids.items ≡ roots_named word.now (map names_view names.now)) }
{
    let mut exact = Vec::new(alloc);
    let mut last = Vec::new(alloc);
    let mut left = names;
    while let [name, others @ ..] = left {
        push_if(&mut exact, name.id, is_exact(word, name))?;
        push_if(&mut last, name.id, is_last(word, name))?;
        left = others;
    }
    if exact.is_empty() {
        Ok(last)
    } else {
        Ok(exact)
    }
}

/// Returns the last part of a path.
fn last_name(path: &str) -> &str {
    match path.rsplit_once('.') {
        Some((_, name)) => name,
        None => path,
    }
}

/// Returns the path of the struct that is nearest to a word. With `by_last`, only the last part of
/// the path is compared. At most a third of the word's letters, and one more, may differ.
fn nearest_path<'a>(
    alloc: Global,
    names: &'a [NodeName],
    word: &str,
    by_last: bool,
) -> Result<Option<&'a str>, AllocError> {
    let mut nearest = None;
    let mut least = word.len() / 3 + 2;
    for name in names {
        if is_struct(name) {
            let path = name.path.as_str();
            let text = if by_last { last_name(path) } else { path };
            let distance = osa_distance(alloc, text, word)?;
            if distance < least {
                least = distance;
                nearest = Some(path);
            }
        }
    }
    Ok(nearest)
}

/// Returns the path of the struct that is nearest to a word, if one is near.
fn nearest(alloc: Global, names: &[NodeName], word: &str) -> Result<Option<String>, AllocError> {
    let by_path = nearest_path(alloc, names, word, false)?;
    let near = match by_path {
        Some(path) => Some(path),
        None => nearest_path(alloc, names, word, true)?,
    };
    match near {
        Some(path) => Ok(Some(String::from_str(alloc, path)?)),
        None => Ok(None),
    }
}

/// Returns the sort of the first node that a word names.
fn sort_named(names: &[NodeName], word: &[u8]) -> Option<NodeSort> {
    for name in names {
        if names_exactly(word, name) || names_last(word, name) {
            return Some(name.sort);
        }
    }
    None
}

/// Returns the reason for which a word doesn't name a struct.
fn unknown(alloc: Global, names: &[NodeName], word: &str) -> Result<RootTrouble, AllocError>
    ensures { IfOk result (IsRootRefusal []) }
{
    let text = String::from_str(alloc, word)?;
    if let Some(sort) = sort_named(names, word.as_bytes()) {
        return Ok(RootTrouble::NoStruct { word: text, sort });
    }
    Ok(RootTrouble::Unknown {
        word: text,
        nearest: nearest(alloc, names, word)?,
    })
}

/// Returns the id of the struct that a word names.
pub fn root_named(alloc: Global, names: &[NodeName], word: &str) -> Result<u64, RootTrouble>
    ensures named { IfOk result (λ id. roots_named word.now (map names_view names.now) ≡ id ∷ []) }
    ensures refused { IfErr result (IsRootRefusal
        (roots_named word.now (map names_view names.now))) }
{
    let structs = structs_named(alloc, names, word.as_bytes())?;
    match structs.as_slice() {
        [one] => Ok(*one),
        [] => Err(unknown(alloc, names, word)?),
        several => Err(RootTrouble::Ambiguous {
            word: String::from_str(alloc, word)?,
            structs: told(alloc, names, several)?,
        }),
    }
}

/// Returns the one struct at the top of a schema.
pub fn single_root(
    alloc: Global,
    names: &[NodeName],
    top_structs: &[u64],
) -> Result<u64, RootTrouble>
    ensures { IfOk result (λ id. top_structs.now ≡ id ∷ []) }
{
    match top_structs {
        [one] => Ok(*one),
        several => Err(RootTrouble::NoSingle {
            structs: told(alloc, names, several)?,
        }),
    }
}

/// Tests whether a node is a struct whose path has no scope and no arguments.
fn is_unscoped(name: &NodeName) -> bool
    ensures { let n = names_view name.now in result ≡ (n.is_struct && has_no_scope n) }
{
    let path = name.path.as_bytes();
    is_struct(name) && !path.contains(&b'.') && !path.contains(&b'(')
}

/// Returns the structs whose paths have no scope and no arguments: those at the top of a schema
/// file.
pub fn unscoped(alloc: Global, names: &[NodeName]) -> Result<Vec<u64>, AllocError>
    ensures { IfOk result (λ ids. ids.items
        ≡ structs_where has_no_scope (map names_view names.now)) }
{
    let mut ids = Vec::new(alloc);
    let mut left = names;
    while let [name, others @ ..] = left {
        push_if(&mut ids, name.id, is_unscoped(name))?;
        left = others;
    }
    Ok(ids)
}
