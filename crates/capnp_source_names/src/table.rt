//! The table of all entries.

use crate::builtins::{Builtin, NAMES, builtin_of};
use crate::entries::{Entry, Kind, given_name, kind_of, parameters_of};
use crate::hints::Hint;
use crate::problems::{Problems, Stop};
use crate::sources::Loaded;
use capnp_source_ids::ids::child_id;
use capnp_source_syntax::tree::{Declaration, Span};
use std::alloc::{AllocError, Global};
use std::collections::HashMap;

/// The largest number of scopes around an entry. The syntax allows 64 levels of declarations.
const MOST_SCOPES: usize = 80;

/// All entries of all files. Each file is the entry of its own index.
#[derive(Drop)]
pub struct Table<'a> {
    pub alloc: Global,
    pub files: &'a [Loaded],
    pub entries: Vec<Entry<'a>>,
    by_name: HashMap<(usize, &'a str), usize>,
    by_id: HashMap<u64, usize>,
}

/// The thing that a name leads to.
#[derive(Clone, Copy, Debug, PartialEq, Eq)]
pub enum Found {
    /// An entry by its index, and the scope in which it has the name.
    Entry { entry: usize, scope: usize },
    /// A type parameter of the entry `scope`, by its place.
    Parameter { scope: usize, index: usize },
    Builtin(Builtin),
}

/// Returns the bytes of a file's name before its ending.
fn file_prefix(name: &str) -> usize {
    let mut prefix = 0;
    let mut at: usize = 0;
    for byte in name.as_bytes() {
        at = at.saturating_add(1);
        if *byte == b'.' || *byte == b':' {
            prefix = at;
        }
    }
    prefix
}

/// Returns an id for a file that has none, as a suggestion.
fn suggested_id(file: &Loaded) -> u64 {
    let mut id = child_id(0, file.name.as_str().as_bytes());
    for declaration in &file.file.declarations {
        if let Some(name) = given_name(declaration) {
            id = child_id(id, name.text.as_str().as_bytes());
        }
    }
    id
}

impl<'a> Table<'a> {
    /// Returns what files declare. What is wrong with names and ids is noted.
    pub fn new(
        alloc: Global,
        files: &'a [Loaded],
        problems: &mut Problems,
    ) -> Result<Table<'a>, Stop> {
        let mut table = Table {
            alloc,
            files,
            entries: Vec::new(alloc),
            by_name: HashMap::new(alloc),
            by_id: HashMap::new(alloc),
        };
        for (number, file) in files.iter().enumerate() {
            let entry = table.file_entry(number, file, problems)?;
            table.add(entry, problems)?;
        }
        for (number, file) in files.iter().enumerate() {
            for declaration in &file.file.declarations {
                declare(declaration, &mut table, problems, number)?;
            }
        }
        Ok(table)
    }

    /// Returns an entry by its index.
    pub fn entry(&self, index: usize) -> Option<&Entry<'a>> {
        self.entries.get(index)
    }

    /// Returns the entry with an id.
    pub fn with_id(&self, id: u64) -> Option<usize> {
        self.by_id.get(&id).copied()
    }

    /// Returns the file in which an entry is.
    pub fn file_of(&self, index: usize) -> usize {
        match self.entries.get(index) {
            Some(entry) => entry.file,
            None => 0,
        }
    }

    /// Returns the id of an entry.
    pub fn id_of(&self, index: usize) -> u64 {
        match self.entries.get(index) {
            Some(entry) => entry.id,
            None => 0,
        }
    }

    /// Returns the scope around an entry.
    pub fn scope_of(&self, index: usize) -> Option<usize> {
        match self.entries.get(index) {
            Some(entry) => entry.scope,
            None => None,
        }
    }

    /// Returns the entry of a file, whose id is suggested if it has none.
    fn file_entry(
        &self,
        number: usize,
        file: &'a Loaded,
        problems: &mut Problems,
    ) -> Result<Entry<'a>, Stop> {
        let start = Span { start: 0, end: 0 };
        let (id, span) = match &file.file.id {
            Some(number) => (number.value, number.span),
            None => {
                let id = suggested_id(file);
                let text = format!(in self.alloc;
                    "the file has no id (write `@0x{id:016x};` as its first line)"
                )?;
                problems.tell(number, start, text)?;
                (id, start)
            }
        };
        Ok(Entry {
            kind: Kind::File,
            file: number,
            scope: None,
            name: "",
            span,
            id,
            display_name: String::from_str(self.alloc, &file.name)?,
            prefix_length: file_prefix(&file.name),
            parameters: &[],
            is_generic: false,
            children: Vec::new(self.alloc),
            annotations: &file.file.annotations,
            declaration: None,
        })
    }

    /// Adds an entry under its id and its name, and returns its index.
    fn add(&mut self, entry: Entry<'a>, problems: &mut Problems) -> Result<usize, Stop> {
        let index = self.entries.len();
        let id = entry.id;
        if entry.kind != Kind::Alias {
            if self.by_id.contains_key(&id) {
                let text = format!(in self.alloc;
                    "the id @0x{id:016x} is taken already (write another id)"
                )?;
                problems.tell(entry.file, entry.span, text)?;
            } else {
                self.by_id.insert(id, index)?;
            }
        }
        if let Some(scope) = entry.scope {
            let name = entry.name;
            if !self.by_name.contains_key(&(scope, name)) {
                self.by_name.insert((scope, name), index)?;
            }
            if let Some(around) = self.entries.get_mut(scope) {
                around.children.push(index)?;
            }
        }
        self.entries.push(entry)?;
        Ok(index)
    }

    /// Returns what has a name in an entry.
    pub fn member(&self, scope: usize, name: &str) -> Option<usize> {
        self.by_name.get(&(scope, name)).copied()
    }

    /// Returns the place of a type parameter of an entry.
    fn parameter(&self, scope: usize, name: &str) -> Option<usize> {
        let entry = self.entries.get(scope)?;
        entry
            .parameters
            .iter()
            .position(|p| p.text.as_str() == name)
    }

    /// Returns what a name means in a scope: what is declared in that scope or, if nothing is, in
    /// the scopes around it, from the inside out.
    pub fn lookup(&self, scope: usize, name: &str) -> Option<Found> {
        let mut around = Some(scope);
        for _ in 0..MOST_SCOPES {
            let Some(scope) = around else {
                break;
            };
            if let Some(entry) = self.member(scope, name) {
                return Some(Found::Entry { entry, scope });
            }
            if let Some(index) = self.parameter(scope, name) {
                return Some(Found::Parameter { scope, index });
            }
            around = self.scope_of(scope);
        }
        match builtin_of(name) {
            Some(builtin) => Some(Found::Builtin(builtin)),
            None => None,
        }
    }

    /// Returns the file that a file imports under a path.
    pub fn imported(&self, file: usize, path: &[u8]) -> Option<usize> {
        let file = self.files.get(file)?;
        for import in &file.imports {
            if import.path.as_slice() == path && import.file < self.files.len() {
                return Some(import.file);
            }
        }
        None
    }

    /// Compares the names that are declared in an entry.
    fn compare_members<'h>(&'h self, scope: usize, hint: &mut Hint<'h>) -> Result<(), AllocError> {
        let Some(entry) = self.entries.get(scope) else {
            return Ok(());
        };
        for child in &entry.children {
            if let Some(child) = self.entries.get(*child) {
                hint.compare(child.name)?;
            }
        }
        for parameter in entry.parameters {
            hint.compare(parameter.text.as_str())?;
        }
        Ok(())
    }

    /// Returns a name in an entry that is close to an unknown name.
    pub fn close_member<'h>(
        &'h self,
        scope: usize,
        name: &'h str,
    ) -> Result<Option<&'h str>, AllocError> {
        let mut hint = Hint::new(self.alloc, name);
        self.compare_members(scope, &mut hint)?;
        Ok(hint.closest())
    }

    /// Returns a name known in a scope that is close to an unknown name.
    pub fn close_name<'h>(
        &'h self,
        scope: usize,
        name: &'h str,
    ) -> Result<Option<&'h str>, AllocError> {
        let mut hint = Hint::new(self.alloc, name);
        let mut around = Some(scope);
        for _ in 0..MOST_SCOPES {
            let Some(scope) = around else {
                break;
            };
            self.compare_members(scope, &mut hint)?;
            around = self.scope_of(scope);
        }
        for name in NAMES {
            hint.compare(name)?;
        }
        Ok(hint.closest())
    }
}

/// Returns the entry of a declaration in a scope.
fn entry_of<'a>(
    declaration: &'a Declaration,
    table: &Table<'a>,
    kind: Kind,
    scope: usize,
) -> Result<Option<Entry<'a>>, Stop> {
    let Some(name) = given_name(declaration) else {
        return Ok(None);
    };
    let Some(around) = table.entries.get(scope) else {
        return Ok(None);
    };
    let text = name.text.as_str();
    let id = match &declaration.id {
        Some(number) => number.value,
        None => child_id(around.id, text.as_bytes()),
    };
    let around_name = around.display_name.as_str();
    let display_name = if around.kind == Kind::File {
        format!(in table.alloc; "{around_name}:{text}")?
    } else {
        format!(in table.alloc; "{around_name}.{text}")?
    };
    let parameters = parameters_of(&declaration.body);
    Ok(Some(Entry {
        kind,
        file: around.file,
        scope: Some(scope),
        name: text,
        span: name.span,
        id,
        prefix_length: display_name.len().saturating_sub(text.len()),
        display_name,
        parameters,
        is_generic: around.is_generic || !parameters.is_empty(),
        children: Vec::new(table.alloc),
        annotations: &declaration.annotations,
        declaration: Some(declaration),
    }))
}

/// Adds a declaration and what is declared in it.
fn declare<'a>(
    declaration: &'a Declaration,
    table: &mut Table<'a>,
    problems: &mut Problems,
    scope: usize,
) -> Result<(), Stop> {
    let Some(kind) = kind_of(&declaration.body) else {
        return Ok(());
    };
    let Some(entry) = entry_of(declaration, table, kind, scope)? else {
        return Ok(());
    };
    let index = table.add(entry, problems)?;
    for member in &declaration.members {
        declare(member, table, problems, index)?;
    }
    Ok(())
}
