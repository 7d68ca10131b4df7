//! Differences of JSON values.

use serde_json::Value as Json;
use std::alloc::{AllocError, AllocFailed, Global};
use std::fmt;
use std::fmt::{Display, Formatter, Write};

/// A place at which two values differ.
#[derive(Debug, Drop)]
pub struct Difference {
    /// The path to the place, as `customer.name` or `lines[0].count`; empty at the whole value.
    pub path: String,
    /// The JSON of the first value; `None` if it is absent there.
    pub left: Option<String>,
    /// The JSON of the second value; `None` if it is absent there.
    pub right: Option<String>,
}

impl Display for Difference {
    fn fmt<W: Write>(&self, f: &mut Formatter<W>) -> fmt::Result {
        let path = self.path.as_str();
        if !path.is_empty() {
            write!(f, "{path}: ")?;
        }
        match &self.left {
            Some(left) => write!(f, "{left}")?,
            None => write!(f, "absent")?,
        }
        match &self.right {
            Some(right) => write!(f, " -> {right}"),
            None => write!(f, " -> absent"),
        }
    }
}

/// The differences that were found so far.
#[derive(Debug, Drop)]
pub struct Differences {
    alloc: Global,
    pub found: Vec<Difference>,
}

/// An allocation was refused.
#[derive(Clone, Copy, Debug, PartialEq, Eq)]
pub struct NoMemory;

impl From<AllocError> for NoMemory {
    fn from(_e: AllocError) -> NoMemory {
        NoMemory
    }
}

impl<T: Drop> From<AllocFailed<T>> for NoMemory {
    fn from(_e: AllocFailed<T>) -> NoMemory {
        NoMemory
    }
}

/// The most objects and arrays within one another. JSON is read no deeper.
const MOST_LEVELS: u32 = 128;

/// Returns the differences of two values: objects are compared name by name and arrays index by
/// index, and the paths are those of the innermost values that differ.
pub fn list_differences(
    alloc: Global,
    left: &Json,
    right: &Json,
) -> Result<Vec<Difference>, NoMemory> {
    let mut all = Differences {
        alloc,
        found: Vec::new(alloc),
    };
    all.compare("", Some(left), Some(right), MOST_LEVELS)?;
    Ok(all.found)
}

impl Differences {
    /// Returns the JSON of a value.
    fn text(&self, json: Option<&Json>) -> Result<Option<String>, AllocError> {
        match json {
            Some(json) => Ok(Some(json.to_string(self.alloc)?)),
            None => Ok(None),
        }
    }

    /// Adds the place at a path, with both values.
    fn add(
        &mut self,
        path: &str,
        left: Option<&Json>,
        right: Option<&Json>,
    ) -> Result<(), NoMemory> {
        let difference = Difference {
            path: String::from_str(self.alloc, path)?,
            left: self.text(left)?,
            right: self.text(right)?,
        };
        self.found.push(difference)?;
        Ok(())
    }

    /// Compares the values at a path.
    #[cycle(compare)]
    fn compare(
        &mut self,
        path: &str,
        left: Option<&Json>,
        right: Option<&Json>,
        levels: u32,
    ) -> Result<(), NoMemory> {
        if left == right {
            return Ok(());
        }
        if levels == 0 {
            return self.add(path, left, right);
        }
        match (left, right) {
            (Some(Json::Object(_)), Some(Json::Object(_))) => {
                self.compare_objects(path, left, right, levels - 1)
            }
            (Some(Json::Array(x)), Some(Json::Array(y))) => {
                self.compare_arrays(path, x, y, levels - 1)
            }
            _ => self.add(path, left, right),
        }
    }

    /// Compares two objects name by name.
    #[cycle(compare)]
    fn compare_objects(
        &mut self,
        path: &str,
        left: Option<&Json>,
        right: Option<&Json>,
        levels: u32,
    ) -> Result<(), NoMemory> {
        let (Some(Json::Object(x)), Some(Json::Object(y))) = (left, right) else {
            return Ok(());
        };
        for (name, value) in x.iter() {
            let inner = self.path_of(path, name.as_str())?;
            self.compare(inner.as_str(), Some(value), y.get(name.as_str()), levels)?;
        }
        for (name, value) in y.iter() {
            if x.get(name.as_str()).is_none() {
                let inner = self.path_of(path, name.as_str())?;
                self.compare(inner.as_str(), None, Some(value), levels)?;
            }
        }
        Ok(())
    }

    /// Compares two arrays index by index.
    #[cycle(compare)]
    fn compare_arrays(
        &mut self,
        path: &str,
        x: &[Json],
        y: &[Json],
        levels: u32,
    ) -> Result<(), NoMemory> {
        for index in 0..x.len().max(y.len()) {
            let inner = format!(in self.alloc; "{path}[{index}]")?;
            self.compare(inner.as_str(), x.get(index), y.get(index), levels)?;
        }
        Ok(())
    }

    /// Returns the path of a member of the object at a path.
    fn path_of(&self, path: &str, name: &str) -> Result<String, AllocError> {
        if path.is_empty() {
            return String::from_str(self.alloc, name);
        }
        format!(in self.alloc; "{path}.{name}")
    }
}
