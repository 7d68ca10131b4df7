//! Names that are close to an unknown one.

use std::alloc::{AllocError, Global};
use strsim::osa_distance;

/// The longest name that is compared.
const LONGEST: usize = 64;

/// The largest number of names that are compared with one.
const MOST_NAMES: usize = 5000;

/// The closest name so far.
#[derive(Drop)]
pub struct Hint<'a> {
    alloc: Global,
    wanted: &'a str,
    best: Option<(&'a str, usize)>,
    /// The number of names that are still compared.
    left: usize,
}

impl<'a> Hint<'a> {
    /// Returns a search for names that are close to one.
    pub fn new(alloc: Global, wanted: &'a str) -> Hint<'a> {
        Hint {
            alloc,
            wanted,
            best: None,
            left: MOST_NAMES,
        }
    }

    /// Compares a name.
    pub fn compare(&mut self, name: &'a str) -> Result<(), AllocError> {
        if name.len() > LONGEST || self.wanted.len() > LONGEST || self.left == 0 {
            return Ok(());
        }
        self.left -= 1;
        let distance = osa_distance(self.alloc, self.wanted, name)?;
        let most = match self.best {
            Some((_, least)) => least.saturating_sub(1),
            None => name.len().min(self.wanted.len()).min(6) / 3 + 1,
        };
        if distance > 0 && distance <= most && distance < name.len() {
            self.best = Some((name, distance));
        }
        Ok(())
    }

    /// Returns the closest name, if one is close.
    pub fn closest(&self) -> Option<&'a str> {
        match self.best {
            Some((name, _)) => Some(name),
            None => None,
        }
    }
}
