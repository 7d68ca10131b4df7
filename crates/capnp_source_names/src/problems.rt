//! Problems, as they are found and collected.

use capnp_source_nodes::problems::Problem;
use capnp_source_syntax::tree::Span;
use std::alloc::{AllocError, AllocFailed, Global};

/// The largest number of problems that are reported.
const MOST_PROBLEMS: usize = 100;

/// Why a part of a source isn't compiled.
#[derive(Debug, Drop)]
pub enum Stop {
    /// Something is wrong with the part.
    Wrong(Problem),
    /// Something else is wrong that the part needs, and that is reported already.
    Known,
    /// The entry with this index has to be resolved first.
    Pending(usize),
    /// The largest number of problems is reported.
    Enough,
    /// An allocation was refused.
    Memory,
}

impl From<AllocError> for Stop {
    fn from(_e: AllocError) -> Stop {
        Stop::Memory
    }
}

impl<T: Drop> From<AllocFailed<T>> for Stop {
    fn from(_e: AllocFailed<T>) -> Stop {
        Stop::Memory
    }
}

/// Returns a problem in a file.
pub fn wrong(file: usize, span: Span, text: String) -> Stop {
    Stop::Wrong(Problem {
        file,
        start: span.start,
        end: span.end,
        text,
    })
}

/// The problems that are found.
#[derive(Debug, Drop)]
pub struct Problems {
    list: Vec<Problem>,
    /// Whether a part is left out, which is so only if a problem is noted.
    is_partial: bool,
}

impl Problems {
    /// Returns no problems.
    pub fn new(alloc: Global) -> Problems {
        Problems {
            list: Vec::new(alloc),
            is_partial: false,
        }
    }

    /// Whether there is no problem, and no part is left out.
    pub fn is_empty(&self) -> bool {
        self.list.is_empty() && !self.is_partial
    }

    /// Returns the problems in the order in which they were found.
    pub fn into_list(self) -> Vec<Problem> {
        let Problems { list, .. } = self;
        list
    }

    /// Adds a problem. `Enough` if there are as many as are reported.
    pub fn add(&mut self, problem: Problem) -> Result<(), Stop> {
        if self.list.len() >= MOST_PROBLEMS {
            return Err(Stop::Enough);
        }
        self.list.push(problem)?;
        Ok(())
    }

    /// Adds a problem of a file.
    pub fn tell(&mut self, file: usize, span: Span, text: String) -> Result<(), Stop> {
        self.add(Problem {
            file,
            start: span.start,
            end: span.end,
            text,
        })
    }

    /// Returns what a part came to, and `None` if something is wrong with it, which is noted.
    /// `Enough`, `Pending` and `Memory` are passed on.
    pub fn kept<T: Drop>(&mut self, outcome: Result<T, Stop>) -> Result<Option<T>, Stop> {
        match outcome {
            Ok(value) => Ok(Some(value)),
            Err(Stop::Wrong(problem)) => {
                self.add(problem)?;
                Ok(None)
            }
            Err(Stop::Known) => {
                self.is_partial = true;
                Ok(None)
            }
            Err(stop) => Err(stop),
        }
    }
}
