//! Subcommands with the options that words could name.

use clap::{Arg, Command};
use std::alloc::{AllocError, Global};

/// Which options subcommands are made with.
#[derive(Clone, Copy)]
pub enum Taken<'w> {
    /// Each.
    All,
    /// Those that are required, and those that one of these words could name. Where the words are
    /// right they mean the same with these.
    Named(&'w [String]),
}

/// Whether a word could name an option: it begins so, or is one of short options.
fn could_name(word: &str, long: &str) -> bool {
    match word.strip_prefix("--") {
        Some(name) => name.starts_with(long),
        None => word.len() > 1 && word.starts_with('-'),
    }
}

impl Taken<'_> {
    /// Whether words could name the option of a name.
    fn names(self, long: &str) -> bool {
        match self {
            Taken::All => true,
            Taken::Named(words) => words.iter().any(|word| could_name(word.as_str(), long)),
        }
    }

    /// Whether an argument is taken.
    fn takes(self, arg: &Arg<'_>) -> bool {
        match arg.get_long() {
            Some(long) => arg.is_required_set() || self.names(long),
            None => true,
        }
    }
}

/// A subcommand that takes some of its options.
// Measured: the options that nobody names are half of what the words cost.
#[derive(Drop)]
pub struct Options<'a, 'w> {
    alloc: Global,
    taken: Taken<'w>,
    name: &'a str,
    about: &'a str,
    args: Vec<Arg<'a>>,
}

impl<'a, 'w> Options<'a, 'w> {
    /// The subcommand of a name, without arguments.
    pub fn new(alloc: Global, taken: Taken<'w>, name: &'a str, about: &'a str) -> Options<'a, 'w> {
        Options {
            alloc,
            taken,
            name,
            about,
            args: Vec::new(alloc),
        }
    }

    /// Adds an argument, where it is taken.
    pub fn arg(mut self, arg: Arg<'a>) -> Result<Options<'a, 'w>, AllocError> {
        if self.taken.takes(&arg) {
            self.args.push(arg)?;
        }
        Ok(self)
    }

    /// Adds an option that another one requires, where either is taken.
    pub fn required_by(mut self, other: &str, arg: Arg<'a>) -> Result<Options<'a, 'w>, AllocError> {
        if self.taken.names(other) || self.taken.takes(&arg) {
            self.args.push(arg)?;
        }
        Ok(self)
    }

    /// The subcommand.
    pub fn command(self) -> Result<Command<'a>, AllocError> {
        Command::new(self.alloc, self.name)
            .about(self.about)
            .args(self.args)
    }
}
