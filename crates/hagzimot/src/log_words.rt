//! Settings of a log, and the notes that it reads.

use crate::files::{OutSink, Output};
use capnp_relay_loop::answer::Reason;
use hagzimot_commands::float_replies::FloatReplies;
use hagzimot_outcomes::outcomes::{CallOutcome, Cause, Outcome};
use std::alloc::{AllocError, Global};
use std::cell::Cell;
use std::rc::Rc;

/// The lines that a log keeps.
#[derive(Clone, Copy, Debug, PartialEq, Eq)]
pub enum Lines {
    All,
    /// Those of messages that are skipped or passed on unedited, or that have a refused call.
    Refused,
    None,
    /// All, as JSON.
    Json,
}

impl Lines {
    /// Returns the lines that a word names.
    pub fn named(word: &str) -> Lines {
        match word {
            "lines" => Lines::All,
            "none" => Lines::None,
            "json" => Lines::Json,
            _ => Lines::Refused,
        }
    }

    /// Tests whether the line of a message is kept. `is_refused` says that something of the message
    /// is refused.
    pub fn keep(self, is_refused: bool) -> bool {
        match self {
            Lines::All | Lines::Json => true,
            Lines::Refused => is_refused,
            Lines::None => false,
        }
    }
}

/// Tests whether a call was refused.
pub fn is_refused(call: &CallOutcome) -> bool {
    matches!(call, CallOutcome::Refused(_))
}

/// Tests whether a message was skipped or passed on unedited, or one of its calls was refused.
pub fn has_refusal(outcome: &Outcome) -> bool {
    match outcome {
        Outcome::Done(_) => false,
        Outcome::Written(calls) => calls.iter().any(is_refused),
        Outcome::Unedited(_) | Outcome::Refused(_) => true,
    }
}

/// The treatment of a refused message, which is a message that has no answer.
#[derive(Clone, Copy, Debug, PartialEq, Eq)]
pub enum OnRefused {
    /// The message is skipped.
    Skip,
    /// The message is skipped, and ends the run.
    Stop,
    /// The message is passed on unedited.
    Pass,
}

/// Notes on messages, for the log and the status. A clone shares the notes.
#[derive(Drop)]
pub struct Watch {
    /// The outcome of the message that was answered last.
    pub noted: Rc<Cell<Option<Outcome>>>,
    /// The reason for which that message is passed on unedited, if it is.
    pub unedited: Rc<Cell<Option<Reason>>>,
    /// The number of refused calls, if nothing else is noted.
    pub refused_calls: Rc<Cell<u64>>,
    /// The reason for which a message has no answer is explained.
    pub explains: bool,
    /// The reason for which the last message has no answer, with the path to its first fault.
    pub why: Rc<Cell<Option<String>>>,
    /// There is such a reason.
    // Measured: looking at the text itself costs a small message more.
    pub has_why: Rc<Cell<bool>>,
    /// Messages without an answer are passed on.
    pub passes: bool,
    /// A message with a refused call has no answer.
    pub is_strict: bool,
}

impl Watch {
    /// Returns empty notes.
    pub fn new(alloc: Global) -> Result<Watch, AllocError> {
        Ok(Watch {
            noted: Rc::new(alloc, Cell::new(None))?,
            unedited: Rc::new(alloc, Cell::new(None))?,
            refused_calls: Rc::new(alloc, Cell::new(0))?,
            explains: false,
            why: Rc::new(alloc, Cell::new(None))?,
            has_why: Rc::new(alloc, Cell::new(false))?,
            passes: false,
            is_strict: false,
        })
    }

    /// Returns another owner of the same notes.
    pub fn share(&self) -> Result<Watch, AllocError> {
        Ok(Watch {
            noted: Rc::clone(&self.noted)?,
            unedited: Rc::clone(&self.unedited)?,
            refused_calls: Rc::clone(&self.refused_calls)?,
            explains: self.explains,
            why: Rc::clone(&self.why)?,
            has_why: Rc::clone(&self.has_why)?,
            passes: self.passes,
            is_strict: self.is_strict,
        })
    }

    /// Takes the reason for which the last message has no answer. Returns `None` if the message has
    /// an answer, or no reason was found.
    #[inline(always)]
    pub fn take_why(&self) -> Option<String> {
        if !self.has_why.get() {
            return None;
        }
        self.has_why.set(false);
        self.why.take()
    }

    /// Takes the outcome of the last message. Returns `None` if there is no note.
    pub fn take(&self) -> Option<Outcome> {
        let is_unedited = self.unedited.take().is_some();
        match self.noted.take() {
            Some(Outcome::Refused(cause)) if is_unedited => Some(Outcome::Unedited(cause)),
            noted => noted,
        }
    }
}

/// The settings of a log.
#[derive(Drop)]
pub struct LogWords<'a> {
    pub lines: Lines,
    pub on_refused: OnRefused,
    /// The name of the file of refused messages.
    pub refused: Option<&'a str>,
    /// The output of refused messages.
    pub refused_out: Option<Output>,
    /// Messages and bytes are counted and reported.
    pub stats: bool,
    /// Refused calls leave the status as it is.
    pub allows_refused_calls: bool,
    /// The notes on messages, if there are any.
    pub watch: Option<Watch>,
    /// The places of floats in replies, if there are some.
    pub floats: Option<FloatReplies>,
}

impl LogWords<'_> {
    /// Tests whether a message with a refused call has no answer.
    fn is_strict(&self) -> bool {
        match &self.watch {
            Some(watch) => watch.is_strict,
            None => false,
        }
    }

    /// Tests whether each line is written as it is, and nothing else is done.
    pub fn are_plain(&self) -> bool {
        self.lines == Lines::All
            && self.on_refused == OnRefused::Skip
            && self.refused.is_none()
            && !self.stats
            && !self.is_strict()
            && self.floats.is_none()
    }
}

/// The treatment of refused messages, apart from their lines.
#[derive(Drop)]
pub struct Refusals {
    /// The sink that gets them unchanged.
    pub sink: Option<OutSink>,
    /// The first one ends the run.
    pub stop: bool,
}

impl Refusals {
    /// Returns the treatment that does nothing.
    pub fn unseen() -> Refusals {
        Refusals {
            sink: None,
            stop: false,
        }
    }

    /// Tests whether something is done about them.
    pub fn are_seen(&self) -> bool {
        self.stop || self.sink.is_some()
    }
}
