//! Tasks: ways to handle the messages of an input.

use crate::files::{Input, OutSink};
use crate::log::TurnAndFlush;
use crate::log_words::Watch;
use crate::message_notes::MessageNotes;
use crate::relay_task::{RelayTask, watch_all};
use crate::run_log::RunLog;
use capnp_relay_answers::bounds::Bounds;
use capnp_relay_loop::ends::Counts;
use capnp_relay_program::ahead::BoundedForm;
use capnp_relay_streams::between::BetweenFault;
use capnp_stream::forms::MessageForm;
use capnp_stream_io::adapters::Source;
use hagzimot_commands::canonical::{Canonical, canonicalize_all};
use hagzimot_commands::convert::convert_all;
use std::alloc::Global;

/// A way to handle each message of an input.
pub trait Task {
    /// Passes the messages of a source on, from one form to another.
    fn run_in<I: BoundedForm, O: MessageForm, L: RunLog>(
        &self,
        alloc: Global,
        source: &mut Source<Input>,
        out: &mut OutSink,
        log: &mut L,
    ) -> Result<Counts, BetweenFault>;
}

/// Each message is written in another form.
#[derive(Drop)]
pub struct Conversion {
    pub words: u32,
}

impl Task for Conversion {
    fn run_in<I: BoundedForm, O: MessageForm, L: RunLog>(
        &self,
        alloc: Global,
        source: &mut Source<Input>,
        out: &mut OutSink,
        log: &mut L,
    ) -> Result<Counts, BetweenFault> {
        let words = self.words as usize;
        let end = convert_all::<I, O, Source<Input>, OutSink, L, TurnAndFlush<I>>(
            alloc, source, out, log, words,
        );
        end.map_err(BetweenFault::Relay)
    }
}

/// Writes the canonical form of each message of a source.
fn canonicalize<I: BoundedForm, O: MessageForm, L: RunLog>(
    alloc: Global,
    source: &mut Source<Input>,
    out: &mut OutSink,
    log: &mut L,
    limits: Canonical,
    notes: &MessageNotes<'_>,
) -> Result<Counts, BetweenFault> {
    let end = canonicalize_all::<
        I,
        O,
        Source<Input>,
        OutSink,
        L,
        TurnAndFlush<I>,
        MessageNotes<'_>,
    >(alloc, source, out, log, limits, notes);
    end.map_err(BetweenFault::Relay)
}

/// Each message is written in canonical form, and what becomes of it is noted.
#[derive(Drop)]
pub struct CanonicalTask {
    pub limits: Canonical,
    pub watch: Watch,
}

impl Task for CanonicalTask {
    fn run_in<I: BoundedForm, O: MessageForm, L: RunLog>(
        &self,
        alloc: Global,
        source: &mut Source<Input>,
        out: &mut OutSink,
        log: &mut L,
    ) -> Result<Counts, BetweenFault> {
        let limits = self.limits;
        let notes = MessageNotes {
            watch: &self.watch,
            root: None,
            bounds: Bounds {
                words: limits.words,
                nesting: limits.nesting,
            },
        };
        if self.watch.passes {
            return watch_all::<I, O, L, Canonical>(alloc, source, out, log, &limits, notes, None);
        }
        canonicalize::<I, O, L>(alloc, source, out, log, limits, &notes)
    }
}

/// A relay whose calls that are refused are counted.
#[derive(Drop)]
pub struct PlainRelay<'a> {
    pub task: &'a RelayTask,
    pub watch: Watch,
}

impl Task for PlainRelay<'_> {
    fn run_in<I: BoundedForm, O: MessageForm, L: RunLog>(
        &self,
        alloc: Global,
        source: &mut Source<Input>,
        out: &mut OutSink,
        log: &mut L,
    ) -> Result<Counts, BetweenFault> {
        self.task
            .run::<I, O, L>(alloc, source, out, log, &self.watch)
    }
}

/// A relay that notes what becomes of each message.
#[derive(Drop)]
pub struct WatchedRelay<'a> {
    pub task: &'a RelayTask,
    pub watch: Watch,
}

impl Task for WatchedRelay<'_> {
    fn run_in<I: BoundedForm, O: MessageForm, L: RunLog>(
        &self,
        alloc: Global,
        source: &mut Source<Input>,
        out: &mut OutSink,
        log: &mut L,
    ) -> Result<Counts, BetweenFault> {
        self.task
            .run_watched::<I, O, L>(alloc, source, out, log, &self.watch)
    }
}
