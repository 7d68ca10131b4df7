//! What `hagzimot relay` is asked to do.
ghost use Rattle.std.specs.Prelude.{◌≡◌, length, replicate, IfOk};
ghost use Rattle.capnp_calls.specs.Roots.{IsRoot};

use crate::faults::Failure;
use crate::files::{Input, OutSink};
use crate::filter::{conditions_of, sight_within};
use crate::log::TurnAndFlush;
use crate::log_words::{Lines, Watch};
use crate::message_notes::MessageNotes;
use crate::relay_calls::{AllCalls, all_calls, named_calls};
use crate::relay_checks::{Versions, check_names};
use crate::relay_plan::Plan;
use crate::run_log::RunLog;
use crate::words;
use capnp_calls::{Action, Call};
use capnp_relay_answers::bounds::Bounds;
use capnp_relay_answers::root_calls::RootCalls;
use capnp_relay_files::calls_file::CallsFile;
use capnp_relay_loop::answers::Answers;
use capnp_relay_loop::ends::Counts;
use capnp_relay_program::ahead::BoundedForm;
use capnp_relay_streams::at_root::{CallsAtRoot, PlainCallsAtRoot};
use capnp_relay_streams::between::BetweenFault;
use capnp_relay_streams::options::{Form, ReaderOptions, RelayOptions};
use capnp_stream::forms::MessageForm;
use capnp_stream_io::adapters::Source;
use clap::ArgMatches;
use hagzimot_clears::active::ActiveClears;
use hagzimot_commands::float_replies::FloatReplies;
use hagzimot_conditional::conditional::Conditional;
use hagzimot_conditions::conditions::Conditions;
use hagzimot_outcomes::skips::Skips;
use hagzimot_runs::asked::Asked;
use hagzimot_runs::run::{answer_watched, relay_counted, relay_watched};
use hagzimot_schemas::schemas::RootedSchema;
use std::alloc::Global;
use std::cell::Cell;

/// The most bytes of the region in which messages are edited; a message that doesn't fit is edited
/// in other memory.
const REGION_LEN: usize = 64 * 1024;

/// A relay: its schema, its calls and its limits.
#[derive(Drop)]
pub struct RelayTask {
    schema: RootedSchema,
    calls: Vec<Call>,
    /// Which calls run where; `None` if each runs at every message.
    plan: Option<Plan>,
    /// Which messages are edited; `None` if each is.
    conditions: Option<Conditions>,
    bounds: Bounds,
    is_plain: bool,
}

/// The limits that the words set, or else the calls file.
fn limits(matches: &ArgMatches<'_>, file: Option<&CallsFile>) -> ReaderOptions {
    let (words, nesting) = match file {
        Some(file) => (file.words, file.nesting),
        None => (
            words::limit_of_words(matches) as usize,
            words::nesting_limit(matches),
        ),
    };
    ReaderOptions {
        traversal_limit_in_words: Some(match matches.get_one::<u32>("words") {
            Some(given) => given as usize,
            None => words,
        }),
        nesting_limit: match matches.get_one::<i32>("nesting") {
            Some(given) => given,
            None => nesting,
        },
    }
}

/// How far messages are followed, as `RelayOptions` take these limits.
fn bounds(alloc: Global, limits: ReaderOptions) -> Result<Bounds, Failure> {
    if let Err(why) = RelayOptions::new(Form::Framed, Form::Framed, limits) {
        return Err(Failure::about(alloc, "the limits", &why));
    }
    let words = limits.traversal_limit_in_words.unwrap_or(0);
    Ok(Bounds {
        words: u32::try_from(words).unwrap_or(u32::MAX),
        nesting: u32::try_from(limits.nesting_limit).unwrap_or(0),
    })
}

impl RelayTask {
    /// The relay that the words ask for.
    pub fn new(rt: &HostRuntime, matches: &ArgMatches<'_>) -> Result<RelayTask, Failure> {
        let alloc = rt.alloc();
        let schema = words::rooted(rt, matches, "schema")?;
        let newer = match matches.get_str("newer") {
            Some(_) => Some(words::rooted(rt, matches, "newer")?),
            None => None,
        };
        let renamings = words::renamings(rt, matches)?;
        let file = named_calls(rt, &schema, matches)?;
        let bounds = bounds(alloc, limits(matches, file.as_ref()))?;
        let parts = match file {
            Some(file) => file.calls,
            None => Vec::new(alloc),
        };
        let AllCalls {
            calls,
            plan,
            sources,
        } = all_calls(alloc, &schema, parts, bounds.words as u64, matches)?;
        if let Some(newer) = &newer {
            let versions = Versions {
                older: &schema,
                newer,
                calls: &calls,
                sources: &sources,
            };
            versions.check_schemas(alloc, &renamings)?;
            versions.check_calls(alloc, &renamings)?;
        }
        let conditions = conditions_of(alloc, matches, &schema)?;
        Ok(RelayTask {
            schema,
            calls,
            plan,
            conditions,
            bounds,
            is_plain: matches.get_flag("plain"),
        })
    }

    /// The notes of messages on a watch.
    fn notes<'a>(&'a self, watch: &'a Watch) -> MessageNotes<'a> {
        MessageNotes {
            watch,
            root: Some(self.schema.root()),
            bounds: self.bounds,
        }
    }

    /// Whether each call runs at every message.
    pub fn runs_all(&self) -> bool {
        self.plan.is_none() && self.conditions.is_none()
    }

    /// Whether replies print values.
    fn has_gets(&self) -> bool {
        let is_get = |call: &Call| matches!(call.action(), Action::Get);
        self.calls.iter().any(is_get)
    }

    /// Where the replies tell floats; `None` if none does.
    fn float_replies(&self, alloc: Global) -> Result<Option<FloatReplies>, Failure> {
        let schema = &self.schema;
        if schema.floats().is_empty() || !self.has_gets() {
            return Ok(None);
        }
        let (nodes, root) = (schema.nodes(), schema.root_id());
        let replies = FloatReplies::new(alloc, nodes, schema.floats(), root, &self.calls)?;
        Ok(Some(replies))
    }

    /// Where the replies that a log of these lines prints tell floats; `None` if none does. Refuses
    /// names that the log can't print.
    pub fn replies(&self, alloc: Global, lines: Lines) -> Result<Option<FloatReplies>, Failure> {
        let floats = self.float_replies(alloc)?;
        let is_text = matches!(lines, Lines::All | Lines::Refused) && self.has_gets();
        if is_text || floats.is_some() {
            check_names(alloc, &self.schema)?;
        }
        Ok(floats)
    }

    /// What is done with each message.
    fn asked(&self) -> Asked<'_>
        ensures { IsRoot result.root }
    {
        Asked {
            root: self.schema.root(),
            calls: &self.calls,
            bounds: self.bounds,
            is_plain: self.is_plain,
        }
    }

    /// Relays the messages of a source from one form to another, and counts calls that are refused.
    pub fn run<I: BoundedForm, O: MessageForm, L: RunLog>(
        &self,
        alloc: Global,
        source: &mut Source<Input>,
        out: &mut OutSink,
        log: &mut L,
        watch: &Watch,
    ) -> Result<Counts, BetweenFault> {
        let mut region = region(alloc, REGION_LEN)?;
        let notes = self.notes(watch);
        let refused = &*watch.refused_calls;
        let end = relay_counted::<
            I,
            O,
            Source<Input>,
            OutSink,
            L,
            TurnAndFlush<I>,
            MessageNotes<'_>,
        >(
            alloc,
            source,
            out,
            log,
            self.asked(),
            refused,
            &notes,
            &mut region,
        );
        end.map_err(BetweenFault::Relay)
    }

    /// As `run`, and notes what becomes of each message.
    pub fn run_watched<I: BoundedForm, O: MessageForm, L: RunLog>(
        &self,
        alloc: Global,
        source: &mut Source<Input>,
        out: &mut OutSink,
        log: &mut L,
        watch: &Watch,
    ) -> Result<Counts, BetweenFault> {
        if let Some(plan) = &self.plan {
            return self.run_planned::<I, O, L>(alloc, source, out, log, watch, plan);
        }
        if self.conditions.is_some() {
            return self.run_picked::<I, O, L>(alloc, source, out, log, watch);
        }
        let mut region = region(alloc, REGION_LEN)?;
        let notes = self.notes(watch);
        let end = relay_watched::<
            I,
            O,
            Source<Input>,
            OutSink,
            L,
            TurnAndFlush<I>,
            MessageNotes<'_>,
        >(
            alloc,
            source,
            out,
            log,
            self.asked(),
            notes.watching(None),
            &mut region,
        );
        end.map_err(BetweenFault::Relay)
    }

    /// As `run_watched`, where some calls run only where a member is active.
    fn run_planned<I: BoundedForm, O: MessageForm, L: RunLog>(
        &self,
        alloc: Global,
        source: &mut Source<Input>,
        out: &mut OutSink,
        log: &mut L,
        watch: &Watch,
        plan: &Plan,
    ) -> Result<Counts, BetweenFault> {
        let bounds = self.bounds;
        let schema = self.schema.root();
        let Ok(calls) = RootCalls::new(alloc, schema, &plan.probes) else {
            return Err(BetweenFault::Memory);
        };
        let inactive = Cell::new(0);
        let answers = ActiveClears {
            probes: CallsAtRoot { calls, bounds },
            schema,
            planned: &plan.planned,
            is_plain: self.is_plain,
            bounds,
            inactive: &inactive,
        };
        let skips = Skips {
            probes: &plan.numbers,
            inactive: &inactive,
        };
        self.answer_picked::<I, O, L, ActiveClears<'_, '_>>(
            alloc,
            source,
            out,
            log,
            &answers,
            watch,
            Some(skips),
        )
    }

    /// As `run_watched`, where only the messages that keep the conditions are edited.
    fn run_picked<I: BoundedForm, O: MessageForm, L: RunLog>(
        &self,
        alloc: Global,
        source: &mut Source<Input>,
        out: &mut OutSink,
        log: &mut L,
        watch: &Watch,
    ) -> Result<Counts, BetweenFault> {
        let bounds = self.bounds;
        let Ok(calls) = RootCalls::new(alloc, self.schema.root(), &self.calls) else {
            return Err(BetweenFault::Memory);
        };
        if self.is_plain {
            let answers = PlainCallsAtRoot { calls, bounds };
            return self.answer_picked::<I, O, L, PlainCallsAtRoot<'_>>(
                alloc, source, out, log, &answers, watch, None,
            );
        }
        let answers = CallsAtRoot { calls, bounds };
        self.answer_picked::<I, O, L, CallsAtRoot<'_>>(
            alloc, source, out, log, &answers, watch, None,
        )
    }

    /// Answers the messages of a source that keep the conditions, if there are some, and passes on
    /// the others.
    fn answer_picked<I: BoundedForm, O: MessageForm, L: RunLog, A: Answers>(
        &self,
        alloc: Global,
        source: &mut Source<Input>,
        out: &mut OutSink,
        log: &mut L,
        answers: &A,
        watch: &Watch,
        skips: Option<Skips<'_, '_>>,
    ) -> Result<Counts, BetweenFault> {
        let notes = self.notes(watch);
        let Some(conditions) = &self.conditions else {
            return watch_all::<I, O, L, A>(alloc, source, out, log, answers, notes, skips);
        };
        let picked = Conditional {
            answers,
            conditions,
            sight: sight_within(&self.schema, self.bounds),
            inactive: skips.map(|skips| skips.inactive),
        };
        watch_all::<I, O, L, Conditional<'_, '_, '_, A>>(
            alloc, source, out, log, &picked, notes, skips,
        )
    }
}

/// Returns `len` zeros, in which messages are edited.
fn region(alloc: Global, len: usize) -> Result<Vec<u8>, BetweenFault>
    ensures { IfOk result (λ bytes. bytes.items ≡ replicate (length bytes.items) 0) }
{
    match vec![in alloc; 0u8; len] {
        Ok(region) => Ok(region),
        Err(_) => Err(BetweenFault::Memory),
    }
}

/// Answers the messages of a source, and notes what becomes of each. The skips are the calls that
/// the answers leave out, if they leave some out.
pub fn watch_all<I: BoundedForm, O: MessageForm, L: RunLog, A: Answers>(
    alloc: Global,
    source: &mut Source<Input>,
    out: &mut OutSink,
    log: &mut L,
    answers: &A,
    notes: MessageNotes<'_>,
    skips: Option<Skips<'_, '_>>,
) -> Result<Counts, BetweenFault> {
    let mut region = region(alloc, REGION_LEN)?;
    let limit = notes.bounds.words as usize;
    let end = answer_watched::<
        I,
        O,
        Source<Input>,
        OutSink,
        L,
        TurnAndFlush<I>,
        A,
        MessageNotes<'_>,
    >(
        alloc,
        source,
        out,
        log,
        answers,
        limit,
        notes.watching(skips),
        &mut region,
    );
    end.map_err(BetweenFault::Relay)
}
