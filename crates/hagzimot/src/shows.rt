//! The subcommand `hagzimot show`.

use crate::faults::Failure;
use crate::files::{Input, OutFile, OutSink, open_source};
use crate::filter::{is_picked, show_picked};
use crate::hints::{Beginning, beginning_of, hint};
use crate::log::{Lines, Log, Refusals, TurnAndFlush};
use crate::tape::Tape;
use crate::words;
use capnp_relay_loop::ends::Fault;
use capnp_relay_program::ahead::BoundedForm;
use capnp_relay_program::sinks::Flush;
use capnp_relay_streams::options::Form;
use capnp_stream::forms::Framed;
use capnp_stream_io::adapters::Source;
use capnp_stream_io::traits::Write;
use capnp_stream_packed::form::Packed;
use clap::ArgMatches;
use hagzimot_commands::canonical::Canonical;
use hagzimot_schemas::schemas::RootedSchema;
use hagzimot_show::laid_out::Manner;
use hagzimot_show::layout::{Layout, Spelling};
use hagzimot_show::show::{Chosen, Origin, ShownCounts, StreamFault, show_all};
use std::alloc::Global;
use std::rc::Rc;

/// The name of an input, and the tracker that notes its bytes.
#[derive(Drop)]
struct NamedInput<'a> {
    name: &'a str,
    tape: Rc<Tape>,
}

impl Origin for NamedInput<'_> {
    fn file(&self) -> &str {
        self.name
    }

    fn byte(&self) -> u64 {
        self.tape.start()
    }
}

/// The choice of messages that are shown, and how they are printed.
#[derive(Clone, Copy)]
struct Showing<'a> {
    manner: Manner<'a>,
    chosen: Chosen,
    form: Form,
}

impl Showing<'_> {
    /// Shows the messages of a source in one form.
    fn run_in<I: BoundedForm>(
        self,
        alloc: Global,
        source: &mut Source<Input>,
        out: &mut OutSink,
        log: &mut Log,
        input: &NamedInput<'_>,
    ) -> Result<ShownCounts, StreamFault> {
        show_all::<I, Source<Input>, OutSink, Log, TurnAndFlush<I>, NamedInput<'_>>(
            alloc,
            source,
            out,
            log,
            self.manner,
            self.chosen,
            input,
        )
    }

    /// Returns the failure of an input, or of the output, at a message.
    fn failure(
        self,
        alloc: Global,
        input: &NamedInput<'_>,
        kept: &OutFile,
        beginning: Beginning,
        end: StreamFault,
    ) -> Failure {
        let StreamFault { fault, number } = end;
        let (name, start) = (input.name, input.tape.start());
        match (fault, input.tape.take_fault()) {
            (Fault::Out, _) => return kept.failure(alloc),
            (Fault::Source, Some(why)) => return Failure::unread(alloc, name, number, start, why),
            _ => {}
        }
        match hint(self.form, beginning, number, fault) {
            Some(why) => Failure::about(alloc, name, &why),
            None => Failure::stream(alloc, name, number, start, fault),
        }
    }

    /// Shows the messages of one input, and flushes the sinks.
    fn show_one(
        self,
        rt: &HostRuntime,
        name: &str,
        kept: &OutFile,
        out: &mut OutSink,
        log: &mut Log,
    ) -> Result<ShownCounts, Failure> {
        let alloc = rt.alloc();
        let tape = log.begin_input(name)?;
        let mut source = open_source(rt, name, &tape)?;
        let beginning = beginning_of(&mut source);
        let input = NamedInput { name, tape };
        let end = match self.form {
            Form::Framed => self.run_in::<Framed>(alloc, &mut source, out, log, &input),
            Form::Packed => self.run_in::<Packed>(alloc, &mut source, out, log, &input),
        };
        let flushed = out.flush();
        // If the log fails now, the error can't be reported.
        let _flushed_log = log.flush();
        match (end, flushed) {
            (Err(end), _) => Err(self.failure(alloc, &input, kept, beginning, end)),
            (Ok(_), Err(_)) => Err(kept.failure(alloc)),
            (Ok(counts), Ok(())) => Ok(counts),
        }
    }
}

/// Writes a number and a line feed.
fn put_number(
    alloc: Global,
    kept: &OutFile,
    out: &mut OutSink,
    number: u64,
) -> Result<(), Failure> {
    let line = format!(in alloc; "{number}\n")?;
    if out.write_all(line.as_bytes()).is_err() || out.flush().is_err() {
        return Err(kept.failure(alloc));
    }
    Ok(())
}

/// Returns the layout that the options ask for.
fn layout(matches: &ArgMatches<'_>) -> Layout {
    if matches.get_flag("json") {
        return Layout::Json;
    }
    if matches.get_flag("pretty") {
        Layout::Pretty
    } else {
        Layout::Line
    }
}

/// Returns the spelling of single values that the options ask for.
fn spelling(matches: &ArgMatches<'_>) -> Spelling {
    match matches.get_str("style") {
        Some("capnp") => Spelling::Capnp,
        _ => Spelling::Hagzimot,
    }
}

/// Returns the choice of messages that the options make.
fn chosen(matches: &ArgMatches<'_>) -> Chosen {
    Chosen {
        first: matches.get_one::<u64>("from").unwrap_or(1),
        last: matches.get_one::<u64>("to").unwrap_or(u64::MAX),
        is_count: matches.get_flag("count"),
    }
}

/// Returns how the options show messages under a schema.
fn showing_of<'a>(matches: &ArgMatches<'_>, schema: &'a RootedSchema) -> Showing<'a> {
    Showing {
        manner: Manner {
            root: schema.root(),
            limits: Canonical {
                words: words::limit_of_words(matches),
                nesting: words::nesting(matches),
            },
            layout: layout(matches),
            spelling: spelling(matches),
            floats: schema.floats(),
        },
        chosen: chosen(matches),
        form: words::form(matches, "in"),
    }
}

/// Refuses `--csv` and `--tsv` without `--fields`.
fn check_cells(alloc: Global, matches: &ArgMatches<'_>) -> Result<(), Failure> {
    if matches.get_str("fields").is_some() {
        return Ok(());
    }
    for id in ["csv", "tsv"] {
        if matches.get_flag(id) {
            let option = format!(in alloc; "--{id}")?;
            return Err(Failure::words(alloc, option.as_str(), &"it needs --fields"));
        }
    }
    Ok(())
}

/// Runs `hagzimot show`, and returns the status.
pub fn show(rt: &HostRuntime, matches: &ArgMatches<'_>) -> Result<u8, Failure> {
    let alloc = rt.alloc();
    let Chosen {
        first,
        last,
        is_count,
    } = chosen(matches);
    if first > last {
        return Err(Failure::contradiction(alloc, first, last));
    }
    check_cells(alloc, matches)?;
    let schema = words::rooted(rt, matches, "schema")?;
    let showing = showing_of(matches, &schema);
    if is_picked(matches) {
        return show_picked(rt, matches, &schema, showing.manner);
    }
    let kept = OutFile::standard(rt)?;
    let mut out = kept.sink(alloc)?;
    let mut log = Log::new(rt, Lines::All, Refusals::unseen())?;
    let names = words::inputs(alloc, matches)?;
    let mut all_shown = true;
    let mut shown: u64 = 0;
    for name in names.iter() {
        let counts = showing.show_one(rt, name.as_str(), &kept, &mut out, &mut log)?;
        all_shown &= counts.not_shown == 0;
        shown = shown.saturating_add(counts.shown);
    }
    if is_count {
        put_number(alloc, &kept, &mut out, shown)?;
    }
    Ok(if all_shown { 0 } else { 3 })
}
