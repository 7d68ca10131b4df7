//! `hagzimot make`.

use crate::arguments::{
    SCHEMA_HELP, files, form, import_path, limit_of_words, nesting, no_sync, output, root, schema,
};
use crate::faults::Failure;
use crate::files::{OutFile, OutSink, open_source};
use crate::options::{Options, Taken};
use crate::outputs::Outputs;
use crate::tape::Tape;
use crate::words;
use capnp_relay_program::sinks::Flush;
use capnp_relay_streams::options::Form;
use capnp_stream::forms::Framed;
use capnp_stream_packed::form::Packed;
use clap::ArgMatches;
use hagzimot_commands::canonical::Canonical;
use hagzimot_make::make::Making;
use hagzimot_make::stream::{Reason, Stopped, make_all};
use hagzimot_schemas::schemas::RootedSchema;
use std::alloc::{AllocError, Global};
use std::rc::Rc;

/// The options of `make`.
pub fn options<'a, 'w>(alloc: Global, taken: Taken<'w>) -> Result<Options<'a, 'w>, AllocError> {
    Options::new(
        alloc,
        taken,
        "make",
        "Make a message of each JSON object, in canonical form",
    )
    .arg(schema(alloc).help(SCHEMA_HELP))?
    .arg(import_path(alloc))?
    .arg(root(alloc))?
    .arg(form(alloc, "out", "Write messages in this form"))?
    .arg(limit_of_words(alloc))?
    .arg(nesting(alloc))?
    .arg(output(alloc))?
    .arg(no_sync(alloc))?
    .arg(files(alloc))
}

/// Returns the failure of an input at an object.
fn failure(alloc: Global, name: &str, tape: &Tape, out: &OutFile, end: Stopped) -> Failure {
    let Stopped { line, reason } = end;
    let text = match (&reason, tape.take_fault()) {
        (Reason::Out, _) => return out.failure(alloc),
        (Reason::Source, Some(why)) => format!(in alloc; "{name}: line {line}: {why}"),
        (reason, _) => format!(in alloc; "{name}: line {line}: {reason}"),
    };
    match text {
        Ok(text) => Failure::Text(text),
        Err(_) => Failure::Memory,
    }
}

/// Makes the messages of an input.
fn make_one(
    rt: &HostRuntime,
    matches: &ArgMatches<'_>,
    schema: &RootedSchema,
    name: &str,
    kept: &OutFile,
    out: &mut OutSink,
) -> Result<(), Failure> {
    let alloc = rt.alloc();
    let tape = Rc::new(alloc, Tape::new(alloc, false))?;
    let mut source = open_source(rt, name, &tape)?;
    let making = Making {
        alloc,
        root: schema.root(),
        floats: schema.floats(),
    };
    let limits = Canonical {
        words: words::limit_of_words(matches),
        nesting: words::nesting(matches),
    };
    let end = match words::form(matches, "out") {
        Form::Framed => make_all::<Framed, _, _>(making, limits, &mut source, out),
        Form::Packed => make_all::<Packed, _, _>(making, limits, &mut source, out),
    };
    match (end, out.flush()) {
        (Err(end), _) => Err(failure(alloc, name, &tape, kept, end)),
        (Ok(_), Err(_)) => Err(kept.failure(alloc)),
        (Ok(_), Ok(())) => Ok(()),
    }
}

/// Makes the messages of each input.
fn make_each(
    rt: &HostRuntime,
    matches: &ArgMatches<'_>,
    schema: &RootedSchema,
    names: &[String],
    kept: &Rc<OutFile>,
) -> Result<(), Failure> {
    let mut out = kept.sink(rt.alloc())?;
    for name in names {
        make_one(rt, matches, schema, name.as_str(), kept, &mut out)?;
    }
    Ok(())
}

/// `hagzimot make`: a message of each JSON object of the inputs, in canonical form.
pub fn make(rt: &HostRuntime, matches: &ArgMatches<'_>) -> Result<u8, Failure> {
    let alloc = rt.alloc();
    let schema = words::rooted(rt, matches, "schema")?;
    let names = words::inputs(alloc, matches)?;
    let outputs = Outputs::open(rt, matches, &names)?;
    match make_each(rt, matches, &schema, &names, &outputs.messages) {
        Ok(()) => {
            outputs.commit(alloc)?;
            Ok(0)
        }
        Err(failure) => {
            outputs.discard();
            Err(failure)
        }
    }
}
