//! The arguments and options of the command.

use crate::arguments::{
    allow_refused_calls, call, files, floats_as_bits, form, import_path, limit_of_words, log,
    nesting, no_sync, number, on_refused, output, refused, renames, root, schema, stats, strict,
    style,
};
use crate::options::{Options, Taken};
use crate::picking_words::{edited, filter, hash, with_picks};
use crate::proof_statement::VERSION;
use crate::schema_commands::{check, compatible, compile, id, schema_file};
use crate::{diffs, explains, makes, redacts, salvage};
use clap::{Arg, ArgAction, Command};
use std::alloc::{AllocError, Global};

fn convert<'a, 'w>(alloc: Global, taken: Taken<'w>) -> Result<Options<'a, 'w>, AllocError> {
    Options::new(
        alloc,
        taken,
        "convert",
        "Write the same messages in another form, framed or packed",
    )
    .arg(form(alloc, "in", "Read messages in this form"))?
    .arg(form(alloc, "out", "Write messages in this form"))?
    .arg(limit_of_words(alloc))?
    .arg(output(alloc))?
    .arg(no_sync(alloc))?
    .arg(files(alloc))
}

fn count<'a, 'w>(alloc: Global, taken: Taken<'w>) -> Result<Options<'a, 'w>, AllocError> {
    Options::new(alloc, taken, "count", "Print the number of messages")
        .arg(form(alloc, "in", "Read messages in this form"))?
        .arg(limit_of_words(alloc))?
        .arg(files(alloc))
}

fn slice<'a, 'w>(alloc: Global, taken: Taken<'w>) -> Result<Options<'a, 'w>, AllocError> {
    Options::new(
        alloc,
        taken,
        "slice",
        "Write a range of the messages of each input, each with the same segments",
    )
    .arg(number(
        alloc,
        "from",
        "Begin with message N of each input; the first is 1",
    ))?
    .arg(number(alloc, "to", "End with message N of each input"))?
    .arg(form(alloc, "in", "Read messages in this form"))?
    .arg(form(alloc, "out", "Write messages in this form"))?
    .arg(limit_of_words(alloc))?
    .arg(output(alloc))?
    .arg(no_sync(alloc))?
    .arg(files(alloc))
}

fn split<'a, 'w>(alloc: Global, taken: Taken<'w>) -> Result<Options<'a, 'w>, AllocError> {
    Options::new(
        alloc,
        taken,
        "split",
        "Write the messages to files of N messages each, with the same segments",
    )
    .arg(number(alloc, "every", "Write N messages to each file").required(true))?
    .arg(
        Arg::new(alloc, "output")
            .short('o')
            .long("output")
            .value_name("PATTERN")
            .required(true)
            .help("Name the files by their numbers, as part-%04d.bin; no file may be there yet"),
    )?
    .arg(form(alloc, "in", "Read messages in this form"))?
    .arg(form(alloc, "out", "Write messages in this form"))?
    .arg(limit_of_words(alloc))?
    .arg(no_sync(alloc))?
    .arg(files(alloc))
}

fn canonical<'a, 'w>(alloc: Global, taken: Taken<'w>) -> Result<Options<'a, 'w>, AllocError> {
    Options::new(
        alloc,
        taken,
        "canonical",
        "Write each message in canonical form",
    )
    .arg(form(alloc, "in", "Read messages in this form"))?
    .arg(form(alloc, "out", "Write messages in this form"))?
    .arg(limit_of_words(alloc))?
    .arg(nesting(alloc))?
    .arg(on_refused(alloc))?
    .arg(refused(alloc))?
    .arg(log(alloc))?
    .arg(output(alloc))?
    .arg(no_sync(alloc))?
    .arg(files(alloc))
}

fn show<'a, 'w>(alloc: Global, taken: Taken<'w>) -> Result<Options<'a, 'w>, AllocError> {
    let options = Options::new(
        alloc,
        taken,
        "show",
        "Print each message as text, one a line",
    )
    .arg(schema(alloc))?
    .arg(import_path(alloc))?
    .arg(floats_as_bits(alloc))?
    .arg(root(alloc))?
    .arg(form(alloc, "in", "Read messages in this form"))?
    .arg(number(
        alloc,
        "from",
        "Begin with message N of each input; the first is 1",
    ))?
    .arg(number(alloc, "to", "End with message N of each input"))?;
    with_picks(alloc, options)?
        .arg(
            Arg::new(alloc, "count")
                .long("count")
                .action(ArgAction::SetTrue)
                .help("Print only the number of messages"),
        )?
        .arg(
            Arg::new(alloc, "json")
                .long("json")
                .action(ArgAction::SetTrue)
                .help("Print each message as a JSON object, one a line"),
        )?
        .arg(
            Arg::new(alloc, "pretty")
                .long("pretty")
                .action(ArgAction::SetTrue)
                .help("Print each field on a line of its own, indented")
                .conflicts_with("json")?,
        )?
        .arg(style(alloc)?)?
        .arg(limit_of_words(alloc))?
        .arg(nesting(alloc))?
        .arg(files(alloc))
}

/// Adds the options that make calls.
fn with_calls<'a, 'w>(
    alloc: Global,
    options: Options<'a, 'w>,
) -> Result<Options<'a, 'w>, AllocError> {
    options
        .arg(
            Arg::new(alloc, "calls")
                .long("calls")
                .value_name("FILE")
                .help("Make the calls of a JSON file, before those of the options"),
        )?
        .arg(call(
            alloc,
            "set",
            "PATH=VALUE",
            "Set a field, as customer.name=Ada or lines[0].count=3; a member of a union becomes the active one",
        ))?
        .arg(call(alloc, "get", "PATH", "Print a field in the log"))?
        .arg(call(
            alloc,
            "clear",
            "PATH",
            "Give a field its default; a member of a union becomes the active one, whichever was (see --clear-active)",
        ))?
        .arg(call(
            alloc,
            "clear-active",
            "PATH",
            "Clear a field only if its path meets no inactive member of a union in the message as it is read; otherwise the call is skipped",
        ))?
        .arg(call(
            alloc,
            "init",
            "PATH",
            "Make a new struct or group in a field; a member of a union becomes the active one",
        ))?
        .arg(call(
            alloc,
            "initn",
            "PATH=N",
            "Make a new list, text or data of N elements or bytes in a field; a member of a union becomes the active one",
        ))?
        .arg(
            Arg::new(alloc, "lenient")
                .long("lenient")
                .action(ArgAction::SetTrue)
                .help(
                    "Accept calls that can never succeed, each of which is then refused at every message; the path of --set must exist even so, because the type of the field says how to read the value",
                ),
        )
}

/// Adds the options of a newer schema.
fn with_newer<'a, 'w>(
    alloc: Global,
    options: Options<'a, 'w>,
) -> Result<Options<'a, 'w>, AllocError> {
    options
        .required_by(
            "renames",
            Arg::new(alloc, "newer")
                .long("newer")
                .value_name("SCHEMA")
                .help("Refuse calls that could surprise a reader with this newer schema"),
        )?
        .arg(renames(alloc).requires_arg("newer")?)
}

fn relay<'a, 'w>(alloc: Global, taken: Taken<'w>) -> Result<Options<'a, 'w>, AllocError> {
    let options = Options::new(alloc, taken, "relay", "Edit each message and write it")
        .arg(schema(alloc))?
        .arg(import_path(alloc))?
        .arg(floats_as_bits(alloc))?
        .arg(root(alloc))?;
    let options = with_calls(alloc, options)?
        .arg(edited(alloc))?
        .arg(form(alloc, "in", "Read messages in this form"))?
        .arg(form(alloc, "out", "Write messages in this form"))?
        .arg(
            Arg::new(alloc, "plain")
                .long("plain")
                .action(ArgAction::SetTrue)
                .help("Write messages as the calls built them, not in canonical form"),
        )?;
    with_newer(alloc, options)?
        .arg(limit_of_words(alloc))?
        .arg(nesting(alloc))?
        .arg(on_refused(alloc))?
        .arg(refused(alloc))?
        .arg(log(alloc).default_value("lines"))?
        .arg(stats(alloc))?
        .arg(strict(alloc).conflicts_with("allow-refused-calls")?)?
        .arg(allow_refused_calls(alloc))?
        .arg(output(alloc))?
        .arg(no_sync(alloc))?
        .arg(files(alloc))
}

fn version<'a, 'w>(alloc: Global, taken: Taken<'w>) -> Result<Options<'a, 'w>, AllocError> {
    Options::new(
        alloc,
        taken,
        "version",
        "Print the version, or what was proved of this build",
    )
    .arg(
        Arg::new(alloc, "proof")
            .long("proof")
            .action(ArgAction::SetTrue)
            .help("Print the statement of the proof: its logic, axioms and handles, as JSON"),
    )
}

/// The command without its subcommands.
fn bare_command<'a>(alloc: Global) -> Result<Command<'a>, AllocError> {
    let command = Command::new(alloc, "hagzimot")
        .bin_name("hagzimot")?
        .version(VERSION)
        .about("Read, check and edit streams of Cap'n Proto messages")
        .after_help(
            "Status: 0 success; 1 the answer is no (compatible, check, diff); 2 usage error; 3 messages skipped, unedited or not shown, or calls refused; 4 a fault of a file, a schema, memory, the input or the output",
        )
        .subcommand_required(true);
    Ok(command)
}

/// Returns the subcommand of a name, or `None` if there isn't one.
fn subcommand<'a>(
    alloc: Global,
    taken: Taken<'_>,
    name: &str,
) -> Result<Option<Command<'a>>, AllocError> {
    let options = match name {
        "show" => show(alloc, taken)?,
        "filter" => filter(alloc, taken)?,
        "relay" => relay(alloc, taken)?,
        "redact" => redacts::options(alloc, taken)?,
        "check" => check(alloc, taken)?,
        "schema" => schema_file(alloc, taken)?,
        "compatible" => compatible(alloc, taken)?,
        "canonical" => canonical(alloc, taken)?,
        "convert" => convert(alloc, taken)?,
        "count" => count(alloc, taken)?,
        "diff" => diffs::options(alloc, taken)?,
        "make" => makes::options(alloc, taken)?,
        "hash" => hash(alloc, taken)?,
        "explain" => explains::options(alloc, taken)?,
        "slice" => slice(alloc, taken)?,
        "split" => split(alloc, taken)?,
        "salvage" => salvage::options(alloc, taken)?,
        "compile" => compile(alloc, taken)?,
        "id" => id(alloc, taken)?,
        "version" => version(alloc, taken)?,
        _ => return Ok(None),
    };
    Ok(Some(options.command()?))
}

/// The names of the subcommands.
static SUBCOMMANDS: [&str; 20] = [
    "show",
    "filter",
    "relay",
    "redact",
    "check",
    "schema",
    "compatible",
    "canonical",
    "convert",
    "make",
    "diff",
    "count",
    "hash",
    "explain",
    "slice",
    "split",
    "salvage",
    "compile",
    "id",
    "version",
];

/// Returns the command with the subcommand that the first argument names. If it names no
/// subcommand, the command has all of them.
// The options of the others would be made at each start, and never be read.
pub fn command_line<'a>(
    alloc: Global,
    taken: Taken<'_>,
    first: Option<&str>,
) -> Result<Command<'a>, AllocError> {
    let mut command = bare_command(alloc)?;
    if let Some(name) = first {
        if let Some(called) = subcommand(alloc, taken, name)? {
            return command.subcommand(called);
        }
    }
    for name in SUBCOMMANDS.iter() {
        if let Some(each) = subcommand(alloc, taken, name)? {
            command = command.subcommand(each)?;
        }
    }
    Ok(command)
}
