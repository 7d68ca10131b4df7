//! The arguments that subcommands take.

use clap::{Arg, ArgAction, value_parser};
use std::alloc::{AllocError, Global};

/// The forms of streams.
static FORMS: [&str; 2] = ["framed", "packed"];

/// An option that names the form of a stream.
pub fn form<'a>(alloc: Global, id: &'a str, help: &'a str) -> Arg<'a> {
    Arg::new(alloc, id)
        .long(id)
        .value_name("FORM")
        .value_parser(FORMS.as_slice())
        .default_value("framed")
        .help(help)
}

/// The files of messages that are read. `-` or no file means standard input.
pub fn files<'a>(alloc: Global) -> Arg<'a> {
    Arg::new(alloc, "files")
        .value_name("FILE")
        .action(ArgAction::Append)
        .num_args(0..)
        .help("Read messages from these files in turn; - or no file means standard input")
}

/// The schema sources that are compiled. `-` or no file means standard input.
pub fn sources<'a>(alloc: Global) -> Arg<'a> {
    Arg::new(alloc, "files")
        .value_name("FILE")
        .action(ArgAction::Append)
        .num_args(0..)
        .help("Compile these schema sources; - or no file means standard input")
}

/// The file that is written.
pub fn output<'a>(alloc: Global) -> Arg<'a> {
    Arg::new(alloc, "output")
        .short('o')
        .long("output")
        .value_name("FILE")
        .help(
            "Write to FILE, not to standard output. FILE keeps its content until everything is written; a device or a pipe is written to directly",
        )
}

/// The option that leaves files unsynced.
pub fn no_sync<'a>(alloc: Global) -> Arg<'a> {
    Arg::new(alloc, "no-sync")
        .long("no-sync")
        .action(ArgAction::SetTrue)
        .help("Don't wait until the system has put written files on the disk")
}

/// The option that limits the words of a message.
pub fn limit_of_words<'a>(alloc: Global) -> Arg<'a> {
    Arg::new(alloc, "words")
        .long("words")
        .value_name("N")
        .value_parser(value_parser!(u32).range(0..536_870_911))
        .help(
            "Limit a message to N words of 8 bytes, and the cost of following its pointers to as many [default: 8388608]",
        )
}

/// The option that limits the levels of pointers.
pub fn nesting<'a>(alloc: Global) -> Arg<'a> {
    Arg::new(alloc, "nesting")
        .long("nesting")
        .value_name("N")
        .value_parser(value_parser!(u32).range(0..1025))
        .help("Limit a message to N levels of pointers [default: 64]")
}

/// The choices of what is logged.
static LOGS: [&str; 4] = ["lines", "refused", "json", "none"];

/// The option that chooses what is logged.
pub fn log<'a>(alloc: Global) -> Arg<'a> {
    Arg::new(alloc, "log")
        .long("log")
        .value_name("WHICH")
        .value_parser(LOGS.as_slice())
        .default_value("refused")
        .help(
            "Choose the messages that get a line on standard error: each (lines), those that are refused or have a refused call (refused), each as JSON (json), or none",
        )
}

/// The choices of what happens to a refused message.
static ON_REFUSED: [&str; 3] = ["skip", "stop", "pass"];

/// The option that chooses what happens to a refused message.
pub fn on_refused<'a>(alloc: Global) -> Arg<'a> {
    Arg::new(alloc, "on-refused")
        .long("on-refused")
        .value_name("WHAT")
        .value_parser(ON_REFUSED.as_slice())
        .default_value("skip")
        .help(
            "Skip a refused message, skip it and stop there, or pass it on unedited; the status is 3",
        )
}

/// The option that reports counts.
pub fn stats<'a>(alloc: Global) -> Arg<'a> {
    Arg::new(alloc, "stats")
        .long("stats")
        .action(ArgAction::SetTrue)
        .help(
            "Report at the end how many messages were written and refused, how many calls were refused and why, and how many bytes were read; also once a second if standard error is a terminal",
        )
}

/// The option that lets a refused call refuse its message.
pub fn strict<'a>(alloc: Global) -> Arg<'a> {
    Arg::new(alloc, "strict")
        .long("strict")
        .action(ArgAction::SetTrue)
        .help(
            "Refuse a message as soon as one of its calls is refused: it is not written, and --refused and --on-refused apply to it",
        )
}

/// The option that leaves the status 0 if calls are refused.
pub fn allow_refused_calls<'a>(alloc: Global) -> Arg<'a> {
    Arg::new(alloc, "allow-refused-calls")
        .long("allow-refused-calls")
        .action(ArgAction::SetTrue)
        .help("End with status 0, not 3, if calls were refused but every message was written")
}

/// The file of messages that are refused.
pub fn refused<'a>(alloc: Global) -> Arg<'a> {
    Arg::new(alloc, "refused")
        .long("refused")
        .value_name("FILE")
        .help("Write the messages that are refused to FILE, as they came")
}

/// The schema file.
pub fn schema<'a>(alloc: Global) -> Arg<'a> {
    Arg::new(alloc, "schema")
        .long("schema")
        .value_name("SCHEMA")
        .required(true)
        .help(SCHEMA_HELP)
}

/// The help of an argument that is a schema.
pub static SCHEMA_HELP: &str =
    "Read the schema from its source (shop.capnp), from what capnp compile -o- writes, or from a JSON schema file; - means standard input";

/// The folders in which imports of schema sources are looked up.
pub fn import_path<'a>(alloc: Global) -> Arg<'a> {
    Arg::new(alloc, "import-path")
        .short('I')
        .long("import-path")
        .value_name("DIR")
        .action(ArgAction::Append)
        .help(
            "Look up imports that begin with a slash in DIR; /usr/local/include and /usr/include come after the folders that are named",
        )
}

/// An option without effect, which scripts may give.
pub fn floats_as_bits<'a>(alloc: Global) -> Arg<'a> {
    Arg::new(alloc, "floats-as-bits")
        .long("floats-as-bits")
        .action(ArgAction::SetTrue)
        .help("Change nothing: floats are always read, shown and set as decimal numbers")
}

/// The struct at the root of messages.
pub fn root<'a>(alloc: Global) -> Arg<'a> {
    Arg::new(alloc, "root")
        .long("root")
        .value_name("NAME|ID")
        .help(
            "Name the struct at the root of messages: shop.capnp:Order, Order, Box.Item, or an id as 10 or 0xa; not needed if the schema has one struct at its top",
        )
}

/// The struct that is compared in two schemas.
pub fn compared_root<'a>(alloc: Global) -> Arg<'a> {
    Arg::new(alloc, "root")
        .long("root")
        .value_name("NAME|ID")
        .help(
            "Compare this struct and everything that it leads to; without this option, each struct that both schemas have",
        )
}

/// An argument that is a file.
pub fn file<'a>(alloc: Global, id: &'a str, value_name: &'a str, help: &'a str) -> Arg<'a> {
    Arg::new(alloc, id)
        .value_name(value_name)
        .required(true)
        .help(help)
}

/// The file of renamed fields.
pub fn renames<'a>(alloc: Global) -> Arg<'a> {
    Arg::new(alloc, "renames")
        .long("renames")
        .value_name("FILE")
        .help("Read from a JSON file which fields have other names in the newer schema")
}

/// A number of messages.
pub fn number<'a>(alloc: Global, id: &'a str, help: &'a str) -> Arg<'a> {
    Arg::new(alloc, id)
        .long(id)
        .value_name("N")
        .value_parser(value_parser!(u64).range(1..))
        .help(help)
}

/// The spellings of values in text.
static STYLES: [&str; 2] = ["hagzimot", "capnp"];

/// The option that chooses how values are spelled in text.
pub fn style<'a>(alloc: Global) -> Result<Arg<'a>, AllocError> {
    Arg::new(alloc, "style")
        .long("style")
        .value_name("STYLE")
        .value_parser(STYLES.as_slice())
        .default_value("hagzimot")
        .help("Choose how values are written: capnp prints text that `capnp encode` reads back")
        .conflicts_with("json")
}

/// An option that makes a call.
pub fn call<'a>(alloc: Global, id: &'a str, value_name: &'a str, help: &'a str) -> Arg<'a> {
    Arg::new(alloc, id)
        .long(id)
        .value_name(value_name)
        .action(ArgAction::Append)
        .allow_hyphen_values(true)
        .help(help)
}

/// The option of the condition that messages have to meet.
pub fn condition<'a>(alloc: Global, help: &'a str) -> Arg<'a> {
    Arg::new(alloc, "where")
        .long("where")
        .value_name("EXPR")
        .allow_hyphen_values(true)
        .help(help)
}
