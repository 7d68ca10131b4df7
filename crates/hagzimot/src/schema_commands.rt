//! The words of subcommands that take only schemas.

use crate::arguments::{
    SCHEMA_HELP, compared_root, file, floats_as_bits, form, import_path, limit_of_words, nesting,
    no_sync, output, renames, root, sources,
};
use crate::options::{Options, Taken};
use clap::{Arg, ArgAction};
use std::alloc::{AllocError, Global};

/// The words of `hagzimot check`.
pub fn check<'a, 'w>(alloc: Global, taken: Taken<'w>) -> Result<Options<'a, 'w>, AllocError> {
    Options::new(
        alloc,
        taken,
        "check",
        "Check that a schema keeps the twelve rules, or that the lists of messages have the element sizes that the schema names",
    )
    .arg(
        file(alloc, "schema", "SCHEMA", SCHEMA_HELP)
            .required(false)
            .required_unless_present("schema-file")?
            .conflicts_with("schema-file")?,
    )?
    .arg(
        Arg::new(alloc, "schema-file")
            .long("schema")
            .value_name("SCHEMA")
            .help("Name the schema as other commands do, by an option"),
    )?
    .arg(import_path(alloc))?
    .arg(floats_as_bits(alloc))?
    .required_by(
        "root",
        Arg::new(alloc, "files")
            .long("messages")
            .value_name("FILE")
            .action(ArgAction::Append)
            .num_args(1..)
            .help(
                "Check the messages of these files, or of standard input (-): report the first list of each message that isn't in kind",
            ),
    )?
    .arg(root(alloc).requires_arg("files")?)?
    .arg(form(alloc, "in", "Read messages in this form"))?
    .arg(limit_of_words(alloc))?
    .arg(nesting(alloc))
}

/// The words of `hagzimot schema`.
pub fn schema_file<'a, 'w>(alloc: Global, taken: Taken<'w>) -> Result<Options<'a, 'w>, AllocError> {
    Options::new(
        alloc,
        taken,
        "schema",
        "Print a schema as a JSON schema file",
    )
    .arg(file(alloc, "schema", "SCHEMA", SCHEMA_HELP))?
    .arg(import_path(alloc))?
    .arg(floats_as_bits(alloc))?
    .arg(
        Arg::new(alloc, "ids-as-texts")
            .long("ids-as-texts")
            .action(ArgAction::SetTrue)
            .help("Print ids as texts, for readers of JSON that round long numbers"),
    )
}

/// The words of `hagzimot compatible`.
pub fn compatible<'a, 'w>(alloc: Global, taken: Taken<'w>) -> Result<Options<'a, 'w>, AllocError> {
    Options::new(
        alloc,
        taken,
        "compatible",
        "Check whether messages of one schema read the same under a newer one",
    )
    .arg(file(
        alloc,
        "older",
        "OLD",
        "Read the older schema from this file",
    ))?
    .arg(file(
        alloc,
        "newer",
        "NEW",
        "Read the newer schema from this file",
    ))?
    .arg(import_path(alloc))?
    .arg(floats_as_bits(alloc))?
    .arg(compared_root(alloc))?
    .arg(
        Arg::new(alloc, "all")
            .long("all")
            .action(ArgAction::SetTrue)
            .help("Report each pair of structs that breaks a rule, not only the first"),
    )?
    .arg(
        Arg::new(alloc, "both")
            .long("both")
            .action(ArgAction::SetTrue)
            .help("Compare in both directions"),
    )?
    .arg(renames(alloc).conflicts_with("both")?)
}

/// The words of `hagzimot compile`.
pub fn compile<'a, 'w>(alloc: Global, taken: Taken<'w>) -> Result<Options<'a, 'w>, AllocError> {
    Options::new(
        alloc,
        taken,
        "compile",
        "Compile schema sources to what `capnp compile -o-` writes",
    )
    .arg(import_path(alloc))?
    .arg(output(alloc))?
    .arg(no_sync(alloc))?
    .arg(sources(alloc))
}

/// The words of `hagzimot id`.
pub fn id<'a, 'w>(alloc: Global, taken: Taken<'w>) -> Result<Options<'a, 'w>, AllocError> {
    Ok(Options::new(
        alloc,
        taken,
        "id",
        "Print a new id of random bits, as the first line of a schema source has it",
    ))
}
