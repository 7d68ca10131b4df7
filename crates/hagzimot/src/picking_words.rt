//! The words of the subcommands that pick messages.

use crate::arguments::{
    condition, files, floats_as_bits, form, import_path, limit_of_words, nesting, no_sync, output,
    root, schema,
};
use crate::options::{Options, Taken};
use clap::{Arg, ArgAction};
use std::alloc::{AllocError, Global};

/// Adds the options of `show` that pick messages, and fields of them.
pub fn with_picks<'a, 'w>(
    alloc: Global,
    options: Options<'a, 'w>,
) -> Result<Options<'a, 'w>, AllocError> {
    options
        .arg(condition(
            alloc,
            "Show only the messages that meet a condition, as 'status = sent and not has customer.email'",
        ))?
        .arg(
            Arg::new(alloc, "fields")
                .long("fields")
                .value_name("PATHS")
                .help(
                    "Print a table of these fields, one row a message, as number,customer.name,lines[0].count",
                ),
        )?
        .arg(
            Arg::new(alloc, "tsv")
                .long("tsv")
                .action(ArgAction::SetTrue)
                .help("Separate the cells of --fields by tabs, which is the default")
                .requires_arg("fields")?,
        )?
        .arg(
            Arg::new(alloc, "csv")
                .long("csv")
                .action(ArgAction::SetTrue)
                .help("Separate the cells of --fields by commas")
                .requires_arg("fields")?
                .conflicts_with("tsv")?,
        )
}

/// Returns the option of `relay` that picks messages.
pub fn edited<'a>(alloc: Global) -> Arg<'a> {
    condition(
        alloc,
        "Edit only the messages that meet a condition, as 'status = sent and not has customer.email'; write the others unedited",
    )
}

/// Returns the words of `filter`.
pub fn filter<'a, 'w>(alloc: Global, taken: Taken<'w>) -> Result<Options<'a, 'w>, AllocError> {
    Options::new(
        alloc,
        taken,
        "filter",
        "Write the messages that meet a condition, each with the same segments",
    )
    .arg(schema(alloc))?
    .arg(import_path(alloc))?
    .arg(floats_as_bits(alloc))?
    .arg(root(alloc))?
    .arg(condition(
        alloc,
        "Write only the messages that meet this condition, as 'status = sent and not has customer.email'",
    )
    .required(true))?
    .arg(form(alloc, "in", "Read messages in this form"))?
    .arg(form(alloc, "out", "Write messages in this form"))?
    .arg(limit_of_words(alloc))?
    .arg(nesting(alloc))?
    .arg(
        Arg::new(alloc, "stats")
            .long("stats")
            .action(ArgAction::SetTrue)
            .help("Report at the end how many messages match"),
    )?
    .arg(output(alloc))?
    .arg(no_sync(alloc))?
    .arg(files(alloc))
}

/// Returns the words of `hash`.
pub fn hash<'a, 'w>(alloc: Global, taken: Taken<'w>) -> Result<Options<'a, 'w>, AllocError> {
    Options::new(
        alloc,
        taken,
        "hash",
        "Print the SHA-256 of each message's canonical bytes, and the number of the message",
    )
    .arg(form(alloc, "in", "Read messages in this form"))?
    .arg(limit_of_words(alloc))?
    .arg(nesting(alloc))?
    .arg(files(alloc))
}
