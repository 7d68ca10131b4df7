//! The work of the command's subcommands over sources and sinks, without files.
#![tactic(auto)]

pub mod canonical;
pub mod convert;
pub mod copies;
pub mod float_calls;
mod float_fields;
pub mod float_replies;
pub mod names;
pub mod passing;
pub mod paths;
pub mod sizes;
pub mod strict;
pub mod word_calls;
