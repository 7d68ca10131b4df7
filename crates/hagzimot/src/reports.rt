//! Subcommands that read only a schema.

use crate::faults::Failure;
use crate::kinds::check_messages;
use crate::words;
use capnp_relay_requests::request::Floats;
use clap::ArgMatches;
use hagzimot_schemas::schema_text::{IdForm, schema_text};
use hagzimot_schemas::schemas::{SchemaTrouble, read_nodes, read_set};

/// Prints a line.
pub fn print_line(rt: &HostRuntime, line: &str) -> Result<(), Failure> {
    match println!(rt; "{line}") {
        Ok(()) => Ok(()),
        Err(e) => Err(Failure::unwritten(rt.alloc(), "-", e)),
    }
}

/// Prints a text, which ends with a line feed.
fn print_text(rt: &HostRuntime, text: &str) -> Result<u8, Failure> {
    match print!(rt; "{text}") {
        Ok(()) => Ok(0),
        Err(e) => Err(Failure::unwritten(rt.alloc(), "-", e)),
    }
}

/// The status if a schema breaks a rule.
const BREAKS_RULE: u8 = 1;

/// Runs `hagzimot check`, which reports whether a schema keeps the rules, or whether messages are
/// in kind under it.
pub fn check(rt: &HostRuntime, matches: &ArgMatches<'_>) -> Result<u8, Failure> {
    let alloc = rt.alloc();
    let id = if matches.contains_id("schema-file") {
        "schema-file"
    } else {
        "schema"
    };
    if matches.contains_id("files") {
        return check_messages(rt, matches, id);
    }
    let name = words::text(matches, id);
    let bytes = words::schema_bytes(rt, matches, name)?;
    let set = match read_set(alloc, &bytes, Floats::AsBits) {
        Ok(checked) => checked.set,
        Err(why @ SchemaTrouble::Rule { .. }) => {
            let line = format!(in alloc; "{name}: {why}")?;
            print_line(rt, line.as_str())?;
            return Ok(BREAKS_RULE);
        }
        Err(why) => return Err(words::schema_failure(alloc, name, &why)),
    };
    let count = set.nodes().len();
    let line = format!(in alloc; "{name}: {count} nodes keep all rules")?;
    print_line(rt, line.as_str())?;
    Ok(0)
}

/// Runs `hagzimot schema`, which prints a schema as a JSON schema file.
pub fn schema(rt: &HostRuntime, matches: &ArgMatches<'_>) -> Result<u8, Failure> {
    let alloc = rt.alloc();
    let name = words::text(matches, "schema");
    let bytes = words::schema_bytes(rt, matches, name)?;
    let nodes = match read_nodes(alloc, &bytes, Floats::AsBits) {
        Ok(nodes) => nodes,
        Err(why) => return Err(words::schema_failure(alloc, name, &why)),
    };
    let ids = if matches.get_flag("ids-as-texts") {
        IdForm::Texts
    } else {
        IdForm::Numbers
    };
    match schema_text(alloc, &nodes, ids) {
        Ok(text) => print_text(rt, text.as_str()),
        Err(why) => Err(Failure::about(alloc, name, &why)),
    }
}
