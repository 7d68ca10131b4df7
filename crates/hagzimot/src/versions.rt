//! The subcommand `hagzimot compatible`.

use crate::faults::Failure;
use crate::reports::print_line;
use crate::words;
use capnp_calls_versions::renamings::Renamings;
use capnp_calls_versions::root::Root;
use capnp_relay_requests::request::Floats;
use clap::ArgMatches;
use hagzimot_schemas::breaks::{Version, breaks_between, interface_sentence, sentence};
use hagzimot_schemas::interfaces::{Interfaces, interface_breaks};
use hagzimot_schemas::pairs::pairs_of;
use hagzimot_schemas::schemas::{CheckedSchema, SchemaTrouble, read_set, root_of};
use std::collections::HashSet;

/// One of the two schemas, and its age: `older` or `newer`.
#[derive(Clone, Copy)]
struct Side<'a> {
    schema: &'a CheckedSchema,
    age: &'a str,
}

impl<'a> Side<'a> {
    /// Returns the struct of an id.
    fn root(self, id: u64) -> Root<'a> {
        let set = &self.schema.set;
        Root { set, id }
    }

    /// Returns the fields that are capabilities of an interface.
    fn interfaces(self) -> Interfaces<'a> {
        Interfaces {
            version: self.version(),
            fields: &self.schema.interfaces,
        }
    }

    /// Tests whether the schema names the interfaces of its fields.
    fn tells_interfaces(self) -> bool {
        !self.schema.files.is_empty()
    }

    /// Returns the schema with its age, as sentences name it.
    fn version(self) -> Version<'a> {
        Version {
            nodes: self.schema.set.nodes(),
            age: self.age,
        }
    }
}

/// A comparison of two schemas, and how it is reported.
#[derive(Drop)]
struct Comparison<'a> {
    from: Side<'a>,
    to: Side<'a>,
    renamings: &'a Renamings,
    /// Each break is reported, not only the first.
    all: bool,
    /// The text before each line.
    front: &'a str,
    /// The sentences that were printed; several structs may lead to one break.
    told: HashSet<String>,
}

impl Comparison<'_> {
    /// Prints the sentence of a break, unless it was printed before.
    fn print_break(&mut self, rt: &HostRuntime, why: String) -> Result<(), Failure> {
        let line = format!(in rt.alloc(); "{}not compatible: {why}", self.front)?;
        if self.told.insert(why)? {
            print_line(rt, line.as_str())?;
        }
        Ok(())
    }

    /// Tests whether nothing more is reported.
    fn is_over(&self) -> bool {
        !self.all && !self.told.is_empty()
    }

    /// Reports the fields that are capabilities of another interface in the newer version. Reports
    /// nothing if one of the schemas doesn't name interfaces.
    fn tell_interfaces(&mut self, rt: &HostRuntime, roots: (u64, u64)) -> Result<(), Failure> {
        let alloc = rt.alloc();
        if !self.from.tells_interfaces() || !self.to.tells_interfaces() {
            return Ok(());
        }
        let (older, newer) = (self.from.interfaces(), self.to.interfaces());
        let breaks = interface_breaks(alloc, older, newer, roots, self.renamings)?;
        for broken in &breaks {
            if self.is_over() {
                break;
            }
            let why = interface_sentence(alloc, older.version, newer.version, *broken)?;
            self.print_break(rt, why)?;
        }
        Ok(())
    }

    /// Reports what breaks the compatibility of two structs and of those that they lead to.
    fn tell_pair(&mut self, rt: &HostRuntime, roots: (u64, u64)) -> Result<(), Failure> {
        let alloc = rt.alloc();
        let (from, to) = (self.from.root(roots.0), self.to.root(roots.1));
        let Ok(breaks) = breaks_between(alloc, from, to, self.renamings, self.all) else {
            return Err(Failure::Memory);
        };
        for broken in &breaks {
            let why = sentence(alloc, self.from.version(), self.to.version(), *broken)?;
            self.print_break(rt, why)?;
        }
        if self.is_over() {
            return Ok(());
        }
        self.tell_interfaces(rt, roots)
    }

    /// Reports whether messages of one side read the same under the other. Returns the status.
    fn tell(mut self, rt: &HostRuntime, pairs: &[(u64, u64)]) -> Result<u8, Failure> {
        for roots in pairs {
            if self.is_over() {
                break;
            }
            self.tell_pair(rt, *roots)?;
        }
        if !self.told.is_empty() {
            return Ok(1);
        }
        let (front, from, to) = (self.front, self.from.age, self.to.age);
        let line = format!(in rt.alloc();
            "{front}compatible: what is written under the {from} schema reads the same under the {to}"
        )?;
        print_line(rt, line.as_str())?;
        Ok(0)
    }
}

/// Reads the schema of the file that an argument names.
fn schema_of(
    rt: &HostRuntime,
    matches: &ArgMatches<'_>,
    id: &str,
) -> Result<CheckedSchema, Failure> {
    let name = words::text(matches, id);
    let bytes = words::schema_bytes(rt, matches, name)?;
    match read_set(rt.alloc(), &bytes, Floats::AsBits) {
        Ok(schema) => Ok(schema),
        Err(why) => Err(words::schema_failure(rt.alloc(), name, &why)),
    }
}

/// Returns the id of the struct that `--root` names in a schema.
fn root_id(
    rt: &HostRuntime,
    matches: &ArgMatches<'_>,
    id: &str,
    schema: &CheckedSchema,
) -> Result<u64, Failure> {
    match root_of(rt.alloc(), schema, words::root_word(matches)) {
        Ok(id) => Ok(id),
        Err(trouble) => {
            let why = SchemaTrouble::Root(trouble);
            Err(words::schema_failure(rt.alloc(), words::text(matches, id), &why))
        }
    }
}

/// Returns the ids of the structs that are compared: the root that `--root` names or, without
/// `--root`, each struct that both schemas have. Reports the structs that the newer schema lacks.
fn pairs(
    rt: &HostRuntime,
    matches: &ArgMatches<'_>,
    older: &CheckedSchema,
    newer: &CheckedSchema,
) -> Result<Vec<(u64, u64)>, Failure> {
    let alloc = rt.alloc();
    if words::root_word(matches).is_some() {
        let mut pairs = Vec::new(alloc);
        let roots = (
            root_id(rt, matches, "older", older)?,
            root_id(rt, matches, "newer", newer)?,
        );
        pairs.push(roots)?;
        return Ok(pairs);
    }
    let found = pairs_of(alloc, older.set.nodes(), newer.set.nodes())?;
    for name in &found.left_out {
        // If standard error is closed, this can't be reported.
        let _said = eprintln!(rt;
            "left out: {name} (the newer schema has no struct of its id or name)"
        );
    }
    if found.pairs.is_empty() {
        let why = "the two schemas have no struct in common (are they versions of one schema?)";
        return Err(Failure::about(alloc, words::text(matches, "newer"), &why));
    }
    Ok(found.pairs)
}

/// Runs `hagzimot compatible`, which reports whether a newer schema keeps an older one, and with
/// `--both` whether the older keeps the newer too.
pub fn compatible(rt: &HostRuntime, matches: &ArgMatches<'_>) -> Result<u8, Failure> {
    let alloc = rt.alloc();
    if words::text(matches, "older") == "-" && words::text(matches, "newer") == "-" {
        let why = "standard input can't hold both schemas (name a file of either)";
        return Err(Failure::words(alloc, "-", &why));
    }
    let older_schema = schema_of(rt, matches, "older")?;
    let newer_schema = schema_of(rt, matches, "newer")?;
    let renamings = words::renamings(rt, matches)?;
    let pairs = pairs(rt, matches, &older_schema, &newer_schema)?;
    let (older, newer) = (
        Side {
            schema: &older_schema,
            age: "older",
        },
        Side {
            schema: &newer_schema,
            age: "newer",
        },
    );
    let both = matches.get_flag("both");
    let forth = Comparison {
        from: older,
        to: newer,
        renamings: &renamings,
        all: matches.get_flag("all"),
        front: if both { "older to newer: " } else { "" },
        told: HashSet::new(alloc),
    };
    let status = forth.tell(rt, &pairs)?;
    if !both {
        return Ok(status);
    }
    let back = Comparison {
        from: newer,
        to: older,
        renamings: &renamings,
        all: matches.get_flag("all"),
        front: "newer to older: ",
        told: HashSet::new(alloc),
    };
    let mut turned = Vec::new(alloc);
    for (older, newer) in &pairs {
        turned.push((*newer, *older))?;
    }
    Ok(status.max(back.tell(rt, &turned)?))
}
