//! What is looked at before a relay reads its first message.

use crate::faults::Failure;
use crate::relay_calls::CallSources;
use capnp_calls::Call;
use capnp_calls_versions::admitted::{Admission, admitted_with};
use capnp_calls_versions::renamings::Renamings;
use capnp_calls_versions::root::Root;
use hagzimot_commands::names::first_marked_name;
use hagzimot_schemas::breaks::{Version, breaks_between, sentence};
use hagzimot_schemas::schemas::RootedSchema;
use std::alloc::Global;

/// The two schemas of a relay, the calls, and where these come from.
#[derive(Clone, Copy)]
pub struct Versions<'a, 's, 'm> {
    pub older: &'a RootedSchema,
    pub newer: &'a RootedSchema,
    pub calls: &'a [Call],
    pub sources: &'s CallSources<'m>,
}

impl<'a> Versions<'a, '_, '_> {
    /// The roots of the older and the newer schema.
    fn roots(self) -> (Root<'a>, Root<'a>) {
        let older = Root {
            set: self.older.set(),
            id: self.older.root_id(),
        };
        let newer = Root {
            set: self.newer.set(),
            id: self.newer.root_id(),
        };
        (older, newer)
    }

    /// Refuses schemas that are not compatible, and says what breaks first.
    pub fn check_schemas(self, alloc: Global, renamings: &Renamings) -> Result<(), Failure> {
        let (older, newer) = self.roots();
        let Ok(breaks) = breaks_between(alloc, older, newer, renamings, false) else {
            return Err(Failure::Memory);
        };
        let Some(broken) = breaks.first() else {
            return Ok(());
        };
        let older = Version {
            nodes: self.older.nodes(),
            age: "older",
        };
        let newer = Version {
            nodes: self.newer.nodes(),
            age: "newer",
        };
        let why = sentence(alloc, older, newer, *broken)?;
        let why = format!(in alloc; "not compatible: {why}")?;
        Err(Failure::about(alloc, "--newer", &why))
    }

    /// Refuses calls that can't be relayed between the schemas.
    pub fn check_calls(self, alloc: Global, renamings: &Renamings) -> Result<(), Failure> {
        let (older, newer) = self.roots();
        match admitted_with(alloc, self.calls, older, newer, renamings) {
            Ok(Admission::Admitted) => Ok(()),
            Ok(Admission::Refused(number)) => {
                let why = "the newer schema doesn't admit this call";
                match number
                    .checked_sub(1)
                    .and_then(|place| self.calls.get(place))
                {
                    Some(call) => Err(self.sources.failure(alloc, number, call, &why)),
                    None => Err(Failure::about(alloc, "--newer", &why)),
                }
            }
            Err(_) => Err(Failure::Memory),
        }
    }
}

/// Refuses names that a line of the log could not be told apart from.
pub fn check_names(alloc: Global, schema: &RootedSchema) -> Result<(), Failure> {
    match first_marked_name(schema.nodes()) {
        Some(member) => {
            let name = member.name;
            let node = member.node.display_name.as_str();
            let why = format!(in alloc;
                "the name {name:?} of {node:?} can't be logged as text (log by --log json or --log none, or leave --get out)"
            )?;
            Err(Failure::words(alloc, "--log", &why))
        }
        None => Ok(()),
    }
}
