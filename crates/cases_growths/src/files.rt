//! Files that are read, and the values made from their contents.

use crate::fault::Fault;
use crate::marks;
use crate::relays::{CALLS, RENAMES, SCHEMA};
use capnp_calls::{Call, CallFault, CallValue, Step, Verb};
use capnp_calls_versions::renamings::{RenamingFault, Renamings};
use capnp_records::fault::SchemaFault;
use capnp_records::set::SchemaSet;
use capnp_relay_files::calls_file::calls_file;
use capnp_relay_files::fault::FileFault;
use capnp_relay_files::renames_file::renames_file;
use capnp_relay_files::schema_file::schema_file;
use std::alloc::Global;

/// A frame of a struct of the number 5.
const FRAME: [u8; 24] = [
    0, 0, 0, 0, 2, 0, 0, 0, 0, 0, 0, 0, 1, 0, 0, 0, 5, 0, 0, 0, 0, 0, 0, 0,
];

/// The result of a call: its count, or a lack of memory.
type End = Result<usize, Ended>;

/// The reason why a call counts nothing.
#[derive(Clone, Copy)]
enum Ended {
    Memory,
    Otherwise,
}

impl From<FileFault> for Ended {
    fn from(fault: FileFault) -> Ended {
        match fault {
            FileFault::Memory => Ended::Memory,
            FileFault::Form => Ended::Otherwise,
        }
    }
}

impl From<SchemaFault> for Ended {
    fn from(fault: SchemaFault) -> Ended {
        match fault {
            SchemaFault::Memory => Ended::Memory,
            SchemaFault::Rule { .. } => Ended::Otherwise,
        }
    }
}

impl From<CallFault> for Ended {
    fn from(fault: CallFault) -> Ended {
        match fault {
            CallFault::Memory => Ended::Memory,
            _ => Ended::Otherwise,
        }
    }
}

impl From<RenamingFault> for Ended {
    fn from(fault: RenamingFault) -> Ended {
        match fault {
            RenamingFault::Memory => Ended::Memory,
            RenamingFault::Twice => Ended::Otherwise,
        }
    }
}

/// Makes a path of one name.
fn path(alloc: Global) -> Result<Vec<Step>, Fault> {
    let mut path = Vec::new(alloc);
    path.push(Step::Name(String::from_str(alloc, "t")?))?;
    Ok(path)
}

/// Makes a call that sets a message, which is made canonical.
fn made_call(rt: &HostRuntime) -> Result<End, Fault> {
    let alloc = rt.alloc();
    let path = path(alloc)?;
    let value = CallValue::Message(FRAME.to_vec(alloc)?);
    marks::begin(rt);
    let made = Call::new(alloc, path, Verb::Set, Some(value));
    marks::end(rt);
    Ok(match made {
        Ok(call) => Ok(call.path().len()),
        Err(fault) => Err(Ended::from(fault)),
    })
}

/// Makes the set of a file's nodes.
fn made_set(rt: &HostRuntime) -> Result<End, Fault> {
    let nodes = schema_file(rt.alloc(), SCHEMA.as_bytes())?;
    marks::begin(rt);
    let made = SchemaSet::new(nodes);
    marks::end(rt);
    Ok(match made {
        Ok(set) => Ok(set.nodes().len()),
        Err(fault) => Err(Ended::from(fault)),
    })
}

/// Makes the renamings of a file.
fn made_renamings(rt: &HostRuntime) -> Result<End, Fault> {
    let list = renames_file(rt.alloc(), RENAMES.as_bytes())?;
    marks::begin(rt);
    let made = Renamings::new(list);
    marks::end(rt);
    Ok(match made {
        Ok(renamings) => Ok(renamings.list().len()),
        Err(fault) => Err(Ended::from(fault)),
    })
}

/// Reads the nodes, the calls or the renamings of a file.
fn read(alloc: Global, call: &str) -> End {
    match call {
        "schema_file" => Ok(schema_file(alloc, SCHEMA.as_bytes())?.len()),
        "calls_file" => Ok(calls_file(alloc, CALLS.as_bytes())?.calls.len()),
        "renames_file" => Ok(renames_file(alloc, RENAMES.as_bytes())?.len()),
        _ => Err(Ended::Otherwise),
    }
}

/// Makes the named call, whose allocations between the marks are counted, and returns its result.
fn called(rt: &HostRuntime, call: &str) -> Result<End, Fault> {
    match call {
        "call" => made_call(rt),
        "schema_set" => made_set(rt),
        "renamings" => made_renamings(rt),
        _ => {
            marks::begin(rt);
            let end = read(rt.alloc(), call);
            marks::end(rt);
            Ok(end)
        }
    }
}

/// Makes a case, and returns its line.
pub fn told(rt: &HostRuntime, call: &str) -> Result<String, Fault> {
    match called(rt, call)? {
        Ok(count) => Ok(format!(in rt.alloc(); "done; {count}")?),
        Err(Ended::Memory) => Ok(String::from_str(rt.alloc(), "refused Memory")?),
        Err(Ended::Otherwise) => Err(Fault::Unmade),
    }
}
