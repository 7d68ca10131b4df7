//! The calls of a calls file.
ghost use Rattle.std.specs.Prelude.{IfOk};
ghost use Rattle.hagzimot_in_process.specs.Relays.{AreMade, AreCallsIn};

use crate::trouble::RelayTrouble;
use capnp_calls::{Call, CallFault, CallValue, Step, Verb};
use capnp_relay_files::calls_file::calls_file;
use capnp_relay_files::fault::FileFault;
use capnp_relay_streams::options::ReaderOptions;
use hagzimot_forms::calls_form::calls_form_fault;
use std::alloc::Global;

/// Makes the calls of these parts, or returns the first that is refused.
fn calls_of(
    alloc: Global,
    parts: Vec<(Vec<Step>, Verb, Option<CallValue>)>,
) -> Result<Vec<Call>, RelayTrouble>
    ensures { IfOk result (λ calls. AreMade parts.items calls.items) }
{
    let mut calls = Vec::new(alloc);
    for (path, verb, value) in parts {
        match Call::new(alloc, path, verb, value) {
            Ok(call) => match calls.push(call) {
                Ok(()) => {}
                Err(_) => return Err(RelayTrouble::Memory),
            },
            Err(CallFault::Memory) => return Err(RelayTrouble::Memory),
            Err(fault) => return Err(RelayTrouble::Call(calls.len() + 1, fault)),
        }
    }
    Ok(calls)
}

/// Makes the calls of a calls file, and returns the limits of messages beside them.
pub(crate) fn made_calls(
    alloc: Global,
    bytes: &[u8],
) -> Result<(Vec<Call>, ReaderOptions), RelayTrouble>
    ensures { IfOk result (λ made. AreCallsIn bytes.now made.0.items made.1) }
{
    let file = match calls_file(alloc, bytes) {
        Ok(file) => file,
        Err(FileFault::Form) => return Err(RelayTrouble::Calls(calls_form_fault(alloc, bytes))),
        Err(FileFault::Memory) => return Err(RelayTrouble::Memory),
    };
    let limits = ReaderOptions {
        traversal_limit_in_words: Some(file.words),
        nesting_limit: file.nesting,
    };
    let calls = calls_of(alloc, file.calls)?;
    Ok((calls, limits))
}
