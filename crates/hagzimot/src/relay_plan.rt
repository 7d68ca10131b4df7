//! Which calls of a relay run only where a member is active.

use capnp_calls::{Call, CallFault, Step, Verb};
use hagzimot_clears::planned::PlannedCall;
use hagzimot_commands::word_calls::CallParts;
use std::alloc::Global;

/// Which calls run only where a member is active.
#[derive(Drop)]
pub struct Plan {
    /// Every call, with the number of its probe if it has one.
    pub planned: Vec<PlannedCall>,
    /// The same numbers.
    pub numbers: Vec<Option<usize>>,
    /// The probes: a `get` along the path of each such call.
    pub probes: Vec<Call>,
}

impl Plan {
    /// No call is planned yet.
    pub fn new(alloc: Global) -> Plan {
        Plan {
            planned: Vec::new(alloc),
            numbers: Vec::new(alloc),
            probes: Vec::new(alloc),
        }
    }

    /// Adds a call, which runs as a probe of this path says, if there is one.
    fn add(
        &mut self,
        alloc: Global,
        parts: CallParts,
        probe: Option<Vec<Step>>,
    ) -> Result<Call, CallFault> {
        let number = match probe {
            Some(path) => {
                let number = self.probes.len();
                let probe = Call::new(alloc, path, Verb::Get, None)?;
                self.probes.push(probe).map_err(|_| CallFault::Memory)?;
                Some(number)
            }
            None => None,
        };
        let (path, verb, value) = parts;
        let planned = PlannedCall::new(alloc, path, verb, value, number)?;
        let call = planned.copy(alloc).map_err(|_| CallFault::Memory)?;
        self.numbers.push(number).map_err(|_| CallFault::Memory)?;
        self.planned.push(planned).map_err(|_| CallFault::Memory)?;
        Ok(call)
    }
}

/// The call of these parts, which is added to the plan, if there is one.
pub fn made(
    alloc: Global,
    plan: &mut Option<Plan>,
    parts: CallParts,
    probe: Option<Vec<Step>>,
) -> Result<Call, CallFault> {
    match plan {
        Some(plan) => plan.add(alloc, parts, probe),
        None => {
            let (path, verb, value) = parts;
            Call::new(alloc, path, verb, value)
        }
    }
}
