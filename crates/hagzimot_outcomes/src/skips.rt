//! Calls that did not run, among the calls that did.
ghost use Rattle.std.specs.Prelude.{◌≡◌, ◌++◌, ◌==◌, replicate, OnOk, IfOk};
ghost use Rattle.std.specs.Bool.{MatchBool};
ghost use Rattle.std.specs.Vec.Iter.{into_iter_items};
ghost use Rattle.hagzimot_outcomes.specs.Skips.{is_skipped, next_call, further_calls, all_calls, number_behind, number_among, HasSkips};
ghost use Rattle.hagzimot_outcomes.specs.declared.outcomes.CallOutcome.TheVariants.{Done};

use crate::outcomes::{CallOutcome, Outcome, RefusedCall};
use std::alloc::{AllocError, Global};
use std::cell::Cell;
use std::vec::IntoIter;

/// The calls that did not run, by probes that met an inactive member.
#[derive(Clone, Copy)]
pub struct Skips<'p, 'i> {
    /// The number of each call's probe, counted from 0 and below 64, if the call has a probe.
    pub probes: &'p [Option<usize>],
    /// The places of the probes that met an inactive member, as bits.
    pub inactive: &'i Cell<u64>,
}

/// Tests whether a call did not run, by its probe.
fn is_skipped(bits: u64, probe: Option<usize>) -> bool
    ensures { result ≡ is_skipped bits probe }
{
    match probe {
        Some(number) => number < 64 && (bits >> number) % 2 == 1,
        None => false,
    }
}

/// Appends a call that did not run to others, or the next of those that ran.
fn push_next(
    calls: &mut Vec<CallOutcome>,
    left: &mut IntoIter<CallOutcome>,
    skipped: bool,
) -> Result<(), AllocError>
    ensures calls { OnOk result (calls.new.items
        ≡ calls.old.items ++ next_call skipped (into_iter_items left.old)) }
    ensures left { OnOk result (into_iter_items left.new
        ≡ further_calls skipped (into_iter_items left.old)) }
{
    if skipped {
        calls.push(CallOutcome::Skipped)?;
        return Ok(());
    }
    if let Some(call) = left.next() {
        calls.push(call)?;
    }
    Ok(())
}

/// Returns the outcome of each call, by its probe. `ran` has the outcomes of the calls that ran.
fn calls_among(
    alloc: Global,
    bits: u64,
    probes: &[Option<usize>],
    ran: Vec<CallOutcome>,
) -> Result<Vec<CallOutcome>, AllocError>
    ensures { IfOk result (λ calls. calls.items ≡ all_calls bits probes.now ran.items) }
{
    let mut calls = Vec::new(alloc);
    let mut left = ran.into_iter();
    let mut rest = probes;
    while let [probe, others @ ..] = rest {
        push_next(&mut calls, &mut left, is_skipped(bits, *probe))?;
        rest = others;
    }
    Ok(calls)
}

/// Returns the outcomes of `count` calls that are done.
fn all_done(alloc: Global, count: usize) -> Result<Vec<CallOutcome>, AllocError>
    ensures { IfOk result (λ calls. calls.items ≡ replicate count Done) }
{
    let mut calls = Vec::new(alloc);
    for _call in 0..count {
        calls.push(CallOutcome::Done)?;
    }
    Ok(calls)
}

/// Returns the outcome of a message, with the calls that did not run among the others.
fn with_skips(
    alloc: Global,
    bits: u64,
    probes: &[Option<usize>],
    outcome: Outcome,
) -> Result<Outcome, AllocError>
    ensures { IfOk result (λ told. HasSkips bits probes.now outcome told) }
{
    match outcome {
        Outcome::Written(ran) => Ok(Outcome::Written(calls_among(alloc, bits, probes, ran)?)),
        Outcome::Done(count) => {
            let ran = all_done(alloc, count)?;
            Ok(Outcome::Written(calls_among(alloc, bits, probes, ran)?))
        }
        other => Ok(other),
    }
}

/// Returns the number that a later call has after this one, among those that ran.
fn number_behind(skipped: bool, number: usize) -> usize
    ensures { result ≡ number_behind skipped number }
{
    if skipped {
        number
    } else {
        number.saturating_sub(1)
    }
}

/// Returns the number among all calls of the call that has this number among those that ran.
/// Returns `None` if fewer calls ran.
fn number_among(bits: u64, probes: &[Option<usize>], number: usize) -> Option<usize>
    ensures { result ≡ number_among bits 0 probes.now number }
{
    let mut left = number;
    for (before, probe) in probes.iter().enumerate() {
        let skipped = is_skipped(bits, *probe);
        if !skipped && left <= 1 {
            return Some(before + 1);
        }
        left = number_behind(skipped, left);
    }
    None
}

impl Skips<'_, '_> {
    /// Returns the outcome of a message, with the calls that did not run among the others. Returns
    /// an error if an allocation is refused.
    pub(crate) fn among(self, alloc: Global, outcome: Outcome) -> Result<Outcome, AllocError> {
        match self.inactive.get() {
            0 => Ok(outcome),
            bits => with_skips(alloc, bits, self.probes, outcome),
        }
    }

    /// Returns a refused call with its number among all calls, in place of the number among those
    /// that ran.
    pub(crate) fn numbered(self, call: RefusedCall) -> RefusedCall {
        match number_among(self.inactive.get(), self.probes, call.number) {
            Some(number) => RefusedCall {
                number,
                kind: call.kind,
            },
            None => call,
        }
    }
}
