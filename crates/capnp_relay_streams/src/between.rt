//! The relay between two versions of a schema.
ghost use Rattle.std.specs.Prelude.{◌≡◌, ◌+◌, ◌*◌, [], map, length, replicate, IfOk, IfErr, OnOk};
ghost use Rattle.capnp_calls.specs.CallViews.{call_view};
ghost use Rattle.capnp_calls.specs.Roots.{IsRoot};
ghost use Rattle.capnp_relay_loop.specs.Streams.{streams_of};
ghost use Rattle.capnp_relay_loop.specs.Run.{RunEndsAs};
ghost use Rattle.capnp_relay_loop.specs.Pauses.{RelaysPausing, moment, pauses_of};
ghost use Rattle.capnp_calls_versions.specs.Renamed.{renamings_of};
ghost use Rattle.capnp_relay_answers.specs.RootCalls.{root_schema, root_calls};
ghost use Rattle.capnp_relay_streams.specs.Newer.{MayRun, root_versions};
ghost use Rattle.capnp_relay_streams.specs.Relaying.{relay_work};
ghost use Rattle.capnp_relay_streams.specs.Ends.{IsHeld, between_asked, RelaysBetween, PausesBetween, IfRun, IfHeld, sinks_grow};

use crate::options::RelayOptions;
use crate::relay::relay_calls;
use capnp_calls::Call;
use capnp_calls::laws::{calls_are_given, roots_are_no_groups};
use capnp_calls_versions::admitted::{Admission, admitted_resolved};
use capnp_calls_versions::compatible::compatible_with;
use capnp_calls_versions::renamings::Renamings;
use capnp_calls_versions::root::Root;
use capnp_model::laws::records_of_trimmed_values;
use capnp_model::laws_of_edits::{records_after_calls, records_of_written_values};
use capnp_model_versions::laws_of_renamings::calls_across_renamed_versions;
use capnp_relay_answers::root_calls::RootCalls;
use capnp_relay_loop::ends::{Counts, RelayFault};
use capnp_relay_loop::pauses::{NoPause, Pause};
use capnp_stream_io::traits::{BufRead, Read, Write};
use capnp_values_queries::structs::StructSchema;
use std::alloc::Global;

/// The reason for which a relay between two versions ends before the end of input.
#[derive(Clone, Copy, Debug, PartialEq, Eq, thiserror::Error)]
pub enum BetweenFault {
    /// The newer schema isn't compatible with the older.
    #[error("not compatible")]
    NotCompatible,
    /// The call of this number, counted from 1, is the first that isn't admitted.
    #[error("call {0} not admitted")]
    NotAdmitted(usize),
    /// An allocation was refused before a message was read.
    #[error("memory")]
    Memory,
    /// The relay met a fault.
    #[error("{0}")]
    Relay(RelayFault),
}

/// Resolves the calls, if they may be relayed between the two versions.
fn resolve_between<'a>(
    alloc: Global,
    root: StructSchema<'a>,
    newer: StructSchema<'_>,
    renamings: &Renamings,
    calls: &'a [Call],
) -> Result<RootCalls<'a>, BetweenFault>
    requires root { IsRoot root }
    ensures may { OnOk result
        (MayRun (renamings_of renamings.now) root.entry newer.entry calls.now) }
    ensures schema { IfOk result (λ c. root_schema c ≡ root.entry) }
    ensures calls { IfOk result (λ c. root_calls c ≡ map call_view calls.now) }
    ensures held { IfErr result
        (IsHeld (renamings_of renamings.now) root.entry newer.entry calls.now) }
{
    match compatible_with(alloc, Root::of(root), Root::of(newer), renamings) {
        Ok(true) => {}
        Ok(false) => return Err(BetweenFault::NotCompatible),
        Err(_) => return Err(BetweenFault::Memory),
    }
    let Ok(calls) = RootCalls::new(alloc, root, calls) else {
        return Err(BetweenFault::Memory);
    };
    match admitted_resolved(alloc, calls.resolved(), root, newer, renamings) {
        Ok(Admission::Admitted) => Ok(calls),
        Ok(Admission::Refused(n)) => Err(BetweenFault::NotAdmitted(n)),
        Err(_) => Err(BetweenFault::Memory),
    }
}

/// Relays under the root's schema messages that are read under a newer one, like `relay`, if the
/// newer schema is compatible with the older and each call is admitted. Then the newer record of
/// each message that is written is the result of the newer schema's record machine for the record
/// of the message that was read, if lists are in kind. So everything that only the newer schema
/// knows is kept.
///
/// The region has 8 bytes for each word of the word limit and 8 more. `NotCompatible`,
/// `NotAdmitted` and `Memory` come, in this order, before a byte is read: source, sinks and region
/// are unchanged. `Relay` reports the end of `relay`; at that exit, and if everything was answered,
/// the region is all zeros.
pub fn relay_between<R: BufRead, W: Write, L: Write>(
    alloc: Global,
    source: &mut R,
    out: &mut W,
    log: &mut L,
    root: StructSchema<'_>,
    newer: StructSchema<'_>,
    calls: &[Call],
    options: RelayOptions,
    region: &mut [u8],
) -> Result<Counts, BetweenFault>
    requires region { length region.old ≡ 8 * (options.bounds.words + 1) }
    requires root { IsRoot root }
    ensures run { let seen = streams_of ⟦<R as Read>⟧ ⟦<W as Write>⟧ ⟦<L as Write>⟧ in
        RelaysBetween RunEndsAs
        (between_asked (root_versions [] root.entry newer.entry) calls.now options)
        (sinks_grow W.may_grow L.may_grow)
        (seen source.old out.old log.old) (seen source.new out.new log.new) result }
    ensures zeros { IfRun result (region.new ≡ replicate (length region.old) 0) }
    ensures untouched { IfHeld result ((source.new ≡ source.old) × (out.new ≡ out.old)
        × (log.new ≡ log.old) × (region.new ≡ region.old)) }
{
    let none = Renamings::none(alloc);
    relay_between_with(
        alloc, source, out, log, root, newer, &none, calls, options, region,
    )
}

/// Relays like `relay_between`, if the newer schema has other names for fields. Calls keep the
/// older names, and the newer schema's record machine makes them with each name of a field replaced
/// by that of its partner. A renaming of a node or field that isn't reached has no effect.
pub fn relay_between_with<R: BufRead, W: Write, L: Write>(
    alloc: Global,
    source: &mut R,
    out: &mut W,
    log: &mut L,
    root: StructSchema<'_>,
    newer: StructSchema<'_>,
    renamings: &Renamings,
    calls: &[Call],
    options: RelayOptions,
    region: &mut [u8],
) -> Result<Counts, BetweenFault>
    requires region { length region.old ≡ 8 * (options.bounds.words + 1) }
    requires root { IsRoot root }
    ensures run { let seen = streams_of ⟦<R as Read>⟧ ⟦<W as Write>⟧ ⟦<L as Write>⟧ in
        RelaysBetween RunEndsAs
        (between_asked (root_versions (renamings_of renamings.now) root.entry newer.entry)
        calls.now options)
        (sinks_grow W.may_grow L.may_grow)
        (seen source.old out.old log.old) (seen source.new out.new log.new) result }
    ensures zeros { IfRun result (region.new ≡ replicate (length region.old) 0) }
    ensures untouched { IfHeld result ((source.new ≡ source.old) × (out.new ≡ out.old)
        × (log.new ≡ log.old) × (region.new ≡ region.old)) }
{
    relay_between_pausing::<R, W, L, NoPause>(
        alloc, source, out, log, root, newer, renamings, calls, options, region,
    )
}

/// Relays like `relay_between_with`, with a pause before each message is read and a region of any
/// length. The promise of the pause holds when a message is read. A fault of a pause ends the run
/// with `Out` or `Log`.
pub fn relay_between_pausing<R: BufRead, W: Write, L: Write, P: Pause<R, W, L>>(
    alloc: Global,
    source: &mut R,
    out: &mut W,
    log: &mut L,
    root: StructSchema<'_>,
    newer: StructSchema<'_>,
    renamings: &Renamings,
    calls: &[Call],
    options: RelayOptions,
    region: &mut [u8],
) -> Result<Counts, BetweenFault>
    requires root { IsRoot root }
    ensures run { let seen = streams_of ⟦<R as Read>⟧ ⟦<W as Write>⟧ ⟦<L as Write>⟧ in RelaysBetween
        (RelaysPausing P.may_fail) (between_asked (root_versions (renamings_of renamings.now)
        root.entry newer.entry) calls.now options) (sinks_grow W.may_grow L.may_grow) (seen
        source.old out.old log.old) (seen source.new out.new log.new) result }
    ensures pauses { PausesBetween (pauses_of ⟦<R as Read>⟧ ⟦<W as Write>⟧ ⟦<L as Write>⟧ P.holds
        P.fails) (relay_work root.entry calls.now options W.may_grow L.may_grow)
        (moment source.old out.old log.old) (moment source.new out.new log.new) result }
    ensures zeros { IfRun result (region.new ≡ replicate (length region.old) 0) }
    ensures untouched { IfHeld result ((source.new ≡ source.old) × (out.new ≡ out.old)
        × (log.new ≡ log.old) × (region.new ≡ region.old)) }
{
    calls_across_renamed_versions();
    records_of_written_values();
    records_after_calls();
    records_of_trimmed_values();
    calls_are_given();
    roots_are_no_groups();
    let calls = resolve_between(alloc, root, newer, renamings, calls)?;
    region.fill(0);
    match relay_calls::<R, W, L, P>(alloc, source, out, log, calls, options, region) {
        Ok(counts) => Ok(counts),
        Err(e) => Err(BetweenFault::Relay(e)),
    }
}
