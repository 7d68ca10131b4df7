//! Versions of a schema, from the structs at their roots on.
ghost use Rattle.std.specs.Prelude.{◌≡◌, ◌==◌, true, map, length, is_none, IfOk, IfErr, IfSome};
ghost use Rattle.std.specs.Bool.{MatchBool};
ghost use Rattle.capnp_units.specs.declared.kinds.ErrorKind.TheVariants.{OutOfMemory};
ghost use Rattle.capnp_records.specs.Sets.{nodes_of};
ghost use Rattle.capnp_values_queries.specs.Structs.{nodes_around, id_of};
ghost use Rattle.capnp_calls.specs.CallViews.{call_view};
ghost use Rattle.capnp_calls_versions.specs.Renamed.{renamings_of};
ghost use Rattle.capnp_calls_versions.specs.Ways.{IsAdmissionOf};
ghost use Rattle.capnp_relay.specs.Versions.{AreVersions, AreVersionsWith, IsBreakBetween, AreBreaksBetween, ReadsAsOlder, ReadsAsOlderWith, is_admitted_under, is_admitted_beside_with};

use capnp_calls::Call;
use capnp_calls_versions::admitted::Admission;
use capnp_calls_versions::breaks::Break;
use capnp_calls_versions::renamings::Renamings;
use capnp_calls_versions::root::Root;
use capnp_calls_versions::{admitted as admissions, all_breaks as breaks, compatible as versions};
use capnp_units::errors::Result;
use capnp_values_queries::structs::StructSchema;
use std::alloc::Global;

/// Returns the root of a version.
fn root_of(schema: StructSchema<'_>) -> Root<'_>
    ensures set { nodes_of result.set.now ≡ nodes_around schema.entry }
    ensures id { result.id ≡ id_of schema.entry }
{
    Root {
        set: schema.set(),
        id: schema.raw().id,
    }
}

/// Returns whether the newer schema is compatible with the older: messages that are written under
/// the older read the same under the newer, field by field. If the answer is yes, the older record
/// of each value is the older view of its newer record. It takes time linear in the pairs of
/// structs that are reached times their fields. The only error is `OutOfMemory`. (Schema language,
/// "Evolving Your Protocol")
pub fn compatible(alloc: Global, older: StructSchema<'_>, newer: StructSchema<'_>) -> Result<bool>
    ensures answer { IfOk result (λ b. MatchBool b (AreVersions older.entry newer.entry)
        (AreVersions older.entry newer.entry → ⊥)) }
    ensures view { IfOk result (λ b. b ≡ true → ReadsAsOlder older.entry newer.entry) }
    ensures refusal { IfErr result (λ e. e.kind ≡ OutOfMemory) }
{
    versions::compatible(alloc, root_of(older), root_of(newer))
}

/// Answers like `compatible`, if fields are renamed: each older field is kept by its partner, the
/// newer field of its renamed name, and no two have the same partner. A renaming of a node or field
/// that isn't reached has no effect.
pub fn compatible_with(
    alloc: Global,
    older: StructSchema<'_>,
    newer: StructSchema<'_>,
    renamings: &Renamings,
) -> Result<bool>
    ensures answer { let rs = renamings_of renamings.now in
        IfOk result (λ b. MatchBool b (AreVersionsWith rs older.entry newer.entry)
        (AreVersionsWith rs older.entry newer.entry → ⊥)) }
    ensures view { IfOk result (λ b.
        b ≡ true → ReadsAsOlderWith (renamings_of renamings.now) older.entry newer.entry) }
    ensures refusal { IfErr result (λ e. e.kind ≡ OutOfMemory) }
{
    versions::compatible_with(alloc, root_of(older), root_of(newer), renamings)
}

/// Returns the first break if `compatible_with` says no, and `None` if it says yes. A break has two
/// nodes that are reached, a struct or a group of each schema, and a rule that they break. Fields
/// are given by their index among those of their node. The only error is `OutOfMemory`.
pub fn first_break(
    alloc: Global,
    older: StructSchema<'_>,
    newer: StructSchema<'_>,
    renamings: &Renamings,
) -> Result<Option<Break>>
    ensures answer { let rs = renamings_of renamings.now in
        IfOk result (λ o. MatchBool (is_none o) (AreVersionsWith rs older.entry newer.entry)
        (AreVersionsWith rs older.entry newer.entry → ⊥)) }
    ensures breaks { IfOk result (λ o.
        IfSome o (IsBreakBetween (renamings_of renamings.now) older.entry newer.entry)) }
    ensures refusal { IfErr result (λ e. e.kind ≡ OutOfMemory) }
{
    versions::first_break(alloc, root_of(older), root_of(newer), renamings)
}

/// Returns the first break of each pair of structs that is reached by pairs that are kept and is
/// not kept itself, in the order in which they are reached. There is no break if `compatible_with`
/// says yes. The only error is `OutOfMemory`.
pub fn all_breaks(
    alloc: Global,
    older: StructSchema<'_>,
    newer: StructSchema<'_>,
    renamings: &Renamings,
) -> Result<Vec<Break>>
    ensures answer { let rs = renamings_of renamings.now in
        IfOk result (λ bs. MatchBool (length bs.items == 0)
        (AreVersionsWith rs older.entry newer.entry)
        (AreVersionsWith rs older.entry newer.entry → ⊥)) }
    ensures all { IfOk result (λ bs.
        AreBreaksBetween (renamings_of renamings.now) older.entry newer.entry bs.items) }
    ensures refusal { IfErr result (λ e. e.kind ≡ OutOfMemory) }
{
    breaks::all_breaks(alloc, root_of(older), root_of(newer), renamings)
}

/// Returns whether each call under the older schema is admitted beside the newer, otherwise the
/// first call that isn't, counted from 1. A call that is admitted uses fields that the older schema
/// has, writes no whole group that the newer schema extends, and sets no list element of struct
/// type. It takes time linear in the steps of the calls times the fields of the structs on their
/// ways, and of the groups that they write. The only error is `OutOfMemory`.
pub fn admitted(
    alloc: Global,
    calls: &[Call],
    older: StructSchema<'_>,
    newer: StructSchema<'_>,
) -> Result<Admission>
    ensures answer { IfOk result (IsAdmissionOf (is_admitted_under older.entry newer.entry)
        (map call_view calls.now)) }
    ensures refusal { IfErr result (λ e. e.kind ≡ OutOfMemory) }
{
    admissions::admitted(alloc, calls, root_of(older), root_of(newer))
}

/// Answers like `admitted`, if fields are renamed; calls keep the older names.
pub fn admitted_with(
    alloc: Global,
    calls: &[Call],
    older: StructSchema<'_>,
    newer: StructSchema<'_>,
    renamings: &Renamings,
) -> Result<Admission>
    ensures answer { IfOk result (IsAdmissionOf
        (is_admitted_beside_with (renamings_of renamings.now) older.entry newer.entry)
        (map call_view calls.now)) }
    ensures refusal { IfErr result (λ e. e.kind ≡ OutOfMemory) }
{
    admissions::admitted_with(alloc, calls, root_of(older), root_of(newer), renamings)
}
