//! Compatible schemas.

ghost use Rattle.std.specs.Prelude.{◌≡◌, true, is_none, IfOk, IfErr, IfSome};
ghost use Rattle.std.specs.Bool.{MatchBool};
ghost use Rattle.capnp_units.specs.declared.kinds.ErrorKind.TheVariants.{OutOfMemory};
ghost use Rattle.capnp_records.specs.Sets.{nodes_of};
ghost use Rattle.capnp_calls_versions.specs.Holders.{held_nodes};
ghost use Rattle.capnp_calls_versions.specs.Roots.{AreRootsCompatible, AreRootsCompatibleWith, IsViewed, IsViewedWith};
ghost use Rattle.capnp_calls_versions.specs.Renamed.{names_in, renamings_of};
ghost use Rattle.capnp_calls_versions.specs.Walks.{IsKeptFrom, are_alike};
ghost use Rattle.capnp_calls_versions.specs.Faults.{IsBreakReached};
ghost use Rattle.capnp_calls_versions.specs.Breaks.{IsBreakFrom};

use crate::breaks::{Break, Rule};
use crate::keeps::{Levels, Versions, keeps};
use crate::names::Names;
use crate::nodes::Nodes;
use crate::reached::Reached;
use crate::renamings::Renamings;
use crate::root::Root;
use capnp_model::laws::older_records;
use capnp_model_versions::laws_of_renamings::records_by_older_names;
use capnp_units::errors::Result;
use std::alloc::{AllocError, Global};

/// The two versions.
pub(crate) fn versions<'a>(
    alloc: Global,
    older: Root<'a>,
    newer: Root<'a>,
    renamings: &'a Renamings,
) -> std::result::Result<Versions<'a>, AllocError>
    ensures older { IfOk result (λ v. held_nodes v.older ≡ nodes_of older.entry.set.now) }
    ensures newer { IfOk result (λ v. held_nodes v.newer ≡ nodes_of newer.entry.set.now) }
    ensures names { IfOk result (λ v. names_in v.names ≡ renamings_of renamings.now) }
{
    let names = Names::new(alloc, renamings)?;
    Ok(Versions {
        older: Nodes::new(older.set),
        newer: Nodes::new(newer.set),
        names,
    })
}

/// Returns whether both hold or neither holds.
pub(crate) fn are_alike(older: bool, newer: bool) -> bool
    ensures { result ≡ are_alike older newer }
{
    if older { newer } else { !newer }
}

/// Returns the first pair that is reached from the roots and is not kept, and the reason.
fn first_broken(
    alloc: Global,
    versions: &Versions<'_>,
    levels: Levels,
    older: u64,
    newer: u64,
) -> std::result::Result<Option<Break>, AllocError>
    ensures answer { IfOk result (λ o.
        MatchBool (is_none o) (IsKeptFrom versions.now levels older newer)
        (IsKeptFrom versions.now levels older newer → ⊥)) }
    ensures breaks { IfOk result (λ o.
        IfSome o (IsBreakReached versions.now levels older newer)) }
{
    let mut reached = Reached::new(alloc);
    reached.reach(older, newer)?;
    for i in 0..usize::MAX {
        let Some((a, b)) = reached.pair(i) else {
            return Ok(None);
        };
        if let Some(broken) = keeps(versions, levels, a, b, &mut reached)? {
            return Ok(Some(broken));
        }
    }
    // No memory holds as many pairs as the loop counts.
    Err(AllocError)
}

/// Returns the first break of the newer schema's compatibility with the older from the two roots
/// on, if fields are renamed: `None` exactly when `compatible_with` says yes. A break is at a pair
/// of structs that is reached from the roots by pairs that are kept, or at a pair of groups of such
/// a pair. The break has a rule that this pair breaks. It takes the time of `compatible_with`. The
/// only error is `OutOfMemory`.
pub fn first_break(
    alloc: Global,
    older: Root<'_>,
    newer: Root<'_>,
    renamings: &Renamings,
) -> Result<Option<Break>>
    ensures answer { IfOk result (λ o.
        MatchBool (is_none o)
        (AreRootsCompatibleWith (renamings_of renamings.now) older.entry newer.entry)
        (AreRootsCompatibleWith (renamings_of renamings.now) older.entry newer.entry → ⊥)) }
    ensures breaks { IfOk result (λ o.
        IfSome o (IsBreakFrom (renamings_of renamings.now) older.entry newer.entry)) }
    ensures refusal { IfErr result (λ e. e.kind ≡ OutOfMemory) }
{
    let versions = versions(alloc, older, newer, renamings)?;
    if !are_alike(
        versions.older.is_group(older.id),
        versions.newer.is_group(newer.id),
    ) {
        return Ok(Some(Break {
            older: older.id,
            newer: newer.id,
            rule: Rule::Roots,
        }));
    }
    let levels = versions.levels();
    Ok(first_broken(alloc, &versions, levels, older.id, newer.id)?)
}

/// Returns whether the newer schema is compatible with the older from the two roots on, if fields
/// are renamed. Each older field is kept by its partner, the newer field of its renamed name, and
/// no two have the same partner. If the answer is yes, the older record of each value is the older
/// view of its newer record, each field by its older name. A renaming of a node or field that isn't
/// reached has no effect. It takes time linear in the pairs of structs that are reached times their
/// fields. The only error is `OutOfMemory`.
pub fn compatible_with(
    alloc: Global,
    older: Root<'_>,
    newer: Root<'_>,
    renamings: &Renamings,
) -> Result<bool>
    ensures answer { IfOk result (λ b.
        MatchBool b (AreRootsCompatibleWith (renamings_of renamings.now) older.entry newer.entry)
        (AreRootsCompatibleWith (renamings_of renamings.now) older.entry newer.entry → ⊥)) }
    ensures view { IfOk result (λ b.
        b ≡ true → IsViewedWith (renamings_of renamings.now) older.entry newer.entry) }
    ensures refusal { IfErr result (λ e. e.kind ≡ OutOfMemory) }
{
    records_by_older_names();
    Ok(first_break(alloc, older, newer, renamings)?.is_none())
}

/// Returns whether the newer schema is compatible with the older from the two roots on: messages
/// that are written under the older read the same under the newer, field by field. If the answer is
/// yes, the older record of each value is the older view of its newer record. It takes time linear
/// in the pairs of structs that are reached times their fields. The only error is `OutOfMemory`.
pub fn compatible(alloc: Global, older: Root<'_>, newer: Root<'_>) -> Result<bool>
    ensures answer { IfOk result (λ b.
        MatchBool b (AreRootsCompatible older.entry newer.entry)
        (AreRootsCompatible older.entry newer.entry → ⊥)) }
    ensures view { IfOk result (λ b. b ≡ true → IsViewed older.entry newer.entry) }
    ensures refusal { IfErr result (λ e. e.kind ≡ OutOfMemory) }
{
    older_records();
    compatible_with(alloc, older, newer, &Renamings::none(alloc))
}
