//! All pairs that break the compatibility of two versions.

ghost use Rattle.std.specs.Prelude.{◌≡◌, ◌==◌, length, IfOk, IfErr};
ghost use Rattle.std.specs.Bool.{MatchBool};
ghost use Rattle.capnp_calls_versions.specs.Roots.{AreRootsCompatibleWith};
ghost use Rattle.capnp_calls_versions.specs.Walks.{IsKeptFrom};
ghost use Rattle.capnp_units.specs.declared.kinds.ErrorKind.TheVariants.{OutOfMemory};
ghost use Rattle.capnp_calls_versions.specs.AllBreaks.{AreBreaksAt, AreAllBreaks};
ghost use Rattle.capnp_calls_versions.specs.Renamed.{renamings_of};

use crate::breaks::{Break, Rule};
use crate::compatible::{are_alike, versions};
use crate::keeps::{Levels, Versions, keeps};
use crate::reached::Reached;
use crate::renamings::Renamings;
use crate::root::Root;
use capnp_units::errors::Result;
use std::alloc::{AllocError, Global};

/// Returns the break of each pair that is not kept, among those that are reached from the roots by
/// pairs that are kept.
fn all_broken(
    alloc: Global,
    versions: &Versions<'_>,
    levels: Levels,
    older: u64,
    newer: u64,
) -> std::result::Result<Vec<Break>, AllocError>
    ensures answer { IfOk result (λ bs.
        MatchBool (length bs.items == 0) (IsKeptFrom versions.now levels older newer)
        (IsKeptFrom versions.now levels older newer → ⊥)) }
    ensures all { IfOk result (λ bs. AreBreaksAt versions.now levels older newer bs.items) }
{
    let mut breaks = Vec::new(alloc);
    let mut reached = Reached::new(alloc);
    reached.reach(older, newer)?;
    for i in 0..usize::MAX {
        let Some((a, b)) = reached.pair(i) else {
            return Ok(breaks);
        };
        let mut named = Reached::new(alloc);
        match keeps(versions, levels, a, b, &mut named)? {
            None => reached.reach_all(&named)?,
            Some(broken) => breaks.push(broken)?,
        }
    }
    // No memory holds as many pairs as the loop counts.
    Err(AllocError)
}

/// Returns the first break of each pair of structs that is reached from the roots by pairs that are
/// kept and is not kept itself. The breaks are in the order in which the pairs are reached. There
/// is no break if `compatible_with` says yes. If only one root is a group, that is the one break.
/// It takes the time of `compatible_with`, except that enumerants are compared again for each pair.
/// The only error is `OutOfMemory`.
pub fn all_breaks(
    alloc: Global,
    older: Root<'_>,
    newer: Root<'_>,
    renamings: &Renamings,
) -> Result<Vec<Break>>
    ensures answer { IfOk result (λ bs.
        MatchBool (length bs.items == 0)
        (AreRootsCompatibleWith (renamings_of renamings.now) older.entry newer.entry)
        (AreRootsCompatibleWith (renamings_of renamings.now) older.entry newer.entry → ⊥)) }
    ensures all { IfOk result (λ bs.
        AreAllBreaks (renamings_of renamings.now) older.entry newer.entry bs.items) }
    ensures refusal { IfErr result (λ e. e.kind ≡ OutOfMemory) }
{
    let versions = versions(alloc, older, newer, renamings)?;
    if !are_alike(
        versions.older.is_group(older.id),
        versions.newer.is_group(newer.id),
    ) {
        let mut breaks = Vec::new(alloc);
        breaks.push(Break {
            older: older.id,
            newer: newer.id,
            rule: Rule::Roots,
        })?;
        return Ok(breaks);
    }
    let levels = versions.levels();
    Ok(all_broken(alloc, &versions, levels, older.id, newer.id)?)
}
