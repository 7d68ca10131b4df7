//! The pairs of ids that a walk reaches.

ghost use Rattle.std.specs.Prelude.{◌≡◌, map};
ghost use Rattle.capnp_model.specs.Compatible.{same_names};
ghost use Rattle.capnp_records.specs.NodeViews.{enumerant_of};

use capnp_records::node::EnumerantRecord;
use std::alloc::{AllocError, Global};
use std::collections::HashSet;

/// The pairs of structs that are reached, each once, and the pairs of enums that are known to be
/// related.
#[derive(Drop)]
pub(crate) struct Reached {
    pairs: Vec<(u64, u64)>,
    seen: HashSet<(u64, u64)>,
    related: HashSet<(u64, u64)>,
}

impl Reached {
    ghost use Rattle.std.specs.Prelude.{◌≡◌, ◌&&◌, true, [], IfOk, slice_get};
    ghost use Rattle.capnp_model.specs.Schemas.{Schema};
    ghost use Rattle.capnp_model.specs.Compatible.{Pairs, has_pair, same_names};
    ghost use Rattle.capnp_calls_versions.specs.Pairs.{has_each, pairs_of, IsSound, IsFront};

    /// Makes an empty set of pairs.
    pub(crate) fn new(alloc: Global) -> Reached
        ensures none { pairs_of result ≡ [] }
        ensures sound { (o n : Schema) → IsSound o n result }
    {
        Reached {
            pairs: Vec::new(alloc),
            seen: HashSet::new(alloc),
            related: HashSet::new(alloc),
        }
    }

    /// Reaches a pair of structs.
    pub(crate) fn reach(&mut self, older: u64, newer: u64) -> Result<(), AllocError>
        ensures pairs { IfOk result (λ _.
            (o n : Schema) → IsSound o n self.old → (pairs : Pairs)
            → (has_each pairs (pairs_of self.old) && has_pair pairs older newer)
            ≡ has_each pairs (pairs_of self.new)) }
        ensures sound { IfOk result (λ _.
            (o n : Schema) → IsSound o n self.old → IsSound o n self.new) }
        ensures grows { IfOk result (λ _. IsFront (pairs_of self.old) (pairs_of self.new)) }
    {
        if self.seen.insert((older, newer))? {
            self.pairs.push((older, newer))?;
        }
        Ok(())
    }

    /// Reaches the pairs of structs that another walk reached.
    pub(crate) fn reach_all(&mut self, others: &Reached) -> Result<(), AllocError>
        ensures pairs { IfOk result (λ _.
            (o n : Schema) → IsSound o n self.old → (pairs : Pairs)
            → (has_each pairs (pairs_of self.old) && has_each pairs (pairs_of others.now))
            ≡ has_each pairs (pairs_of self.new)) }
        ensures sound { IfOk result (λ _.
            (o n : Schema) → IsSound o n self.old → IsSound o n self.new) }
        ensures grows { IfOk result (λ _. IsFront (pairs_of self.old) (pairs_of self.new)) }
    {
        for k in 0..usize::MAX {
            let Some((a, b)) = others.pair(k) else {
                return Ok(());
            };
            self.reach(a, b)?;
        }
        // No memory holds as many pairs as the loop counts.
        Err(AllocError)
    }

    /// Returns the pair of structs of a number, in the order in which they were reached.
    pub(crate) fn pair(&self, i: usize) -> Option<(u64, u64)>
        ensures { result ≡ slice_get (pairs_of self.now) i }
    {
        self.pairs.get(i).copied()
    }

    /// Returns whether the pair of enums is known to be related.
    pub(crate) fn knows(&self, older: u64, newer: u64) -> bool
        ensures { (o n : Schema) → IsSound o n self.now → result ≡ true
            → same_names (o.names_of older) (n.names_of newer) ≡ true }
    {
        self.related.contains(&(older, newer))
    }

    /// Records that the pair of enums is related.
    pub(crate) fn know(&mut self, older: u64, newer: u64) -> Result<(), AllocError>
        ensures pairs { IfOk result (λ _. pairs_of self.new ≡ pairs_of self.old) }
        ensures sound { IfOk result (λ _.
            (o n : Schema) → IsSound o n self.old
            → same_names (o.names_of older) (n.names_of newer) ≡ true → IsSound o n self.new) }
    {
        self.related.insert((older, newer))?;
        Ok(())
    }
}

/// Returns whether the older names are the beginning of the newer names.
pub(crate) fn same_names(older: &[EnumerantRecord], newer: &[EnumerantRecord]) -> bool
    ensures { result ≡ same_names (map (λ e. e.name) (map enumerant_of older.now))
        (map (λ e. e.name) (map enumerant_of newer.now)) }
{
    let mut left = older;
    let mut rest = newer;
    while let [first, others @ ..] = left {
        let [next, more @ ..] = rest else {
            return false;
        };
        if first.name.as_str() != next.name.as_str() {
            return false;
        }
        left = others;
        rest = more;
    }
    true
}
