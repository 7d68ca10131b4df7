//! Schemas by their place in a set.

ghost use Rattle.std.specs.Prelude.{◌≡◌, ◌==◌};
ghost use Rattle.std.proofs.Common.{rules};
ghost use Rattle.std.specs.Cmp.Rules.{comparing, hashing};
ghost use Rattle.std.specs.Hash as fed;
ghost use Rattle.std.specs.Ordering.{on};

use std::hash::{Hash, Hasher};

/// The schema of a struct or a group, by the place of its node in a set and the node's id. Two raw
/// schemas are equal if their ids are equal.
#[derive(Clone, Copy, Debug)]
pub struct RawBrandedStructSchema {
    pub number: u64,
    pub id: u64,
}

impl RawBrandedStructSchema {
    /// Makes the raw schema of a place and an id. A struct type of a caller's own has no set, and
    /// gives any place.
    pub fn new(number: u64, id: u64) -> RawBrandedStructSchema
        ensures number { result.number ≡ number }
        ensures id { result.id ≡ id }
    {
        RawBrandedStructSchema { number, id }
    }
}

impl PartialEq for RawBrandedStructSchema {
    ghost eq = { on (λ raw. raw.id) ◌==◌ };

    ghost laws = { Prim.search (comparing, rules) };

    fn eq(&self, other: &RawBrandedStructSchema) -> bool {
        self.id == other.id
    }
}

impl Eq for RawBrandedStructSchema {
    ghost laws = { Prim.search (comparing, rules) };
}

impl Hash for RawBrandedStructSchema {
    ghost hash_input = { λ raw. fed.u64 raw.id };

    ghost respects_eq = { Prim.search (hashing, rules) };

    fn hash<H: Hasher>(&self, state: &mut H) {
        self.id.hash(state);
    }
}

/// The schema of an enum, by the place of its node in a set and the node's id. Two raw schemas are
/// equal if their ids are equal.
#[derive(Clone, Copy, Debug)]
pub struct RawEnumSchema {
    pub number: u64,
    pub id: u64,
}

impl PartialEq for RawEnumSchema {
    ghost eq = { on (λ raw. raw.id) ◌==◌ };

    ghost laws = { Prim.search (comparing, rules) };

    fn eq(&self, other: &RawEnumSchema) -> bool {
        self.id == other.id
    }
}

impl Eq for RawEnumSchema {
    ghost laws = { Prim.search (comparing, rules) };
}

impl Hash for RawEnumSchema {
    ghost hash_input = { λ raw. fed.u64 raw.id };

    ghost respects_eq = { Prim.search (hashing, rules) };

    fn hash<H: Hasher>(&self, state: &mut H) {
        self.id.hash(state);
    }
}
