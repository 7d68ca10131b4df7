//! Search of fields by their names, with the comparisons counted.

ghost use Rattle.std.specs.Prelude.{◌≡◌, ◌<◌, ◌≤◌, ◌^◌, ℕ, true, map, length};
ghost use Rattle.capnp_model.specs.Accepted.{are_distinct};
ghost use Rattle.capnp_records.specs.NodeViews.{field_of};
ghost use Rattle.capnp_records.specs.Tables.{AreByName};
ghost use Rattle.capnp_values_queries.specs.Names.{place_named};

use capnp_records::node::FieldRecord;
use std::cmp::Ordering;

/// Compares names and counts the comparisons.
#[derive(Clone, Copy, Debug)]
pub struct NameCount {
    count: u32,
}

impl NameCount {
    ghost use Rattle.std.specs.Prelude.{◌≡◌, ◌+◌, min};
    ghost use Rattle.std.specs.Ordering.{nat_cmp};
    ghost use Rattle.std.specs.Cmp.Lexicographic.{slice_cmp};

    /// Makes a count of no comparison.
    pub fn new() -> NameCount
        ensures { result.count ≡ 0 }
    {
        NameCount { count: 0 }
    }

    /// Compares two names by their bytes. The count increases by one, and stops at 2^32 - 1.
    pub fn compare(&mut self, a: &str, b: &str) -> Ordering
        ensures ordering { result ≡ slice_cmp nat_cmp a.now b.now }
        ensures count { self.new.count ≡ min (self.old.count + 1) 4294967295 }
    {
        self.count = self.count.saturating_add(1);
        a.cmp(b)
    }

    /// Returns the number of comparisons.
    pub fn count(&self) -> u32
        ensures { result ≡ self.now.count }
    {
        self.count
    }
}

/// Returns the place of the field of a name, and the number of names that were compared.
pub fn place_of(fields: &[FieldRecord], by_name: &[u16], name: &str) -> (Option<u16>, u32)
    requires by_name { AreByName (map field_of fields.now) by_name.now }
    requires distinct { are_distinct (map (λ f. f.name) (map field_of fields.now)) ≡ true }
    ensures place { result.0 ≡ place_named name.now 0 (map field_of fields.now) }
    ensures few { (digits : ℕ) → length fields.now < 2 ^ digits → result.1 ≤ digits }
    ensures some { 0 < length fields.now → 0 < result.1 }
{
    let mut names = NameCount::new();
    let mut low = 0;
    let mut high = by_name.len();
    while low < high {
        let middle = low + (high - low) / 2;
        let place = by_name[middle];
        match names.compare(&fields[place as usize].name, name) {
            Ordering::Less => low = middle + 1,
            Ordering::Equal => return (Some(place), names.count()),
            Ordering::Greater => high = middle,
        }
    }
    (None, names.count())
}
