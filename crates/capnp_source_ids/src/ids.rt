//! Ids that are derived from the id of a scope.

ghost use Rattle.std.specs.Prelude.{◌≡◌};
ghost use Rattle.capnp_source_ids.specs.Ids.{id_of_digest, child_id, group_id, results_byte, parameters_id};

use md5::{Digest, Md5};

/// The bit that every id has.
const TOP: u64 = 1 << 63;

/// Returns the id of a digest: its first eight bytes, highest first, with the top bit set.
fn id_of_digest(digest: [u8; 16]) -> u64
    ensures { result ≡ id_of_digest digest }
{
    let [a, b, c, d, e, f, g, h, ..] = digest;
    u64::from_be_bytes([a, b, c, d, e, f, g, h]) | TOP
}

/// Returns the id of a declaration, by its scope and its name.
pub fn child_id(scope: u64, name: &[u8]) -> u64
    ensures { result ≡ child_id scope name.now }
{
    let mut hasher = Md5::new();
    hasher.update(scope.to_le_bytes());
    hasher.update(name);
    id_of_digest(hasher.finalize())
}

/// Returns the id of a group, by its place among the members of a struct, from 0.
pub fn group_id(scope: u64, place: u16) -> u64
    ensures { result ≡ group_id scope place }
{
    let mut hasher = Md5::new();
    hasher.update(scope.to_le_bytes());
    hasher.update(place.to_le_bytes());
    id_of_digest(hasher.finalize())
}

/// Returns the byte that distinguishes the results of a method from its parameters.
fn results_byte(are_results: bool) -> u8
    ensures { result ≡ results_byte are_results }
{
    if are_results { 1 } else { 0 }
}

/// Returns the id of the struct of a method's parameters, or of its results.
pub fn parameters_id(interface: u64, ordinal: u16, are_results: bool) -> u64
    ensures { result ≡ parameters_id interface ordinal are_results }
{
    let kind = results_byte(are_results);
    let mut hasher = Md5::new();
    hasher.update(interface.to_le_bytes());
    hasher.update(ordinal.to_le_bytes());
    hasher.update([kind]);
    id_of_digest(hasher.finalize())
}
