//! Groups that a newer version extends.

ghost use Rattle.std.specs.Prelude.{◌≡◌, option_copied};
ghost use Rattle.capnp_model.specs.Steps.{target};
ghost use Rattle.capnp_model.specs.Admitted.{is_extended, extends_fields, extends_field};
ghost use Rattle.capnp_model.specs.Partners.{in_newer_words};
ghost use Rattle.capnp_records.specs.NodeViews.{member_of};
ghost use Rattle.capnp_calls_versions.specs.Holders.{AreFoundByName};
ghost use Rattle.capnp_calls_versions.specs.Renamed.{names_in};
ghost use Rattle.capnp_calls_versions.specs.Walks.{older_fields, newer_fields, kept_body, newer_body};
ghost use Rattle.capnp_calls_versions.specs.Ways.{first_partner, earlier, older_shape, newer_shape};

use crate::keeps::{Levels, Versions};
use crate::names::Names;
use crate::nodes::Holder;
use capnp_records::node::{FieldBody, FieldRecord};

/// Returns the first of two places.
fn first_of(a: Option<u16>, b: Option<u16>) -> Option<u16>
    ensures { result ≡ earlier a b }
{
    match a {
        None => b,
        Some(i) => match b {
            None => a,
            Some(j) => Some(i.min(j)),
        },
    }
}

/// Returns the first field of an older node whose partner has the name: the field is renamed to it,
/// or has it and keeps it.
fn find_partner<'a>(names: &Names<'_>, node: Holder<'a>, name: &str) -> Option<&'a FieldRecord>
    requires { AreFoundByName node }
    ensures { option_copied result
        ≡ first_partner (names_in names.now) node.entry.id name.now node.entry.fields.now }
{
    let renamed = match names.older(node.id, name) {
        None => None,
        Some(older) => node.place(older),
    };
    let kept = if names.partner(node.id, name) == name {
        node.place(name)
    } else {
        None
    };
    match first_of(renamed, kept) {
        None => None,
        Some(place) => Some(&node.fields[place as usize]),
    }
}

/// Returns whether the newer group has a field that the older lacks, in the group itself or in a
/// group nested in it.
#[cycle(extended)]
pub(crate) fn is_extended(versions: &Versions<'_>, levels: Levels, older: u64, newer: u64) -> bool
    ensures { result ≡ is_extended
        (in_newer_words (names_in versions.now.names) (older_shape versions.now levels older))
        (newer_shape versions.now levels newer) }
{
    if levels.newer == 0 {
        return false;
    }
    let a = versions.older.holder(levels.older, older);
    let b = versions.newer.holder(levels.newer, newer);
    let below = Levels {
        older: levels.older.saturating_sub(1),
        newer: levels.newer - 1,
    };
    extends_fields(versions, below, a, b.fields)
}

/// Returns whether one of the newer fields is missing among those of an older node, or is an
/// extended group.
#[cycle(extended)]
fn extends_fields(
    versions: &Versions<'_>,
    levels: Levels,
    older: Holder<'_>,
    newer: &[FieldRecord],
) -> bool
    requires { AreFoundByName older }
    ensures { result ≡ extends_fields
        (older_fields versions.now levels older.entry.id older.entry.fields.now)
        (newer_fields versions.now levels newer.now) }
{
    let mut rest = newer;
    while let [first, others @ ..] = rest {
        let Some(partner) = find_partner(&versions.names, older, first.name.as_str()) else {
            return true;
        };
        if extends_field(versions, levels, partner, first) {
            return true;
        }
        rest = others;
    }
    false
}

/// Returns whether the newer field is an extended group.
#[cycle(extended)]
fn extends_field(
    versions: &Versions<'_>,
    levels: Levels,
    older: &FieldRecord,
    newer: &FieldRecord,
) -> bool
    ensures { result ≡ extends_field
        (target (member_of older.now.discriminant_value)
        (kept_body versions.now levels older.now.body))
        (newer_body versions.now levels newer.now.body) }
{
    match &newer.body {
        FieldBody::Slot { .. } => false,
        FieldBody::Group { node: other } => match &older.body {
            FieldBody::Slot { .. } => false,
            FieldBody::Group { node } => is_extended(versions, levels, *node, *other),
        },
    }
}
