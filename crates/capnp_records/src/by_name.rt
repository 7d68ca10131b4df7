//! The fields of a struct in the order of their names.

ghost use Rattle.std.specs.Prelude.{◌≡◌, ℕ, ◌≤◌, map, length, IfOk};
ghost use Rattle.capnp_records.specs.NodeViews.{field_of};
ghost use Rattle.capnp_records.specs.Tables.{named_from, AreByName};

use crate::node::FieldRecord;
use std::alloc::{AllocError, Global};

/// Returns the places of the fields, each with its field's name.
fn named_places(alloc: Global, fields: &[FieldRecord]) -> Result<Vec<(&str, u16)>, AllocError>
    requires { length fields.now ≤ 65535 }
    ensures { IfOk result (λ v. map (λ n. (n.0.now, n.1)) v.items
        ≡ named_from 0 (map field_of fields.now)) }
{
    let mut named = Vec::with_capacity(alloc, fields.len())?;
    for i in 0..fields.len() {
        named.push((fields[i].name.as_str(), i as u16))?;
    }
    Ok(named)
}

/// Returns the places of the fields, in the order of their names.
pub(crate) fn places_by_name(alloc: Global, fields: &[FieldRecord]) -> Result<Vec<u16>, AllocError>
    requires { length fields.now ≤ 65535 }
    ensures { IfOk result (λ v. AreByName (map field_of fields.now) v.items) }
{
    let mut named = named_places(alloc, fields)?;
    named.sort()?;
    let mut places = Vec::with_capacity(alloc, named.len())?;
    for (_, place) in &named {
        places.push(*place)?;
    }
    Ok(places)
}
