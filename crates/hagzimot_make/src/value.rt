//! Values of calls that JSON describes.

use crate::draft::Draft;
use crate::make::Making;
use crate::places::{Place, place_at};
use crate::stream::{Reason, json_reason};
use capnp_calls::Step;
use capnp_values_queries::introspect::TypeVariant;
use serde_json::Value as Json;

/// Returns whether a place has a struct, a group or a list.
fn is_made(place: Place<'_>) -> bool {
    match place {
        Place::Struct(_) => true,
        Place::Value { ty, is_float: _ } => {
            ty.list_count() > 0 || matches!(ty.which(), TypeVariant::Struct(_))
        }
        Place::Single => false,
    }
}

/// Returns the framed message whose value a JSON text describes, as a call takes it that sets the
/// struct, the group or the list at a path. `None` if the path leads to another value, or nowhere.
/// (Encoding, "Serialization Over a Stream")
///
/// Errors: `Json` if the text is not JSON, and those of `Making::make`.
pub fn message_at(
    making: Making<'_>,
    path: &[Step],
    text: &str,
) -> Result<Option<Vec<u8>>, Reason> {
    let alloc = making.alloc;
    let Some(place) = place_at(making.root, making.floats, path) else {
        return Ok(None);
    };
    if !is_made(place) {
        return Ok(None);
    }
    let json = match Json::from_str(alloc, text) {
        Ok(json) => json,
        Err(e) => return Err(json_reason(alloc, e)),
    };
    let mut draft = Draft::new(alloc)?;
    if !making.make_at(&mut draft, place, &json)? {
        return Ok(None);
    }
    let segment = draft.as_bytes();
    let Ok(words) = u32::try_from(segment.len() / 8) else {
        return Err(Reason::PastLimits);
    };
    let mut frame = Vec::new(alloc);
    frame.extend_from_slice(&[0; 4])?;
    frame.extend_from_slice(&words.to_le_bytes())?;
    frame.extend_from_slice(segment)?;
    Ok(Some(frame))
}
