//! The number of levels of pointers that may still be followed.
ghost use Rattle.std.specs.Prelude.{◌≡◌};
ghost use Rattle.capnp_model.specs.Answers.{levels};
ghost use Rattle.capnp_wire_objects.specs.Places.{seen};
ghost use Rattle.capnp_wire.specs.Levels.{level_below};

use capnp_units::errors::{Error, Result};
use capnp_units::kinds::ErrorKind;

/// Returns the levels of a nesting limit. No value is within a negative limit, not even null.
pub fn levels_of(nesting_limit: i32) -> Option<u32>
    ensures { result ≡ levels nesting_limit }
{
    if nesting_limit < 0 {
        return None;
    }
    Some(nesting_limit as u32)
}

/// Returns the levels that are left below the pointers of a struct or a list, which takes one
/// level. It is refused with `NestingLimitExceeded` if no level is left.
#[inline(always)]
pub fn level_below(levels: Option<u32>) -> Result<Option<u32>>
    ensures { seen (λ l. l) result ≡ level_below levels }
{
    match levels {
        Some(left) if left > 0 => Ok(Some(left - 1)),
        _ => Err(Error::from(ErrorKind::NestingLimitExceeded)),
    }
}
