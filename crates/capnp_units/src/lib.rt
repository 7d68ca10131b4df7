//! Items that all layers of the runtime share: the kinds of refusals and the error that carries
//! one, units, sizes, the budget of a reader, and segments.
#![tactic(auto)]

pub mod errors;
pub mod iter;
pub mod kinds;
pub mod limiter;
pub mod limits;
pub mod primitive;
pub mod segments;
pub mod sizes;
pub mod units;
