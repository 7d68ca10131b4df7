//! Tests of `capnp_units`.

mod errors;
mod iter;
mod limiter;
mod primitive;
mod segments;
mod sizes;
mod units;
