//! Tests of `capnp_wire`.

mod tests;
