//! Tests of `capnp_text`.

mod tests;
