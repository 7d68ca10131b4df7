//! Tests of `capnp_layout_builders`, and of the copies that it uses.

mod arena_tests;
mod deep_tests;
mod element_tests;
mod input_tests;
mod parts_tests;
mod support;
mod typed_tests;
