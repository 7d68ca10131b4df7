//! Tests of `capnp_message_allocators`.

mod tests;
