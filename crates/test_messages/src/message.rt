//! Tests of `capnp_message`.

mod allocator_tests;
mod placed_tests;
mod reader_tests;
mod root_tests;
mod row_tests;
mod segment_tests;
mod unbuffered_tests;
