//! Tests of `capnp_stream_io`, `capnp_stream` and `capnp_stream_packed`, only by public calls, for
//! properties that no case of `cases_segments` can express.
#![tactic(auto)]

#[cfg(test)]
mod adapter_tests;
#[cfg(test)]
mod devices;
#[cfg(test)]
mod messages;
#[cfg(test)]
mod packing_tests;
#[cfg(test)]
mod segment_tests;
#[cfg(test)]
mod stream_tests;
