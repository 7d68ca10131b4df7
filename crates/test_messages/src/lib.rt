//! Tests of `capnp_message_allocators` and `capnp_message`, only by public calls.
#![tactic(auto)]

#[cfg(test)]
mod allocators;
#[cfg(test)]
mod message;
