//! Tests of layout, only by public calls: of `capnp_units`, `capnp_text`, `capnp_wire` and
//! `capnp_layout_builders`, for properties that data can't express.
#![tactic(auto)]

#[cfg(test)]
mod builders;
#[cfg(test)]
mod text;
#[cfg(test)]
mod units;
#[cfg(test)]
mod wire;
