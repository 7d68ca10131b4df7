//! Tests of schemas, dynamic values and runs of calls, for properties that no data file has: types,
//! traits, keys, records that files can't give, and callers' types.
#![tactic(auto)]

#[cfg(test)]
mod calls;
#[cfg(test)]
mod fixtures;
#[cfg(test)]
mod keys;
#[cfg(test)]
mod lookups;
#[cfg(test)]
mod own_type;
#[cfg(test)]
mod rules;
#[cfg(test)]
mod values;
