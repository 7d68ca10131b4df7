//! Tests only through the four doors: items that no other test calls, and each door's names as a
//! user calls them.
#![tactic(auto)]

#[cfg(test)]
mod canonical;
#[cfg(test)]
mod files;
#[cfg(test)]
mod fixtures;
#[cfg(test)]
mod handles;
#[cfg(test)]
mod lists;
#[cfg(test)]
mod names;
#[cfg(test)]
mod records;
#[cfg(test)]
mod relays;
#[cfg(test)]
mod roots;
#[cfg(test)]
mod schemas;
#[cfg(test)]
mod texts;
