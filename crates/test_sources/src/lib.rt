//! Tests of `hagzimot_sources` on files that are held in memory.
#![tactic(auto)]

#[cfg(test)]
mod fake;
#[cfg(test)]
mod fault_tests;
#[cfg(test)]
mod import_tests;
