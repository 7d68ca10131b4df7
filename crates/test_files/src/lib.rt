//! Tests of `hagzimot_files` on a system of files that fails at a chosen call.
#![tactic(auto)]

#[cfg(test)]
mod draft_tests;
#[cfg(test)]
mod fake;
#[cfg(test)]
mod name_tests;
