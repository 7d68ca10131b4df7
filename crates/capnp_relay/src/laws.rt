//! Laws of calls, of runs and of versions, each the contract of a function that does nothing.

pub use capnp_calls::laws::{calls_are_given, roots_are_no_groups};
pub use capnp_model_versions::laws::{
    calls_across_versions, calls_at_trimmed_values, edits_across_versions, edits_of_trimmed_values,
    fitting_values_are_whole, relays_in_a_row, steps_across_versions,
};
pub use capnp_model_versions::laws_of_fitting::{
    edited_values_that_fit, own_output_again, sizes_that_suffice, sizes_that_suffice_each,
};
pub use capnp_model_versions::laws_of_relays::{outputs_without_calls, runs_in_a_row};
pub use capnp_model_versions::laws_of_renamings::{
    calls_across_renamed_versions, calls_without_renamings, records_by_older_names,
};
pub use capnp_relay_streams::laws::runs_over_known_bytes;
