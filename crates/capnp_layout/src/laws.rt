//! Laws of values in segments, each the contract of a function that does nothing.

pub use capnp_copy_arenas::laws::{changes_two_pointers_deep, words_in_part, words_that_stay};
pub use capnp_copy_arenas::laws_of_arenas::arenas_are_deep;
pub use capnp_copy_values::laws::values_after_copies;
pub use capnp_layout_canonical::laws::values_by_way_of_scratches;
pub use capnp_wire::laws::{gets_are_readings, values_by_levels};
pub use capnp_wire_canonical::laws::{
    canonical_messages_are_copies, copies_as_walks, copies_follow_few, segments_of_words,
    standing_is_canonical,
};
pub use capnp_wire_objects::laws::messages_begin_at_their_root;
