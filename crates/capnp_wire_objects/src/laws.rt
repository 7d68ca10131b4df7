//! Laws of values that are read. Each law is the contract of an empty function; calling the
//! function gives its clauses.
ghost use Rattle.std.specs.Prelude.{◌≡◌};
ghost use Rattle.capnp_model.specs.Segments.{root};
ghost use Rattle.capnp_wire_objects.specs.Places.{place_view};
ghost use Rattle.capnp_wire_objects.specs.Laws.{TreesByLevels, CostsByLevels, VisitsByLevels, VisitsOfFaults};

use crate::place::ROOT;

/// `ROOT` is the place that a message's root pointer has in the model. (Encoding, "Messages")
pub fn messages_begin_at_their_root()
    ensures { place_view ROOT ≡ root }
{}

/// The object of a pointer, one level deep, and the values of the pointers in it make the whole
/// value: its tree, its cost, and the walk over it.
pub fn values_by_levels()
    ensures trees { TreesByLevels }
    ensures costs { CostsByLevels }
    ensures visits { VisitsByLevels }
    ensures refused { VisitsOfFaults }
{}
