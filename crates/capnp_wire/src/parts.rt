//! The parts of a pointer to read, for copies.
ghost use Rattle.std.specs.Prelude.{◌≡◌, option_map};

use crate::backing::Backing;
use crate::pointer::PointerReader;
use capnp_wire_objects::arena::ReaderArena;
use capnp_wire_objects::place::Place;

impl<'a, A: ReaderArena> PointerReader<'a, A> {
    ghost use Rattle.capnp_wire_objects.specs.Places.{place_view};
    ghost use Rattle.capnp_wire.specs.Views.{ground_of, seen_pointer};

    /// Returns the pointer's backing, which has its value.
    pub fn backing(&self) -> Backing<'a, A>
        ensures { ground_of A.segments result ≡ (seen_pointer A.segments self.now).basis }
    {
        self.backing
    }

    /// Returns the place of the pointer, if it has one; a pointer without a place is null.
    pub fn place(&self) -> Option<Place>
        ensures { option_map place_view result ≡ (seen_pointer A.segments self.now).place }
    {
        self.place
    }

    /// Returns the number of levels that may be followed from the pointer; `None` under a negative
    /// limit.
    pub fn levels(&self) -> Option<u32>
        ensures { result ≡ (seen_pointer A.segments self.now).levels }
    {
        self.levels
    }
}
