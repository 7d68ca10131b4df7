//! Defaults of pointers, read in place.
ghost use Rattle.std.specs.Prelude.{◌≡◌, ◌≢◌, pos, IfOk};
ghost use Rattle.capnp_wire_objects.specs.Places.{seen};
ghost use Rattle.capnp_units.specs.Sizes.{size_number};
ghost use Rattle.capnp_wire.specs.Views.{seen_pointer, seen_struct, seen_list};
ghost use Rattle.capnp_values.specs.Sources.{null_root_segments, null_default, default_pointer, pointed_struct, pointed_list};

use capnp_units::errors::Result;
use capnp_units::limiter::ReadLimiter;
use capnp_units::sizes::{ElementSize, SegmentId};
use capnp_wire::list::ListReader;
use capnp_wire::pointer::PointerReader;
use capnp_wire::structs::StructReader;
use capnp_wire_objects::arena::ReaderArena;

/// The arena in which a default is read when a pointer is null: its root is null. A default has
/// levels of its own, the 64 to which the schema rules bound it, whatever levels the message has
/// left.
#[derive(Clone, Copy, Debug, PartialEq, Eq)]
pub struct Defaults;

/// The levels of a default.
const LEVELS: i32 = 64;

static DEFAULTS: Defaults = Defaults;

static NULL: [u8; 8] = [0; 8];

impl ReaderArena for Defaults {
    ghost segments = { null_root_segments };

    ghost nesting = { λ a. pos 64 };

    fn get_segment(&self, id: SegmentId) -> Option<&[u8]> {
        if id == 0 { Some(&NULL) } else { None }
    }

    fn nesting_limit(&self) -> i32 {
        LEVELS
    }

    fn size_in_words(&self) -> usize {
        1
    }
}

/// Returns the null pointer that is replaced when a default is read.
pub(crate) fn null<'a>() -> PointerReader<'a, Defaults>
    ensures { seen_pointer null_root_segments result ≡ null_default }
{
    match PointerReader::get_root_from_arena(&DEFAULTS) {
        Ok(root) => root,
        Err(_) => unreachable!(),
    }
}

/// Returns the struct that a default's bytes hold; a default whose root is null is the empty
/// struct.
///
/// It is refused like `PointerReader::get_struct`; over an accepted set it is never refused.
pub(crate) fn default_struct<'a>(bytes: &'a [u8]) -> Result<StructReader<'a, Defaults>>
    ensures { seen (seen_struct null_root_segments) result ≡ pointed_struct
        (default_pointer bytes.now) }
{
    let (words, _) = bytes.as_chunks::<8>();
    let mut unlimited = ReadLimiter::new(None);
    null().get_struct(&mut unlimited, Some(words))
}

/// Returns the list that a default's bytes hold; a default whose root is null is the empty list.
///
/// It is refused like `PointerReader::get_list`; over an accepted set it is never refused.
pub(crate) fn default_list<'a>(
    bytes: &'a [u8],
    expected: ElementSize,
) -> Result<ListReader<'a, Defaults>>
    ensures list { seen (seen_list null_root_segments) result
        ≡ pointed_list expected (default_pointer bytes.now) }
    ensures bytewise { size_number expected ≢ 1
        → IfOk result (λ l. size_number (seen_list null_root_segments l).size ≢ 1) }
{
    let (words, _) = bytes.as_chunks::<8>();
    let mut unlimited = ReadLimiter::new(None);
    null().get_list(&mut unlimited, expected, Some(words))
}
