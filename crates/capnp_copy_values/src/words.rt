//! Copying of words from one arena into another.
ghost use Rattle.std.specs.Prelude.{◌≡◌, ◌+◌, ◌*◌, true};
ghost use Rattle.std.specs.Option.{is_some};
ghost use Rattle.capnp_model.specs.Segments.{words_at};
ghost use Rattle.capnp_units.specs.Segments.{words_in};
ghost use Rattle.capnp_wire_objects.specs.Places.{place_view};
ghost use Rattle.capnp_wire_objects.specs.Objects.{AreThere};
ghost use Rattle.capnp_wire_objects.specs.Inside.{words_there};
ghost use Rattle.capnp_model_writes.specs.Writes.{with_words};

use capnp_copy_arenas::arena::BuilderArena;
use capnp_wire_objects::arena::ReaderArena;
use capnp_wire_objects::place::Place;

/// Copies n words of a source over those from a place on, as one slice.
pub(crate) fn copy_words<A: BuilderArena, B: ReaderArena>(
    arena: &mut A,
    to: Place,
    source: &B,
    from: Place,
    count: usize,
)
    requires from { AreThere (words_in (B.segments source.now)) (place_view from) count }
    requires to { is_some (words_at (words_in (A.segments arena.old)) (place_view to) count)
        ≡ true }
    ensures words { words_in (A.segments arena.new)
        ≡ with_words (words_in (A.segments arena.old)) (place_view to)
        (words_there (words_in (B.segments source.now)) (place_view from) count) }
    ensures room { A.room arena.new ≡ A.room arena.old }
    ensures books { A.books arena.new ≡ A.books arena.old }
{
    if let Some(bytes) = source.get_segment(from.segment) {
        let start = 8 * from.position;
        let words = &bytes[start..start + 8 * count];
        arena.write_words(to, words);
    }
}
