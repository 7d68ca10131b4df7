//! The words of structs that a canonical message keeps.
ghost use Rattle.std.specs.Prelude.{◌≡◌, ℕ, ◌+◌, ◌*◌, ◌^◌, ◌≤◌, ◌<◌};
ghost use Rattle.capnp_model.specs.Sections.{needed_words};
ghost use Rattle.capnp_model.specs.Segments.{after};
ghost use Rattle.capnp_model.specs.Trees.{Trees, structure, tree_count};
ghost use Rattle.capnp_model.specs.Encoding.{pointer};
ghost use Rattle.capnp_units.specs.Segments.{words_in};
ghost use Rattle.capnp_wire_objects.specs.Arenas.{segment_bytes};
ghost use Rattle.capnp_wire_objects.specs.Places.{place_view};
ghost use Rattle.capnp_wire_objects.specs.Objects.{AreThere};
ghost use Rattle.capnp_wire_objects.specs.Inside.{section_at, words_there};
ghost use Rattle.capnp_wire_canonical.specs.Widths.{kept, widest};

use crate::own_words::most_needed;
use crate::words::pointer_to_struct;
use capnp_wire_objects::arena::ReaderArena;
use capnp_wire_objects::place::Place;

/// The cut of a struct: the words of its data and its pointers, and the number of each that is
/// kept.
#[derive(Clone, Copy)]
pub(crate) struct Cut {
    pub(crate) data_words: u16,
    pub(crate) pointers: u16,
    pub(crate) kept_words: u16,
    pub(crate) kept_pointers: u16,
}

/// Returns the least sizes that n structs in a row can do with.
#[inline(always)]
pub(crate) fn cut_of<A: ReaderArena>(
    arena: &A,
    bytes: &[u8],
    start: Place,
    data_words: u16,
    pointers: u16,
    count: u32,
) -> Cut
    requires bytes { bytes.now ≡ segment_bytes (A.segments arena.now) start.segment }
    requires inside { AreThere (words_in (A.segments arena.now)) (place_view start)
        (count * (data_words + pointers)) }
    ensures sizes { (result.data_words ≡ data_words) × (result.pointers ≡ pointers)
        × (result.kept_words ≤ data_words) × (result.kept_pointers ≤ pointers) }
    ensures narrow { (result.kept_words < 2 ^ 16) × (result.kept_pointers < 2 ^ 16) }
    ensures words { let s = words_in (A.segments arena.now) in result.kept_words
        ≡ widest (λ p. needed_words data_words (section_at s p data_words))
        (place_view start) (data_words + pointers) count }
    ensures pointers { let s = words_in (A.segments arena.now) in result.kept_pointers
        ≡ widest (λ p. kept (words_there s p pointers))
        (after (place_view start) data_words) (data_words + pointers) count }
{
    let width = data_words as usize + pointers as usize;
    let first = Place {
        segment: start.segment,
        position: start.position + data_words as usize,
    };
    Cut {
        data_words,
        pointers,
        kept_words: most_needed(arena, bytes, start, data_words, width, count),
        kept_pointers: most_needed(arena, bytes, first, pointers, width, count),
    }
}

/// Returns the pointer to a struct that begins n words after the pointer. An empty struct is at the
/// pointer itself.
#[inline(always)]
pub(crate) fn pointer_to_cut(gap: usize, cut: Cut) -> u64
    requires { gap < 2 ^ 29 }
    ensures { (section : ℕ) (ts : Trees) → tree_count ts ≡ cut.kept_pointers
        → result ≡ pointer gap (structure cut.kept_words section ts) }
{
    if cut.kept_words == 0 && cut.kept_pointers == 0 {
        return pointer_to_struct(0x3fff_ffff, 0, 0);
    }
    pointer_to_struct(gap as u64, cut.kept_words as u64, cut.kept_pointers as u64)
}
