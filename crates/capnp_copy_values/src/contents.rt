//! Structs that take over the content of others.
ghost use Rattle.std.specs.Prelude.{min, ◌≡◌, ◌+◌, ◌*◌, ◌^◌, ◌<◌, ◌≤◌, true, length, map};
ghost use Rattle.std.specs.Option.{is_some};
ghost use Rattle.capnp_model.specs.Sections.{number_of};
ghost use Rattle.capnp_model.specs.Segments.{words_at};
ghost use Rattle.capnp_units.specs.Segments.{words_in};
ghost use Rattle.capnp_wire_objects.specs.Places.{place_view};
ghost use Rattle.capnp_copy_arenas.specs.Refusals.{IsSizeOrRefusal};
ghost use Rattle.capnp_copy_values.specs.Copies.{source_in, limited, IsStoppedOr, struct_source};
ghost use Rattle.capnp_copy_values.specs.Fits.{limited_in};
ghost use Rattle.capnp_copy_values.specs.Sources.{HasStructWords, visits_in_row, pointer_row, FitsRow};
ghost use Rattle.capnp_copy_values.specs.Contents.{CopiesContent, ClearsRest, SetsSection, fitting};

use crate::copy::fill_row;
use capnp_copy_arenas::arena::BuilderArena;
use capnp_copy_arenas::blobs::write_bytes;
use capnp_copy_arenas::clear::clear;
use capnp_copy_arenas::fields::StructPlace;
use capnp_units::errors::Result;
use capnp_units::limiter::ReadLimiter;
use capnp_wire_objects::arena::ReaderArena;
use capnp_wire_objects::place::Place;

/// Writes bytes over a struct's data, followed by zeros.
fn write_data<A: BuilderArena>(arena: &mut A, object: StructPlace, bytes: &[u8])
    requires there { is_some (words_at (words_in (A.segments arena.old)) (place_view object.start)
        object.data_words) ≡ true }
    requires near { object.start.position + object.data_words < 2 ^ 61 }
    requires fit { length bytes.now ≤ 8 * object.data_words }
    ensures section { SetsSection (words_in (A.segments arena.old))
        (words_in (A.segments arena.new)) object (number_of 8 bytes.now) }
    ensures sizes { map length (words_in (A.segments arena.new))
        ≡ map length (words_in (A.segments arena.old)) }
    ensures room { A.room arena.new ≡ A.room arena.old }
    ensures books { A.books arena.new ≡ A.books arena.old }
{
    let words = (bytes.len() + 7) / 8;
    write_bytes(arena, object.start, words, bytes);
    let behind = Place {
        segment: object.start.segment,
        position: object.start.position + words,
    };
    arena.zero_words(behind, object.data_words as usize - words);
}

/// Copies the part of a data section that fits into a struct's data, followed by zeros. Its
/// pointers are unchanged.
pub fn copy_data_from<A: BuilderArena>(arena: &mut A, object: StructPlace, section: &[u8])
    requires there { is_some (words_at (words_in (A.segments arena.old)) (place_view object.start)
        object.data_words) ≡ true }
    requires near { object.start.position + object.data_words < 2 ^ 61 }
    ensures section { SetsSection (words_in (A.segments arena.old))
        (words_in (A.segments arena.new)) object
        (fitting object.data_words (number_of 8 section.now)) }
    ensures sizes { map length (words_in (A.segments arena.new))
        ≡ map length (words_in (A.segments arena.old)) }
    ensures room { A.room arena.new ≡ A.room arena.old }
    ensures books { A.books arena.new ≡ A.books arena.old }
{
    let bytes = section.len().min(8 * object.data_words as usize);
    write_data(arena, object, &section[..bytes]);
}

/// Clears n pointers of a struct, after the first ones.
fn clear_rest<A: BuilderArena>(arena: &mut A, object: StructPlace, kept: u16)
    requires near { object.start.position + (object.data_words + object.pointers) < 2 ^ 61 }
    requires few { kept ≤ object.pointers }
    ensures rest { ClearsRest (words_in (A.segments arena.old)) (words_in (A.segments arena.new))
        object kept }
    ensures sizes { map length (words_in (A.segments arena.new))
        ≡ map length (words_in (A.segments arena.old)) }
    ensures room { A.room arena.new ≡ A.room arena.old }
    ensures books { A.books arena.new ≡ A.books arena.old }
{
    for i in kept..object.pointers {
        let slot = Place {
            segment: object.start.segment,
            position: object.start.position + object.data_words as usize + i as usize,
        };
        clear(arena, slot);
    }
}

/// Copies the content of a struct of a source into a struct in an arena:
/// - as many bytes of its data section as fit, followed by zeros;
/// - copies of the values of as many pointers as the struct has, which replace the old values;
///   these are cleared.
///
/// The struct's further pointers become null. The source's pointers follow one another, and n
/// levels may be followed from each. Pointers for which the struct has no place aren't followed.
///
/// The source's own words were paid for before. Its pointers are followed, nulls too, and refused
/// as in `copy_from`. After a refusal the data are the source's. The first pointers have the
/// copies, and the others their old values. Everything else is unchanged. The words of cleared
/// values are zero, and so are new words without a use. Refused or not, it allocates at most twice
/// the words that it grants. If the struct's segment has room for all words of the copies, it takes
/// exactly these, and isn't refused for lack of room.
pub fn copy_content_from<A: BuilderArena, B: ReaderArena>(
    arena: &mut A,
    object: StructPlace,
    limiter: &mut ReadLimiter,
    source: &B,
    section: &[u8],
    first: Place,
    pointers: u16,
    levels: u32,
) -> Result<()>
    requires there { HasStructWords (A.segments arena.old) object }
    requires near { object.start.position + (object.data_words + object.pointers) < 2 ^ 61 }
    requires source_near { first.position + pointers < 2 ^ 62 }
    ensures content { CopiesContent (source_in levels (B.segments source.now)
        (struct_source section.now first pointers)) object (limited (A.segments arena.old)
        limiter.old) result (limited (A.segments arena.new) limiter.new) }
    ensures cause { IsStoppedOr (visits_in_row levels (B.segments source.now) (place_view first)
        (min pointers object.pointers)) limiter.old limiter.new (IsSizeOrRefusal A.refuses) result }
    ensures fits { let at = limited_in A.segments A.room A.books in FitsRow (source_in levels
        (B.segments source.now) (pointer_row (place_view first) (min pointers object.pointers)))
        object.start (at arena.old limiter.old) result (at arena.new limiter.new) }
    ensures books { A.books arena.new ≡ A.books arena.old }
{
    copy_data_from(arena, object, section);
    let shared = pointers.min(object.pointers);
    let start = object.start;
    let count = shared as u32;
    fill_row(
        arena,
        start,
        object.data_words,
        count,
        limiter,
        source,
        first,
        levels,
    )?;
    clear_rest(arena, object, shared);
    Ok(())
}
