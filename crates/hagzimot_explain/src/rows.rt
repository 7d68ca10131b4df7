//! Values of the words of a message: a row for each segment.
ghost use Rattle.std.specs.Prelude.{◌≡◌, ◌<◌, ◌≤◌, ◌^◌, None, IfOk, replicate, slice_get};
ghost use Rattle.capnp_wire_objects.specs.Arenas.{word_count};
ghost use Rattle.capnp_model.specs.Segments.{Place as ModelPlace};
ghost use Rattle.capnp_units.specs.Segments.{words_in};
ghost use Rattle.capnp_wire_objects.specs.Places.{place_view};
ghost use Rattle.hagzimot_explain.specs.Rows.{value_of, for_word, replaced};

use capnp_units::segments::ReaderSegments;
use capnp_units::sizes::SegmentId;
use capnp_wire_objects::place::Place;
use std::alloc::{AllocError, Global};

/// The number of segments that a pointer can name: a segment's number has 32 bits.
const NAMED_SEGMENTS: usize = 0x1_0000_0000;

/// Returns the number of whole words of a segment.
fn words_of_segment<S: ReaderSegments>(segments: &S, id: SegmentId) -> usize
    ensures { result ≡ word_count (slice_get (S.segments segments.now) id) }
{
    match segments.get_segment(id) {
        Some(bytes) => bytes.len() / 8,
        None => 0,
    }
}

/// Makes a row of n times a value.
fn row_of<T: Copy>(alloc: Global, count: usize, value: T) -> Result<Vec<T>, AllocError>
    ensures { IfOk result (λ row. row.items ≡ replicate count value) }
{
    let mut row = Vec::new(alloc);
    row.resize(count, value)?;
    Ok(row)
}

/// Makes a row of a value for each whole word of each segment that has a number.
pub fn rows_of<S: ReaderSegments, T: Copy>(
    alloc: Global,
    segments: &S,
    value: T,
) -> Result<Vec<Vec<T>>, AllocError>
    ensures words { IfOk result (λ rows. (q : ModelPlace) → q.segment < 2 ^ 32
        → value_of rows.items q ≡ for_word (words_in (S.segments segments.now)) q value) }
    ensures beyond { IfOk result (λ rows. (q : ModelPlace) → 2 ^ 32 ≤ q.segment
        → value_of rows.items q ≡ None) }
{
    let mut rows = Vec::new(alloc);
    let count = segments.len().min(NAMED_SEGMENTS);
    for id in 0..count {
        let words = words_of_segment(segments, id as SegmentId);
        rows.push(row_of(alloc, words, value)?)?;
    }
    Ok(rows)
}

/// Returns the value of the word at a place, if the word is there.
pub fn value_at<T: Copy>(rows: &Vec<Vec<T>>, place: Place) -> Option<T>
    ensures { result ≡ value_of rows.now.items (place_view place) }
{
    let index = place.segment as usize;
    if index >= rows.len() {
        return None;
    }
    let row = &rows[index];
    if place.position >= row.len() {
        return None;
    }
    Some(row[place.position])
}

/// Replaces the value of the word at a place, if the word is there.
pub fn set_value<T: Copy>(rows: &mut Vec<Vec<T>>, place: Place, value: T)
    ensures { (q : ModelPlace) → value_of rows.new.items q
        ≡ replaced (place_view place) value q (value_of rows.old.items q) }
{
    let index = place.segment as usize;
    if index < rows.len() {
        let row = &mut rows[index];
        if place.position < row.len() {
            row[place.position] = value;
        }
    }
}
