//! The pointers of a message, each once.
ghost use Rattle.std.specs.Prelude.{◌≡◌, ◌<◌, ◌^◌, ◌+◌, ◌*◌, ℕ, Contains, IfOk};
ghost use Rattle.capnp_model.specs.Segments.{Segments, after};
ghost use Rattle.capnp_units.specs.Segments.{words_in};
ghost use Rattle.capnp_wire_objects.specs.Places.{place_view, placed};
ghost use Rattle.capnp_wire_objects.specs.Objects.{IsInside};
ghost use Rattle.hagzimot_explain.specs.Reached.{AreListed, Adds, IsInRow, IsInElements, IsPointerOf, HasPointersOf, AreReached};

use crate::parts::{object_there, words_of};
use crate::rows::{rows_of, set_value, value_at};
use capnp_units::segments::ReaderSegments;
use capnp_wire_objects::arena::ReaderArena;
use capnp_wire_objects::object::Object;
use capnp_wire_objects::place::{Place, ROOT};
use std::alloc::{AllocError, Global};

/// The pointers that the root leads to.
#[derive(Debug, Drop)]
pub struct Pointers {
    /// Their places in the order in which they are followed, the root's first, each once.
    pub places: Vec<Place>,
    /// Whether the words ran out before all were followed.
    pub is_cut: bool,
}

/// Adds a pointer to the others unless it is seen.
fn add(places: &mut Vec<Place>, seen: &mut Vec<Vec<bool>>, place: Place) -> Result<(), AllocError>
    requires { AreListed seen.now.items places.now.items }
    ensures adds { IfOk result (λ u. Adds (λ p. p ≡ place) places.old.items places.new.items
        seen.old.items seen.new.items) }
    ensures has { IfOk result (λ u. Contains places.new.items place) }
{
    if value_at(seen, place).unwrap_or(false) {
        return Ok(());
    }
    places.push(place)?;
    set_value(seen, place, true);
    Ok(())
}

/// Adds n pointers in a row.
fn add_row(
    places: &mut Vec<Place>,
    seen: &mut Vec<Vec<bool>>,
    first: Place,
    count: u32,
) -> Result<(), AllocError>
    requires listed { AreListed seen.now.items places.now.items }
    requires near { first.position + count < 2 ^ 62 }
    ensures adds { IfOk result (λ u. Adds (IsInRow (place_view first) count) places.old.items
        places.new.items seen.old.items seen.new.items) }
    ensures has { IfOk result (λ u. (i : ℕ) → i < count
        → Contains places.new.items (placed (after (place_view first) i))) }
{
    for i in 0..count {
        let place = Place {
            segment: first.segment,
            position: first.position + i as usize,
        };
        add(places, seen, place)?;
    }
    Ok(())
}

/// Adds the pointers of n elements of a list of structs.
fn add_elements(
    places: &mut Vec<Place>,
    seen: &mut Vec<Vec<bool>>,
    start: Place,
    count: u32,
    data_words: u16,
    pointers: u16,
) -> Result<(), AllocError>
    requires listed { AreListed seen.now.items places.now.items }
    requires near { start.position + count * (data_words + pointers) < 2 ^ 61 }
    ensures adds { IfOk result (λ u. Adds
        (IsInElements (place_view start) count data_words pointers) places.old.items
        places.new.items seen.old.items seen.new.items) }
    ensures has { IfOk result (λ u. (e i : ℕ) → e < count → i < pointers
        → Contains places.new.items (placed (after (place_view start)
        (e * (data_words + pointers) + data_words + i)))) }
{
    if pointers == 0 {
        return Ok(());
    }
    let width = data_words as usize + pointers as usize;
    for i in 0..count {
        let first = Place {
            segment: start.segment,
            position: start.position + i as usize * width + data_words as usize,
        };
        add_row(places, seen, first, pointers as u32)?;
    }
    Ok(())
}

/// Adds the pointers in an object.
fn add_inside(
    places: &mut Vec<Place>,
    seen: &mut Vec<Vec<bool>>,
    object: Object,
) -> Result<(), AllocError>
    requires listed { AreListed seen.now.items places.now.items }
    requires near { (s : Segments) × IsInside s object }
    ensures adds { IfOk result (λ u. Adds (IsPointerOf object) places.old.items places.new.items
        seen.old.items seen.new.items) }
    ensures has { IfOk result (λ u. HasPointersOf object places.new.items) }
{
    match object {
        Object::Null | Object::Capability { .. } | Object::List { .. } => Ok(()),
        Object::Struct {
            start,
            data_words,
            pointers,
        } => {
            let first = Place {
                segment: start.segment,
                position: start.position + data_words as usize,
            };
            add_row(places, seen, first, pointers as u32)
        }
        Object::PointerList { start, count } => add_row(places, seen, start, count),
        Object::StructList {
            start,
            count,
            data_words,
            pointers,
            ..
        } => add_elements(places, seen, start, count, data_words, pointers),
    }
}

/// Returns the pointers that the root leads to, nulls and those that can't be followed too. Each
/// that is followed costs a word, and the words of its object; when the next would cost more than
/// is left of the n words, no more are followed. `AllocError`: an allocation was refused.
pub fn pointers_of<S: ReaderSegments, A: ReaderArena>(
    alloc: Global,
    segments: &S,
    arena: &A,
    words: u64,
) -> Result<Pointers, AllocError>
    requires { A.segments arena.now ≡ S.segments segments.now }
    ensures { IfOk result (AreReached (words_in (S.segments segments.now)) words) }
{
    let mut places = Vec::new(alloc);
    let mut seen = rows_of(alloc, segments, false)?;
    add(&mut places, &mut seen, ROOT)?;
    let mut left = words;
    let mut next: usize = 0;
    while next < places.len() {
        let object = object_there(arena, places[next]);
        let cost = words_of(object) + 1;
        if cost > left {
            return Ok(Pointers {
                places,
                is_cut: true,
            });
        }
        left -= cost;
        add_inside(&mut places, &mut seen, object)?;
        next += 1;
    }
    Ok(Pointers {
        places,
        is_cut: false,
    })
}
