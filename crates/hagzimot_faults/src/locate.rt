//! The first pointer of a message that can't be followed.
ghost use Rattle.std.specs.Prelude.{◌≡◌, ◌+◌, ◌*◌, ◌<◌, ◌^◌, true, IfOk, IfSome};
ghost use Rattle.capnp_units.specs.Segments.{words_in};
ghost use Rattle.capnp_wire_objects.specs.Places.{place_view};
ghost use Rattle.capnp_wire_objects.specs.Objects.{IsInside};
ghost use Rattle.hagzimot_faults.specs.Located.{row_view, LocatesAt, LocatesInside, LocatesInRow, LocatesInElements, IsFaultPlace, IsWireFault};

use crate::steps::Step;
use capnp_model::laws::{sizes_of_values, values_on_walks};
use capnp_units::kinds::ErrorKind;
use capnp_units::limiter::ReadLimiter;
use capnp_wire_objects::arena::ReaderArena;
use capnp_wire_objects::follow::follow_within;
use capnp_wire_objects::object::Object;
use capnp_wire_objects::place::{Place, ROOT};
use capnp_wire_objects::size::size_at;
use std::alloc::{AllocError, Global};

/// Limits of the pointers of a message.
#[derive(Clone, Copy, Debug, PartialEq, Eq)]
pub struct WalkLimits {
    /// The most words that following the pointers may cost.
    pub words: u32,
    /// The most levels of pointers, the root's the first.
    pub nesting: u32,
}

/// A pointer that can't be followed, and the reason.
#[derive(Clone, Copy, Debug, PartialEq, Eq)]
pub struct Refused {
    pub kind: ErrorKind,
    pub place: Place,
}

/// The place of a pointer that can't be followed.
#[derive(Debug, Drop)]
pub struct FaultPlace {
    pub place: Place,
    /// The steps that lead to the pointer from the root.
    pub steps: Vec<Step>,
}

/// The reason for which a message has no value.
#[derive(Debug, Drop)]
pub struct WireFault {
    pub kind: ErrorKind,
    /// The place of the fault.
    pub at: Option<FaultPlace>,
}

/// The kind of fault that is looked for.
#[derive(Clone, Copy, Debug, PartialEq, Eq)]
enum Wanted {
    /// A pointer that can't be followed.
    Refusal,
    /// A capability.
    Capability,
}

/// Pointers in a row: those of a struct, of a list, or of an element of a list of structs.
#[derive(Clone, Copy)]
enum Row {
    Struct,
    Items,
    Element(u32),
}

impl Row {
    /// Returns the step to a pointer of the row.
    fn step(self, index: u32) -> Step
        ensures { result ≡ row_view self index }
    {
        match self {
            Row::Struct => Step::Pointer(index),
            Row::Items => Step::Item(index),
            Row::Element(element) => Step::Element {
                index: element,
                pointer: index,
            },
        }
    }
}

/// The elements of a list of structs.
#[derive(Clone, Copy)]
struct Elements {
    start: Place,
    count: u32,
    data_words: u16,
    pointers: u16,
}

/// Finds the first pointer that can't be followed, or the first capability, from the pointer at a
/// place on. The steps that lead there follow those that are in `steps`; if there is none, `steps`
/// stays as it is. `AllocError`: an allocation was refused.
#[cycle(locate)]
fn locate_at<A: ReaderArena>(
    arena: &A,
    limiter: &mut ReadLimiter,
    place: Place,
    levels: u32,
    wanted: Wanted,
    steps: &mut Vec<Step>,
) -> Result<Option<Refused>, AllocError>
    ensures { IfOk result (λ found. LocatesAt (words_in (A.segments arena.now)) (place_view place)
        steps.old.items found steps.new.items) }
{
    let object = match follow_within(arena, limiter, place, levels) {
        Ok(object) => object,
        Err(e) => return Ok(Some(Refused {
            kind: e.kind,
            place,
        })),
    };
    if let Object::Capability { .. } = object {
        if wanted == Wanted::Capability {
            let kind = ErrorKind::CapabilityInCanonical;
            return Ok(Some(Refused { kind, place }));
        }
    }
    if levels == 0 {
        return Ok(None);
    }
    locate_inside(arena, limiter, object, levels - 1, wanted, steps)
}

/// Finds the same, from the pointers in an object on.
#[cycle(locate)]
fn locate_inside<A: ReaderArena>(
    arena: &A,
    limiter: &mut ReadLimiter,
    object: Object,
    levels: u32,
    wanted: Wanted,
    steps: &mut Vec<Step>,
) -> Result<Option<Refused>, AllocError>
    requires { IsInside (words_in (A.segments arena.now)) object }
    ensures { IfOk result (λ found. LocatesInside (words_in (A.segments arena.now)) object
        steps.old.items found steps.new.items) }
{
    match object {
        Object::Null | Object::Capability { .. } | Object::List { .. } => Ok(None),
        Object::Struct {
            start,
            data_words,
            pointers,
        } => {
            let first = Place {
                segment: start.segment,
                position: start.position + data_words as usize,
            };
            let count = pointers as u32;
            locate_in_row(
                arena,
                limiter,
                first,
                count,
                Row::Struct,
                levels,
                wanted,
                steps,
            )
        }
        Object::PointerList { start, count } => {
            locate_in_row(
                arena,
                limiter,
                start,
                count,
                Row::Items,
                levels,
                wanted,
                steps,
            )
        }
        Object::StructList {
            start,
            count,
            data_words,
            pointers,
            ..
        } => {
            let elements = Elements {
                start,
                count,
                data_words,
                pointers,
            };
            locate_in_elements(arena, limiter, elements, levels, wanted, steps)
        }
    }
}

/// Finds the same, from pointers in a row on.
#[cycle(locate)]
fn locate_in_row<A: ReaderArena>(
    arena: &A,
    limiter: &mut ReadLimiter,
    first: Place,
    count: u32,
    row: Row,
    levels: u32,
    wanted: Wanted,
    steps: &mut Vec<Step>,
) -> Result<Option<Refused>, AllocError>
    requires { first.position + count < 2 ^ 62 }
    ensures { IfOk result (λ found. LocatesInRow (words_in (A.segments arena.now))
        (place_view first) count row steps.old.items found steps.new.items) }
{
    for i in 0..count {
        let place = Place {
            segment: first.segment,
            position: first.position + i as usize,
        };
        steps.push(row.step(i))?;
        let found = locate_at(arena, limiter, place, levels, wanted, steps)?;
        if found.is_some() {
            return Ok(found);
        }
        steps.pop();
    }
    Ok(None)
}

/// Finds the same, from the pointers in the elements of a list of structs on.
#[cycle(locate)]
fn locate_in_elements<A: ReaderArena>(
    arena: &A,
    limiter: &mut ReadLimiter,
    elements: Elements,
    levels: u32,
    wanted: Wanted,
    steps: &mut Vec<Step>,
) -> Result<Option<Refused>, AllocError>
    requires { elements.start.position
        + elements.count * (elements.data_words + elements.pointers) < 2 ^ 61 }
    ensures { IfOk result (λ found. LocatesInElements (words_in (A.segments arena.now)) elements
        steps.old.items found steps.new.items) }
{
    let pointers = elements.pointers as u32;
    if pointers == 0 {
        return Ok(None);
    }
    for i in 0..elements.count {
        let width = elements.data_words as usize + elements.pointers as usize;
        let first = Place {
            segment: elements.start.segment,
            position: elements.start.position + i as usize * width + elements.data_words as usize,
        };
        let row = Row::Element(i);
        let found = locate_in_row(arena, limiter, first, pointers, row, levels, wanted, steps)?;
        if found.is_some() {
            return Ok(found);
        }
    }
    Ok(None)
}

/// Tests whether two kinds are the same.
fn are_same(one: ErrorKind, other: ErrorKind) -> bool
    ensures { result ≡ true → one ≡ other }
{
    one == other
}

/// Finds the place at which the value of the root is refused by this kind.
fn place_of<A: ReaderArena>(
    alloc: Global,
    arena: &A,
    limits: WalkLimits,
    kind: ErrorKind,
    wanted: Wanted,
) -> Result<Option<FaultPlace>, AllocError>
    ensures { IfOk result (λ found. IfSome found (λ at.
        IsFaultPlace (words_in (A.segments arena.now)) kind at)) }
{
    let mut steps = Vec::new(alloc);
    let mut limiter = ReadLimiter::new(Some(limits.words as u64));
    let found = locate_at(
        arena,
        &mut limiter,
        ROOT,
        limits.nesting,
        wanted,
        &mut steps,
    )?;
    match found {
        Some(refused) if are_same(refused.kind, kind) => Ok(Some(FaultPlace {
            place: refused.place,
            steps,
        })),
        _ => Ok(None),
    }
}

/// Returns the reason for which a message has no value within the limits without a capability.
/// Returns `None` if the message has such a value.
///
/// The kind is that of the first pointer that can't be followed, in the order of reading: a
/// struct's or a list's pointers one after the other, each with what lies below it. Only if all can
/// be followed, and there is a capability, is it `CapabilityInCanonical`. It is one walk that takes
/// a step for each pointer, and a second one if the message has no value. `AllocError`: an
/// allocation was refused.
pub fn wire_fault<A: ReaderArena>(
    alloc: Global,
    arena: &A,
    limits: WalkLimits,
) -> Result<Option<WireFault>, AllocError>
    ensures { IfOk result
        (IsWireFault limits (words_in (A.segments arena.now))) }
{
    values_on_walks();
    sizes_of_values();
    let mut limiter = ReadLimiter::new(Some(limits.words as u64));
    let (kind, wanted) = match size_at(arena, &mut limiter, ROOT, limits.nesting) {
        Err(e) => (e.kind, Wanted::Refusal),
        Ok(size) if size.cap_count != 0 => {
            (ErrorKind::CapabilityInCanonical, Wanted::Capability)
        }
        Ok(_) => return Ok(None),
    };
    let at = place_of(alloc, arena, limits, kind, wanted)?;
    Ok(Some(WireFault { kind, at }))
}
