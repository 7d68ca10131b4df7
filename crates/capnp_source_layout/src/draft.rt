//! The layout of a struct so far.

ghost use Rattle.std.specs.Prelude.{◌≡◌, ◌+◌, ◌≤◌, IfOk, length, vec_len};
ghost use Rattle.capnp_source_layout.specs.Drafts.{Keeps, MovesNone};

use crate::levels::{Discriminant, Level, Sections, Shared, Used, add_data, add_pointer, join};
use crate::sections::{DataSize, size_of};
use crate::structs::{FieldSize, LayoutFault, Scope, Step};
use std::alloc::Global;
use std::mem;

/// A layout so far.
#[derive(Debug, Drop)]
pub struct Draft {
    pub sections: Sections,
    /// The shared part of each union, by the number of its scope.
    pub shared: Vec<Shared>,
    /// The part of its union that each member uses, by the number of its scope.
    pub used: Vec<Used>,
    /// The offset of each step.
    pub offsets: Vec<u32>,
    /// The discriminant of each scope that is a union.
    pub discriminants: Vec<Option<u32>>,
}

/// Returns a level in which no member has a field.
fn no_level(alloc: Global, union: usize) -> Level {
    let shared = Shared {
        has_fields: false,
        has_discriminant: false,
        locations: Vec::new(alloc),
        pointers: Vec::new(alloc),
    };
    let used = Used {
        has_fields: false,
        usages: Vec::new(alloc),
        pointers: 0,
    };
    Level {
        union,
        shared,
        used,
    }
}

/// Returns the draft in which no scope has a field.
pub fn no_draft(alloc: Global, scopes: &[Scope]) -> Result<Draft, LayoutFault>
    ensures offsets { IfOk result (λ d. vec_len d.offsets ≡ 0) }
    ensures discriminants { IfOk result (λ d. vec_len d.discriminants ≡ length scopes.now) }
{
    let mut shared = Vec::new(alloc);
    let mut used = Vec::new(alloc);
    let mut discriminants = Vec::new(alloc);
    while discriminants.len() < scopes.len() {
        let Level {
            union: _,
            shared: s,
            used: u,
        } = no_level(alloc, 0);
        shared.push(s)?;
        used.push(u)?;
        discriminants.push(None)?;
    }
    let sections = Sections {
        words: 0,
        holes: [None; 6],
        pointers: 0,
    };
    Ok(Draft {
        sections,
        shared,
        used,
        offsets: Vec::new(alloc),
        discriminants,
    })
}

/// Returns an offset of at most 32 bits.
pub fn narrowed(offset: u64) -> Result<u32, LayoutFault>
    ensures { IfOk result (λ narrow. narrow ≡ offset) }
{
    match u32::try_from(offset) {
        Ok(narrow) => Ok(narrow),
        Err(_) => Err(LayoutFault::TooLarge),
    }
}

/// A member of a union.
#[derive(Clone, Copy, Debug)]
struct Place {
    union: usize,
    member: usize,
}

/// Returns the members of unions around a scope, the innermost first.
fn places_around(alloc: Global, scopes: &[Scope], scope: usize) -> Result<Vec<Place>, LayoutFault> {
    let mut places = Vec::new(alloc);
    let mut at = scope;
    'outward: loop {
        match scopes.get(at) {
            Some(Scope::Struct) => return Ok(places),
            Some(Scope::Member { union }) => {
                let union = *union;
                let parent = parent_of(scopes, union)?;
                if parent >= union || union >= at {
                    return Err(LayoutFault::NoScope { scope: at });
                }
                places.push(Place { union, member: at })?;
                at = parent;
            }
            _ => return Err(LayoutFault::NoScope { scope: at }),
        }
    }
}

/// Returns the scope that a union is in.
fn parent_of(scopes: &[Scope], union: usize) -> Result<usize, LayoutFault> {
    match scopes.get(union) {
        Some(Scope::Union { parent }) => Ok(*parent),
        _ => Err(LayoutFault::NoScope { scope: union }),
    }
}

/// Adds the next steps.
#[tactic(auto, using(crate::proofs::Kept::moves_none, crate::proofs::Kept::moves_on))]
pub fn add_steps(
    alloc: Global,
    draft: &mut Draft,
    scopes: &[Scope],
    steps: &[Step],
) -> Result<(), LayoutFault>
    ensures moves_none { IfOk result (λ _. MovesNone draft.old draft.new) }
    ensures offsets { IfOk result (λ _. vec_len draft.new.offsets
        ≡ vec_len draft.old.offsets + length steps.now) }
    ensures discriminants { IfOk result (λ _. vec_len draft.new.discriminants
        ≡ vec_len draft.old.discriminants) }
{
    for step in steps {
        add_step(alloc, draft, scopes, *step)?;
    }
    Ok(())
}

/// Adds the next step.
pub fn add_step(
    alloc: Global,
    draft: &mut Draft,
    scopes: &[Scope],
    step: Step,
) -> Result<(), LayoutFault>
    ensures moves_none { IfOk result (λ _. MovesNone draft.old draft.new) }
    ensures offsets { IfOk result (λ _. vec_len draft.new.offsets
        ≡ vec_len draft.old.offsets + 1) }
    ensures discriminants { IfOk result (λ _. vec_len draft.new.discriminants
        ≡ vec_len draft.old.discriminants) }
{
    let offset = place_step(alloc, draft, scopes, step)?;
    let narrow = narrowed(offset)?;
    draft.offsets.push(narrow)?;
    Ok(())
}

/// Finds the place of the next step, and returns its offset.
fn place_step(
    alloc: Global,
    draft: &mut Draft,
    scopes: &[Scope],
    step: Step,
) -> Result<u64, LayoutFault>
    ensures offsets { IfOk result (λ _. draft.new.offsets ≡ draft.old.offsets) }
    ensures kept { IfOk result (λ _. Keeps draft.old.discriminants.items
        draft.new.discriminants.items) }
    ensures discriminants { IfOk result (λ _. vec_len draft.new.discriminants
        ≡ vec_len draft.old.discriminants) }
    ensures words { IfOk result (λ _. draft.old.sections.words ≤ draft.new.sections.words) }
    ensures pointers { IfOk result
        (λ _. draft.old.sections.pointers ≤ draft.new.sections.pointers) }
{
    match step {
        Step::Field { scope, size } => Ok(add_field(alloc, draft, scopes, scope, size)?),
        Step::Discriminant { union } => Ok(add_discriminant(alloc, draft, scopes, union)?),
    }
}

/// Gives a union its discriminant.
#[tactic(auto, using(crate::proofs::Kept::kept_then))]
fn add_discriminant(
    alloc: Global,
    draft: &mut Draft,
    scopes: &[Scope],
    union: usize,
) -> Result<u64, LayoutFault>
    ensures offsets { IfOk result (λ _. draft.new.offsets ≡ draft.old.offsets) }
    ensures kept { IfOk result (λ _. Keeps draft.old.discriminants.items
        draft.new.discriminants.items) }
    ensures discriminants { IfOk result (λ _. vec_len draft.new.discriminants
        ≡ vec_len draft.old.discriminants) }
    ensures words { IfOk result (λ _. draft.old.sections.words ≤ draft.new.sections.words) }
    ensures pointers { IfOk result
        (λ _. draft.old.sections.pointers ≤ draft.new.sections.pointers) }
{
    let parent = parent_of(scopes, union)?;
    let step = draft.offsets.len();
    if !give(&mut draft.shared, union) {
        return Err(LayoutFault::Discriminant { step });
    }
    let size = FieldSize::Data(DataSize::TwoBytes);
    let offset = add_field(alloc, draft, scopes, parent, size)?;
    note(&mut draft.discriminants, Discriminant { union, offset })?;
    Ok(offset)
}

/// Notes that a union has a discriminant. Returns whether it had none.
fn give(shared: &mut [Shared], union: usize) -> bool {
    if union >= shared.len() {
        return false;
    }
    let one = &mut shared[union];
    let is_first = !one.has_discriminant;
    one.has_discriminant = true;
    is_first
}

/// Notes the discriminant of a union that has none yet.
#[tactic(auto, using(crate::proofs::Kept::kept, crate::proofs::Kept::kept_put))]
fn note(discriminants: &mut [Option<u32>], new: Discriminant) -> Result<(), LayoutFault>
    ensures { IfOk result (λ _. Keeps discriminants.old discriminants.new) }
{
    let offset = narrowed(new.offset)?;
    if new.union >= discriminants.len() {
        return Ok(());
    }
    match discriminants[new.union] {
        Some(_) => Ok(()),
        None => {
            discriminants[new.union] = Some(offset);
            Ok(())
        }
    }
}

/// Notes the discriminants of unions.
#[tactic(auto, using(crate::proofs::Kept::kept, crate::proofs::Kept::kept_then))]
fn note_all(discriminants: &mut [Option<u32>], new: &[Discriminant]) -> Result<(), LayoutFault>
    ensures { IfOk result (λ _. Keeps discriminants.old discriminants.new) }
{
    for one in new {
        note(discriminants, *one)?;
    }
    Ok(())
}

/// Adds a field to a scope, and returns its offset.
fn add_field(
    alloc: Global,
    draft: &mut Draft,
    scopes: &[Scope],
    scope: usize,
    size: FieldSize,
) -> Result<u64, LayoutFault>
    ensures offsets { IfOk result (λ _. draft.new.offsets ≡ draft.old.offsets) }
    ensures kept { IfOk result (λ _. Keeps draft.old.discriminants.items
        draft.new.discriminants.items) }
    ensures discriminants { IfOk result (λ _. vec_len draft.new.discriminants
        ≡ vec_len draft.old.discriminants) }
    ensures words { IfOk result (λ _. draft.old.sections.words ≤ draft.new.sections.words) }
    ensures pointers { IfOk result
        (λ _. draft.old.sections.pointers ≤ draft.new.sections.pointers) }
{
    let places = places_around(alloc, scopes, scope)?;
    let mut levels = take_levels(alloc, &mut draft.shared, &mut draft.used, &places)?;
    let mut new = Vec::new(alloc);
    join(alloc, &mut draft.sections, &mut levels, &mut new)?;
    let offset = add_sized(alloc, &mut draft.sections, &mut levels, size)?;
    put_back(&mut draft.shared, &mut draft.used, &places, &mut levels);
    note_all(&mut draft.discriminants, &new)?;
    Ok(offset)
}

/// Adds a field of a size to the innermost of the levels, and returns its offset.
fn add_sized(
    alloc: Global,
    sections: &mut Sections,
    levels: &mut [Level],
    size: FieldSize,
) -> Result<u64, LayoutFault>
    ensures words { IfOk result (λ _. sections.old.words ≤ sections.new.words) }
    ensures pointers { IfOk result (λ _. sections.old.pointers ≤ sections.new.pointers) }
{
    match size {
        FieldSize::Void => Ok(0),
        FieldSize::Data(size) => Ok(add_data(alloc, sections, levels, size_of(size))?),
        FieldSize::Pointer => Ok(add_pointer(sections, levels)?),
    }
}

/// Takes the levels of members out.
fn take_levels(
    alloc: Global,
    shared: &mut [Shared],
    used: &mut [Used],
    places: &[Place],
) -> Result<Vec<Level>, LayoutFault> {
    let mut levels = Vec::new(alloc);
    for place in places {
        let mut level = no_level(alloc, place.union);
        swap_level(shared, used, *place, &mut level);
        levels.push(level)?;
    }
    Ok(levels)
}

/// Puts the levels of members back.
fn put_back(shared: &mut [Shared], used: &mut [Used], places: &[Place], levels: &mut [Level]) {
    for (at, place) in places.iter().enumerate() {
        if at < levels.len() {
            swap_level(shared, used, *place, &mut levels[at]);
        }
    }
}

/// Swaps the level of a member for another.
fn swap_level(shared: &mut [Shared], used: &mut [Used], place: Place, level: &mut Level) {
    if place.union < shared.len() {
        mem::swap(&mut shared[place.union], &mut level.shared);
    }
    if place.member < used.len() {
        mem::swap(&mut used[place.member], &mut level.used);
    }
}
