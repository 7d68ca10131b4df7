//! Scopes within scopes: from a member of a union outward to the struct.

ghost use Rattle.std.specs.Prelude.{◌≡◌, ◌≤◌, IfOk};

use crate::holes::place;
use crate::structs::LayoutFault;
use crate::usage::{Location, Usage, factor, free_size, grow, needed_size, take, widen_in_holes};
use std::alloc::Global;
use std::mem;

/// The sections of a struct so far.
#[derive(Debug, Drop)]
pub struct Sections {
    pub words: u64,
    pub holes: [Option<u64>; 6],
    pub pointers: u64,
}

/// The places that the members of a union share.
#[derive(Debug, Drop)]
pub struct Shared {
    /// Whether a member has a field.
    pub has_fields: bool,
    pub has_discriminant: bool,
    pub locations: Vec<Location>,
    pub pointers: Vec<u64>,
}

/// The places that a member of a union uses.
#[derive(Debug, Drop)]
pub struct Used {
    /// Whether it has a field.
    pub has_fields: bool,
    /// Its usage of the first locations of the union; it uses no other.
    pub usages: Vec<Usage>,
    /// The number of the union's pointers that it uses.
    pub pointers: usize,
}

/// A union, and the member of it that fields are added to.
#[derive(Debug, Drop)]
pub struct Level {
    /// The number of the union.
    pub union: usize,
    pub shared: Shared,
    pub used: Used,
}

/// The offset of the discriminant of a union.
#[derive(Clone, Copy, Debug)]
pub struct Discriminant {
    pub union: usize,
    pub offset: u64,
}

/// Widens a place of a scope to `2 ^ times` times its size. Returns whether that is possible;
/// otherwise nothing changes.
#[cycle(widening)]
pub fn widen(
    sections: &mut Sections,
    levels: &mut [Level],
    place: Location,
    times: usize,
) -> Result<bool, LayoutFault>
    ensures words { IfOk result (λ _. sections.new.words ≡ sections.old.words) }
    ensures pointers { IfOk result (λ _. sections.new.pointers ≡ sections.old.pointers) }
{
    let Some((level, outer)) = levels.split_first_mut() else {
        let holes = &mut sections.holes;
        return Ok(widen_in_holes(holes, place.size, place.offset, times));
    };
    let size = place.size.saturating_add(times);
    if size > 6 || place.offset % factor(times) != 0 {
        return Ok(false);
    }
    let Some((at, within)) = location_of(&level.shared.locations, place) else {
        return Ok(false);
    };
    let usages = &mut level.used.usages;
    if let Some(done) = widen_within(usages, at, place.size, within, times) {
        return Ok(done);
    }
    if !widen_at(sections, outer, &mut level.shared.locations, at, size)? {
        return Ok(false);
    }
    grow_at(&mut level.used.usages, at, size)?;
    Ok(true)
}

/// Widens a location of a union to a size at least. Returns whether that is possible; otherwise
/// nothing changes.
#[cycle(widening)]
fn widen_at(
    sections: &mut Sections,
    outer: &mut [Level],
    locations: &mut [Location],
    at: usize,
    size: usize,
) -> Result<bool, LayoutFault>
    ensures words { IfOk result (λ _. sections.new.words ≡ sections.old.words) }
    ensures pointers { IfOk result (λ _. sections.new.pointers ≡ sections.old.pointers) }
{
    if at >= locations.len() {
        return Ok(false);
    }
    let location = locations[at];
    if size <= location.size {
        return Ok(true);
    }
    if !widen(sections, outer, location, size - location.size)? {
        return Ok(false);
    }
    locations[at] = widened(location, size);
    Ok(true)
}

/// Widens a place within what is used of a location. Returns `None` if it is all that is used: the
/// part that is used has to grow then.
fn widen_within(
    usages: &mut [Usage],
    at: usize,
    size: usize,
    within: u64,
    times: usize,
) -> Option<bool> {
    if at >= usages.len() {
        return Some(false);
    }
    match &mut usages[at] {
        Usage::Unused => Some(false),
        Usage::Used(holes) => {
            if within == 0 && holes.len() == size {
                None
            } else {
                Some(widen_in_holes(holes, size, within, times))
            }
        }
    }
}

/// Lets the part that is used of a location grow to a size, without new holes.
fn grow_at(usages: &mut [Usage], at: usize, size: usize) -> Result<(), LayoutFault> {
    if at >= usages.len() {
        return Ok(());
    }
    match &mut usages[at] {
        Usage::Unused => Ok(()),
        Usage::Used(holes) => grow(holes, size, None),
    }
}

/// Returns the index of the location that a place is in, and the offset of the place within it.
fn location_of(locations: &[Location], place: Location) -> Option<(usize, u64)> {
    for (at, location) in locations.iter().enumerate() {
        if location.size >= place.size {
            let count = factor(location.size - place.size);
            if place.offset / count == location.offset {
                return Some((at, place.offset % count));
            }
        }
    }
    None
}

/// Returns a location that has been widened to a size.
fn widened(location: Location, size: usize) -> Location {
    let offset = location.offset / factor(size.saturating_sub(location.size));
    Location { size, offset }
}

/// Adds a data field to the innermost of the levels, and returns its offset in fields of its size.
pub fn add_data(
    alloc: Global,
    sections: &mut Sections,
    levels: &mut [Level],
    size: usize,
) -> Result<u64, LayoutFault>
    ensures words { IfOk result (λ _. sections.old.words ≤ sections.new.words) }
    ensures pointers { IfOk result (λ _. sections.old.pointers ≤ sections.new.pointers) }
{
    let Some((level, outer)) = levels.split_first_mut() else {
        let Some(offset) = place(size, &mut sections.words, &mut sections.holes) else {
            return Err(LayoutFault::TooLarge);
        };
        return Ok(offset);
    };
    cover(&mut level.used.usages, level.shared.locations.len())?;
    if let Some(at) = best(level, size) {
        return Ok(take_at(alloc, level, at, size)?);
    }
    if let Some(at) = widen_first(sections, outer, level, size)? {
        return Ok(take_at(alloc, level, at, size)?);
    }
    let at = level.shared.locations.len();
    let new = add_data(alloc, sections, outer, size)?;
    level.shared.locations.push(Location { size, offset: new })?;
    level.used.usages.push(Usage::Unused)?;
    Ok(take_at(alloc, level, at, size)?)
}

/// Adds usages until there is one for each location.
fn cover(usages: &mut Vec<Usage>, count: usize) -> Result<(), LayoutFault> {
    while usages.len() < count {
        usages.push(Usage::Unused)?;
    }
    Ok(())
}

/// Takes a place of `size` in one of the locations.
fn take_at(alloc: Global, level: &mut Level, at: usize, size: usize) -> Result<u64, LayoutFault> {
    if at >= level.shared.locations.len() {
        return Err(LayoutFault::TooLarge);
    }
    let location = level.shared.locations[at];
    use_location(alloc, &mut level.used.usages, at, location, size)
}

/// Takes a place of `size` in a location, and notes it in the usage of the same index.
fn use_location(
    alloc: Global,
    usages: &mut [Usage],
    at: usize,
    location: Location,
    size: usize,
) -> Result<u64, LayoutFault> {
    if at >= usages.len() {
        return Err(LayoutFault::TooLarge);
    }
    let before = mem::replace(&mut usages[at], Usage::Unused);
    let (offset, after) = take(alloc, location, before, size)?;
    usages[at] = after;
    Ok(offset)
}

/// Returns the index of the location with the smallest place that a field fits in.
fn best(level: &Level, size: usize) -> Option<usize> {
    let mut found = None;
    let mut smallest = usize::MAX;
    for (at, usage) in level.used.usages.iter().enumerate() {
        if at < level.shared.locations.len() {
            let location = level.shared.locations[at];
            if let Some(free) = free_size(location.size, usage, size) {
                if free < smallest {
                    smallest = free;
                    found = Some(at);
                }
            }
        }
    }
    found
}

/// Widens the first location that can be widened until a field fits, and returns its index.
fn widen_first(
    sections: &mut Sections,
    outer: &mut [Level],
    level: &mut Level,
    size: usize,
) -> Result<Option<usize>, LayoutFault>
    ensures words { IfOk result (λ _. sections.new.words ≡ sections.old.words) }
    ensures pointers { IfOk result (λ _. sections.new.pointers ≡ sections.old.pointers) }
{
    for at in 0..level.used.usages.len() {
        let needed = needed_at(&level.used.usages, at, size);
        if widen_at(sections, outer, &mut level.shared.locations, at, needed)? {
            return Ok(Some(at));
        }
    }
    Ok(None)
}

/// Returns the size that a location needs for a field of `size` to fit.
fn needed_at(usages: &[Usage], at: usize, size: usize) -> usize {
    match usages.get(at) {
        Some(usage) => needed_size(usage, size),
        None => size,
    }
}

/// Adds a pointer to the innermost of the levels, and returns its index.
pub fn add_pointer(sections: &mut Sections, levels: &mut [Level]) -> Result<u64, LayoutFault>
    ensures words { IfOk result (λ _. sections.old.words ≤ sections.new.words) }
    ensures pointers { IfOk result (λ _. sections.old.pointers ≤ sections.new.pointers) }
{
    let Some((level, outer)) = levels.split_first_mut() else {
        let index = sections.pointers;
        let Some(count) = index.checked_add(1) else {
            return Err(LayoutFault::TooLarge);
        };
        sections.pointers = count;
        return Ok(index);
    };
    let at = level.used.pointers;
    let Some(count) = at.checked_add(1) else {
        return Err(LayoutFault::TooLarge);
    };
    level.used.pointers = count;
    if let Some(index) = level.shared.pointers.get(at) {
        return Ok(*index);
    }
    let index = add_pointer(sections, outer)?;
    level.shared.pointers.push(index)?;
    Ok(index)
}

/// Notes that the innermost of the levels has a field. Each union whose second member this is gets a
/// discriminant, which is added to a list.
pub fn join(
    alloc: Global,
    sections: &mut Sections,
    levels: &mut [Level],
    discriminants: &mut Vec<Discriminant>,
) -> Result<(), LayoutFault>
    ensures words { IfOk result (λ _. sections.old.words ≤ sections.new.words) }
    ensures pointers { IfOk result (λ _. sections.old.pointers ≤ sections.new.pointers) }
{
    let Some((level, outer)) = levels.split_first_mut() else {
        return Ok(());
    };
    join(alloc, sections, outer, discriminants)?;
    if level.used.has_fields {
        return Ok(());
    }
    level.used.has_fields = true;
    if level.shared.has_fields && !level.shared.has_discriminant {
        level.shared.has_discriminant = true;
        let offset = add_data(alloc, sections, outer, 4)?;
        discriminants.push(Discriminant {
            union: level.union,
            offset,
        })?;
    }
    level.shared.has_fields = true;
    Ok(())
}
