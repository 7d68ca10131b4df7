//! Locations of unions, and the parts of them that members use.

ghost use Rattle.std.specs.Prelude.{◌<◌};

use crate::holes::place;
use crate::structs::LayoutFault;
use std::alloc::Global;

/// A part of a data section that the members of a union share.
#[derive(Clone, Copy, Debug)]
pub struct Location {
    /// Its size as a power of two bits.
    pub size: usize,
    /// Its offset in locations of its size.
    pub offset: u64,
}

/// The part of a location that a member of the union uses.
#[derive(Debug, Drop)]
pub enum Usage {
    Unused,
    /// The front of the location: a power of two bits, whose exponent is the number of holes. There
    /// is at most one hole of each smaller size.
    Used(Vec<Option<u64>>),
}

/// Returns `2 ^ times`, for sizes of at most a word.
pub fn factor(times: usize) -> u64
    ensures { 0 < result }
{
    match times {
        0 => 1,
        1 => 2,
        2 => 4,
        3 => 8,
        4 => 16,
        5 => 32,
        _ => 64,
    }
}

/// Returns the location with the same bits that a wider location begins with.
pub fn front_of(location: Location, size: usize) -> Option<u64> {
    location
        .offset
        .checked_mul(factor(location.size.saturating_sub(size)))
}

/// Returns the size of the hole that a field of `size` is put in. If no hole is large enough, this
/// is the size of the part that is used, or of the field if that is larger: a hole of this size
/// comes when the part is doubled.
pub fn hole_size(holes: &[Option<u64>], size: usize) -> usize {
    for (at, hole) in holes.iter().enumerate() {
        if at >= size && hole.is_some() {
            return at;
        }
    }
    holes.len().max(size)
}

/// Returns the size of the free place in a location that a field of `size` is put in; `None` if the
/// location has no such place.
pub fn free_size(location: usize, usage: &Usage, size: usize) -> Option<usize> {
    let free = match usage {
        Usage::Unused => location,
        Usage::Used(holes) => hole_size(holes, size),
    };
    if needed_size(usage, size) <= location {
        Some(free)
    } else {
        None
    }
}

/// Returns the size that a location needs for a field of `size` to fit.
pub fn needed_size(usage: &Usage, size: usize) -> usize {
    match usage {
        Usage::Unused => size,
        Usage::Used(holes) => hole_size(holes, size).saturating_add(1),
    }
}

/// Doubles a part that is used until it has a size; the second halves are holes if `hole` is.
pub fn grow(
    holes: &mut Vec<Option<u64>>,
    size: usize,
    hole: Option<u64>,
) -> Result<(), LayoutFault> {
    while holes.len() < size {
        holes.push(hole)?;
    }
    Ok(())
}

/// Takes a place of `size` in the part that is used, or in its second half after doubling it.
fn take_hole(holes: &mut Vec<Option<u64>>, size: usize) -> Result<u64, LayoutFault> {
    grow(holes, size, Some(1))?;
    let mut parts = 1;
    let Some(offset) = place(size, &mut parts, holes) else {
        return Err(LayoutFault::TooLarge);
    };
    if parts > 1 {
        holes.push(None)?;
    }
    Ok(offset)
}

/// Takes a place of `size` in a location, and returns its offset in places of its size, with what is
/// used then.
pub fn take(
    alloc: Global,
    location: Location,
    usage: Usage,
    size: usize,
) -> Result<(u64, Usage), LayoutFault> {
    let Some(front) = front_of(location, size) else {
        return Err(LayoutFault::TooLarge);
    };
    match usage {
        Usage::Unused => {
            let mut holes = Vec::new(alloc);
            grow(&mut holes, size, None)?;
            Ok((front, Usage::Used(holes)))
        }
        Usage::Used(mut holes) => {
            let within = take_hole(&mut holes, size)?;
            let Some(offset) = front.checked_add(within) else {
                return Err(LayoutFault::TooLarge);
            };
            Ok((offset, Usage::Used(holes)))
        }
    }
}

/// Widens a place by the holes after it, until it has `2 ^ times` times its size. Returns whether
/// there are such holes; otherwise nothing changes.
pub fn widen_in_holes(holes: &mut [Option<u64>], size: usize, offset: u64, times: usize) -> bool {
    if times == 0 {
        return true;
    }
    if size >= holes.len() {
        return false;
    }
    if holes[size] != offset.checked_add(1) {
        return false;
    }
    let done = widen_in_holes(holes, size + 1, offset / 2, times - 1);
    if done {
        holes[size] = None;
    }
    done
}
