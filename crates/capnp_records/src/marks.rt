//! Marks of the bits and pointers of a struct that are taken so far.

ghost use Rattle.std.specs.Prelude.{◌≡◌, ◌≤◌, ◌<◌, IfOk, get_or, vec_len};
ghost use Rattle.std.specs.Bool.{MatchBool};
ghost use Rattle.capnp_records.specs.Storage.{areas_in};
ghost use Rattle.capnp_records.specs.Marks.{AllowsAll, HasMarkAbove, MarksAreas, AllAtMost, OneAbove, Raised};

use crate::area::Area;
use std::alloc::{AllocError, Global};

/// A mark for each bit and each pointer, 0 past the end.
#[derive(Drop)]
pub(crate) struct Marks {
    bits: Vec<u8>,
    pointers: Vec<u8>,
}

/// Returns the mark at a place, 0 past the end.
pub(crate) fn mark_at(marks: &[u8], place: usize) -> u8
    ensures { result ≡ get_or marks.now place 0 }
{
    marks.get(place).copied().unwrap_or(0)
}

/// Returns whether each mark from a place up to another is at most the highest.
fn are_at_most(marks: &[u8], first: usize, end: usize, most: u8) -> bool
    ensures { MatchBool result (AllAtMost marks.now first end most)
        (OneAbove marks.now first end most) }
{
    for k in first..end {
        if mark_at(marks, k) > most {
            return false;
        }
    }
    true
}

/// Raises the marks from a place up to another to at least the level.
pub(crate) fn raise(
    marks: &mut Vec<u8>,
    first: usize,
    end: usize,
    level: u8,
) -> Result<(), AllocError>
    requires { first ≤ end }
    ensures { IfOk result (λ _. Raised marks.old.items marks.new.items first end level) }
{
    if marks.len() < end {
        marks.resize(end, 0)?;
    }
    for k in first..end {
        if marks[k] < level {
            marks[k] = level;
        }
    }
    Ok(())
}

impl Marks {
    ghost use Rattle.std.specs.Prelude.{◌≡◌, ℕ, Bool, IfOk};
    ghost use Rattle.std.specs.Bool.{MatchBool};
    ghost use Rattle.capnp_records.specs.Storage.{areas_in};
    ghost use Rattle.capnp_records.specs.Marks.{mark_at, AllowsAll, HasMarkAbove, MarksAreas};

    pub(crate) fn new(alloc: Global) -> Marks
        ensures { (pointer : Bool) (k : ℕ) → mark_at result pointer k ≡ 0 }
    {
        Marks {
            bits: Vec::new(alloc),
            pointers: Vec::new(alloc),
        }
    }

    /// Returns whether each mark of the area is at most the highest.
    pub(crate) fn allows(&self, area: Area, most: u8) -> bool
        ensures { MatchBool result (AllowsAll self.now (areas_in area) most) (HasMarkAbove self.now
            (areas_in area) most) }
    {
        match area {
            Area::Empty => true,
            Area::Bits(span) => {
                let first = span.width as usize * span.place as usize;
                are_at_most(&self.bits, first, first + span.width as usize, most)
            }
            Area::Pointer { place } => {
                let first = place as usize;
                are_at_most(&self.pointers, first, first + 1, most)
            }
        }
    }

    /// Raises the marks of the area to at least the level.
    pub(crate) fn put(&mut self, area: Area, level: u8) -> Result<(), AllocError>
        ensures { IfOk result (λ _. MarksAreas self.old self.new (areas_in area) level) }
    {
        match area {
            Area::Empty => Ok(()),
            Area::Bits(span) => {
                let first = span.width as usize * span.place as usize;
                raise(&mut self.bits, first, first + span.width as usize, level)
            }
            Area::Pointer { place } => {
                let first = place as usize;
                raise(&mut self.pointers, first, first + 1, level)
            }
        }
    }
}
