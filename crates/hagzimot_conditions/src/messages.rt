//! Messages are looked at by conditions and columns.

use crate::columns::{Column, RowFault, cell};
use crate::conditions::Conditions;
pub use crate::reads::Unread;
use capnp_units::limiter::ReadLimiter;
use capnp_units::segments::ReaderSegments;
use capnp_values::dynamic_struct;
use capnp_values_queries::structs::StructSchema;
use capnp_wire::pointer::PointerReader;
use capnp_wire_objects::arena::{ReaderArena, ReaderArenaImpl};
use std::alloc::Global;

/// The struct at the root of messages, and how far messages are followed.
#[derive(Clone, Copy)]
pub struct Sight<'a> {
    pub root: StructSchema<'a>,
    /// The most words that are looked at.
    pub words: u32,
    /// The most levels of pointers.
    pub nesting: u32,
}

impl<'a> Sight<'a> {
    /// Returns the limit of levels as readers take it.
    fn levels(self) -> i32 {
        i32::try_from(self.nesting).unwrap_or(i32::MAX)
    }

    /// Returns the struct at the root of an arena.
    fn root_of<A: ReaderArena>(
        self,
        arena: &'a A,
    ) -> Result<dynamic_struct::Reader<'a, A>, Unread> {
        let Ok(pointer) = PointerReader::get_root_from_arena(arena) else {
            return Err(Unread);
        };
        let mut unlimited = ReadLimiter::new(None);
        match pointer.get_struct(&mut unlimited, None) {
            Ok(value) => Ok(dynamic_struct::Reader::new(value, self.root)),
            Err(_) => Err(Unread),
        }
    }
}

/// Returns whether the message of these segments keeps an expression. `Unread`: a value that the
/// answer needs can't be read.
pub fn keeps<S: ReaderSegments>(
    conditions: &Conditions,
    sight: Sight<'_>,
    segments: &S,
) -> Result<bool, Unread> {
    let arena = ReaderArenaImpl::new(segments, sight.levels());
    let root = sight.root_of(&arena)?;
    conditions.hold_at(root, sight.words)
}

/// Returns the cells of the message of these segments.
pub fn cells<S: ReaderSegments>(
    alloc: Global,
    columns: &[Column],
    sight: Sight<'_>,
    segments: &S,
) -> Result<Vec<Vec<u8>>, RowFault> {
    let arena = ReaderArenaImpl::new(segments, sight.levels());
    let root = sight.root_of(&arena)?;
    let mut cells = Vec::new(alloc);
    for column in columns {
        cells.push(cell(alloc, column, root)?)?;
    }
    Ok(cells)
}
