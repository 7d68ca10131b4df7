//! Words of a message that belong to objects and pads.

use crate::outcomes::Stop;
use capnp_wire_objects::arena::ReaderArena;
use capnp_wire_objects::place::{Place, word_at};
use std::alloc::Global;

/// The words of each segment that belong to an object or a pad.
#[derive(Drop)]
pub struct Marks {
    segments: Vec<Vec<bool>>,
}

impl Marks {
    /// Marks no word of an arena's segments.
    pub fn none<A: ReaderArena>(alloc: Global, arena: &A) -> Result<Marks, Stop> {
        let mut segments = Vec::new(alloc);
        for id in 0..u32::MAX {
            let Some(bytes) = arena.get_segment(id) else {
                break;
            };
            let mut words = Vec::new(alloc);
            words.resize(bytes.len() / 8, false)?;
            segments.push(words)?;
        }
        Ok(Marks { segments })
    }

    /// Marks n words from a place on. Returns whether all exist and none was marked.
    pub fn mark(&mut self, start: Place, count: usize) -> bool {
        let index = start.segment as usize;
        if index >= self.segments.len() {
            return count == 0;
        }
        let words = &mut self.segments[index];
        for i in 0..count {
            let position = start.position.saturating_add(i);
            if position >= words.len() {
                return false;
            }
            if words[position] {
                return false;
            }
            words[position] = true;
        }
        true
    }

    /// Returns whether each word that isn't marked is zero.
    pub fn others_are_zero<A: ReaderArena>(&self, arena: &A) -> bool {
        let mut segment = 0u32;
        for words in &self.segments {
            let mut position: usize = 0;
            for marked in words {
                if !*marked && word_at(arena, Place { segment, position }).unwrap_or(1) != 0 {
                    return false;
                }
                position = position.saturating_add(1);
            }
            segment = segment.saturating_add(1);
        }
        true
    }
}
