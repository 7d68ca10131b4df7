//! Scripts of calls at messages that are built.
use crate::answers::{hex_of, is_wanted};
use crate::fault::Fault;
use crate::messages::{end_heap, first_of, is_tree_of, put_copy, put_words, root_place};
use crate::room::Room;
use crate::values::Segments;
use crate::verbs::{Call, answer, call_of};
use capnp_copy_arenas::allocator::Allocator;
use capnp_copy_arenas::arena::{BuilderArena, Memory};
use capnp_copy_arenas::segments::BuilderArenaImpl;
use capnp_message::growth::AllocationStrategy;
use capnp_message::heap::HeapAllocator;
use capnp_schema_structs::init::Part;
use capnp_values_queries::structs::StructSchema;
use capnp_wire_objects::arena::ReaderArenaImpl;
use std::alloc::Global;

/// Returns the words of a line.
pub fn words_of<'a>(alloc: Global, line: &'a str) -> Result<Vec<&'a str>, Fault> {
    let mut words = Vec::new(alloc);
    for word in line.split_whitespace() {
        words.push(word)?;
    }
    Ok(words)
}

/// Calls with their answers, and the state of the message at the end.
#[derive(Clone, Copy)]
pub struct Script<'a> {
    pub schema: StructSchema<'a>,
    /// The words of the message, from its root pointer on; no words if the root is null.
    pub content: &'a [u8],
    pub calls: &'a [&'a str],
    pub end: &'a str,
}

/// Returns whether a call at the root gives the answer in a line.
fn is_answered<A: BuilderArena>(
    alloc: Global,
    memory: &mut Memory<A>,
    schema: StructSchema<'_>,
    call: Call<'_>,
    wanted: &str,
) -> Result<bool, Fault> {
    let place = root_place(memory, schema)?;
    let answer = answer(alloc, memory, Part { place, schema }, call);
    is_wanted(alloc, answer, wanted)
}

/// Returns whether all calls give the answers in their lines.
fn are_answered<A: BuilderArena>(
    alloc: Global,
    memory: &mut Memory<A>,
    script: Script<'_>,
) -> Result<bool, Fault> {
    let (pairs, rest) = script.calls.as_chunks::<2>();
    let mut all = rest.is_empty();
    for [line, wanted] in pairs {
        let words = words_of(alloc, line)?;
        if !is_answered(alloc, memory, script.schema, call_of(&words)?, wanted)? {
            all = false;
        }
    }
    Ok(all)
}

/// Returns whether a message that is built ends as the last line says: `. FRAME` with that tree, or
/// `: WORDS` with those words.
fn ends_so<L: Allocator>(
    alloc: Global,
    arena: &BuilderArenaImpl<L>,
    end: &str,
) -> Result<bool, Fault> {
    if let Some(frame) = end.strip_prefix(". ") {
        return is_tree_of(alloc, arena, hex_of(alloc, frame)?.as_slice());
    }
    let words = end.strip_prefix(": ").ok_or(Fault::Shape)?;
    let is = first_of(alloc, arena)?;
    Ok(is.as_slice() == hex_of(alloc, words)?.as_slice())
}

/// Copies the message, if there is one, and makes the calls.
fn copied<A: BuilderArena>(
    alloc: Global,
    memory: &mut Memory<A>,
    script: Script<'_>,
) -> Result<bool, Fault> {
    if script.content.is_empty() {
        put_words(memory, &[0; 8])?;
    } else {
        let segments = [script.content];
        let source: Segments<'_> = ReaderArenaImpl::new(segments.as_slice(), 64);
        put_copy(memory, &source)?;
    }
    are_answered(alloc, memory, script)
}

/// Puts the message's words as they are, and makes the calls.
fn placed<A: BuilderArena>(
    alloc: Global,
    memory: &mut Memory<A>,
    script: Script<'_>,
) -> Result<bool, Fault> {
    put_words(memory, script.content)?;
    are_answered(alloc, memory, script)
}

/// Returns whether everything is as a script says in a message over segments of at least n words.
pub fn is_right_on_heap(alloc: Global, words: u32, script: Script<'_>) -> Result<bool, Fault> {
    let allocator = HeapAllocator::new(alloc)
        .first_segment_words(words)
        .allocation_strategy(AllocationStrategy::FixedSize);
    let mut memory = Memory {
        arena: BuilderArenaImpl::new(alloc, allocator),
    };
    let answered = copied(alloc, &mut memory, script);
    let Memory { arena } = memory;
    let ends = ends_so(alloc, &arena, script.end);
    end_heap(arena);
    Ok(answered? && ends?)
}

/// Ends an arena, and releases its room.
fn end_room(arena: BuilderArenaImpl<Room>) {
    drop(arena.into_allocator());
}

/// Returns whether everything is as a script says in a message whose one segment has room for n
/// words.
pub fn is_right_in_room(alloc: Global, words: u32, script: Script<'_>) -> Result<bool, Fault> {
    let mut memory = Memory {
        arena: BuilderArenaImpl::new(alloc, Room::new(alloc, words)),
    };
    let answered = placed(alloc, &mut memory, script);
    let Memory { arena } = memory;
    let ends = ends_so(alloc, &arena, script.end);
    end_room(arena);
    Ok(answered? && ends?)
}
