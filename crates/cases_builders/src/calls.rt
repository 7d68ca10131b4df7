//! The call that a line makes at a pointer.
ghost use Rattle.std.specs.Prelude.{◌≡◌};

use crate::blobs::{clear_text, push_text, write};
use crate::copies::{copy, is_copy};
use crate::edits::{set_in_data, set_in_list, set_in_struct};
use crate::gets::{get, total_size};
use crate::layouts::reach;
use crate::line::Line;
use crate::makes::{clear, init_data, init_object, init_text, set_bytes};
use crate::outcomes::{Answer, Stop};
use crate::settings::Settings;
use crate::ways::{place_at, steps};
use capnp_copy_arenas::arena::{BuilderArena, Memory};
use capnp_wire_objects::arena::ReaderArena;
use std::alloc::Global;

/// Makes the call of a line on a message beside another.
pub fn call<A: BuilderArena, B: ReaderArena>(
    alloc: Global,
    memory: &mut Memory<A>,
    other: &B,
    settings: &mut Settings,
    line: &mut Line<'_>,
) -> Answer
    ensures { A.books memory.new.arena ≡ A.books memory.old.arena }
{
    let way = steps(alloc, line)?;
    let verb = line.number()?;
    if is_copy(verb) {
        return copy(alloc, memory, other, &way, verb, settings, line);
    }
    let place = place_at(memory, &way)?;
    match verb {
        0..=2 => init_object(memory, place, verb, line),
        3 => init_text(memory, place, line.short()?),
        4 => init_data(memory, place, line.short()?),
        5 | 6 => set_bytes(memory, place, verb == 5, &line.bytes(alloc)?),
        7 => clear(memory, place),
        8..=12 => get(memory, place, verb, settings, line),
        13 | 15 => set_in_struct(memory, place, verb == 15, line),
        14 => set_in_list(memory, place, line),
        16 => {
            let index = line.index()?;
            let byte = line.number()?;
            set_in_data(memory, place, index, (byte % 0x100) as u8)
        }
        22 => total_size(memory, place),
        25 => Ok(Some(reach(&memory.arena, place)?)),
        28 | 29 => write(alloc, memory, place, verb == 29, settings, line),
        30 => push_text(alloc, memory, place, line),
        31 => clear_text(memory, place),
        _ => Err(Stop::Shape),
    }
}
