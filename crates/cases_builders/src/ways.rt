//! Paths from the root to a pointer, step by step.
ghost use Rattle.std.specs.Prelude.{◌≡◌, ◌≢◌, ◌<◌, IfOk};
ghost use Rattle.capnp_units.specs.Sizes.{size_number};
ghost use Rattle.capnp_wire.specs.Views.{seen_list};

use crate::handles::{
    NOT_THERE, list_got, pointer_in, pointer_of, struct_got, struct_of, structs_got,
};
use crate::line::Line;
use crate::outcomes::Stop;
use capnp_copy_arenas::arena::{BuilderArena, Memory};
use capnp_units::limiter::ReadLimiter;
use capnp_units::sizes::{ElementSize, StructSize};
use capnp_wire::list::ListReader;
use capnp_wire::pointer::PointerReader;
use capnp_wire::structs::StructReader;
use capnp_wire_objects::arena::ReaderArena;
use capnp_wire_objects::place::{Place, ROOT, has_words};
use std::alloc::Global;

/// The kind of object that a step goes through.
#[derive(Clone, Copy)]
enum Through {
    Struct,
    Pointers,
    Structs,
}

fn kind_of_step(line: &mut Line<'_>) -> Result<Through, Stop> {
    match line.number()? {
        0 => Ok(Through::Struct),
        1 => Ok(Through::Pointers),
        2 => Ok(Through::Structs),
        _ => Err(Stop::Shape),
    }
}

/// A step of builders: the requested sections, the element, and the pointer.
#[derive(Clone, Copy)]
pub struct Step {
    through: Through,
    size: StructSize,
    element: u32,
    pointer: usize,
}

fn next_step(line: &mut Line<'_>) -> Result<Step, Stop> {
    let through = kind_of_step(line)?;
    let size = line.struct_size()?;
    let element = line.short()?;
    let pointer = line.index()?;
    Ok(Step {
        through,
        size,
        element,
        pointer,
    })
}

/// Returns the place of the pointer that a step leads to.
fn place_behind<A: BuilderArena>(
    memory: &mut Memory<A>,
    place: Place,
    step: Step,
) -> Result<Place, Stop>
    ensures { A.books memory.new.arena ≡ A.books memory.old.arena }
{
    match step.through {
        Through::Struct => {
            let object = struct_got(memory, place, step.size, None)?;
            pointer_in(memory, object, step.pointer)
        }
        Through::Pointers => {
            let list = list_got(memory, place, ElementSize::Pointer, None)?;
            if list.size != ElementSize::InlineComposite {
                return pointer_of(memory, list, step.element);
            }
            let object = struct_of(memory, list, step.element)?;
            pointer_in(memory, object, 0)
        }
        Through::Structs => {
            let list = structs_got(memory, place, step.size, None)?;
            let object = struct_of(memory, list, step.element)?;
            pointer_in(memory, object, step.pointer)
        }
    }
}

/// Parses the steps of a path of builders.
pub fn steps(alloc: Global, line: &mut Line<'_>) -> Result<Vec<Step>, Stop> {
    let mut steps = Vec::new(alloc);
    for _ in 0..line.index()? {
        steps.push(next_step(line)?)?;
    }
    Ok(steps)
}

/// Returns the place of the pointer that a path of builders leads to, which makes and widens the
/// objects that it goes through.
pub fn place_at<A: BuilderArena>(memory: &mut Memory<A>, way: &[Step]) -> Result<Place, Stop>
    ensures { A.books memory.new.arena ≡ A.books memory.old.arena }
{
    let mut place = ROOT;
    for step in way {
        place = place_behind(memory, place, *step)?;
    }
    Ok(place)
}

/// Returns a null pointer.
fn null<'a, B: ReaderArena>(arena: &'a B) -> Result<PointerReader<'a, B>, Stop> {
    if !has_words(arena, ROOT, 0) {
        return Err(NOT_THERE);
    }
    Ok(StructReader::at(arena, ROOT, 0, 0).get_pointer_field(0))
}

/// Returns the list as a list of structs, if it can be read so.
pub fn structs_of<'a, B: ReaderArena>(
    pointer: PointerReader<'a, B>,
    limiter: &mut ReadLimiter,
) -> Result<ListReader<'a, B>, Stop>
    ensures { IfOk result (λ list. size_number (seen_list B.segments list).size ≢ 1) }
{
    match pointer.get_list(limiter, ElementSize::InlineComposite, None) {
        Ok(list) => Ok(list),
        Err(error) => Err(Stop::Refused(error.kind)),
    }
}

/// Returns the pointer that a step of readers leads to; `None` if there is no such element.
fn pointer_behind<'a, B: ReaderArena>(
    pointer: PointerReader<'a, B>,
    limiter: &mut ReadLimiter,
    through: Through,
    element: u32,
    field: usize,
) -> Result<Option<PointerReader<'a, B>>, Stop> {
    match through {
        Through::Struct => {
            let object = pointer.get_struct(limiter, None)?;
            Ok(Some(object.get_pointer_field(field)))
        }
        Through::Pointers => {
            let list = pointer.get_list(limiter, ElementSize::Pointer, None)?;
            if element >= list.len() {
                return Ok(None);
            }
            Ok(Some(list.get_pointer_element(element)))
        }
        Through::Structs => {
            let list = structs_of(pointer, limiter)?;
            if element >= list.len() {
                return Ok(None);
            }
            let object = list.get_struct_element(element);
            Ok(Some(object.get_pointer_field(field)))
        }
    }
}

/// Returns the pointer that a path of readers leads to; null if there is no such element.
pub fn pointer_at<'a, B: ReaderArena>(
    arena: &'a B,
    limiter: &mut ReadLimiter,
    line: &mut Line<'_>,
) -> Result<PointerReader<'a, B>, Stop> {
    let mut pointer = PointerReader::get_root_from_arena(arena)?;
    let steps = line.index()?;
    for _ in 0..steps {
        let through = kind_of_step(line)?;
        let element = line.short()?;
        let field = line.index()?;
        pointer = match pointer_behind(pointer, limiter, through, element, field)? {
            Some(next) => next,
            None => null(arena)?,
        };
    }
    Ok(pointer)
}
