//! Calls of dynamic readers, by their verbs.
use crate::answers::{Answer, told, truth};
use crate::fault::Stop;
use crate::steps::{Step, step_of};
use crate::values::Segments;
use crate::verbs::Call;
use capnp_text::text;
use capnp_units::sizes::MessageSize;
use capnp_values::dynamic_value::Reader;
use capnp_values::{any_pointer, dynamic_list, dynamic_struct};
use capnp_values_print::stringify::{Printed, print, print_field};
use capnp_values_queries::fields::Field;
use capnp_wire_objects::arena::ReaderArena;
use std::alloc::Global;
use std::fmt;

/// Returns the value that a step leads to.
fn step_on<'a, A: ReaderArena>(value: Reader<'a, A>, word: &str) -> Result<Reader<'a, A>, Stop> {
    match (value, step_of(word)?) {
        (Reader::Struct(object), Step::Name(name)) => {
            let schema = object.get_schema();
            Ok(object.get(schema.get_field_by_name(name)?)?)
        }
        (Reader::List(list), Step::Index(index)) => {
            if index >= list.len() {
                return Err(Stop::NoCall);
            }
            Ok(list.get(index)?)
        }
        _ => Err(Stop::NoCall),
    }
}

/// Returns the value that a path leads to.
pub fn follow<'a, A: ReaderArena>(
    value: Reader<'a, A>,
    path: &[&str],
) -> Result<Reader<'a, A>, Stop> {
    let mut here = value;
    for word in path {
        here = step_on(here, word)?;
    }
    Ok(here)
}

/// Returns the text of a value.
fn printed<A: ReaderArena>(
    alloc: Global,
    value: Reader<'_, A>,
    alternate: bool,
) -> Result<Answer, Stop> {
    let mut text = Vec::new(alloc);
    print(value, alternate, &mut text)?;
    Ok(Answer::Text(text))
}

/// A value that is printed, in segments that live as long as the value.
#[derive(Clone, Copy)]
struct Shown<'a> {
    printed: Printed<'a, Segments<'a>>,
}

impl fmt::Display for Shown<'_> {
    fn fmt<W: fmt::Write>(&self, f: &mut fmt::Formatter<W>) -> fmt::Result {
        fmt::Display::fmt(&self.printed, f)
    }
}

impl fmt::Debug for Shown<'_> {
    fn fmt<W: fmt::Write>(&self, f: &mut fmt::Formatter<W>) -> fmt::Result {
        fmt::Debug::fmt(&self.printed, f)
    }
}

/// Returns the text of a value by `{}`, `{:?}`, `{:#}` and `{:#?}`, separated by blanks.
pub fn formatted<'a>(alloc: Global, value: Reader<'a, Segments<'a>>) -> Result<Answer, Stop> {
    let shown = Shown {
        printed: Printed::new(alloc, value),
    };
    let text = format!(in alloc; "{shown} {shown:?} {shown:#} {shown:#?}")?;
    told(alloc, text.as_str())
}

/// Returns the name of a field, or that there is none.
pub fn name_of(alloc: Global, field: Option<Field<'_>>) -> Result<Answer, Stop> {
    match field {
        Some(field) => told(alloc, field.get_proto().name.as_str()),
        None => told(alloc, "none"),
    }
}

/// Returns words and capabilities.
fn size_of(alloc: Global, size: MessageSize) -> Result<Answer, Stop> {
    let text = format!(in alloc; "{} {}", size.word_count, size.cap_count)?;
    told(alloc, text.as_str())
}

/// Answers a call about a struct as a whole.
fn of_struct<A: ReaderArena>(
    alloc: Global,
    object: dynamic_struct::Reader<'_, A>,
    call: Call<'_>,
) -> Result<Answer, Stop> {
    match call.verb {
        "which" => name_of(alloc, object.which()?),
        "size" => size_of(alloc, object.total_size()?),
        _ => Err(Stop::NoCall),
    }
}

/// Answers a call about a list as a whole.
fn of_list<A: ReaderArena>(
    alloc: Global,
    list: dynamic_list::Reader<'_, A>,
    call: Call<'_>,
) -> Result<Answer, Stop> {
    match call.verb {
        "len" => told(alloc, format!(in alloc; "{}", list.len())?.as_str()),
        "empty" => truth(alloc, list.is_empty()),
        _ => Err(Stop::NoCall),
    }
}

/// Answers a call about the value of an untyped pointer.
fn of_pointer<A: ReaderArena>(
    alloc: Global,
    pointer: any_pointer::Reader<'_, A>,
    call: Call<'_>,
) -> Result<Answer, Stop> {
    match call.verb {
        "null" => truth(alloc, pointer.is_null()),
        "size" => size_of(alloc, pointer.target_size()?),
        "text" => printed(
            alloc,
            Reader::<A>::Text(pointer.get_as::<text::Reader<'_>>()?),
            false,
        ),
        "data" => printed(alloc, Reader::<A>::Data(pointer.get_as::<&[u8]>()?), false),
        "untyped" => {
            let same = pointer.get_as::<any_pointer::Reader<'_, A>>()?;
            truth(alloc, same.is_null())
        }
        _ => Err(Stop::NoCall),
    }
}

/// Answers a call at the named field.
fn at_field<A: ReaderArena>(
    alloc: Global,
    object: dynamic_struct::Reader<'_, A>,
    name: &str,
    call: Call<'_>,
) -> Result<Answer, Stop> {
    let schema = object.get_schema();
    match call.verb {
        "get_named" => printed(alloc, object.get_named(name)?, false),
        "has" => truth(alloc, object.has(schema.get_field_by_name(name)?)?),
        "has_named" => truth(alloc, object.has_named(name)?),
        "field" | "field_in_lines" => {
            let mut text = Vec::new(alloc);
            let field = schema.get_field_by_name(name)?;
            print_field(object, field, call.verb == "field_in_lines", &mut text)?;
            Ok(Answer::Text(text))
        }
        _ => Err(Stop::NoCall),
    }
}

/// Answers a call at the last step of its path.
fn at_end<A: ReaderArena>(
    alloc: Global,
    root: Reader<'_, A>,
    call: Call<'_>,
) -> Result<Answer, Stop> {
    let [front @ .., last] = call.path else {
        return Err(Stop::NoCall);
    };
    match (follow(root, front)?, step_of(last)?) {
        (Reader::Struct(object), Step::Name(name)) => at_field(alloc, object, name, call),
        _ => Err(Stop::NoCall),
    }
}

/// Answers a call at a value that is read.
pub fn answer<A: ReaderArena>(
    alloc: Global,
    root: Reader<'_, A>,
    call: Call<'_>,
) -> Result<Answer, Stop> {
    match call.verb {
        "get" => printed(alloc, follow(root, call.path)?, false),
        "print" => printed(alloc, follow(root, call.path)?, true),
        "get_named" | "has" | "has_named" | "field" | "field_in_lines" => {
            at_end(alloc, root, call)
        }
        _ => match follow(root, call.path)? {
            Reader::Struct(object) => of_struct(alloc, object, call),
            Reader::List(list) => of_list(alloc, list, call),
            Reader::AnyPointer(pointer) => of_pointer(alloc, pointer, call),
            _ => Err(Stop::NoCall),
        },
    }
}
