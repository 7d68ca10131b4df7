//! The contents of a framed message, as text.
ghost use Rattle.std.specs.Prelude.{◌≡◌, ◌≢◌, Ok, IfOk, IfErr};
ghost use Rattle.capnp_model.specs.Answers.{levels};
ghost use Rattle.capnp_units.specs.Segments.{words_in};
ghost use Rattle.capnp_units.specs.declared.kinds.ErrorKind.{ErrorKind};
ghost use Rattle.capnp_relay_show.specs.declared.show.ShowFault.{ShowFault};
ghost use Rattle.capnp_relay_show.specs.Answers.{shown_by, IsShowFault};
ghost use Rattle.capnp_relay_show.specs.Printed.{IsRootText, IsNoText};

use crate::copied::{CanonicalMessage, copied};
use crate::framed::first_message;
use capnp_message::message::ReaderOptions;
use capnp_model::laws::{trimmed_values, values_that_are_read, words_mean_their_value};
use capnp_units::errors::Error;
use capnp_units::kinds::ErrorKind;
use capnp_units::limiter::ReadLimiter;
use capnp_values::laws::{pointers_are_read, records_are_read};
use capnp_values::{dynamic_struct, dynamic_value};
use capnp_values_print::laws::texts_are_models;
use capnp_values_print::stringify::print;
use capnp_values_queries::structs::StructSchema;
use capnp_wire::levels::levels_of;
use capnp_wire::pointer::PointerReader;
use capnp_wire_objects::arena::{ReaderArena, ReaderArenaImpl};
use std::alloc::Global;

/// The reason for which a message isn't shown.
#[derive(Clone, Copy, Debug, PartialEq, Eq, thiserror::Error)]
pub enum ShowFault {
    /// The bytes don't begin with a framed message within the limit of words; the kind is that of
    /// `read_message`.
    #[error("framing {0}")]
    Framing(ErrorKind),
    /// The message has no root word, no value within the limits, or a capability in it; or the
    /// nesting limit is negative.
    #[error("value")]
    Value,
    /// The root is a list.
    #[error("root")]
    Root,
    /// A field or an element can't be read as its type, or more than 64 nested defaults would be
    /// entered.
    #[error("unreadable")]
    Unreadable,
    /// An allocation was refused, or more than 1,024 nested structs, groups and lists would be
    /// printed.
    #[error("memory")]
    Memory,
    /// The canonical copy would have more than the 2^29 - 1 words of a message.
    #[error("size")]
    Size,
}

/// Returns the fault for which no text was printed.
fn fault_of(e: Error) -> ShowFault
    ensures memory { e.kind ≡ ErrorKind.OutOfMemory → result ≡ ShowFault.Memory }
    ensures other { e.kind ≢ ErrorKind.OutOfMemory → result ≡ ShowFault.Unreadable }
{
    match e.kind {
        ErrorKind::OutOfMemory => ShowFault::Memory,
        _ => ShowFault::Unreadable,
    }
}

/// Returns the levels that a value may have in an arena, if it may have any.
fn levels_in<A: ReaderArena>(arena: &A) -> Option<u32>
    ensures { result ≡ levels (A.nesting arena.now) }
{
    levels_of(arena.nesting_limit())
}

/// Makes the arena of a copy, with as many levels as another.
fn arena_like<A: ReaderArena>(
    arena: &A,
    copy: CanonicalMessage,
) -> ReaderArenaImpl<CanonicalMessage>
    ensures segments { result.segments ≡ copy }
    ensures nesting { result.nesting_limit ≡ A.nesting arena.now }
{
    ReaderArenaImpl::new(copy, arena.nesting_limit())
}

/// Returns the text of the record of a message's root.
fn text_of<'a, A: ReaderArena>(
    alloc: Global,
    arena: &'a A,
    root: StructSchema<'a>,
) -> Result<Vec<u8>, ShowFault>
    ensures text { IfOk result (λ v.
        IsRootText root.entry (A.nesting arena.now) (words_in (A.segments arena.now)) v.items) }
    ensures fault { IfErr result
        (IsNoText root.entry (A.nesting arena.now) (words_in (A.segments arena.now))) }
{
    pointers_are_read();
    records_are_read();
    texts_are_models();
    let Ok(pointer) = PointerReader::get_root_from_arena(arena) else {
        return Err(ShowFault::Value);
    };
    let mut unlimited = ReadLimiter::new(None);
    let Ok(value) = pointer.get_struct(&mut unlimited, None) else {
        return Err(ShowFault::Root);
    };
    let value = dynamic_value::Reader::Struct(dynamic_struct::Reader::new(value, root));
    let mut text = Vec::new(alloc);
    match print(value, false, &mut text) {
        Ok(()) => Ok(text),
        Err(e) => Err(fault_of(e)),
    }
}

/// Returns the text of the framed message at the front of bytes, on one line, as `print` writes it.
/// The text is of the root's record under the schema; a null root has the record of the empty
/// struct. Bytes after the message aren't looked at.
///
/// The message is read under the options, and its value copied canonically, so trailing zeros and
/// nulls have no effect. Without a limit of words, sizes and costs are unlimited. The copy takes at
/// most one word more than the value costs.
///
/// Faults are reported in the order of `ShowFault`, except `Memory` and `Size`, which come when
/// they are met. These two only come if the message has a value, and `Size` only if its canonical
/// words are 2^29 or more.
pub fn show(
    alloc: Global,
    bytes: &[u8],
    root: StructSchema<'_>,
    options: ReaderOptions,
) -> Result<Vec<u8>, ShowFault>
    ensures text { IfOk result (λ text. shown_by root.entry options bytes.now ≡ Ok text.items) }
    ensures fault { IfErr result (IsShowFault root.entry options bytes.now) }
{
    trimmed_values();
    values_that_are_read();
    words_mean_their_value();
    let message = match first_message(bytes, options) {
        Ok(message) => message,
        Err(e) => return Err(ShowFault::Framing(e.kind)),
    };
    let Some(levels) = levels_in(&message) else {
        return Err(ShowFault::Value);
    };
    let copy = copied(alloc, &message, levels, options)?;
    let arena = arena_like(&message, copy);
    text_of(alloc, &arena, root)
}
