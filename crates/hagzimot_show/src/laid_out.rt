//! Messages in a layout.
ghost use Rattle.std.specs.Prelude.{IfOk, IfErr};
ghost use Rattle.capnp_units.specs.Segments.{words_in};
ghost use Rattle.hagzimot_commands.specs.Answers.{canonical_limits};
ghost use Rattle.hagzimot_show.specs.Shown.{HasValueWithin, IsRecordFault, IsLayoutFault};

use crate::layout::{Layout, Spelling, Style};
use crate::walk::{MOST_LEVELS, put_value};
use capnp_message::options::ReaderOptions;
use capnp_relay_requests::request::FloatField;
use capnp_relay_show::show::ShowFault;
use capnp_units::errors::Error;
use capnp_units::kinds::ErrorKind;
use capnp_units::limiter::ReadLimiter;
use capnp_units::segments::ReaderSegments;
use capnp_units::sizes::words_as_bytes;
use capnp_values::dynamic_struct;
use capnp_values::dynamic_value::Reader;
use capnp_values_queries::structs::StructSchema;
use capnp_wire::pointer::PointerReader;
use capnp_wire_objects::arena::{ReaderArena, ReaderArenaImpl};
use hagzimot_commands::canonical::{Canonical, write_value};
use hagzimot_faults::locate::WalkLimits;
use std::alloc::Global;

/// The form in which messages are shown.
#[derive(Clone, Copy)]
pub struct Manner<'a> {
    /// The struct at the root of messages.
    pub root: StructSchema<'a>,
    /// The limits of messages.
    pub limits: Canonical,
    pub layout: Layout,
    /// The spelling of single values in text; JSON has its own spelling.
    pub spelling: Spelling,
    /// The fields that are floats: the whole numbers there are the bits of floats.
    pub floats: &'a [FloatField],
}

impl Manner<'_> {
    /// Returns the limits as readers take them.
    pub(crate) fn options(&self) -> ReaderOptions {
        ReaderOptions {
            traversal_limit_in_words: Some(self.limits.words as usize),
            nesting_limit: self.nesting_limit(),
        }
    }

    /// Returns whether messages are shown as `print` writes their records.
    pub(crate) fn is_printed(&self) -> bool {
        self.layout == Layout::Line && self.spelling == Spelling::Hagzimot && self.floats.is_empty()
    }

    /// Returns the limits as a walk takes them.
    pub(crate) fn walk_limits(&self) -> WalkLimits {
        WalkLimits {
            words: self.limits.words,
            nesting: self.limits.nesting,
        }
    }

    /// Returns the limit of levels. A limit of more than 2^31 - 1 means 2^31 - 1.
    fn nesting_limit(&self) -> i32 {
        i32::try_from(self.limits.nesting).unwrap_or(i32::MAX)
    }
}

/// Returns the reason for which nothing is shown.
fn fault_of(e: Error) -> ShowFault
    ensures { IsRecordFault result }
{
    match e.kind {
        ErrorKind::OutOfMemory => ShowFault::Memory,
        _ => ShowFault::Unreadable,
    }
}

/// Returns the text of the record of an arena's root, which has a value.
fn text_of<'a, A: ReaderArena>(
    alloc: Global,
    arena: &'a A,
    manner: Manner<'a>,
) -> Result<String, ShowFault>
    ensures { IfErr result IsRecordFault }
{
    let Ok(pointer) = PointerReader::get_root_from_arena(arena) else {
        return Err(ShowFault::Unreadable);
    };
    let mut unlimited = ReadLimiter::new(None);
    let Ok(value) = pointer.get_struct(&mut unlimited, None) else {
        return Err(ShowFault::Root);
    };
    let value = Reader::Struct(dynamic_struct::Reader::new(value, manner.root));
    let style = Style {
        alloc,
        layout: manner.layout,
        spelling: manner.spelling,
        floats: manner.floats,
    };
    let mut text = String::new(alloc);
    let mut nulls = Vec::new(alloc);
    match put_value(&mut text, &mut nulls, style, value, false, MOST_LEVELS) {
        Ok(()) => Ok(text),
        Err(e) => Err(fault_of(e)),
    }
}

/// Returns the message of these segments in a layout: the record that its root has under a schema,
/// with the fields that `show` prints, in the same order.
///
/// As text, a float is a decimal number, `inf`, `-inf`, `nan`, or `nan:` with the hexadecimal
/// digits of its bits, and everything else is written as `show` writes it. In JSON, a struct is an
/// object, 64-bit numbers are texts, enum values names, data arrays of numbers, and Void null.
/// Floats are numbers there, or one of the texts `Infinity`, `-Infinity` and `NaN`.
///
/// - `Value`: the message has no value within the limits, or one with a capability.
/// - `Root`: the root is a list.
/// - `Unreadable`: a field or an element can't be read as its type, or more than 2,048 structs,
///   groups and lists are nested.
/// - `Memory`: an allocation was refused.
pub fn laid_out<S: ReaderSegments>(
    alloc: Global,
    segments: &S,
    manner: Manner<'_>,
) -> Result<String, ShowFault>
    ensures text { IfOk result (λ text. HasValueWithin (canonical_limits manner.entry.limits)
        (words_in (S.segments segments.now))) }
    ensures fault { IfErr result (IsLayoutFault (canonical_limits manner.entry.limits)
        (words_in (S.segments segments.now))) }
{
    let message = ReaderArenaImpl::new(segments, i32::MAX);
    let mut words = Vec::new(alloc);
    let count = match write_value(&message, manner.limits, &mut words) {
        Ok(Some(count)) => count,
        Ok(None) => return Err(ShowFault::Value),
        Err(_) => return Err(ShowFault::Memory),
    };
    let segments = [words_as_bytes(&words[..count])];
    let arena = ReaderArenaImpl::new(segments.as_slice(), manner.nesting_limit());
    text_of(alloc, &arena, manner)
}
