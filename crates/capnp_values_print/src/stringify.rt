//! Printed text of dynamic values.
ghost use Rattle.std.specs.Prelude.{◌≡◌, Some, OnErr};
ghost use Rattle.capnp_values_queries.specs.Fields.{Entry};
ghost use Rattle.capnp_values_queries.specs.Handles.{entry_of_field};
ghost use Rattle.capnp_values.specs.Shown.{shown};
ghost use Rattle.capnp_values.specs.Sources.{struct_seen};
ghost use Rattle.capnp_values_print.specs.Texts.{style_of};
ghost use Rattle.capnp_model.specs.Printing.{on_one_line};
ghost use Rattle.capnp_values_print.specs.Answers.{style_named, model_text, Appends, Joins, Prints};
ghost use Rattle.capnp_values_print.specs.Parts.{member_text};

use crate::members::is_active;
use crate::single::Indent;
use crate::values::{push_member, push_value};
use capnp_units::errors::{Error, Result};
use capnp_units::kinds::ErrorKind;
use capnp_values::{dynamic_struct, dynamic_value};
use capnp_values_queries::fields::Field;
use capnp_wire_objects::arena::ReaderArena;
use std::alloc::Global;
use std::fmt;

/// The most defaults of null pointers that may be entered on one path down a value: a default that
/// holds its own null pointer would otherwise print without end.
const DEFAULTS: u32 = 64;

/// Returns the form of a whole value.
fn form(alternate: bool) -> Indent
    ensures { style_of result ≡ style_named alternate }
{
    if alternate {
        Indent::At(0)
    } else {
        Indent::OnOneLine(0)
    }
}

/// Appends a text to earlier bytes. If there are no earlier bytes, the text is moved and not
/// copied.
fn append(out: &mut Vec<u8>, text: Vec<u8>) -> Result<()>
    ensures { Joins out.old.items text.items result out.new.items }
{
    if out.is_empty() {
        *out = text;
        return Ok(());
    }
    let mut behind = text;
    out.append(&mut behind)?;
    Ok(())
}

/// Appends the text of a value: on one line, or in the alternate form, which gives each item a
/// line, with two blanks for each level.
///
/// - A number is in decimal, Void is `()`.
/// - An enum is the enumerant's name, or its value if there is no such enumerant.
/// - Data are their bytes in hexadecimal digits between `0x"` and `"`.
/// - A text is between quotes with `"`, `\` and ASCII control characters escaped. If its bytes
///   aren't UTF-8, it is `<invalid utf-8: [104, 255]>`. Characters beyond ASCII are unchanged.
/// - A list is `[a, b]`.
/// - A struct is `(name = value, ..)` with the fields for which `has` returns true, in the order of
///   their indices, and with the active union member. The active member is only left out if it is
///   the first member and null; another null member prints as its default, otherwise as the empty
///   value.
/// - An untyped pointer is `<opaque pointer>`, a capability `<external capability>`.
///
/// It is refused, and nothing is appended,
/// - with the kind of the first fault on the way, like `get` of fields and elements;
/// - with `NestingLimitExceeded` also if more than 64 nested defaults would be entered;
/// - with `OutOfMemory` if an allocation is refused;
/// - with `OutOfMemory` if more than 1,024 nested structs, groups and lists would be printed,
///   without counting an empty list or a struct without fields. Each of these takes stack, and
///   1,024 fit into 1 MiB.
pub fn print<A: ReaderArena>(
    value: dynamic_value::Reader<'_, A>,
    alternate: bool,
    out: &mut Vec<u8>,
) -> Result<()>
    ensures { Prints (style_named alternate) (shown A.segments value.entry) out.old.items result
        out.new.items }
{
    let indent = form(alternate);
    let mut text = Vec::new(*out.allocator());
    push_value(value, indent, DEFAULTS, &mut text)?;
    append(out, text)
}

/// Appends the text of one field of a struct, as a `get` of the field shows it. A group or a value
/// is written as in `print`. A null pointer is written as its default, which is the first of the 64
/// nested defaults that may be entered, otherwise as the empty value.
///
/// A union member that isn't the active one is refused with `InactiveMember`. Otherwise it is
/// refused like `print`, also with the fault at the field's own pointer. Then nothing is appended.
pub fn print_field<A: ReaderArena>(
    reader: dynamic_struct::Reader<'_, A>,
    field: Field<'_>,
    alternate: bool,
    out: &mut Vec<u8>,
) -> Result<()>
    requires parent { field.parent ≡ reader.schema }
    ensures appends { let r = reader.entry in
        (e : Entry) → entry_of_field field.entry ≡ Some e
        → Appends (member_text 64 (style_named alternate) r.schema
        (struct_seen A.segments r.source) e) out.old.items result out.new.items }
    ensures stays { OnErr result (out.new.items ≡ out.old.items) }
{
    if !is_active(reader, field)? {
        return Err(Error::from(ErrorKind::InactiveMember));
    }
    let indent = form(alternate);
    let mut text = Vec::new(*out.allocator());
    push_member(reader, field, indent, DEFAULTS, &mut text)?;
    append(out, text)
}

/// A value that `{}` and `{:?}` print like `print`, and `{:#}` and `{:#?}` in the alternate form.
///
/// A formatter hands out no memory, so the text takes it from the allocator that is given. If
/// `print` is refused, nothing is written, and formatting is refused.
#[derive_where(Clone, Copy)]
pub struct Printed<'a, A> {
    alloc: Global,
    value: dynamic_value::Reader<'a, A>,
}

impl<'a, A: ReaderArena> Printed<'a, A> {
    ghost use Rattle.std.specs.Prelude.{◌≡◌};
    ghost use Rattle.std.specs.Fmt.{DisplaysOnOk};

    /// Makes a value to print, with the allocator from which its text takes memory.
    pub fn new(alloc: Global, value: dynamic_value::Reader<'a, A>) -> Self
        ensures { result.value ≡ value.entry }
    {
        Printed { alloc, value }
    }

    /// Writes the text of the value in the requested form.
    fn write_text<W: fmt::Write>(&self, f: &mut fmt::Formatter<W>) -> fmt::Result
        ensures { DisplaysOnOk W.write_str_gives f.old result
            (model_text on_one_line (shown A.segments self.now.value)) f.new }
    {
        let mut text = Vec::new(self.alloc);
        if print(self.value, f.alternate(), &mut text).is_err() {
            return Err(fmt::Error);
        }
        match std::str::from_utf8(&text) {
            Ok(text) => f.write_str(text),
            Err(_) => Err(fmt::Error),
        }
    }
}

impl<A: ReaderArena> fmt::Display for Printed<'_, A> {
    ghost output = { λ p. model_text on_one_line (shown A.segments p.value) };

    fn fmt<W: fmt::Write>(&self, f: &mut fmt::Formatter<W>) -> fmt::Result {
        self.write_text(f)
    }
}

impl<A: ReaderArena> fmt::Debug for Printed<'_, A> {
    ghost debug_output = { λ p. model_text on_one_line (shown A.segments p.value) };

    fn fmt<W: fmt::Write>(&self, f: &mut fmt::Formatter<W>) -> fmt::Result {
        self.write_text(f)
    }
}
