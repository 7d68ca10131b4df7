//! Single values, and the text before items.
ghost use Rattle.std.specs.Prelude.{◌≡◌, ◌+◌, ◌≤◌, ◌++◌, ◌∷◌, [], OnOk, IfOk, IfErr, codes};
ghost use Rattle.capnp_model.specs.Schemas.{plain, «enum»};
ghost use Rattle.capnp_model.specs.Printing.{number_text, inner, closing};
ghost use Rattle.capnp_model.specs.Accepted.{schema_of};
ghost use Rattle.capnp_values_queries.specs.Enums.{nodes_of_enum, enum_id};
ghost use Rattle.capnp_values.specs.Shown.{shown};
ghost use Rattle.capnp_values_print.specs.Texts.{style_of, values_around};
ghost use Rattle.capnp_values_print.specs.Printed.{item_mark};
ghost use Rattle.capnp_values_print.specs.Singles.{single_text};

use crate::single::{
    Indent, push_between, push_bool, push_closing, push_data, push_opening, push_signed, push_text,
    push_unsigned,
};
use capnp_text::text;
use capnp_values::dynamic_value::{Enum, Reader};
use capnp_wire_objects::arena::ReaderArena;
use std::alloc::AllocError;

/// The most nested structs, groups and lists that may be printed. Each takes stack, and this number
/// fits into 1 MiB in LLVM's builds.
const VALUES: usize = 1024;

/// Appends an enumerant's name, or the value in decimal if the enum has no such enumerant.
fn push_enum(out: &mut Vec<u8>, value: Enum<'_>) -> Result<(), AllocError>
    ensures { let e = value.entry in
        OnOk result
        (out.new.items
        ≡ out.old.items ++ number_text (schema_of (nodes_of_enum e.schema))
        (plain («enum» (enum_id e.schema))) e.value) }
{
    match value.get_enumerant() {
        Ok(Some(enumerant)) => out.extend_from_slice(enumerant.get_proto().name.as_bytes()),
        Ok(None) => push_unsigned(out, u64::from(value.get_value())),
        Err(_) => unreachable!(),
    }
}

/// Appends the text of a value that holds no others; for a struct or a list it appends nothing.
pub(crate) fn push_single<A: ReaderArena>(
    out: &mut Vec<u8>,
    value: Reader<'_, A>,
) -> Result<(), AllocError>
    ensures { OnOk result
        (out.new.items ≡ out.old.items ++ single_text (shown A.segments value.entry)) }
{
    match value {
        Reader::Void => out.extend_from_slice(b"()"),
        Reader::Bool(value) => push_bool(out, value),
        Reader::Int8(value) => push_signed(out, u64::from(value.cast_unsigned()), 8),
        Reader::Int16(value) => push_signed(out, u64::from(value.cast_unsigned()), 16),
        Reader::Int32(value) => push_signed(out, u64::from(value.cast_unsigned()), 32),
        Reader::Int64(value) => push_signed(out, value.cast_unsigned(), 64),
        Reader::UInt8(value) => push_unsigned(out, u64::from(value)),
        Reader::UInt16(value) => push_unsigned(out, u64::from(value)),
        Reader::UInt32(value) => push_unsigned(out, u64::from(value)),
        Reader::UInt64(value) => push_unsigned(out, value),
        Reader::Enum(value) => push_enum(out, value),
        Reader::Text(text::Reader(bytes)) => push_text(out, bytes),
        Reader::Data(bytes) => push_data(out, bytes),
        Reader::AnyPointer(_) => out.extend_from_slice(b"<opaque pointer>"),
        Reader::Capability(_) => out.extend_from_slice(b"<external capability>"),
        Reader::Struct(_) | Reader::List(_) => Ok(()),
    }
}

/// Returns the form within one more value. Within more than `VALUES` there is no form, which counts
/// as lack of memory.
pub(crate) fn inner(indent: Indent) -> Result<Indent, AllocError>
    ensures style { IfOk result (λ deeper. style_of deeper ≡ inner (style_of indent)) }
    ensures counts { IfOk result (λ deeper. values_around deeper ≡ values_around indent + 1) }
    ensures most { IfOk result (λ deeper. values_around deeper ≤ 1024) }
    ensures deep { IfErr result (λ e. 1024 ≤ values_around indent) }
{
    match indent {
        Indent::OnOneLine(values) if values < VALUES => Ok(Indent::OnOneLine(values + 1)),
        Indent::At(values) if values < VALUES => Ok(Indent::At(values + 1)),
        _ => Err(AllocError),
    }
}

/// Appends the text before an item.
pub(crate) fn push_mark(out: &mut Vec<u8>, indent: Indent, first: bool) -> Result<(), AllocError>
    ensures { OnOk result (out.new.items ≡ out.old.items ++ item_mark (style_of indent) first) }
{
    if first {
        push_opening(out, indent)
    } else {
        push_between(out, indent)
    }
}

/// Appends the text before a field's value: the mark, the name and the equals sign.
pub(crate) fn push_name(
    out: &mut Vec<u8>,
    indent: Indent,
    first: bool,
    name: &[u8],
) -> Result<(), AllocError>
    ensures { OnOk result
        (out.new.items
        ≡ out.old.items ++ (item_mark (style_of indent) first ++ name.now ++ codes " = ")) }
{
    push_mark(out, indent, first)?;
    out.extend_from_slice(name)?;
    out.extend_from_slice(b" = ")
}

/// Appends the text after the last item, and the closing sign.
pub(crate) fn push_end(out: &mut Vec<u8>, indent: Indent, sign: u8) -> Result<(), AllocError>
    ensures { OnOk result
        (out.new.items ≡ out.old.items ++ (closing (style_of indent) ++ sign ∷ [])) }
{
    push_closing(out, indent)?;
    out.push(sign)?;
    Ok(())
}
