//! The texts of single values, appended to bytes.
//!
//! After a lack of memory, a beginning of the text may follow the earlier bytes.

ghost use Rattle.std.specs.Prelude.{◌≡◌, ◌+◌, ◌++◌, ◌*◌, ◌^◌, ◌<◌, ◌≤◌, [], ◌∷◌, false, OnOk, codes, decimal, replicate};
ghost use Rattle.std.specs.Fmt.{digits};
ghost use Rattle.std.specs.List.{flat_map};
ghost use Rattle.capnp_model.specs.Printing.{escaped, text_text, hex_byte, blob_text, line_at, opening, between, closing, as_it_is};
ghost use Rattle.capnp_values_print.specs.Texts.{number_list, bool_text, signed_text, style_of};

use itoa::Buffer;
use std::alloc::AllocError;

/// The form of a text, within n values: on one line, or with a line for each item.
#[derive(Clone, Copy, Debug, PartialEq, Eq)]
pub(crate) enum Indent {
    OnOneLine(usize),
    At(usize),
}

// ---- numbers

/// Appends `true` or `false`.
pub(crate) fn push_bool(out: &mut Vec<u8>, value: bool) -> Result<(), AllocError>
    ensures { OnOk result (out.new.items ≡ out.old.items ++ bool_text value) }
{
    if value {
        out.extend_from_slice(b"true")
    } else {
        out.extend_from_slice(b"false")
    }
}

/// Appends a number without a sign in decimal.
pub(crate) fn push_unsigned(out: &mut Vec<u8>, number: u64) -> Result<(), AllocError>
    ensures { OnOk result (out.new.items ≡ out.old.items ++ decimal number) }
{
    let mut buffer = Buffer::new();
    out.extend_from_slice(buffer.format(number).as_bytes())
}

/// Appends a number in two's complement of n bits, in decimal.
pub(crate) fn push_signed(out: &mut Vec<u8>, bits: u64, width: u32) -> Result<(), AllocError>
    requires some { 0 < width }
    requires most { width ≤ 64 }
    requires fits { bits < 2 ^ width }
    ensures { OnOk result (out.new.items ≡ out.old.items ++ signed_text width bits) }
{
    if bits < (1 << (width - 1)) {
        return push_unsigned(out, bits);
    }
    let size = (1u128 << width) - bits as u128;
    let mut buffer = Buffer::new();
    out.push(b'-')?;
    out.extend_from_slice(buffer.format(size).as_bytes())
}

// ---- bytes

/// Returns the sign of a number below sixteen.
fn hex_digit(number: u8) -> u8
    requires { number < 16 }
    ensures { digits 16 false number ≡ result ∷ [] }
{
    if number < 10 {
        b'0' + number
    } else {
        b'a' + (number - 10)
    }
}

/// Appends a byte in hex.
fn push_hex_byte(out: &mut Vec<u8>, byte: u8) -> Result<(), AllocError>
    ensures { OnOk result (out.new.items ≡ out.old.items ++ hex_byte byte) }
{
    let signs = [hex_digit(byte / 16), hex_digit(byte % 16)];
    out.extend_from_slice(&signs)
}

/// Appends data: the bytes in hexadecimal digits, between quotes after `0x`.
pub(crate) fn push_data(out: &mut Vec<u8>, bytes: &[u8]) -> Result<(), AllocError>
    ensures { OnOk result (out.new.items ≡ out.old.items ++ blob_text bytes.now) }
{
    out.extend_from_slice(b"0x\"")?;
    for byte in bytes {
        push_hex_byte(out, *byte)?;
    }
    out.push(b'"')?;
    Ok(())
}

// ---- texts

/// Appends a control character of ASCII as its number in hex.
fn push_control(out: &mut Vec<u8>, byte: u8) -> Result<(), AllocError>
    requires { byte < 32 }
    ensures { OnOk result
        (out.new.items ≡ out.old.items ++ (codes "\\u{" ++ digits 16 false byte ++ codes "}")) }
{
    if byte < 16 {
        let signs = [b'\\', b'u', b'{', hex_digit(byte), b'}'];
        return out.extend_from_slice(&signs);
    }
    let signs = [b'\\', b'u', b'{', b'1', hex_digit(byte - 16), b'}'];
    out.extend_from_slice(&signs)
}

/// Appends an ASCII character, or another byte, in its form between quotes.
fn push_escaped(out: &mut Vec<u8>, byte: u8) -> Result<(), AllocError>
    ensures { OnOk result (out.new.items ≡ out.old.items ++ escaped byte) }
{
    match byte {
        b'"' => out.extend_from_slice(b"\\\""),
        b'\\' => out.extend_from_slice(b"\\\\"),
        b'\n' => out.extend_from_slice(b"\\n"),
        b'\r' => out.extend_from_slice(b"\\r"),
        b'\t' => out.extend_from_slice(b"\\t"),
        0 => out.extend_from_slice(b"\\0"),
        127 => out.extend_from_slice(b"\\u{7f}"),
        1..=31 => push_control(out, byte),
        _ => {
            out.push(byte)?;
            Ok(())
        }
    }
}

/// Appends text between quotes. Characters beyond ASCII are unchanged.
fn push_quoted(out: &mut Vec<u8>, bytes: &[u8]) -> Result<(), AllocError>
    ensures { OnOk result
        (out.new.items
        ≡ out.old.items ++ (codes "\"" ++ flat_map escaped bytes.now ++ codes "\"")) }
{
    out.push(b'"')?;
    for byte in bytes {
        push_escaped(out, *byte)?;
    }
    out.push(b'"')?;
    Ok(())
}

/// Appends the bytes in decimal, with a comma and a blank between each two.
#[tactic(auto, using(crate::proofs::TextLemmas::number_list_rules))]
fn push_numbers(out: &mut Vec<u8>, bytes: &[u8]) -> Result<(), AllocError>
    ensures { OnOk result (out.new.items ≡ out.old.items ++ number_list bytes.now) }
{
    let Some((first, others)) = bytes.split_first() else {
        return Ok(());
    };
    push_unsigned(out, *first as u64)?;
    for byte in others {
        out.extend_from_slice(b", ")?;
        push_unsigned(out, *byte as u64)?;
    }
    Ok(())
}

/// Appends the replacement of bytes that are not a text.
fn push_invalid(out: &mut Vec<u8>, bytes: &[u8]) -> Result<(), AllocError>
    ensures { OnOk result
        (out.new.items
        ≡ out.old.items ++ (codes "<invalid utf-8: [" ++ number_list bytes.now ++ codes "]>")) }
{
    out.extend_from_slice(b"<invalid utf-8: [")?;
    push_numbers(out, bytes)?;
    out.extend_from_slice(b"]>")?;
    Ok(())
}

/// Appends a text: between quotes, or by the numbers of its bytes if they aren't UTF-8.
#[tactic(auto, using(crate::proofs::TextLemmas::text_text_rules))]
pub(crate) fn push_text(out: &mut Vec<u8>, bytes: &[u8]) -> Result<(), AllocError>
    ensures { OnOk result (out.new.items ≡ out.old.items ++ text_text as_it_is bytes.now) }
{
    match std::str::from_utf8(bytes) {
        Ok(_) => push_quoted(out, bytes),
        Err(_) => push_invalid(out, bytes),
    }
}

// ---- the signs of the two forms

/// Appends a line feed and two blanks for each level.
fn push_line(out: &mut Vec<u8>, levels: usize) -> Result<(), AllocError>
    ensures { OnOk result (out.new.items ≡ out.old.items ++ (10 ∷ replicate (2 * levels) 32)) }
{
    out.push(b'\n')?;
    for _ in 0..levels {
        out.extend_from_slice(b"  ")?;
    }
    Ok(())
}

/// Appends the line one level deeper. If memory can't hold the blanks, it is refused for lack of
/// memory.
fn push_inner_line(out: &mut Vec<u8>, levels: usize) -> Result<(), AllocError>
    ensures { OnOk result (out.new.items ≡ out.old.items ++ line_at (levels + 1)) }
{
    match levels.checked_add(1) {
        None => Err(AllocError),
        Some(more) => push_line(out, more),
    }
}

/// Appends the text after an opening sign.
pub(crate) fn push_opening(out: &mut Vec<u8>, indent: Indent) -> Result<(), AllocError>
    ensures { OnOk result (out.new.items ≡ out.old.items ++ opening (style_of indent)) }
{
    match indent {
        Indent::OnOneLine(_) => Ok(()),
        Indent::At(levels) => push_inner_line(out, levels),
    }
}

/// Appends the text between two items.
pub(crate) fn push_between(out: &mut Vec<u8>, indent: Indent) -> Result<(), AllocError>
    ensures { OnOk result (out.new.items ≡ out.old.items ++ between (style_of indent)) }
{
    match indent {
        Indent::OnOneLine(_) => out.extend_from_slice(b", "),
        Indent::At(levels) => {
            out.push(b',')?;
            push_inner_line(out, levels)
        }
    }
}

/// Appends the text before a closing sign.
pub(crate) fn push_closing(out: &mut Vec<u8>, indent: Indent) -> Result<(), AllocError>
    ensures { OnOk result (out.new.items ≡ out.old.items ++ closing (style_of indent)) }
{
    match indent {
        Indent::OnOneLine(_) => Ok(()),
        Indent::At(levels) => push_line(out, levels),
    }
}
