//! Classes of the single bytes of a schema source.

ghost use Rattle.std.specs.Prelude.{◌≡◌, ◌<◌, IfSome};
ghost use Rattle.capnp_source_text.specs.Bytes.{is_space, is_name_start, is_name_byte, is_number_byte, is_operator_byte, is_in, digit_of};

/// Returns whether a byte is white space.
pub fn is_space(byte: u8) -> bool
    ensures { result ≡ is_space byte }
{
    matches!(byte, b' ' | 9..=13)
}

/// Returns whether a name may begin with a byte.
pub fn is_name_start(byte: u8) -> bool
    ensures { result ≡ is_name_start byte }
{
    byte.is_ascii_alphabetic() || byte == b'_'
}

/// Returns whether a name may contain a byte.
pub fn is_name_byte(byte: u8) -> bool
    ensures { result ≡ is_name_byte byte }
{
    is_name_start(byte) || byte.is_ascii_digit()
}

/// Returns whether a number may contain a byte.
pub fn is_number_byte(byte: u8) -> bool
    ensures { result ≡ is_number_byte byte }
{
    is_name_byte(byte) || byte == b'.'
}

/// Returns whether an operator may contain a byte.
pub fn is_operator_byte(byte: u8) -> bool
    ensures { result ≡ is_operator_byte byte }
{
    matches!(
        byte,
        b'!' | b'$' | b'%' | b'&' | b'*' | b'+' | b'-' | b'.' | b'/' | b':' | b'<'..=b'@'
            | b'^'
            | b'|'
            | b'~'
    )
}

/// The class of the bytes of a token that may have more than one byte.
#[derive(Clone, Copy, Debug, PartialEq, Eq)]
pub enum ByteClass {
    Name,
    Number,
    Operator,
}

/// Returns whether a byte is of a class.
pub fn is_in(class: ByteClass, byte: u8) -> bool
    ensures { result ≡ is_in class byte }
{
    match class {
        ByteClass::Name => is_name_byte(byte),
        ByteClass::Number => is_number_byte(byte),
        ByteClass::Operator => is_operator_byte(byte),
    }
}

/// Returns the value of a hexadecimal digit in either case, or `None` for another byte.
pub fn digit_of(byte: u8) -> Option<u8>
    ensures value { result ≡ digit_of byte }
    ensures small { IfSome result (λ d. d < 16) }
{
    match byte {
        b'0'..=b'9' => Some(byte - b'0'),
        b'a'..=b'f' => Some(byte - b'a' + 10),
        b'A'..=b'F' => Some(byte - b'A' + 10),
        _ => None,
    }
}
