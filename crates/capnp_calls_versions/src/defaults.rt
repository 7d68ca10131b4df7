//! Equal defaults.

ghost use Rattle.std.specs.Prelude.{◌≡◌, Some, option_map, option_copied};
ghost use Rattle.capnp_model.specs.Accepted.{default_bits};
ghost use Rattle.capnp_records.specs.NodeViews.{value_of};
ghost use Rattle.capnp_model.specs.Bytes.{AreBytes};
ghost use Rattle.capnp_calls_versions.specs.Defaults.{AllBytes, default_value_bytes, same_bytes, same_value};

use capnp_records::node::Value;

/// Returns the bits of a plain value, otherwise 0.
fn bits_of(value: &Value) -> u64
    ensures { result ≡ default_bits (Some (value_of value.now)) }
{
    match value {
        Value::Bool(b) => u64::from(*b),
        Value::Int8(n) => u64::from(n.cast_unsigned()),
        Value::Int16(n) => u64::from(n.cast_unsigned()),
        Value::Int32(n) => u64::from(n.cast_unsigned()),
        Value::Int64(n) => n.cast_unsigned(),
        Value::UInt8(n) => u64::from(*n),
        Value::UInt16(n) => u64::from(*n),
        Value::UInt32(n) => u64::from(*n),
        Value::UInt64(n) => *n,
        Value::Enum(n) => u64::from(*n),
        Value::Void
        | Value::Text(_)
        | Value::Data(_)
        | Value::List(_)
        | Value::Struct(_)
        | Value::AnyPointer
        | Value::Interface => 0,
    }
}

/// Returns the bytes, which are all below 256.
fn small(bytes: &[u8]) -> &[u8]
    ensures same { result.now ≡ bytes.now }
    ensures small { AreBytes result.now }
{
    bytes
}

/// Returns the bytes of a text, of data, of a list or of a struct.
fn bytes_of(value: &Value) -> Option<&[u8]>
    ensures bytes { option_copied result ≡ default_value_bytes (Some (value_of value.now)) }
    ensures small { AllBytes (default_value_bytes (Some (value_of value.now))) }
{
    match value {
        Value::Text(bytes) => Some(small(bytes)),
        Value::Data(bytes) => Some(small(bytes)),
        Value::List(bytes) => Some(small(bytes)),
        Value::Struct(bytes) => Some(small(bytes)),
        Value::Void
        | Value::Bool(_)
        | Value::Int8(_)
        | Value::Int16(_)
        | Value::Int32(_)
        | Value::Int64(_)
        | Value::UInt8(_)
        | Value::UInt16(_)
        | Value::UInt32(_)
        | Value::UInt64(_)
        | Value::Enum(_)
        | Value::AnyPointer
        | Value::Interface => None,
    }
}

fn default_bits(default: &Option<Value>) -> u64
    ensures { result ≡ default_bits (option_map value_of default.now) }
{
    match default {
        Some(value) => bits_of(value),
        None => 0,
    }
}

fn default_bytes(default: &Option<Value>) -> Option<&[u8]>
    ensures bytes { option_copied result ≡ default_value_bytes (option_map value_of default.now) }
    ensures small { AllBytes (default_value_bytes (option_map value_of default.now)) }
{
    match default {
        Some(value) => bytes_of(value),
        None => None,
    }
}

fn same_bytes(older: Option<&[u8]>, newer: Option<&[u8]>) -> bool
    ensures { result ≡ same_bytes (option_copied older.entry) (option_copied newer.entry) }
{
    match older {
        None => newer.is_none(),
        Some(bytes) => match newer {
            None => false,
            Some(others) => bytes == others,
        },
    }
}

/// Returns whether the defaults of related types are equal.
pub(crate) fn same_default(older: &Option<Value>, newer: &Option<Value>) -> bool
    ensures same { result ≡ same_value (option_map value_of older.now)
        (option_map value_of newer.now) }
    ensures older { AllBytes (default_value_bytes (option_map value_of older.now)) }
    ensures newer { AllBytes (default_value_bytes (option_map value_of newer.now)) }
{
    let bytes = default_bytes(older);
    let others = default_bytes(newer);
    default_bits(older) == default_bits(newer) && same_bytes(bytes, others)
}
