//! The types that every file knows.

/// A type that every file knows.
#[derive(Clone, Copy, Debug, PartialEq, Eq)]
pub enum Builtin {
    Void,
    Bool,
    Int8,
    Int16,
    Int32,
    Int64,
    UInt8,
    UInt16,
    UInt32,
    UInt64,
    Float32,
    Float64,
    Text,
    Data,
    List,
    AnyPointer,
    AnyStruct,
    AnyList,
    Capability,
}

/// The names of these types.
pub(crate) const NAMES: [&str; 19] = [
    "Void",
    "Bool",
    "Int8",
    "Int16",
    "Int32",
    "Int64",
    "UInt8",
    "UInt16",
    "UInt32",
    "UInt64",
    "Float32",
    "Float64",
    "Text",
    "Data",
    "List",
    "AnyPointer",
    "AnyStruct",
    "AnyList",
    "Capability",
];

/// Returns the number with a name.
fn number(name: &str) -> Option<Builtin> {
    match name {
        "Int8" => Some(Builtin::Int8),
        "Int16" => Some(Builtin::Int16),
        "Int32" => Some(Builtin::Int32),
        "Int64" => Some(Builtin::Int64),
        "UInt8" => Some(Builtin::UInt8),
        "UInt16" => Some(Builtin::UInt16),
        "UInt32" => Some(Builtin::UInt32),
        "UInt64" => Some(Builtin::UInt64),
        "Float32" => Some(Builtin::Float32),
        "Float64" => Some(Builtin::Float64),
        _ => None,
    }
}

/// Returns the type with a name.
pub fn builtin_of(name: &str) -> Option<Builtin> {
    match name {
        "Void" => Some(Builtin::Void),
        "Bool" => Some(Builtin::Bool),
        "Text" => Some(Builtin::Text),
        "Data" => Some(Builtin::Data),
        "List" => Some(Builtin::List),
        "AnyPointer" => Some(Builtin::AnyPointer),
        "AnyStruct" => Some(Builtin::AnyStruct),
        "AnyList" => Some(Builtin::AnyList),
        "Capability" => Some(Builtin::Capability),
        _ => number(name),
    }
}
