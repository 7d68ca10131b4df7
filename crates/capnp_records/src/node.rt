//! Node records as a caller writes them.

/// The discriminant value of a field that is not a union member.
pub const NO_DISCRIMINANT: u16 = 65535;

/// The base of a type: the type itself, or the type of a list's innermost elements.
#[derive(Clone, Copy, PartialEq, Eq, Debug)]
pub enum BaseType {
    Void,
    Bool,
    Int8,
    Int16,
    Int32,
    Int64,
    UInt8,
    UInt16,
    UInt32,
    UInt64,
    Float32,
    Float64,
    Text,
    Data,
    /// An enum, by the id of its node.
    Enum(u64),
    /// A struct, by the id of its node.
    Struct(u64),
    AnyPointer,
    Capability,
}

/// A type: n times a list of the base.
#[derive(Clone, Copy, PartialEq, Eq, Debug)]
pub struct TypeRecord {
    pub list_count: u32,
    pub base: BaseType,
}

/// The value of a default or an annotation.
#[derive(Debug, Drop)]
pub enum Value {
    Void,
    Bool(bool),
    Int8(i8),
    Int16(i16),
    Int32(i32),
    Int64(i64),
    UInt8(u8),
    UInt16(u16),
    UInt32(u32),
    UInt64(u64),
    Enum(u16),
    Text(Vec<u8>),
    Data(Vec<u8>),
    /// The bytes of one segment.
    List(Vec<u8>),
    /// The bytes of one segment.
    Struct(Vec<u8>),
    AnyPointer,
    Interface,
}

/// An annotation of a node, a field or an enumerant.
#[derive(Debug, Drop)]
pub struct AnnotationRecord {
    pub id: u64,
    pub ty: TypeRecord,
    pub value: Value,
}

/// An enumerant of an enum node.
#[derive(Debug, Drop)]
pub struct EnumerantRecord {
    pub name: String,
    pub annotations: Vec<AnnotationRecord>,
}

/// The body of a field: a slot of its struct, or a group with a node of its own.
#[derive(Debug, Drop)]
pub enum FieldBody {
    Slot {
        /// The place in the section, in units of the type's size.
        offset: u32,
        ty: TypeRecord,
        default: Option<Value>,
    },
    Group {
        /// The id of the group's node.
        node: u64,
    },
}

/// A field of a struct or a group.
#[derive(Debug, Drop)]
pub struct FieldRecord {
    pub name: String,
    /// The discriminant at which the field is its union's active member, or `NO_DISCRIMINANT`.
    pub discriminant_value: u16,
    pub annotations: Vec<AnnotationRecord>,
    pub body: FieldBody,
}

/// The description of a struct or a group in its node.
#[derive(Debug, Drop)]
pub struct StructRecord {
    pub data_word_count: u16,
    pub pointer_count: u16,
    pub is_group: bool,
    /// The number of members of the union; 0 without a union.
    pub discriminant_count: u16,
    /// The place of the discriminant, in units of 16 bits.
    pub discriminant_offset: u32,
    pub fields: Vec<FieldRecord>,
}

/// The body of a node: a struct or an enum.
#[derive(Debug, Drop)]
pub enum NodeBody {
    Struct(StructRecord),
    Enum(Vec<EnumerantRecord>),
}

/// A node of a schema.
#[derive(Debug, Drop)]
pub struct NodeRecord {
    pub id: u64,
    pub display_name: String,
    pub annotations: Vec<AnnotationRecord>,
    pub body: NodeBody,
}
