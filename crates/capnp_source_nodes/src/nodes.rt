//! Nodes: files, structs, enums, interfaces, constants and annotations.

use crate::types::{BrandScope, Type};
use crate::values::Value;

/// The nodes of one or more files.
#[derive(Debug, Drop)]
pub struct Request {
    /// All nodes that the files need, those of imported files among them.
    pub nodes: Vec<Node>,
    /// The files that were asked for.
    pub files: Vec<RequestedFile>,
}

/// A file that was asked for.
#[derive(Debug, Drop)]
pub struct RequestedFile {
    pub id: u64,
    /// The name that it was asked for by.
    pub name: String,
    pub imports: Vec<Import>,
}

/// A file that another file imports.
#[derive(Debug, Drop)]
pub struct Import {
    pub id: u64,
    /// The name between the quotes.
    pub name: String,
}

/// Something that has an id.
#[derive(Debug, Drop)]
pub struct Node {
    pub id: u64,
    /// The name of its file, a colon, and its path in the file: `shop.capnp:Order.Line`.
    pub display_name: String,
    /// The bytes of the display name before the node's own name.
    pub prefix_length: u32,
    /// The id of the scope around, or 0 if the node is a file.
    pub scope: u64,
    /// The names of its own type parameters.
    pub parameters: Vec<String>,
    /// Whether it or a scope around it has type parameters.
    pub is_generic: bool,
    pub nested: Vec<Nested>,
    pub annotations: Vec<Annotation>,
    pub body: NodeBody,
}

/// A node that is declared in another.
#[derive(Debug, Drop)]
pub struct Nested {
    pub name: String,
    pub id: u64,
}

/// An annotation where it is applied.
#[derive(Debug, Drop)]
pub struct Annotation {
    pub id: u64,
    pub brand: Vec<BrandScope>,
    pub value: Value,
}

/// The kind of a node, and its parts.
#[derive(Debug, Drop)]
pub enum NodeBody {
    File,
    Struct(Struct),
    Enum(Vec<Enumerant>),
    Interface(Interface),
    Constant { ty: Type, value: Value },
    Annotation { ty: Type, targets: Targets },
}

/// A struct or a group.
#[derive(Debug, Drop)]
pub struct Struct {
    /// The size of the data section, in words.
    pub data_words: u16,
    /// The size of the pointer section, in pointers.
    pub pointers: u16,
    /// The size in which lists of this struct were encoded before: the number of schema.capnp's `ElementSize`.
    pub list_encoding: u16,
    pub is_group: bool,
    /// The number of members of its union, or 0 if it has none.
    pub discriminant_count: u16,
    /// Where the discriminant is, in multiples of 16 bits from the start of the data section.
    pub discriminant_offset: u32,
    /// In the order of their ordinals; groups by the lowest ordinal in them.
    pub fields: Vec<Field>,
}

/// A field of a struct.
#[derive(Debug, Drop)]
pub struct Field {
    pub name: String,
    /// Its place in the source among the members of its struct, from 0.
    pub code_order: u16,
    pub annotations: Vec<Annotation>,
    /// The number that stands for it in the union, or 65535 if it isn't in the union.
    pub discriminant: u16,
    pub body: FieldBody,
    /// The ordinal that is written in the source; `None` of a group without one.
    pub ordinal: Option<u16>,
}

/// Where a field is, and what it holds.
#[derive(Debug, Drop)]
pub enum FieldBody {
    Slot {
        /// In multiples of the field's size from the start of its section.
        offset: u32,
        ty: Type,
        default: Value,
        /// Whether the default is written in the source.
        has_default: bool,
    },
    /// The node of a group.
    Group(u64),
}

/// A member of an enum, in the order of the ordinals.
#[derive(Debug, Drop)]
pub struct Enumerant {
    pub name: String,
    pub code_order: u16,
    pub annotations: Vec<Annotation>,
}

/// An interface.
#[derive(Debug, Drop)]
pub struct Interface {
    /// In the order of the ordinals.
    pub methods: Vec<Method>,
    pub superclasses: Vec<Superclass>,
}

/// An interface that another extends.
#[derive(Debug, Drop)]
pub struct Superclass {
    pub id: u64,
    pub brand: Vec<BrandScope>,
}

/// A method of an interface.
#[derive(Debug, Drop)]
pub struct Method {
    pub name: String,
    pub code_order: u16,
    /// The names of its own type parameters.
    pub parameters: Vec<String>,
    pub param_struct: u64,
    pub param_brand: Vec<BrandScope>,
    pub result_struct: u64,
    pub result_brand: Vec<BrandScope>,
    pub annotations: Vec<Annotation>,
}

/// The kinds of declarations to which an annotation may be applied.
#[derive(Clone, Copy, Debug, PartialEq, Eq)]
pub struct Targets {
    pub file: bool,
    pub constant: bool,
    pub enumeration: bool,
    pub enumerant: bool,
    pub structure: bool,
    pub field: bool,
    pub union: bool,
    pub group: bool,
    pub interface: bool,
    pub method: bool,
    pub parameter: bool,
    pub annotation: bool,
}
