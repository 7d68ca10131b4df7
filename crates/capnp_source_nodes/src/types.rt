//! Types of fields, constants, annotations and type parameters.

/// A type. A list has its element's type as the only item of its vector.
#[cycle(types)]
#[derive(Debug, Drop)]
pub enum Type {
    Void,
    Bool,
    Int8,
    Int16,
    Int32,
    Int64,
    UInt8,
    UInt16,
    UInt32,
    UInt64,
    Float32,
    Float64,
    Text,
    Data,
    List(Vec<Type>),
    Enum { id: u64, brand: Vec<BrandScope> },
    Struct { id: u64, brand: Vec<BrandScope> },
    Interface { id: u64, brand: Vec<BrandScope> },
    AnyPointer,
    AnyStruct,
    AnyList,
    Capability,
    /// A parameter of the generic node `scope`, by its index.
    Parameter { scope: u64, index: u16 },
    /// A parameter of the method whose parameters or results have this type.
    MethodParameter { index: u16 },
}

/// The arguments of the parameters of a generic node.
#[cycle(types)]
#[derive(Debug, Drop)]
pub struct BrandScope {
    /// The generic node.
    pub id: u64,
    pub binding: Binding,
}

/// The arguments for the parameters of one node.
#[cycle(types)]
#[derive(Debug, Drop)]
pub enum Binding {
    /// One argument for each parameter; `None` if the parameter stays unbound.
    Bound(Vec<Option<Type>>),
    /// The parameters of the scope around, as they are bound there.
    Inherited,
}
