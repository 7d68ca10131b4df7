//! Questions about values.

use hagzimot_expressions::tree::Operator;

/// A question about the value that a path leads to.
#[derive(Debug, Drop)]
pub enum Asked {
    /// Nothing: it is there.
    There,
    /// The field of an index is present: no inactive member, and no null pointer.
    Present(u16),
    /// The union has the member of this discriminant as the active one.
    Member(u16),
    /// A whole number.
    Whole { operator: Operator, number: i128 },
    /// A Bool.
    Truth { operator: Operator, value: bool },
    /// An enumerant, by its number.
    Enumerant { operator: Operator, number: u16 },
    /// A text, by its bytes.
    Text { operator: Operator, bytes: Vec<u8> },
    /// Data.
    Data { operator: Operator, bytes: Vec<u8> },
    /// A float of 32 bits, by these.
    Float32 { operator: Operator, bits: u32 },
    /// A float of 64 bits, by these.
    Float64 { operator: Operator, bits: u64 },
}
