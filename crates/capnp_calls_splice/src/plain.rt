//! Numbers that calls write into the data of structs.
ghost use Rattle.std.specs.Prelude.{◌+◌, ◌^◌, ◌<◌, ◌≤◌};

/// A number that a call writes into the data of a struct.
#[derive(Clone, Copy, Debug, PartialEq, Eq)]
pub struct PlainSet {
    /// The word of the data section, from 0 on.
    pub word: u32,
    /// The first bit of the number in the word, counted from the lowest.
    pub shift: u32,
    /// The bits of the number, 1 to 64.
    pub width: u32,
    /// The number, exclusive-or'ed with the field's default already.
    pub bits: u64,
    pub ghost some: { 0 < width },
    pub ghost inside: { shift + width ≤ 64 },
    pub ghost fits: { bits < 2 ^ width },
}
