//! The parts of a struct's sections that its fields take.

ghost use Rattle.std.specs.Prelude.{◌<◌};

/// Bits of the data section: one value of a width, after n values of that width.
#[derive(Clone, Copy)]
pub(crate) struct Span {
    pub(crate) width: u32,
    pub(crate) place: u32,
    pub ghost wide: { 0 < width },
}

/// The part of its struct's sections that a field takes.
#[derive(Clone, Copy)]
pub(crate) enum Area {
    Empty,
    Bits(Span),
    Pointer { place: u32 },
}
