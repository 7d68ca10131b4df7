//! Data: a sequence of bytes.
use capnp_wire::traits;
use capnp_wire_objects::arena::ReaderArena;

/// Data to read: the bytes of a byte list, lent in place.
pub type Reader<'a> = &'a [u8];

/// Data to write: the bytes of a byte list in a message, lent in place.
pub type Builder<'a> = &'a mut [u8];

/// The type of data.
#[derive(Clone, Copy, Debug, PartialEq, Eq)]
pub struct Owned;

/// Data are read as their bytes, by `FromPointerReader` of `&[u8]`.
impl<'a, A: ReaderArena> traits::Owned<'a, A> for Owned {
    type Reader = Reader<'a>;
}
