//! Untyped pointers.
ghost use Rattle.std.specs.Prelude.{◌≡◌, Result, Ok, option_copied};
ghost use Rattle.capnp_model.specs.Schemas.{untyped};
ghost use Rattle.capnp_units.specs.declared.errors.Error.{Error};
ghost use Rattle.capnp_wire_objects.specs.Places.{seen};
ghost use Rattle.capnp_wire.specs.Views.{PointerView, seen_pointer};
ghost use Rattle.capnp_wire.specs.Reads.{is_null_pointer, with_default};
ghost use Rattle.capnp_wire.specs.ValueSizes.{PointerSize};
ghost use Rattle.capnp_values.specs.Sources.{pointer_seen, WithoutLimit, pointed_text, pointed_data};
ghost use Rattle.capnp_values.specs.Untyped.{IsUntyped};

use crate::source::PointerSource;
use capnp_text::text;
use capnp_units::errors::Result;
use capnp_units::limiter::ReadLimiter;
use capnp_units::sizes::{MessageSize, Word};
use capnp_values_queries::introspect::{Introspect, Type, TypeVariant};
use capnp_wire::pointer::PointerReader;
use capnp_wire::traits;
use capnp_wire::traits::FromPointerReader;
use capnp_wire_objects::arena::ReaderArena;

/// An untyped pointer, of a message or of a default.
#[derive_where(Clone, Copy)]
pub struct Reader<'a, A> {
    pub(crate) source: PointerSource<'a, A>,
}

impl<'a, A: ReaderArena> Reader<'a, A> {
    /// Returns the source from which the pointer is read, for copies.
    pub fn source(&self) -> PointerSource<'a, A>
        ensures { result ≡ self.now.source }
    {
        self.source
    }

    /// Makes an untyped pointer of a message's pointer.
    pub fn new(reader: PointerReader<'a, A>) -> Self
        ensures { pointer_seen A.segments result.source ≡ seen_pointer A.segments reader.entry }
    {
        Reader {
            source: PointerSource::Message(reader),
        }
    }

    /// Makes an untyped pointer of a message or of a default.
    pub(crate) fn of_source(source: PointerSource<'a, A>) -> Self
        ensures { result.source ≡ source.entry }
    {
        Reader { source }
    }

    /// Returns whether there is no pointer here, or a word of zeros.
    pub fn is_null(&self) -> bool
        ensures { result ≡ is_null_pointer (pointer_seen A.segments self.now.source) }
    {
        self.source.is_null()
    }

    /// Returns the words and the capabilities of the pointer's value, without pads and the pointer
    /// itself. It is refused, and bounded in time and stack, like `PointerReader::total_size`
    /// without a limit of words.
    pub fn target_size(&self) -> Result<MessageSize>
        ensures { WithoutLimit (PointerSize (pointer_seen A.segments self.now.source)) result }
    {
        self.source.total_size()
    }

    /// Returns the pointer read as a type: a text, data, or an untyped pointer. There is no limit
    /// of words.
    ///
    /// It is refused like `PointerReader::get_text` and `get_data`.
    pub fn get_as<T: FromAnyPointer<'a, A>>(&self) -> Result<T>
        ensures { T.reads (pointer_seen A.segments self.now.source) result }
    {
        T::from_any_pointer(*self)
    }
}

/// The type of untyped pointers.
#[derive(Clone, Copy, Debug, PartialEq, Eq)]
pub struct Owned;

impl Introspect for Owned {
    ghost ty = { untyped };

    fn introspect() -> Type {
        Type::from(TypeVariant::AnyPointer)
    }
}

impl<'a, A: ReaderArena + 'a> traits::Owned<'a, A> for Owned {
    type Reader = Reader<'a, A>;
}

/// Returns the pointer itself, or the default's root if the pointer is null. Nothing is followed,
/// so nothing is paid for, and it is never refused.
impl<'a, A: ReaderArena> FromPointerReader<'a, A> for Reader<'a, A> {
    ghost reads = { IsUntyped A.segments };

    fn get_from_pointer(
        reader: &PointerReader<'a, A>,
        limiter: &mut ReadLimiter,
        default: Option<&'a [Word]>,
    ) -> Result<Reader<'a, A>> {
        Ok(Reader::new(reader.with_default(default)))
    }
}

/// A type as which an untyped pointer can be read, whether it is of a message or of a default.
pub trait FromAnyPointer<'a, A: ReaderArena>: Sized {
    /// The result of reading the pointer.
    ghost reads: { PointerView → Result Self Error → Type 0 };

    /// Reads the pointer.
    fn from_any_pointer(pointer: Reader<'a, A>) -> Result<Self>
        ensures { reads (pointer_seen A.segments pointer.entry.source) result };
}

/// A text: the bytes of a byte list before its last byte, which is zero; null is the empty text.
impl<'a, A: ReaderArena> FromAnyPointer<'a, A> for text::Reader<'a> {
    ghost reads = { λ p r. seen (λ t. t.0.now) r ≡ pointed_text p };

    fn from_any_pointer(pointer: Reader<'a, A>) -> Result<text::Reader<'a>>
        ensures { seen (λ t. t.0.now) result
            ≡ pointed_text (pointer_seen A.segments pointer.entry.source) }
    {
        Ok(text::Reader(pointer.source.text()?))
    }
}

/// Data: the bytes of a byte list; null is empty data.
impl<'a, A: ReaderArena> FromAnyPointer<'a, A> for &'a [u8] {
    ghost reads = { λ p r. seen (λ bytes. bytes.now) r ≡ pointed_data p };

    fn from_any_pointer(pointer: Reader<'a, A>) -> Result<&'a [u8]>
        ensures { seen (λ bytes. bytes.now) result
            ≡ pointed_data (pointer_seen A.segments pointer.entry.source) }
    {
        pointer.source.data()
    }
}

/// The pointer itself.
impl<'a, A: ReaderArena> FromAnyPointer<'a, A> for Reader<'a, A> {
    ghost reads = { λ p r. seen (λ q. pointer_seen A.segments q.source) r ≡ Ok p };

    fn from_any_pointer(pointer: Reader<'a, A>) -> Result<Reader<'a, A>>
        ensures { seen (λ q. pointer_seen A.segments q.source) result
            ≡ Ok (pointer_seen A.segments pointer.entry.source) }
    {
        Ok(pointer)
    }
}
