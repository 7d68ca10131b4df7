//! Traits of callers' types: their sizes, their ids, and how they are read.
ghost use Rattle.std.specs.Prelude.{◌≡◌, option_copied, Result};
ghost use Rattle.capnp_units.specs.declared.errors.Error.{Error};
ghost use Rattle.capnp_units.specs.declared.limiter.ReadLimiter.{ReadLimiter};
ghost use Rattle.capnp_wire.specs.declared.structs.StructReader.{StructReader};
ghost use Rattle.capnp_wire.specs.declared.list.ListReader.{ListReader};
ghost use Rattle.capnp_wire.specs.Views.{PointerView, seen_pointer};
ghost use Rattle.capnp_wire.specs.Reads.{with_default, GetGives, read_blob};

use crate::list::ListReader;
use crate::pointer::PointerReader;
use crate::structs::StructReader;
use capnp_units::errors::Result;
use capnp_units::limiter::ReadLimiter;
use capnp_units::sizes::{StructSize, Word};
use capnp_wire_objects::arena::ReaderArena;

/// A type of structs, with the sizes that its schema gives them.
pub trait HasStructSize {
    /// The data words and the pointers of such a struct.
    const STRUCT_SIZE: StructSize;
}

/// A type with an id in its schema.
pub trait HasTypeId {
    /// The id.
    const TYPE_ID: u64;
}

/// A type as which a pointer can be read.
pub trait FromPointerReader<'a, A: ReaderArena>: Sized {
    /// The result of reading a pointer, and the words that reading takes of the budget.
    ghost reads: { PointerView → ReadLimiter → Result Self Error → ReadLimiter → Type 0 };

    /// Reads a pointer, or the default's root instead of a null pointer.
    fn get_from_pointer(
        reader: &PointerReader<'a, A>,
        limiter: &mut ReadLimiter,
        default: Option<&'a [Word]>,
    ) -> Result<Self>
        ensures { reads (with_default (seen_pointer A.segments reader.now)
            (option_copied default.entry)) limiter.old result limiter.new };
}

/// Data: the bytes of a byte list, lent in place.
impl<'a, A: ReaderArena> FromPointerReader<'a, A> for &'a [u8] {
    ghost reads = { λ p old result new.
        GetGives (λ bytes. bytes.now) (read_blob p.basis p.levels) p old result new };

    fn get_from_pointer(
        reader: &PointerReader<'a, A>,
        limiter: &mut ReadLimiter,
        default: Option<&'a [Word]>,
    ) -> Result<&'a [u8]> {
        reader.get_data(limiter, default)
    }
}

/// A caller's type that is a struct to read: it is made from the struct and can be turned back into
/// it.
pub trait IntoInternalStructReader<'a, A: 'a>: From<StructReader<'a, A>> {
    /// The struct.
    ghost inner_struct: { Self → StructReader A };

    /// Turns the value back into the struct.
    fn into_internal_struct_reader(self) -> StructReader<'a, A>
        ensures { result ≡ inner_struct self };

    /// A value that is made from a struct has exactly that struct.
    ghost made: { (s : StructReader A) (r : Self) → Self.from_gives s r → inner_struct r ≡ s };
}

/// A caller's type that is a list to read.
pub trait IntoInternalListReader<'a, A> {
    /// The list.
    ghost inner_list: { Self → ListReader A };

    /// Turns the value back into the list.
    fn into_internal_list_reader(self) -> ListReader<'a, A>
        ensures { result ≡ inner_list self };
}

/// A type of pointers' values. The type as which they are built comes with the builders.
pub trait Owned<'a, A: ReaderArena> {
    /// The type as which its values are read.
    type Reader: FromPointerReader<'a, A>;
}

/// A type of structs. The type as which they are built comes with the builders.
pub trait OwnedStruct<'a, A: ReaderArena + 'a> {
    /// The type as which its structs are read.
    type Reader: IntoInternalStructReader<'a, A>;
}
