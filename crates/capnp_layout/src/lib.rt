//! The layout layer under one name: units and sizes, arenas, and the readers and builders of
//! pointers, structs and lists. The traits of types that callers build are in `owned`, those of
//! types that callers read are here (`Owned`, `OwnedStruct`).
#![tactic(auto)]

pub mod laws;

pub use capnp_copy_arenas::allocator::{Allocator, SegmentBytes};
pub use capnp_copy_arenas::arena::{BuilderArena, Memory};
pub use capnp_copy_arenas::bytes::BlobPlace;
pub use capnp_copy_arenas::fields::StructPlace;
pub use capnp_copy_arenas::init::ListPlace;
pub use capnp_copy_arenas::segments::BuilderArenaImpl;
pub use capnp_layout_builders::data_builder::DataBuilder;
pub use capnp_layout_builders::data_section::DataSection;
pub use capnp_layout_builders::element::BuilderElement;
pub use capnp_layout_builders::list_builder::ListBuilder;
pub use capnp_layout_builders::owned;
pub use capnp_layout_builders::owned::FromPointerBuilder;
pub use capnp_layout_builders::pointer_builder::PointerBuilder;
pub use capnp_layout_builders::struct_builder::StructBuilder;
pub use capnp_layout_builders::text_builder::TextBuilder;
pub use capnp_layout_builders::traits::SetterInput;
pub use capnp_layout_canonical::copy::copy_canonical_from;
pub use capnp_layout_canonical::measured::copy_canonical;
pub use capnp_layout_canonical::sets::{set_list_canonical, set_struct_canonical};
pub use capnp_text::{data, text};
pub use capnp_units::errors::{Error, Result};
pub use capnp_units::iter::{IndexMove, ItemIter, ListIndex, ListIter, ShortListIter};
pub use capnp_units::kinds::ErrorKind;
pub use capnp_units::limiter::ReadLimiter;
pub use capnp_units::primitive::{Mask, Primitive, Zero};
pub use capnp_units::segments::ReaderSegments;
pub use capnp_units::sizes::{
    ElementSize, MessageSize, PointerType, SegmentId, StructSize, WirePointerKind, Word,
    data_bits_per_element, pointers_per_element,
};
pub use capnp_units::units;
pub use capnp_wire::element::PrimitiveElement;
pub use capnp_wire::list::ListReader;
pub use capnp_wire::pointer::PointerReader;
pub use capnp_wire::structs::StructReader;
pub use capnp_wire::traits::{
    FromPointerReader, HasStructSize, HasTypeId, IntoInternalListReader, IntoInternalStructReader,
    Owned, OwnedStruct,
};
pub use capnp_wire_objects::arena::{NullArena, ReaderArena, ReaderArenaImpl};
pub use capnp_wire_objects::place::{Place, ROOT, has_words};
