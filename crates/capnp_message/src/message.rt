//! Messages, under the names that users of the library expect.
pub use crate::builder::Builder;
pub use crate::options::{DEFAULT_READER_OPTIONS, ReaderOptions};
pub use crate::placed::{
    BlobPlace, DataPlace, OwnedPlaced, Placed, PlacedStruct, PointerPlace, StructPlace, StructSize,
    TextPlace,
};
pub use crate::reader::{Reader, SegmentArray};
pub use crate::roots::root_of;
pub use crate::scoped::with_message;
pub use crate::typed::TypedReader;
pub use crate::typed_builder::TypedBuilder;
pub use capnp_copy_arenas::allocator::Allocator;
pub use capnp_message_allocators::growth::{
    AllocationStrategy, SUGGESTED_ALLOCATION_STRATEGY, SUGGESTED_FIRST_SEGMENT_WORDS,
};
pub use capnp_message_allocators::heap::HeapAllocator;
pub use capnp_message_allocators::scratch::ScratchSpaceHeapAllocator;
pub use capnp_message_allocators::single::SingleSegmentAllocator;
pub use capnp_units::segments::ReaderSegments;
