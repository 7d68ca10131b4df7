//! Messages that are built by a function, which doesn't have to end them.
ghost use Rattle.std.specs.Prelude.{◌≡◌, []};
ghost use Rattle.std.specs.Fn.{FnOnceReturnsAtMut};

use crate::builder::Builder;
use capnp_message_allocators::heap::HeapAllocator;
use std::alloc::Global;

/// Hands a new message on the heap, which has no segment yet, to a function, and then frees the
/// message's memory. Returns the result of the function.
///
/// A `Builder` isn't dropped, so a function that holds a builder can't leave by `?`. The function
/// that is called here only borrows the builder, so it can.
pub fn with_message<R, F: FnOnce(&mut Builder<HeapAllocator>) -> R>(alloc: Global, build: F) -> R
    requires { F.IsAlwaysCallable build }
    ensures { (new : _) × (built : _) × (new.memory.arena.segments.items ≡ [])
        × FnOnceReturnsAtMut F.FnOnce build new result built }
{
    let mut message = Builder::new_default(alloc);
    let result = build(&mut message);
    // A message isn't dropped: this gives its memory back.
    let _heap = message.into_allocator();
    result
}
