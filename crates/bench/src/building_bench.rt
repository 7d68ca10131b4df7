//! Makes builder calls n times, so that their instructions can be counted.
ghost use Rattle.std.specs.Prelude.{◌≤◌, length};

use crate::building::{self, Task};
use crate::segments::Large;
use capnp_copy_arenas::allocator::Allocator;
use capnp_copy_arenas::arena::Memory;
use capnp_copy_arenas::segments::BuilderArenaImpl;
use capnp_units::errors::Result;
use std::alloc::Global;
use std::io;

/// Builds a message in segments of an allocator, which is returned.
fn build_in<A: Allocator + Drop>(
    alloc: Global,
    allocator: A,
    task: Task,
    count: u32,
) -> (Result<u64>, A)
    requires { length (A.loans allocator) ≤ 1 }
{
    let mut memory = Memory {
        arena: BuilderArenaImpl::new(alloc, allocator),
    };
    let made = building::build(&mut memory, task, count);
    let Memory { arena } = memory;
    (made, arena.into_allocator())
}

/// Fills 64 KiB with zeros n times.
fn fill(alloc: Global, count: u32) -> Result<u64> {
    let mut all = Vec::new(alloc);
    all.resize(building::BYTES as usize, 1)?;
    for i in 0..count {
        all.as_mut_slice().fill((i % 2) as u8);
    }
    Ok(all.as_slice().first().copied().unwrap_or(0) as u64)
}

/// Does the work, and returns its result.
fn made(alloc: Global, word: &str, count: u32) -> Result<u64> {
    let task = match word {
        "fields" => Task::Fields,
        "tests" => Task::Tests,
        "slots" => Task::Slots,
        "structs" => Task::Structs,
        "bytes" => Task::Bytes,
        _ => return fill(alloc, count),
    };
    let (made, _allocator) = build_in(alloc, Large { alloc }, task, count);
    made
}

/// Does the work that a word names n times, and prints the result.
pub fn build(rt: &HostRuntime, word: &str, count: u32) -> io::Result<()> {
    match made(rt.alloc(), word, count) {
        Ok(made) => println!(rt; "{word}: {made}"),
        Err(e) => println!(rt; "{word}: {e}"),
    }
}
