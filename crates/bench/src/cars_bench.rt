//! Builds, writes and reads car sales n times.
use crate::cars_building::build;
use crate::cars_reading::sum_of_cars;
use capnp_layout::Result;
use capnp_message::message::{Builder, DEFAULT_READER_OPTIONS};
use capnp_message::serialize::{read_message_from_flat_slice, write_message};
use std::alloc::Global;
use std::io;

/// Builds n cars in a message, and returns its number of words. Appends the message to the bytes if
/// they are given.
fn build_once(alloc: Global, count: u32, text: Option<&mut Vec<u8>>) -> Result<u64> {
    let mut message = Builder::new_default(alloc);
    let built = build(&mut message, count);
    let words = message.size_in_words() as u64;
    let written = match text {
        Some(text) if message.memory.arena.len() > 0 => write_message(alloc, text, &message),
        _ => Ok(()),
    };
    let _heap = message.into_allocator();
    built?;
    written?;
    Ok(words)
}

/// Builds n cars `rounds` times, and returns the words of the last message.
fn build_all(alloc: Global, count: u32, rounds: u32) -> Result<u64> {
    let mut words = 0;
    for _ in 0..rounds {
        words = build_once(alloc, count, None)?;
    }
    Ok(words)
}

/// Builds and writes n cars `rounds` times, and returns the bytes of the last message.
fn write_all(alloc: Global, count: u32, rounds: u32) -> Result<u64> {
    let mut text = Vec::new(alloc);
    for _ in 0..rounds {
        text.clear();
        build_once(alloc, count, Some(&mut text))?;
    }
    Ok(text.len() as u64)
}

/// Builds and writes n cars, reads them `rounds` times, and returns their sum.
fn read_all(alloc: Global, count: u32, rounds: u32) -> Result<u64> {
    let mut text = Vec::new(alloc);
    build_once(alloc, count, Some(&mut text))?;
    let mut sum = 0;
    for _ in 0..rounds {
        let mut left = text.as_slice();
        let message = read_message_from_flat_slice(alloc, &mut left, DEFAULT_READER_OPTIONS)?;
        sum = sum_of_cars(&message)?;
    }
    Ok(sum)
}

/// Builds, writes or reads `count` cars `rounds` times, as the word says, and prints the result of
/// the last round.
pub fn cars(rt: &HostRuntime, word: &str, count: u32, rounds: u32) -> io::Result<()> {
    let made = match word {
        "build" => build_all(rt.alloc(), count, rounds),
        "write" => write_all(rt.alloc(), count, rounds),
        _ => read_all(rt.alloc(), count, rounds),
    };
    match made {
        Ok(made) => println!(rt; "{word}: {made}"),
        Err(e) => println!(rt; "{word}: {e}"),
    }
}
