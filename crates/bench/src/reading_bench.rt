//! Reads a large list of structs and a long text.
use crate::reading::{letters_of_text, sum_of_structs};
use crate::reading_samples;
use std::io;
use std::time::Instant;

/// The most structs.
const MOST: u32 = 10_000_000;

/// Reports how fast n bytes were read.
fn tell(rt: &HostRuntime, what: &str, bytes: usize, start: Instant) -> io::Result<()> {
    let micros = start.elapsed(rt)?.as_micros().max(1);
    let rate = bytes as u128 * 1_000_000 / micros;
    eprintln!(rt; "{what}: {bytes} bytes in {micros} us, {rate} bytes a second")
}

fn read_structs(rt: &HostRuntime, count: u32) -> io::Result<()> {
    let bytes = reading_samples::structs(rt.alloc(), count.min(MOST))?;
    let start = Instant::now(rt)?;
    let read = sum_of_structs(&bytes);
    tell(rt, "structs", bytes.len(), start)?;
    match read {
        Ok((sum, nulls)) => println!(rt; "structs: sum {sum}, {nulls} nulls"),
        Err(e) => println!(rt; "structs: {e}"),
    }
}

fn read_text(rt: &HostRuntime, len: u32) -> io::Result<()> {
    let bytes = reading_samples::text(rt.alloc(), len.min(16 * MOST))?;
    let start = Instant::now(rt)?;
    let read = letters_of_text(&bytes);
    tell(rt, "text", bytes.len(), start)?;
    match read {
        Ok(letters) => println!(rt; "text: {letters} letters"),
        Err(e) => println!(rt; "text: {e}"),
    }
}

/// Reads n structs of 16 bytes each, and a text of 16 times as many bytes.
pub fn read(rt: &HostRuntime, count: u32) -> io::Result<()> {
    let count = count.min(MOST);
    read_structs(rt, count)?;
    read_text(rt, 16 * count)
}
