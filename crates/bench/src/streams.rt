//! Unpacks and packs files of messages, many times over.
use crate::packing::{pack_message, unpack_message};
use capnp_units::errors::Result;
use std::time::Instant;
use std::{fs, io};

/// The most bytes of a message.
const MOST: usize = 2 * 1024 * 1024;

/// The bytes that were read or written in one round.
#[derive(Clone, Copy)]
struct Round {
    messages: u64,
    bytes: u64,
}

fn unpack_all(text: &[u8], words: &mut [u8]) -> Result<Round> {
    let mut source = text;
    let mut round = Round {
        messages: 0,
        bytes: 0,
    };
    for _ in 0..text.len() {
        if source.is_empty() {
            break;
        }
        let len = unpack_message(&mut source, words)?;
        round.messages = round.messages.wrapping_add(1);
        round.bytes = round.bytes.wrapping_add(len as u64);
    }
    Ok(round)
}

fn pack_all(framed: &[u8], out: &mut Vec<u8>) -> Result<Round> {
    let mut left = framed;
    let mut messages = 0u64;
    for _ in 0..framed.len() {
        if left.is_empty() {
            break;
        }
        left = pack_message(out, left)?;
        messages = messages.wrapping_add(1);
    }
    Ok(Round {
        messages,
        bytes: out.len() as u64,
    })
}

/// Returns a digest of bytes, to tell them apart.
fn digest(bytes: &[u8]) -> u64 {
    let mut sum = 0xcbf2_9ce4_8422_2325u64;
    for byte in bytes {
        sum = (sum ^ *byte as u64).wrapping_mul(0x100_0000_01b3);
    }
    sum
}

/// Returns the nanoseconds since a point in time.
fn nanos(rt: &HostRuntime, start: Instant) -> io::Result<u64> {
    Ok(start.elapsed(rt)?.as_nanos().min(u64::MAX as u128) as u64)
}

/// Reports how fast n packed bytes were read or written in the fastest round.
fn tell_best(rt: &HostRuntime, what: &str, bytes: usize, best: u64) -> io::Result<()> {
    let rate = bytes as u128 * 1_000_000_000 / best.max(1) as u128;
    eprintln!(rt; "{what}: {rate} bytes a second")
}

fn tell_round(rt: &HostRuntime, round: &Result<Round>, bytes: &[u8]) -> io::Result<()> {
    match round {
        Ok(round) => println!(rt;
            "{} messages, {} bytes, {:x}",
            round.messages,
            round.bytes,
            digest(bytes)
        ),
        Err(e) => println!(rt; "{e}"),
    }
}

fn unpack_round(
    rt: &HostRuntime,
    text: &[u8],
    words: &mut [u8],
) -> io::Result<(Result<Round>, u64)> {
    let start = Instant::now(rt)?;
    let round = unpack_all(text, words);
    Ok((round, nanos(rt, start)?))
}

fn pack_round(
    rt: &HostRuntime,
    framed: &[u8],
    out: &mut Vec<u8>,
) -> io::Result<(Result<Round>, u64)> {
    out.clear();
    let start = Instant::now(rt)?;
    let round = pack_all(framed, out);
    Ok((round, nanos(rt, start)?))
}

/// Unpacks the packed messages of a file n times.
pub fn unpack(rt: &HostRuntime, path: &str, rounds: u32) -> io::Result<()> {
    let text = fs::read(rt, path)?;
    let mut words = vec![in rt.alloc(); 0u8; MOST]?;
    let (mut last, mut best) = unpack_round(rt, &text, &mut words)?;
    for _ in 0..rounds {
        let (round, time) = unpack_round(rt, &text, &mut words)?;
        last = round;
        best = best.min(time);
    }
    tell_best(rt, "unpacked", text.len(), best)?;
    tell_round(rt, &last, &words)
}

/// Packs the framed messages of a file n times.
pub fn pack(rt: &HostRuntime, path: &str, rounds: u32) -> io::Result<()> {
    let framed = fs::read(rt, path)?;
    let mut out = Vec::new(rt.alloc());
    let (mut last, mut best) = pack_round(rt, &framed, &mut out)?;
    for _ in 0..rounds {
        let (round, time) = pack_round(rt, &framed, &mut out)?;
        last = round;
        best = best.min(time);
    }
    tell_best(rt, "packed", out.len(), best)?;
    tell_round(rt, &last, &out)
}
