//! The pieces of a stream: messages that follow one another, and what is between them.
ghost use Rattle.std.specs.Prelude.{◌≡◌, ◌≤◌, ◌<◌, length, All, IfOk, IfErr};
ghost use Rattle.capnp_units.specs.declared.kinds.ErrorKind.{ErrorKind};
ghost use Rattle.hagzimot_salvage.specs.Pieces.{IsRun, IsSettledRun, GapEnds, ArePieces, IsCut, IsWithin, whole_stream};

use crate::frames::{frame_len, next_frame, settled_len};
use crate::roots::SalvageLimits;
use capnp_units::errors::Result;
use std::alloc::Global;

/// A piece of a stream, from a byte up to another.
#[derive(Clone, Copy, Debug, PartialEq, Eq)]
pub enum Piece {
    /// Messages that follow one another.
    Messages { at: usize, end: usize, count: u64 },
    /// Bytes that begin with no message, up to the next plausible one or the end.
    Gap { at: usize, end: usize },
}

/// Messages that follow one another.
#[derive(Clone, Copy)]
struct Run {
    end: usize,
    count: u64,
}

/// Returns the messages that follow one another from a byte on.
fn run_from(bytes: &[u8], at: usize, limit: usize) -> Run
    requires { at ≤ length bytes.now }
    ensures { IsRun limit bytes.now at result.end result.count }
{
    let mut end = at;
    let mut count: u64 = 0;
    while let Some(len) = frame_len(&bytes[end..], limit) {
        end += len;
        count += 1;
    }
    Run { end, count }
}

/// Returns the settled messages that follow one another from a byte on.
fn settled_run(alloc: Global, bytes: &[u8], at: usize, limits: SalvageLimits) -> Result<Run>
    requires { at ≤ length bytes.now }
    ensures run { IfOk result (λ r. IsSettledRun limits bytes.now at r.end r.count) }
    ensures refusal { IfErr result (λ e. e.kind ≡ ErrorKind.OutOfMemory) }
{
    let mut end = at;
    let mut number: u64 = 0;
    while let Some(len) = settled_len(alloc, &bytes[end..], limits)? {
        end += len;
        number += 1;
    }
    Ok(Run { end, count: number })
}

/// Returns the end of the gap that begins at a byte.
fn gap_end(alloc: Global, bytes: &[u8], at: usize, limits: SalvageLimits) -> Result<usize>
    requires { at < length bytes.now }
    ensures end { IfOk result (GapEnds limits bytes.now at) }
    ensures refusal { IfErr result (λ e. e.kind ≡ ErrorKind.OutOfMemory) }
{
    match next_frame(alloc, bytes, at, limits)? {
        Some(next) => Ok(next),
        None => Ok(bytes.len()),
    }
}

/// Returns the pieces from the first byte on, if the stream has a fault.
fn cut(alloc: Global, bytes: &[u8], limits: SalvageLimits) -> Result<Vec<Piece>>
    ensures pieces { IfOk result (λ v. ArePieces limits bytes.now 0 v.items (length bytes.now)) }
    ensures refusal { IfErr result (λ e. e.kind ≡ ErrorKind.OutOfMemory) }
{
    let mut pieces = Vec::new(alloc);
    let mut at = 0;
    while at < bytes.len() {
        let run = settled_run(alloc, bytes, at, limits)?;
        if run.count > 0 {
            pieces.push(Piece::Messages {
                at,
                end: run.end,
                count: run.count,
            })?;
            at = run.end;
        } else {
            let end = gap_end(alloc, bytes, at, limits)?;
            pieces.push(Piece::Gap { at, end })?;
            at = end;
        }
    }
    Ok(pieces)
}

/// Returns the piece of a stream of n bytes and messages without a fault.
fn whole_stream(alloc: Global, end: usize, count: u64) -> Result<Vec<Piece>>
    ensures piece { IfOk result (λ v. v.items ≡ whole_stream end count) }
    ensures refusal { IfErr result (λ e. e.kind ≡ ErrorKind.OutOfMemory) }
{
    let mut pieces = Vec::new(alloc);
    if count == 0 {
        return Ok(pieces);
    }
    pieces.push(Piece::Messages { at: 0, end, count })?;
    Ok(pieces)
}

/// Returns the pieces of a stream, in order. They are adjacent and cover it: no byte is in two of
/// them, or in none.
///
/// A stream without a fault of framing is one piece. Otherwise the settled messages that follow one
/// another, from the start and from the end of each gap, are one piece: a message is settled if it
/// has a root, or if nothing or a message with a root follows it. Where none begins is a gap, up to
/// the first plausible message. It takes 32 bytes of memory for each piece. `OutOfMemory`: memory
/// was refused.
pub fn pieces(alloc: Global, bytes: &[u8], limits: SalvageLimits) -> Result<Vec<Piece>>
    ensures pieces { IfOk result (λ v. IsCut limits bytes.now v.items) }
    ensures within { IfOk result (λ v. All (IsWithin bytes.now) v.items) }
    ensures refusal { IfErr result (λ e. e.kind ≡ ErrorKind.OutOfMemory) }
{
    let run = run_from(bytes, 0, limits.message_words);
    if run.end < bytes.len() {
        let parts = cut(alloc, bytes, limits)?;
        return Ok(parts);
    }
    let whole = whole_stream(alloc, bytes.len(), run.count)?;
    Ok(whole)
}
