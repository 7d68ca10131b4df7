//! Messages that go from a source to a sink as they came.
ghost use Rattle.std.specs.Prelude.{◌≡◌, ◌≢◌, ◌<◌, ℕ, IfErr, OnOk, IsErrAnd};
ghost use Rattle.capnp_units.specs.declared.kinds.ErrorKind.{ErrorKind};
ghost use Rattle.capnp_relay_loop.specs.declared.ends.Fault.{Fault};
ghost use Rattle.capnp_relay_loop.specs.Stops.{ReadIsToldAs};
ghost use Rattle.hagzimot_pieces.specs.Pieces.{CopiesNext, CopiesUpTo, copying, flow_of};

use capnp_relay_loop::ends::Fault;
use capnp_stream::forms::MessageForm;
use capnp_stream::kept::MessageBuffer;
use capnp_stream::messages::write_message_segments_in;
use capnp_stream_io::traits::{BufRead, Read, Write};
use capnp_units::errors::Error;
use capnp_units::kinds::ErrorKind;
use std::alloc::Global;

/// The fault that ends a copy of messages, and the number of messages before it.
#[derive(Clone, Copy, Debug, PartialEq, Eq)]
pub struct CopyFault {
    pub fault: Fault,
    /// The number of messages that were copied whole.
    pub copied: u64,
}

/// Returns the fault of a refused read.
fn read_fault(e: Error) -> Result<bool, Fault>
    ensures { IsErrAnd result (ReadIsToldAs e.kind) }
{
    match e.kind {
        ErrorKind::OutOfMemory => Err(Fault::Memory),
        ErrorKind::Device => Err(Fault::Source),
        kind => Err(Fault::Framing(kind)),
    }
}

/// Returns the fault of a refused write.
fn write_fault(e: Error) -> Fault
    ensures memory { e.kind ≡ ErrorKind.OutOfMemory → result ≡ Fault.Memory }
    ensures other { e.kind ≢ ErrorKind.OutOfMemory → result ≡ Fault.Out }
{
    match e.kind {
        ErrorKind::OutOfMemory => Fault::Memory,
        _ => Fault::Out,
    }
}

/// Copies the next message of the source to the sink. Returns `false` at the end of the source.
fn copy_next<I: MessageForm, O: MessageForm, R: BufRead, W: Write>(
    alloc: Global,
    buffer: &mut MessageBuffer,
    source: &mut R,
    out: &mut W,
    limit: usize,
) -> Result<bool, Fault>
    ensures { let seen = flow_of ⟦<R as Read>⟧ ⟦<W as Write>⟧ in
        CopiesNext (copying I.reader O.writer limit) (seen source.old out.old)
        (seen source.new out.new) result }
{
    let message = match buffer.try_read_message::<I, R>(source, Some(limit)) {
        Ok(Some(message)) => message,
        Ok(None) => return Ok(false),
        Err(e) => return read_fault(e),
    };
    match write_message_segments_in::<O, W, _>(alloc, out, &message) {
        Ok(()) => Ok(true),
        Err(e) => Err(write_fault(e)),
    }
}

/// Copies at most `most` messages from the source to the sink, each with its segments. Returns the
/// number of messages, which is smaller only if the source is then at its end. A message has at
/// most `limit` words. The buffer holds each message in turn. (Encoding, "Serialization Over a
/// Stream")
///
/// Errors, after which the earlier messages have been copied whole:
/// - `Framing`: the rest of the source does not begin with a message;
/// - `Source`, `Out`: the device failed, or the sink has no room;
/// - `Memory`: the memory for a message or its table was refused.
pub fn copy_messages<I: MessageForm, O: MessageForm, R: BufRead, W: Write>(
    alloc: Global,
    buffer: &mut MessageBuffer,
    source: &mut R,
    out: &mut W,
    limit: usize,
    most: u64,
) -> Result<u64, CopyFault>
    ensures { let seen = flow_of ⟦<R as Read>⟧ ⟦<W as Write>⟧ in
        CopiesUpTo (copying I.reader O.writer limit) most (seen source.old out.old)
        (seen source.new out.new) result }
{
    let mut copied: u64 = 0;
    while copied < most {
        match copy_next::<I, O, R, W>(alloc, buffer, source, out, limit) {
            Ok(true) => copied += 1,
            Ok(false) => return Ok(copied),
            Err(fault) => return Err(CopyFault { fault, copied }),
        }
    }
    Ok(copied)
}
