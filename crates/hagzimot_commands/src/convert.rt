//! Conversion of messages to another form.
ghost use Rattle.capnp_relay_loop.specs.Streams.{streams_of};
ghost use Rattle.capnp_relay_loop.specs.Pauses.{RelaysPausing};
ghost use Rattle.hagzimot_commands.specs.Answers.{convert_work};

use crate::copies::copy_segments;
use capnp_relay_loop::answer::{MessageAnswer, Want};
use capnp_relay_loop::answers::Answers;
use capnp_relay_loop::ends::{Counts, RelayFault};
use capnp_relay_loop::pauses::Pause;
use capnp_relay_loop::run::answer_all;
use capnp_stream::buffers::NoAllocSliceSegments;
use capnp_stream::forms::MessageForm;
use capnp_stream_io::traits::{BufRead, Read, Write};
use capnp_units::segments::ReaderSegments;
use capnp_units::sizes::Word;
use std::alloc::Global;

/// Answers that are the messages themselves.
#[derive(Clone, Copy, Debug, Drop)]
struct Unchanged;

impl Answers for Unchanged {
    ghost use Rattle.hagzimot_commands.specs.Answers.{IsUnchanged, IsNoMessage};

    ghost is_answer = { λ _. IsUnchanged };

    ghost is_too_large = { λ _. IsNoMessage };

    fn answer(
        &self,
        alloc: Global,
        message: &NoAllocSliceSegments<'_>,
        _region: &mut [u8],
        _words: &mut Vec<Word>,
    ) -> Result<MessageAnswer, Want> {
        if message.is_empty() {
            return Err(Want::Size);
        }
        let segments = copy_segments(alloc, message)?;
        Ok(MessageAnswer::Several {
            segments,
            replies: Vec::new(alloc),
        })
    }
}

/// Writes each message of the source in turn, in another form and with the same segments, word for
/// word. The log has a line `message N written` for each message. A message has at most `limit`
/// words. Before each read the pause runs.
///
/// `Framing`: the rest of the source doesn't begin with a message. `Source`, `Out`, `Log`: the
/// device failed, or a sink has no room. `Memory`: an allocation was refused, or a segment has 2^29
/// words or more. `Size`: the message has the number 2^64. What was written before the error
/// remains. (Encoding, "Serialization Over a Stream")
pub fn convert_all<
    I: MessageForm,
    O: MessageForm,
    R: BufRead,
    W: Write,
    L: Write,
    P: Pause<R, W, L>,
>(
    alloc: Global,
    source: &mut R,
    out: &mut W,
    log: &mut L,
    limit: usize,
) -> Result<Counts, RelayFault>
    ensures { let seen = streams_of ⟦<R as Read>⟧ ⟦<W as Write>⟧ ⟦<L as Write>⟧ in
        RelaysPausing P.may_fail (convert_work I.reader O.writer limit W.may_grow L.may_grow)
        (seen source.old out.old log.old) (seen source.new out.new log.new) result }
{
    let mut region = [0u8; 8];
    answer_all::<I, O, R, W, L, Unchanged, P>(
        alloc,
        source,
        out,
        log,
        &Unchanged,
        limit,
        &mut region,
    )
}
