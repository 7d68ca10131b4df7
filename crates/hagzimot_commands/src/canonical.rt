//! Conversion of messages to canonical form.
ghost use Rattle.std.specs.Prelude.{◌≡◌, ◌≤◌, IfOk, OnOk, length};
ghost use Rattle.capnp_units.specs.Segments.{words_in};
ghost use Rattle.capnp_relay_loop.specs.Streams.{streams_of};
ghost use Rattle.capnp_relay_loop.specs.Pauses.{RelaysPausing};
ghost use Rattle.hagzimot_commands.specs.Answers.{ReadsWithinLimits, canonical_limits, canonical_work};

use capnp_model::laws::values_on_walks;
use capnp_relay_loop::answer::{MessageAnswer, Reason, Want};
use capnp_relay_loop::answers::Answers;
use capnp_relay_loop::ends::{Counts, RelayFault};
use capnp_relay_loop::pauses::Pause;
use capnp_relay_loop::run::answer_all;
use capnp_stream::buffers::NoAllocSliceSegments;
use capnp_stream::forms::MessageForm;
use capnp_stream_io::traits::{BufRead, Read, Write};
use capnp_units::errors::Error;
use capnp_units::kinds::ErrorKind;
use capnp_units::limiter::ReadLimiter;
use capnp_units::sizes::Word;
use capnp_wire_canonical::copy::write_canonical;
use capnp_wire_canonical::laws::copies_as_walks;
use capnp_wire_objects::arena::{ReaderArena, ReaderArenaImpl};
use capnp_wire_objects::place::ROOT;
use hagzimot_outcomes::notes::Notes;
use hagzimot_outcomes::watched::Watched;
use std::alloc::Global;

/// Limits of the messages whose canonical form is written.
#[derive(Clone, Copy, Debug, PartialEq, Eq, Drop)]
pub struct Canonical {
    /// The most words that a message may have, and that following its pointers may cost.
    pub words: u32,
    /// The most levels of pointers. The root's is the first, and a null pointer isn't a level.
    /// Following a message takes up to 850 bytes of stack for each level.
    pub nesting: u32,
}

/// Makes the buffer at least `count` words long. `OutOfMemory`: the buffer can't grow.
fn make_room(words: &mut Vec<Word>, count: usize) -> Result<(), Error>
    ensures { OnOk result (count ≤ length words.new.items) }
{
    if words.len() < count {
        words.resize(count, [0u8; 8])?;
    }
    Ok(())
}

/// Writes the canonical words of a message's value to the front of a buffer, and returns their
/// number. Returns `None` if the message has no value within the limits, or one with a capability.
/// `BufferNotLargeEnough`: the buffer has no room for the words.
fn write_within<M: ReaderArena>(
    message: &M,
    limits: Canonical,
    words: &mut Vec<Word>,
) -> Result<Option<usize>, Error>
    ensures { IfOk result (ReadsWithinLimits (canonical_limits limits)
        (words_in (M.segments message.now)) words.new.items) }
{
    values_on_walks();
    copies_as_walks();
    let mut limiter = ReadLimiter::new(Some(limits.words as u64));
    let into = words.as_mut_slice();
    match write_canonical(message, &mut limiter, ROOT, limits.nesting, into) {
        Ok(count) => Ok(Some(count)),
        Err(e) => match e.kind {
            ErrorKind::BufferNotLargeEnough => Err(e),
            _ => Ok(None),
        },
    }
}

/// Works as `write_within`, but lets the buffer grow if it has no room: first to the number of
/// words of the message. If pointers of the message share words, the buffer grows to one word more
/// than the limits allow. `OutOfMemory`: the buffer can't grow. `BufferNotLargeEnough`: there are
/// 2^29 canonical words or more.
pub fn write_value<M: ReaderArena>(
    message: &M,
    limits: Canonical,
    words: &mut Vec<Word>,
) -> Result<Option<usize>, Error>
    ensures { IfOk result (ReadsWithinLimits (canonical_limits limits)
        (words_in (M.segments message.now)) words.new.items) }
{
    make_room(words, message.size_in_words())?;
    match write_within(message, limits, words) {
        Err(e) if e.kind == ErrorKind::BufferNotLargeEnough => {}
        read => return read,
    }
    make_room(words, limits.words as usize + 1)?;
    write_within(message, limits, words)
}

impl Answers for Canonical {
    ghost use Rattle.hagzimot_commands.specs.Answers.{IsCanonicalAnswer, canonical_limits};

    ghost is_answer = { λ c. IsCanonicalAnswer (canonical_limits c) };

    ghost is_too_large = { λ _ _. ⊥ };

    fn answer(
        &self,
        alloc: Global,
        message: &NoAllocSliceSegments<'_>,
        _region: &mut [u8],
        words: &mut Vec<Word>,
    ) -> Result<MessageAnswer, Want> {
        let arena = ReaderArenaImpl::new(message, i32::MAX);
        match write_value(&arena, *self, words)? {
            Some(count) => Ok(MessageAnswer::Written {
                count,
                replies: Vec::new(alloc),
            }),
            None => Ok(MessageAnswer::Refused(Reason::Value)),
        }
    }
}

/// Writes the canonical form of each message of the source in turn: a segment with the canonical
/// words of the value of the message's root, which may be of any kind. The log has a line for each
/// message, `written` or `refused: value`. A message is refused, and skipped, if it has no value
/// within the limits, or one with a capability. Before each read the pause runs. (Encoding,
/// "Canonicalization")
///
/// `Framing`: the rest of the source doesn't begin with a message. `Source`, `Out`, `Log`: the
/// device failed, or a sink has no room. `Memory`: an allocation was refused, or there are 2^29
/// canonical words or more. `Size`: the message has the number 2^64. What was written before the
/// error remains. The outcome of each message is noted before its line is logged.
pub fn canonicalize_all<
    I: MessageForm,
    O: MessageForm,
    R: BufRead,
    W: Write,
    L: Write,
    P: Pause<R, W, L>,
    N: Notes,
>(
    alloc: Global,
    source: &mut R,
    out: &mut W,
    log: &mut L,
    limits: Canonical,
    notes: &N,
) -> Result<Counts, RelayFault>
    ensures { let seen = streams_of ⟦<R as Read>⟧ ⟦<W as Write>⟧ ⟦<L as Write>⟧ in
        RelaysPausing P.may_fail (canonical_work I.reader O.writer limits W.may_grow L.may_grow)
        (seen source.old out.old log.old) (seen source.new out.new log.new) result }
{
    let mut region = [0u8; 8];
    let watched = Watched {
        answers: &limits,
        notes,
        is_strict: false,
        skips: None,
    };
    answer_all::<I, O, R, W, L, Watched<'_, '_, '_, '_, Canonical, N>, P>(
        alloc,
        source,
        out,
        log,
        &watched,
        limits.words as usize,
        &mut region,
    )
}
