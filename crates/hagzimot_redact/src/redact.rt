//! Messages that go out without the fields that are named and without what their schema lacks.
ghost use Rattle.capnp_relay_loop.specs.Streams.{streams_of};
ghost use Rattle.capnp_relay_loop.specs.Pauses.{RelaysPausing};
ghost use Rattle.hagzimot_redact.specs.Redacted.{redacted_work};

use crate::plan::{Plan, Plans};
use crate::walk::{Copier, CopyTrouble, MOST_LEVELS, Target};
use capnp_relay_loop::answer::{MessageAnswer, Reason, Want};
use capnp_relay_loop::answers::Answers;
use capnp_relay_loop::ends::{Counts, RelayFault};
use capnp_relay_loop::pauses::Pause;
use capnp_relay_loop::run::answer_all;
use capnp_stream::buffers::NoAllocSliceSegments;
use capnp_stream::forms::MessageForm;
use capnp_stream_io::traits::{BufRead, Read, Write};
use capnp_units::limiter::ReadLimiter;
use capnp_units::sizes::{Word, words_as_bytes};
use capnp_values_queries::structs::StructSchema;
use capnp_wire::pointer::PointerReader;
use capnp_wire::structs::StructReader;
use capnp_wire_objects::arena::{ReaderArena, ReaderArenaImpl};
use hagzimot_commands::canonical::{Canonical, write_value};
use hagzimot_make::draft::Draft;
use hagzimot_outcomes::notes::Notes;
use hagzimot_outcomes::watched::Watched;
use std::alloc::Global;

/// Clears fields, and drops what the schema does not know.
#[derive(Clone, Copy)]
pub struct Redaction<'a> {
    /// The struct at the root of messages.
    pub root: StructSchema<'a>,
    /// The fields that are cleared.
    pub plan: &'a Plan,
    /// The limits within which messages are followed.
    pub limits: Canonical,
}

/// Copies the root struct of an arena, without what is cleared or unknown.
fn copy_root<A: ReaderArena>(
    copier: Copier<'_>,
    draft: &mut Draft,
    reader: StructReader<'_, A>,
    plan: &Plan,
) -> Result<(), CopyTrouble> {
    let schema = copier.root;
    let record = schema.record();
    let into = draft.add_struct(0, record.data_word_count, record.pointer_count)?;
    let plans = Plans::of(copier.alloc, plan)?;
    copier.put_struct(draft, reader, Target { schema, into }, &plans, MOST_LEVELS)
}

/// Copies the value of an arena, and returns whether there is a copy: of a list at the root there is
/// none.
fn copy_value<A: ReaderArena>(
    copier: Copier<'_>,
    draft: &mut Draft,
    arena: &A,
    plan: &Plan,
) -> Result<bool, CopyTrouble> {
    let pointer = PointerReader::get_root_from_arena(arena)?;
    if pointer.is_null() {
        return Ok(true);
    }
    let mut unlimited = ReadLimiter::new(None);
    let Ok(reader) = pointer.get_struct(&mut unlimited, None) else {
        return Ok(false);
    };
    copy_root(copier, draft, reader, plan)?;
    Ok(true)
}

/// Copies a message of one segment, which has a value, without what is cleared or unknown. `None` if
/// its root is a list.
fn copy_segment(
    copier: Copier<'_>,
    segment: &[u8],
    plan: &Plan,
) -> Result<Option<Draft>, CopyTrouble> {
    let mut draft = Draft::new(copier.alloc)?;
    let segments = [segment];
    let arena = ReaderArenaImpl::new(segments.as_slice(), i32::MAX);
    if copy_value(copier, &mut draft, &arena, plan)? {
        Ok(Some(draft))
    } else {
        Ok(None)
    }
}

impl Answers for Redaction<'_> {
    ghost use Rattle.hagzimot_redact.specs.Redacted.{IsRedactedAnswer};
    ghost use Rattle.hagzimot_commands.specs.Answers.{canonical_limits};

    ghost is_answer = { λ r. IsRedactedAnswer (canonical_limits r.limits) };

    ghost is_too_large = { λ _ _. ⊥ };

    fn answer(
        &self,
        alloc: Global,
        message: &NoAllocSliceSegments<'_>,
        _region: &mut [u8],
        words: &mut Vec<Word>,
    ) -> Result<MessageAnswer, Want> {
        let arena = ReaderArenaImpl::new(message, i32::MAX);
        let count = match write_value(&arena, self.limits, words)? {
            Some(count) => count,
            None => return Ok(MessageAnswer::Refused(Reason::Value)),
        };
        let copier = Copier {
            alloc,
            root: self.root,
        };
        let copy = copy_segment(copier, words_as_bytes(&words[..count]), self.plan);
        let draft = match copy {
            Ok(Some(draft)) => draft,
            Ok(None) => return Ok(MessageAnswer::Refused(Reason::Root)),
            Err(CopyTrouble::Unreadable) => return Ok(MessageAnswer::Refused(Reason::Value)),
            Err(CopyTrouble::Memory) => return Err(Want::Memory),
        };
        let segments = [draft.as_bytes()];
        let arena = ReaderArenaImpl::new(segments.as_slice(), i32::MAX);
        match write_value(&arena, self.limits, words)? {
            Some(count) => Ok(MessageAnswer::Written {
                count,
                replies: Vec::new(alloc),
            }),
            None => Ok(MessageAnswer::Refused(Reason::Value)),
        }
    }
}

/// Writes each message of the source in turn, in one form and canonical, with only the fields that
/// the schema knows and the plan leaves. Untyped pointers and capabilities are null in it. The log
/// has a line for each message, `written`, `refused: value` or `refused: root`. A message that can't
/// be read under the schema is refused with `value`. Before each read there is a pause.
///
/// Errors are those of `canonicalize_all`. What was written before stays written.
pub fn redact_all<
    I: MessageForm,
    O: MessageForm,
    R: BufRead,
    W: Write,
    L: Write,
    P: Pause<R, W, L>,
    N: Notes,
>(
    alloc: Global,
    source: &mut R,
    out: &mut W,
    log: &mut L,
    redaction: Redaction<'_>,
    notes: &N,
) -> Result<Counts, RelayFault>
    ensures { let seen = streams_of ⟦<R as Read>⟧ ⟦<W as Write>⟧ ⟦<L as Write>⟧ in
        RelaysPausing P.may_fail
        (redacted_work I.reader O.writer redaction.entry.limits W.may_grow L.may_grow)
        (seen source.old out.old log.old) (seen source.new out.new log.new) result }
{
    let mut region = [0u8; 8];
    let watched = Watched {
        answers: &redaction,
        notes,
        is_strict: false,
        skips: None,
    };
    answer_all::<I, O, R, W, L, Watched<'_, '_, '_, '_, Redaction<'_>, N>, P>(
        alloc,
        source,
        out,
        log,
        &watched,
        redaction.limits.words as usize,
        &mut region,
    )
}
