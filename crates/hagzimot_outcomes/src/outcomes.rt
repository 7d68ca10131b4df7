//! Outcomes of a message and of its calls.
ghost use Rattle.std.specs.Prelude.{◌≡◌, Some, map, IfOk};
ghost use Rattle.capnp_calls.specs.Replies.{reply_view};
ghost use Rattle.hagzimot_outcomes.specs.Outcomes.{reply_told, is_refusal, refused_place, told_each, refused_count};

use capnp_calls::reply::Reply;
use capnp_relay_loop::answer::Reason;
use capnp_units::kinds::ErrorKind;
use std::alloc::{AllocError, Global};

/// The outcome of a call.
#[derive(Debug, Drop)]
pub enum CallOutcome {
    /// The text of a `get`.
    Text(Vec<u8>),
    Done,
    Refused(ErrorKind),
    /// The call did not run, because the member that it clears is not active.
    Skipped,
}

/// A refused call: its number, counted from 1, and the kind of the refusal.
#[derive(Clone, Copy, Debug, PartialEq, Eq)]
pub struct RefusedCall {
    pub number: usize,
    pub kind: ErrorKind,
}

/// The reason for which a message is not edited.
#[derive(Clone, Copy, Debug, PartialEq, Eq)]
pub enum Cause {
    /// The message has no answer.
    Message(Reason),
    /// A call was refused, and the run is strict.
    Call(RefusedCall),
}

/// The outcome of a message.
#[derive(Debug, Drop)]
pub enum Outcome {
    /// The message was written, and each of this number of calls was done.
    Done(usize),
    /// The message was written, after these calls.
    Written(Vec<CallOutcome>),
    /// The message was written unedited.
    Unedited(Cause),
    /// The message was not written.
    Refused(Cause),
}

/// Returns a copy of a reply.
fn copy_of(alloc: Global, reply: &Reply) -> Result<CallOutcome, AllocError>
    ensures { IfOk result (λ told. reply_told told ≡ Some (reply_view reply.now)) }
{
    match reply {
        Reply::Text(text) => Ok(CallOutcome::Text(text.to_vec(alloc)?)),
        Reply::Done => Ok(CallOutcome::Done),
        Reply::Refused(kind) => Ok(CallOutcome::Refused(*kind)),
    }
}

/// Returns copies of replies, each as the outcome of a call. Returns an error if an allocation is
/// refused.
pub fn outcomes_of(alloc: Global, replies: &[Reply]) -> Result<Vec<CallOutcome>, AllocError>
    ensures { IfOk result (λ calls. map reply_told calls.items ≡ told_each replies.now) }
{
    let mut calls = Vec::new(alloc);
    for reply in replies {
        calls.push(copy_of(alloc, reply)?)?;
    }
    Ok(calls)
}

/// Tests whether a call was refused.
fn is_refused(reply: &Reply) -> bool
    ensures { result ≡ is_refusal (reply_view reply.now) }
{
    matches!(reply, Reply::Refused(_))
}

/// Returns the number of calls that were refused.
#[inline(never)]
pub fn refused_calls(replies: &[Reply]) -> usize
    ensures { result ≡ refused_count replies.now }
{
    replies.iter().filter(|reply| is_refused(*reply)).count()
}

/// Returns the place of the first call that was refused, counted from 0.
pub fn first_refusal(replies: &[Reply]) -> Option<usize>
    ensures { result ≡ refused_place replies.now }
{
    replies.iter().position(|reply| is_refused(reply))
}
