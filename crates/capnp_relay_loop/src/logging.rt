//! The line of the log for a message.
ghost use Rattle.std.specs.Prelude.{◌≡◌, ◌+◌, ◌++◌, List, ℕ, [], codes, decimal, length, replicate, IfOk, OnOk};
ghost use Rattle.std.specs.List.{flat_map};
ghost use Rattle.capnp_model.specs.Answers.{reply_done};
ghost use Rattle.capnp_model.specs.Runs.{reply_words, answer_words, line_of};
ghost use Rattle.capnp_calls.specs.Replies.{reply_view};
ghost use Rattle.capnp_relay_loop.specs.MessageAnswers.{answer_view, refusal_view};

use crate::answer::{MessageAnswer, Reason};
use capnp_calls::reply::Reply;
use itoa::Buffer;
use std::alloc::AllocError;

/// Appends a reply.
#[inline]
fn push_reply(line: &mut Vec<u8>, reply: &Reply) -> Result<(), AllocError>
    ensures { OnOk result (line.new.items ≡ line.old.items ++ reply_words (reply_view reply.now)) }
{
    match reply {
        Reply::Text(text) => line.extend_from_slice(text),
        Reply::Done => line.extend_from_slice(b"done"),
        Reply::Refused(kind) => {
            line.extend_from_slice(b"refused ")?;
            line.extend_from_slice(kind.name().as_bytes())
        }
    }
}

/// Appends each reply after a semicolon.
fn push_replies(line: &mut Vec<u8>, replies: &[Reply]) -> Result<(), AllocError>
    ensures { OnOk result
        (line.new.items
        ≡ line.old.items ++ flat_map (λ r. codes "; " ++ reply_words (reply_view r)) replies.now) }
{
    for reply in replies {
        line.extend_from_slice(b"; ")?;
        push_reply(line, reply)?;
    }
    Ok(())
}

/// Appends the replies of n calls that are done, each after a semicolon.
fn push_done(line: &mut Vec<u8>, calls: usize) -> Result<(), AllocError>
    ensures { OnOk result (line.new.items ≡ line.old.items
        ++ flat_map (λ r. codes "; " ++ reply_words r) (replicate calls reply_done)) }
{
    for _call in 0..calls {
        line.extend_from_slice(b"; done")?;
    }
    Ok(())
}

/// Returns the log's text for a message that is skipped.
#[inline]
fn refusal_words(reason: Reason) -> &'static [u8]
    ensures { result.now ≡ answer_words (refusal_view reason) }
{
    match reason {
        Reason::Value => b"refused: value",
        Reason::Root => b"refused: root",
        Reason::Depth => b"refused: depth",
    }
}

/// Appends the log's text for an answer.
fn push_answer(line: &mut Vec<u8>, answer: &MessageAnswer) -> Result<(), AllocError>
    ensures { (words : List (List ℕ)) → OnOk result
        (line.new.items ≡ line.old.items ++ answer_words (answer_view words answer.now)) }
{
    match answer {
        MessageAnswer::Written { count: _, replies } => {
            line.extend_from_slice(b"written")?;
            push_replies(line, replies)
        }
        MessageAnswer::Done { count: _, calls } => {
            line.extend_from_slice(b"written")?;
            push_done(line, *calls)
        }
        MessageAnswer::Several {
            segments: _,
            replies,
        } => {
            line.extend_from_slice(b"written")?;
            push_replies(line, replies)
        }
        MessageAnswer::Refused(reason) => line.extend_from_slice(refusal_words(*reason)),
    }
}

/// Appends a number in decimal.
#[inline]
fn push_number(line: &mut Vec<u8>, number: u64) -> Result<(), AllocError>
    ensures { OnOk result (line.new.items ≡ line.old.items ++ decimal number) }
{
    let mut buffer = Buffer::new();
    line.extend_from_slice(buffer.format(number).as_bytes())
}

/// Replaces the bytes by the line of the answer to message `number`; the buffer grows if it has no
/// room for the line. It returns the position of the last digit of the number.
pub(crate) fn log_line(
    line: &mut Vec<u8>,
    number: u64,
    answer: &MessageAnswer,
) -> Result<usize, AllocError>
    ensures line { (words : List (List ℕ)) → OnOk result
        (line.new.items ≡ line_of number (answer_view words answer.now)) }
    ensures digit { IfOk result (λ digit. digit + 1 ≡ 8 + length (decimal number)) }
{
    line.clear();
    line.extend_from_slice(b"message ")?;
    push_number(line, number)?;
    let behind = line.len();
    line.push(b' ')?;
    push_answer(line, answer)?;
    line.push(b'\n')?;
    Ok(behind - 1)
}
