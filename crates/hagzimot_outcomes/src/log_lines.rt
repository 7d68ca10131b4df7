//! Lines of the log, as text and as JSON, made from the outcome of each message.
ghost use Rattle.std.specs.Prelude.{◌≡◌, ◌<◌, ◌++◌, false, codes, decimal, OnOk, IfOk};
ghost use Rattle.std.specs.List.{flat_map};
ghost use Rattle.std.specs.Fmt.{digit_glyph};
ghost use Rattle.capnp_model.specs.Runs.{answer_words};
ghost use Rattle.capnp_relay_loop.specs.MessageAnswers.{refusal_view};
ghost use Rattle.hagzimot_outcomes.specs.Lines.{call_text, each_call_text, done_text, reason_text, cause_text, outcome_text, text_line_of, byte_quoted, quoted, more_done, cause_members, call_array, done_array, outcome_members, explained_members, json_line_of};

use crate::outcomes::{CallOutcome, Cause, Outcome};
use capnp_relay_loop::answer::Reason;
use itoa::Buffer;
use std::alloc::{AllocError, Global};

/// Appends a number in decimal digits.
fn push_number(line: &mut Vec<u8>, number: u64) -> Result<(), AllocError>
    ensures { OnOk result (line.new.items ≡ line.old.items ++ decimal number) }
{
    let mut buffer = Buffer::new();
    line.extend_from_slice(buffer.format(number).as_bytes())
}

/// Appends the outcome of a call.
fn push_call(line: &mut Vec<u8>, call: &CallOutcome) -> Result<(), AllocError>
    ensures { OnOk result (line.new.items ≡ line.old.items ++ call_text call.now) }
{
    match call {
        CallOutcome::Text(text) => line.extend_from_slice(text),
        CallOutcome::Done => line.extend_from_slice(b"done"),
        CallOutcome::Refused(kind) => {
            line.extend_from_slice(b"refused ")?;
            line.extend_from_slice(kind.name().as_bytes())
        }
        CallOutcome::Skipped => line.extend_from_slice(b"skipped"),
    }
}

/// Returns the word for a reason.
fn reason_word(reason: Reason) -> &'static [u8]
    ensures word { result.now ≡ reason_text reason }
    ensures refusal { codes "refused: " ++ result.now ≡ answer_words (refusal_view reason) }
{
    match reason {
        Reason::Value => b"value",
        Reason::Root => b"root",
        Reason::Depth => b"depth",
    }
}

/// Appends the reason for which a message is not edited.
fn push_cause(line: &mut Vec<u8>, cause: Cause) -> Result<(), AllocError>
    ensures { OnOk result (line.new.items ≡ line.old.items ++ cause_text cause) }
{
    match cause {
        Cause::Message(reason) => line.extend_from_slice(reason_word(reason)),
        Cause::Call(call) => {
            line.extend_from_slice(b"call ")?;
            push_number(line, call.number as u64)?;
            line.extend_from_slice(b" ")?;
            line.extend_from_slice(call.kind.name().as_bytes())
        }
    }
}

/// Appends the outcome of each call, after a semicolon.
fn push_calls(line: &mut Vec<u8>, calls: &[CallOutcome]) -> Result<(), AllocError>
    ensures { OnOk result (line.new.items ≡ line.old.items ++ each_call_text calls.now) }
{
    for call in calls {
        line.extend_from_slice(b"; ")?;
        push_call(line, call)?;
    }
    Ok(())
}

/// Appends `done` for each of `count` calls, after a semicolon.
fn push_done(line: &mut Vec<u8>, count: usize) -> Result<(), AllocError>
    ensures { OnOk result (line.new.items ≡ line.old.items ++ done_text count) }
{
    for _call in 0..count {
        line.extend_from_slice(b"; done")?;
    }
    Ok(())
}

/// Appends the outcome of a message.
fn push_outcome(line: &mut Vec<u8>, outcome: &Outcome) -> Result<(), AllocError>
    ensures { OnOk result (line.new.items ≡ line.old.items ++ outcome_text outcome.now) }
{
    match outcome {
        Outcome::Done(count) => {
            line.extend_from_slice(b"written")?;
            push_done(line, *count)
        }
        Outcome::Written(calls) => {
            line.extend_from_slice(b"written")?;
            push_calls(line, calls)
        }
        Outcome::Unedited(cause) => {
            line.extend_from_slice(b"written unedited: ")?;
            push_cause(line, *cause)
        }
        Outcome::Refused(cause) => {
            line.extend_from_slice(b"refused: ")?;
            push_cause(line, *cause)
        }
    }
}

/// Returns the line of message `number`, such as `message 1 written; done` or
/// `message 2 refused: value`, with a line feed. Returns an error if an allocation is refused.
pub fn text_line(alloc: Global, number: u64, outcome: &Outcome) -> Result<Vec<u8>, AllocError>
    ensures { IfOk result (λ line. line.items ≡ text_line_of number outcome.now) }
{
    let mut line = Vec::new(alloc);
    line.extend_from_slice(b"message ")?;
    push_number(&mut line, number)?;
    line.extend_from_slice(b" ")?;
    push_outcome(&mut line, outcome)?;
    line.extend_from_slice(b"\n")?;
    Ok(line)
}

/// Returns the hexadecimal digit of a number below 16.
fn hex_digit(number: u8) -> u8
    requires { number < 16 }
    ensures { result ≡ digit_glyph false number }
{
    if number < 10 {
        b'0' + number
    } else {
        b'a' + (number - 10)
    }
}

/// Appends a byte of a text between double quotes. (JSON, "Strings")
fn push_byte(line: &mut Vec<u8>, byte: u8) -> Result<(), AllocError>
    ensures { OnOk result (line.new.items ≡ line.old.items ++ byte_quoted byte) }
{
    match byte {
        b'"' => line.extend_from_slice(b"\\\""),
        b'\\' => line.extend_from_slice(b"\\\\"),
        b'\n' => line.extend_from_slice(b"\\n"),
        b'\r' => line.extend_from_slice(b"\\r"),
        b'\t' => line.extend_from_slice(b"\\t"),
        b if b < 32 || b == 127 => {
            line.extend_from_slice(b"\\u00")?;
            line.extend_from_slice(&[hex_digit(b / 16), hex_digit(b % 16)])
        }
        b => line.extend_from_slice(&[b]),
    }
}

/// Appends the bytes of a text as they are written between double quotes.
fn push_bytes(line: &mut Vec<u8>, text: &[u8]) -> Result<(), AllocError>
    ensures { OnOk result (line.new.items ≡ line.old.items ++ flat_map byte_quoted text.now) }
{
    for byte in text {
        push_byte(line, *byte)?;
    }
    Ok(())
}

/// Appends a text between double quotes.
fn push_quoted(line: &mut Vec<u8>, text: &[u8]) -> Result<(), AllocError>
    ensures { OnOk result (line.new.items ≡ line.old.items ++ quoted text.now) }
{
    line.extend_from_slice(b"\"")?;
    push_bytes(line, text)?;
    line.extend_from_slice(b"\"")
}

/// Appends the outcome of a call, between double quotes.
fn push_quoted_call(alloc: Global, line: &mut Vec<u8>, call: &CallOutcome) -> Result<(), AllocError>
    ensures { OnOk result (line.new.items ≡ line.old.items ++ quoted (call_text call.now)) }
{
    let mut text = Vec::new(alloc);
    push_call(&mut text, call)?;
    push_quoted(line, &text)
}

/// Appends the outcome of each call, between double quotes and after a comma.
fn push_others(alloc: Global, line: &mut Vec<u8>, calls: &[CallOutcome]) -> Result<(), AllocError>
    ensures { OnOk result (line.new.items
        ≡ line.old.items ++ flat_map (λ c. codes "," ++ quoted (call_text c)) calls.now) }
{
    for call in calls {
        line.extend_from_slice(b",")?;
        push_quoted_call(alloc, line, call)?;
    }
    Ok(())
}

/// Appends an array of the outcomes of calls.
fn push_array(alloc: Global, line: &mut Vec<u8>, calls: &[CallOutcome]) -> Result<(), AllocError>
    ensures { OnOk result (line.new.items ≡ line.old.items ++ call_array calls.now) }
{
    match calls {
        [] => line.extend_from_slice(b"[]"),
        [first, others @ ..] => {
            line.extend_from_slice(b"[")?;
            push_quoted_call(alloc, line, first)?;
            push_others(alloc, line, others)?;
            line.extend_from_slice(b"]")
        }
    }
}

/// Appends `done` for each of `count` calls, between double quotes and after a comma.
fn push_more_done(line: &mut Vec<u8>, count: usize) -> Result<(), AllocError>
    ensures { OnOk result (line.new.items ≡ line.old.items ++ more_done count) }
{
    for _call in 0..count {
        line.extend_from_slice(b",\"done\"")?;
    }
    Ok(())
}

/// Appends an array that has `done` for each of `count` calls.
fn push_done_array(line: &mut Vec<u8>, count: usize) -> Result<(), AllocError>
    ensures { OnOk result (line.new.items ≡ line.old.items ++ done_array count) }
{
    if count == 0 {
        return line.extend_from_slice(b"[]");
    }
    line.extend_from_slice(b"[\"done\"")?;
    push_more_done(line, count - 1)?;
    line.extend_from_slice(b"]")
}

/// Appends the value of a member: the reason for which a message is not edited. Then appends the
/// member with the number of the refused call.
fn push_cause_members(line: &mut Vec<u8>, cause: Cause) -> Result<(), AllocError>
    ensures { OnOk result (line.new.items ≡ line.old.items ++ cause_members cause) }
{
    match cause {
        Cause::Message(reason) => push_quoted(line, reason_word(reason)),
        Cause::Call(call) => {
            push_quoted(line, call.kind.name().as_bytes())?;
            line.extend_from_slice(b",\"call\":")?;
            push_number(line, call.number as u64)
        }
    }
}

/// Appends the members of an object with the outcome of a message.
fn push_members(alloc: Global, line: &mut Vec<u8>, outcome: &Outcome) -> Result<(), AllocError>
    ensures { OnOk result (line.new.items ≡ line.old.items ++ outcome_members outcome.now) }
{
    match outcome {
        Outcome::Done(count) => {
            line.extend_from_slice(b"\"result\":\"written\",\"replies\":")?;
            push_done_array(line, *count)
        }
        Outcome::Written(calls) => {
            line.extend_from_slice(b"\"result\":\"written\",\"replies\":")?;
            push_array(alloc, line, calls)
        }
        Outcome::Unedited(cause) => {
            line.extend_from_slice(b"\"result\":\"written\",\"unedited\":")?;
            push_cause_members(line, *cause)
        }
        Outcome::Refused(cause) => {
            line.extend_from_slice(b"\"result\":\"refused\",\"reason\":")?;
            push_cause_members(line, *cause)
        }
    }
}

/// The reason for which a message has no answer, in words, and the name of its input.
#[derive(Clone, Copy, Debug)]
pub struct Explanation<'a> {
    pub file: &'a str,
    pub why: &'a str,
}

/// Appends the members of an explanation, if there is one.
fn push_explanation(
    line: &mut Vec<u8>,
    explanation: Option<Explanation<'_>>,
) -> Result<(), AllocError>
    ensures { OnOk result (line.new.items ≡ line.old.items ++ explained_members explanation.entry) }
{
    let Some(it) = explanation else {
        return Ok(());
    };
    line.extend_from_slice(b",\"file\":")?;
    push_quoted(line, it.file.as_bytes())?;
    line.extend_from_slice(b",\"why\":")?;
    push_quoted(line, it.why.as_bytes())
}

/// Returns the line of message `number` as a JSON object and a line feed. The message begins after
/// `start` bytes of its input. Returns an error if an allocation is refused.
pub fn json_line(
    alloc: Global,
    number: u64,
    start: u64,
    outcome: &Outcome,
    explanation: Option<Explanation<'_>>,
) -> Result<Vec<u8>, AllocError>
    ensures { IfOk result (λ line. line.items
        ≡ json_line_of number start outcome.now explanation.entry) }
{
    let mut line = Vec::new(alloc);
    line.extend_from_slice(b"{\"message\":")?;
    push_number(&mut line, number)?;
    line.extend_from_slice(b",\"byte\":")?;
    push_number(&mut line, start)?;
    line.extend_from_slice(b",")?;
    push_members(alloc, &mut line, outcome)?;
    push_explanation(&mut line, explanation)?;
    line.extend_from_slice(b"}\n")?;
    Ok(line)
}
