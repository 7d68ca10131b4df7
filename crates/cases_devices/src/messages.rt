//! Messages with the output that the relay should make of them, and the streams of several in a
//! row.

use crate::devices::Fault;
use capnp_relay_loop::ends::Counts;
use std::alloc::Global;

/// A message of a stream, the bytes that should be written for it, and the text of its log line
/// after its number.
#[derive(Clone, Copy)]
pub struct Message<'a> {
    pub given: &'a [u8],
    /// Empty if the message is skipped.
    pub written: &'a [u8],
    pub line: &'a str,
}

/// The bytes that should be taken, written and logged, and the counts, after some messages.
#[derive(Clone, Copy)]
pub struct Done {
    pub taken: usize,
    pub written: usize,
    pub logged: usize,
    pub counts: Counts,
}

/// One of the three streams of a run.
#[derive(Clone, Copy)]
pub enum Stream {
    Given,
    Out,
    Log,
}

impl Done {
    /// Returns the number of bytes of a stream.
    fn bytes_of(&self, stream: Stream) -> usize {
        match stream {
            Stream::Given => self.taken,
            Stream::Out => self.written,
            Stream::Log => self.logged,
        }
    }
}

/// The whole streams of a run, and the state that should be reached after each number of messages,
/// first after none.
#[derive(Drop)]
pub struct Streams {
    pub given: Vec<u8>,
    pub out: Vec<u8>,
    pub log: Vec<u8>,
    done: Vec<Done>,
}

impl Streams {
    /// Makes the streams of messages in a row.
    pub fn new(alloc: Global, messages: &[Message<'_>]) -> Result<Streams, Fault> {
        let mut streams = Streams {
            given: Vec::new(alloc),
            out: Vec::new(alloc),
            log: Vec::new(alloc),
            done: Vec::new(alloc),
        };
        let mut counts = Counts {
            written: 0,
            refused: 0,
        };
        streams.note(counts)?;
        for message in messages {
            if message.written.is_empty() {
                counts.refused = counts.refused.saturating_add(1);
            } else {
                counts.written = counts.written.saturating_add(1);
            }
            let number = counts.written.saturating_add(counts.refused);
            let line = format!(in alloc; "message {number} {}\n", message.line)?;
            streams.given.extend_from_slice(message.given)?;
            streams.out.extend_from_slice(message.written)?;
            streams.log.extend_from_slice(line.as_bytes())?;
            streams.note(counts)?;
        }
        Ok(streams)
    }

    /// Notes the state that should be reached after the messages until here.
    fn note(&mut self, counts: Counts) -> Result<(), Fault> {
        let done = Done {
            taken: self.given.len(),
            written: self.out.len(),
            logged: self.log.len(),
            counts,
        };
        Ok(self.done.push(done)?)
    }

    /// Returns the state that should be reached after the last message that is whole in n bytes of
    /// a stream, and after the next message, or the last if there is none.
    pub fn around(&self, stream: Stream, bytes: usize) -> Option<(Done, Done)> {
        let mut whole = None;
        for done in &self.done {
            if done.bytes_of(stream) > bytes {
                return Some((whole?, *done));
            }
            whole = Some(*done);
        }
        Some((whole?, whole?))
    }

    /// Returns the counts that all messages should give.
    pub fn counts(&self) -> Option<Counts> {
        Some(self.done.last()?.counts)
    }
}
