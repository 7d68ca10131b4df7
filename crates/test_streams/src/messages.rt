//! Messages that tests read and write.

use capnp_stream::forms::Framed;
use capnp_stream::frames::read_message_in;
use capnp_stream_io::traits::BufRead;
use capnp_units::errors::Result;
use capnp_units::segments::ReaderSegments;
use std::alloc::Global;
use std::process::Abort;

/// Two segments, of one word and of two.
pub const TWO: [u8; 40] = [
    1, 0, 0, 0, 1, 0, 0, 0, 2, 0, 0, 0, 0, 0, 0, 0, 2, 0, 0, 0, 1, 0, 0, 0, 0, 0, 0, 0, 1, 0, 0, 0,
    7, 0, 0, 0, 0, 0, 0, 0,
];

/// One segment of two words.
pub const WRITTEN: [u8; 24] = [
    0, 0, 0, 0, 2, 0, 0, 0, 0, 0, 0, 0, 1, 0, 0, 0, 7, 0, 0, 0, 0, 0, 0, 0,
];

/// Three segments, of one word, none and two.
pub const THREE: [u8; 40] = [
    2, 0, 0, 0, 1, 0, 0, 0, 0, 0, 0, 0, 2, 0, 0, 0, 1, 2, 3, 4, 5, 6, 7, 8, 9, 0, 0, 0, 0, 0, 0, 0,
    10, 0, 0, 0, 0, 0, 0, 0,
];

/// The message of `WRITTEN`, packed.
pub const PACKED: [u8; 6] = [0x10, 2, 0x10, 1, 1, 7];

/// Reads the message of two segments.
pub fn expect_two<R: BufRead>(rt: &impl Abort, alloc: Global, source: &mut R) -> Result<()> {
    let message = read_message_in::<Framed, R>(alloc, source, Some(3))?;
    assert!(rt; is_two(&message));
    Ok(())
}

/// Returns whether these are the two segments.
pub fn is_two<S: ReaderSegments>(message: &S) -> bool {
    message.len() == 2
        && message.get_segment(0) == Some(&TWO[16..24])
        && message.get_segment(1) == Some(&TWO[24..40])
        && message.get_segment(2) == None
}

/// Returns whether these are the three segments.
pub fn is_three<S: ReaderSegments>(message: &S) -> bool {
    message.len() == 3
        && !message.is_empty()
        && message.get_segment(0) == Some(&THREE[16..24])
        && message.get_segment(1) == Some(&THREE[24..24])
        && message.get_segment(2) == Some(&THREE[24..40])
        && message.get_segment(3) == None
}
