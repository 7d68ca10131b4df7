//! Framed messages from readers that show no bytes.
use capnp_message::options::DEFAULT_READER_OPTIONS;
use capnp_message::serialize::{read_message, try_read_message};
use capnp_message::unbuffered::Unbuffered;
use capnp_stream_io::traits::{BufRead, Read};
use capnp_units::errors::Error;
use capnp_units::kinds::ErrorKind;
use std::test::Fail;

/// A framed message whose root is null, one of two segments of a word each, and a byte.
const TWO: [u8; 49] = [
    0, 0, 0, 0, 1, 0, 0, 0, 0, 0, 0, 0, 0, 0, 0, 0, 1, 0, 0, 0, 1, 0, 0, 0, 1, 0, 0, 0, 0, 0, 0, 0,
    0, 0, 0, 0, 0, 0, 0, 0, 0, 0, 0, 0, 0, 0, 0, 0, 0xee,
];

#[test]
fn no_byte_behind_a_message_is_read(rt: HostRuntime) -> std::result::Result<(), Fail> {
    let mut source = Unbuffered::new(&TWO[..]);
    let first = read_message(rt.alloc(), &mut source, DEFAULT_READER_OPTIONS)?;
    assert!(rt; first.size_in_words() == 1);
    let rest = source.into_inner();
    assert!(rt; rest == &TWO[16..]);
    let mut source = Unbuffered::new(rest);
    let second = try_read_message(rt.alloc(), &mut source, DEFAULT_READER_OPTIONS)?;
    let second = second.ok_or("no second")?;
    assert!(rt; second.size_in_words() == 2);
    assert!(rt; source.into_inner() == &[0xee][..]);
    Ok(())
}

#[test]
fn messages_and_the_end_are_told_apart(rt: HostRuntime) -> std::result::Result<(), Fail> {
    let mut source = Unbuffered::new(&TWO[..48]);
    let first = try_read_message(rt.alloc(), &mut source, DEFAULT_READER_OPTIONS)?;
    assert!(rt; first.is_some());
    let second = try_read_message(rt.alloc(), &mut source, DEFAULT_READER_OPTIONS)?;
    assert!(rt; second.is_some());
    assert!(rt; try_read_message(rt.alloc(), &mut source, DEFAULT_READER_OPTIONS)?.is_none());
    assert!(rt; source.failures() == 0);
    let mut cut = Unbuffered::new(&TWO[..15]);
    let refused = read_message(rt.alloc(), &mut cut, DEFAULT_READER_OPTIONS);
    let short = Error::from(ErrorKind::FailedToFillTheWholeBuffer);
    assert!(rt; refused.err() == Some(short));
    Ok(())
}

/// A byte that is shown is read first, once.
#[test]
fn a_byte_that_is_shown_stays(rt: HostRuntime) -> std::result::Result<(), Fail> {
    let mut source = Unbuffered::new(&TWO[..3]);
    assert!(rt; source.fill_buf()? == &[0][..]);
    assert!(rt; source.fill_buf()? == &[0][..]);
    let mut three = [9u8; 3];
    source.read_exact(&mut three)?;
    assert!(rt; &three[..] == &[0, 0, 0][..]);
    assert!(rt; source.fill_buf()?.is_empty());
    Ok(())
}
