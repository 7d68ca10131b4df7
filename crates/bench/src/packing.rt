//! Unpacks and packs streams of messages, piece by piece.
ghost use Rattle.std.specs.Prelude.{◌≡◌, ◌*◌, ◌%◌, ◌<◌, ◌≤◌, ◌^◌, length, IfOk};

use capnp_stream_io::traits::Read;
use capnp_stream_packed::streams::{PackedRead, PackedWrite};
use capnp_units::errors::{Error, Result};
use capnp_units::kinds::ErrorKind;

/// Unpacks the next bytes into whole words.
fn read_words(source: &mut &[u8], buf: &mut [u8]) -> Result<()>
    requires { length buf.old % 8 ≡ 0 }
{
    PackedRead { inner: source }.read_exact(buf)
}

/// Packs whole words.
fn write_words(out: &mut Vec<u8>, bytes: &[u8]) -> Result<()>
    requires { length bytes.now % 8 ≡ 0 }
{
    PackedWrite { inner: out }.write_piece(bytes)
}

/// Returns a number of a table.
fn number(bytes: &[u8; 4]) -> usize
    ensures { result < 2 ^ 32 }
{
    u32::from_le_bytes(*bytes) as usize
}

/// Reads the first word of a table: returns the number of bytes of the table after it, and the
/// number of bytes of the first segment.
fn first_lengths(head: &[u8; 8]) -> (usize, usize)
    ensures table { result.0 % 8 ≡ 0 }
    ensures segment { result.1 % 8 ≡ 0 }
{
    let [a, b, c, d, e, f, g, h] = *head;
    let table = (number(&[a, b, c, d]) + 1) / 2 * 8;
    (table, number(&[e, f, g, h]) * 8)
}

/// Returns the number of bytes of all segments; the first segment has n.
fn whole_length(first: usize, table: &[u8]) -> usize
    ensures { result % 8 ≡ 0 }
{
    let mut whole = first;
    let mut left = table;
    while let Some((size, rest)) = left.split_first_chunk::<4>() {
        whole = whole.saturating_add(number(size) * 8);
        left = rest;
    }
    whole / 8 * 8
}

/// Unpacks the next message, with its segments one after another, and returns the number of bytes
/// of its pieces.
pub fn unpack_message(source: &mut &[u8], words: &mut [u8]) -> Result<usize> {
    let mut head = [0u8; 8];
    read_words(source, &mut head)?;
    let (table, first) = first_lengths(&head);
    if table > words.len() {
        return Err(Error::from(ErrorKind::BufferNotLargeEnough));
    }
    read_words(source, &mut words[..table])?;
    let segments = whole_length(first, &words[..table]);
    if segments > words.len() {
        return Err(Error::from(ErrorKind::BufferNotLargeEnough));
    }
    read_words(source, &mut words[..segments])?;
    Ok(8 + table + segments)
}

/// Writes the first bytes as a segment, and returns the bytes after them.
fn pack_segment<'a>(out: &mut Vec<u8>, words: &'a [u8], len: usize) -> Result<&'a [u8]>
    requires { len % 8 ≡ 0 }
{
    if len > words.len() {
        return Err(Error::from(ErrorKind::PrematureEndOfFile));
    }
    let (segment, behind) = words.split_at(len);
    write_words(out, segment)?;
    Ok(behind)
}

/// Packs the framed message at the front, and returns the bytes after it.
pub fn pack_message<'a>(out: &mut Vec<u8>, framed: &'a [u8]) -> Result<&'a [u8]> {
    let Some((head, behind)) = framed.split_first_chunk::<8>() else {
        return Err(Error::from(ErrorKind::PrematureEndOfFile));
    };
    let (table, first) = first_lengths(head);
    if table > behind.len() {
        return Err(Error::from(ErrorKind::PrematureEndOfFile));
    }
    let (mut left, segments) = behind.split_at(table);
    write_words(out, head)?;
    if !left.is_empty() {
        write_words(out, left)?;
    }
    let mut words = pack_segment(out, segments, first)?;
    while let Some((size, rest)) = left.split_first_chunk::<4>() {
        words = pack_segment(out, words, number(size) * 8)?;
        left = rest;
    }
    Ok(words)
}
