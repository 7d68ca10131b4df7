//! Reads and writes of a device, tried again if a signal interrupts them.
ghost use Rattle.std.specs.Prelude.{◌≡◌, ◌≤◌, [], length, drop, IfSome, IfErr, OnOk, OnErr};
ghost use Rattle.std.specs.Io.{ReadsAtMost, WritesAtMost};
ghost use Rattle.std.specs.Io.KnownBytes.{Keeps, ReadConsumes, WriteAppends, Appends};
ghost use Rattle.std.specs.Io.Buffered.{reader_buffer, reader_remaining, writer_buffer, writer_contents};
ghost use Rattle.capnp_units.specs.declared.kinds.ErrorKind.{ErrorKind};
ghost use Rattle.capnp_stream_io.specs.Streams.{AppendsPart};

use capnp_units::errors::{Error, Result};
use capnp_units::kinds::ErrorKind;
use std::io;
use std::io::{BufRead as _, BufReader, BufWriter};

/// Reads once. A failed read is not an end of input.
pub(crate) fn read_retrying<S: io::Read>(from: &mut S, buf: &mut [u8]) -> Result<usize>
    ensures bound { ReadsAtMost result buf.new }
    ensures bytes { ReadConsumes (S.remaining from.old) (S.remaining from.new) result buf.new }
    ensures refusal { IfErr result (λ e. e.kind ≡ ErrorKind.Device) }
{
    for _ in 0..u64::MAX {
        match from.read(buf) {
            Ok(n) => return Ok(n),
            Err(e) => {
                if e.kind() != io::ErrorKind::Interrupted {
                    return Err(Error::from(ErrorKind::Device));
                }
            }
        }
    }
    Err(Error::from(ErrorKind::Device))
}

/// Asks the reader for more. At the end of input no bytes come.
#[inline(never)]
fn refill_retrying<S: io::Read>(from: &mut BufReader<S>) -> Result<()>
    ensures kept { Keeps (reader_remaining S.remaining from.old)
        (reader_remaining S.remaining from.new) }
    ensures end { OnOk result (IfSome (reader_remaining S.remaining from.old)
        (λ xs. length (reader_buffer from.new) ≡ 0 → xs ≡ [])) }
    ensures refusal { IfErr result (λ e. e.kind ≡ ErrorKind.Device) }
{
    for _ in 0..u64::MAX {
        match from.fill_buf() {
            Ok(_) => return Ok(()),
            Err(e) => {
                if e.kind() != io::ErrorKind::Interrupted {
                    return Err(Error::from(ErrorKind::Device));
                }
            }
        }
    }
    Err(Error::from(ErrorKind::Device))
}

/// Asks the reader for more if all bytes that it gave are taken.
#[inline(always)]
pub(crate) fn refill<S: io::Read>(from: &mut BufReader<S>) -> Result<()>
    ensures kept { Keeps (reader_remaining S.remaining from.old)
        (reader_remaining S.remaining from.new) }
    ensures end { OnOk result (IfSome (reader_remaining S.remaining from.old)
        (λ xs. length (reader_buffer from.new) ≡ 0 → xs ≡ [])) }
    ensures refusal { IfErr result (λ e. e.kind ≡ ErrorKind.Device) }
{
    if !from.buffer().is_empty() {
        return Ok(());
    }
    refill_retrying(from)
}

/// Writes once.
fn write_retrying<S: io::Write>(to: &mut S, buf: &[u8]) -> Result<usize>
    ensures bound { WritesAtMost result buf.now }
    ensures bytes { WriteAppends (S.contents to.old) (S.contents to.new) result buf.now }
    ensures refusal { IfErr result (λ e. e.kind ≡ ErrorKind.Device) }
{
    for _ in 0..u64::MAX {
        match to.write(buf) {
            Ok(n) => return Ok(n),
            Err(e) => {
                if e.kind() != io::ErrorKind::Interrupted {
                    return Err(Error::from(ErrorKind::Device));
                }
            }
        }
    }
    Err(Error::from(ErrorKind::Device))
}

/// Passes on the bytes that are held back.
pub(crate) fn flush_retrying<S: io::Write + Drop>(to: &mut BufWriter<S>) -> Result<()>
    ensures kept { Keeps (writer_contents S.contents to.old) (writer_contents S.contents to.new) }
    ensures empty { OnOk result (writer_buffer to.new ≡ []) }
    ensures refusal { IfErr result (λ e. e.kind ≡ ErrorKind.Device) }
{
    for _ in 0..u64::MAX {
        match io::Write::flush(to) {
            Ok(()) => return Ok(()),
            Err(e) => {
                if e.kind() != io::ErrorKind::Interrupted {
                    return Err(Error::from(ErrorKind::Device));
                }
            }
        }
    }
    Err(Error::from(ErrorKind::Device))
}

/// Writes until all is written. A device that takes nothing has failed.
fn write_each<S: io::Write>(to: &mut S, buf: &[u8]) -> Result<()>
    ensures ok { OnOk result (Appends (S.contents to.old) (S.contents to.new) buf.now) }
    ensures err { OnErr result (AppendsPart (S.contents to.old) (S.contents to.new) buf.now) }
    ensures refusal { IfErr result (λ e. e.kind ≡ ErrorKind.Device) }
{
    let mut at = 0;
    while at < buf.len() {
        let n = write_retrying(to, &buf[at..])?;
        if n == 0 {
            return Err(Error::from(ErrorKind::Device));
        }
        at += n;
    }
    Ok(())
}

/// Writes the bytes after the first `at`, of a write that took no more.
#[cold]
#[inline(never)]
fn write_behind<S: io::Write>(to: &mut S, buf: &[u8], at: usize) -> Result<()>
    requires { at ≤ length buf.now }
    ensures ok { OnOk result (Appends (S.contents to.old) (S.contents to.new) (drop at buf.now)) }
    ensures err { OnErr result
        (AppendsPart (S.contents to.old) (S.contents to.new) (drop at buf.now)) }
    ensures refusal { IfErr result (λ e. e.kind ≡ ErrorKind.Device) }
{
    if at == 0 {
        return Err(Error::from(ErrorKind::Device));
    }
    write_each(to, &buf[at..])
}

/// Writes again, unless a write failed for a reason other than a signal.
#[cold]
#[inline(never)]
fn write_again<S: io::Write>(to: &mut S, buf: &[u8], failed: io::Error) -> Result<()>
    ensures ok { OnOk result (Appends (S.contents to.old) (S.contents to.new) buf.now) }
    ensures err { OnErr result (AppendsPart (S.contents to.old) (S.contents to.new) buf.now) }
    ensures refusal { IfErr result (λ e. e.kind ≡ ErrorKind.Device) }
{
    if failed.kind() != io::ErrorKind::Interrupted {
        return Err(Error::from(ErrorKind::Device));
    }
    write_each(to, buf)
}

/// Writes until all is written, which mostly is one write. A device that takes nothing has failed.
#[inline(always)]
pub(crate) fn write_whole<S: io::Write>(to: &mut S, buf: &[u8]) -> Result<()>
    ensures ok { OnOk result (Appends (S.contents to.old) (S.contents to.new) buf.now) }
    ensures err { OnErr result (AppendsPart (S.contents to.old) (S.contents to.new) buf.now) }
    ensures refusal { IfErr result (λ e. e.kind ≡ ErrorKind.Device) }
{
    if buf.is_empty() {
        return Ok(());
    }
    match to.write(buf) {
        Ok(n) if n == buf.len() => Ok(()),
        Ok(n) => write_behind(to, buf, n),
        Err(e) => write_again(to, buf, e),
    }
}
