//! Writes packed pieces.
ghost use Rattle.std.specs.Prelude.{◌≡◌, ◌<◌, ◌%◌, length, IfErr, OnOk, OnErr};
ghost use Rattle.std.specs.Io.KnownBytes.{Appends};
ghost use Rattle.capnp_model.specs.Packing.{packed};
ghost use Rattle.capnp_stream_io.specs.Counting.{Counts};
ghost use Rattle.capnp_stream.specs.Segments.{whole_words};
ghost use Rattle.capnp_stream_io.specs.Streams.{AppendsPart, RoomFalls, IsWriteRefusal};
ghost use Rattle.capnp_stream_io.specs.Writes.{sink_seen};
ghost use Rattle.capnp_stream_packed.specs.Written.{WritesFirst};

use crate::written::pack_groups;
use capnp_stream_io::traits::Write;
use capnp_units::errors::Result;

/// The number of bytes that are packed before they are written. Verbatim words of a run for which
/// there is no room are written by themselves.
const BUFFER_LEN: usize = 128;

/// Writes the verbatim words of a run. If there are no words, the sink isn't called.
fn write_run<W: Write>(out: &mut W, run: &[u8]) -> Result<()>
    ensures ok { OnOk result (Appends (W.contents out.old) (W.contents out.new) run.now) }
    ensures falls { OnOk result (RoomFalls (W.room out.old) (W.room out.new) (length run.now)) }
    ensures err { OnErr result (AppendsPart (W.contents out.old) (W.contents out.new) run.now) }
    ensures refusal { IfErr result (λ e.
        IsWriteRefusal W.may_grow (W.room out.old) (length run.now) e.kind) }
    ensures count { Counts result (W.failures out.old) (W.failures out.new) }
{
    if run.is_empty() {
        return Ok(());
    }
    out.write_all(run)
}

/// Writes the groups of the first words. Returns the bytes after these words.
fn write_groups<'a, W: Write>(out: &mut W, bytes: &'a [u8]) -> Result<&'a [u8]>
    requires whole { length bytes.now % 8 ≡ 0 }
    requires some { 0 < length bytes.now }
    ensures { WritesFirst W.may_grow bytes.now
        (sink_seen W.contents W.failures W.room out.old) result
        (sink_seen W.contents W.failures W.room out.new) }
{
    let mut buf = [0u8; BUFFER_LEN];
    let made = pack_groups(bytes, &mut buf);
    out.write_all(&buf[..made.len])?;
    write_run(out, made.run)?;
    Ok(made.rest)
}

/// Writes the words as one piece.
pub(crate) fn write_words<W: Write>(out: &mut W, bytes: &[u8]) -> Result<()>
    requires { length bytes.now % 8 ≡ 0 }
    ensures ok { OnOk result
        (Appends (W.contents out.old) (W.contents out.new) (packed (whole_words bytes.now))) }
    ensures falls { OnOk result
        (RoomFalls (W.room out.old) (W.room out.new) (length (packed (whole_words bytes.now)))) }
    ensures err { OnErr result
        (AppendsPart (W.contents out.old) (W.contents out.new) (packed (whole_words bytes.now))) }
    ensures refusal { IfErr result (λ e.
        IsWriteRefusal W.may_grow (W.room out.old) (length (packed (whole_words bytes.now)))
        e.kind) }
    ensures count { Counts result (W.failures out.old) (W.failures out.new) }
{
    let mut left = bytes;
    while !left.is_empty() {
        left = write_groups(out, left)?;
    }
    Ok(())
}
