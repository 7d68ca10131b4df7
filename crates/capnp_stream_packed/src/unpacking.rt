//! Reads packed pieces.
ghost use Rattle.std.specs.Prelude.{◌≡◌, ◌+◌, ◌/◌, ◌%◌, ◌<◌, length, replicate, IfOk, IfErr, OnOk, OnErr};
ghost use Rattle.std.specs.Int.{w64, from_le_bytes};
ghost use Rattle.std.specs.Io.KnownBytes.{Keeps};
ghost use Rattle.capnp_units.specs.declared.kinds.ErrorKind.{ErrorKind};
ghost use Rattle.capnp_model.specs.Bytes.{taken};
ghost use Rattle.capnp_model.specs.Packing.{byte_at, run_at, with_word, unpacked_from, unpacked};
ghost use Rattle.capnp_stream_io.specs.Counting.{Counts};
ghost use Rattle.capnp_stream.specs.Segments.{whole_words};
ghost use Rattle.capnp_stream_packed.specs.Parts.{ContinuesWith, Takes, Refuses, count_at, tagged};
ghost use Rattle.capnp_stream_packed.specs.Runs.{run_view, IsOver};
ghost use Rattle.capnp_stream_packed.specs.Steps.{Reads, Leaves};
ghost use Rattle.capnp_stream_packed.specs.Streams.{LeavesPiece};

use crate::bytes::byte_or;
use crate::runs::Run;
use crate::shown::Step;
use capnp_stream_io::traits::{BufRead, Read};
use capnp_units::errors::{Error, Result};
use capnp_units::kinds::ErrorKind;

/// A word that was read, and the next part of its piece.
#[derive(Clone, Copy)]
pub(crate) struct Unpacked {
    pub(crate) word: [u8; 8],
    pub(crate) run: Run,
}

/// Returns a byte of a word: the next byte if the bit marks it, otherwise zero.
fn byte_at<R: BufRead>(source: &mut R, bit: u8) -> Result<u8>
    ensures byte { IfOk result (λ b.
        Takes (byte_at bit) (R.remaining source.old) (R.remaining source.new) b) }
    ensures refused { IfErr result (λ e.
        Refuses (byte_at bit) (R.remaining source.old) (R.remaining source.new) e.kind) }
    ensures count { Counts result (R.failures source.old) (R.failures source.new) }
{
    if bit == 0 {
        return Ok(0);
    }
    byte_or(source, ErrorKind::PrematureEndOfPackedInput)
}

/// Returns the bytes of a word, by its tag.
fn tagged_word<R: BufRead>(source: &mut R, tag: u8) -> Result<[u8; 8]>
    ensures word { IfOk result (λ w.
        Takes (tagged tag) (R.remaining source.old) (R.remaining source.new) w) }
    ensures refused { IfErr result (λ e.
        Refuses (tagged tag) (R.remaining source.old) (R.remaining source.new) e.kind) }
    ensures count { Counts result (R.failures source.old) (R.failures source.new) }
{
    let mut word = [0u8; 8];
    let mut marks = tag;
    for i in 0..8 {
        word[i] = byte_at(source, marks % 2)?;
        marks /= 2;
    }
    Ok(word)
}

/// Returns the bytes of a verbatim word.
fn verbatim_word<R: BufRead>(source: &mut R) -> Result<[u8; 8]>
    ensures word { IfOk result (λ w.
        Takes (taken 8) (R.remaining source.old) (R.remaining source.new) w) }
    ensures refused { IfErr result (λ e.
        Refuses (taken 8) (R.remaining source.old) (R.remaining source.new) e.kind) }
    ensures count { Counts result (R.failures source.old) (R.failures source.new) }
{
    let mut word = [0u8; 8];
    for i in 0..8 {
        word[i] = byte_or(source, ErrorKind::FailedToFillTheWholeBuffer)?;
    }
    Ok(word)
}

/// Returns a count of words in a piece that has `left` words left.
fn read_count<R: BufRead>(source: &mut R, left: usize) -> Result<u8>
    ensures count_read { IfOk result (λ k.
        Takes (count_at left) (R.remaining source.old) (R.remaining source.new) k) }
    ensures refused { IfErr result (λ e.
        Refuses (count_at left) (R.remaining source.old) (R.remaining source.new) e.kind) }
    ensures count { Counts result (R.failures source.old) (R.failures source.new) }
{
    let count = byte_or(source, ErrorKind::PrematureEndOfPackedInput)?;
    if count as usize > left {
        return Err(Error::from(ErrorKind::PackedInputDidNotEndCleanlyOnASegmentBoundary));
    }
    Ok(count)
}

/// Returns the run after a group of this tag, in a piece that has `left` more words.
fn read_run<R: BufRead>(source: &mut R, tag: u8, left: usize) -> Result<Run>
    ensures run { IfOk result (λ r.
        Takes (run_at left tag) (R.remaining source.old) (R.remaining source.new) (run_view r)) }
    ensures refused { IfErr result (λ e.
        Refuses (run_at left tag) (R.remaining source.old) (R.remaining source.new) e.kind) }
    ensures count { Counts result (R.failures source.old) (R.failures source.new) }
{
    match tag {
        0 => Ok(Run::Zeros(read_count(source, left)?)),
        255 => Ok(Run::Verbatim(read_count(source, left)?)),
        _ => Ok(Run::Next),
    }
}

/// Returns the word of a group, if the run before it is over and the piece has `left` words after
/// this word.
fn read_group<R: BufRead>(source: &mut R, run: Run, left: usize) -> Result<Unpacked>
    requires { IsOver run }
    ensures word { IfOk result (λ u.
        ContinuesWith (unpacked_from (left + 1) (run_view run)) (R.remaining source.old)
        (R.remaining source.new) (λ more.
        with_word (from_le_bytes w64 u.word) (unpacked_from left (run_view u.run) more))) }
    ensures refused { IfErr result (λ e.
        Refuses (unpacked_from (left + 1) (run_view run)) (R.remaining source.old)
        (R.remaining source.new) e.kind) }
    ensures count { Counts result (R.failures source.old) (R.failures source.new) }
{
    let tag = byte_or(source, run.end_kind())?;
    let word = tagged_word(source, tag)?;
    let run = read_run(source, tag, left)?;
    Ok(Unpacked { word, run })
}

/// Returns the next word of a piece that has `left` words after it.
pub(crate) fn next_word<R: BufRead>(source: &mut R, run: Run, left: usize) -> Result<Unpacked>
    ensures word { IfOk result (λ u.
        ContinuesWith (unpacked_from (left + 1) (run_view run)) (R.remaining source.old)
        (R.remaining source.new) (λ more.
        with_word (from_le_bytes w64 u.word) (unpacked_from left (run_view u.run) more))) }
    ensures refused { IfErr result (λ e.
        Refuses (unpacked_from (left + 1) (run_view run)) (R.remaining source.old)
        (R.remaining source.new) e.kind) }
    ensures count { Counts result (R.failures source.old) (R.failures source.new) }
{
    match run {
        Run::Zeros(k) if k > 0 => Ok(Unpacked {
            word: [0; 8],
            run: Run::Zeros(k - 1),
        }),
        Run::Verbatim(k) if k > 0 => Ok(Unpacked {
            word: verbatim_word(source)?,
            run: Run::Verbatim(k - 1),
        }),
        _ => read_group(source, run, left),
    }
}

/// Fills the front of the buffer with the rest of a run and with whole groups, as far as the source
/// shows them.
#[inline(always)]
fn shown_words<R: BufRead>(source: &mut R, run: Run, buf: &mut [u8]) -> Result<Step>
    requires { length buf.old % 8 ≡ 0 }
    ensures words { IfOk result (λ s.
        Reads run (R.remaining source.old) (R.remaining source.new) buf.new s) }
    ensures kept { OnErr result (Keeps (R.remaining source.old) (R.remaining source.new)) }
    ensures refusal { IfErr result (λ e. e.kind ≡ ErrorKind.Device) }
    ensures count { Counts result (R.failures source.old) (R.failures source.new) }
{
    let step = Step::of_shown(run, source.fill_buf()?, buf);
    source.consume(step.taken);
    Ok(step)
}

/// Fills the front of the buffer with the next word of a piece, for which it has room, byte by
/// byte.
#[inline(never)]
fn one_word<R: BufRead>(source: &mut R, run: Run, buf: &mut [u8]) -> Result<Step>
    requires whole { length buf.old % 8 ≡ 0 }
    requires some { 0 < length buf.old }
    ensures word { IfOk result (λ s.
        Reads run (R.remaining source.old) (R.remaining source.new) buf.new s × (s.filled ≡ 8)) }
    ensures refused { IfErr result (λ e.
        Refuses (unpacked_from (length buf.old / 8) (run_view run)) (R.remaining source.old)
        (R.remaining source.new) e.kind) }
    ensures count { Counts result (R.failures source.old) (R.failures source.new) }
{
    let next = next_word(source, run, buf.len() / 8 - 1)?;
    buf[..8].copy_from_slice(&next.word);
    Ok(Step {
        taken: 0,
        filled: 8,
        run: next.run,
    })
}

/// Fills the front of the buffer with the next words of a piece, for which it has room. Bytes that
/// a source shows are taken in whole groups; a group that isn't shown whole is read byte by byte.
#[inline(always)]
fn next_words<R: BufRead>(source: &mut R, run: Run, buf: &mut [u8]) -> Result<Step>
    requires whole { length buf.old % 8 ≡ 0 }
    requires some { 0 < length buf.old }
    ensures words { IfOk result (λ s.
        Reads run (R.remaining source.old) (R.remaining source.new) buf.new s × (0 < s.filled)) }
    ensures refused { IfErr result (λ e.
        Refuses (unpacked_from (length buf.old / 8) (run_view run)) (R.remaining source.old)
        (R.remaining source.new) e.kind) }
    ensures count { Counts result (R.failures source.old) (R.failures source.new) }
{
    // The zero words of a run need no byte, so that none is asked for.
    if !run.needs_bytes() {
        return Ok(Step::of_run(run, &[], buf));
    }
    let step = shown_words(source, run, buf)?;
    if step.filled > 0 {
        return Ok(step);
    }
    one_word(source, step.run, buf)
}

/// Fills the front of the buffer like `next_words`. If it is refused, it clears the buffer, so the
/// contents don't depend on how the bytes were shown.
#[inline(always)]
fn next_words_or_zeros<R: BufRead>(source: &mut R, run: Run, buf: &mut [u8]) -> Result<Step>
    requires whole { length buf.old % 8 ≡ 0 }
    requires some { 0 < length buf.old }
    ensures words { IfOk result (λ s.
        Reads run (R.remaining source.old) (R.remaining source.new) buf.new s × (0 < s.filled)) }
    ensures refused { IfErr result (λ e.
        Refuses (unpacked_from (length buf.old / 8) (run_view run)) (R.remaining source.old)
        (R.remaining source.new) e.kind) }
    ensures cleared { OnErr result (buf.new ≡ replicate (length buf.old) 0) }
    ensures count { Counts result (R.failures source.old) (R.failures source.new) }
{
    let step = next_words(source, run, buf);
    if step.is_err() {
        buf.fill(0);
    }
    step
}

/// Fills the buffer with the rest of the words of a piece, from inside a run on. The piece has as
/// many words left as the buffer. After a refusal the buffer holds the words before the fault,
/// followed by zeros.
#[inline(never)]
fn read_rest<R: BufRead>(source: &mut R, run: Run, buf: &mut [u8]) -> Result<()>
    requires { length buf.old % 8 ≡ 0 }
    ensures ok { OnOk result
        (Takes (unpacked_from (length buf.old / 8) (run_view run)) (R.remaining source.old)
        (R.remaining source.new) (whole_words buf.new)) }
    ensures refused { IfErr result (λ e.
        Refuses (unpacked_from (length buf.old / 8) (run_view run)) (R.remaining source.old)
        (R.remaining source.new) e.kind) }
    ensures left { IfErr result (λ e.
        Leaves run (R.remaining source.old) (R.remaining source.new) buf.new e.kind) }
    ensures count { Counts result (R.failures source.old) (R.failures source.new) }
{
    let mut run = run;
    let mut at = 0;
    while at < buf.len() {
        let step = next_words_or_zeros(source, run, &mut buf[at..])?;
        run = step.run;
        at += step.filled;
    }
    Ok(())
}

/// Fills the buffer with the words of one piece, which has as many words as the buffer. After a
/// refusal the buffer holds the words before the fault, followed by zeros.
pub(crate) fn read_words<R: BufRead>(source: &mut R, buf: &mut [u8]) -> Result<()>
    requires { length buf.old % 8 ≡ 0 }
    ensures ok { OnOk result
        (Takes (unpacked (length buf.old / 8)) (R.remaining source.old) (R.remaining source.new)
        (whole_words buf.new)) }
    ensures refused { IfErr result (λ e.
        Refuses (unpacked (length buf.old / 8)) (R.remaining source.old) (R.remaining source.new)
        e.kind) }
    ensures left { IfErr result (λ e.
        LeavesPiece (R.remaining source.old) (R.remaining source.new) buf.new e.kind) }
    ensures count { Counts result (R.failures source.old) (R.failures source.new) }
{
    if buf.is_empty() {
        return Ok(());
    }
    // Mostly a source shows all of a piece.
    let step = next_words_or_zeros(source, Run::First, buf)?;
    if step.filled == buf.len() {
        return Ok(());
    }
    read_rest(source, step.run, &mut buf[step.filled..])
}
