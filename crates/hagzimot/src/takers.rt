//! Outputs of messages that are picked.
ghost use Rattle.capnp_stream.specs.Writing.{AreWritable};

use crate::files::OutSink;
use capnp_relay_loop::ends::Fault;
use capnp_relay_show::show::ShowFault;
use capnp_relay_streams::options::Form;
use capnp_stream::forms::Framed;
use capnp_stream::messages::write_message_segments_in;
use capnp_stream_io::traits::Write;
use capnp_stream_packed::form::Packed;
use capnp_units::errors::Error;
use capnp_units::kinds::ErrorKind;
use capnp_units::segments::ReaderSegments;
use capnp_units::sizes::words_as_bytes;
use capnp_wire_objects::arena::ReaderArenaImpl;
use hagzimot_commands::canonical::{Canonical, write_value};
use hagzimot_conditions::columns::{Column, RowFault};
use hagzimot_conditions::messages::{Sight, cells};
use hagzimot_conditions::tables::{TableForm, row};
use hagzimot_show::laid_out::{Manner, laid_out};
use sha2::{Digest, Sha256};
use std::alloc::{AllocError, Global};

/// The reason for which a message isn't taken.
#[derive(Clone, Copy, Debug, PartialEq, Eq)]
pub enum Untaken {
    /// The run has to end.
    Fault(Fault),
    /// It can't be read as the schema says.
    Unread,
}

/// A type that takes messages.
pub trait Taker {
    /// Takes the message of these segments, which has this number.
    fn take<S: ReaderSegments>(
        &self,
        alloc: Global,
        segments: &S,
        number: u64,
        out: &mut OutSink,
    ) -> Result<(), Untaken>
        requires { AreWritable (S.segments segments.now) };
}

/// Returns the reason for which a sink doesn't take bytes.
fn write_fault(e: Error) -> Untaken {
    match e.kind {
        ErrorKind::OutOfMemory => Untaken::Fault(Fault::Memory),
        _ => Untaken::Fault(Fault::Out),
    }
}

/// Messages are written in a form, each with the same segments.
#[derive(Drop)]
pub struct Copies {
    pub form: Form,
}

impl Taker for Copies {
    fn take<S: ReaderSegments>(
        &self,
        alloc: Global,
        segments: &S,
        _number: u64,
        out: &mut OutSink,
    ) -> Result<(), Untaken> {
        let written = match self.form {
            Form::Framed => write_message_segments_in::<Framed, OutSink, S>(alloc, out, segments),
            Form::Packed => write_message_segments_in::<Packed, OutSink, S>(alloc, out, segments),
        };
        match written {
            Ok(()) => Ok(()),
            Err(e) => Err(write_fault(e)),
        }
    }
}

/// Messages are only counted.
#[derive(Drop)]
pub struct Nothing;

impl Taker for Nothing {
    fn take<S: ReaderSegments>(
        &self,
        _alloc: Global,
        _segments: &S,
        _number: u64,
        _out: &mut OutSink,
    ) -> Result<(), Untaken> {
        Ok(())
    }
}

/// Messages are shown, one a line.
#[derive(Drop)]
pub struct Texts<'a> {
    pub manner: Manner<'a>,
}

impl Taker for Texts<'_> {
    fn take<S: ReaderSegments>(
        &self,
        alloc: Global,
        segments: &S,
        _number: u64,
        out: &mut OutSink,
    ) -> Result<(), Untaken> {
        let mut line = match laid_out(alloc, segments, self.manner) {
            Ok(text) => text.into_bytes(),
            Err(ShowFault::Memory) => return Err(Untaken::Fault(Fault::Memory)),
            Err(_) => return Err(Untaken::Unread),
        };
        if line.push(b'\n').is_err() {
            return Err(Untaken::Fault(Fault::Memory));
        }
        match out.write_all(&line) {
            Ok(()) => Ok(()),
            Err(e) => Err(write_fault(e)),
        }
    }
}

/// Messages are rows of a table.
#[derive(Drop)]
pub struct Rows<'a> {
    pub columns: &'a [Column],
    pub sight: Sight<'a>,
    pub form: TableForm,
}

impl Taker for Rows<'_> {
    fn take<S: ReaderSegments>(
        &self,
        alloc: Global,
        segments: &S,
        _number: u64,
        out: &mut OutSink,
    ) -> Result<(), Untaken> {
        let cells = match cells(alloc, self.columns, self.sight, segments) {
            Ok(cells) => cells,
            Err(RowFault::Unread) => return Err(Untaken::Unread),
            Err(RowFault::Memory) => return Err(Untaken::Fault(Fault::Memory)),
        };
        let Ok(row) = row(alloc, self.form, &cells) else {
            return Err(Untaken::Fault(Fault::Memory));
        };
        match out.write_all(&row) {
            Ok(()) => Ok(()),
            Err(e) => Err(write_fault(e)),
        }
    }
}

/// Messages are digested, one a line.
#[derive(Drop)]
pub struct Digests {
    pub limits: Canonical,
}

/// Returns the line of a message of a number, which has these canonical bytes.
fn digest_line(alloc: Global, bytes: &[u8], number: u64) -> Result<String, AllocError> {
    let digest = Sha256::digest(bytes);
    let digits = hex::encode(alloc, digest.as_slice())?;
    format!(in alloc; "{digits}\t{number}\n")
}

impl Taker for Digests {
    fn take<S: ReaderSegments>(
        &self,
        alloc: Global,
        segments: &S,
        number: u64,
        out: &mut OutSink,
    ) -> Result<(), Untaken> {
        let message = ReaderArenaImpl::new(segments, i32::MAX);
        let mut words = Vec::new(alloc);
        let count = match write_value(&message, self.limits, &mut words) {
            Ok(Some(count)) => count,
            Ok(None) => return Err(Untaken::Unread),
            Err(_) => return Err(Untaken::Fault(Fault::Memory)),
        };
        let Ok(line) = digest_line(alloc, words_as_bytes(&words[..count]), number) else {
            return Err(Untaken::Fault(Fault::Memory));
        };
        match out.write_all(line.as_bytes()) {
            Ok(()) => Ok(()),
            Err(e) => Err(write_fault(e)),
        }
    }
}
