//! The files and pipes of a run.
ghost use Rattle.std.specs.Io.{WritesAtMost};

use crate::faults::Failure;
use crate::tape::Tape;
use capnp_stream_io::adapters::{Sink, Source};
use hagzimot_files::drafts::Draft;
use hagzimot_files::faults::CommitError;
use hagzimot_files::host::Host;
use std::alloc::Global;
use std::cell::{Cell, RefCell};
use std::fs::File;
use std::io::{BufWriter, Read, Stderr, Stdin, Stdout, Write};
use std::rc::Rc;
use std::{fs, io};

/// The device that an input is read from.
#[derive(Drop)]
enum Device {
    Standard(Stdin),
    Named(File),
}

/// An input of messages: a device, and the tracker that notes its bytes and faults.
#[derive(Drop)]
pub struct Input {
    device: Device,
    tape: Rc<Tape>,
}

impl Read for Input {
    fn read(&mut self, buf: &mut [u8]) -> io::Result<usize> {
        let got = match &mut self.device {
            Device::Standard(input) => input.read(buf),
            Device::Named(file) => file.read(buf),
        };
        match got {
            Ok(len) => {
                self.tape.note(&buf[..len]);
                Ok(len)
            }
            Err(e) => Err(self.tape.note_fault(e)),
        }
    }
}

/// The device or the draft that an output is written to.
#[derive(Drop)]
pub enum Receiver {
    Standard(Stdout),
    /// A file that is written to directly.
    Direct(File),
    /// A draft, until it has its name or is removed.
    Draft(Host, Option<Draft<Host>>),
}

impl Receiver {
    /// Writes bytes, and returns the number that was written.
    fn write(&mut self, buf: &[u8]) -> io::Result<usize>
        ensures { WritesAtMost result buf.now }
    {
        match self {
            Receiver::Standard(out) => out.write(buf),
            Receiver::Direct(file) => file.write(buf),
            Receiver::Draft(host, draft) => match draft {
                Some(draft) => draft.write(host, buf),
                None => Err(io::Error::other("the file is written already")),
            },
        }
    }
}

/// An output of a run, which keeps the fault of its device.
#[derive(Drop)]
pub struct OutFile {
    /// The name that the arguments have for the output.
    name: String,
    receiver: RefCell<Receiver>,
    fault: Cell<Option<io::Error>>,
}

impl OutFile {
    /// Returns the output of a name that writes to a receiver.
    pub fn new(alloc: Global, name: &str, receiver: Receiver) -> Result<Rc<OutFile>, Failure> {
        let out = OutFile {
            name: String::from_str(alloc, name)?,
            receiver: RefCell::new(receiver),
            fault: Cell::new(None),
        };
        Ok(Rc::new(alloc, out)?)
    }

    /// Returns standard output.
    pub fn standard(rt: &HostRuntime) -> Result<Rc<OutFile>, Failure> {
        OutFile::new(rt.alloc(), "-", Receiver::Standard(rt.stdout()))
    }

    /// Returns a sink that writes to the output.
    pub fn sink(self: &Rc<OutFile>, alloc: Global) -> Result<OutSink, Failure> {
        open_sink(alloc, Output::Kept(Rc::clone(self)?))
    }

    /// Writes bytes, and returns the number that was written. A fault is kept.
    fn write(&self, buf: &[u8]) -> io::Result<usize>
        ensures { WritesAtMost result buf.now }
    {
        let Ok(mut receiver) = self.receiver.try_borrow_mut() else {
            return Err(io::Error::from(io::ErrorKind::ResourceBusy));
        };
        match receiver.write(buf) {
            Ok(len) => Ok(len),
            Err(e) => {
                let kind = e.kind();
                self.fault.set(Some(e));
                Err(io::Error::from(kind))
            }
        }
    }

    /// Returns the reason for which the output can't be written.
    pub fn failure(&self, alloc: Global) -> Failure {
        match self.fault.take() {
            Some(e) => Failure::unwritten(alloc, self.name.as_str(), e),
            None => Failure::Output,
        }
    }

    /// Gives a draft its name.
    pub fn commit(&self, alloc: Global) -> Result<(), Failure> {
        let name = self.name.as_str();
        let Ok(mut receiver) = self.receiver.try_borrow_mut() else {
            return Err(Failure::Output);
        };
        let Receiver::Draft(host, draft) = &mut *receiver else {
            return Ok(());
        };
        let Some(draft) = draft.take() else {
            return Ok(());
        };
        match draft.commit(host) {
            Ok(()) => Ok(()),
            Err(CommitError::Kept(e)) => Err(Failure::unwritten(alloc, name, e)),
            Err(CommitError::Unsynced(e)) => Err(Failure::unsynced(alloc, name, e)),
        }
    }

    /// Removes the draft, if there is one. A draft that can't be removed stays.
    pub fn discard(&self) {
        let Ok(mut receiver) = self.receiver.try_borrow_mut() else {
            return;
        };
        if let Receiver::Draft(host, draft) = &mut *receiver {
            if let Some(draft) = draft.take() {
                draft.discard(host);
            }
        }
    }
}

/// An output of messages, texts or lines of the log.
#[derive(Drop)]
pub enum Output {
    Error(Stderr),
    Kept(Rc<OutFile>),
}

impl Write for Output {
    fn write(&mut self, buf: &[u8]) -> io::Result<usize> {
        match self {
            Output::Error(out) => out.write(buf),
            Output::Kept(out) => out.write(buf),
        }
    }

    fn flush(&mut self) -> io::Result<()> {
        match self {
            Output::Error(out) => out.flush(),
            // What is written goes to the system at once.
            Output::Kept(_) => Ok(()),
        }
    }
}

/// A sink of the command.
pub type OutSink = Sink<BufWriter<Output>>;

/// Returns the sink of an output.
pub fn open_sink(alloc: Global, output: Output) -> Result<OutSink, Failure> {
    match Sink::buffered(alloc, output) {
        Ok(sink) => Ok(sink),
        Err(_) => Err(Failure::Memory),
    }
}

/// Opens the input of a name. The tracker notes its bytes.
pub fn open_source(
    rt: &HostRuntime,
    name: &str,
    tape: &Rc<Tape>,
) -> Result<Source<Input>, Failure> {
    let input = Input {
        device: open_device(rt, name)?,
        tape: Rc::clone(tape)?,
    };
    match Source::new(rt.alloc(), input) {
        Ok(source) => Ok(source),
        Err(_) => Err(Failure::Memory),
    }
}

/// Returns the bytes of a file.
pub fn read_file(rt: &HostRuntime, name: &str) -> Result<Vec<u8>, Failure> {
    match fs::read(rt, name) {
        Ok(bytes) => Ok(bytes),
        Err(e) => Err(Failure::file(rt.alloc(), name, e)),
    }
}

/// Opens the device of an input by its name. `-` means standard input.
fn open_device(rt: &HostRuntime, name: &str) -> Result<Device, Failure> {
    if name == "-" {
        return Ok(Device::Standard(rt.stdin()));
    }
    match File::open(rt, name) {
        Ok(file) => Ok(Device::Named(file)),
        Err(e) => Err(Failure::file(rt.alloc(), name, e)),
    }
}
