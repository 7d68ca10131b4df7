//! Notes on the bytes of an input.

use std::alloc::Global;
use std::cell::{Cell, RefCell};
use std::io;

/// Notes the number of bytes of an input that were read, and the byte at which the current message
/// begins. If bytes are kept, it also has those of the message.
#[derive(Drop)]
pub struct Tape {
    /// The number of bytes that were read.
    given: Cell<u64>,
    /// The number of bytes before the message.
    start: Cell<u64>,
    /// Bytes are kept.
    keeps: bool,
    /// The last bytes that were read. Those before the message may be missing.
    kept: RefCell<Vec<u8>>,
    /// An allocation was refused, so that bytes are missing.
    is_torn: Cell<bool>,
    /// The reason for which the input can't be read, if it can't.
    fault: Cell<Option<io::Error>>,
}

impl Tape {
    /// Returns the notes on an unread input.
    pub fn new(alloc: Global, keeps: bool) -> Tape {
        Tape {
            given: Cell::new(0),
            start: Cell::new(0),
            keeps,
            kept: RefCell::new(Vec::new(alloc)),
            is_torn: Cell::new(false),
            fault: Cell::new(None),
        }
    }

    /// Notes the reason for which the input can't be read, and returns an error of the same kind.
    pub fn note_fault(&self, fault: io::Error) -> io::Error {
        let kind = fault.kind();
        self.fault.set(Some(fault));
        io::Error::from(kind)
    }

    /// Takes the reason for which the input can't be read, if it was noted.
    pub fn take_fault(&self) -> Option<io::Error> {
        self.fault.take()
    }

    /// Notes bytes that were read.
    pub fn note(&self, bytes: &[u8]) {
        if self.keeps {
            self.keep(bytes);
        }
        self.given
            .set(self.given.get().saturating_add(bytes.len() as u64));
    }

    /// Keeps bytes, and drops those before the message.
    fn keep(&self, bytes: &[u8]) {
        let Ok(mut kept) = self.kept.try_borrow_mut() else {
            self.is_torn.set(true);
            return;
        };
        let held = self.given.get().saturating_sub(self.start.get());
        let gone = (kept.len() as u64).saturating_sub(held) as usize;
        let left = kept.len().saturating_sub(gone);
        kept.copy_within(gone.., 0);
        kept.truncate(left);
        if kept.extend_from_slice(bytes).is_err() {
            self.is_torn.set(true);
        }
    }

    /// Returns the number of bytes before the message.
    pub fn start(&self) -> u64 {
        self.start.get()
    }

    /// Tests whether bytes are missing because an allocation was refused.
    pub fn is_torn(&self) -> bool {
        self.is_torn.get()
    }

    /// Notes that the next message begins before the last `ahead` bytes, which were read ahead.
    pub fn turn(&self, ahead: usize) {
        self.start.set(self.given.get().wrapping_sub(ahead as u64));
    }

    /// Returns the bytes of the message, without the last `ahead` bytes, which were read ahead.
    pub fn message(&self, alloc: Global, ahead: usize) -> Option<Vec<u8>> {
        let kept = self.kept.try_borrow().ok()?;
        let held = self.given.get().saturating_sub(self.start.get());
        let front = (kept.len() as u64).saturating_sub(held) as usize;
        let end = kept.len().saturating_sub(ahead);
        kept.get(front..end)?.to_vec(alloc).ok()
    }
}
