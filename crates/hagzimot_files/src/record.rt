//! A list of calls that only clauses read, for what implements `Files`.
ghost use Rattle.std.specs.Prelude.{◌≡◌, List, [], ◌∷◌};
ghost use Rattle.std.specs.Borrow.{ftrue};
ghost use Rattle.hagzimot_files.specs.Calls.{FileCall};
ghost use Rattle.hagzimot_files.specs.Note.{file_call};

use std::marker::{Model, PhantomData};

/// The calls that succeeded, the newest first. It takes no bytes.
#[derive(Drop)]
pub struct Record {
    marker: PhantomData<u8>,
    pub ghost calls: { List FileCall },
}

impl Model for Record {
    ghost also_owns = { λ _. ftrue };
}

impl Record {
    /// No call.
    pub fn new() -> Record
        ensures { result.calls ≡ [] }
    {
        Record {
            marker: PhantomData,
        }
    }

    /// Notes a call: its number, its name, and its bytes or its second name.
    pub fn note(&mut self, _number: &[u64], _name: &[u8], _bytes: &[u8])
        ensures { self.new.calls ≡ file_call _number.now _name.now _bytes.now ∷ self.old.calls }
    {}
}
