//! A system of files that records its calls, and fails at a chosen one.
ghost use Rattle.std.specs.Prelude.{string_bytes};

use hagzimot_files::files::{Files, Owners};
use hagzimot_files::record::Record;
use std::alloc::{AllocError, Global};
use std::io;

/// The call that fails.
#[derive(Clone, Copy, Debug, PartialEq, Eq)]
pub enum Failing {
    Nothing,
    SetOwners,
    Sync,
    Rename,
    SyncFolder,
}

/// A file that was made, by its path.
#[derive(Drop)]
pub struct FakeFile {
    path: String,
}

/// A system of files that fails at one call, with the words of each call.
#[derive(Drop)]
pub struct Fake {
    alloc: Global,
    failing: Failing,
    /// The number of names that are taken.
    taken: u32,
    said: String,
    record: Record,
}

impl Fake {
    /// Makes a system in which n names are taken, and one call fails.
    pub fn new(alloc: Global, failing: Failing, taken: u32) -> Fake {
        Fake {
            alloc,
            failing,
            taken,
            said: String::new(alloc),
            record: Record::new(),
        }
    }

    /// Returns the text of each call, a line each.
    pub fn said(&self) -> &str {
        self.said.as_str()
    }
}

/// Records a call, and fails if it is the chosen one.
fn say(said: &mut String, fails: bool, call: &str, path: &str) -> io::Result<()> {
    said.push_str(call)?;
    said.push_str(" ")?;
    said.push_str(path)?;
    said.push_str("\n")?;
    if fails {
        return Err(io::Error::from(io::ErrorKind::Other));
    }
    Ok(())
}

impl Files for Fake {
    type File = FakeFile;

    type Folder = FakeFile;

    ghost calls = { λ f. f.record.calls };

    ghost made_as = { λ f. string_bytes f.path };

    fn create_new(&mut self, path: String, is_private: bool) -> io::Result<FakeFile> {
        let call = if is_private {
            "create_private"
        } else {
            "create"
        };
        say(&mut self.said, false, call, path.as_str())?;
        if self.taken > 0 {
            self.taken -= 1;
            return Err(io::Error::from(io::ErrorKind::AlreadyExists));
        }
        self.record.note(&[0], path.as_bytes(), &[]);
        Ok(FakeFile { path })
    }

    fn set_owners(&mut self, file: &FakeFile, _owners: Owners) -> io::Result<()> {
        say(
            &mut self.said,
            self.failing == Failing::SetOwners,
            "set_owners",
            file.path.as_str(),
        )
    }

    fn write(&mut self, file: &FakeFile, bytes: &[u8]) -> io::Result<usize> {
        say(&mut self.said, false, "write", file.path.as_str())?;
        self.record.note(&[1], file.path.as_bytes(), bytes);
        Ok(bytes.len())
    }

    fn sync(&mut self, file: &FakeFile) -> io::Result<()> {
        say(
            &mut self.said,
            self.failing == Failing::Sync,
            "sync",
            file.path.as_str(),
        )?;
        self.record.note(&[2], file.path.as_bytes(), &[]);
        Ok(())
    }

    fn rename(&mut self, file: &FakeFile, to: &str) -> io::Result<()> {
        say(
            &mut self.said,
            self.failing == Failing::Rename,
            "rename",
            file.path.as_str(),
        )?;
        self.record.note(&[3], file.path.as_bytes(), to.as_bytes());
        Ok(())
    }

    fn remove(&mut self, file: &FakeFile) -> io::Result<()> {
        say(&mut self.said, false, "remove", file.path.as_str())?;
        self.record.note(&[4], file.path.as_bytes(), &[]);
        Ok(())
    }

    fn open_folder(&mut self, path: &str) -> io::Result<FakeFile> {
        say(&mut self.said, false, "open_folder", path)?;
        let path = String::from_str(self.alloc, path)?;
        Ok(FakeFile { path })
    }

    fn sync_folder(&mut self, folder: &FakeFile) -> io::Result<()> {
        say(
            &mut self.said,
            self.failing == Failing::SyncFolder,
            "sync_folder",
            folder.path.as_str(),
        )?;
        self.record.note(&[5], &[], &[]);
        Ok(())
    }
}
