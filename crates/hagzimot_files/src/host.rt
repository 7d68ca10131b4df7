//! The files of the operating system.
ghost use Rattle.std.specs.Prelude.{string_bytes};

use crate::files::{Files, Owners};
use crate::record::Record;
use std::fs::{File, OpenOptions, Permissions};
use std::io::Write;
use std::os::unix::fs::{MetadataExt, OpenOptionsExt, PermissionsExt, fchown};
use std::{fs, io};

const CREATED: u64 = 0;

const WROTE: u64 = 1;

const SYNCED: u64 = 2;

const RENAMED: u64 = 3;

const REMOVED: u64 = 4;

const SYNCED_NAMES: u64 = 5;

/// The number of times that a call is made if a signal interrupts it.
const TRIES: u32 = 100;

/// The bits of a mode that are permissions.
const PERMISSIONS: u32 = 0o7777;

/// The permissions without the bits that run a program as its owner.
const PLAIN_PERMISSIONS: u32 = 0o777;

/// The files of the operating system. Each method makes its call of the system, and then notes it
/// if it succeeded.
#[derive(Drop)]
pub struct Host {
    rt: HostRuntime,
    log: Record,
}

/// A file that was made, and its path.
#[derive(Drop)]
pub struct HostFile {
    path: String,
    file: File,
}

impl Host {
    ghost use Rattle.std.specs.Prelude.{◌≡◌, []};

    /// Returns the files of the operating system, with no call noted.
    pub fn new(rt: &HostRuntime) -> Host
        ensures { result.log.calls ≡ [] }
    {
        Host {
            rt: *rt,
            log: Record::new(),
        }
    }
}

/// Gives a file an owner and a group if that is permitted, and returns whether it was.
fn change_owners(file: &File, owners: Owners) -> io::Result<bool> {
    match fchown(file, Some(owners.uid), Some(owners.gid)) {
        Ok(()) => Ok(true),
        Err(e) if e.kind() == io::ErrorKind::PermissionDenied => {
            // Only the group may be permitted.
            let _changed = fchown(file, None, Some(owners.gid));
            Ok(false)
        }
        Err(e) => Err(e),
    }
}

/// Gives a file the mode and, if permitted, the owners of another one.
fn take_owners(file: &File, owners: Owners) -> io::Result<()> {
    let metadata = file.metadata()?;
    let mut mode = owners.mode & PERMISSIONS;
    if metadata.uid() != owners.uid || metadata.gid() != owners.gid {
        if !change_owners(file, owners)? {
            mode &= PLAIN_PERMISSIONS;
        }
    }
    if metadata.mode() & PERMISSIONS == mode {
        return Ok(());
    }
    file.set_permissions(Permissions::from_mode(mode))
}

/// Removes a file. A call that a signal interrupts is made again.
fn remove_file(rt: &HostRuntime, path: &str) -> io::Result<()> {
    for _ in 0..TRIES {
        match fs::remove_file(rt, path) {
            Err(e) if e.kind() == io::ErrorKind::Interrupted => {}
            removed => return removed,
        }
    }
    fs::remove_file(rt, path)
}

impl Files for Host {
    type File = HostFile;

    type Folder = File;

    ghost calls = { λ h. h.log.calls };

    ghost made_as = { λ f. string_bytes f.path };

    fn create_new(&mut self, path: String, is_private: bool) -> io::Result<HostFile> {
        let mut how = OpenOptions::new();
        how.write(true).create_new(true);
        if is_private {
            how.mode(0o600);
        }
        let file = how.open(&self.rt, path.as_str())?;
        self.log.note(&[CREATED], path.as_bytes(), &[]);
        Ok(HostFile { path, file })
    }

    fn set_owners(&mut self, file: &HostFile, owners: Owners) -> io::Result<()> {
        take_owners(&file.file, owners)
    }

    fn write(&mut self, file: &HostFile, bytes: &[u8]) -> io::Result<usize> {
        let len = (&file.file).write(bytes)?;
        self.log.note(&[WROTE], file.path.as_bytes(), &bytes[..len]);
        Ok(len)
    }

    fn sync(&mut self, file: &HostFile) -> io::Result<()> {
        file.file.sync_all()?;
        self.log.note(&[SYNCED], file.path.as_bytes(), &[]);
        Ok(())
    }

    fn rename(&mut self, file: &HostFile, to: &str) -> io::Result<()> {
        fs::rename(&self.rt, file.path.as_str(), to)?;
        self.log
            .note(&[RENAMED], file.path.as_bytes(), to.as_bytes());
        Ok(())
    }

    fn remove(&mut self, file: &HostFile) -> io::Result<()> {
        remove_file(&self.rt, file.path.as_str())?;
        self.log.note(&[REMOVED], file.path.as_bytes(), &[]);
        Ok(())
    }

    fn open_folder(&mut self, path: &str) -> io::Result<File> {
        File::open(&self.rt, path)
    }

    fn sync_folder(&mut self, folder: &File) -> io::Result<()> {
        folder.sync_all()?;
        self.log.note(&[SYNCED_NAMES], &[], &[]);
        Ok(())
    }
}
