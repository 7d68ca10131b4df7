//! Calls of the system on which a draft is written.
ghost use Rattle.std.specs.Prelude.{◌≡◌, ◌≤◌, List, ◌∷◌, length, take, string_bytes, IfOk, OnOk, OnErr};
ghost use Rattle.hagzimot_files.specs.Calls.{Name, FileCall, created, wrote, synced, renamed_to, removed, synced_names};

use std::io;

/// The mode of a file, and its owner and group.
#[derive(Clone, Copy, Debug, PartialEq, Eq)]
pub struct Owners {
    pub mode: u32,
    pub uid: u32,
    pub gid: u32,
}

/// A system of files, with a record of its calls. After these calls, names hold `tree_after` of
/// `specs/Calls.antt`.
///
/// A call that fails changes nothing that a name holds. After `sync` or `sync_folder` has failed,
/// what was written may be lost if the machine stops.
pub trait Files {
    /// A file that was made here.
    type File: Drop;

    /// A folder.
    type Folder: Drop;

    /// The calls that succeeded, the newest first.
    ghost calls: { Self → List FileCall };

    /// The name under which a file was made.
    ghost made_as: { Self.File → Name };

    /// Makes a file of a name that nothing has, which nobody else may read if it is private.
    fn create_new(&mut self, path: String, is_private: bool) -> io::Result<Self::File>
        ensures ok { OnOk result (calls self.new ≡ created (string_bytes path) ∷ calls self.old) }
        ensures name { IfOk result (λ f. made_as f ≡ string_bytes path) }
        ensures err { OnErr result (calls self.new ≡ calls self.old) };

    /// Gives a file the mode and, if permitted, the owners of another one.
    fn set_owners(&mut self, file: &Self::File, owners: Owners) -> io::Result<()>
        ensures { calls self.new ≡ calls self.old };

    /// Appends bytes to a file, and returns the number that was written.
    fn write(&mut self, file: &Self::File, bytes: &[u8]) -> io::Result<usize>
        ensures ok { IfOk result (λ n. calls self.new ≡ wrote (made_as file.now)
            (take n bytes.now) ∷ calls self.old) }
        ensures bound { IfOk result (λ n. n ≤ length bytes.now) }
        ensures err { OnErr result (calls self.new ≡ calls self.old) };

    /// Syncs the bytes of a file.
    fn sync(&mut self, file: &Self::File) -> io::Result<()>
        ensures ok { OnOk result (calls self.new ≡ synced (made_as file.now) ∷ calls self.old) }
        ensures err { OnErr result (calls self.new ≡ calls self.old) };

    /// Gives a file another name, which may be that of another file.
    fn rename(&mut self, file: &Self::File, to: &str) -> io::Result<()>
        ensures ok { OnOk result (calls self.new ≡ renamed_to (made_as file.now) to.now
            ∷ calls self.old) }
        ensures err { OnErr result (calls self.new ≡ calls self.old) };

    /// Removes the name under which a file was made.
    fn remove(&mut self, file: &Self::File) -> io::Result<()>
        ensures ok { OnOk result (calls self.new ≡ removed (made_as file.now) ∷ calls self.old) }
        ensures err { OnErr result (calls self.new ≡ calls self.old) };

    /// Opens a folder.
    fn open_folder(&mut self, path: &str) -> io::Result<Self::Folder>
        ensures { calls self.new ≡ calls self.old };

    /// Syncs the names of a folder.
    fn sync_folder(&mut self, folder: &Self::Folder) -> io::Result<()>
        ensures ok { OnOk result (calls self.new ≡ synced_names ∷ calls self.old) }
        ensures err { OnErr result (calls self.new ≡ calls self.old) };
}
