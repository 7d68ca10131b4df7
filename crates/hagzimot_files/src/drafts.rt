//! Files that are written beside a name, and get the name once they are whole.
ghost use Rattle.std.specs.Prelude.{◌≡◌, ℕ, ◌≤◌, ◌∷◌, false, length, take, bytes_eq, is_some, string_bytes, IfOk, OnOk, OnErr, IsTrue};
ghost use Rattle.hagzimot_files.specs.Calls.{created, wrote};
ghost use Rattle.hagzimot_files.specs.Faults.{IfKept, IfUnsynced};
ghost use Rattle.hagzimot_files.specs.Names.{IsDraftOf};
ghost use Rattle.hagzimot_files.specs.Drafts.{Throughout, ReplacesFile, KeepsOthers, HasSyncedNames, IsOldOrNew, MakesNoDraft, MayRemove, made_ready, with_synced_names};

use crate::faults::CommitError;
use crate::files::{Files, Owners};
use crate::names::{draft_path, folder_of};
use std::alloc::Global;
use std::io;

/// The number of names that are tried for a draft.
const TRIES: u32 = 100;

/// The file that a draft becomes.
#[derive(Debug, Drop)]
pub struct Goal {
    /// The name that the draft gets.
    pub path: String,
    /// The owners of the file that has the name now, if there is one.
    pub owners: Option<Owners>,
    /// The number of the process, which is a part of the draft's name.
    pub process: u32,
    /// Bytes and names are synced.
    pub sync: bool,
}

/// A file that is written beside the name that it is to get.
#[derive(Drop)]
pub struct Draft<F: Files> {
    file: F::File,
    /// The folder of the name, if the folder is synced.
    folder: Option<F::Folder>,
    path: String,
    ghost beside: { bytes_eq (string_bytes path) (F.made_as file) ≡ false },
}

/// Makes a file of a name that nothing has, beside a path.
fn create_beside<F: Files>(files: &mut F, alloc: Global, goal: &Goal) -> io::Result<F::File>
    ensures made { IfOk result (λ f. F.calls files.new ≡ created (F.made_as f)
        ∷ F.calls files.old) }
    ensures beside { IfOk result (λ f. bytes_eq (string_bytes goal.now.path) (F.made_as f)
        ≡ false) }
    ensures place { IfOk result (λ f. (number : ℕ) × IsDraftOf
        (string_bytes goal.now.path) goal.now.process number (F.made_as f)) }
    ensures err { OnErr result (F.calls files.new ≡ F.calls files.old) }
{
    let path = goal.path.as_str();
    for number in 0..TRIES {
        let beside = draft_path(alloc, path, goal.process, number)?;
        if path == beside.as_str() {
            continue;
        }
        match files.create_new(beside, goal.owners.is_some()) {
            Ok(file) => return Ok(file),
            Err(e) if e.kind() == io::ErrorKind::AlreadyExists => {}
            Err(e) => return Err(e),
        }
    }
    Err(io::Error::from(io::ErrorKind::AlreadyExists))
}

/// Removes a draft. If it can't be removed it stays, under a name of its own.
fn give_up<F: Files>(files: &mut F, file: &F::File)
    ensures { MayRemove (F.made_as file.now) (F.calls files.old) (F.calls files.new) }
{
    let _removed = files.remove(file);
}

/// Syncs the bytes of a draft if `sync` is set.
fn make_ready<F: Files>(files: &mut F, file: &F::File, sync: bool) -> io::Result<()>
    ensures ok { OnOk result (F.calls files.new ≡ made_ready sync (F.made_as file.now)
        (F.calls files.old)) }
    ensures err { OnErr result (F.calls files.new ≡ F.calls files.old) }
{
    if sync { files.sync(file) } else { Ok(()) }
}

/// Syncs the names of a folder if there is one.
fn sync_names<F: Files>(files: &mut F, folder: Option<F::Folder>) -> io::Result<()>
    ensures ok { OnOk result (F.calls files.new ≡ with_synced_names (is_some folder)
        (F.calls files.old)) }
    ensures err { OnErr result (F.calls files.new ≡ F.calls files.old) }
{
    match folder {
        Some(folder) => files.sync_folder(&folder),
        None => Ok(()),
    }
}

impl<F: Files> Draft<F> {
    /// Makes an empty file beside a name, of a name that nothing has.
    pub fn create(files: &mut F, alloc: Global, goal: Goal) -> io::Result<Draft<F>>
        ensures made { IfOk result (λ d. F.calls files.new ≡ created (F.made_as d.file)
            ∷ F.calls files.old) }
        ensures place { IfOk result (λ d. (number : ℕ) × IsDraftOf
            (string_bytes goal.path) goal.process number (F.made_as d.file)) }
        ensures path { IfOk result (λ d. string_bytes d.path ≡ string_bytes goal.path) }
        ensures sync { IfOk result (λ d. is_some d.folder ≡ goal.sync) }
        ensures err { OnErr result (MakesNoDraft (F.calls files.old) (F.calls files.new)) }
    {
        let folder = if goal.sync {
            Some(files.open_folder(folder_of(goal.path.as_str()))?)
        } else {
            None
        };
        let file = create_beside(files, alloc, &goal)?;
        if let Some(owners) = goal.owners {
            if let Err(e) = files.set_owners(&file, owners) {
                give_up(files, &file);
                return Err(e);
            }
        }
        Ok(Draft {
            file,
            folder,
            path: goal.path,
        })
    }

    /// Appends bytes to the draft, and returns the number that was written.
    pub fn write(&self, files: &mut F, bytes: &[u8]) -> io::Result<usize>
        ensures ok { IfOk result (λ n. F.calls files.new ≡ wrote (F.made_as self.now.file)
            (take n bytes.now) ∷ F.calls files.old) }
        ensures bound { IfOk result (λ n. n ≤ length bytes.now) }
        ensures err { OnErr result (F.calls files.new ≡ F.calls files.old) }
    {
        files.write(&self.file, bytes)
    }

    /// Gives the draft its name, and syncs its bytes and the name if its goal says so. At each
    /// moment the name holds what it held before, or the whole draft.
    pub fn commit(self, files: &mut F) -> Result<(), CommitError>
        ensures replaces { OnOk result (ReplacesFile (F.made_as self.file) (string_bytes self.path)
            (is_some self.folder) (F.calls files.old) (F.calls files.new)) }
        ensures lasts { OnOk result (IsTrue (is_some self.folder) → HasSyncedNames
            (F.calls files.new)) }
        ensures kept { IfKept result (KeepsOthers (F.made_as self.file) (F.calls files.old)
            (F.calls files.new)) }
        ensures unsynced { IfUnsynced result (ReplacesFile (F.made_as self.file)
            (string_bytes self.path)
            (is_some self.folder) (F.calls files.old) (F.calls files.new)) }
        ensures moments { Throughout (IsOldOrNew (F.made_as self.file) (string_bytes self.path)
            (is_some self.folder) (F.calls files.old)) (F.calls files.old) (F.calls files.new) }
    {
        let Draft { file, folder, path } = self;
        if let Err(e) = make_ready(files, &file, folder.is_some()) {
            give_up(files, &file);
            return Err(CommitError::Kept(e));
        }
        if let Err(e) = files.rename(&file, path.as_str()) {
            give_up(files, &file);
            return Err(CommitError::Kept(e));
        }
        match sync_names(files, folder) {
            Ok(()) => Ok(()),
            Err(e) => Err(CommitError::Unsynced(e)),
        }
    }

    /// Removes the draft. If it can't be removed it stays.
    pub fn discard(self, files: &mut F)
        ensures { KeepsOthers (F.made_as self.file) (F.calls files.old) (F.calls files.new) }
    {
        give_up(files, &self.file);
    }
}
