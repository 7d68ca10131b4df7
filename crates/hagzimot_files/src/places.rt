//! Where the name of an output leads, and which names lead to one file.
ghost use Rattle.std.specs.Prelude.{◌≡◌, ◌↔◌, Err, [], is_some, IsTrue, IfOk, IfErr};
ghost use Rattle.std.specs.Fs.{file_type, IsDir, IsFile};
ghost use Rattle.hagzimot_files.specs.declared.places.PlaceError.{PlaceError};
ghost use Rattle.hagzimot_files.specs.Places.{IsAt, AreOneFile, IsStandardName, is_replaced, is_stream, OpensDirectly};

use crate::files::Owners;
use crate::names::{folder_of, linked_path, split_path};
use std::alloc::{AllocError, AllocFailed};
use std::fs::{File, Metadata, OpenOptions};
use std::os::unix::fs::{FileTypeExt, MetadataExt};
use std::{fs, io};
use thiserror::Error;

/// The most symbolic links that are followed, as the system's own bound.
const MOST_LINKS: usize = 40;

/// Where the system shows the descriptors of a process, as links.
const DESCRIPTORS: &str = "/proc/self/fd";

/// A file of the system.
#[derive(Clone, Copy, Debug, PartialEq, Eq)]
pub struct FileId {
    pub device: u64,
    pub inode: u64,
}

/// What is at a path.
#[derive(Debug, Drop)]
pub enum Place {
    /// A file, which is replaced as a whole.
    File { id: FileId, owners: Owners },
    /// Nothing: a file of this name is made in a folder.
    Free { folder: FileId, name: String },
    /// A device, which several may write to.
    Device(FileId),
    /// A pipe, a socket or an open descriptor, which is written to as it is.
    Stream(FileId),
}

/// The output that a name leads to.
#[derive(Debug, Drop)]
pub struct Target {
    /// The path behind all symbolic links.
    pub path: String,
    pub place: Place,
}

/// Why a name can't be that of an output.
#[derive(Debug, Drop, Error)]
pub enum PlaceError {
    #[error("there is no memory left")]
    Memory,
    #[error("the name is empty (write - for standard output)")]
    Empty,
    #[error("Is a folder (name a file in it)")]
    Folder,
    #[error("there is no folder {0} (make it first)")]
    NoFolder(String),
    #[error("more than 40 symbolic links")]
    Links,
    #[error("{0}")]
    System(io::Error),
}

impl From<AllocError> for PlaceError {
    fn from(_e: AllocError) -> PlaceError {
        PlaceError::Memory
    }
}

impl<T: Drop> From<AllocFailed<T>> for PlaceError {
    fn from(_e: AllocFailed<T>) -> PlaceError {
        PlaceError::Memory
    }
}

/// The file of which the system says this.
fn id_of(metadata: &Metadata) -> FileId {
    FileId {
        device: metadata.dev(),
        inode: metadata.ino(),
    }
}

/// What the system says of the file to which a path leads, or `None` if nothing is there.
fn metadata_at(rt: &HostRuntime, path: &str) -> io::Result<Option<Metadata>> {
    match fs::metadata(rt, path) {
        Ok(metadata) => Ok(Some(metadata)),
        Err(e) if e.kind() == io::ErrorKind::NotFound => Ok(None),
        Err(e) => Err(e),
    }
}

/// The file to which a path leads, or `None` if nothing is there.
pub fn file_at(rt: &HostRuntime, path: &str) -> io::Result<Option<FileId>> {
    Ok(metadata_at(rt, path)?.map(|metadata| id_of(&metadata)))
}

/// The file of which the system says this, or `None` if that isn't a file.
fn file_in(metadata: &Metadata) -> Option<FileId>
    ensures { IsTrue (is_some result) ↔ IsFile (file_type metadata.now) }
{
    if metadata.is_file() {
        Some(id_of(metadata))
    } else {
        None
    }
}

/// The file to which a descriptor of the process leads, or `None` if that isn't a file.
pub fn file_of_descriptor(rt: &HostRuntime, path: &str) -> io::Result<Option<FileId>> {
    match metadata_at(rt, path)? {
        Some(metadata) => Ok(file_in(&metadata)),
        None => Ok(None),
    }
}

/// Whether a name is that of standard output.
pub fn is_standard(name: &str) -> bool
    ensures { IsTrue result ↔ IsStandardName name.now }
{
    name == "-" || name == "/dev/stdout" || name == "/dev/fd/1" || name == "/proc/self/fd/1"
}

/// The first folder on the way to a path that isn't there.
fn missing_folder(rt: &HostRuntime, path: &str) -> Result<String, AllocError> {
    let mut folder = folder_of(path);
    for _ in 0..path.len() {
        let above = folder_of(folder);
        if above == folder || fs::metadata(rt, above).is_ok() {
            break;
        }
        folder = above;
    }
    String::from_str(rt.alloc(), folder)
}

/// The output of a path at which nothing is.
fn free_place(rt: &HostRuntime, path: &str) -> Result<Place, PlaceError> {
    let (_, name) = split_path(path);
    if name.is_empty() {
        return Err(PlaceError::Folder);
    }
    match fs::metadata(rt, folder_of(path)) {
        Ok(metadata) => Ok(Place::Free {
            folder: id_of(&metadata),
            name: String::from_str(rt.alloc(), name)?,
        }),
        Err(e) if e.kind() == io::ErrorKind::NotFound => Err(PlaceError::NoFolder(missing_folder(
            rt, path,
        )?)),
        Err(e) => Err(PlaceError::System(e)),
    }
}

/// The output at a path of which the system says this.
fn place_of(metadata: &Metadata) -> Result<Place, PlaceError>
    ensures place { IfOk result (λ place.
        IsTrue (is_replaced place) ↔ IsFile (file_type metadata.now)) }
    ensures refused { IfErr result (λ e.
        (e ≡ PlaceError.Folder) × IsDir (file_type metadata.now)) }
{
    let kind = metadata.file_type();
    let id = id_of(metadata);
    if kind.is_dir() {
        return Err(PlaceError::Folder);
    }
    if kind.is_file() {
        let owners = Owners {
            mode: metadata.mode(),
            uid: metadata.uid(),
            gid: metadata.gid(),
        };
        return Ok(Place::File { id, owners });
    }
    if kind.is_char_device() || kind.is_block_device() {
        return Ok(Place::Device(id));
    }
    Ok(Place::Stream(id))
}

/// The output behind a link that stands for an open descriptor.
fn descriptor_place(rt: &HostRuntime, path: &str) -> Result<Place, PlaceError> {
    let metadata = match fs::metadata(rt, path) {
        Ok(metadata) => metadata,
        Err(e) => return Err(PlaceError::System(e)),
    };
    match place_of(&metadata)? {
        Place::File { id, .. } => Ok(Place::Stream(id)),
        place => Ok(place),
    }
}

/// Whether a link is one of those by which the system shows open descriptors.
fn is_descriptor(rt: &HostRuntime, link: &Metadata) -> bool {
    match fs::metadata(rt, DESCRIPTORS) {
        Ok(folder) => folder.dev() == link.dev(),
        Err(_) => false,
    }
}

/// What is at a path, or the path to which a link there leads.
enum Step {
    At(Place),
    Link(String),
}

/// Looks at a path, and follows no more than one link.
fn look(rt: &HostRuntime, path: &str) -> Result<Step, PlaceError> {
    let metadata = match fs::symlink_metadata(rt, path) {
        Ok(metadata) => metadata,
        Err(e) if e.kind() == io::ErrorKind::NotFound => {
            return Ok(Step::At(free_place(rt, path)?));
        }
        Err(e) => return Err(PlaceError::System(e)),
    };
    if !metadata.is_symlink() {
        return Ok(Step::At(place_of(&metadata)?));
    }
    if is_descriptor(rt, &metadata) {
        return Ok(Step::At(descriptor_place(rt, path)?));
    }
    match fs::read_link(rt, path) {
        Ok(link) => match link.to_str() {
            Some(link) => Ok(Step::Link(linked_path(rt.alloc(), path, link)?)),
            None => Err(PlaceError::Links),
        },
        Err(e) => Err(PlaceError::System(e)),
    }
}

/// The output that a name leads to, behind all symbolic links. Nothing is opened. An empty name is
/// refused as such.
pub fn resolve(rt: &HostRuntime, name: &str) -> Result<Target, PlaceError>
    ensures { name.now ≡ [] → result ≡ Err PlaceError.Empty }
{
    if name.is_empty() {
        return Err(PlaceError::Empty);
    }
    let mut path = String::from_str(rt.alloc(), name)?;
    for _ in 0..MOST_LINKS {
        match look(rt, path.as_str())? {
            Step::At(place) => return Ok(Target { path, place }),
            Step::Link(next) => path = next,
        }
    }
    Err(PlaceError::Links)
}

/// Whether what is at a place is this file.
pub fn is_at(place: &Place, id: FileId) -> bool
    ensures { IsTrue result ↔ IsAt place.now id }
{
    match place {
        Place::File { id: file, .. } | Place::Stream(file) => *file == id,
        Place::Free { .. } | Place::Device(_) => false,
    }
}

/// Whether what is written to two places would be in one file.
pub fn is_one_file(a: &Place, b: &Place) -> bool
    ensures { IsTrue result ↔ AreOneFile a.now b.now }
{
    match (a, b) {
        (_, Place::File { id, .. } | Place::Stream(id)) => is_at(a, *id),
        (
            Place::Free { folder, name },
            Place::Free {
                folder: other,
                name: other_name,
            },
        ) => folder == other && name == other_name,
        _ => false,
    }
}

/// Whether what is at a place is a pipe, a socket or an open descriptor.
fn is_stream(place: &Place) -> bool
    ensures { result ≡ is_stream place.now }
{
    matches!(place, Place::Stream(_))
}

/// How what is written to as it is gets opened. Nothing is made and nothing emptied, and a stream
/// is written to at its end.
fn direct_options(place: &Place) -> OpenOptions
    ensures { OpensDirectly place.now result }
{
    let appends = is_stream(place);
    let mut how = OpenOptions::new();
    how.append(appends);
    how.write(!appends);
    how
}

/// Opens what is written to as it is, as `direct_options` says. What was written to it before
/// stays.
pub fn open_direct(rt: &HostRuntime, path: &str, place: &Place) -> io::Result<File> {
    direct_options(place).open(rt, path)
}
