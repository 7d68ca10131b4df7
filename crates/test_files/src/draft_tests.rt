//! The calls of drafts, in order, and at faults.

use crate::fake::{Failing, Fake};
use hagzimot_files::drafts::{Draft, Goal};
use hagzimot_files::faults::CommitError;
use hagzimot_files::files::Owners;
use std::alloc::Global;
use std::io;

const OWNERS: Owners = Owners {
    mode: 0o600,
    uid: 1,
    gid: 2,
};

/// Makes the draft of `d/x` by process 7.
fn goal(alloc: Global, owners: Option<Owners>, sync: bool) -> io::Result<Goal> {
    Ok(Goal {
        path: String::from_str(alloc, "d/x")?,
        owners,
        process: 7,
        sync,
    })
}

/// Writes and commits a draft.
fn commit(files: &mut Fake, alloc: Global, sync: bool) -> io::Result<Result<(), CommitError>> {
    let draft = Draft::create(files, alloc, goal(alloc, None, sync)?)?;
    draft.write(files, &[1, 2])?;
    Ok(draft.commit(files))
}

#[test]
fn a_draft_is_synced_before_it_is_renamed(rt: HostRuntime) -> io::Result<()> {
    let mut files = Fake::new(rt.alloc(), Failing::Nothing, 0);
    assert!(rt; commit(&mut files, rt.alloc(), true)?.is_ok());
    let wanted =
        "open_folder d\ncreate d/.x.hagzimot-7-0\nwrite d/.x.hagzimot-7-0\nsync d/.x.hagzimot-7-0\nrename d/.x.hagzimot-7-0\nsync_folder d\n";
    assert!(rt; files.said() == wanted);
    Ok(())
}

#[test]
fn nothing_is_synced_that_need_not(rt: HostRuntime) -> io::Result<()> {
    let mut files = Fake::new(rt.alloc(), Failing::Nothing, 0);
    assert!(rt; commit(&mut files, rt.alloc(), false)?.is_ok());
    let wanted = "create d/.x.hagzimot-7-0\nwrite d/.x.hagzimot-7-0\nrename d/.x.hagzimot-7-0\n";
    assert!(rt; files.said() == wanted);
    Ok(())
}

#[test]
fn a_name_that_is_taken_is_passed_over(rt: HostRuntime) -> io::Result<()> {
    let alloc = rt.alloc();
    let mut files = Fake::new(alloc, Failing::Nothing, 2);
    let draft = Draft::create(&mut files, alloc, goal(alloc, Some(OWNERS), false)?)?;
    draft.discard(&mut files);
    let wanted =
        "create_private d/.x.hagzimot-7-0\ncreate_private d/.x.hagzimot-7-1\ncreate_private d/.x.hagzimot-7-2\nset_owners d/.x.hagzimot-7-2\nremove d/.x.hagzimot-7-2\n";
    assert!(rt; files.said() == wanted);
    let mut full = Fake::new(alloc, Failing::Nothing, 1000);
    let none = Draft::create(&mut full, alloc, goal(alloc, None, false)?).err();
    assert!(rt; none.map(|e| e.kind()) == Some(io::ErrorKind::AlreadyExists));
    Ok(())
}

#[test]
fn a_draft_that_fails_is_removed(rt: HostRuntime) -> io::Result<()> {
    for failing in [Failing::Sync, Failing::Rename] {
        let mut files = Fake::new(rt.alloc(), failing, 0);
        let end = commit(&mut files, rt.alloc(), true)?;
        assert!(rt; matches!(end, Err(CommitError::Kept(_))));
        assert!(rt; files.said().ends_with("\nremove d/.x.hagzimot-7-0\n"));
    }
    let alloc = rt.alloc();
    let mut files = Fake::new(alloc, Failing::SetOwners, 0);
    let end = Draft::create(&mut files, alloc, goal(alloc, Some(OWNERS), false)?);
    assert!(rt; end.is_err());
    assert!(rt; files.said().ends_with("\nremove d/.x.hagzimot-7-0\n"));
    Ok(())
}

#[test]
fn a_folder_that_can_not_be_synced_is_told(rt: HostRuntime) -> io::Result<()> {
    let mut files = Fake::new(rt.alloc(), Failing::SyncFolder, 0);
    let end = commit(&mut files, rt.alloc(), true)?;
    assert!(rt; matches!(end, Err(CommitError::Unsynced(_))));
    assert!(rt; files.said().ends_with("\nsync_folder d\n"));
    Ok(())
}
