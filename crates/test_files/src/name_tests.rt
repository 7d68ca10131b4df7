//! The parts of paths.

use hagzimot_files::names::{draft_path, folder_of, linked_path, split_path};
use hagzimot_files::places::is_standard;
use std::alloc::AllocError;

#[test]
fn a_path_is_split_at_its_last_slash(rt: HostRuntime) {
    assert!(rt; split_path("a/b/c") == ("a/b/", "c"));
    assert!(rt; split_path("c") == ("", "c"));
    assert!(rt; folder_of("a/b/c") == "a/b");
    assert!(rt; folder_of("/c") == "/");
    assert!(rt; folder_of("c") == ".");
}

#[test]
fn a_link_leads_from_its_folder(rt: HostRuntime) -> Result<(), AllocError> {
    let alloc = rt.alloc();
    assert!(rt; linked_path(alloc, "a/link", "b/c")?.as_str() == "a/b/c");
    assert!(rt; linked_path(alloc, "link", "../c")?.as_str() == "../c");
    assert!(rt; linked_path(alloc, "a/link", "/c")?.as_str() == "/c");
    Ok(())
}

#[test]
fn a_draft_lies_beside_its_file(rt: HostRuntime) -> Result<(), AllocError> {
    let alloc = rt.alloc();
    assert!(rt; draft_path(alloc, "/a/x", 12, 3)?.as_str() == "/a/.x.hagzimot-12-3");
    let mut long = String::new(alloc);
    for _ in 0..181 {
        long.push_str("n")?;
    }
    assert!(rt; draft_path(alloc, long.as_str(), 1, 2)?.as_str() == "..hagzimot-1-2");
    Ok(())
}

#[test]
fn standard_output_has_four_names(rt: HostRuntime) {
    assert!(rt; is_standard("-") && is_standard("/dev/fd/1"));
    assert!(rt; !is_standard("/dev/fd/2") && !is_standard(""));
}
