//! Marks on standard error, between which a shim counts and refuses allocations.

/// Begins the count of allocations.
pub fn begin(rt: &HostRuntime) {
    // Where standard error is closed nothing is counted, which the script sees.
    let _told = eprint!(rt; "[");
}

/// Ends the count of allocations.
pub fn end(rt: &HostRuntime) {
    let _told = eprint!(rt; "]");
}
