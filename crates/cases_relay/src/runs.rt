//! Runs of the program.

use crate::case::{Case, Fault};
use crate::given::{Given, Left};
use crate::sources::OneByOne;
use capnp_relay_program::program::program;
use capnp_relay_program::sources::Windowed;
use std::alloc::Global;

/// Returns the results of a run of the program, except the number of unread bytes.
fn left_of<R: Windowed>(alloc: Global, given: &Given, source: &mut R) -> Result<Left, Fault> {
    let mut out = Vec::new(alloc);
    let mut log = Vec::new(alloc);
    let status = program(
        alloc,
        &given.words,
        given.schema.as_deref(),
        given.calls.as_deref(),
        given.newer.as_deref(),
        given.renames.as_deref(),
        source,
        &mut out,
        &mut log,
    );
    Ok(Left {
        end: format!(in alloc; "{status}")?,
        out,
        log,
        unread: 0,
    })
}

/// Returns the difference in a run of the program, if any, with its input shown at once and one
/// byte at a time.
pub fn difference(alloc: Global, case: &Case) -> Result<Option<String>, Fault> {
    let given = Given::new(alloc, case)?;
    let input = case.bytes(alloc, "stdin")?;
    let mut source = input.as_slice();
    let mut left = left_of(alloc, &given, &mut source)?;
    left.unread = source.len();
    if let Some(difference) = left.difference(alloc, &given, case)? {
        return Ok(Some(difference));
    }
    let mut source = OneByOne::new(&input);
    let mut left = left_of(alloc, &given, &mut source)?;
    left.unread = source.left();
    left.difference(alloc, &given, case)
}
