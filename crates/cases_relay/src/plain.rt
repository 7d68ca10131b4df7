//! Checks of output in the plain form: its canonical form, its text, and bytes that it lacks.

use crate::answers::text_of;
use crate::case::{Case, Fault};
use crate::given::{Given, difference_of_bytes};
use capnp_message::options::ReaderOptions;
use capnp_relay_streams::options::{Form, RelayOptions};
use capnp_relay_streams::relay::relay;
use std::alloc::Global;

/// The most words that an output here has, and the levels of pointers.
const LIMITS: ReaderOptions = ReaderOptions {
    traversal_limit_in_words: Some(4096),
    nesting_limit: 64,
};

/// Relays an output canonically, framed and without calls, to its end or to a fault, and returns
/// the result.
fn relayed_again(alloc: Global, given: &Given, out: &[u8]) -> Result<Vec<u8>, Fault> {
    let form = given.arguments()?.forms.output;
    let Ok(options) = RelayOptions::new(form, Form::Framed, LIMITS) else {
        return Err(Fault::Shape);
    };
    let version = given.older(alloc)?;
    let mut region = vec![in alloc; 0u8; options.region_len()]?;
    let (mut source, mut again, mut log) = (out, Vec::new(alloc), Vec::new(alloc));
    let end = relay(
        alloc,
        &mut source,
        &mut again,
        &mut log,
        version.root(),
        &[],
        options,
        &mut region,
    );
    match end {
        Ok(_) => Ok(again),
        Err(_) => Err(Fault::Shape),
    }
}

/// Returns the difference of an output in the plain form from what a case gives, if any.
pub fn difference(
    alloc: Global,
    given: &Given,
    out: &[u8],
    case: &Case,
) -> Result<Option<String>, Fault> {
    let again = relayed_again(alloc, given, out)?;
    let told = difference_of_bytes(alloc, case, "again", &again)?;
    if told.is_some() {
        return Ok(told);
    }
    if case.has("shown") {
        let shown = text_of(alloc, given, out)?;
        if shown.as_str() != case.text("shown")? {
            return Ok(Some(shown));
        }
    }
    if case.has("lacks") {
        for byte in case.bytes(alloc, "lacks")? {
            if out.contains(&byte) {
                return Ok(Some(format!(in alloc; "it has a byte {byte}")?));
            }
        }
    }
    Ok(None)
}
