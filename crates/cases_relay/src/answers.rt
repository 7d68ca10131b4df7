//! The answers of calls of the library, as texts.

use crate::case::{Case, Fault};
use crate::given::{Given, hex_of};
use capnp_calls::message::MessageValue;
use capnp_calls::resolved::resolve;
use capnp_calls::{Call, CallFault};
use capnp_calls_in_place::sets::{plain_sets, write_sets};
use capnp_calls_in_place::splices::{are_spliced, write_splices};
use capnp_calls_splice::splice::Spliced;
use capnp_calls_versions::admitted::{Admission, admitted, admitted_with};
use capnp_calls_versions::compatible::{compatible, compatible_with};
use capnp_calls_versions::root::Root;
use capnp_message::options::ReaderOptions;
use capnp_relay_files::calls_file::calls_file;
use capnp_relay_files::fault::FileFault;
use capnp_relay_files::renames_file::renames_file;
use capnp_relay_files::schema_file::schema_file;
use capnp_relay_show::show::{ShowFault, show};
use capnp_units::sizes::{Word, words_as_bytes};
use std::alloc::Global;

fn text(alloc: Global, text: &str) -> Result<String, Fault> {
    Ok(String::from_str(alloc, text)?)
}

/// Returns the text of a framed message under the limits of the calls file; without a limit of
/// words if there is no such file.
pub fn text_of(alloc: Global, given: &Given, message: &[u8]) -> Result<String, Fault> {
    let version = given.older(alloc)?;
    let mut options = ReaderOptions {
        traversal_limit_in_words: None,
        nesting_limit: 64,
    };
    if let Some(bytes) = &given.calls {
        let Ok(file) = calls_file(alloc, bytes) else {
            return Err(Fault::Shape);
        };
        options.traversal_limit_in_words = Some(file.words);
        options.nesting_limit = file.nesting;
    }
    match show(alloc, message, version.root(), options) {
        Ok(bytes) => match String::from_utf8(bytes) {
            Ok(text) => Ok(text),
            Err(_) => Err(Fault::Shape),
        },
        Err(ShowFault::Memory) => Err(Fault::Memory),
        Err(fault) => Ok(format!(in alloc; "{fault}")?),
    }
}

/// Returns the text of the case's message.
pub fn shown(alloc: Global, case: &Case) -> Result<String, Fault> {
    text_of(
        alloc,
        &Given::new(alloc, case)?,
        &case.bytes(alloc, "stdin")?,
    )
}

/// Returns whether the newer schema is compatible with the older.
pub fn compatibility(alloc: Global, case: &Case) -> Result<String, Fault> {
    let given = Given::new(alloc, case)?;
    let (older, newer) = (given.older(alloc)?, given.newer(alloc)?);
    let older = Root {
        set: older.root().set(),
        id: given.root()?,
    };
    let newer = Root {
        set: newer.root().set(),
        id: given.root()?,
    };
    let is_compatible = if given.renames.is_some() {
        compatible_with(alloc, older, newer, &given.renamings(alloc)?)?
    } else {
        compatible(alloc, older, newer)?
    };
    text(alloc, if is_compatible { "yes" } else { "no" })
}

/// Returns whether the calls are admitted, or the first call that isn't.
pub fn admission(alloc: Global, case: &Case) -> Result<String, Fault> {
    let given = Given::new(alloc, case)?;
    let settings = given.settings(alloc)?;
    let (older, newer) = (given.older(alloc)?, given.newer(alloc)?);
    let older = Root {
        set: older.root().set(),
        id: given.root()?,
    };
    let newer = Root {
        set: newer.root().set(),
        id: given.root()?,
    };
    let calls = settings.calls.as_slice();
    let admission = if given.renames.is_some() {
        admitted_with(alloc, calls, older, newer, &settings.renamings)?
    } else {
        admitted(alloc, calls, older, newer)?
    };
    match admission {
        Admission::Admitted => text(alloc, "admitted"),
        Admission::Refused(n) => Ok(format!(in alloc; "refused {n}")?),
    }
}

/// Returns the verb and the path of each call of a calls file, or why the call is refused.
pub fn made_calls(alloc: Global, case: &Case) -> Result<String, Fault> {
    let Ok(file) = calls_file(alloc, case.text("text")?.as_bytes()) else {
        return Err(Fault::Shape);
    };
    let mut answers = String::new(alloc);
    for (path, verb, value) in file.calls {
        if !answers.is_empty() {
            answers.push_str("; ")?;
        }
        match Call::new(alloc, path, verb, value) {
            Ok(call) => write!(&mut answers, "{:?} {:?}", call.verb(), call.path())?,
            Err(CallFault::Memory) => return Err(Fault::Memory),
            Err(fault) => write!(&mut answers, "{fault:?}")?,
        }
    }
    Ok(answers)
}

/// Returns the nodes of a schema file.
pub fn schema_text(alloc: Global, case: &Case) -> Result<String, Fault> {
    match schema_file(alloc, case.text("text")?.as_bytes()) {
        Ok(nodes) => Ok(format!(in alloc; "{nodes:?}")?),
        Err(FileFault::Memory) => Err(Fault::Memory),
        Err(FileFault::Form) => text(alloc, "Form"),
    }
}

/// Returns the contents of a calls file.
pub fn calls_text(alloc: Global, case: &Case) -> Result<String, Fault> {
    match calls_file(alloc, case.text("text")?.as_bytes()) {
        Ok(file) => Ok(format!(in alloc; "{file:?}")?),
        Err(FileFault::Memory) => Err(Fault::Memory),
        Err(FileFault::Form) => text(alloc, "Form"),
    }
}

/// Returns the renamings of a renames file.
pub fn renames_text(alloc: Global, case: &Case) -> Result<String, Fault> {
    match renames_file(alloc, case.text("text")?.as_bytes()) {
        Ok(list) => Ok(format!(in alloc; "{list:?}")?),
        Err(FileFault::Memory) => Err(Fault::Memory),
        Err(FileFault::Form) => text(alloc, "Form"),
    }
}

/// Returns the canonical words of a message that a call sets.
pub fn message_words(alloc: Global, case: &Case) -> Result<String, Fault> {
    match MessageValue::new(alloc, &case.bytes(alloc, "stdin")?)? {
        Some(message) => hex_of(alloc, message.segment()),
        None => text(alloc, "none"),
    }
}

/// Returns the words of bytes, without the rest that isn't a whole word.
fn words_of(alloc: Global, bytes: &[u8]) -> Result<Vec<Word>, Fault> {
    let mut words = Vec::new(alloc);
    for chunk in bytes.chunks(8) {
        if let [a, b, c, d, e, f, g, h] = chunk {
            words.push([*a, *b, *c, *d, *e, *f, *g, *h])?;
        }
    }
    Ok(words)
}

/// Returns the canonical words that remain of the given words after the calls set plain fields of
/// the root in them.
pub fn words_after_sets(alloc: Global, case: &Case) -> Result<String, Fault> {
    let given = Given::new(alloc, case)?;
    let (settings, version) = (given.settings(alloc)?, given.older(alloc)?);
    let calls = resolve(alloc, version.root(), &settings.calls)?;
    let Some(sets) = plain_sets(alloc, &calls)? else {
        return text(alloc, "none");
    };
    let mut words = words_of(alloc, &case.bytes(alloc, "stdin")?)?;
    if !write_sets(&mut words, &sets) {
        return text(alloc, "left");
    }
    hex_of(alloc, words_as_bytes(&words))
}

/// Returns the canonical words that remain of the given words after the calls set fields along
/// paths.
pub fn words_after_splices(alloc: Global, case: &Case) -> Result<String, Fault> {
    let given = Given::new(alloc, case)?;
    let (settings, version) = (given.settings(alloc)?, given.older(alloc)?);
    let calls = resolve(alloc, version.root(), &settings.calls)?;
    if !are_spliced(&calls) {
        return text(alloc, "none");
    }
    let mut words = words_of(alloc, &case.bytes(alloc, "stdin")?)?;
    let count = words.len();
    match write_splices(&mut words, count, &calls)? {
        Spliced::Done(left) => {
            words.truncate(left);
            hex_of(alloc, words_as_bytes(&words))
        }
        Spliced::Unplaced => text(alloc, "left"),
        Spliced::Spoiled => text(alloc, "spoiled"),
    }
}
