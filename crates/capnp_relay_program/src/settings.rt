//! The settings of a run, from its arguments and files.
ghost use Rattle.std.specs.Prelude.{◌≡◌, Ok, Err, map, string_bytes, option_map, IsSome, IfOk, IfErr, ⊤};
ghost use Rattle.std.specs.Option.{option_copied};
ghost use Rattle.capnp_calls.specs.CallViews.{call_view};
ghost use Rattle.capnp_calls_versions.specs.Renamed.{renamings_of};
ghost use Rattle.capnp_relay_files.specs.CallViews.{parts_of, file_of};
ghost use Rattle.capnp_relay_program.specs.Faults.{IsStopRefusal};
ghost use Rattle.capnp_relay_program.specs.Calls.{calls_from};
ghost use Rattle.capnp_relay_program.specs.Asked.{file_calls, newer_in, file_renamings, limits_in, forms_of, relay_limits, request, asked, RefusesToAsk};
ghost use Rattle.capnp_relay_program.specs.Versions.{nodes_at, HasRootId};

use crate::arguments::{Arguments, Forms};
use crate::stop::Stop;
use crate::version::Version;
use capnp_calls::{Call, CallFault, CallValue, Step, Verb};
use capnp_calls_versions::renamings::{RenamingFault, Renamings};
use capnp_relay_files::calls_file::{CallsFile, calls_file};
use capnp_relay_files::fault::FileFault;
use capnp_relay_files::renames_file::renames_file;
use capnp_relay_loop::ends::Fault;
use capnp_relay_streams::options::{Form, ReaderOptions, RelayOptions};
use std::alloc::Global;

/// The settings of a run.
#[derive(Drop)]
pub struct Settings {
    pub(crate) version: Version,
    /// The newer version, with the same root, if an argument names its file.
    pub(crate) newer: Option<Version>,
    /// The newer version's names of the older fields; `None` if no argument names a file of them.
    pub renamings: Renamings,
    pub calls: Vec<Call>,
    pub options: RelayOptions,
    /// The form of the input.
    pub(crate) input: Form,
    pub ghost same_root: { HasRootId newer version.root.id },
    pub ghost same_input: { options.input ≡ input },
}

/// Returns the newer version, if an argument names its file.
fn newer_version(
    alloc: Global,
    is_named: bool,
    file: Option<&[u8]>,
    id: u64,
) -> Result<Option<Version>, Stop>
    ensures ok { IfOk result (λ v. newer_in is_named (option_copied file.entry) id
        ≡ Ok (option_map nodes_at v)) }
    ensures root { IfOk result (λ v. HasRootId v id) }
    ensures refused { IfErr result (IsStopRefusal (IsSome file.entry)
        (newer_in is_named (option_copied file.entry) id)) }
{
    if !is_named {
        return Ok(None);
    }
    Ok(Some(Version::new(alloc, file, id)?))
}

/// Returns the renamings of the renames file, if an argument names it.
fn named_renamings(alloc: Global, is_named: bool, file: Option<&[u8]>) -> Result<Renamings, Stop>
    ensures ok { IfOk result (λ rs.
        file_renamings is_named (option_copied file.entry) ≡ Ok (renamings_of rs)) }
    ensures refused { IfErr result (IsStopRefusal (IsSome file.entry)
        (file_renamings is_named (option_copied file.entry))) }
{
    if !is_named {
        return Ok(Renamings::none(alloc));
    }
    let bytes = file.ok_or(Stop::RenamesFile)?;
    let list = match renames_file(alloc, bytes) {
        Ok(list) => list,
        Err(FileFault::Form) => return Err(Stop::RenamesFile),
        Err(FileFault::Memory) => return Err(Stop::Relay(Fault::Memory)),
    };
    match Renamings::new(list) {
        Ok(renamings) => Ok(renamings),
        Err(RenamingFault::Twice) => Err(Stop::RenamesFile),
        Err(RenamingFault::Memory) => Err(Stop::Relay(Fault::Memory)),
    }
}

/// Reads a calls file; if there is no file, nothing is read.
fn calls_text(alloc: Global, file: Option<&[u8]>) -> Result<CallsFile, Stop>
    ensures ok { IfOk result (λ text. file_calls (option_copied file.entry) ≡ Ok (file_of text)) }
    ensures refused { IfErr result (IsStopRefusal (IsSome file.entry)
        (file_calls (option_copied file.entry))) }
{
    let bytes = file.ok_or(Stop::CallsFile)?;
    match calls_file(alloc, bytes) {
        Ok(text) => Ok(text),
        Err(FileFault::Form) => Err(Stop::CallsFile),
        Err(FileFault::Memory) => Err(Stop::Relay(Fault::Memory)),
    }
}

/// Makes the calls of a calls file, or returns the first that is refused.
fn made_calls(
    alloc: Global,
    parts: Vec<(Vec<Step>, Verb, Option<CallValue>)>,
) -> Result<Vec<Call>, Stop>
    ensures ok { IfOk result (λ calls. calls_from 1 (map parts_of parts.items)
        ≡ Ok (map call_view calls.items)) }
    ensures refused { IfErr result (IsStopRefusal ⊤ (calls_from 1 (map parts_of parts.items))) }
{
    let mut calls = Vec::new(alloc);
    for (path, verb, value) in parts {
        match Call::new(alloc, path, verb, value) {
            Ok(call) => calls.push(call)?,
            Err(CallFault::Memory) => return Err(Stop::Relay(Fault::Memory)),
            Err(_) => return Err(Stop::Call(calls.len() + 1)),
        }
    }
    Ok(calls)
}

/// Makes the options of these forms and limits.
fn options_of(forms: Forms, words: usize, nesting: i32) -> Result<RelayOptions, Stop>
    ensures forms { IfOk result (λ options. forms_of options ≡ forms) }
    ensures limits { IfOk result (λ options. limits_in words nesting ≡ Ok (relay_limits options)) }
    ensures refused { IfErr result (λ stop. limits_in words nesting ≡ Err stop) }
{
    let limits = ReaderOptions {
        traversal_limit_in_words: Some(words),
        nesting_limit: nesting,
    };
    match RelayOptions::new(forms.input, forms.output, limits) {
        Ok(options) if forms.plain => Ok(options.plain()),
        Ok(options) => Ok(options),
        Err(_) => Err(Stop::Options),
    }
}

impl Settings {
    ghost use Rattle.capnp_relay_program.specs.Settings.{asked_of};

    /// Makes the settings of the arguments and the files, or returns the first fault:
    /// 1. of the arguments;
    /// 2. of the schema file, its rules and the root;
    /// 3. of the newer schema file, its rules and the root, if an argument names one;
    /// 4. of the renames file, if an argument names one;
    /// 5. of the calls file, the calls and the limits.
    ///
    /// A file that can't be read is `None`. `Relay(Memory)`: an allocation was refused.
    pub fn new(
        alloc: Global,
        words: &[String],
        schema: Option<&[u8]>,
        calls: Option<&[u8]>,
        newer: Option<&[u8]>,
        renames: Option<&[u8]>,
    ) -> Result<Settings, Stop>
        ensures ok { IfOk result (λ s.
            asked (request (map string_bytes words.now) (option_copied schema.entry)
            (option_copied calls.entry) (option_copied newer.entry) (option_copied renames.entry))
            ≡ Ok (asked_of s)) }
        ensures refused { IfErr result
            (RefusesToAsk (request (map string_bytes words.now) (option_copied schema.entry)
            (option_copied calls.entry) (option_copied newer.entry)
            (option_copied renames.entry))) }
    {
        let arguments = Arguments::new(words).ok_or(Stop::Arguments)?;
        let version = Version::new(alloc, schema, arguments.root)?;
        let newer = newer_version(alloc, arguments.newer, newer, arguments.root)?;
        let renamings = named_renamings(alloc, arguments.renames, renames)?;
        let text = calls_text(alloc, calls)?;
        let calls = made_calls(alloc, text.calls)?;
        let options = options_of(arguments.forms, text.words, text.nesting)?;
        Ok(Settings {
            version,
            newer,
            renamings,
            calls,
            options,
            input: arguments.forms.input,
        })
    }
}
