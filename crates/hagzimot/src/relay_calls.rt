//! The calls of `hagzimot relay`, which words and a calls file give.

use crate::faults::Failure;
use crate::files::read_file;
use crate::relay_plan::{Plan, made};
use crate::relay_words::{PartsTrouble, parts_of};
use capnp_calls::{Call, CallFault, Step, Verb};
use capnp_relay_files::calls_file::{CallsFile, calls_file};
use capnp_relay_files::fault::FileFault;
use clap::ArgMatches;
use hagzimot_commands::float_calls::{FloatCallsTrouble, FloatRoot};
use hagzimot_commands::sizes::check_size;
use hagzimot_commands::strict::{Misfit, check_call};
use hagzimot_commands::word_calls::{CallParts, WordTrouble, WordVerb, path_of, path_text};
use hagzimot_forms::calls_form::calls_form_fault;
use hagzimot_schemas::schemas::RootedSchema;
use std::alloc::Global;
use std::fmt::Display;

/// An option that makes calls.
struct CallOption {
    id: &'static str,
    verb: WordVerb,
}

/// The option that clears a member only where it is active.
const CLEAR_ACTIVE: &str = "clear-active";

/// The most calls of that option.
const MOST_PROBES: usize = 64;

/// The options that make calls.
static CALL_OPTIONS: [CallOption; 6] = [
    CallOption {
        id: "set",
        verb: WordVerb::Set,
    },
    CallOption {
        id: "get",
        verb: WordVerb::Get,
    },
    CallOption {
        id: "clear",
        verb: WordVerb::Clear,
    },
    CallOption {
        id: CLEAR_ACTIVE,
        verb: WordVerb::Clear,
    },
    CallOption {
        id: "init",
        verb: WordVerb::Init,
    },
    CallOption {
        id: "initn",
        verb: WordVerb::Initn,
    },
];

/// A call that an option asks for, and where the option stands.
#[derive(Clone, Copy)]
struct Asked<'a> {
    place: usize,
    verb: WordVerb,
    id: &'static str,
    text: &'a str,
}

/// Where calls come from.
#[derive(Drop)]
pub struct CallSources<'a> {
    /// The name of the calls file, and how many calls it has.
    file: &'a str,
    in_file: usize,
    /// The options that make the calls after those.
    asked: Vec<Asked<'a>>,
}

/// The calls that words ask for, in the order in which they stand.
fn asked_calls<'a>(alloc: Global, matches: &ArgMatches<'a>) -> Result<Vec<Asked<'a>>, Failure> {
    let mut asked = Vec::new(alloc);
    for option in CALL_OPTIONS.iter() {
        let (Some(texts), Some(places)) = (
            matches.get_strs(option.id),
            matches.indices_of(option.id),
        ) else {
            continue;
        };
        for (text, place) in texts.iter().zip(places.iter()) {
            asked.push(Asked {
                place: *place,
                verb: option.verb,
                id: option.id,
                text: *text,
            })?;
        }
    }
    asked.sort_by_key(|a| a.place)?;
    Ok(asked)
}

/// The calls of a calls file's text, which gives floats as decimal numbers or not. `Form` where it
/// isn't such a text.
fn calls_in(
    alloc: Global,
    schema: &RootedSchema,
    name: &str,
    bytes: &[u8],
) -> Result<Result<CallsFile, FileFault>, Failure> {
    match calls_file(alloc, bytes) {
        Err(FileFault::Form) => {}
        read => return Ok(read),
    }
    let floats = FloatRoot {
        nodes: schema.nodes(),
        floats: schema.floats(),
        root: schema.root_id(),
    };
    match floats.as_bits(alloc, bytes) {
        Ok(numbered) => Ok(calls_file(alloc, &numbered)),
        Err(FloatCallsTrouble::Call { number, why }) => {
            let call = format!(in alloc; "{name}: call {number}")?;
            Err(Failure::words(alloc, call.as_str(), &why))
        }
        Err(FloatCallsTrouble::Form) => Ok(Err(FileFault::Form)),
        Err(FloatCallsTrouble::Memory) => Err(Failure::Memory),
    }
}

/// The calls file that the words name.
pub fn named_calls(
    rt: &HostRuntime,
    schema: &RootedSchema,
    matches: &ArgMatches<'_>,
) -> Result<Option<CallsFile>, Failure> {
    let alloc = rt.alloc();
    let Some(name) = matches.get_str("calls") else {
        return Ok(None);
    };
    let bytes = read_file(rt, name)?;
    match calls_in(alloc, schema, name, &bytes)? {
        Ok(file) => Ok(Some(file)),
        Err(FileFault::Memory) => Err(Failure::Memory),
        Err(FileFault::Form) => {
            let fault = calls_form_fault(alloc, &bytes);
            Err(Failure::form(alloc, name, "calls", fault))
        }
    }
}

/// The verb of a call, as options and calls files have it.
fn verb_word(verb: Verb) -> &'static str {
    match verb {
        Verb::Get => "get",
        Verb::Set => "set",
        Verb::Init => "init",
        Verb::Initn(_) => "initn",
        Verb::Clear => "clear",
    }
}

impl Asked<'_> {
    /// What is wrong with the option.
    fn failure<T: Display>(self, alloc: Global, why: &T) -> Failure {
        let id = self.id;
        let text = self.text;
        match format!(in alloc; "--{id} {text}") {
            Ok(option) => Failure::words(alloc, option.as_str(), why),
            Err(_) => Failure::Memory,
        }
    }
}

impl CallSources<'_> {
    /// What is wrong with a call, by its number, counted from 1.
    pub fn failure<T: Display>(
        &self,
        alloc: Global,
        number: usize,
        call: &Call,
        why: &T,
    ) -> Failure {
        match number
            .checked_sub(self.in_file.saturating_add(1))
            .and_then(|place| self.asked.get(place))
        {
            Some(asked) => asked.failure(alloc, why),
            None => self.file_failure(alloc, number, call, why),
        }
    }

    /// What is wrong with the call of a number of the calls file.
    fn file_failure<T: Display>(
        &self,
        alloc: Global,
        number: usize,
        call: &Call,
        why: &T,
    ) -> Failure {
        let name = self.file;
        let verb = verb_word(call.verb());
        let Ok(path) = path_text(alloc, call.path()) else {
            return Failure::Memory;
        };
        match format!(in alloc; "{name}: call {number} ({verb} {path})") {
            Ok(words) => Failure::words(alloc, words.as_str(), why),
            Err(_) => Failure::Memory,
        }
    }
}

/// How calls are checked before a message is read.
#[derive(Clone, Copy)]
struct Checks<'a> {
    schema: &'a RootedSchema,
    /// The most words of a message.
    words: u64,
    is_lenient: bool,
}

impl Checks<'_> {
    /// Says why no record could take a call, or that what it makes passes the limit.
    fn fault(self, alloc: Global, call: &Call) -> Option<Misfit> {
        if self.is_lenient {
            return None;
        }
        let (nodes, root) = (self.schema.nodes(), self.schema.root_id());
        match check_call(alloc, self.schema.root(), call) {
            Ok(()) => check_size(alloc, nodes, root, call, self.words).err(),
            Err(why) => Some(why),
        }
    }
}

/// The calls of a relay, and where they come from.
#[derive(Drop)]
pub struct AllCalls<'a> {
    pub calls: Vec<Call>,
    /// Which of them run where; `None` if each runs at every message.
    pub plan: Option<Plan>,
    pub sources: CallSources<'a>,
}

/// The call of a number of a calls file.
fn call_of_file(
    alloc: Global,
    checks: Checks<'_>,
    name: &str,
    number: usize,
    parts: CallParts,
    plan: &mut Option<Plan>,
) -> Result<Call, Failure> {
    let verb = parts.1;
    let path = path_text(alloc, &parts.0)?;
    let told = verb_word(verb);
    let words = format!(in alloc; "{name}: call {number} ({told} {path})")?;
    let call = match made(alloc, plan, parts, None) {
        Ok(call) => call,
        Err(CallFault::Memory) => return Err(Failure::Memory),
        Err(why) => return Err(Failure::words(alloc, words.as_str(), &why)),
    };
    match checks.fault(alloc, &call) {
        Some(why) => Err(Failure::words(alloc, words.as_str(), &why)),
        None => Ok(call),
    }
}

/// The path of the probe of the call that an option asks for, if it has one.
fn probe_path(alloc: Global, asked: Asked<'_>) -> Result<Option<Vec<Step>>, Failure> {
    if asked.id != CLEAR_ACTIVE {
        return Ok(None);
    }
    match path_of(alloc, asked.text) {
        Ok(path) => Ok(Some(path)),
        Err(WordTrouble::Memory) => Err(Failure::Memory),
        Err(why) => Err(asked.failure(alloc, &why)),
    }
}

/// The call that an option asks for.
fn call_of_option(
    alloc: Global,
    checks: Checks<'_>,
    asked: Asked<'_>,
    plan: &mut Option<Plan>,
) -> Result<Call, Failure> {
    let parts = match parts_of(alloc, checks.schema, asked.verb, asked.text) {
        Ok(parts) => parts,
        Err(PartsTrouble::Memory) => return Err(Failure::Memory),
        Err(why) => return Err(asked.failure(alloc, &why)),
    };
    let probe = probe_path(alloc, asked)?;
    let call = match made(alloc, plan, parts, probe) {
        Ok(call) => call,
        Err(CallFault::Memory) => return Err(Failure::Memory),
        Err(why) => return Err(asked.failure(alloc, &why)),
    };
    match checks.fault(alloc, &call) {
        Some(why) => Err(asked.failure(alloc, &why)),
        None => Ok(call),
    }
}

/// The plan of calls of which some run only where a member is active; `None` if none is of these.
fn new_plan(alloc: Global, asked: &[Asked<'_>]) -> Result<Option<Plan>, Failure> {
    let probes = asked.iter().filter(|a| a.id == CLEAR_ACTIVE).count();
    if probes == 0 {
        return Ok(None);
    }
    if probes > MOST_PROBES {
        let why = format!(in alloc; "at most {MOST_PROBES} of these can be given")?;
        return Err(Failure::words(alloc, "--clear-active", &why));
    }
    Ok(Some(Plan::new(alloc)))
}

/// The calls of the calls file and of the options, in this order, and where they come from. A
/// message has at most so many words.
pub fn all_calls<'a>(
    alloc: Global,
    schema: &RootedSchema,
    file: Vec<CallParts>,
    words: u64,
    matches: &ArgMatches<'a>,
) -> Result<AllCalls<'a>, Failure> {
    let checks = Checks {
        schema,
        words,
        is_lenient: matches.get_flag("lenient"),
    };
    let name = matches.get_str("calls").unwrap_or("");
    let in_file = file.len();
    let asked = asked_calls(alloc, matches)?;
    let mut plan = new_plan(alloc, &asked)?;
    let mut calls = Vec::new(alloc);
    for parts in file {
        let number = calls.len().saturating_add(1);
        calls.push(call_of_file(alloc, checks, name, number, parts, &mut plan)?)?;
    }
    for option in asked.iter() {
        calls.push(call_of_option(alloc, checks, *option, &mut plan)?)?;
    }
    let sources = CallSources {
        file: name,
        in_file,
        asked,
    };
    Ok(AllCalls {
        calls,
        plan,
        sources,
    })
}
