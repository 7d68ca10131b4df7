//! `hagzimot salvage`.

use crate::arguments::{files, limit_of_words, nesting, no_sync, output};
use crate::faults::Failure;
use crate::files::{OutFile, OutSink, read_file};
use crate::options::{Options, Taken};
use crate::outputs::Outputs;
use crate::words;
use capnp_relay_program::sinks::Flush;
use capnp_stream::kept::MessageBuffer;
use capnp_stream_packed::form::Packed;
use clap::{Arg, ArgMatches};
use hagzimot_salvage::pieces::{Piece, pieces};
use hagzimot_salvage::roots::{SalvageLimits, has_root};
use hagzimot_salvage::written::write_messages;
use std::alloc::{AllocError, Global};
use std::rc::Rc;

/// The status if bytes were left out.
const LEFT_OUT: u8 = 3;

/// The words of a root's value that are looked at after a fault.
const ROOT_WORDS: u32 = 256;

/// The logs that there are.
static LOGS: [&str; 3] = ["lines", "json", "none"];

/// The options of `salvage`.
pub fn options<'a, 'w>(alloc: Global, taken: Taken<'w>) -> Result<Options<'a, 'w>, AllocError> {
    Options::new(
        alloc,
        taken,
        "salvage",
        "Write the whole messages of damaged framed streams unchanged, and report which bytes are left out",
    )
    .arg(limit_of_words(alloc))?
    .arg(nesting(alloc))?
    .arg(
        Arg::new(alloc, "log")
            .long("log")
            .value_name("WHICH")
            .value_parser(LOGS.as_slice())
            .default_value("lines")
            .help(
                "Choose what standard error gets for each input: a line for each gap and one for the counts (lines), these as JSON (json), or nothing (none)",
            ),
    )?
    .arg(output(alloc))?
    .arg(no_sync(alloc))?
    .arg(files(alloc))
}

/// The lines that are logged.
#[derive(Clone, Copy, Debug, PartialEq, Eq)]
enum Log {
    Lines,
    Json,
    None,
}

impl Log {
    /// Returns the log that the options name.
    fn named(matches: &ArgMatches<'_>) -> Log {
        match matches.get_str("log") {
            Some("json") => Log::Json,
            Some("none") => Log::None,
            _ => Log::Lines,
        }
    }
}

/// Counts of an input's pieces.
#[derive(Clone, Copy, Debug, PartialEq, Eq)]
struct Sums {
    /// The messages that are kept.
    kept: u64,
    /// The bytes that are left out.
    left_out: u64,
    gaps: u64,
}

/// Returns the counts of pieces.
fn sums_of(pieces: &[Piece]) -> Sums {
    let mut sums = Sums {
        kept: 0,
        left_out: 0,
        gaps: 0,
    };
    for piece in pieces {
        match *piece {
            Piece::Messages { count, .. } => sums.kept = sums.kept.saturating_add(count),
            Piece::Gap { at, end } => {
                let len = end.saturating_sub(at) as u64;
                sums.left_out = sums.left_out.saturating_add(len);
                sums.gaps = sums.gaps.saturating_add(1);
            }
        }
    }
    sums
}

/// Returns whether bytes begin with a packed message that has a root.
fn are_packed(alloc: Global, bytes: &[u8], limits: SalvageLimits) -> bool {
    let mut rest = bytes;
    let mut buffer = MessageBuffer::new(alloc);
    let limit = Some(limits.message_words);
    match buffer.try_read_message::<Packed, &[u8]>(&mut rest, limit) {
        Ok(Some(message)) => has_root(message, 0, limits),
        _ => false,
    }
}

/// Returns what is wrong with bytes that have no message, and what to do.
fn why_none(alloc: Global, bytes: &[u8], limits: SalvageLimits) -> &'static str {
    if let [0x1f, 0x8b, 0x08, ..] = bytes {
        return "the input is compressed by gzip (decompress it first, as zcat does)";
    }
    if are_packed(alloc, bytes, limits) {
        return "the messages are packed, and salvage reads framed ones (try convert --in packed)";
    }
    "no message begins at a multiple of 8 bytes (if the front is lost, cut it off up to a message)"
}

/// The lines of an input's log.
#[derive(Clone, Copy)]
struct Report<'a> {
    name: &'a str,
    log: Log,
    /// The bytes of the input.
    len: usize,
}

impl Report<'_> {
    /// Prints a line on standard error.
    fn put(self, rt: &HostRuntime, line: &str) -> Result<(), Failure> {
        match eprintln!(rt; "{line}") {
            Ok(()) => Ok(()),
            Err(e) => Err(Failure::unwritten(rt.alloc(), "standard error", e)),
        }
    }

    /// Prints where a gap is.
    fn put_gap(self, rt: &HostRuntime, at: usize, end: usize) -> Result<(), Failure> {
        let alloc = rt.alloc();
        let name = self.name;
        let line = match self.log {
            Log::None => return Ok(()),
            Log::Json => {
                let file = quoted(alloc, name)?;
                format!(in alloc; "{{\"file\":{file},\"byte\":{at},\"end\":{end}}}")?
            }
            Log::Lines if end < self.len => {
                format!(in alloc; "{name}: byte {at}: no message; goes on at byte {end}")?
            }
            Log::Lines => {
                format!(in alloc; "{name}: byte {at}: no message up to the end at byte {end}")?
            }
        };
        self.put(rt, line.as_str())
    }

    /// Prints the counts.
    fn put_sums(self, rt: &HostRuntime, sums: Sums) -> Result<(), Failure> {
        let alloc = rt.alloc();
        let name = self.name;
        let Sums {
            kept,
            left_out,
            gaps,
        } = sums;
        let line = match self.log {
            Log::None => return Ok(()),
            Log::Json => {
                let file = quoted(alloc, name)?;
                format!(in alloc;
                    "{{\"file\":{file},\"kept\":{kept},\"left_out\":{left_out},\"gaps\":{gaps}}}"
                )?
            }
            Log::Lines => format!(in alloc;
                "{name}: messages kept: {kept}, bytes left out: {left_out}, gaps: {gaps}"
            )?,
        };
        self.put(rt, line.as_str())
    }

    /// Prints all gaps, and then the counts.
    fn put_all(self, rt: &HostRuntime, pieces: &[Piece], sums: Sums) -> Result<(), Failure> {
        for piece in pieces {
            if let Piece::Gap { at, end } = *piece {
                self.put_gap(rt, at, end)?;
            }
        }
        self.put_sums(rt, sums)
    }
}

/// Returns a name as a JSON text.
fn quoted(alloc: Global, name: &str) -> Result<String, Failure> {
    let text = serde_json::Value::String(String::from_str(alloc, name)?);
    Ok(text.to_string(alloc)?)
}

/// Returns the bytes of an input.
fn bytes_of(rt: &HostRuntime, name: &str) -> Result<Vec<u8>, Failure> {
    if name == "-" {
        return words::read_standard_input(rt);
    }
    read_file(rt, name)
}

/// Writes the messages of an input to the output, and returns its pieces.
fn copy_messages(
    alloc: Global,
    bytes: &[u8],
    limits: SalvageLimits,
    kept: &OutFile,
    out: &mut OutSink,
) -> Result<Vec<Piece>, Failure> {
    let Ok(found) = pieces(alloc, bytes, limits) else {
        return Err(Failure::Memory);
    };
    if write_messages(out, bytes, &found).is_err() || out.flush().is_err() {
        return Err(kept.failure(alloc));
    }
    Ok(found)
}

/// Salvages an input, and returns whether bytes are left out.
fn salvage_one(
    rt: &HostRuntime,
    name: &str,
    limits: SalvageLimits,
    log: Log,
    kept: &OutFile,
    out: &mut OutSink,
) -> Result<bool, Failure> {
    let alloc = rt.alloc();
    let bytes = bytes_of(rt, name)?;
    let found = copy_messages(alloc, &bytes, limits, kept, out)?;
    let sums = sums_of(&found);
    if sums.kept == 0 && !bytes.is_empty() {
        return Err(Failure::about(alloc, name, &why_none(alloc, &bytes, limits)));
    }
    let report = Report {
        name,
        log,
        len: bytes.len(),
    };
    report.put_all(rt, &found, sums)?;
    Ok(sums.gaps > 0)
}

/// Salvages each input, and returns whether bytes are left out.
fn salvage_all(
    rt: &HostRuntime,
    matches: &ArgMatches<'_>,
    names: &[String],
    kept: &Rc<OutFile>,
) -> Result<bool, Failure> {
    let limits = SalvageLimits {
        message_words: words::limit_of_words(matches) as usize,
        root_words: ROOT_WORDS,
        nesting: words::nesting(matches),
    };
    let log = Log::named(matches);
    let mut out = kept.sink(rt.alloc())?;
    let mut left_out = false;
    for name in names {
        left_out |= salvage_one(rt, name.as_str(), limits, log, kept, &mut out)?;
    }
    Ok(left_out)
}

/// `hagzimot salvage`: the whole messages of damaged streams, as they came.
pub fn salvage(rt: &HostRuntime, matches: &ArgMatches<'_>) -> Result<u8, Failure> {
    let alloc = rt.alloc();
    let names = words::inputs(alloc, matches)?;
    let outputs = Outputs::open(rt, matches, &names)?;
    match salvage_all(rt, matches, &names, &outputs.messages) {
        Ok(left_out) => {
            outputs.commit(alloc)?;
            Ok(if left_out { LEFT_OUT } else { 0 })
        }
        Err(failure) => {
            outputs.discard();
            Err(failure)
        }
    }
}
