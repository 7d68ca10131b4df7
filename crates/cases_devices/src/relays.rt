//! Runs of the relay whose source, output or log fails at each byte.

use crate::devices::{Alarm, Fault, Giving, Taking};
use crate::messages::{Done, Stream, Streams};
use crate::rows::{Run, run_of};
use capnp_relay_loop::ends::{Counts, Fault as End, RelayFault};
use capnp_relay_program::settings::Settings;
use capnp_relay_program::version::Version;
use capnp_relay_streams::between::{BetweenFault, relay_between};
use capnp_relay_streams::relay::relay;
use capnp_stream_io::traits::{BufRead, Write};
use std::alloc::Global;

/// The bytes of the region before a run.
const DIRT: u8 = 0xff;

/// The parts that are made once from the input of a run.
#[derive(Drop)]
struct Relay {
    settings: Settings,
    older: Version,
    newer: Option<Version>,
}

/// Parses the schema of a text.
fn version(alloc: Global, text: &str) -> Result<Version, Fault> {
    match Version::new(alloc, Some(text.as_bytes()), 1) {
        Ok(version) => Ok(version),
        Err(_) => Err(Fault::Memory),
    }
}

impl Relay {
    fn new(alloc: Global, run: &Run<'_>) -> Result<Relay, Fault> {
        let mut words = Vec::new(alloc);
        for word in ["schema", "calls", "1", run.form] {
            words.push(String::from_str(alloc, word)?)?;
        }
        let schema = Some(run.schema.as_bytes());
        let calls = Some(run.calls.as_bytes());
        let Ok(settings) = Settings::new(alloc, &words, schema, calls, None, None) else {
            return Err(Fault::Memory);
        };
        let newer = match run.newer {
            Some(text) => Some(version(alloc, text)?),
            None => None,
        };
        Ok(Relay {
            settings,
            older: version(alloc, run.schema)?,
            newer,
        })
    }

    /// Runs the relay, between both schemas if there is a newer one. Returns how it ends; `None` if
    /// it doesn't begin, or leaves a region that isn't zero.
    fn end<R: BufRead, W: Write, L: Write>(
        &self,
        alloc: Global,
        source: &mut R,
        out: &mut W,
        log: &mut L,
    ) -> Result<Option<Result<Counts, RelayFault>>, Fault> {
        let options = self.settings.options;
        let calls = self.settings.calls.as_slice();
        let root = self.older.root();
        let mut region = vec![in alloc; DIRT; options.region_len()]?;
        let end = match &self.newer {
            None => relay(alloc, source, out, log, root, calls, options, &mut region),
            Some(newer) => {
                let newer = newer.root();
                let into = &mut region;
                match relay_between(alloc, source, out, log, root, newer, calls, options, into) {
                    Ok(counts) => Ok(counts),
                    Err(BetweenFault::Relay(fault)) => Err(fault),
                    Err(_) => return Ok(None),
                }
            }
        };
        Ok(region.iter().all(|byte| *byte == 0).then_some(end))
    }

    /// Returns whether a run over devices that work leaves the whole streams.
    fn is_whole(&self, alloc: Global, streams: &Streams) -> Result<bool, Fault> {
        let mut source = streams.given.as_slice();
        let mut out = Vec::new(alloc);
        let mut log = Vec::new(alloc);
        let end = self.end(alloc, &mut source, &mut out, &mut log)?;
        let Some(counts) = streams.counts() else {
            return Ok(false);
        };
        let is_same = out.as_slice() == streams.out.as_slice()
            && log.as_slice() == streams.log.as_slice();
        Ok(end == Some(Ok(counts)) && source.is_empty() && is_same)
    }

    /// Runs the relay over devices that fail after n bytes. Returns what is left, and whether none
    /// was called after the fault.
    fn left(
        &self,
        alloc: Global,
        streams: &Streams,
        width: usize,
        limits: Limits,
    ) -> Result<Left, Fault> {
        let alarm = Alarm::new();
        let mut source = Giving::new(&streams.given, width, limits.given, &alarm);
        let mut out = Taking::new(alloc, limits.out, &alarm);
        let mut log = Taking::new(alloc, limits.log, &alarm);
        let end = self.end(alloc, &mut source, &mut out, &mut log)?;
        Ok(Left {
            end,
            taken: streams.given.len().saturating_sub(source.unread()),
            out: out.into_held(),
            log: log.into_held(),
            was_heard: alarm.was_heard(),
        })
    }
}

/// The number of bytes after which each device fails.
#[derive(Clone, Copy)]
struct Limits {
    given: usize,
    out: usize,
    log: usize,
}

const NO_LIMITS: Limits = Limits {
    given: usize::MAX,
    out: usize::MAX,
    log: usize::MAX,
};

/// The results that a run left, and whether no device was called after the fault.
#[derive(Drop)]
struct Left {
    end: Option<Result<Counts, RelayFault>>,
    taken: usize,
    out: Vec<u8>,
    log: Vec<u8>,
    was_heard: bool,
}

impl Left {
    /// Returns whether the run ended by this fault and counts, and wrote and logged n bytes of the
    /// whole streams.
    fn is_so(&self, streams: &Streams, fault: End, counts: Counts, out: usize, log: usize) -> bool {
        self.was_heard
            && self.end == Some(Err(RelayFault { fault, counts }))
            && Some(self.out.as_slice()) == streams.out.get(..out)
            && Some(self.log.as_slice()) == streams.log.get(..log)
    }
}

/// A run that is tried, with its whole streams, and the bytes that its source shows at once.
#[derive(Drop)]
struct Trial<'a> {
    relay: &'a Relay,
    streams: &'a Streams,
    width: usize,
}

impl Trial<'_> {
    /// Returns whether a source that fails after n bytes ends the run after the last message that
    /// is whole, by `Source`.
    fn is_good_source(&self, alloc: Global, given: usize) -> Result<bool, Fault> {
        let limits = Limits { given, ..NO_LIMITS };
        let left = self.relay.left(alloc, self.streams, self.width, limits)?;
        let Some((whole, _)) = self.streams.around(Stream::Given, given) else {
            return Ok(false);
        };
        let Done {
            written,
            logged,
            ..
        } = whole;
        let is_so = left.is_so(self.streams, End::Source, whole.counts, written, logged);
        Ok(is_so && whole.taken <= left.taken && left.taken <= given)
    }

    /// Returns whether an output that fails after n bytes ends the run at the message whose frame
    /// it cuts, by `Out`. In that case no further message was read, and nothing of this message is
    /// logged.
    fn is_good_out(&self, alloc: Global, out: usize) -> Result<bool, Fault> {
        let limits = Limits { out, ..NO_LIMITS };
        let left = self.relay.left(alloc, self.streams, self.width, limits)?;
        let Some((whole, next)) = self.streams.around(Stream::Out, out) else {
            return Ok(false);
        };
        let is_so = left.is_so(self.streams, End::Out, whole.counts, out, whole.logged);
        Ok(is_so && left.taken == next.taken)
    }

    /// Returns whether a log that fails after n bytes ends the run at the message whose line it
    /// cuts, by `Log`. In that case no further message was read, and the message's frame is whole
    /// and counted.
    fn is_good_log(&self, alloc: Global, log: usize) -> Result<bool, Fault> {
        let limits = Limits { log, ..NO_LIMITS };
        let left = self.relay.left(alloc, self.streams, self.width, limits)?;
        let Some((whole, next)) = self.streams.around(Stream::Log, log) else {
            return Ok(false);
        };
        let counts = Counts {
            written: next.counts.written,
            refused: whole.counts.refused,
        };
        let is_so = left.is_so(self.streams, End::Log, counts, next.written, log);
        Ok(is_so && left.taken == next.taken)
    }

    /// Returns the number of byte counts at which a device failed, each as it should be, with a
    /// whole run after each.
    fn count(&self, alloc: Global) -> Result<usize, Fault> {
        let mut count: usize = 0;
        for left in 0..=self.streams.given.len() {
            let is_good = self.is_good_source(alloc, left)?;
            count = self.counted(alloc, count, left, is_good)?;
        }
        for left in 0..self.streams.out.len() {
            let is_good = self.is_good_out(alloc, left)?;
            count = self.counted(alloc, count, left, is_good)?;
        }
        for left in 0..self.streams.log.len() {
            let is_good = self.is_good_log(alloc, left)?;
            count = self.counted(alloc, count, left, is_good)?;
        }
        Ok(count)
    }

    /// Adds one if a device failed as it should, and the next run is whole.
    fn counted(
        &self,
        alloc: Global,
        count: usize,
        left: usize,
        is_good: bool,
    ) -> Result<usize, Fault> {
        if is_good && self.relay.is_whole(alloc, self.streams)? {
            return Ok(count.saturating_add(1));
        }
        Err(Fault::Differs(left))
    }
}

/// Returns the number of byte counts at which a device of the named run failed, each as it should
/// be; `None` if there is no such run.
pub fn faults(alloc: Global, name: &str) -> Result<Option<usize>, Fault> {
    let Some(run) = run_of(name) else {
        return Ok(None);
    };
    let relay = Relay::new(alloc, &run)?;
    let streams = Streams::new(alloc, run.messages)?;
    let mut count: usize = 0;
    for width in [usize::MAX, 1] {
        let trial = Trial {
            relay: &relay,
            streams: &streams,
            width,
        };
        count = count.saturating_add(trial.count(alloc)?);
    }
    Ok(Some(count))
}
