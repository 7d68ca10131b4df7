//! The run of the program.
ghost use Rattle.std.specs.Prelude.{◌≡◌, [], OnOk, IfOk, IfErr};
ghost use Rattle.capnp_relay_loop.specs.Streams.{streams_of};
ghost use Rattle.capnp_relay_loop.specs.Pauses.{moment};
ghost use Rattle.capnp_relay_streams.specs.Options.{reader_of};
ghost use Rattle.capnp_relay_program.specs.Asked.{IsHeldBack};
ghost use Rattle.capnp_relay_program.specs.Settings.{asked_of, request_of};
ghost use Rattle.capnp_relay_program.specs.Program.{seen_of, Ran, RelaysAll};
ghost use Rattle.capnp_relay_program.specs.Flushing.{flushes_of, RanFlushing, FlushesBeforeReads};

use crate::ahead::BoundedForm;
use crate::settings::Settings;
use crate::sinks::Flush;
use crate::sources::{FlushBeforeWait, Windowed};
use crate::stop::Stop;
use capnp_relay_loop::ends::{Counts, Fault, RelayFault};
use capnp_relay_streams::between::{BetweenFault, relay_between_pausing};
use capnp_relay_streams::options::Form;
use capnp_relay_streams::relay::relay_pausing;
use capnp_stream::forms::Framed;
use capnp_stream_io::traits::{Read, Write};
use capnp_stream_packed::form::Packed;
use std::alloc::Global;

/// The most bytes of the region in which messages are edited. A run writes zeros to all of it
/// before its first message, so it has room for the messages of most streams and no more. A longer
/// message is edited in memory from `alloc`.
const REGION_LEN: usize = 64 * 1024;

/// The bytes of the files that arguments name: `None` for a file that can't be read, or that no
/// argument names.
#[derive(Clone, Copy)]
pub(crate) struct Files<'a> {
    pub(crate) schema: Option<&'a [u8]>,
    pub(crate) calls: Option<&'a [u8]>,
    pub(crate) newer: Option<&'a [u8]>,
    pub(crate) renames: Option<&'a [u8]>,
}

/// Runs the requested relay on input in this form, and returns its end; nothing is read or written
/// if the relay is held back.
fn relay_in<F: BoundedForm, R: Windowed, W: Flush, L: Flush>(
    alloc: Global,
    settings: &Settings,
    source: &mut R,
    out: &mut W,
    log: &mut L,
) -> Result<Result<Counts, RelayFault>, Stop>
    requires form { reader_of settings.now.options.input ≡ F.reader }
    ensures ran { let three = streams_of ⟦<R as Read>⟧ ⟦<W as Write>⟧ ⟦<L as Write>⟧ in
        IfOk result (Ran (asked_of settings.now) W.may_grow L.may_grow
        (three source.old out.old log.old) (three source.new out.new log.new)) }
    ensures flushes { IfOk result (RanFlushing (flushes_of ⟦<R as Read>⟧ ⟦<W as Write>⟧
        ⟦<L as Write>⟧ R.window W.held L.held) (asked_of settings.now) W.may_grow L.may_grow
        (moment source.old out.old log.old) (moment source.new out.new log.new)) }
    ensures held { IfErr result (IsHeldBack (asked_of settings.now)) }
    ensures untouched { IfErr result (λ _. (source.new ≡ source.old)
        × (out.new ≡ out.old) × (log.new ≡ log.old)) }
{
    let region_len = settings.options.region_len().min(REGION_LEN);
    let mut region = vec![in alloc; 0u8; region_len]?;
    let root = settings.version.root();
    let calls = settings.calls.as_slice();
    let options = settings.options;
    let Some(newer) = &settings.newer else {
        return Ok(relay_pausing::<R, W, L, FlushBeforeWait<F>>(
            alloc,
            source,
            out,
            log,
            root,
            calls,
            options,
            &mut region,
        ));
    };
    let newer = newer.root();
    match relay_between_pausing::<R, W, L, FlushBeforeWait<F>>(
        alloc,
        source,
        out,
        log,
        root,
        newer,
        &settings.renamings,
        calls,
        options,
        &mut region,
    ) {
        Ok(counts) => Ok(Ok(counts)),
        Err(BetweenFault::Relay(e)) => Ok(Err(e)),
        Err(BetweenFault::NotCompatible) => Err(Stop::NotCompatible),
        Err(BetweenFault::NotAdmitted(n)) => Err(Stop::NotAdmitted(n)),
        Err(BetweenFault::Memory) => Err(Stop::Relay(Fault::Memory)),
    }
}

/// Runs the requested relay, and returns its end; nothing is read or written if the relay is held
/// back.
fn relay_asked<R: Windowed, W: Flush, L: Flush>(
    alloc: Global,
    settings: &Settings,
    source: &mut R,
    out: &mut W,
    log: &mut L,
) -> Result<Result<Counts, RelayFault>, Stop>
    ensures ran { let three = streams_of ⟦<R as Read>⟧ ⟦<W as Write>⟧ ⟦<L as Write>⟧ in
        IfOk result (Ran (asked_of settings.now) W.may_grow L.may_grow
        (three source.old out.old log.old) (three source.new out.new log.new)) }
    ensures flushes { IfOk result (RanFlushing (flushes_of ⟦<R as Read>⟧ ⟦<W as Write>⟧
        ⟦<L as Write>⟧ R.window W.held L.held) (asked_of settings.now) W.may_grow L.may_grow
        (moment source.old out.old log.old) (moment source.new out.new log.new)) }
    ensures held { IfErr result (IsHeldBack (asked_of settings.now)) }
    ensures untouched { IfErr result (λ _. (source.new ≡ source.old)
        × (out.new ≡ out.old) × (log.new ≡ log.old)) }
{
    match settings.input {
        Form::Framed => relay_in::<Framed, R, W, L>(alloc, settings, source, out, log),
        Form::Packed => relay_in::<Packed, R, W, L>(alloc, settings, source, out, log),
    }
}

/// Finds the settings of the arguments and the files, relays the messages of the source, and
/// flushes both sinks, the output first.
pub(crate) fn relay_all<R: Windowed, W: Flush, L: Flush>(
    alloc: Global,
    words: &[String],
    files: Files<'_>,
    source: &mut R,
    out: &mut W,
    log: &mut L,
) -> Result<(), Stop>
    ensures run { let three = streams_of ⟦<R as Read>⟧ ⟦<W as Write>⟧ ⟦<L as Write>⟧ in
        RelaysAll (request_of words.now files.entry) W.may_grow L.may_grow
        (seen_of (three source.old out.old log.old) (W.held out.old) (L.held log.old))
        (seen_of (three source.new out.new log.new) (W.held out.new) (L.held log.new))
        result }
    ensures flushes { FlushesBeforeReads (flushes_of ⟦<R as Read>⟧ ⟦<W as Write>⟧ ⟦<L as Write>⟧
        R.window W.held L.held) (request_of words.now files.entry)
        W.may_grow L.may_grow (moment source.old out.old log.old) source.new }
    ensures held { OnOk result ((W.held out.new ≡ []) × (L.held log.new ≡ [])) }
{
    let settings = Settings::new(
        alloc,
        words,
        files.schema,
        files.calls,
        files.newer,
        files.renames,
    )?;
    let end = relay_asked(alloc, &settings, source, out, log)?;
    let flushed_out = out.flush();
    let flushed_log = log.flush();
    match (end, flushed_out, flushed_log) {
        (Err(e), _, _) => Err(Stop::Relay(e.fault)),
        (Ok(_), Err(_), _) => Err(Stop::Relay(Fault::Out)),
        (Ok(_), Ok(()), Err(_)) => Err(Stop::Relay(Fault::Log)),
        (Ok(_), Ok(()), Ok(())) => Ok(()),
    }
}
