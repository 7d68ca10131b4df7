//! The program, except for its files.
ghost use Rattle.std.specs.Prelude.{◌≡◌, [], map, string_bytes};
ghost use Rattle.std.specs.Option.{option_copied};
ghost use Rattle.capnp_relay_loop.specs.Streams.{sink_seen, streams_of};
ghost use Rattle.capnp_relay_loop.specs.Pauses.{moment};
ghost use Rattle.capnp_relay_program.specs.Asked.{request};
ghost use Rattle.capnp_relay_program.specs.Lines.{fault_line};
ghost use Rattle.capnp_relay_program.specs.Program.{seen_of, Told, Ends};
ghost use Rattle.capnp_relay_program.specs.Flushing.{flushes_of, FlushesBeforeReads};

use crate::arguments::asks_for_help;
use crate::lines::write_line;
use crate::run::{Files, relay_all};
use crate::sinks::Flush;
use crate::sources::Windowed;
use crate::stop::Stop;
use crate::usage::USAGE;
use capnp_stream_io::traits::{Read, Write};
use std::alloc::Global;

/// Writes a text and passes on the bytes that the sink holds; an error of the sink is ignored.
fn put<L: Flush>(sink: &mut L, text: &[u8])
    ensures { Told L.may_grow text.now
        (sink_seen L.contents L.failures L.room sink.old)
        (sink_seen L.contents L.failures L.room sink.new) (L.held sink.new) }
{
    // A sink that fails now has nowhere to say so.
    let _written = sink.write_all(text);
    let _flushed = sink.flush();
}

/// Writes the line of a fault after the log and passes on the bytes that the log holds; an error of
/// the log is ignored.
fn put_fault<L: Flush>(log: &mut L, stop: Stop)
    ensures { Told L.may_grow (fault_line stop)
        (sink_seen L.contents L.failures L.room log.old)
        (sink_seen L.contents L.failures L.room log.new) (L.held log.new) }
{
    // A log that fails now has nowhere to say so.
    let _written = write_line(log, stop);
    let _flushed = log.flush();
}

/// Runs the program over its arguments and the files that they name; a file that can't be read, or
/// that no argument names, is `None`. With a newer schema file the relay is the one between two
/// versions, with the fields that a renames file renames. Messages come from the source, edited
/// messages go to the output and a line for each to the log. It returns the status: 0, or 1 if
/// there was a fault, which the last line of the log reports.
///
/// The first fault is reported, before anything is read or written:
/// 1. of the arguments;
/// 2. of the schema file, its rules and the root;
/// 3. of the newer file, its rules and the root;
/// 4. of the renames file;
/// 5. of the calls file, the calls and the limits;
/// 6. of compatibility, and of calls that aren't admitted.
///
/// Then come those of the run. Both sinks are flushed before a message is read, unless the bytes
/// that the source shows hold the message. If `--help` is the only argument, the usage is written
/// to the output, and this is a fault of the arguments.
pub fn program<R: Windowed, W: Flush, L: Flush>(
    alloc: Global,
    words: &[String],
    schema: Option<&[u8]>,
    calls: Option<&[u8]>,
    newer: Option<&[u8]>,
    renames: Option<&[u8]>,
    source: &mut R,
    out: &mut W,
    log: &mut L,
) -> u8
    ensures ends { let three = streams_of ⟦<R as Read>⟧ ⟦<W as Write>⟧ ⟦<L as Write>⟧ in
        Ends (request (map string_bytes words.now) (option_copied schema.entry)
        (option_copied calls.entry) (option_copied newer.entry) (option_copied renames.entry))
        W.may_grow L.may_grow
        (seen_of (three source.old out.old log.old) (W.held out.old) (L.held log.old))
        (seen_of (three source.new out.new log.new) (W.held out.new) (L.held log.new))
        result }
    ensures flushes { FlushesBeforeReads (flushes_of ⟦<R as Read>⟧ ⟦<W as Write>⟧ ⟦<L as Write>⟧
        R.window W.held L.held) (request (map string_bytes words.now) (option_copied schema.entry)
        (option_copied calls.entry) (option_copied newer.entry) (option_copied renames.entry))
        W.may_grow L.may_grow (moment source.old out.old log.old) source.new }
    ensures held { result ≡ 0 → (W.held out.new ≡ []) × (L.held log.new ≡ []) }
{
    if asks_for_help(words) {
        put(out, USAGE.as_bytes());
        put_fault(log, Stop::Arguments);
        return 1;
    }
    let files = Files {
        schema,
        calls,
        newer,
        renames,
    };
    match relay_all(alloc, words, files, source, out, log) {
        Ok(()) => 0,
        Err(stop) => {
            put_fault(log, stop);
            1
        }
    }
}
