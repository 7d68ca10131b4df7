//! The line that reports a fault. It takes no memory, so that lack of memory is reported too.
ghost use Rattle.std.specs.Prelude.{decimal};
ghost use Rattle.capnp_stream_io.specs.Writes.{Writes};
ghost use Rattle.capnp_relay_loop.specs.Streams.{sink_of};
ghost use Rattle.capnp_relay_program.specs.Lines.{framing_words, fault_words, rule_words, call_words, not_admitted_words, stop_words, fault_line};

use crate::stop::Stop;
use capnp_relay_loop::ends::Fault;
use capnp_stream_io::traits::Write;
use capnp_units::errors::Result;
use capnp_units::kinds::ErrorKind;
use itoa::Buffer;

/// Writes a text.
fn write_text<L: Write>(log: &mut L, text: &[u8]) -> Result<()>
    ensures { let seen = sink_of ⟦<L as Write>⟧ in
        Writes L.may_grow text.now (seen log.old) result (seen log.new) }
{
    log.write_all(text)
}

/// Writes a number in decimal.
fn write_number<L: Write>(log: &mut L, number: u64) -> Result<()>
    ensures { let seen = sink_of ⟦<L as Write>⟧ in
        Writes L.may_grow (decimal number) (seen log.old) result (seen log.new) }
{
    let mut buffer = Buffer::new();
    write_text(log, buffer.format(number).as_bytes())
}

/// Writes the line's text for input that doesn't begin with a message.
fn write_framing<L: Write>(log: &mut L, kind: ErrorKind) -> Result<()>
    ensures { let seen = sink_of ⟦<L as Write>⟧ in
        Writes L.may_grow (framing_words kind) (seen log.old) result (seen log.new) }
{
    write_text(log, b"framing ")?;
    write_text(log, kind.name().as_bytes())
}

/// Writes the line's text for a fault of the relay.
fn write_fault<L: Write>(log: &mut L, fault: Fault) -> Result<()>
    ensures { let seen = sink_of ⟦<L as Write>⟧ in
        Writes L.may_grow (fault_words fault) (seen log.old) result (seen log.new) }
{
    match fault {
        Fault::Source => write_text(log, b"source"),
        Fault::Framing(kind) => write_framing(log, kind),
        Fault::Out => write_text(log, b"out"),
        Fault::Log => write_text(log, b"log"),
        Fault::Memory => write_text(log, b"memory"),
        Fault::Size => write_text(log, b"size"),
    }
}

/// Writes the line's text for a broken rule and its node.
fn write_rule<L: Write>(log: &mut L, rule: u32, node: usize) -> Result<()>
    ensures { let seen = sink_of ⟦<L as Write>⟧ in
        Writes L.may_grow (rule_words rule node) (seen log.old) result (seen log.new) }
{
    write_text(log, b"schema rule ")?;
    write_number(log, u64::from(rule))?;
    write_text(log, b" node ")?;
    write_number(log, node as u64)
}

/// Writes the line's text for a call.
fn write_call<L: Write>(log: &mut L, number: usize) -> Result<()>
    ensures { let seen = sink_of ⟦<L as Write>⟧ in
        Writes L.may_grow (call_words number) (seen log.old) result (seen log.new) }
{
    write_text(log, b"call ")?;
    write_number(log, number as u64)
}

/// Writes the line's text for a call that isn't admitted.
fn write_not_admitted<L: Write>(log: &mut L, number: usize) -> Result<()>
    ensures { let seen = sink_of ⟦<L as Write>⟧ in
        Writes L.may_grow (not_admitted_words number) (seen log.old) result (seen log.new) }
{
    write_call(log, number)?;
    write_text(log, b" not admitted")
}

/// Writes the line's text for a fault.
fn write_stop<L: Write>(log: &mut L, stop: Stop) -> Result<()>
    ensures { let seen = sink_of ⟦<L as Write>⟧ in
        Writes L.may_grow (stop_words stop) (seen log.old) result (seen log.new) }
{
    match stop {
        Stop::Arguments => write_text(log, b"arguments"),
        Stop::SchemaFile => write_text(log, b"schema file"),
        Stop::SchemaRule { rule, node } => write_rule(log, rule, node),
        Stop::Root => write_text(log, b"root"),
        Stop::RenamesFile => write_text(log, b"renames file"),
        Stop::CallsFile => write_text(log, b"calls file"),
        Stop::Call(number) => write_call(log, number),
        Stop::Options => write_text(log, b"options"),
        Stop::NotCompatible => write_text(log, b"not compatible"),
        Stop::NotAdmitted(number) => write_not_admitted(log, number),
        Stop::Relay(fault) => write_fault(log, fault),
    }
}

/// Writes the line that reports a fault.
pub(crate) fn write_line<L: Write>(log: &mut L, stop: Stop) -> Result<()>
    ensures { let seen = sink_of ⟦<L as Write>⟧ in
        Writes L.may_grow (fault_line stop) (seen log.old) result (seen log.new) }
{
    write_text(log, b"fault: ")?;
    write_stop(log, stop)?;
    write_text(log, b"\n")
}
