//! Actions of a run before it reads a message.
ghost use Rattle.std.specs.Prelude.{OnOk, IfErr, ⊤};
ghost use Rattle.capnp_relay_loop.specs.Streams.{sink_of};
ghost use Rattle.capnp_relay_loop.specs.Pauses.{SinkRests, FailsInPause};

use crate::ends::Fault;
use capnp_stream_io::traits::{BufRead, Read, Write};

/// The action of a run before it reads a message, such as flushing its sinks if the source may
/// wait.
pub trait Pause<R: BufRead, W: Write, L: Write> {
    ghost use Rattle.capnp_relay_loop.specs.declared.ends.Fault.{Fault};

    /// Whether it may fail.
    ghost may_fail: { Type 0 };

    /// The condition on the source and the sinks after a pause that succeeded.
    ghost holds: { R → W → L → Type 0 } = { λ _ _ _. ⊤ };

    /// The condition on the sinks after a pause that ended with a fault.
    ghost fails: { Fault → W → L → Type 0 } = { λ _ _ _. ⊤ };

    /// Gives no byte to a sink, and ends the run if a sink's device failed: `Out` for the output's,
    /// `Log` for the log's. When it returns, `holds` or `fails` is known.
    fn pause(source: &R, out: &mut W, log: &mut L) -> Result<(), Fault>
        ensures ok { let sink = sink_of ⟦<W as Write>⟧ in let line = sink_of ⟦<L as Write>⟧ in
            OnOk result (SinkRests (sink out.old) (sink out.new)
            × SinkRests (line log.old) (line log.new)) }
        ensures behind { OnOk result (holds source.now out.new log.new) }
        ensures failed { IfErr result (λ f. fails f out.new log.new) }
        ensures err { let sink = sink_of ⟦<W as Write>⟧ in let line = sink_of ⟦<L as Write>⟧ in
            IfErr result (λ f. may_fail × FailsInPause f (sink out.old) (sink out.new)
            (line log.old) (line log.new)) };
}

/// A pause that does nothing.
#[derive(Clone, Copy, Debug)]
pub struct NoPause;

impl<R: BufRead, W: Write, L: Write> Pause<R, W, L> for NoPause {
    ghost may_fail = { ⊥ };

    fn pause(_source: &R, _out: &mut W, _log: &mut L) -> Result<(), Fault> {
        Ok(())
    }
}
