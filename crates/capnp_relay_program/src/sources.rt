//! Flushes before a source that may wait.
ghost use Rattle.std.specs.Prelude.{◌≡◌, [], OnOk, IfErr, ⊤};
ghost use Rattle.capnp_relay_loop.specs.Streams.{sink_of};
ghost use Rattle.capnp_relay_loop.specs.Pauses.{SinkRests, FailsInPause};
ghost use Rattle.capnp_relay_program.specs.Flushing.{HoldsNothing, HoldsNoOutput};

use crate::ahead::{BoundedForm, holds_next};
use crate::sinks::Flush;
use capnp_relay_loop::ends::Fault;
use capnp_relay_loop::pauses::Pause;
pub use capnp_stream_io::traits::Windowed;
use capnp_stream_io::traits::{Read, Write};
use std::marker::PhantomData;

/// Passes on the bytes that both sinks hold, the output's before the log's. It does nothing if the
/// bytes that the source shows hold the next message, or its fault, which is then read without a
/// wait. `Out`, `Log`: the sink's device failed.
#[inline(always)]
pub fn flush_before_wait<F: BoundedForm, R: Windowed, W: Flush, L: Flush>(
    source: &R,
    out: &mut W,
    log: &mut L,
) -> Result<(), Fault>
    ensures whole { OnOk result
        (HoldsNothing F.reader (R.window source.now) (W.held out.new) (L.held log.new)) }
    ensures empty { OnOk result
        (R.shown source.now ≡ 0 → (W.held out.new ≡ []) × (L.held log.new ≡ [])) }
    ensures rests { let sink = sink_of ⟦<W as Write>⟧ in let line = sink_of ⟦<L as Write>⟧ in
        OnOk result (SinkRests (sink out.old) (sink out.new)
        × SinkRests (line log.old) (line log.new)) }
    ensures output { IfErr result (λ f. HoldsNoOutput f (W.held out.new)) }
    ensures fault { let sink = sink_of ⟦<W as Write>⟧ in let line = sink_of ⟦<L as Write>⟧ in
        IfErr result (λ f. FailsInPause f (sink out.old) (sink out.new)
        (line log.old) (line log.new)) }
{
    if holds_next::<F>(source.window()) {
        return Ok(());
    }
    if out.flush().is_err() {
        return Err(Fault::Out);
    }
    if log.flush().is_err() {
        return Err(Fault::Log);
    }
    Ok(())
}

/// A pause that flushes both sinks before a wait for input. The input has this form.
#[derive(Clone, Copy, Debug)]
pub struct FlushBeforeWait<F> {
    form: PhantomData<F>,
}

impl<F: BoundedForm, R: Windowed, W: Flush, L: Flush> Pause<R, W, L> for FlushBeforeWait<F> {
    ghost may_fail = { ⊤ };

    ghost holds = { λ source out log.
        HoldsNothing F.reader (R.window source) (W.held out) (L.held log) };

    ghost fails = { λ fault out log. HoldsNoOutput fault (W.held out) };

    #[inline(always)]
    fn pause(source: &R, out: &mut W, log: &mut L) -> Result<(), Fault> {
        flush_before_wait::<F, R, W, L>(source, out, log)
    }
}
