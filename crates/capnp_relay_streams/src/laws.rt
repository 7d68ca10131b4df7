//! Laws of runs, each the contract of a function that does nothing.
ghost use Rattle.std.specs.Prelude.{◌≡◌, ℕ, List, [], Some, IfSome};
ghost use Rattle.std.specs.List.{AllByRecursion};
ghost use Rattle.capnp_units.specs.declared.kinds.ErrorKind.{ErrorKind};
ghost use Rattle.capnp_units.specs.Errors.{kind_of};
ghost use Rattle.capnp_values_queries.specs.declared.structs.StructSchema.{StructSchema};
ghost use Rattle.capnp_calls.specs.declared.call.Call.{Call};
ghost use Rattle.capnp_model.specs.Runs.{End, finished, broken};
ghost use Rattle.capnp_model.specs.Spelling.{CanSpell};
ghost use Rattle.capnp_stream.specs.Pieces.{ReadsFronts};
ghost use Rattle.capnp_relay_loop.specs.declared.ends.Counts.{Counts};
ghost use Rattle.capnp_relay_loop.specs.declared.ends.Fault.{Fault};
ghost use Rattle.capnp_relay_streams.specs.declared.options.RelayOptions.{RelayOptions};
ghost use Rattle.capnp_relay_loop.specs.Streams.{Streams};
ghost use Rattle.capnp_relay_loop.specs.Run.{RunsOut, RunStops, GoesTo};
ghost use Rattle.capnp_relay_streams.specs.Again.{written_messages, WritesMessage, RunsOver, ReadsOutput};
ghost use Rattle.capnp_relay_streams.specs.Options.{as_plain};
ghost use Rattle.capnp_relay_streams.specs.Relaying.{relay_work};

use capnp_model::laws::{trimmed_values, values_as_a_relation, values_that_are_read};
use capnp_stream::forms::{Framed, MessageForm};
use capnp_stream_io::traits::Write;
use capnp_stream_packed::form::Packed;

/// A form is read from the front.
fn reads_fronts<I: MessageForm>()
    ensures { ReadsFronts I.reader }
{}

/// If the source exposes its bytes, a run that ends at the end of input or at a framing fault goes
/// over all of them. They begin with the messages that were answered, in order, and their rest ends
/// the run. The output and the log are those of the answers.
pub fn runs_over_known_bytes<W: Write, L: Write>()
    ensures finished { (root : StructSchema) (calls : List Call) (options : RelayOptions)
        (old new : Streams) (counts : Counts)
        → RunsOut (relay_work root calls options W.may_grow L.may_grow) old new counts
        → IfSome old.source.remaining
        (GoesTo (relay_work root calls options W.may_grow L.may_grow) old new finished) }
    ensures broken { (root : StructSchema) (calls : List Call) (options : RelayOptions)
        (old new : Streams) (counts : Counts) (kind : ErrorKind)
        → RunStops (relay_work root calls options W.may_grow L.may_grow) (Fault.Framing kind) old
        new counts
        → IfSome old.source.remaining
        (GoesTo (relay_work root calls options W.may_grow L.may_grow) old new
        (broken (kind_of kind))) }
{
    reads_fronts::<Framed>();
    reads_fronts::<Packed>();
}

/// The plain output of a run, relayed again in the canonical form without calls under the same
/// schema, gives the canonical output of that run. This holds if each plain message is within the
/// second run's word limit and the second run writes every message.
pub fn plain_output_again()
    ensures { (root : StructSchema) (calls : List Call) (first again : RelayOptions)
        (bytes plain canonical others log lines said : List ℕ) (end last : End)
        → ReadsOutput first again
        → (x : RunsOver (relay_work root calls (as_plain first) ⊥ ⊥) bytes plain log end)
        → RunsOver (relay_work root calls first ⊥ ⊥) bytes canonical lines last
        → AllByRecursion (CanSpell (Some again.bounds.words)) (written_messages x.answers)
        → (z : RunsOver (relay_work root [] again ⊥ ⊥) plain others said finished)
        → AllByRecursion WritesMessage z.answers → others ≡ canonical }
{
    values_as_a_relation();
    values_that_are_read();
    trimmed_values();
}
