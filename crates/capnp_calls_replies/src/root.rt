//! Replies of calls at a struct that is read.
ghost use Rattle.std.specs.Prelude.{◌≡◌, IfOk, IfErr};
ghost use Rattle.capnp_units.specs.declared.kinds.ErrorKind.{ErrorKind};
ghost use Rattle.capnp_calls.specs.Replies.{reply_view};
ghost use Rattle.capnp_calls.specs.Resolved.{call_of, IsResolved};
ghost use Rattle.capnp_calls_replies.specs.Replies.{RepliesTo};

use crate::path::at_struct;
use capnp_calls::reply::Reply;
use capnp_calls::resolved::Resolved;
use capnp_units::errors::Result;
use capnp_values::dynamic_struct;
use capnp_wire_objects::arena::ReaderArena;
use std::alloc::Global;

/// Returns the reply of a call at a struct: the text of a `get`, a refusal, or `Done` if the call
/// is to be written. Nothing is written, and the struct's sizes may differ from its schema's. No
/// name is compared if a field of the call was found under the struct that is there.
///
/// It only takes memory for the text of a `get`. It takes stack for each step of the path, and for
/// each group within a group that is set. A text takes stack for at most 1,024 nested structs,
/// groups and lists. The error is `OutOfMemory`: an allocation was refused, or a text would have
/// more nested structs, groups and lists.
pub fn reply_to<A: ReaderArena>(
    alloc: Global,
    root: dynamic_struct::Reader<'_, A>,
    call: &Resolved<'_>,
) -> Result<Reply>
    requires resolved { IsResolved root.schema call.now }
    ensures replied { IfOk result (λ reply.
        RepliesTo A.segments root.entry (call_of call.now) (reply_view reply)) }
    ensures memory { IfErr result (λ e. e.kind ≡ ErrorKind.OutOfMemory) }
{
    at_struct(alloc, root, call.path(), call.fields(), call.action())
}
