//! Names of nodes and of their members.

ghost use Rattle.std.specs.Prelude.{◌≡◌, string_bytes, Ok, Err, IfOk, IfErr};
ghost use Rattle.capnp_wire.specs.Views.{seen_struct};
ghost use Rattle.capnp_relay_requests.specs.Names.{behind_colon, checked_utf8, name_bytes, member_name, node_name};
ghost use Rattle.capnp_relay_requests.specs.Steps.{IsRequestRefusal};

use crate::fault::RequestFault;
use crate::reading::text_behind;
use capnp_wire::structs::StructReader;
use capnp_wire_objects::arena::ReaderArena;
use std::alloc::Global;

/// Returns the bytes after the last colon, or all if there is no colon.
fn behind_colon(bytes: &[u8]) -> &[u8]
    ensures { result.now ≡ behind_colon bytes.now }
{
    let mut at = bytes.len();
    while at > 0 && bytes[at - 1] != b':' {
        at -= 1;
    }
    &bytes[at..]
}

/// Returns the text of these bytes.
#[tactic(auto, using(crate::proofs::Texts::utf8_text, crate::proofs::Texts::no_text))]
fn text_of(alloc: Global, fault: RequestFault, bytes: &[u8]) -> Result<String, RequestFault>
    ensures ok { IfOk result (λ s. checked_utf8 fault bytes.now ≡ Ok (string_bytes s)) }
    ensures refused { IfErr result (IsRequestRefusal (checked_utf8 fault bytes.now)) }
{
    match str::from_utf8(bytes) {
        Ok(text) => Ok(String::from_str(alloc, text)?),
        Err(_) => Err(fault),
    }
}

/// Returns the bytes of a name, the first pointer of a node, a field or an enumerant.
fn name_bytes<'a, A: ReaderArena>(
    fault: RequestFault,
    reader: &StructReader<'a, A>,
) -> Result<&'a [u8], RequestFault>
    ensures ok { IfOk result (λ b. name_bytes fault (seen_struct A.segments reader.now)
        ≡ Ok b.now) }
    ensures refused { IfErr result (λ e. name_bytes fault (seen_struct A.segments reader.now)
        ≡ Err e) }
{
    text_behind(reader.get_pointer_field(0)).ok_or(fault)
}

/// Returns the name of a field or an enumerant.
pub(crate) fn member_name<A: ReaderArena>(
    alloc: Global,
    fault: RequestFault,
    member: &StructReader<'_, A>,
) -> Result<String, RequestFault>
    ensures ok { IfOk result (λ s. member_name fault (seen_struct A.segments member.now)
        ≡ Ok (string_bytes s)) }
    ensures refused { IfErr result (IsRequestRefusal (member_name fault
        (seen_struct A.segments member.now))) }
{
    text_of(alloc, fault, name_bytes(fault, member)?)
}

/// Returns the name of a node, without that of its file.
pub(crate) fn node_name<A: ReaderArena>(
    alloc: Global,
    fault: RequestFault,
    node: &StructReader<'_, A>,
) -> Result<String, RequestFault>
    ensures ok { IfOk result (λ s. node_name fault (seen_struct A.segments node.now)
        ≡ Ok (string_bytes s)) }
    ensures refused { IfErr result (IsRequestRefusal (node_name fault
        (seen_struct A.segments node.now))) }
{
    text_of(alloc, fault, behind_colon(name_bytes(fault, node)?))
}
