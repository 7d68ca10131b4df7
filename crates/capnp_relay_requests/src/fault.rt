//! The reasons for which a request is refused.

ghost use Rattle.std.specs.Prelude.{◌≡◌};
ghost use Rattle.capnp_relay_requests.specs.declared.fault.RequestFault.TheVariants.{Unread};

use capnp_relay_bindings::bound::BindFault;
use std::alloc::{AllocError, AllocFailed};

/// The part of a node or of one of its members that can't be read.
#[derive(Clone, Copy, Debug, PartialEq, Eq, thiserror::Error)]
pub enum Part {
    /// The union of the node or the field has a member that schema.capnp doesn't name.
    #[error("its kind can't be read")]
    Kind,
    /// The name is not valid UTF-8 text.
    #[error("its name can't be read")]
    Name,
    /// The members of a struct or an enum are not a list of structs.
    #[error("its members can't be read")]
    Members,
    /// The type is not a struct, has a member that schema.capnp doesn't name, or nests more than 64
    /// lists.
    #[error("its type can't be read")]
    FieldType,
    /// The default isn't of the field's type, or can't be read.
    #[error("its default can't be read")]
    Default,
    /// The type is a float or a list of floats, which are refused.
    #[error("it is a float")]
    Float,
    /// The annotations are not a list of structs, or the value of an annotation can't be read.
    #[error("its annotations can't be read")]
    Annotations,
}

/// A node, or one of its members.
#[derive(Clone, Copy, Debug, PartialEq, Eq, thiserror::Error)]
pub enum Spot {
    /// The node of an id.
    #[error("node {node}")]
    Node { node: u64 },
    /// A field or an enumerant of the node of an id, by its index.
    #[error("member {index} of node {node}")]
    Member { node: u64, index: u32 },
}

/// The reason for which a request is refused.
#[derive(Clone, Copy, Debug, PartialEq, Eq, thiserror::Error)]
pub enum RequestFault {
    /// The bytes aren't one frame whose value has at most 64 levels, costs at most 2^23 words and
    /// has no capability.
    #[error("not one whole message (is it a file of messages?)")]
    Message,
    /// The root is not a struct, or its nodes are not a list of structs.
    #[error("its nodes can't be read")]
    Request,
    /// Part of a node or of a member can't be read.
    #[error("{spot}: {part}")]
    Unread { spot: Spot, part: Part },
    /// Its generic types are bound in too many ways.
    #[error("its generic types are bound in too many ways")]
    Bindings,
    #[error("out of memory")]
    Memory,
}

/// Returns the fault of a part of a node or of a member that can't be read.
pub(crate) fn unread(spot: Spot, part: Part) -> RequestFault
    ensures { result ≡ Unread spot part }
{
    RequestFault::Unread { spot, part }
}

impl From<BindFault> for RequestFault {
    ghost use Rattle.capnp_relay_requests.specs.Faults.{IsBindingRefusal};

    ghost from_gives = { λ _ fault. IsBindingRefusal fault };

    fn from(fault: BindFault) -> RequestFault {
        match fault {
            BindFault::Memory => RequestFault::Memory,
            BindFault::TooMany | BindFault::Clash => RequestFault::Bindings,
        }
    }
}

impl From<AllocError> for RequestFault {
    ghost use Rattle.std.specs.Prelude.{◌≡◌};
    ghost use Rattle.capnp_relay_requests.specs.declared.fault.RequestFault.{RequestFault};

    ghost from_gives = { λ _ fault. fault ≡ RequestFault.Memory };

    fn from(_e: AllocError) -> RequestFault {
        RequestFault::Memory
    }
}

impl<T: Drop> From<AllocFailed<T>> for RequestFault {
    ghost use Rattle.std.specs.Prelude.{◌≡◌};
    ghost use Rattle.capnp_relay_requests.specs.declared.fault.RequestFault.{RequestFault};

    ghost from_gives = { λ _ fault. fault ≡ RequestFault.Memory };

    fn from(_e: AllocFailed<T>) -> RequestFault {
        RequestFault::Memory
    }
}
