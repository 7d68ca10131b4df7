//! Types whose parameters are bound.

ghost use Rattle.std.specs.Prelude.{◌≡◌};
ghost use Rattle.capnp_relay_bindings.specs.Types.{is_pointer_base, bound_to, depth_of};

use capnp_records::node::{BaseType, TypeRecord};

/// The most nested types of an argument; a deeper type is the untyped pointer.
pub const MOST_NESTED: u32 = 16;

/// A type without parameters.
#[derive(Clone, Copy)]
pub struct BoundType {
    pub ty: TypeRecord,
    /// The interface of the capability, by its id; 0 for any capability, and for another type.
    pub interface: u64,
    /// The number of nested types, including the type itself.
    pub depth: u32,
}

/// Returns whether pointers lead to the values of a base.
fn is_pointer_base(base: BaseType) -> bool
    ensures { result ≡ is_pointer_base base }
{
    matches!(
        base,
        BaseType::Text
            | BaseType::Data
            | BaseType::Struct(_)
            | BaseType::AnyPointer
            | BaseType::Capability
    )
}

impl BoundType {
    ghost use Rattle.std.specs.Prelude.{◌≡◌, ◌==◌, ◌&&◌};
    ghost use Rattle.capnp_records.specs.declared.node.BaseType.TheVariants.{AnyPointer, Capability};
    ghost use Rattle.capnp_relay_bindings.specs.Types.{plain_type, argument_of, listed_type, is_untyped_type};

    /// Makes a type that isn't nested.
    pub fn of(base: BaseType) -> BoundType
        ensures { result ≡ plain_type base }
    {
        BoundType {
            ty: TypeRecord {
                list_count: 0,
                base,
            },
            interface: 0,
            depth: 1,
        }
    }

    /// Makes the untyped pointer.
    pub fn untyped() -> BoundType
        ensures { result ≡ plain_type AnyPointer }
    {
        BoundType::of(BaseType::AnyPointer)
    }

    /// Makes a capability of an interface.
    pub fn capability(interface: u64) -> BoundType
        ensures { result ≡ record (plain_type Capability) { interface = interface } }
    {
        BoundType {
            interface,
            ..BoundType::of(BaseType::Capability)
        }
    }

    /// Returns the list of the type.
    pub fn in_list(self) -> BoundType
        ensures { result ≡ listed_type self }
    {
        BoundType {
            ty: TypeRecord {
                list_count: self.ty.list_count.saturating_add(1),
                base: self.ty.base,
            },
            interface: self.interface,
            depth: self.depth.saturating_add(1),
        }
    }

    /// Returns whether the type is the untyped pointer.
    pub fn is_untyped(self) -> bool
        ensures { result ≡ is_untyped_type self }
    {
        self.ty.list_count == 0 && self.ty.base == BaseType::AnyPointer
    }

    /// Returns the type as an argument: the untyped pointer if too many types are nested in it, or
    /// if its values don't have pointers.
    pub fn as_argument(self) -> BoundType
        ensures { result ≡ argument_of self }
    {
        let is_pointer = self.ty.list_count > 0 || is_pointer_base(self.ty.base);
        if self.depth <= MOST_NESTED && is_pointer {
            self
        } else {
            BoundType::untyped()
        }
    }
}

/// The type to which a parameter of a scope is bound. A parameter that isn't bound has no binding.
#[derive(Clone, Copy)]
pub struct Binding {
    /// The id of the node that has the parameter.
    pub scope: u64,
    /// The index of the parameter.
    pub index: u32,
    pub to: BoundType,
}

/// Returns the type to which a parameter is bound; a parameter that isn't bound is the untyped
/// pointer.
pub fn bound_to(bindings: &[Binding], scope: u64, index: u32) -> BoundType
    ensures { result ≡ bound_to bindings.now scope index }
{
    let mut left = bindings;
    while let [binding, others @ ..] = left {
        if binding.scope == scope && binding.index == index {
            return binding.to;
        }
        left = others;
    }
    BoundType::untyped()
}

/// Returns the number of nested types in a type with these bindings.
pub fn depth_of(bindings: &[Binding]) -> u32
    ensures { result ≡ depth_of bindings.now }
{
    let mut most = 0;
    let mut left = bindings;
    while let [binding, others @ ..] = left {
        if binding.to.depth > most {
            most = binding.to.depth;
        }
        left = others;
    }
    most.saturating_add(1)
}
