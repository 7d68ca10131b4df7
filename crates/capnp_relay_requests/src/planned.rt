//! Plans of the node records that a request's generic types make.
ghost use Rattle.std.specs.Prelude.{◌≢◌, IfErr};
ghost use Rattle.capnp_units.specs.Sizes.{size_number};
ghost use Rattle.capnp_wire.specs.Views.{seen_list};
ghost use Rattle.capnp_relay_requests.specs.Faults.{IsBindingRefusal};

use crate::brands::{Binder, MOST_TYPES, inherited, type_in};
use crate::fault::{Part, RequestFault, Spot, unread};
use crate::floats::{is_float, stored_type};
use crate::origins::scopes_of;
use crate::reading::{struct_behind, structs_behind};
use crate::request::{FloatField, Floats, InterfaceField};
use capnp_records::node::NodeRecord;
use capnp_relay_bindings::bound::{BoundNodes, MOST_BOUND};
use capnp_relay_bindings::plans::{Plan, Retyped};
use capnp_relay_bindings::types::{Binding, BoundType};
use capnp_wire::list::ListReader;
use capnp_wire::structs::StructReader;
use capnp_wire_objects::arena::ReaderArena;
use std::alloc::{AllocError, Global};
use std::collections::HashMap;

/// The most fields of all bound nodes together.
const MOST_FIELDS: u32 = 1 << 20;

/// The members of the union of nodes that are records: a struct or a group, and an enum.
const STRUCT: u16 = 1;

const ENUM: u16 = 2;

/// The member of the union of fields that is a group.
const GROUP: u16 = 1;

/// The plans, and the facts that were found on the way.
#[derive(Drop)]
pub(crate) struct Planned {
    pub(crate) plans: Vec<Plan>,
    /// The fields of bound nodes that are floats.
    pub(crate) floats: Vec<FloatField>,
    /// The fields that are capabilities of an interface.
    pub(crate) interfaces: Vec<InterfaceField>,
    /// Whether a node is bound.
    pub(crate) is_bound: bool,
    /// The number of fields of bound nodes that were planned.
    fields: u32,
}

/// The node of the fields that are planned, and the types to which its parameters are bound.
#[derive(Clone, Copy)]
struct Within<'a> {
    node: u64,
    bindings: &'a [Binding],
}

impl Planned {
    ghost use Rattle.std.specs.Prelude.{IfErr};
    ghost use Rattle.capnp_relay_requests.specs.Faults.{IsBindingRefusal};

    /// Makes an empty list of plans.
    pub(crate) fn new(alloc: Global) -> Planned {
        Planned {
            plans: Vec::new(alloc),
            floats: Vec::new(alloc),
            interfaces: Vec::new(alloc),
            is_bound: false,
            fields: 0,
        }
    }

    /// Returns the planned body of a slot.
    fn slot<A: ReaderArena>(
        &mut self,
        binder: &mut Binder,
        floats: Floats,
        within: Within<'_>,
        index: u32,
        field: &StructReader<'_, A>,
    ) -> Result<Retyped, RequestFault>
        ensures { IfErr result IsBindingRefusal }
    {
        let node = within.node;
        let spot = Spot::Member { node, index };
        let to = match struct_behind(field.get_pointer_field(2)) {
            Some(ty) => type_in(binder, within.bindings, MOST_TYPES, &ty)?,
            // A type that can't be read was refused before.
            None => BoundType::untyped(),
        };
        let stored = stored_type(floats, to.ty).ok_or(unread(spot, Part::Float))?;
        if !within.bindings.is_empty() && is_float(to.ty) {
            self.floats.push(FloatField { node, index })?;
        }
        if to.interface != 0 {
            let interface = to.interface;
            self.interfaces.push(InterfaceField {
                node,
                index,
                interface,
            })?;
        }
        Ok(Retyped::Slot(stored))
    }

    /// Returns the planned bodies of the fields of a node.
    fn fields<A: ReaderArena>(
        &mut self,
        binder: &mut Binder,
        floats: Floats,
        within: Within<'_>,
        node: &StructReader<'_, A>,
    ) -> Result<Vec<Retyped>, RequestFault>
        ensures { IfErr result IsBindingRefusal }
    {
        let mut found = Vec::new(binder.alloc);
        if node.get_data_field::<u16>(6) != STRUCT {
            return Ok(found);
        }
        let Some(fields) = structs_behind(node.get_pointer_field(3)) else {
            return Ok(found);
        };
        for index in 0..fields.len() {
            let field = fields.get_struct_element(index);
            let retyped = if field.get_data_field::<u16>(4) == GROUP {
                let group = field.get_data_field::<u64>(2);
                let bindings = inherited(binder.alloc, &binder.scopes, within.bindings, group)?;
                Retyped::Group(binder.bind(group, bindings)?)
            } else {
                self.slot(binder, floats, within, index, &field)?
            };
            found.push(retyped)?;
        }
        Ok(found)
    }

    /// Counts the fields of a bound node.
    fn count(&mut self, fields: usize) -> Result<(), RequestFault>
        ensures { IfErr result IsBindingRefusal }
    {
        let fields = u32::try_from(fields).unwrap_or(u32::MAX);
        self.fields = self.fields.saturating_add(fields);
        if self.fields > MOST_FIELDS {
            return Err(RequestFault::Bindings);
        }
        Ok(())
    }
}

/// The places of the node of an id: in the request's list, and among the records of the request.
#[derive(Clone, Copy)]
struct Standing {
    index: u32,
    place: usize,
}

/// Returns whether a node is a struct, a group or an enum.
fn is_record<A: ReaderArena>(node: &StructReader<'_, A>) -> bool {
    matches!(node.get_data_field::<u16>(6), STRUCT | ENUM)
}

/// Plans the records of the request, and returns the places of each.
fn plan_told<A: ReaderArena>(
    binder: &mut Binder,
    floats: Floats,
    list: &ListReader<'_, A>,
    told: &[NodeRecord],
    planned: &mut Planned,
) -> Result<HashMap<u64, Standing>, RequestFault>
    requires { size_number (seen_list A.segments list.now).size ≢ 1 }
    ensures { IfErr result IsBindingRefusal }
{
    let alloc = binder.alloc;
    let mut standing = HashMap::new(alloc);
    let mut place: usize = 0;
    for index in 0..list.len() {
        let node = list.get_struct_element(index);
        let id = node.get_data_field::<u64>(0);
        let Some(record) = told.get(place) else {
            return Ok(standing);
        };
        if record.id == id && is_record(&node) {
            let within = Within {
                node: id,
                bindings: &[],
            };
            let name = String::from_str(alloc, record.display_name.as_str())?;
            let fields = planned.fields(binder, floats, within, &node)?;
            planned.plans.push(Plan {
                place,
                id,
                name,
                fields,
            })?;
            standing.insert(id, Standing { index, place })?;
            place = place.saturating_add(1);
        }
    }
    Ok(standing)
}

/// Returns the bound node of a number, for which a record is made.
fn next_bound(
    alloc: Global,
    binder: &Binder,
    number: usize,
) -> Result<Option<(u64, u64, String, Vec<Binding>)>, AllocError> {
    let Some(node) = binder.bound.nodes().get(number) else {
        return Ok(None);
    };
    let name = String::from_str(alloc, node.name.as_str())?;
    let bindings = node.bindings.to_vec(alloc)?;
    Ok(Some((node.id, node.generic, name, bindings)))
}

/// Plans the bound nodes that are reached.
fn plan_bound<A: ReaderArena>(
    binder: &mut Binder,
    floats: Floats,
    list: &ListReader<'_, A>,
    standing: &HashMap<u64, Standing>,
    planned: &mut Planned,
) -> Result<(), RequestFault>
    requires { size_number (seen_list A.segments list.now).size ≢ 1 }
    ensures { IfErr result IsBindingRefusal }
{
    let alloc = binder.alloc;
    for number in 0..MOST_BOUND {
        let Some((id, generic, name, bindings)) = next_bound(alloc, binder, number)? else {
            return Ok(());
        };
        let Some(stands) = standing.get(&generic) else {
            continue;
        };
        if stands.index >= list.len() {
            continue;
        }
        let place = stands.place;
        let node = list.get_struct_element(stands.index);
        let within = Within {
            node: id,
            bindings: &bindings,
        };
        let fields = planned.fields(binder, floats, within, &node)?;
        planned.count(fields.len())?;
        planned.plans.push(Plan {
            place,
            id,
            name,
            fields,
        })?;
    }
    Ok(())
}

/// Returns the records that are made from those of a request, and the facts that were found on the
/// way.
pub(crate) fn planned_in<A: ReaderArena>(
    alloc: Global,
    floats: Floats,
    list: &ListReader<'_, A>,
    told: &[NodeRecord],
) -> Result<Planned, RequestFault>
    requires { size_number (seen_list A.segments list.now).size ≢ 1 }
    ensures { IfErr result IsBindingRefusal }
{
    let mut binder = Binder {
        alloc,
        scopes: scopes_of(alloc, list)?,
        bound: BoundNodes::new(alloc),
    };
    let mut planned = Planned::new(alloc);
    let standing = plan_told(&mut binder, floats, list, told, &mut planned)?;
    plan_bound(&mut binder, floats, list, &standing, &mut planned)?;
    planned.is_bound = !binder.bound.nodes().is_empty();
    Ok(planned)
}
