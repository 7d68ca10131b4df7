//! Where paths lead under a schema.

use crate::hops::Hop;
use crate::troubles::Trouble;
use capnp_calls::Step as CallStep;
use capnp_records::node::{BaseType, FieldRecord, NO_DISCRIMINANT, NodeRecord};
use capnp_relay_requests::request::FloatField;
use capnp_values_queries::structs::StructSchema;
use hagzimot_commands::paths::{Landing, landing_from};
use hagzimot_expressions::tree::Step;
use hagzimot_schemas::nodes::{fields_of, node_of_id};
use std::alloc::{AllocError, Global};

/// A schema, and the struct at the root of messages.
#[derive(Clone, Copy)]
pub struct Scope<'a> {
    pub nodes: &'a [NodeRecord],
    /// The fields that are floats, whose bits are whole numbers there.
    pub floats: &'a [FloatField],
    pub root: u64,
    /// The struct of the root's id.
    pub schema: StructSchema<'a>,
}

/// Where a path leads.
#[derive(Drop)]
pub(crate) struct Way {
    pub hops: Vec<Hop>,
    /// These steps, to the first element in place of each.
    pub steps: Vec<CallStep>,
    pub at: Landing,
    /// Whether it ends at a float, or at elements that are floats.
    pub is_float: bool,
    /// Whether a message may lack what it leads to: there is an index or a union member in it.
    pub may_lack: bool,
    pub has_each: bool,
}

/// Returns the id of the struct or group that is there.
pub(crate) fn holder(at: Landing) -> Option<u64> {
    match at {
        Landing::Group(id) => Some(id),
        Landing::Value(ty) => match ty.base {
            BaseType::Struct(id) if ty.list_count == 0 => Some(id),
            _ => None,
        },
    }
}

/// Returns the first field of a name, with its index.
pub(crate) fn field_named<'n>(node: &'n NodeRecord, name: &str) -> Option<(u16, &'n FieldRecord)> {
    let fields = fields_of(node);
    let place = fields.iter().position(|field| field.name.as_str() == name)?;
    match (u16::try_from(place), fields.get(place)) {
        (Ok(index), Some(field)) => Some((index, field)),
        _ => None,
    }
}

/// Returns the step that a call would take.
fn call_step(alloc: Global, step: &Step) -> Result<CallStep, AllocError> {
    match step {
        Step::Name(name) => Ok(CallStep::Name(String::from_str(alloc, name.as_str())?)),
        Step::Index(index) => Ok(CallStep::Index(*index)),
        Step::Each => Ok(CallStep::Index(0)),
    }
}

impl Way {
    /// Adds what the step to a field of a name is.
    fn note_field(&mut self, scope: Scope<'_>, name: &str) -> Result<(), AllocError> {
        let found = match holder(self.at) {
            Some(id) => match node_of_id(scope.nodes, id) {
                Some(node) => field_named(node, name).map(|found| (id, found)),
                None => None,
            },
            None => None,
        };
        if let Some((id, (index, field))) = found {
            self.hops.push(Hop::Field(index))?;
            self.may_lack |= field.discriminant_value != NO_DISCRIMINANT;
            self.is_float = scope
                .floats
                .iter()
                .any(|float| float.node == id && float.index == index as u32);
        }
        Ok(())
    }

    /// Adds a step, or returns why it leads nowhere.
    fn add(&mut self, alloc: Global, scope: Scope<'_>, step: &Step) -> Result<(), Trouble> {
        self.steps.push(call_step(alloc, step)?)?;
        let at = landing_from(alloc, scope.nodes, scope.root, &self.steps)?;
        match step {
            Step::Name(name) => self.note_field(scope, name.as_str())?,
            Step::Index(index) => {
                self.hops.push(Hop::Element(*index))?;
                self.may_lack = true;
            }
            Step::Each => {
                self.hops.push(Hop::Each)?;
                self.may_lack = true;
                self.has_each = true;
            }
        }
        self.at = at;
        Ok(())
    }
}

/// Returns where a path leads from the root.
pub(crate) fn way_along(alloc: Global, scope: Scope<'_>, path: &[Step]) -> Result<Way, Trouble> {
    let mut way = Way {
        hops: Vec::new(alloc),
        steps: Vec::new(alloc),
        at: Landing::Group(scope.root),
        is_float: false,
        may_lack: false,
        has_each: false,
    };
    for step in path {
        way.add(alloc, scope, step)?;
    }
    Ok(way)
}
