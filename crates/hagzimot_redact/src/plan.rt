//! The fields that are cleared, by their paths.

use capnp_values_queries::structs::StructSchema;
use hagzimot_make::fields::nearest_field;
use hagzimot_make::places::{Place, element_in, field_in, struct_at};
use hagzimot_schemas::nodes::short_name;
use std::alloc::{AllocError, AllocFailed, Global};
use std::fmt;
use std::fmt::{Display, Formatter, Write};

/// A step from a value into it.
#[derive(Debug, Drop)]
pub(crate) enum PlanStep {
    /// The field of a name.
    Name(String),
    /// Each element.
    Each,
}

/// A step, and what is cleared after it.
#[cycle(plan)]
#[derive(Debug, Drop)]
pub(crate) struct Branch {
    step: PlanStep,
    plan: Plan,
}

/// The parts of a value that are cleared, or the whole value.
#[cycle(plan)]
#[derive(Debug, Drop)]
pub struct Plan {
    is_cut: bool,
    branches: Vec<Branch>,
}

/// Why a path names nothing to clear.
#[derive(Debug, Drop)]
pub enum PathTrouble {
    /// The path has no step, or is not written as `name.name[*].name`.
    Form,
    /// A struct has no field of the name; the nearest name, if one is near.
    NoField {
        name: String,
        node: String,
        nearest: Option<String>,
    },
    /// A name comes after a value that has no fields.
    NoStruct {
        name: String,
    },
    /// `[*]` comes after a value that is not a list.
    NoList,
    /// An allocation was refused.
    Memory,
}

impl From<AllocError> for PathTrouble {
    fn from(_e: AllocError) -> PathTrouble {
        PathTrouble::Memory
    }
}

impl<T: Drop> From<AllocFailed<T>> for PathTrouble {
    fn from(_e: AllocFailed<T>) -> PathTrouble {
        PathTrouble::Memory
    }
}

impl Display for PathTrouble {
    fn fmt<W: Write>(&self, f: &mut Formatter<W>) -> fmt::Result {
        match self {
            PathTrouble::Form => write!(
                f,
                "not a path of names (write it as customer.phones[*].number)"
            ),
            PathTrouble::NoField {
                name,
                node,
                nearest: Some(nearest),
            } => write!(
                f,
                "no field \"{name}\" in {node}; did you mean \"{nearest}\"?"
            ),
            PathTrouble::NoField {
                name,
                node,
                nearest: None,
            } => write!(f, "no field \"{name}\" in {node}"),
            PathTrouble::NoStruct { name } => write!(
                f,
                "\"{name}\" is asked of a value that has no fields (write [*] after a list)"
            ),
            PathTrouble::NoList => write!(f, "[*] is asked of a value that is not a list"),
            PathTrouble::Memory => write!(f, "there is no memory for it"),
        }
    }
}

/// Returns the trouble of a name that no field of a struct has.
fn unknown(alloc: Global, schema: StructSchema<'_>, name: &str) -> PathTrouble {
    let near = match nearest_field(alloc, schema, name) {
        Some(near) => String::from_str(alloc, near).ok(),
        None => None,
    };
    let node = String::from_str(alloc, short_name(schema.get_proto()));
    match (String::from_str(alloc, name), node) {
        (Ok(name), Ok(node)) => PathTrouble::NoField {
            name,
            node,
            nearest: near,
        },
        _ => PathTrouble::Memory,
    }
}

/// Returns the place of a field of a struct.
fn field_at<'a>(
    alloc: Global,
    root: StructSchema<'a>,
    place: Place<'a>,
    name: &str,
) -> Result<Place<'a>, PathTrouble> {
    let Some(schema) = struct_at(root, place) else {
        let name = String::from_str(alloc, name)?;
        return Err(PathTrouble::NoStruct { name });
    };
    match field_in(schema, &[], name) {
        Some(place) => Ok(place),
        None => Err(unknown(alloc, schema, name)),
    }
}

/// The steps that a part of a path, between points, spells: a name, and `[*]` any number of times.
fn push_steps(alloc: Global, part: &str, steps: &mut Vec<PlanStep>) -> Result<(), PathTrouble> {
    let mut name = part;
    let mut count: u32 = 0;
    for _ in 0..part.len() {
        let Some(front) = name.strip_suffix("[*]") else {
            break;
        };
        name = front;
        count = count.saturating_add(1);
    }
    if name.is_empty() || name.contains('[') || name.contains(']') {
        return Err(PathTrouble::Form);
    }
    steps.push(PlanStep::Name(String::from_str(alloc, name)?))?;
    for _ in 0..count {
        steps.push(PlanStep::Each)?;
    }
    Ok(())
}

/// Returns the steps of a path.
fn steps_of(alloc: Global, path: &str) -> Result<Vec<PlanStep>, PathTrouble> {
    let mut steps = Vec::new(alloc);
    for part in path.split('.') {
        push_steps(alloc, part, &mut steps)?;
    }
    Ok(steps)
}

/// Checks that steps lead to a value of a schema.
fn check_steps(
    alloc: Global,
    root: StructSchema<'_>,
    steps: &[PlanStep],
) -> Result<(), PathTrouble> {
    let mut place = Place::Struct(root);
    for step in steps {
        place = match step {
            PlanStep::Name(name) => field_at(alloc, root, place, name.as_str())?,
            PlanStep::Each => element_in(place).ok_or(PathTrouble::NoList)?,
        };
    }
    Ok(())
}

/// Returns whether two steps are the same.
fn are_same(a: &PlanStep, b: &PlanStep) -> bool {
    match (a, b) {
        (PlanStep::Name(a), PlanStep::Name(b)) => a.as_str() == b.as_str(),
        (PlanStep::Each, PlanStep::Each) => true,
        _ => false,
    }
}

impl Plan {
    /// Makes a plan that clears nothing.
    pub fn new(alloc: Global) -> Plan {
        Plan {
            is_cut: false,
            branches: Vec::new(alloc),
        }
    }

    /// Adds the values at a path, which is checked against the struct at the root of messages.
    ///
    /// If the path is refused, the plan is unchanged. After `Memory` the plan may clear less.
    pub fn add(
        &mut self,
        alloc: Global,
        root: StructSchema<'_>,
        path: &str,
    ) -> Result<(), PathTrouble> {
        let steps = steps_of(alloc, path)?;
        check_steps(alloc, root, &steps)?;
        self.add_steps(alloc, steps)
    }

    /// Adds the values at the end of steps.
    fn add_steps(&mut self, alloc: Global, steps: Vec<PlanStep>) -> Result<(), PathTrouble> {
        let mut plan = Plan {
            is_cut: true,
            branches: Vec::new(alloc),
        };
        let mut steps = steps;
        for _ in 0..steps.len() {
            let Some(step) = steps.pop() else {
                break;
            };
            let mut branches = Vec::new(alloc);
            branches.push(Branch { step, plan })?;
            plan = Plan {
                is_cut: false,
                branches,
            };
        }
        self.branches.append(&mut plan.branches)?;
        Ok(())
    }
}

/// The plans of a value: those of each path that leads into it.
#[derive(Debug, Drop)]
pub(crate) struct Plans<'a> {
    plans: Vec<&'a Plan>,
}

impl<'a> Plans<'a> {
    /// Returns the plans of a root.
    pub(crate) fn of(alloc: Global, plan: &'a Plan) -> Result<Plans<'a>, AllocError> {
        let mut plans = Vec::new(alloc);
        plans.push(plan)?;
        Ok(Plans { plans })
    }

    /// Returns whether the value itself is cleared.
    pub(crate) fn is_cut(&self) -> bool {
        self.plans.iter().any(|plan| plan.is_cut)
    }

    /// Returns the plans after a step.
    fn after(&self, alloc: Global, step: &PlanStep) -> Result<Plans<'a>, AllocError> {
        let mut plans = Vec::new(alloc);
        for plan in self.plans.iter() {
            for branch in plan.branches.iter() {
                if are_same(&branch.step, step) {
                    plans.push(&branch.plan)?;
                }
            }
        }
        Ok(Plans { plans })
    }

    /// Returns the plans of the field of a name.
    pub(crate) fn named(&self, alloc: Global, name: &str) -> Result<Plans<'a>, AllocError> {
        if self.plans.is_empty() {
            let plans = Vec::new(alloc);
            return Ok(Plans { plans });
        }
        let step = PlanStep::Name(String::from_str(alloc, name)?);
        self.after(alloc, &step)
    }

    /// Returns the plans of each element.
    pub(crate) fn each(&self, alloc: Global) -> Result<Plans<'a>, AllocError> {
        self.after(alloc, &PlanStep::Each)
    }
}
