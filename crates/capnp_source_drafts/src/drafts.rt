//! Nodes without values and annotations, and what is left to do.

use capnp_source_names::problems::Stop;
use capnp_source_nodes::nodes::Node;
use capnp_source_syntax::tree::{Application, Expression};
use std::alloc::Global;
use std::collections::HashMap;

/// A default of a field that is written.
#[derive(Clone, Copy)]
pub struct DefaultJob<'a> {
    /// The node, by its index.
    pub node: usize,
    /// The field, by its index in the node.
    pub field: usize,
    /// The entry in whose scope the default is read.
    pub entry: usize,
    pub expression: &'a Expression,
    /// Whether it is that of a parameter, which may be `null`.
    pub is_parameter: bool,
}

/// The value of a constant.
#[derive(Clone, Copy)]
pub struct ConstantJob<'a> {
    /// The node, by its index.
    pub node: usize,
    /// The entry in whose scope the value is read.
    pub entry: usize,
    pub expression: &'a Expression,
}

/// A kind of thing that annotations are applied to.
#[derive(Clone, Copy, Debug, PartialEq, Eq)]
pub enum Subject {
    File,
    Constant,
    Enum,
    Enumerant,
    Struct,
    Field,
    Union,
    Group,
    Interface,
    Method,
    Parameter,
    Annotation,
}

/// The part of a node to which annotations are applied.
#[derive(Clone, Copy, Debug, PartialEq, Eq)]
pub enum Spot {
    Node,
    /// A field, an enumerant or a method, by its index.
    Part(usize),
}

/// Annotations that are applied.
#[derive(Clone, Copy)]
pub struct MarkJob<'a> {
    /// The node, by its index.
    pub node: usize,
    pub spot: Spot,
    /// The entry in whose scope the annotations are read.
    pub entry: usize,
    pub subject: Subject,
    pub applications: &'a [Application],
}

/// Nodes without values and annotations, and what is left to do.
#[derive(Drop)]
pub struct Drafts<'a> {
    pub nodes: Vec<Node>,
    /// The entry of each node. Groups, parameters and results have that of the node around.
    pub entries: Vec<usize>,
    /// The index of each node, by its id.
    pub by_id: HashMap<u64, usize>,
    pub defaults: Vec<DefaultJob<'a>>,
    pub constants: Vec<ConstantJob<'a>>,
    pub marks: Vec<MarkJob<'a>>,
}

impl<'a> Drafts<'a> {
    /// Returns no nodes.
    pub fn new(alloc: Global) -> Drafts<'a> {
        Drafts {
            nodes: Vec::new(alloc),
            entries: Vec::new(alloc),
            by_id: HashMap::new(alloc),
            defaults: Vec::new(alloc),
            constants: Vec::new(alloc),
            marks: Vec::new(alloc),
        }
    }

    /// Adds the node of an entry, and returns its index.
    pub(crate) fn add(&mut self, node: Node, entry: usize) -> Result<usize, Stop> {
        let index = self.nodes.len();
        let id = node.id;
        if !self.by_id.contains_key(&id) {
            self.by_id.insert(id, index)?;
        }
        self.entries.push(entry)?;
        self.nodes.push(node)?;
        Ok(index)
    }

    /// Adds annotations that are applied to a node or a part of it.
    pub(crate) fn mark(&mut self, job: MarkJob<'a>) -> Result<(), Stop> {
        if !job.applications.is_empty() {
            self.marks.push(job)?;
        }
        Ok(())
    }
}
