//! Schemas that files hold, and the struct that messages have at their root.
ghost use Rattle.std.specs.Prelude.{◌≡◌, [], map, option_copied, string_bytes, Some, IfOk, IfErr};
ghost use Rattle.hagzimot_schemas.specs.Roots.{names_of, IsRootOf};
ghost use Rattle.capnp_records.specs.NodeViews.{node_of};
ghost use Rattle.capnp_records.specs.Sets.{nodes_of, IsStructOf};
ghost use Rattle.capnp_relay_files.specs.Faults.{IsFileRefusal};
ghost use Rattle.capnp_relay_requests.specs.Floats.{float_told};
ghost use Rattle.hagzimot_schemas.specs.SchemaForms.{json_nodes, AreNodesTold, AreFloatsTold};

use crate::forms::{SchemaForm, is_request, json_trouble, schema_form};
use crate::names::names_of;
use crate::roots::{RootTrouble, root_named, single_root, unscoped};
use crate::rules::rule_text;
use capnp_records::fault::SchemaFault;
use capnp_records::laws::struct_is_named;
use capnp_records::node::NodeRecord;
use capnp_records::raw::RawBrandedStructSchema;
use capnp_records::set::SchemaSet;
use capnp_relay_files::fault::FileFault;
use capnp_relay_files::schema_file::schema_file;
use capnp_relay_requests::fault::RequestFault;
use capnp_relay_requests::request::{FloatField, Floats, InterfaceField, Requested, request_file};
use capnp_values_queries::laws::struct_is_node;
use capnp_values_queries::structs::StructSchema;
use hagzimot_forms::id_numbers::ids_as_numbers;
use std::alloc::{AllocError, Global};
use std::fmt;
use std::fmt::{Display, Formatter, Write};

/// The reason for which a file is not a schema that can be used.
#[derive(Debug, Drop)]
pub enum SchemaTrouble {
    /// The file is empty.
    Empty,
    /// The file is compressed by gzip.
    Gzip,
    /// The file is the source of a schema.
    Source,
    /// The file is neither a request of the compiler nor JSON.
    Other,
    /// The file looks like JSON, but isn't. The error has the line and the column.
    Json(serde_json::Error),
    /// The file is JSON, but not an array of nodes. The error has the line and the column, if a
    /// closer look finds the fault.
    Form(Option<serde_json::Error>),
    /// The file is a request of the compiler that can't be read.
    Request(RequestFault),
    /// The file has no nodes.
    NoNodes,
    /// The nodes break a rule. `node` is the place of the first node that does, counted from 0.
    Rule {
        rule: u32,
        node: usize,
        name: String,
    },
    /// The schema has no root, or several.
    Root(RootTrouble),
    /// An allocation was refused.
    Memory,
}

impl From<AllocError> for SchemaTrouble {
    fn from(_e: AllocError) -> SchemaTrouble {
        SchemaTrouble::Memory
    }
}

/// Returns the text of a reason that has no further details.
fn form_text(trouble: &SchemaTrouble) -> &'static str {
    match trouble {
        SchemaTrouble::Empty => "the file is empty (did the compiler fail?)",
        SchemaTrouble::Gzip => "this is gzip data; decompress it first",
        SchemaTrouble::Source => "this is schema source; compile it first: capnp compile -o-",
        SchemaTrouble::Other => "neither what capnp compile -o- writes nor a JSON schema file",
        SchemaTrouble::NoNodes =>
            "a message, but not a schema: it has no structs and no enums (is it a file of messages?)",
        _ => "there is no memory for it",
    }
}

impl Display for SchemaTrouble {
    fn fmt<W: Write>(&self, f: &mut Formatter<W>) -> fmt::Result {
        match self {
            SchemaTrouble::Json(error) => write!(f, "not JSON: {error}"),
            SchemaTrouble::Form(Some(error)) => write!(f, "not a schema file: {error}"),
            SchemaTrouble::Form(None) => write!(
                f,
                "JSON, but not an array of nodes (the manual describes it: Schemas and roots)"
            ),
            SchemaTrouble::Request(fault) => write!(f, "not a request of the compiler: {fault}"),
            SchemaTrouble::Rule { rule, node, name } => {
                let says = rule_text(*rule);
                write!(f, "node {node} (\"{name}\") breaks rule {rule}: {says}")
            }
            SchemaTrouble::Root(trouble) => write!(f, "{trouble}"),
            other => f.write_str(form_text(other)),
        }
    }
}

/// Returns the reason for which a file of another form than a request is not a schema.
fn trouble_of(alloc: Global, form: SchemaForm, bytes: &[u8]) -> SchemaTrouble {
    match form {
        SchemaForm::Empty => SchemaTrouble::Empty,
        SchemaForm::Gzip => SchemaTrouble::Gzip,
        SchemaForm::Source => SchemaTrouble::Source,
        SchemaForm::Other => SchemaTrouble::Other,
        SchemaForm::Json | SchemaForm::Request => json_trouble(alloc, bytes),
    }
}

/// Returns the reason for which a request isn't read.
fn request_trouble(fault: RequestFault) -> SchemaTrouble {
    match fault {
        RequestFault::Memory => SchemaTrouble::Memory,
        fault => SchemaTrouble::Request(fault),
    }
}

/// Returns the nodes of a JSON schema file. If it doesn't read with ids that are numbers, ids may
/// be texts too.
fn json_file(alloc: Global, bytes: &[u8]) -> Result<Vec<NodeRecord>, FileFault>
    ensures ok { IfOk result (λ nodes. json_nodes bytes.now ≡ Some (map node_of nodes.items)) }
    ensures refused { IfErr result (IsFileRefusal (json_nodes bytes.now)) }
{
    match schema_file(alloc, bytes) {
        Ok(nodes) => return Ok(nodes),
        Err(FileFault::Memory) => return Err(FileFault::Memory),
        Err(FileFault::Form) => {}
    }
    match ids_as_numbers(alloc, bytes) {
        Ok(numbered) => schema_file(alloc, &numbered),
        Err(_) => Err(FileFault::Memory),
    }
}

/// Returns the structs at the top of a JSON schema file: those whose names have no point.
fn tops_of(alloc: Global, nodes: &[NodeRecord]) -> Result<Vec<u64>, AllocError> {
    let names = names_of(alloc, nodes, &[])?;
    unscoped(alloc, &names)
}

/// Reads a JSON schema file.
fn json_told(alloc: Global, bytes: &[u8], form: SchemaForm) -> Result<Requested, SchemaTrouble>
    ensures nodes { IfOk result
        (λ told. json_nodes bytes.now ≡ Some (map node_of told.nodes.items)) }
    ensures floats { IfOk result (λ told. told.floats.items ≡ []) }
{
    let nodes = match json_file(alloc, bytes) {
        Ok(nodes) => nodes,
        Err(FileFault::Memory) => return Err(SchemaTrouble::Memory),
        Err(FileFault::Form) => return Err(trouble_of(alloc, form, bytes)),
    };
    let top_structs = tops_of(alloc, &nodes)?;
    Ok(Requested {
        nodes,
        floats: Vec::new(alloc),
        interfaces: Vec::new(alloc),
        files: Vec::new(alloc),
        top_structs,
    })
}

/// Reads a file, which may have no nodes.
fn read_any(alloc: Global, bytes: &[u8], floats: Floats) -> Result<Requested, SchemaTrouble>
    ensures nodes { IfOk result
        (λ told. AreNodesTold floats bytes.now (map node_of told.nodes.items)) }
    ensures floats { IfOk result
        (λ told. AreFloatsTold bytes.now (map float_told told.floats.items)) }
{
    let form = schema_form(bytes);
    if !is_request(bytes) {
        return json_told(alloc, bytes, form);
    }
    if form != SchemaForm::Request {
        return Err(trouble_of(alloc, form, bytes));
    }
    match request_file(alloc, bytes, floats) {
        Ok(requested) => Ok(requested),
        Err(fault) => Err(request_trouble(fault)),
    }
}

/// Reads the schema of a file: a request of the compiler, which `capnp compile -o-` writes, or a
/// JSON schema file, whose ids are numbers or texts of their digits. Only a request names the
/// fields that are floats, and those that are capabilities of an interface.
pub fn read_told(alloc: Global, bytes: &[u8], floats: Floats) -> Result<Requested, SchemaTrouble>
    ensures nodes { IfOk result
        (λ told. AreNodesTold floats bytes.now (map node_of told.nodes.items)) }
    ensures floats { IfOk result
        (λ told. AreFloatsTold bytes.now (map float_told told.floats.items)) }
{
    let told = read_any(alloc, bytes, floats)?;
    if told.nodes.is_empty() {
        return Err(SchemaTrouble::NoNodes);
    }
    Ok(told)
}

/// Returns the nodes of a file, as `read_told` reads them.
pub fn read_nodes(
    alloc: Global,
    bytes: &[u8],
    floats: Floats,
) -> Result<Vec<NodeRecord>, SchemaTrouble>
    ensures { IfOk result (λ nodes. AreNodesTold floats bytes.now (map node_of nodes.items)) }
{
    Ok(read_told(alloc, bytes, floats)?.nodes)
}

/// Returns the name of the node at a place.
fn name_at(alloc: Global, nodes: &[NodeRecord], place: usize) -> Result<String, AllocError> {
    match nodes.get(place) {
        Some(node) => String::from_str(alloc, node.display_name.as_str()),
        None => Ok(String::new(alloc)),
    }
}

/// The schema of a file whose nodes keep all rules.
#[derive(Drop)]
pub struct CheckedSchema {
    pub set: SchemaSet,
    /// The fields that are floats in a request.
    pub floats: Vec<FloatField>,
    /// The fields that are capabilities of an interface.
    pub interfaces: Vec<InterfaceField>,
    /// The names of the nodes' files, if the file has them.
    pub files: Vec<String>,
    /// The structs at the top of the file.
    pub top_structs: Vec<u64>,
}

/// Reads the schema of a file, and checks that its nodes keep all rules.
pub fn read_set(alloc: Global, bytes: &[u8], floats: Floats) -> Result<CheckedSchema, SchemaTrouble>
    ensures nodes { IfOk result (λ s. AreNodesTold floats bytes.now (nodes_of s.set)) }
    ensures floats { IfOk result
        (λ s. AreFloatsTold bytes.now (map float_told s.floats.items)) }
{
    let Requested {
        nodes,
        floats: float_fields,
        interfaces,
        files,
        top_structs,
    } = read_told(alloc, bytes, floats)?;
    match SchemaSet::new(nodes) {
        Ok(set) => Ok(CheckedSchema {
            set,
            floats: float_fields,
            interfaces,
            files,
            top_structs,
        }),
        Err(SchemaFault::Memory) => Err(SchemaTrouble::Memory),
        Err(SchemaFault::Rule { rule, node }) => {
            let again = read_nodes(alloc, bytes, floats)?;
            let name = name_at(alloc, &again, node)?;
            Err(SchemaTrouble::Rule { rule, node, name })
        }
    }
}

/// Returns the id of the struct that a word names or, without one, of the one struct at the top.
pub fn root_of(
    alloc: Global,
    schema: &CheckedSchema,
    word: Option<&str>,
) -> Result<u64, RootTrouble>
    ensures { IfOk result (IsRootOf (option_copied word.entry)
        (names_of (nodes_of schema.now.set) (map string_bytes schema.now.files.items))
        schema.now.top_structs.items) }
{
    let names = names_of(alloc, schema.set.nodes(), &schema.files)?;
    match word {
        Some(word) => root_named(alloc, &names, word),
        None => single_root(alloc, &names, &schema.top_structs),
    }
}

/// A schema, and the struct that messages have at their root.
#[derive(Drop)]
pub struct RootedSchema {
    set: SchemaSet,
    root: RawBrandedStructSchema,
    floats: Vec<FloatField>,
    interfaces: Vec<InterfaceField>,
    /// The names of the nodes' files, if the file has them.
    files: Vec<String>,
    /// The structs at the top of the file.
    top_structs: Vec<u64>,
    pub ghost known: { IsStructOf (nodes_of set) root },
}

impl RootedSchema {
    ghost use Rattle.std.specs.Prelude.{◌≡◌, ◌==◌, ℕ, not, length, IfOk, map, option_copied, string_bytes};
    ghost use Rattle.hagzimot_schemas.specs.Roots.{names_of, IsRootOf};
    ghost use Rattle.capnp_records.specs.Sets.{nodes_of, IsStructOf};
    ghost use Rattle.capnp_values_queries.specs.Structs.{nodes_around, id_of};
    ghost use Rattle.capnp_calls.specs.Roots.{IsRoot};
    ghost use Rattle.capnp_relay_requests.specs.Floats.{float_told};
    ghost use Rattle.hagzimot_schemas.specs.SchemaForms.{AreNodesTold, AreFloatsTold};

    /// Reads the schema of a file. Its root is the struct that a word names, as `root_named` finds
    /// it. Without a word, the root is the one struct at the top of the file.
    pub fn new(
        alloc: Global,
        bytes: &[u8],
        floats: Floats,
        root: Option<&str>,
    ) -> Result<RootedSchema, SchemaTrouble>
        ensures nodes { IfOk result (λ s. AreNodesTold floats bytes.now (nodes_of s.set)) }
        ensures floats { IfOk result
            (λ s. AreFloatsTold bytes.now (map float_told s.floats.items)) }
        ensures root { IfOk result (λ s. IsRootOf (option_copied root.entry)
            (names_of (nodes_of s.set) (map string_bytes s.files.items))
            s.top_structs.items s.root.id) }
    {
        let schema = read_set(alloc, bytes, floats)?;
        struct_is_named();
        let id = match root_of(alloc, &schema, root) {
            Ok(id) => id,
            Err(trouble) => return Err(SchemaTrouble::Root(trouble)),
        };
        let CheckedSchema {
            set,
            floats,
            interfaces,
            files,
            top_structs,
        } = schema;
        match set.struct_by_id(id) {
            Some(root) => Ok(RootedSchema {
                set,
                root,
                floats,
                interfaces,
                files,
                top_structs,
            }),
            // A root that is named is a struct of the set.
            None => Err(SchemaTrouble::Memory),
        }
    }

    /// Returns the schema of the root.
    pub fn root(&self) -> StructSchema<'_>
        ensures nodes { nodes_around result ≡ nodes_of self.now.set }
        ensures known { IsRoot result }
        ensures id { id_of result ≡ self.now.root.id }
    {
        struct_is_node();
        StructSchema::new(&self.set, self.root)
    }

    /// Returns the id of the root.
    pub fn root_id(&self) -> u64
        ensures id { result ≡ self.now.root.id }
        ensures known { (number : ℕ)
            × IsStructOf (nodes_of self.now.set) (record { number = number; id = result }) }
    {
        self.root.id
    }

    /// Returns the nodes of the schema.
    pub fn nodes(&self) -> &[NodeRecord]
        ensures { map node_of result.now ≡ nodes_of self.now.set }
    {
        self.set.nodes()
    }

    /// Returns the fields that are floats in the compiler's request, whose bits the nodes have as
    /// whole numbers.
    pub fn floats(&self) -> &[FloatField]
        ensures { result.now ≡ self.now.floats.items }
    {
        &self.floats
    }

    /// Tests whether the schema names the interfaces of its fields. A request of the compiler does,
    /// and a JSON file doesn't.
    pub fn tells_interfaces(&self) -> bool
        ensures { result ≡ not (length self.now.files.items == 0) }
    {
        !self.files.is_empty()
    }

    /// Returns the fields that are capabilities of an interface in the compiler's request.
    pub fn interfaces(&self) -> &[InterfaceField]
        ensures { result.now ≡ self.now.interfaces.items }
    {
        &self.interfaces
    }

    /// Returns the set of the nodes.
    pub fn set(&self) -> &SchemaSet
        ensures { result.now ≡ self.now.set }
    {
        &self.set
    }
}
