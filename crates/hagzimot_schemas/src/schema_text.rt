//! The text of a JSON schema file for nodes.
ghost use Rattle.std.specs.Prelude.{◌≡◌, map, option_map, string_bytes, Some, IfOk};
ghost use Rattle.capnp_records.specs.NodeViews.{node_of};
ghost use Rattle.capnp_relay_files.specs.SchemaFiles.{schema_nodes_in};
ghost use Rattle.hagzimot_schemas.specs.SchemaForms.{bare_node, readable};

use crate::json_text::Quoted;
use crate::same_nodes::are_same_nodes;
use capnp_records::node::{
    BaseType, EnumerantRecord, FieldBody, FieldRecord, NO_DISCRIMINANT, NodeBody, NodeRecord,
    StructRecord, TypeRecord, Value,
};
use capnp_relay_files::fault::FileFault;
use capnp_relay_files::schema_file::schema_file;
use hagzimot_forms::id_numbers::ids_as_numbers;
use std::alloc::{AllocError, Global};
use std::fmt;
use std::fmt::{Display, Formatter, Write};

/// Bytes in hexadecimal digits, between double quotes.
#[derive(Clone, Copy)]
struct Hex<'a>(&'a [u8]);

impl Display for Hex<'_> {
    fn fmt<W: Write>(&self, f: &mut Formatter<W>) -> fmt::Result {
        f.write_char('"')?;
        for byte in self.0 {
            write!(f, "{byte:02x}")?;
        }
        f.write_char('"')
    }
}

/// The form in which ids are written.
#[derive(Clone, Copy, Debug, PartialEq, Eq)]
pub enum IdForm {
    /// Numbers of up to 20 digits.
    Numbers,
    /// Texts of their digits, which no reader of JSON rounds. The command reads both.
    Texts,
}

/// An id.
#[derive(Clone, Copy)]
struct IdText {
    id: u64,
    form: IdForm,
}

impl Display for IdText {
    fn fmt<W: Write>(&self, f: &mut Formatter<W>) -> fmt::Result {
        let id = self.id;
        match self.form {
            IdForm::Numbers => write!(f, "{id}"),
            IdForm::Texts => write!(f, "\"{id}\""),
        }
    }
}

/// A base, as a name or an object with an id.
#[derive(Clone, Copy)]
struct BaseText {
    base: BaseType,
    ids: IdForm,
}

impl BaseText {
    /// Writes the object of a key and an id.
    fn put<W: Write>(&self, key: &str, id: u64, f: &mut Formatter<W>) -> fmt::Result {
        let form = self.ids;
        write!(f, "{{\"{key}\": {}}}", IdText { id, form })
    }
}

impl Display for BaseText {
    fn fmt<W: Write>(&self, f: &mut Formatter<W>) -> fmt::Result {
        match self.base {
            BaseType::Void => f.write_str("\"Void\""),
            BaseType::Bool => f.write_str("\"Bool\""),
            BaseType::Int8 => f.write_str("\"Int8\""),
            BaseType::Int16 => f.write_str("\"Int16\""),
            BaseType::Int32 => f.write_str("\"Int32\""),
            BaseType::Int64 => f.write_str("\"Int64\""),
            BaseType::UInt8 => f.write_str("\"UInt8\""),
            BaseType::UInt16 => f.write_str("\"UInt16\""),
            BaseType::UInt32 => f.write_str("\"UInt32\""),
            BaseType::UInt64 => f.write_str("\"UInt64\""),
            BaseType::Float32 => f.write_str("\"Float32\""),
            BaseType::Float64 => f.write_str("\"Float64\""),
            BaseType::Text => f.write_str("\"Text\""),
            BaseType::Data => f.write_str("\"Data\""),
            BaseType::Enum(id) => self.put("enum", id, f),
            BaseType::Struct(id) => self.put("struct", id, f),
            BaseType::AnyPointer => f.write_str("\"AnyPointer\""),
            BaseType::Capability => f.write_str("\"Capability\""),
        }
    }
}

/// A type.
#[derive(Clone, Copy)]
struct TypeText {
    ty: TypeRecord,
    ids: IdForm,
}

impl Display for TypeText {
    fn fmt<W: Write>(&self, f: &mut Formatter<W>) -> fmt::Result {
        let TypeRecord { list_count, base } = self.ty;
        let ids = self.ids;
        for _ in 0..list_count {
            f.write_str("{\"list\": ")?;
        }
        write!(f, "{}", BaseText { base, ids })?;
        for _ in 0..list_count {
            f.write_char('}')?;
        }
        Ok(())
    }
}

/// A default, after its key. It is empty if a file leaves out this default.
#[derive(Clone, Copy)]
struct DefaultText<'a>(&'a Value);

impl DefaultText<'_> {
    /// Writes the key and a value.
    fn put<V: Display + Drop, W: Write>(value: V, f: &mut Formatter<W>) -> fmt::Result {
        write!(f, ", \"default\": {value}")
    }

    /// Writes the key and a number other than zero.
    fn put_number<W: Write>(number: i128, f: &mut Formatter<W>) -> fmt::Result {
        if number == 0 {
            return Ok(());
        }
        write!(f, ", \"default\": {number}")
    }
}

impl Display for DefaultText<'_> {
    fn fmt<W: Write>(&self, f: &mut Formatter<W>) -> fmt::Result {
        match self.0 {
            Value::Void | Value::Bool(false) | Value::AnyPointer | Value::Interface => Ok(()),
            Value::Bool(true) => f.write_str(", \"default\": true"),
            Value::Int8(n) => DefaultText::put_number(*n as i128, f),
            Value::Int16(n) => DefaultText::put_number(*n as i128, f),
            Value::Int32(n) => DefaultText::put_number(*n as i128, f),
            Value::Int64(n) => DefaultText::put_number(*n as i128, f),
            Value::UInt8(n) => DefaultText::put_number(*n as i128, f),
            Value::UInt16(n) | Value::Enum(n) => DefaultText::put_number(*n as i128, f),
            Value::UInt32(n) => DefaultText::put_number(*n as i128, f),
            Value::UInt64(n) => DefaultText::put_number(*n as i128, f),
            Value::Text(text) => match str::from_utf8(text) {
                Ok(text) => DefaultText::put(Quoted(text), f),
                // A file can't have this text. It doesn't read back, so `Untold` is returned.
                Err(_) => Ok(()),
            },
            Value::Data(bytes) | Value::List(bytes) | Value::Struct(bytes) => {
                DefaultText::put(Hex(bytes), f)
            }
        }
    }
}

/// A field.
#[derive(Clone, Copy)]
struct FieldText<'a> {
    field: &'a FieldRecord,
    ids: IdForm,
}

impl Display for FieldText<'_> {
    fn fmt<W: Write>(&self, f: &mut Formatter<W>) -> fmt::Result {
        let field = self.field;
        let ids = self.ids;
        write!(f, "{{\"name\": {}", Quoted(field.name.as_str()))?;
        match &field.body {
            FieldBody::Slot { offset, ty, .. } => write!(
                f,
                ", \"type\": {}, \"offset\": {offset}",
                TypeText { ty: *ty, ids }
            )?,
            FieldBody::Group { node } => {
                let group = IdText {
                    id: *node,
                    form: ids,
                };
                write!(f, ", \"group\": {group}")?;
            }
        }
        if field.discriminant_value != NO_DISCRIMINANT {
            write!(f, ", \"discriminant\": {}", field.discriminant_value)?;
        }
        if let FieldBody::Slot {
            default: Some(value),
            ..
        } = &field.body
        {
            write!(f, "{}", DefaultText(value))?;
        }
        f.write_char('}')
    }
}

/// The keys of a struct or a group.
#[derive(Clone, Copy)]
struct StructText<'a> {
    body: &'a StructRecord,
    ids: IdForm,
}

impl Display for StructText<'_> {
    fn fmt<W: Write>(&self, f: &mut Formatter<W>) -> fmt::Result {
        let body = self.body;
        let ids = self.ids;
        write!(
            f,
            ", \"data\": {}, \"pointers\": {}",
            body.data_word_count, body.pointer_count
        )?;
        if body.is_group {
            f.write_str(", \"group\": true")?;
        }
        if body.discriminant_offset != 0 {
            write!(f, ", \"union\": {}", body.discriminant_offset)?;
        }
        f.write_str(", \"fields\": [")?;
        let mut before = "\n    ";
        for field in body.fields.iter() {
            write!(f, "{before}{}", FieldText { field, ids })?;
            before = ",\n    ";
        }
        f.write_char(']')
    }
}

/// The keys of an enum.
#[derive(Clone, Copy)]
struct EnumText<'a>(&'a [EnumerantRecord]);

impl Display for EnumText<'_> {
    fn fmt<W: Write>(&self, f: &mut Formatter<W>) -> fmt::Result {
        f.write_str(", \"enumerants\": [")?;
        let mut before = "";
        for enumerant in self.0 {
            write!(f, "{before}{}", Quoted(enumerant.name.as_str()))?;
            before = ", ";
        }
        f.write_char(']')
    }
}

/// A node.
#[derive(Clone, Copy)]
struct NodeText<'a> {
    node: &'a NodeRecord,
    ids: IdForm,
}

impl Display for NodeText<'_> {
    fn fmt<W: Write>(&self, f: &mut Formatter<W>) -> fmt::Result {
        let node = self.node;
        let ids = self.ids;
        let id = IdText {
            id: node.id,
            form: ids,
        };
        let name = Quoted(node.display_name.as_str());
        write!(f, "{{\"id\": {id}, \"name\": {name}")?;
        match &node.body {
            NodeBody::Struct(body) => write!(f, "{}", StructText { body, ids })?,
            NodeBody::Enum(enumerants) => write!(f, "{}", EnumText(enumerants))?,
        }
        f.write_char('}')
    }
}

/// The text of a schema file with these nodes.
#[derive(Clone, Copy)]
struct SchemaText<'a> {
    nodes: &'a [NodeRecord],
    ids: IdForm,
}

impl Display for SchemaText<'_> {
    fn fmt<W: Write>(&self, f: &mut Formatter<W>) -> fmt::Result {
        f.write_char('[')?;
        let mut before = "\n  ";
        let ids = self.ids;
        for node in self.nodes {
            write!(f, "{before}{}", NodeText { node, ids })?;
            before = ",\n  ";
        }
        f.write_str("\n]\n")
    }
}

/// The reason for which nodes have no text.
#[derive(Clone, Copy, Debug, PartialEq, Eq, thiserror::Error)]
pub enum SchemaTextFault {
    /// A schema file can't express the nodes: a default is a text that isn't UTF-8, or a union
    /// isn't as its members say.
    #[error("a schema file can't express it")]
    Untold,
    /// An allocation was refused.
    #[error("there is no memory for it")]
    Memory,
}

impl From<fmt::Error> for SchemaTextFault {
    fn from(_e: fmt::Error) -> SchemaTextFault {
        SchemaTextFault::Memory
    }
}

impl From<AllocError> for SchemaTextFault {
    fn from(_e: AllocError) -> SchemaTextFault {
        SchemaTextFault::Memory
    }
}

/// Reads the nodes of a text that has its ids in this form.
fn read_back(alloc: Global, text: &[u8], ids: IdForm) -> Result<Vec<NodeRecord>, SchemaTextFault>
    ensures { IfOk result (λ nodes. schema_nodes_in (readable ids text.now)
        ≡ Some (map node_of nodes.items)) }
{
    let read = match ids {
        IdForm::Numbers => schema_file(alloc, text),
        IdForm::Texts => schema_file(alloc, &ids_as_numbers(alloc, text)?),
    };
    match read {
        Ok(nodes) => Ok(nodes),
        Err(FileFault::Memory) => Err(SchemaTextFault::Memory),
        Err(FileFault::Form) => Err(SchemaTextFault::Untold),
    }
}

/// Returns the text of a schema file with these nodes, without their annotations. The text has a
/// line for each node, and one for each field. `Untold`: a file can't express the nodes.
/// `Memory`: an allocation was refused.
pub fn schema_text(
    alloc: Global,
    nodes: &[NodeRecord],
    ids: IdForm,
) -> Result<String, SchemaTextFault>
    ensures { IfOk result (λ text.
        option_map (map bare_node) (schema_nodes_in (readable ids (string_bytes text)))
        ≡ Some (map bare_node (map node_of nodes.now))) }
{
    let text = format!(in alloc; "{}", SchemaText { nodes, ids })?;
    let again = read_back(alloc, text.as_bytes(), ids)?;
    if are_same_nodes(nodes, &again) {
        Ok(text)
    } else {
        Err(SchemaTextFault::Untold)
    }
}
