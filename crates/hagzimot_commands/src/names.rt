//! Names that can't be distinguished from marks of a printed value.
ghost use Rattle.std.specs.Prelude.{◌≡◌, option_copied, option_map};
ghost use Rattle.hagzimot_commands.specs.Names.{is_mark, is_marked, marked_field, marked_enumerant, marked_name, first_marked, member_view};

use capnp_records::node::{EnumerantRecord, FieldRecord, NodeRecord};
use hagzimot_schemas::nodes::{enumerants_of, fields_of};

/// Tests whether a byte of a name can be taken for a mark of a printed value or for the end of a
/// line.
fn is_mark(byte: u8) -> bool
    ensures { result ≡ is_mark byte }
{
    byte <= b' '
        || byte == 127
        || matches!(
            byte,
            b'"' | b'(' | b')' | b',' | b';' | b'<' | b'=' | b'>' | b'[' | b'\\' | b']'
        )
}

/// Tests whether a name has such a byte.
fn is_marked(name: &str) -> bool
    ensures { result ≡ is_marked name.now }
{
    name.as_bytes().iter().any(|byte| is_mark(*byte))
}

/// Returns the first field whose name has such a byte.
fn marked_field(fields: &[FieldRecord]) -> Option<&FieldRecord>
    ensures { option_copied result ≡ marked_field fields.now }
{
    fields.iter().find(|field| is_marked(field.name.as_str()))
}

/// Returns the first enumerant whose name has such a byte.
fn marked_enumerant(enumerants: &[EnumerantRecord]) -> Option<&EnumerantRecord>
    ensures { option_copied result ≡ marked_enumerant enumerants.now }
{
    enumerants
        .iter()
        .find(|enumerant| is_marked(enumerant.name.as_str()))
}

/// Returns the first name of a field or an enumerant of a node that has such a byte.
fn marked_name(node: &NodeRecord) -> Option<&str>
    ensures { option_map (λ name. name.now) result ≡ marked_name node.now }
{
    if let Some(field) = marked_field(fields_of(node)) {
        return Some(field.name.as_str());
    }
    match marked_enumerant(enumerants_of(node)) {
        Some(enumerant) => Some(enumerant.name.as_str()),
        None => None,
    }
}

/// A field or an enumerant by its name, and its node.
#[derive(Clone, Copy, Debug)]
pub struct NamedMember<'a> {
    pub node: &'a NodeRecord,
    pub name: &'a str,
}

/// Returns the first field or enumerant whose name can't be distinguished from the rest of a
/// printed value: it has a blank, a control character or a mark of printed values. Returns `None`
/// exactly if no node has such a name.
pub fn first_marked_name(nodes: &[NodeRecord]) -> Option<NamedMember<'_>>
    ensures { option_map member_view result ≡ first_marked nodes.now }
{
    let mut left = nodes;
    while let [node, others @ ..] = left {
        if let Some(name) = marked_name(node) {
            return Some(NamedMember { node, name });
        }
        left = others;
    }
    None
}
