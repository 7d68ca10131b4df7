//! Schema files, and the rule that each breaks first.
use crate::fault::Fault;
use capnp_records::fault::SchemaFault;
use capnp_records::set::SchemaSet;
use capnp_relay_files::schema_file::schema_file;
use serde_json::Value as Json;
use std::alloc::Global;

/// Returns the set of a schema file.
pub fn set_of(alloc: Global, text: &str) -> Result<SchemaSet, Fault> {
    let nodes = schema_file(alloc, text.as_bytes())?;
    SchemaSet::new(nodes).ok().ok_or(Fault::Shape)
}

/// Returns the answer to the nodes.
fn answer_to(alloc: Global, schema: &Json) -> Result<String, Fault> {
    let text = schema.to_string(alloc)?;
    match SchemaSet::new(schema_file(alloc, text.as_bytes())?) {
        Ok(_) => Ok(String::from_str(alloc, "accepted")?),
        Err(SchemaFault::Rule { rule, node }) => {
            Ok(format!(in alloc; "rule {rule} node {node}")?)
        }
        Err(SchemaFault::Memory) => Err(Fault::Memory),
    }
}

/// Returns whether the schema file of a line is answered as it should be: `{"schema": .., "answer":
/// ..}`.
pub fn is_right(alloc: Global, line: &str) -> Result<bool, Fault> {
    let Ok(case) = Json::from_str(alloc, line) else {
        return Err(Fault::Shape);
    };
    let schema = case.get("schema").ok_or(Fault::Shape)?;
    let wanted = case
        .get("answer")
        .and_then(Json::as_str)
        .ok_or(Fault::Shape)?;
    let answer = answer_to(alloc, schema)?;
    Ok(answer.as_str() == wanted)
}
