//! Measures how fast sets of node records are accepted.
use crate::schema_samples as samples;
use capnp_records::fault::SchemaFault;
use capnp_records::node::NodeRecord;
use capnp_records::set::SchemaSet;
use std::alloc::{AllocError, Global};
use std::io;
use std::time::Instant;

/// The most nodes.
const MOST_NODES: u32 = 20_000;

/// The most fields of a struct.
const MOST_FIELDS: u32 = 65_535;

fn records(alloc: Global, word: &str, count: u32) -> Result<Vec<NodeRecord>, AllocError> {
    match word {
        "fields" => samples::one_struct(alloc, count.min(MOST_FIELDS)),
        "chain" => samples::chain(alloc, count.min(MOST_NODES)),
        _ => samples::nodes(alloc, count.min(MOST_NODES)),
    }
}

/// Makes a set of the records that a word names, and prints the number of nodes accepted.
fn accept(rt: &HostRuntime, word: &str, count: u32) -> io::Result<()> {
    let nodes = records(rt.alloc(), word, count)?;
    let count = nodes.len();
    let start = Instant::now(rt)?;
    let made = SchemaSet::new(nodes);
    let micros = start.elapsed(rt)?.as_micros();
    match made {
        Ok(set) => println!(rt; "{} nodes accepted", set.nodes().len())?,
        Err(SchemaFault::Memory) => println!(rt; "memory")?,
        Err(SchemaFault::Rule { rule, node }) => {
            println!(rt; "rule {rule} is broken at node {node}")?
        }
    }
    eprintln!(rt; "{count} nodes in {micros} us")
}

/// Makes sets of the records that a word names, n times; only the records if n is 0.
pub fn accept_all(rt: &HostRuntime, word: &str, count: u32, rounds: u32) -> io::Result<()> {
    if rounds == 0 {
        let nodes = records(rt.alloc(), word, count)?;
        println!(rt; "{} nodes made", nodes.len())?;
    }
    for _ in 0..rounds {
        accept(rt, word, count)?;
    }
    Ok(())
}
