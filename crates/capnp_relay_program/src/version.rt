//! One version of a schema, with its root.
ghost use Rattle.std.specs.Prelude.{◌≡◌, Ok, IsSome, IfOk, IfErr};
ghost use Rattle.std.specs.Option.{option_copied};
ghost use Rattle.capnp_records.specs.Sets.{nodes_of, IsStructOf};
ghost use Rattle.capnp_relay_program.specs.Faults.{IsStopRefusal};
ghost use Rattle.capnp_relay_program.specs.Asked.{file_nodes, version_in};

use crate::stop::Stop;
use capnp_records::fault::SchemaFault;
use capnp_records::laws::struct_is_named;
use capnp_records::raw::RawBrandedStructSchema;
use capnp_records::set::SchemaSet;
use capnp_relay_files::fault::FileFault;
use capnp_relay_files::schema_file::schema_file;
use capnp_relay_loop::ends::Fault;
use capnp_values_queries::laws::struct_is_node;
use capnp_values_queries::structs::StructSchema;
use std::alloc::Global;

/// The nodes of a schema file, and the struct that is the root of messages.
#[derive(Drop)]
pub struct Version {
    set: SchemaSet,
    root: RawBrandedStructSchema,
    pub ghost known: { IsStructOf (nodes_of set) root },
}

/// Returns the set of a schema file; if there is no file, nothing is read.
pub(crate) fn schema_set(alloc: Global, file: Option<&[u8]>) -> Result<SchemaSet, Stop>
    ensures ok { IfOk result (λ set. file_nodes (option_copied file.entry) ≡ Ok (nodes_of set)) }
    ensures refused { IfErr result (IsStopRefusal (IsSome file.entry)
        (file_nodes (option_copied file.entry))) }
{
    let bytes = file.ok_or(Stop::SchemaFile)?;
    let nodes = match schema_file(alloc, bytes) {
        Ok(nodes) => nodes,
        Err(FileFault::Form) => return Err(Stop::SchemaFile),
        Err(FileFault::Memory) => return Err(Stop::Relay(Fault::Memory)),
    };
    match SchemaSet::new(nodes) {
        Ok(set) => Ok(set),
        Err(SchemaFault::Rule { rule, node }) => Err(Stop::SchemaRule { rule, node }),
        Err(SchemaFault::Memory) => Err(Stop::Relay(Fault::Memory)),
    }
}

impl Version {
    ghost use Rattle.std.specs.Prelude.{◌≡◌, Ok, IsSome, IfOk, IfErr};
    ghost use Rattle.std.specs.Option.{option_copied};
    ghost use Rattle.capnp_records.specs.Sets.{nodes_of};
    ghost use Rattle.capnp_values_queries.specs.Structs.{nodes_around, id_of};
    ghost use Rattle.capnp_calls.specs.Roots.{IsRoot};
    ghost use Rattle.capnp_relay_program.specs.Faults.{IsStopRefusal};
    ghost use Rattle.capnp_relay_program.specs.Asked.{version_in};

    /// Returns the version of a schema file with the root of this id, or the first fault: of the
    /// file, its rules or the root. A file that can't be read is `None`. `Relay(Memory)`: an
    /// allocation was refused.
    pub fn new(alloc: Global, file: Option<&[u8]>, id: u64) -> Result<Version, Stop>
        ensures ok { IfOk result (λ v.
            version_in (option_copied file.entry) id ≡ Ok (nodes_of v.set)) }
        ensures root { IfOk result (λ v. v.root.id ≡ id) }
        ensures refused { IfErr result (IsStopRefusal (IsSome file.entry)
            (version_in (option_copied file.entry) id)) }
    {
        let set = schema_set(alloc, file)?;
        struct_is_named();
        let root = set.struct_by_id(id).ok_or(Stop::Root)?;
        Ok(Version { set, root })
    }

    /// Returns the root's schema.
    pub fn root(&self) -> StructSchema<'_>
        ensures nodes { nodes_around result ≡ nodes_of self.now.set }
        ensures id { id_of result ≡ self.now.root.id }
        ensures known { IsRoot result }
    {
        struct_is_node();
        StructSchema::new(&self.set, self.root)
    }
}
