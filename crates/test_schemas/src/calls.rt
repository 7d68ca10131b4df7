//! Sequences of calls at the structs of dynamic builders: their replies, and the words that they
//! leave.
ghost use Rattle.std.specs.Prelude.{◌≡◌, true};
ghost use Rattle.capnp_units.specs.Segments.{words_in};
ghost use Rattle.capnp_copy_arenas.specs.Deep.{IsDeep};
ghost use Rattle.capnp_values_queries.specs.Structs.{shape_of_struct};
ghost use Rattle.capnp_schema_structs.specs.Builders.{IsReady};
ghost use Rattle.capnp_schema_structs.specs.Edits.{IsThere, HoldsShape};
ghost use Rattle.capnp_calls.specs.Roots.{IsRoot};

use crate::fixtures::{root, schema_of, set_of};
use crate::own_type::{begun, finish};
use capnp_calls::reply::Reply;
use capnp_calls::{Call, CallValue, Step, Verb};
use capnp_calls_run::builder::run;
use capnp_calls_run::fault::RunFault;
use capnp_copy_arenas::arena::{BuilderArena, Memory};
use capnp_copy_arenas::fields::StructPlace;
use capnp_copy_arenas::laws_of_arenas::arenas_are_deep;
use capnp_copy_arenas::segments::BuilderArenaImpl;
use capnp_layout_builders::struct_builder::StructBuilder;
use capnp_message_allocators::heap::HeapAllocator;
use capnp_records::set::SchemaSet;
use capnp_schema_structs::dynamic_struct::Builder;
use capnp_units::kinds::ErrorKind;
use capnp_values::dynamic_value::Reader;
use capnp_values_queries::laws::struct_is_node;
use capnp_values_queries::structs::StructSchema;
use capnp_wire_objects::arena::ReaderArenaImpl;
use std::alloc::Global;
use std::test::Fail;

/// U (3): u, v UInt16 in a union. D (4): n UInt16 with default 5. G (5): group g (6) of x UInt16.
/// L (7): gs a list of G.
const SCHEMAS: &str = r#"[
    {"id":3,"name":"U","data":1,"pointers":0,"union":1,"fields":[
        {"name":"u","discriminant":0,"type":"UInt16","offset":0},
        {"name":"v","discriminant":1,"type":"UInt16","offset":0}]},
    {"id":4,"name":"D","data":1,"pointers":0,"fields":[
        {"name":"n","type":"UInt16","offset":0,"default":5}]},
    {"id":5,"name":"G","data":1,"pointers":0,"fields":[{"name":"g","group":6}]},
    {"id":6,"name":"g","data":1,"pointers":0,"group":true,"fields":[
        {"name":"x","type":"UInt16","offset":0}]},
    {"id":7,"name":"L","data":0,"pointers":1,"fields":[
        {"name":"gs","type":{"list":{"struct":5}},"offset":0}]}]"#;

/// Makes a call at the field of a name.
fn at(alloc: Global, name: &str, verb: Verb, value: Option<CallValue>) -> Result<Call, Fail> {
    let mut path = Vec::new(alloc);
    path.push(Step::Name(String::from_str(alloc, name)?))?;
    Ok(Call::new(alloc, path, verb, value)?)
}

/// Makes a call that sets a number.
fn set(alloc: Global, name: &str, value: i128) -> Result<Call, Fail> {
    at(alloc, name, Verb::Set, Some(CallValue::Number(value)))
}

/// Returns a struct to write under its schema.
fn builder_of<'a, A: BuilderArena>(
    memory: &'a mut Memory<A>,
    place: StructPlace,
    schema: StructSchema<'a>,
) -> Builder<'a, A>
    requires there { IsThere (words_in (A.segments memory.old.arena)) place }
    requires wide { HoldsShape place (shape_of_struct schema) }
    ensures same { result.memory.ghost_name ≡ memory.entry.ghost_name }
    ensures now { result.memory.now ≡ memory.old }
    ensures schema { result.schema ≡ schema.entry }
    ensures ready { IsReady A.segments result }
{
    Builder::new(StructBuilder { memory, place }, schema)
}

/// Answers calls at a new struct at the root.
fn answered<A: BuilderArena>(
    alloc: Global,
    memory: &mut Memory<A>,
    schema: StructSchema<'_>,
    calls: &[Call],
) -> Result<Vec<Reply>, RunFault>
    requires arena { IsDeep A.segments A.nesting }
    requires root { IsRoot schema }
{
    let place = begun(memory, schema)?;
    let mut root = builder_of(memory, place, schema);
    run(alloc, &mut root, calls)
}

/// Returns the replies of calls at a new struct of the schema of an id, and the bytes of its
/// message then.
fn ran(alloc: Global, id: u64, calls: &[Call]) -> Result<(Vec<Reply>, Vec<u8>), Fail> {
    struct_is_node();
    arenas_are_deep::<HeapAllocator>();
    let set = set_of(alloc, SCHEMAS)?;
    let Some(raw) = set.struct_by_id(id) else {
        return Err(Fail::from("the struct is missing"));
    };
    let mut memory = Memory {
        arena: BuilderArenaImpl::new(alloc, HeapAllocator::new(alloc)),
    };
    let done = answered(alloc, &mut memory, StructSchema::new(&set, raw), calls);
    let Memory { arena } = memory;
    let bytes = finish(alloc, arena);
    match done {
        Ok(replies) => Ok((replies, bytes?)),
        Err(_) => Err(Fail::from("the calls aren't answered")),
    }
}

/// A call that is refused changes nothing, and doesn't stop the next.
#[test]
fn refused_calls_leave_the_union(rt: HostRuntime) -> Result<(), Fail> {
    let alloc = rt.alloc();
    let calls = vec![in alloc;
        set(alloc, "u", 7)?,
        set(alloc, "v", 9)?,
        at(alloc, "u", Verb::Get, None)?,
        set(alloc, "u", 70000)?,
        at(alloc, "v", Verb::Get, None)?,
    ]?;
    let (replies, bytes) = ran(alloc, 3, &calls)?;
    let [
        Reply::Done,
        Reply::Done,
        Reply::Refused(inactive),
        Reply::Refused(large),
        Reply::Text(v),
    ] = replies.as_slice()
    else {
        return Err(Fail::from("a call is answered otherwise"));
    };
    assert!(rt; *inactive == ErrorKind::InactiveMember);
    assert!(rt; *large == ErrorKind::TypeMismatch);
    assert!(rt; v.as_slice() == b"9".as_slice());
    assert!(rt; bytes.as_slice() == &[0, 0, 0, 0, 1, 0, 0, 0, 9, 0, 1, 0, 0, 0, 0, 0][..]);
    Ok(())
}

/// A number is written exclusive-or'ed with its default.
#[test]
fn numbers_are_set_beside_their_defaults(rt: HostRuntime) -> Result<(), Fail> {
    let alloc = rt.alloc();
    let calls = vec![in alloc;
        at(alloc, "n", Verb::Get, None)?,
        at(alloc, "zz", Verb::Get, None)?,
        set(alloc, "n", 0)?,
        at(alloc, "n", Verb::Get, None)?,
    ]?;
    let (replies, bytes) = ran(alloc, 4, &calls)?;
    let [
        Reply::Text(five),
        Reply::Refused(missing),
        Reply::Done,
        Reply::Text(zero),
    ] = replies.as_slice()
    else {
        return Err(Fail::from("a call is answered otherwise"));
    };
    assert!(rt; five.as_slice() == b"5".as_slice());
    assert!(rt; *missing == ErrorKind::FieldNotFound);
    assert!(rt; zero.as_slice() == b"0".as_slice());
    assert!(rt; bytes.as_slice() == &[0, 0, 0, 0, 1, 0, 0, 0, 5, 0, 0, 0, 0, 0, 0, 0][..]);
    Ok(())
}

/// L, whose list has one element, 7: of one byte and of two.
const BYTE: &[u8] = &[
    0, 0, 0, 0, 0, 0, 1, 0, 1, 0, 0, 0, 10, 0, 0, 0, 7, 0, 0, 0, 0, 0, 0, 0,
];

const SHORT: &[u8] = &[
    0, 0, 0, 0, 0, 0, 1, 0, 1, 0, 0, 0, 11, 0, 0, 0, 7, 0, 0, 0, 0, 0, 0, 0,
];

/// Sets the group of a struct to that of such an element.
fn set_from<A: BuilderArena>(
    builder: &mut Builder<'_, A>,
    set: &SchemaSet,
    words: &[u8],
) -> Result<(), Fail>
    requires { IsReady A.segments builder.old }
    ensures same { builder.new.memory.ghost_name ≡ builder.old.memory.ghost_name }
    ensures ready { IsReady A.segments builder.new }
{
    let segments = [words];
    let arena = ReaderArenaImpl::new(segments.as_slice(), 64);
    if let Reader::List(list) = root(&arena, set, 7)?.get_named("gs")? {
        if list.len() > 0 {
            if let Reader::Struct(element) = list.get(0)? {
                return Ok(builder.set_named("g", element.get_named("g")?)?);
            }
        }
    }
    Err("no element".into())
}

/// Does this with two elements, one after the other, at a new struct at the root.
fn set_twice<A: BuilderArena>(
    memory: &mut Memory<A>,
    set: &SchemaSet,
    words: [&[u8]; 2],
) -> Result<(), Fail> {
    let schema = schema_of(set, 5)?;
    let place = begun(memory, schema)?;
    let mut builder = builder_of(memory, place, schema);
    set_from(&mut builder, set, words[0])?;
    set_from(&mut builder, set, words[1])
}

/// A number that isn't wholly in the element is set to zero.
#[test]
fn groups_of_elements_of_numbers(rt: HostRuntime) -> Result<(), Fail> {
    let set = set_of(rt.alloc(), SCHEMAS)?;
    for (words, left) in [([BYTE, SHORT], 7), ([SHORT, BYTE], 0)] {
        let mut memory = Memory {
            arena: BuilderArenaImpl::new(rt.alloc(), HeapAllocator::new(rt.alloc())),
        };
        let done = set_twice(&mut memory, &set, words);
        let Memory { arena } = memory;
        let bytes = finish(rt.alloc(), arena);
        done?;
        assert!(rt; bytes?.as_slice() == &[0, 0, 0, 0, 1, 0, 0, 0, left, 0, 0, 0, 0, 0, 0, 0][..]);
    }
    Ok(())
}
