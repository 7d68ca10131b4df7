//! Calls at records, versions of schemas, relays and shown messages.
use crate::fixtures::{begin, schema_of, set_of};
use capnp_layout::laws::arenas_are_deep;
use capnp_layout::{ErrorKind, StructBuilder, has_words};
use capnp_message::message::{Builder, HeapAllocator, with_message};
use capnp_relay::{
    Admission, BetweenFault, Call, CallValue, Counts, Form, ReaderOptions, RelayOptions, Reply,
    ShowFault, Step, Verb, admitted, compatible, relay_between, run, show,
};
use capnp_schema::dynamic_struct::has_sizes;
use capnp_schema::laws::struct_is_node;
use capnp_schema::schema::StructSchema;
use capnp_schema::{SchemaSet, dynamic_struct};
use std::alloc::Global;
use std::test::Fail;

/// The limits of each message: 1,000 words, and 64 levels of pointers.
const LIMITS: ReaderOptions = ReaderOptions {
    traversal_limit_in_words: Some(1000),
    nesting_limit: 64,
};

/// A struct of a number.
const OLDER: &str = r#"[{"id": 1, "name": "P", "data": 1, "pointers": 0, "fields": [
    {"name": "a", "type": "UInt16", "offset": 0}]}]"#;

/// A struct with one number more.
const NEWER: &str = r#"[{"id": 1, "name": "P", "data": 2, "pointers": 0, "fields": [
    {"name": "a", "type": "UInt16", "offset": 0},
    {"name": "b", "type": "UInt64", "offset": 1}]}]"#;

/// A struct whose number has another default, which is another type's.
const OTHER: &str = r#"[{"id": 1, "name": "P", "data": 1, "pointers": 0, "fields": [
    {"name": "a", "type": "UInt16", "offset": 0, "default": 1}]}]"#;

/// A framed message of the newer schema: `a` is 1 and `b` is 99.
const MESSAGE: [u8; 32] = [
    0, 0, 0, 0, 3, 0, 0, 0, 0, 0, 0, 0, 2, 0, 0, 0, 1, 0, 0, 0, 0, 0, 0, 0, 99, 0, 0, 0, 0, 0, 0, 0,
];

/// A framed message of the newer schema whose `a` is 7.
const SEVEN: [u8; 32] = [
    0, 0, 0, 0, 3, 0, 0, 0, 0, 0, 0, 0, 2, 0, 0, 0, 7, 0, 0, 0, 0, 0, 0, 0, 99, 0, 0, 0, 0, 0, 0, 0,
];

/// Makes a call at the field of a name.
fn call(
    alloc: Global,
    name: &str,
    verb: Verb,
    value: Option<CallValue>,
) -> std::result::Result<Call, Fail> {
    let step = Step::Name(String::from_str(alloc, name)?);
    Ok(Call::new(alloc, vec![in alloc; step]?, verb, value)?)
}

/// Makes the call that sets a field to 7.
fn seven(alloc: Global, name: &str) -> std::result::Result<Call, Fail> {
    call(alloc, name, Verb::Set, Some(CallValue::Number(7)))
}

#[test]
fn newer_schemas_are_compatible(rt: HostRuntime) -> std::result::Result<(), Fail> {
    let alloc = rt.alloc();
    let (older, newer) = (set_of(alloc, OLDER)?, set_of(alloc, NEWER)?);
    let other = set_of(alloc, OTHER)?;
    assert!(rt; compatible(alloc, schema_of(&older, 1)?, schema_of(&newer, 1)?)?);
    assert!(rt; !compatible(alloc, schema_of(&newer, 1)?, schema_of(&older, 1)?)?);
    assert!(rt; !compatible(alloc, schema_of(&older, 1)?, schema_of(&other, 1)?)?);
    Ok(())
}

#[test]
fn calls_are_admitted(rt: HostRuntime) -> std::result::Result<(), Fail> {
    let alloc = rt.alloc();
    let (older, newer) = (set_of(alloc, OLDER)?, set_of(alloc, NEWER)?);
    let one = vec![in alloc; seven(alloc, "a")?]?;
    let of_both = admitted(alloc, &one, schema_of(&older, 1)?, schema_of(&newer, 1)?)?;
    assert!(rt; of_both == Admission::Admitted);
    let calls = vec![in alloc; seven(alloc, "a")?, seven(alloc, "b")?]?;
    let all = admitted(alloc, &calls, schema_of(&older, 1)?, schema_of(&newer, 1)?)?;
    assert!(rt; all == Admission::Refused(2));
    Ok(())
}

/// Returns the replies of calls at a new struct, under a schema that is not a group's.
fn replies(
    alloc: Global,
    message: &mut Builder<HeapAllocator>,
    set: &SchemaSet,
    calls: &[Call],
) -> std::result::Result<Vec<Reply>, Fail> {
    let raw = set.struct_by_id(1).ok_or("the struct")?;
    struct_is_node();
    arenas_are_deep::<HeapAllocator>();
    let schema = StructSchema::new(set, raw);
    let place = begin(message, schema)?;
    let memory = &mut message.memory;
    let words = place.data_words as usize + place.pointers as usize;
    let there = has_words(&memory.arena, place.start, words);
    let fields = StructBuilder { memory, place };
    if !there || !has_sizes(&fields, schema) {
        return Err(Fail::from("the struct is missing"));
    }
    let mut record = dynamic_struct::Builder::new(fields, schema);
    Ok(run(alloc, &mut record, calls)?)
}

#[test]
fn calls_are_answered(rt: HostRuntime) -> std::result::Result<(), Fail> {
    let alloc = rt.alloc();
    let set = set_of(alloc, OLDER)?;
    let calls = vec![in alloc;
        seven(alloc, "a")?,
        call(alloc, "b", Verb::Get, None)?,
        call(alloc, "a", Verb::Get, None)?,
    ]?;
    let told = with_message(alloc, |message| replies(alloc, message, &set, &calls))?;
    let [Reply::Done, Reply::Refused(kind), Reply::Text(text)] = told.as_slice() else {
        return Err(Fail::from("a call is answered otherwise"));
    };
    assert!(rt; *kind == ErrorKind::FieldNotFound && text.as_slice() == b"7".as_slice());
    Ok(())
}

/// The end of a relay of a source, with its output and its log.
#[derive(Drop)]
struct Ending {
    end: std::result::Result<Counts, BetweenFault>,
    out: Vec<u8>,
    log: Vec<u8>,
}

/// Runs a relay between the versions that sets a field to 7.
fn relayed_between(
    alloc: Global,
    older: &SchemaSet,
    newer: &SchemaSet,
    name: &str,
) -> std::result::Result<Ending, Fail> {
    let root = older.struct_by_id(1).ok_or("the older struct")?;
    let newer_root = newer.struct_by_id(1).ok_or("the newer struct")?;
    struct_is_node();
    let calls = vec![in alloc; seven(alloc, name)?]?;
    let options = RelayOptions::new(Form::Framed, Form::Framed, LIMITS)?;
    let mut region = vec![in alloc; 0u8; options.region_len()]?;
    let (mut out, mut log) = (Vec::new(alloc), Vec::new(alloc));
    let end = relay_between(
        alloc,
        &mut MESSAGE.as_slice(),
        &mut out,
        &mut log,
        StructSchema::new(older, root),
        StructSchema::new(newer, newer_root),
        calls.as_slice(),
        options,
        &mut region,
    );
    Ok(Ending { end, out, log })
}

#[test]
fn messages_are_relayed_between_versions(rt: HostRuntime) -> std::result::Result<(), Fail> {
    let alloc = rt.alloc();
    let (older, newer) = (set_of(alloc, OLDER)?, set_of(alloc, NEWER)?);
    let whole = relayed_between(alloc, &older, &newer, "a")?;
    assert!(rt;
        whole.end
            == Ok(Counts {
                written: 1,
                refused: 0
            })
    );
    assert!(rt; whole.out.as_slice() == SEVEN.as_slice() && !whole.log.is_empty());
    let later = relayed_between(alloc, &older, &newer, "b")?;
    assert!(rt; later.end == Err(BetweenFault::NotAdmitted(1)));
    assert!(rt; later.out.is_empty() && later.log.is_empty());
    let other = set_of(alloc, OTHER)?;
    let apart = relayed_between(alloc, &older, &other, "a")?;
    assert!(rt; apart.end == Err(BetweenFault::NotCompatible));
    Ok(())
}

#[test]
fn messages_are_shown(rt: HostRuntime) -> std::result::Result<(), Fail> {
    let alloc = rt.alloc();
    let set = set_of(alloc, NEWER)?;
    let raw = set.struct_by_id(1).ok_or("the struct")?;
    let schema = StructSchema::new(&set, raw);
    let text = show(alloc, &MESSAGE, schema, LIMITS)?;
    assert!(rt; text.as_slice() == b"(a = 1, b = 99)".as_slice());
    let cut = show(alloc, &MESSAGE[..31], schema, LIMITS);
    let fault = ShowFault::Framing(ErrorKind::FailedToFillTheWholeBuffer);
    assert!(rt; cut.map(drop) == Err(fault));
    Ok(())
}
