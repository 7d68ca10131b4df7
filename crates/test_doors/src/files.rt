//! Files of calls and of renamings, calls, and options.
use capnp_relay::{
    Call, CallFault, CallValue, FileFault, Form, OptionsFault, ReaderOptions, RelayOptions,
    Renaming, RenamingFault, Renamings, Step, Verb, calls_file, renames_file,
};
use std::alloc::{AllocError, Global};
use std::test::Fail;

#[test]
fn calls_files_are_read(rt: HostRuntime) -> Result<(), Fail> {
    let text = br#"{"calls": [{"path": ["items", 1], "verb": "initn", "size": 3}], "words": 9}"#;
    let file = calls_file(rt.alloc(), text).ok().ok_or("a calls file")?;
    assert!(rt; file.words == 9 && file.nesting == 64);
    let [(path, verb, value)] = file.calls.as_slice() else {
        return Err(Fail::from("one call"));
    };
    assert!(rt; matches!(path.as_slice(), [Step::Name(_), Step::Index(1)]));
    assert!(rt; *verb == Verb::Initn(3) && value.is_none());
    Ok(())
}

#[test]
fn files_of_another_form_are_refused(rt: HostRuntime) -> Result<(), Fail> {
    let calls = calls_file(rt.alloc(), br#"{"words": 9}"#);
    assert!(rt; calls.map(drop) == Err(FileFault::Form));
    let renames = renames_file(rt.alloc(), b"{}");
    assert!(rt; renames.map(drop) == Err(FileFault::Form));
    Ok(())
}

/// Makes a renaming of the field of a name in node 1.
fn renaming(alloc: Global, older: &str, newer: &str) -> Result<Renaming, AllocError> {
    Ok(Renaming {
        node: 1,
        older: String::from_str(alloc, older)?,
        newer: String::from_str(alloc, newer)?,
    })
}

#[test]
fn no_name_is_renamed_twice(rt: HostRuntime) -> Result<(), Fail> {
    let alloc = rt.alloc();
    let apart = vec![in alloc; renaming(alloc, "a", "b")?, renaming(alloc, "c", "d")?]?;
    let apart = Renamings::new(apart)?;
    assert!(rt; apart.list().len() == 2 && Renamings::none(alloc).list().is_empty());
    let twice = vec![in alloc; renaming(alloc, "a", "b")?, renaming(alloc, "c", "b")?]?;
    assert!(rt; Renamings::new(twice).map(drop) == Err(RenamingFault::Twice));
    Ok(())
}

/// Makes the path of one name.
fn path(alloc: Global, name: &str) -> Result<Vec<Step>, Fail> {
    let step = Step::Name(String::from_str(alloc, name)?);
    Ok(vec![in alloc; step]?)
}

#[test]
fn calls_that_cannot_be_are_refused(rt: HostRuntime) -> Result<(), Fail> {
    let alloc = rt.alloc();
    let call = Call::new(alloc, Vec::new(alloc), Verb::Get, None);
    assert!(rt; call.map(drop) == Err(CallFault::EmptyPath));
    let call = Call::new(alloc, path(alloc, "a")?, Verb::Set, None);
    assert!(rt; call.map(drop) == Err(CallFault::ValueAndVerb));
    let call = Call::new(alloc, path(alloc, "a")?, Verb::Initn(1 << 29), None);
    assert!(rt; call.map(drop) == Err(CallFault::Size));
    let cut = CallValue::Message(Vec::from_slice(alloc, &[0, 0, 0, 0])?);
    let call = Call::new(alloc, path(alloc, "a")?, Verb::Set, Some(cut));
    assert!(rt; call.map(drop) == Err(CallFault::Message));
    let call = Call::new(alloc, path(alloc, "a")?, Verb::Clear, None)?;
    assert!(rt; call.verb() == Verb::Clear && call.path().len() == 1);
    Ok(())
}

/// Makes limits of n words and levels.
fn limits(words: Option<usize>, levels: i32) -> ReaderOptions {
    ReaderOptions {
        traversal_limit_in_words: words,
        nesting_limit: levels,
    }
}

#[test]
fn options_that_cannot_be_are_refused(rt: HostRuntime) -> Result<(), Fail> {
    let (framed, packed) = (Form::Framed, Form::Packed);
    let faults = [
        (limits(None, -1), OptionsFault::NoWordLimit),
        (
            limits(Some(0x1fff_ffff), -1),
            OptionsFault::WordLimitTooLarge,
        ),
        (limits(Some(0x1fff_fffe), -1), OptionsFault::NegativeNesting),
    ];
    for (limits, fault) in faults {
        assert!(rt; RelayOptions::new(framed, packed, limits).map(drop) == Err(fault));
    }
    let options = RelayOptions::new(framed, packed, limits(Some(0x1fff_fffe), 0))?;
    assert!(rt; options.region_len() == 0xffff_fff8 && options.plain().region_len() == 0xffff_fff8);
    Ok(())
}
