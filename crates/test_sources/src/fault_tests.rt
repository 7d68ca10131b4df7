//! The texts for sources that don't compile.

use crate::fake::{Named, compiled, files_of, problems};
use std::alloc::AllocError;

/// Files with mistakes.
static FILES: [Named; 7] = [
    (
        "two.capnp",
        "@0xbf5147cbbecf4601;\nstruct A {\n\tn @0 UInt8;\n}\nstruct B { b @0 :Text }\n",
    ),
    (
        "wide.capnp",
        "@0xbf5147cbbecf4607;\nconst c :Text = \"\u{e9}\u{e9}\" $ ;\n",
    ),
    (
        "gone.capnp",
        "@0xbf5147cbbecf4602;\nusing X = import \"no/x.capnp\";\nusing Y = import \"/y.capnp\";\n  const z :Data = embed \"secret\";\n",
    ),
    (
        "outer.capnp",
        "@0xbf5147cbbecf4603;\nusing X = import \"two.capnp\";\nstruct C { a @0 :X.A; }\n",
    ),
    ("end.capnp", "@0xbf5147cbbecf4604;\nstruct D {"),
    ("wild.capnp", "@0xbf5147cbbecf4605;\nstruct \u{1b}[31m {}\n"),
    (
        "name.capnp",
        "@0xbf5147cbbecf4606;\nstruct Customer {}\nstruct Order {\n  of @0 :Custmer;\n  to @1 :Customer;\n  by @2 :Nobody;\n}\n",
    ),
];

#[test]
fn mistakes_are_shown_with_their_lines(rt: HostRuntime) -> Result<(), AllocError> {
    let alloc = rt.alloc();
    let mut files = files_of(alloc, &FILES);
    let outcome = compiled(alloc, &mut files, "two.capnp");
    let wanted =
        "two.capnp:3:7: a colon and a type are missing here\n    \tn @0 UInt8;\n    \t     ^\ntwo.capnp:5:23: a semicolon is missing here\n    struct B { b @0 :Text }\n                          ^";
    assert!(rt; problems(alloc, outcome)?.as_str() == wanted);
    let outcome = compiled(alloc, &mut files, "wide.capnp");
    let wanted =
        "wide.capnp:2:26: a type or a value is missing here\n    const c :Text = \"\u{e9}\u{e9}\" $ ;\n                           ^";
    assert!(rt; problems(alloc, outcome)?.as_str() == wanted);
    Ok(())
}

#[test]
fn mistakes_of_imported_files_are_shown(rt: HostRuntime) -> Result<(), AllocError> {
    let alloc = rt.alloc();
    let mut files = files_of(alloc, &FILES);
    let outcome = compiled(alloc, &mut files, "outer.capnp");
    assert!(rt; problems(alloc, outcome)?.as_str().starts_with("two.capnp:"));
    Ok(())
}

#[test]
fn each_file_that_is_missing_is_named(rt: HostRuntime) -> Result<(), AllocError> {
    let alloc = rt.alloc();
    let mut files = files_of(alloc, &FILES);
    let outcome = compiled(alloc, &mut files, "gone.capnp");
    let wanted =
        "gone.capnp:2:11: there is no file no/x.capnp (paths that begin with a slash are looked up in the folders of -I)\n    using X = import \"no/x.capnp\";\n              ^^^^^^^^^^^^^^^^^^^\ngone.capnp:3:11: no import folder has \"/y.capnp\" (name its folder by -I)\n    using Y = import \"/y.capnp\";\n              ^^^^^^^^^^^^^^^^^\ngone.capnp:4:19: secret can't be read: permission denied\n      const z :Data = embed \"secret\";\n                      ^^^^^^^^^^^^^^";
    assert!(rt; problems(alloc, outcome)?.as_str() == wanted);
    Ok(())
}

#[test]
fn a_mistake_at_the_end_has_a_caret(rt: HostRuntime) -> Result<(), AllocError> {
    let alloc = rt.alloc();
    let mut files = files_of(alloc, &FILES);
    let outcome = compiled(alloc, &mut files, "end.capnp");
    let wanted =
        "end.capnp:2:11: the source ends in a block (close it by `}`)\n    struct D {\n              ^";
    assert!(rt; problems(alloc, outcome)?.as_str() == wanted);
    Ok(())
}

#[test]
fn control_characters_are_not_shown(rt: HostRuntime) -> Result<(), AllocError> {
    let alloc = rt.alloc();
    let mut files = files_of(alloc, &FILES);
    let outcome = compiled(alloc, &mut files, "wild.capnp");
    let said = problems(alloc, outcome)?;
    assert!(rt; !said.as_str().contains('\u{1b}'));
    assert!(rt; said.as_str().contains("struct ?[31m {}"));
    Ok(())
}

#[test]
fn names_that_are_not_declared_are_shown(rt: HostRuntime) -> Result<(), AllocError> {
    let alloc = rt.alloc();
    let mut files = files_of(alloc, &FILES);
    let outcome = compiled(alloc, &mut files, "name.capnp");
    let said = problems(alloc, outcome)?;
    assert!(rt; said.as_str().starts_with("name.capnp:4:10: "));
    assert!(rt;
        said.as_str().contains(
            "\"Customer\"?)\n      of @0 :Custmer;\n             ^^^^^^^\nname.capnp:6:10: "
        )
    );
    Ok(())
}

#[test]
fn a_file_that_is_asked_for_and_missing_is_named(rt: HostRuntime) -> Result<(), AllocError> {
    let alloc = rt.alloc();
    let mut files = files_of(alloc, &FILES);
    let outcome = compiled(alloc, &mut files, "./nowhere.capnp");
    assert!(rt; problems(alloc, outcome)?.as_str() == "missing ./nowhere.capnp");
    let outcome = compiled(alloc, &mut files, "d/secret");
    assert!(rt; problems(alloc, outcome)?.as_str() == "unreadable d/secret: permission denied");
    Ok(())
}
