//! Files that imports find even if no import folder has them.

/// Returns the source of a file that comes with the compiler: what it declares is fixed by its ids.
pub fn builtin(path: &str) -> Option<&'static str> {
    match path {
        "/capnp/c++.capnp" => Some(CPP),
        "/capnp/stream.capnp" => Some(STREAM),
        _ => None,
    }
}

/// The annotations of schemas for C++.
const CPP: &str = "@0xbdf87d7bb8304e81;
$namespace(\"capnp::annotations\");
annotation namespace(file) :Text;
annotation name(field, enumerant, struct, enum, interface, method, param, group, union) :Text;
";

/// The result of methods with flow control.
const STREAM: &str = "@0x86c366a91393f3f8;
$import \"/capnp/c++.capnp\".namespace(\"capnp\");
struct StreamResult @0x995f9a3377c0b16e {}
";
