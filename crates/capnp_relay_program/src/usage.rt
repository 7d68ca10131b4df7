//! The program's usage.

/// The command line of the program, with an example.
pub const USAGE: &str = "capnp_relay_cli SCHEMA CALLS ROOT FORM [NEWER [RENAMES]]

Reads Cap'n Proto messages from standard input, makes the calls on the root of each, writes each edited message in canonical
or plain form to standard output, and a line for each on standard error. A fault is told in the last line there, and the status
is 1.

SCHEMA  a JSON file of the nodes
CALLS   a JSON file of the calls
ROOT    the id of the root's node, in decimal digits
FORM    framed, packed, framed-packed or packed-framed: the form of the input, then that of the output. With +plain behind it,
        as in framed+plain, messages are written in the plain form: as they were built, in 1 to 511 segments, not trimmed, and
        with zeros in place of what the calls overwrote. Else they are canonical
NEWER   a JSON file of the nodes of a newer schema: nothing is relayed unless it is compatible with SCHEMA and takes all calls
RENAMES a JSON file of the fields that NEWER has by other names: [{\"node\":1,\"from\":\"a\",\"to\":\"c\"}] says that field a of node 1
        of SCHEMA is c there. An entry whose node or field isn't reached from ROOT has no effect

Example, where out/capnp_relay_cli is the program: a message whose root is null gets a = 7.

  printf '%s' '[{\"id\":1,\"name\":\"P\",\"data\":1,\"pointers\":0,\"fields\":[{\"name\":\"a\",\"type\":\"UInt16\",\"offset\":0}]}]' > p.json
  printf '%s' '{\"calls\":[{\"path\":[\"a\"],\"verb\":\"set\",\"value\":{\"number\":7}}]}' > set_a.json
  printf '\\0\\0\\0\\0\\1\\0\\0\\0\\0\\0\\0\\0\\0\\0\\0\\0' | out/capnp_relay_cli p.json set_a.json 1 framed | od -An -tx1
";
