//! Runs of the relay, worked out by hand.

use crate::messages::Message;

/// The input of a run of the relay: the word of its forms, the schema, a newer one if there is one,
/// the calls, and messages.
#[derive(Clone, Copy)]
pub struct Run<'a> {
    pub form: &'a str,
    pub schema: &'a str,
    pub newer: Option<&'a str>,
    pub calls: &'a str,
    pub messages: &'a [Message<'a>],
}

/// A struct of a number and a text, and the same struct with a second number.
const OLDER: &str = r#"[{"id": 1, "name": "P", "data": 1, "pointers": 1, "fields": [
    {"name": "a", "type": "UInt16", "offset": 0}, {"name": "t", "type": "Text", "offset": 0}]}]"#;

const NEWER: &str = r#"[{"id": 1, "name": "P", "data": 2, "pointers": 1, "fields": [
    {"name": "a", "type": "UInt16", "offset": 0}, {"name": "t", "type": "Text", "offset": 0},
    {"name": "b", "type": "UInt64", "offset": 1}]}]"#;

const NO_CALLS: &str = r#"{"calls": [], "words": 1000, "nesting": 64}"#;

const SET_NUMBER: &str = r#"{"calls": [{"path": ["a"], "verb": "set", "value": {"number": 7}}],
    "words": 1000, "nesting": 64}"#;

const SET_TEXT: &str = r#"{"calls": [{"path": ["t"], "verb": "set", "value": {"text": "hi"}},
    {"path": ["t"], "verb": "get"}], "words": 1000, "nesting": 64}"#;

/// A null root, which is written as the empty struct; as framed bytes, and as packed ones.
const NULL: &[u8] = &[0, 0, 0, 0, 1, 0, 0, 0, 0, 0, 0, 0, 0, 0, 0, 0];

const EMPTY: &[u8] = &[0, 0, 0, 0, 1, 0, 0, 0, 0xfc, 0xff, 0xff, 0xff, 0, 0, 0, 0];

const NULL_PACKED: &[u8] = &[0x10, 1, 0, 0];

/// A capability, which isn't a value.
const CAPABILITY: &[u8] = &[0, 0, 0, 0, 1, 0, 0, 0, 3, 0, 0, 0, 0, 0, 0, 0];

/// A struct of the number 7, in one segment and in two.
const SEVEN: &[u8] = &[
    0, 0, 0, 0, 2, 0, 0, 0, 0, 0, 0, 0, 1, 0, 0, 0, 7, 0, 0, 0, 0, 0, 0, 0,
];

const SEVEN_PACKED: &[u8] = &[0x10, 2, 0x10, 1, 1, 7];

const IN_TWO: &[u8] = &[
    1, 0, 0, 0, 1, 0, 0, 0, 2, 0, 0, 0, 0, 0, 0, 0, 2, 0, 0, 0, 1, 0, 0, 0, 0, 0, 0, 0, 1, 0, 0, 0,
    7, 0, 0, 0, 0, 0, 0, 0,
];

const IN_TWO_PACKED: &[u8] = &[0x11, 1, 1, 1, 2, 0x11, 2, 1, 0x10, 1, 1, 7];

/// A struct of the number 7 and a null text, as it is built.
const SEVEN_AND_NULL: &[u8] = &[
    0, 0, 0, 0, 3, 0, 0, 0, 0, 0, 0, 0, 1, 0, 1, 0, 7, 0, 0, 0, 0, 0, 0, 0, 0, 0, 0, 0, 0, 0, 0, 0,
];

/// A struct of the text `hi`.
const TEXT: &[u8] = &[
    0, 0, 0, 0, 3, 0, 0, 0, 0, 0, 0, 0, 0, 0, 1, 0, 1, 0, 0, 0, 0x1a, 0, 0, 0, 0x68, 0x69, 0, 0, 0,
    0, 0, 0,
];

/// A struct of the newer version, of 1 and 99, and with 7 in place of 1.
const ONE_MORE: &[u8] = &[
    0, 0, 0, 0, 3, 0, 0, 0, 0, 0, 0, 0, 2, 0, 0, 0, 1, 0, 0, 0, 0, 0, 0, 0, 0x63, 0, 0, 0, 0, 0, 0,
    0,
];

const SEVEN_MORE: &[u8] = &[
    0, 0, 0, 0, 3, 0, 0, 0, 0, 0, 0, 0, 2, 0, 0, 0, 7, 0, 0, 0, 0, 0, 0, 0, 0x63, 0, 0, 0, 0, 0, 0,
    0,
];

const ONE_MORE_PACKED: &[u8] = &[0x10, 3, 0x10, 2, 1, 1, 1, 0x63];

const SEVEN_MORE_PACKED: &[u8] = &[0x10, 3, 0x10, 2, 1, 7, 1, 0x63];

/// A message that is skipped, and the messages of runs.
const SKIPPED: Message<'static> = Message {
    given: CAPABILITY,
    written: &[],
    line: "refused: value",
};

const KEPT: Message<'static> = Message {
    given: NULL,
    written: EMPTY,
    line: "written",
};

const SET: &[Message<'static>] = &[Message {
    given: NULL,
    written: SEVEN,
    line: "written; done",
}];

const SET_PLAIN: &[Message<'static>] = &[Message {
    given: NULL,
    written: SEVEN_AND_NULL,
    line: "written; done",
}];

const SET_PACKED: &[Message<'static>] = &[Message {
    given: NULL_PACKED,
    written: SEVEN_PACKED,
    line: "written; done",
}];

const SET_THEN_PACKED: &[Message<'static>] = &[Message {
    given: NULL,
    written: SEVEN_PACKED,
    line: "written; done",
}];

const TEXT_SET: &[Message<'static>] = &[Message {
    given: NULL,
    written: TEXT,
    line: "written; done; \"hi\"",
}];

const SEGMENTS: &[Message<'static>] = &[
    Message {
        given: IN_TWO,
        written: SEVEN,
        line: "written",
    },
    KEPT,
];

const SEGMENTS_PACKED: &[Message<'static>] = &[
    Message {
        given: IN_TWO_PACKED,
        written: SEVEN,
        line: "written",
    },
    Message {
        given: NULL_PACKED,
        written: EMPTY,
        line: "written",
    },
];

const MORE: &[Message<'static>] = &[
    Message {
        given: ONE_MORE,
        written: SEVEN_MORE,
        line: "written; done",
    },
    SKIPPED,
    Message {
        given: NULL,
        written: SEVEN,
        line: "written; done",
    },
];

const MORE_PACKED: &[Message<'static>] = &[
    Message {
        given: ONE_MORE_PACKED,
        written: SEVEN_MORE_PACKED,
        line: "written; done",
    },
    Message {
        given: NULL_PACKED,
        written: SEVEN_PACKED,
        line: "written; done",
    },
];

/// Makes a run under the older schema only.
fn older(
    form: &'static str,
    calls: &'static str,
    messages: &'static [Message<'static>],
) -> Run<'static> {
    Run {
        form,
        schema: OLDER,
        newer: None,
        calls,
        messages,
    }
}

/// Makes a run between both schemas.
fn between(form: &'static str, messages: &'static [Message<'static>]) -> Run<'static> {
    Run {
        form,
        schema: OLDER,
        newer: Some(NEWER),
        calls: SET_NUMBER,
        messages,
    }
}

/// Returns the named run, if there is one.
pub fn run_of(name: &str) -> Option<Run<'static>> {
    match name {
        "relay_set" => Some(older("framed", SET_NUMBER, SET)),
        "relay_twice" => Some(older("framed", NO_CALLS, &[KEPT, KEPT])),
        "relay_skipped" => Some(older("framed", NO_CALLS, &[SKIPPED, KEPT])),
        "relay_skipped_twice" => {
            Some(older("framed", NO_CALLS, &[SKIPPED, KEPT, SKIPPED, KEPT]))
        }
        "relay_text" => Some(older("framed", SET_TEXT, TEXT_SET)),
        "relay_segments" => Some(older("framed", NO_CALLS, SEGMENTS)),
        "relay_plain" => Some(older("framed+plain", SET_NUMBER, SET_PLAIN)),
        "relay_packed" => Some(older("packed", SET_NUMBER, SET_PACKED)),
        "relay_to_packed" => Some(older("framed-packed", SET_NUMBER, SET_THEN_PACKED)),
        "relay_from_packed" => Some(older("packed-framed", NO_CALLS, SEGMENTS_PACKED)),
        "between" => Some(between("framed", MORE)),
        "between_packed" => Some(between("packed", MORE_PACKED)),
        _ => None,
    }
}
