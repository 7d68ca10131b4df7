//! The arguments of the program.
ghost use Rattle.std.specs.Prelude.{◌≡◌, map, string_bytes};
ghost use Rattle.capnp_relay_program.specs.Arguments.{decimal_in, forms_named, arguments_of, arguments_in, is_help};

use capnp_relay_streams::options::Form;

/// The forms of the input and of the output.
#[derive(Clone, Copy, Debug, PartialEq, Eq)]
pub struct Forms {
    pub input: Form,
    pub output: Form,
    /// Whether messages are written as they were built, and not canonically.
    pub plain: bool,
}

/// The contents of a run's arguments, except for the names of its files.
#[derive(Clone, Copy, Debug, PartialEq, Eq)]
pub struct Arguments {
    /// The id of the root's node.
    pub root: u64,
    pub forms: Forms,
    /// Whether a fifth argument names a newer schema file.
    pub newer: bool,
    /// Whether a sixth argument names a renames file.
    pub renames: bool,
}

/// Returns the number that at least one decimal digit, and nothing else, spells, if 64 bits hold
/// it.
fn decimal(word: &str) -> Option<u64>
    ensures { result ≡ decimal_in word.now }
{
    if word.starts_with('+') {
        return None;
    }
    word.parse::<u64>().ok()
}

/// Returns the forms that an argument names.
fn forms_named(word: &str) -> Option<Forms>
    ensures { result ≡ forms_named word.now }
{
    let (input, output, plain) = match word {
        "framed" => (Form::Framed, Form::Framed, false),
        "packed" => (Form::Packed, Form::Packed, false),
        "framed-packed" => (Form::Framed, Form::Packed, false),
        "packed-framed" => (Form::Packed, Form::Framed, false),
        "framed+plain" => (Form::Framed, Form::Framed, true),
        "packed+plain" => (Form::Packed, Form::Packed, true),
        "framed-packed+plain" => (Form::Framed, Form::Packed, true),
        "packed-framed+plain" => (Form::Packed, Form::Framed, true),
        _ => return None,
    };
    Some(Forms {
        input,
        output,
        plain,
    })
}

/// Makes the arguments of a root and of forms, if these files are named.
fn arguments_of(root: &str, form: &str, newer: bool, renames: bool) -> Option<Arguments>
    ensures { result ≡ arguments_of root.now form.now newer renames }
{
    let root = decimal(root)?;
    let forms = forms_named(form)?;
    Some(Arguments {
        root,
        forms,
        newer,
        renames,
    })
}

impl Arguments {
    /// Reads the arguments, which are in this order:
    /// - a schema file and a calls file;
    /// - the root's id, only in decimal digits;
    /// - the forms, the input's and then the output's: `framed`, `packed`, `framed-packed` or
    ///   `packed-framed`, followed by `+plain` if messages are written as they were built;
    /// - a newer schema file, if any, and then a renames file, if any.
    ///
    /// It returns `None` if they are other arguments, or more or fewer.
    pub fn new(words: &[String]) -> Option<Arguments>
        ensures { result ≡ arguments_in (map string_bytes words.now) }
    {
        match words {
            [_schema, _calls, root, form] => arguments_of(
                root.as_str(),
                form.as_str(),
                false,
                false,
            ),
            [_schema, _calls, root, form, _newer] => {
                arguments_of(root.as_str(), form.as_str(), true, false)
            }
            [_schema, _calls, root, form, _newer, _renames] => {
                arguments_of(root.as_str(), form.as_str(), true, true)
            }
            _ => None,
        }
    }
}

/// Returns whether the usage is requested.
pub fn asks_for_help(words: &[String]) -> bool
    ensures { result ≡ is_help (map string_bytes words.now) }
{
    let [word] = words else {
        return false;
    };
    word.as_str() == "--help"
}
