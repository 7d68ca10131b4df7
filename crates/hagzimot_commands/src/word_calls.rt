//! Calls that are given as words, such as `customer.name=Ada`.
ghost use Rattle.std.specs.Prelude.{◌≡◌, ◌++◌, true, IfOk, OnOk, List, [], string_bytes};
ghost use Rattle.std.specs.List.{flat_map};
ghost use Rattle.capnp_calls.specs.CallViews.{step_view};
ghost use Rattle.capnp_relay_requests.specs.declared.request.FloatField.{FloatField};
ghost use Rattle.hagzimot_commands.specs.Words.{step_text, path_told, enumerant_numbered, SpellsPath, SpellsEnumerant, SpellsValue, SpellsValueThere, MayBeBits, MakeCall};

use crate::float_fields::is_float_at;
use crate::paths::{Landing, Misstep, landing_from};
use crate::strict::sort_of;
use capnp_calls::{CallValue, Step, Verb};
use capnp_records::node::{BaseType, NodeRecord};
use capnp_relay_requests::request::FloatField;
use hagzimot_floats::float_bits::{float32_bits, float64_bits};
use hagzimot_schemas::nodes::{enumerants_of, node_of_id};
use std::alloc::{AllocError, Global};
use std::fmt;
use std::fmt::{Display, Formatter, Write};

/// The arguments of `Call::new`.
pub type CallParts = (Vec<Step>, Verb, Option<CallValue>);

/// The kind of call that words make.
#[derive(Clone, Copy, Debug, PartialEq, Eq)]
pub enum WordVerb {
    Get,
    Set,
    Init,
    Initn,
    Clear,
}

/// The reason for which words don't make a call.
#[derive(Debug, Drop)]
pub enum WordTrouble {
    /// The path isn't one: names with points between them, each with indices in brackets after it
    /// or not.
    Path,
    /// The path leads nowhere.
    Step(Misstep),
    /// There is no `=` with a value after it.
    NoValue,
    /// The value isn't one of the type of the target.
    Value(&'static str),
    /// Values of the target can't be given as words.
    NotByWords(&'static str),
    /// The enum has no such enumerant.
    NoEnumerant,
    /// An allocation was refused.
    Memory,
}

impl From<AllocError> for WordTrouble {
    fn from(_e: AllocError) -> WordTrouble {
        WordTrouble::Memory
    }
}

impl From<Misstep> for WordTrouble {
    fn from(e: Misstep) -> WordTrouble {
        WordTrouble::Step(e)
    }
}

impl Display for WordTrouble {
    fn fmt<W: Write>(&self, f: &mut Formatter<W>) -> fmt::Result {
        match self {
            WordTrouble::Path => write!(f, "this is not a path (write it as lines[0].count)"),
            WordTrouble::Step(misstep) => write!(f, "{misstep}"),
            WordTrouble::NoValue => write!(f, "a value is missing (write path=value)"),
            WordTrouble::Value(there) => write!(f, "this is not a value of {there}"),
            WordTrouble::NotByWords(there) => write!(
                f,
                "an option can't give the value of {there} (write the call in a calls file)"
            ),
            WordTrouble::NoEnumerant => write!(
                f,
                "the enum has no enumerant of this name or number"
            ),
            WordTrouble::Memory => write!(f, "there is no memory for it"),
        }
    }
}

/// Adds the indices in brackets, as `[0][1]`.
fn push_indices(path: &mut Vec<Step>, text: &str) -> Result<(), WordTrouble> {
    for part in text.split('[').skip(1) {
        let Some(digits) = part.strip_suffix(']') else {
            return Err(WordTrouble::Path);
        };
        match digits.parse::<u32>() {
            Ok(index) => path
                .push(Step::Index(index))
                .map_err(|_| WordTrouble::Memory)?,
            Err(_) => return Err(WordTrouble::Path),
        }
    }
    Ok(())
}

/// Adds the text of a step: a name after a point, an index in brackets.
fn push_step(alloc: Global, text: &mut String, step: &Step) -> Result<(), AllocError>
    ensures { OnOk result
        (string_bytes text.new ≡ string_bytes text.old ++ step_text (step_view step.now)) }
{
    match step {
        Step::Name(name) => {
            text.push_str(".")?;
            text.push_str(name.as_str())
        }
        Step::Index(index) => {
            let told = format!(in alloc; "[{index}]")?;
            text.push_str(told.as_str())
        }
    }
}

/// Adds the text of each step.
fn push_steps(alloc: Global, text: &mut String, path: &[Step]) -> Result<(), AllocError>
    ensures { OnOk result (string_bytes text.new
        ≡ string_bytes text.old ++ flat_map (λ s. step_text (step_view s)) path.now) }
{
    for step in path {
        push_step(alloc, text, step)?;
    }
    Ok(())
}

/// Returns the text of a path, such as `lines[0].count`. Returns an error if an allocation is
/// refused.
pub fn path_text(alloc: Global, path: &[Step]) -> Result<String, AllocError>
    ensures { IfOk result (λ text. string_bytes text ≡ path_told path.now) }
{
    let mut text = String::new(alloc);
    match path {
        [Step::Name(name), others @ ..] => {
            text.push_str(name.as_str())?;
            push_steps(alloc, &mut text, others)?;
        }
        _ => push_steps(alloc, &mut text, path)?,
    }
    Ok(text)
}

/// Tests whether a text spells a path: it is the only text of these steps. Returns an error if an
/// allocation was refused.
fn spells(alloc: Global, text: &str, path: &[Step]) -> Result<bool, AllocError>
    ensures { IfOk result (λ is. is ≡ true → SpellsPath text.now path.now) }
{
    let mut given = String::new(alloc);
    given.push_str(".")?;
    given.push_str(text)?;
    let mut told = String::new(alloc);
    push_steps(alloc, &mut told, path)?;
    Ok(given.as_bytes() == told.as_bytes())
}

/// Returns the steps of a path, such as `lines[0].count`. `Path`: the text isn't a path, or one of
/// its numbers has a sign or a leading zero. `Memory`: an allocation was refused.
pub fn path_of(alloc: Global, text: &str) -> Result<Vec<Step>, WordTrouble>
    ensures { IfOk result (λ path. SpellsPath text.now path.items) }
{
    let path = steps_in(alloc, text)?;
    if spells(alloc, text, &path)? {
        return Ok(path);
    }
    Err(WordTrouble::Path)
}

/// Returns the steps of a path, whose numbers may have a sign or a leading zero.
fn steps_in(alloc: Global, text: &str) -> Result<Vec<Step>, WordTrouble> {
    let mut path = Vec::new(alloc);
    for part in text.split('.') {
        let (name, indices) = match part.find('[') {
            Some(at) => (&part[..at], &part[at..]),
            None => (part, ""),
        };
        if name.is_empty() {
            return Err(WordTrouble::Path);
        }
        let name = String::from_str(alloc, name)?;
        path.push(Step::Name(name))
            .map_err(|_| WordTrouble::Memory)?;
        push_indices(&mut path, indices)?;
    }
    Ok(path)
}

/// Returns the number of the first enumerant of a name.
fn enumerant_named(node: &NodeRecord, word: &str) -> Option<usize>
    ensures { result ≡ enumerant_numbered node.now word.now }
{
    enumerants_of(node)
        .iter()
        .position(|enumerant| enumerant.name.as_str() == word)
}

/// Returns the number of an enumerant, by its name or its number.
fn enumerant_of(nodes: &[NodeRecord], id: u64, word: &str) -> Result<u16, WordTrouble>
    ensures { IfOk result (SpellsEnumerant nodes.now id word.now) }
{
    if let Some(node) = node_of_id(nodes, id) {
        if let Some(number) = enumerant_named(node, word) {
            return match u16::try_from(number) {
                Ok(number) => Ok(number),
                Err(_) => Err(WordTrouble::NoEnumerant),
            };
        }
    }
    match word.parse::<u16>() {
        Ok(number) => Ok(number),
        Err(_) => Err(WordTrouble::NoEnumerant),
    }
}

/// Returns the value of a base type that a word spells: a number in decimal digits, `true` or
/// `false`, the name or the number of an enumerant, a text as it is, or data in hexadecimal digits.
/// The empty word, `void`, `()` and any number spell Void.
fn value_of(
    alloc: Global,
    nodes: &[NodeRecord],
    base: BaseType,
    there: &'static str,
    word: &str,
) -> Result<CallValue, WordTrouble>
    ensures { IfOk result (SpellsValue nodes.now base word.now) }
{
    match base {
        BaseType::Text => Ok(CallValue::Text(String::from_str(alloc, word)?)),
        BaseType::Data => match hex::decode(alloc, word.as_bytes()) {
            Ok(bytes) => Ok(CallValue::Data(bytes)),
            Err(_) => Err(WordTrouble::Value(there)),
        },
        BaseType::Bool => match word {
            "true" => Ok(CallValue::Bool(true)),
            "false" => Ok(CallValue::Bool(false)),
            _ => Err(WordTrouble::Value(there)),
        },
        BaseType::Enum(id) => match enumerant_of(nodes, id, word) {
            Ok(number) => Ok(CallValue::Enum(number)),
            Err(why) => Err(why),
        },
        BaseType::Struct(_) | BaseType::AnyPointer | BaseType::Capability => {
            Err(WordTrouble::NotByWords(there))
        }
        BaseType::Void if matches!(word, "" | "void" | "()") => Ok(CallValue::Number(0)),
        _ => match word.parse::<i128>() {
            Ok(number) => Ok(CallValue::Number(number)),
            Err(_) => Err(WordTrouble::Value(there)),
        },
    }
}

/// Returns the bits of the float that a word spells, for a base type of as many bits.
fn float_value(base: BaseType, word: &str) -> Result<CallValue, WordTrouble>
    ensures { (floats : List FloatField) → (floats ≡ [] → ⊥) → IfOk result (MayBeBits floats) }
{
    let bits = match base {
        BaseType::UInt32 => float32_bits(word).map(|bits| bits as i128),
        _ => float64_bits(word).map(|bits| bits as i128),
    };
    match bits {
        Some(bits) => Ok(CallValue::Number(bits)),
        None => Err(WordTrouble::Value("a float")),
    }
}

/// Returns the value that a word spells for the target of a path. If the target is one of these
/// floats, the value has its bits.
fn value_there(
    alloc: Global,
    nodes: &[NodeRecord],
    floats: &[FloatField],
    root: u64,
    path: &[Step],
    word: &str,
) -> Result<CallValue, WordTrouble>
    ensures { IfOk result (SpellsValueThere nodes.now floats.now root path.now word.now) }
{
    let ty = match landing_from(alloc, nodes, root, path) {
        Ok(Landing::Value(ty)) => ty,
        Ok(Landing::Group(_)) => return Err(WordTrouble::NotByWords("a group")),
        Err(misstep) => return Err(WordTrouble::Step(misstep)),
    };
    let there = sort_of(ty);
    if ty.list_count > 0 {
        return Err(WordTrouble::NotByWords(there));
    }
    if !floats.is_empty() && is_float_at(alloc, nodes, floats, root, path)? {
        return float_value(ty.base, word);
    }
    value_of(alloc, nodes, ty.base, there, word)
}

/// Returns the arguments of `Call::new` for the call that words make under a schema, from the
/// struct of an id on. The words are a path, or for `Set` and `Initn` a path, `=` and a value.
/// Values of `floats` are given as floats, whose bits are set. An error says what is wrong:
/// - `Path`: the text before `=` isn't a path;
/// - `Step`: a value is set, and the path leads nowhere;
/// - `NoValue`: there is no `=`;
/// - `Value`, `NoEnumerant`: the word after `=` doesn't spell a value of the type there, or a
///   number;
/// - `NotByWords`: values of the target can't be spelled;
/// - `Memory`: an allocation was refused.
pub fn call_of_words(
    alloc: Global,
    nodes: &[NodeRecord],
    floats: &[FloatField],
    root: u64,
    verb: WordVerb,
    words: &str,
) -> Result<CallParts, WordTrouble>
    ensures { IfOk result (λ p. MakeCall nodes.now floats.now root verb words.now
        p.0.items p.1 p.2) }
{
    match verb {
        WordVerb::Get => return Ok((path_of(alloc, words)?, Verb::Get, None)),
        WordVerb::Init => return Ok((path_of(alloc, words)?, Verb::Init, None)),
        WordVerb::Clear => return Ok((path_of(alloc, words)?, Verb::Clear, None)),
        WordVerb::Set | WordVerb::Initn => {}
    }
    let Some((path, word)) = words.split_once('=') else {
        return Err(WordTrouble::NoValue);
    };
    let path = path_of(alloc, path)?;
    if verb == WordVerb::Initn {
        return match word.parse::<u32>() {
            Ok(count) => Ok((path, Verb::Initn(count), None)),
            Err(_) => Err(WordTrouble::Value("a size")),
        };
    }
    let value = value_there(alloc, nodes, floats, root, &path, word)?;
    Ok((path, Verb::Set, Some(value)))
}
