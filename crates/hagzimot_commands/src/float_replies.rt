//! Replies of calls, with floats as decimal numbers.
ghost use Rattle.std.specs.Prelude.{◌≡◌, None, map, option_map, string_bytes, IfOk, OnOk};
ghost use Rattle.capnp_calls.specs.CallViews.{step_view, call_view};
ghost use Rattle.hagzimot_commands.specs.Paths.{struct_landing, walked};
ghost use Rattle.hagzimot_commands.specs.FloatReplies.{fields_placed, holder_placed, reply_at, place_of_reply, Extends};

use crate::float_fields::is_float_at;
use crate::paths::{Landing, Misstep, element_there, id_there, landing_at, landing_from};
use capnp_calls::{Action, Call, Step};
use capnp_records::node::{BaseType, NodeRecord};
use capnp_relay_requests::request::FloatField;
use hagzimot_floats::float_text::{Float32, Float64, FloatForm};
use hagzimot_schemas::nodes::fields_of;
use std::alloc::{AllocError, Global};

/// The type of a value. `is_float` says that the value is a whole number with the bits of a float,
/// or lists of such numbers.
#[derive(Clone, Copy, Debug, PartialEq, Eq)]
struct Place {
    at: Landing,
    is_float: bool,
}

/// A field, by its name.
#[derive(Debug, Drop)]
struct NamedPlace {
    name: String,
    place: Place,
}

/// The fields of a struct or a group.
#[derive(Debug, Drop)]
struct Holder {
    id: u64,
    fields: Vec<NamedPlace>,
}

/// The places of floats in the replies of calls.
#[derive(Debug, Drop)]
pub struct FloatReplies {
    holders: Vec<Holder>,
    /// The type of the value that each call replies, or `None` if it isn't a value.
    calls: Vec<Option<Place>>,
}

/// Returns the fields of a node.
fn holder_of(alloc: Global, node: &NodeRecord, floats: &[FloatField]) -> Result<Holder, AllocError>
    ensures { IfOk result (λ holder. holder_placed holder ≡ fields_placed node.now) }
{
    let told = fields_of(node);
    let mut fields = Vec::new(alloc);
    for (index, field) in told.iter().enumerate() {
        let is_float = floats.iter().any(|float| float.node == node.id
            && float.index as usize == index);
        fields.push(NamedPlace {
            name: String::from_str(alloc, field.name.as_str())?,
            place: Place {
                at: landing_at(&field.body),
                is_float,
            },
        })?;
    }
    Ok(Holder {
        id: node.id,
        fields,
    })
}

/// Returns the type of the target of a path, if the path leads anywhere.
#[tactic(auto, using(crate::proofs::Walks::misses_none))]
fn place_of(
    alloc: Global,
    nodes: &[NodeRecord],
    floats: &[FloatField],
    root: u64,
    path: &[Step],
) -> Result<Option<Place>, AllocError>
    ensures { IfOk result (λ place. option_map (λ p. p.at) place
        ≡ walked nodes.now (struct_landing root) (map step_view path.now)) }
{
    let at = match landing_from(alloc, nodes, root, path) {
        Ok(at) => at,
        Err(Misstep::Memory) => return Err(AllocError),
        Err(_) => return Ok(None),
    };
    match is_float_at(alloc, nodes, floats, root, path) {
        Ok(is_float) => Ok(Some(Place { at, is_float })),
        Err(_) => Err(AllocError),
    }
}

impl FloatReplies {
    /// Returns the places of floats in the replies of calls. The calls begin at the struct of an
    /// id, and `floats` has the fields that are floats.
    pub fn new(
        alloc: Global,
        nodes: &[NodeRecord],
        floats: &[FloatField],
        root: u64,
        calls: &[Call],
    ) -> Result<FloatReplies, AllocError>
        ensures holders { IfOk result (λ told.
            map holder_placed told.holders.items ≡ map fields_placed nodes.now) }
        ensures calls { IfOk result (λ told. map (option_map (λ p. p.at)) told.calls.items
            ≡ map (λ c. reply_at nodes.now root (call_view c)) calls.now) }
    {
        let mut holders = Vec::new(alloc);
        for node in nodes {
            holders.push(holder_of(alloc, node, floats)?)?;
        }
        let mut places = Vec::new(alloc);
        for call in calls {
            places.push(match call.action() {
                Action::Get => place_of(alloc, nodes, floats, root, call.path())?,
                _ => None,
            })?;
        }
        Ok(FloatReplies {
            holders,
            calls: places,
        })
    }

    /// Returns the reply of a call, by its number from 0, with decimal numbers for the bits of
    /// floats. Returns an error if an allocation is refused.
    #[tactic(auto, using(crate::proofs::Fronts::fronts))]
    pub fn reply(&self, alloc: Global, call: usize, text: &str) -> Result<String, AllocError>
        ensures { place_of_reply self.now call ≡ None
            → IfOk result (λ told. string_bytes told ≡ text.now) }
    {
        let Some(place) = self.calls.get(call).copied().flatten() else {
            return String::from_str(alloc, text);
        };
        let mut teller = Teller {
            alloc,
            told: self,
            text: String::new(alloc),
            word: String::new(alloc),
            around: Vec::new(alloc),
            place: Some(place),
            mode: Mode::Plain,
        };
        for c in text.chars() {
            teller.take(c)?;
        }
        teller.end_word(' ')?;
        Ok(teller.text)
    }

    /// Returns the fields of a value that has fields.
    fn holder(&self, place: Option<Place>) -> Option<usize> {
        let id = id_there(place?.at)?;
        self.holders.iter().position(|holder| holder.id == id)
    }

    /// Returns the type of the field of a name.
    fn field(&self, holder: Option<usize>, name: &str) -> Option<Place> {
        let holder = self.holders.get(holder?)?;
        let field = holder
            .fields
            .iter()
            .find(|field| field.name.as_str() == name)?;
        Some(field.place)
    }
}

/// The struct, the group or the list that has a value.
#[derive(Clone, Copy, Debug)]
enum Around {
    /// A struct or a group, by the place of its fields.
    Struct(Option<usize>),
    /// A list, by the type of its elements.
    List(Option<Place>),
}

/// The part of a reply to which a character belongs.
#[derive(Clone, Copy, Debug, PartialEq, Eq)]
enum Mode {
    Plain,
    /// In a text between double quotes.
    Text,
    /// In such a text, after a backslash.
    Escape,
    /// Between angle brackets, as for a value that isn't printed.
    Angle,
}

/// The text for the characters so far, and the part to which the next one belongs.
#[derive(Drop)]
struct Teller<'a> {
    alloc: Global,
    told: &'a FloatReplies,
    text: String,
    /// The letters and digits of the word that the next character may end.
    word: String,
    /// The structs and lists that have the next value, the innermost last.
    around: Vec<Around>,
    /// The type of the next value. Also `None` before the name of a field.
    place: Option<Place>,
    mode: Mode,
}

/// Returns the text of the float of these bits, or `None` if they aren't the bits of a float.
fn float_word(alloc: Global, place: Place, word: &str) -> Result<Option<String>, AllocError> {
    let form = FloatForm::Text;
    let Landing::Value(ty) = place.at else {
        return Ok(None);
    };
    match (ty.base, word.parse::<u64>()) {
        (BaseType::UInt32, Ok(bits)) => match u32::try_from(bits) {
            Ok(bits) => Ok(Some(format!(in alloc; "{}", Float32 { bits, form })?)),
            Err(_) => Ok(None),
        },
        (BaseType::UInt64, Ok(bits)) => {
            Ok(Some(format!(in alloc; "{}", Float64 { bits, form })?))
        }
        _ => Ok(None),
    }
}

impl Teller<'_> {
    /// Writes the word that ends here, before a character: a float, a field's name or another.
    #[tactic(auto, using(crate::proofs::Fronts::fronts))]
    fn end_word(&mut self, before: char) -> Result<(), AllocError>
        ensures { OnOk result (Extends (string_bytes self.old.text) (string_bytes self.new.text)) }
    {
        if self.word.is_empty() {
            return Ok(());
        }
        let word = std::mem::replace(&mut self.word, String::new(self.alloc));
        let told = match self.place {
            Some(place) if place.is_float => float_word(self.alloc, place, word.as_str())?,
            _ => None,
        };
        match told {
            Some(told) => self.text.push_str(told.as_str())?,
            None => self.text.push_str(word.as_str())?,
        }
        if let (' ', None, Some(Around::Struct(holder))) = (
            before,
            self.place,
            self.around.last(),
        ) {
            self.place = self.told.field(*holder, word.as_str());
        }
        Ok(())
    }

    /// Takes a character that is in no text and between no angle brackets.
    fn take_plain(&mut self, c: char) -> Result<(), AllocError>
        ensures { OnOk result (self.new.text ≡ self.old.text) }
    {
        match c {
            '(' => {
                let holder = self.told.holder(self.place);
                self.around.push(Around::Struct(holder))?;
                self.place = None;
            }
            '[' => {
                self.place = element_of(self.place);
                self.around.push(Around::List(self.place))?;
            }
            ')' | ']' => {
                self.around.pop();
                self.place = None;
            }
            ',' => {
                self.place = match self.around.last() {
                    Some(Around::List(place)) => *place,
                    _ => None,
                };
            }
            '"' => self.mode = Mode::Text,
            '<' => self.mode = Mode::Angle,
            _ => {}
        }
        Ok(())
    }

    /// Takes a character.
    #[tactic(auto, using(crate::proofs::Fronts::fronts))]
    fn take(&mut self, c: char) -> Result<(), AllocError>
        ensures { OnOk result (Extends (string_bytes self.old.text) (string_bytes self.new.text)) }
    {
        match (self.mode, c) {
            (Mode::Plain, '(' | ')' | '[' | ']' | ',' | '"' | '<' | ' ') => {
                self.end_word(c)?;
                self.take_plain(c)?;
            }
            (Mode::Plain, _) => {
                self.word.push(c)?;
                return Ok(());
            }
            (Mode::Text, '\\') => self.mode = Mode::Escape,
            (Mode::Text, '"') => self.mode = Mode::Plain,
            (Mode::Angle, '>') => self.mode = Mode::Plain,
            (Mode::Escape, _) => self.mode = Mode::Text,
            (Mode::Text | Mode::Angle, _) => {}
        }
        self.text.push(c)?;
        Ok(())
    }
}

/// Returns the type of an element of a list.
fn element_of(place: Option<Place>) -> Option<Place> {
    let place = place?;
    Some(Place {
        at: element_there(place.at)?,
        is_float: place.is_float,
    })
}
