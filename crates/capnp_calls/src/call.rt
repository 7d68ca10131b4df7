//! Calls: a path from the root of a record, and an action at its end.

ghost use Rattle.std.specs.Prelude.{◌≢◌, [], IsTrue};
ghost use Rattle.capnp_calls.specs.Actions.{is_in_range};

use crate::message::MessageValue;
use std::alloc::Global;
use thiserror::Error;

/// A step of a path.
#[derive(Debug, Drop)]
pub enum Step {
    /// to the field of this name
    Name(String),
    /// to the element of this index
    Index(u32),
}

/// The verb of a call at the end of its path.
#[derive(Clone, Copy, Debug, PartialEq, Eq)]
pub enum Verb {
    Get,
    Set,
    Init,
    /// a text, data or a list of n elements
    Initn(u32),
    Clear,
}

/// A value that a call sets.
#[derive(Debug, Drop)]
pub enum CallValue {
    Number(i128),
    Bool(bool),
    Enum(u16),
    Text(String),
    Data(Vec<u8>),
    /// the bytes of one framed message
    Message(Vec<u8>),
}

/// The reason for which a call is refused.
#[derive(Clone, Copy, Debug, PartialEq, Eq, Error)]
pub enum CallFault {
    #[error("the path has no step")]
    EmptyPath,
    #[error("a value without `set`, or `set` without a value")]
    ValueAndVerb,
    #[error("more elements than a list can have")]
    Size,
    #[error("no message whose value a call can set")]
    Message,
    #[error("out of memory")]
    Memory,
}

/// A value that a slot can be set to.
#[derive(Debug, Drop)]
pub enum SlotValue {
    Number(i128),
    Bool(bool),
    Enum(u16),
    Text(String),
    Data(Vec<u8>),
    Message(MessageValue),
}

/// The action of a call, with its value.
#[derive(Debug, Drop)]
pub enum Action {
    Get,
    Set(SlotValue),
    Init,
    Initn(u32),
    Clear,
}

/// A call: a path, which has a step, and an action at its end.
#[derive(Debug, Drop)]
pub struct Call {
    pub(crate) path: Vec<Step>,
    pub(crate) action: Action,
    pub ghost some: { path.items ≢ [] },
    pub ghost in_range: { IsTrue (is_in_range action) },
}

impl Call {
    ghost use Rattle.std.specs.Prelude.{◌≡◌, map, Ok, IfOk, IfErr};
    ghost use Rattle.capnp_calls.specs.CallViews.{step_view, action_view, verb_of, call_view, call_from, IsCallRefusal, SetsFrame};

    /// Makes a call along a path, which has at least one step. `Set` takes a value, the other verbs
    /// take no value; `Initn` takes at most 2^29 - 1 elements. A message is one frame of at most
    /// 2^23 words, with nothing after it. Its value has no capability and at most 64 levels of
    /// pointers, and costs at most 2^23 words to follow. The message's canonical words are kept.
    /// The error is the first of these rules that is broken. `Memory`: an allocation was refused
    /// while the call sets a frame. After a refusal the arguments are gone.
    pub fn new(
        alloc: Global,
        path: Vec<Step>,
        verb: Verb,
        value: Option<CallValue>,
    ) -> Result<Call, CallFault>
        ensures call { IfOk result (λ c. call_from path.items verb value ≡ Ok (call_view c)) }
        ensures refused { IfErr result (λ f.
            IsCallRefusal (SetsFrame path.items verb value) (call_from path.items verb value) f) }
    {
        if path.is_empty() {
            return Err(CallFault::EmptyPath);
        }
        let action = Action::new(alloc, verb, value)?;
        Ok(Call { path, action })
    }

    /// Returns the path, which has at least one step.
    pub fn path(&self) -> &[Step]
        ensures { map step_view result.now ≡ (call_view self.now).path }
    {
        &self.path
    }

    /// Returns the action at the end of the path, with its value.
    pub fn action(&self) -> &Action
        ensures action { action_view result.now ≡ (call_view self.now).verb }
        ensures in_range { IsTrue (is_in_range result.now) }
    {
        &self.action
    }

    /// Returns the verb of the call.
    pub fn verb(&self) -> Verb
        ensures { result ≡ verb_of (call_view self.now).verb }
    {
        match &self.action {
            Action::Get => Verb::Get,
            Action::Set(_) => Verb::Set,
            Action::Init => Verb::Init,
            Action::Initn(count) => Verb::Initn(*count),
            Action::Clear => Verb::Clear,
        }
    }
}

impl Action {
    ghost use Rattle.std.specs.Prelude.{◌≡◌, Ok, IsTrue, IfOk, IfErr};
    ghost use Rattle.capnp_calls.specs.CallViews.{action_view, verb_from, IsCallRefusal, GivesFrame};

    /// Makes the action of a verb with a value.
    fn new(alloc: Global, verb: Verb, value: Option<CallValue>) -> Result<Action, CallFault>
        ensures verb { IfOk result (λ a. verb_from verb value ≡ Ok (action_view a)) }
        ensures in_range { IfOk result (λ a. IsTrue (is_in_range a)) }
        ensures refused { IfErr result
            (IsCallRefusal (GivesFrame verb value) (verb_from verb value)) }
    {
        match (verb, value) {
            (Verb::Set, Some(value)) => Ok(Action::Set(SlotValue::new(alloc, value)?)),
            (Verb::Set, None) => Err(CallFault::ValueAndVerb),
            (_, Some(_)) => Err(CallFault::ValueAndVerb),
            (Verb::Get, None) => Ok(Action::Get),
            (Verb::Init, None) => Ok(Action::Init),
            (Verb::Initn(count), None) => {
                if count < 0x2000_0000 {
                    Ok(Action::Initn(count))
                } else {
                    Err(CallFault::Size)
                }
            }
            (Verb::Clear, None) => Ok(Action::Clear),
        }
    }
}

impl SlotValue {
    ghost use Rattle.std.specs.Prelude.{◌≡◌, Some, IfOk, IfErr};
    ghost use Rattle.capnp_calls.specs.CallViews.{slot_value_view, taken_value, set_verb, IsCallRefusal, IsFrame};

    /// Makes the value, with a message made canonical.
    fn new(alloc: Global, value: CallValue) -> Result<SlotValue, CallFault>
        ensures value { IfOk result (λ v. taken_value value ≡ Some (slot_value_view v)) }
        ensures refused { IfErr result
            (IsCallRefusal (IsFrame value) (set_verb (taken_value value))) }
    {
        match value {
            CallValue::Number(n) => Ok(SlotValue::Number(n)),
            CallValue::Bool(b) => Ok(SlotValue::Bool(b)),
            CallValue::Enum(n) => Ok(SlotValue::Enum(n)),
            CallValue::Text(text) => Ok(SlotValue::Text(text)),
            CallValue::Data(bytes) => Ok(SlotValue::Data(bytes)),
            CallValue::Message(bytes) => match MessageValue::new(alloc, &bytes) {
                Ok(Some(message)) => Ok(SlotValue::Message(message)),
                Ok(None) => Err(CallFault::Message),
                Err(_) => Err(CallFault::Memory),
            },
        }
    }
}
