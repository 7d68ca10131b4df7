//! Reading of the values of messages.
ghost use Rattle.std.specs.Prelude.{◌≡◌, pos, option_map};
ghost use Rattle.capnp_model.specs.Trees.{Tree};
ghost use Rattle.capnp_model.specs.Schemas.{struct, list};
ghost use Rattle.capnp_model.specs.Readings.{is_list_of};
ghost use Rattle.capnp_model.specs.Calls.{message, value_content};
ghost use Rattle.capnp_wire.specs.Views.{seen_struct};
ghost use Rattle.capnp_values_queries.specs.Types.{ty_of};
ghost use Rattle.capnp_calls.specs.Messages.{tree_of_message};
ghost use Rattle.capnp_calls.specs.Replies.{content_reply};
ghost use Rattle.capnp_calls_replies.specs.Messages.{kept_bytes, RootLeadsTo, IsMessageStruct};
ghost use Rattle.capnp_calls_replies.specs.Writes.{reply_by_type};

use capnp_calls::message::MessageValue;
use capnp_units::limiter::ReadLimiter;
use capnp_values::laws::{nulls_are_read, pointers_are_read};
use capnp_values_queries::introspect::Type;
use capnp_wire::backing::Backing;
use capnp_wire::pointer::PointerReader;
use capnp_wire::structs::StructReader;
use capnp_wire_objects::arena::{NullArena, ReaderArena};
use capnp_wire_objects::place::ROOT;

/// Returns the words of a message's value, to be read in place.
pub(crate) fn kept<'a>(value: &'a MessageValue) -> Backing<'a, NullArena>
    ensures { RootLeadsTo (kept_bytes result) (pos 2147483647) (tree_of_message value.now) }
{
    Backing::Default(value.segment())
}

/// Returns the struct at the root, the empty struct for null; `None` if the root is a list.
pub(crate) fn struct_in<'a, A: ReaderArena>(arena: &'a A) -> Option<StructReader<'a, A>>
    ensures { (t : Tree) → RootLeadsTo (A.segments arena.now) (A.nesting arena.now) t
        → IsMessageStruct t (option_map (seen_struct A.segments) result) }
{
    pointers_are_read();
    let mut unlimited = ReadLimiter::new(None);
    match PointerReader::at(arena, ROOT).get_struct(&mut unlimited, None) {
        Ok(reader) => Some(reader),
        Err(_) => None,
    }
}

/// Returns whether the value at the root is a list whose elements can be read as the type; null is
/// not a list.
fn has_list<A: ReaderArena>(arena: &A, element: Type) -> bool
    ensures { (t : Tree) → RootLeadsTo (A.segments arena.now) (A.nesting arena.now) t
        → result ≡ is_list_of t (ty_of element) }
{
    nulls_are_read();
    pointers_are_read();
    let root = PointerReader::at(arena, ROOT);
    if root.is_null() {
        return false;
    }
    let mut unlimited = ReadLimiter::new(None);
    match root.get_list(&mut unlimited, element.expected_element_size(), None) {
        Ok(_) => true,
        Err(_) => false,
    }
}

/// Returns whether the value of a message is a struct; null counts as the empty struct.
pub(crate) fn is_struct(value: &MessageValue, id: u64) -> bool
    ensures { reply_by_type result
        ≡ content_reply (value_content (message (tree_of_message value.now)) (struct id)) }
{
    struct_in(&kept(value)).is_some()
}

/// Returns whether the value of a message is a list whose elements can be read as the type; null is
/// not a list.
pub(crate) fn is_list(value: &MessageValue, element: Type) -> bool
    ensures { reply_by_type result ≡ content_reply
        (value_content (message (tree_of_message value.now)) (list (ty_of element))) }
{
    has_list(&kept(value), element)
}
