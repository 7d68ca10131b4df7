//! Values of pointers of a canonical message, read without a budget.

ghost use Rattle.std.specs.Prelude.{◌≡◌, ◌≢◌, option_map, IfSome};
ghost use Rattle.capnp_units.specs.Sizes.{size_number};
ghost use Rattle.capnp_wire.specs.Views.{seen_pointer, seen_struct, seen_list};
ghost use Rattle.capnp_relay_requests.specs.Places.{text_behind, data_behind, struct_behind, list_behind, has_words, structs_behind};

use capnp_units::limiter::ReadLimiter;
use capnp_units::sizes::ElementSize;
use capnp_wire::list::ListReader;
use capnp_wire::pointer::PointerReader;
use capnp_wire::structs::StructReader;
use capnp_wire_objects::arena::ReaderArena;

/// Returns the text that a pointer leads to; null is the empty text.
#[tactic(auto, using(crate::proofs::Unlimited::answers_reading))]
pub(crate) fn text_behind<'a, A: ReaderArena>(pointer: PointerReader<'a, A>) -> Option<&'a [u8]>
    ensures { option_map (λ r. r.now) result ≡ text_behind (seen_pointer A.segments pointer.entry) }
{
    let mut unlimited = ReadLimiter::new(None);
    pointer.get_text(&mut unlimited, None).ok()
}

/// Returns the data that a pointer leads to; null is empty data.
#[tactic(auto, using(crate::proofs::Unlimited::answers_reading))]
pub(crate) fn data_behind<'a, A: ReaderArena>(pointer: PointerReader<'a, A>) -> Option<&'a [u8]>
    ensures { option_map (λ r. r.now) result ≡ data_behind (seen_pointer A.segments pointer.entry) }
{
    let mut unlimited = ReadLimiter::new(None);
    pointer.get_data(&mut unlimited, None).ok()
}

/// Returns the struct that a pointer leads to; null is the empty struct.
#[tactic(auto, using(crate::proofs::Unlimited::answers_reading))]
pub(crate) fn struct_behind<'a, A: ReaderArena>(
    pointer: PointerReader<'a, A>,
) -> Option<StructReader<'a, A>>
    ensures { option_map (seen_struct A.segments) result
        ≡ struct_behind (seen_pointer A.segments pointer.entry) }
{
    let mut unlimited = ReadLimiter::new(None);
    pointer.get_struct(&mut unlimited, None).ok()
}

/// Returns the list that a pointer leads to whose elements can be read as structs; null is the
/// empty list.
#[tactic(auto, using(crate::proofs::Unlimited::answers_reading))]
fn list_behind<'a, A: ReaderArena>(pointer: PointerReader<'a, A>) -> Option<ListReader<'a, A>>
    ensures list { option_map (seen_list A.segments) result
        ≡ list_behind (seen_pointer A.segments pointer.entry) }
    ensures bytewise { IfSome result (λ l. size_number (seen_list A.segments l).size ≢ 1) }
{
    let mut unlimited = ReadLimiter::new(None);
    pointer
        .get_list(&mut unlimited, ElementSize::InlineComposite, None)
        .ok()
}

/// Returns whether the elements of a list have words of their own. A list of empty elements may
/// claim millions in a few words.
fn has_words<A: ReaderArena>(list: &ListReader<'_, A>) -> bool
    ensures { result ≡ has_words (seen_list A.segments list.now) }
{
    let size = list.struct_size();
    list.len() == 0
        || (list.element_size() == ElementSize::InlineComposite
            && (size.data_words > 0 || size.pointers > 0))
}

/// Returns the list of structs that a pointer leads to; null is the empty list.
pub(crate) fn structs_behind<'a, A: ReaderArena>(
    pointer: PointerReader<'a, A>,
) -> Option<ListReader<'a, A>>
    ensures list { option_map (seen_list A.segments) result
        ≡ structs_behind (seen_pointer A.segments pointer.entry) }
    ensures bytewise { IfSome result (λ l. size_number (seen_list A.segments l).size ≢ 1) }
{
    let list = list_behind(pointer)?;
    if has_words(&list) { Some(list) } else { None }
}
