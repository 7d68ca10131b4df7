//! Reads large messages.
ghost use Rattle.std.specs.Prelude.{◌≢◌, IfOk};
ghost use Rattle.capnp_layout.specs.Sizes.{size_number};
ghost use Rattle.capnp_layout.specs.Views.{seen_list};

use capnp_layout::{
    ElementSize, ListReader, PointerReader, ReadLimiter, ReaderArena, ReaderArenaImpl, Result,
};

/// Returns the root as a list of structs.
fn structs_at_root<'a, A: ReaderArena>(
    arena: &'a A,
    limiter: &mut ReadLimiter,
) -> Result<ListReader<'a, A>>
    ensures { IfOk result (λ list. size_number (seen_list A.segments list).size ≢ 1) }
{
    let root = PointerReader::get_root_from_arena(arena)?;
    root.get_list(limiter, ElementSize::InlineComposite, None)
}

/// Returns the sum of the first numbers of the structs, and the number of their null pointers.
pub fn sum_of_structs(bytes: &[u8]) -> Result<(u64, u64)> {
    let segments: &[&[u8]] = &[bytes];
    let arena = ReaderArenaImpl::new(segments, 64);
    let mut limiter = ReadLimiter::new(None);
    let list = structs_at_root(&arena, &mut limiter)?;
    let mut sum = 0u64;
    let mut nulls = 0u64;
    for i in 0..list.len() {
        let element = list.get_struct_element(i);
        sum = sum.wrapping_add(element.get_data_field::<u64>(0));
        nulls = nulls.wrapping_add(u64::from(element.is_pointer_field_null(0)));
    }
    Ok((sum, nulls))
}

/// Returns the number of bytes of the text at the root that are the letter `a`.
fn letters_at_root<A: ReaderArena>(arena: &A) -> Result<u64> {
    let mut limiter = ReadLimiter::new(None);
    let root = PointerReader::get_root_from_arena(arena)?;
    let text = root.get_text(&mut limiter, None)?;
    let mut letters = 0u64;
    for byte in text {
        letters = letters.wrapping_add(u64::from(*byte == b'a'));
    }
    Ok(letters)
}

/// Returns the number of bytes of the text that are the letter `a`.
pub fn letters_of_text(bytes: &[u8]) -> Result<u64> {
    let segments: &[&[u8]] = &[bytes];
    letters_at_root(&ReaderArenaImpl::new(segments, 64))
}
