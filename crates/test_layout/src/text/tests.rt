use capnp_text::text::{Builder, Reader};
use capnp_text::{data, text};
use capnp_units::kinds::ErrorKind;
use capnp_units::limiter::ReadLimiter;
use capnp_units::sizes::Word;
use capnp_wire::pointer::PointerReader;
use capnp_wire::traits::{FromPointerReader, Owned};
use capnp_wire_objects::arena::{ReaderArena, ReaderArenaImpl};
use std::cmp::Ordering;
use std::test::Fail;

#[test]
fn texts_are_bytes(rt: HostRuntime) -> Result<(), Fail> {
    let hi = Reader(b"hi");
    assert!(rt; hi.len() == 2);
    assert!(rt; !hi.is_empty());
    assert!(rt; Reader(b"").is_empty());
    assert!(rt; hi.as_bytes() == b"hi".as_slice());
    assert!(rt; hi.to_str().ok() == Some("hi"));
    let text = hi.to_string(rt.alloc())?.ok_or("UTF-8")?;
    assert!(rt; text.as_str() == "hi");
    Ok(())
}

#[test]
fn other_bytes_are_refused(rt: HostRuntime) -> Result<(), Fail> {
    let bytes = [104, 255];
    let text = Reader(&bytes);
    let error = text.to_str().err().ok_or("refused")?;
    assert!(rt; error.valid_up_to() == 1);
    assert!(rt; text.to_string(rt.alloc())?.is_none());
    let slice = <&str>::try_from(text);
    assert!(rt; slice.is_err());
    let shown = format!(in rt.alloc(); "{text:?}")?;
    assert!(rt; shown.as_str() == "<invalid utf-8: [104, 255]>");
    Ok(())
}

#[test]
fn texts_compare_by_bytes(rt: HostRuntime) -> Result<(), Fail> {
    let a = Reader::from("a");
    let ab = Reader::from(b"ab");
    let b = Reader::from(b"b".as_slice());
    assert!(rt; a == Reader(b"a"));
    assert!(rt; a != ab);
    assert!(rt; a < ab && ab < b);
    assert!(rt; ab.eq_str("ab") && !ab.eq_str("a"));
    assert!(rt; ab.cmp_str("b") == Ordering::Less);
    assert!(rt; ab.cmp_str("a") == Ordering::Greater);
    assert!(rt; ab.cmp_str("ab") == Ordering::Equal);
    assert!(rt; <&str>::try_from(ab).ok() == Some("ab"));
    Ok(())
}

#[test]
fn texts_are_written(rt: HostRuntime) -> Result<(), Fail> {
    let mut bytes = [0; 5];
    let mut text = Builder::new(&mut bytes);
    text.push_ascii(b'a');
    text.push_str("bc");
    text.push_ascii(b'd');
    assert!(rt; text.len() == 5);
    assert!(rt; !text.is_empty());
    assert!(rt; text.reborrow_as_reader() == Reader(b"abcd\0"));
    let shown = format!(in rt.alloc(); "{text:?}")?;
    assert!(rt; shown.as_str() == "\"abcd\\0\"");
    assert!(rt; text.to_str().ok() == Some("abcd\0"));
    let mut again = Builder::with_pos(&mut bytes, 1);
    again.push_str("BC");
    let owned = again.to_string(rt.alloc())?.ok_or("UTF-8")?;
    assert!(rt; owned.as_str() == "aBCd\0");
    Builder::new(&mut bytes).as_bytes_mut()[4] = b'!';
    assert!(rt; Builder::new(&mut bytes).as_bytes() == b"aBCd!".as_slice());
    let mut last = Builder::with_pos(&mut bytes, 4);
    last.reborrow().push_ascii(b'?');
    assert!(rt; last.as_bytes() == b"aBCd?".as_slice());
    Ok(())
}

#[test]
fn clearing_zeroes_all(rt: HostRuntime) -> Result<(), Fail> {
    let mut bytes = *b"abc";
    let mut other = [0; 3];
    let mut text = Builder::with_pos(&mut bytes, 1);
    text.clear();
    assert!(rt; text == Builder::with_pos(&mut other, 2));
    text.push_ascii(b'z');
    assert!(rt; text.into_reader() == Reader(b"z\0\0"));
    let mut wrong = [255];
    let text = Builder::new(&mut wrong);
    let shown = format!(in rt.alloc(); "{text:?}")?;
    assert!(rt; shown.as_str() == "<invalid utf-8>");
    Ok(())
}

/// Returns the value of a type of pointers' values at the root of a segment, under a limit of two
/// words.
fn read<'a, T: Owned<'a, A>, A: ReaderArena>(
    arena: &'a A,
    default: Option<&'a [Word]>,
) -> Result<Result<T::Reader, ErrorKind>, Fail> {
    let root = PointerReader::get_root_from_arena(arena)
        .ok()
        .ok_or("root")?;
    let mut limiter = ReadLimiter::new(Some(2));
    let read = <T::Reader as FromPointerReader<'a, A>>::get_from_pointer(
        &root,
        &mut limiter,
        default,
    );
    match read {
        Ok(value) => Ok(Ok(value)),
        Err(e) => Ok(Err(e.kind)),
    }
}

#[test]
fn texts_and_data_are_read_from_pointers(rt: HostRuntime) -> Result<(), Fail> {
    let hi = [1, 0, 0, 0, 0x1a, 0, 0, 0, 104, 105, 0, 0, 0, 0, 0, 0];
    let segments = [hi.as_slice()];
    let arena = ReaderArenaImpl::new(segments.as_slice(), 64);
    let text = read::<text::Owned, _>(&arena, None)?.ok().ok_or("a text")?;
    assert!(rt; text.eq_str("hi"));
    let data = read::<data::Owned, _>(&arena, None)?.ok().ok_or("data")?;
    assert!(rt; data == b"hi\0".as_slice());
    let null = [0; 8];
    let segments = [null.as_slice()];
    let arena = ReaderArenaImpl::new(segments.as_slice(), 64);
    let text = read::<text::Owned, _>(&arena, None)?.ok().ok_or("null")?;
    assert!(rt; text.is_empty());
    let default = [[1, 0, 0, 0, 0x1a, 0, 0, 0], [104, 105, 0, 0, 0, 0, 0, 0]];
    let text = read::<text::Owned, _>(&arena, Some(&default))?
        .ok()
        .ok_or("a default")?;
    assert!(rt; text.eq_str("hi"));
    let open = [1, 0, 0, 0, 0x12, 0, 0, 0, 104, 105, 0, 0, 0, 0, 0, 0];
    let segments = [open.as_slice()];
    let arena = ReaderArenaImpl::new(segments.as_slice(), 64);
    let refused = read::<text::Owned, _>(&arena, None)?.err();
    assert!(rt; refused == Some(ErrorKind::TextWithoutZeroByte));
    let mut long = [0; 40];
    long[0] = 1;
    long[4] = 0xca;
    let segments = [long.as_slice()];
    let arena = ReaderArenaImpl::new(segments.as_slice(), 64);
    let refused = read::<text::Owned, _>(&arena, None)?.err();
    assert!(rt; refused == Some(ErrorKind::ReadLimitExceeded));
    Ok(())
}
