//! Iterators over lists.

ghost use Rattle.std.specs.Prelude.{ℕ, length, slice_index};
ghost use Rattle.std.specs.Iterator.{IsFinite};

use capnp_units::iter::{IndexMove, ListIter, ShortListIter};
use std::alloc::{AllocError, Global};
use std::test::Fail;

/// Some bytes as a list.
#[derive(Drop)]
struct Bytes<'a>(&'a [u8]);

impl IndexMove<u32, u8> for Bytes<'_> {
    ghost Shown = { ℕ };

    ghost shown = { λ n. n };

    ghost count = { λ b. length b.0.now };

    ghost at = { λ b i. slice_index b.0.now i };

    fn index_move(&self, index: u32) -> u8 {
        let bytes = self.0;
        bytes[index as usize]
    }
}

impl IndexMove<u16, u8> for Bytes<'_> {
    ghost Shown = { ℕ };

    ghost shown = { λ n. n };

    ghost count = { λ b. length b.0.now };

    ghost at = { λ b i. slice_index b.0.now i };

    fn index_move(&self, index: u16) -> u8 {
        let bytes = self.0;
        bytes[index as usize]
    }
}

fn gathered<I: Iterator<Item = u8> + Drop>(alloc: Global, items: I) -> Result<Vec<u8>, AllocError>
    requires can { I.can_next items }
    requires ends { IsFinite (I.remaining items) }
{
    let mut bytes = Vec::new(alloc);
    for item in items {
        bytes.push(item)?;
    }
    Ok(bytes)
}

#[test]
fn items_come_from_both_ends(rt: HostRuntime) -> Result<(), Fail> {
    let mut items = ListIter::new(Bytes(b"abcdef"), 5);
    assert!(rt; items.size_hint() == (5, Some(5)));
    assert!(rt; items.next() == Some(b'a'));
    assert!(rt; items.next_back() == Some(b'e'));
    assert!(rt; items.len() == 3);
    assert!(rt; items.nth(1) == Some(b'c'));
    assert!(rt; gathered(rt.alloc(), items)?.as_slice() == b"d".as_slice());
    let mut short = ShortListIter::new(Bytes(b"abcdef"), 4);
    assert!(rt; short.next_back() == Some(b'd'));
    assert!(rt; short.next() == Some(b'a'));
    assert!(rt; short.len() == 2);
    assert!(rt; short.nth(2) == None);
    assert!(rt; gathered(rt.alloc(), short)?.as_slice() == b"".as_slice());
    Ok(())
}
