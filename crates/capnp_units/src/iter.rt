//! Iterators over lists that make their items when they are asked for.
ghost use Rattle.std.specs.Prelude.{◌≡◌, ℕ, ◌+◌, ◌-◌, ◌<◌, ◌≤◌, Some, IfSome, length, drop, slice_get, slice_index};
ghost use Rattle.std.specs.Option.{option_map};
ghost use Rattle.std.specs.Iterator.{YieldsFirstBy, YieldsLastBy, item_count, UpTo, IsFinite};
ghost use Rattle.std.specs.Iterator.SizeHint.{IsWithinCount};

use std::marker::PhantomData;

/// A number that names an item of a list.
pub trait ListIndex: Copy {
    /// The number.
    ghost number: { Self → ℕ };

    /// The count of numbers of this type.
    ghost bound: { ℕ };

    /// Returns the number as a count.
    fn count(self) -> u32
        ensures same { result ≡ number self }
        ensures within { result < bound };

    /// Returns the index of a number.
    fn at(count: u32) -> Self
        requires { count < bound }
        ensures { number result ≡ count };
}

impl ListIndex for u16 {
    ghost number = { λ n. n };

    ghost bound = { 65536 };

    fn count(self) -> u32 {
        self as u32
    }

    fn at(count: u32) -> u16 {
        count as u16
    }
}

impl ListIndex for u32 {
    ghost number = { λ n. n };

    ghost bound = { 4294967296 };

    fn count(self) -> u32 {
        self
    }

    fn at(count: u32) -> u32 {
        count
    }
}

/// A list that makes its items when they are asked for.
pub trait IndexMove<I: ListIndex, T> {
    /// The part of an item that clauses see.
    ghost Shown: { Type 0 };

    /// Reads this part of an item.
    ghost shown: { T → Shown };

    /// The number of items.
    ghost count: { Self → ℕ };

    /// The part that clauses see of the item at an index.
    ghost at: { Self → ℕ → Shown };

    /// Returns the item at an index, which is below the count.
    fn index_move(&self, index: I) -> T
        requires { I.number index < count self.now }
        ensures { shown result ≡ at self.now (I.number index) };
}

/// The items of a list at 0 to a size less one, from both ends. Each call makes at most one item.
#[derive(Drop)]
pub struct ItemIter<I: ListIndex, L: IndexMove<I, T>, T> {
    indices: PhantomData<I>,
    items: PhantomData<T>,
    list: L,
    index: u32,
    size: u32,
    ghost ordered: { index ≤ size },
    ghost named: { size < I.bound },
    ghost inside: { size ≤ L.count list },
}

/// The items of a list whose indices have the type `u32`.
pub type ListIter<L, T> = ItemIter<u32, L, T>;

/// The items of a list whose indices have the type `u16`.
pub type ShortListIter<L, T> = ItemIter<u16, L, T>;

impl<I: ListIndex, L: IndexMove<I, T> + Drop, T: Drop> ItemIter<I, L, T> {
    ghost use Rattle.capnp_units.specs.Items.{items_from, items_left};

    /// Makes an iterator over the items at 0 to `size` less one, which the list has.
    pub fn new(list: L, size: I) -> ItemIter<I, L, T>
        requires { I.number size ≤ L.count list }
        ensures { items_left L.at result ≡ items_from (L.at list) 0 (I.number size) }
    {
        ItemIter {
            indices: PhantomData,
            items: PhantomData,
            list,
            index: 0,
            size: size.count(),
        }
    }

    /// Passes `n` items, or all items if fewer are left, and returns the next. Only the returned
    /// item is made.
    #[tactic(auto, using(crate::proofs::ItemsLemmas::item_at, crate::proofs::ItemsLemmas::no_item_at, crate::proofs::ItemsLemmas::items_behind, crate::proofs::ItemsLemmas::none_behind))]
    pub fn nth(&mut self, n: usize) -> Option<T>
        ensures item { option_map L.shown result ≡ slice_get (items_left L.at self.old) n }
        ensures rest { items_left L.at self.new ≡ drop (n + 1) (items_left L.at self.old) }
    {
        let left = (self.size - self.index) as usize;
        if left <= n {
            self.index = self.size;
            return None;
        }
        self.index += n as u32;
        let item = self.list.index_move(I::at(self.index));
        self.index += 1;
        Some(item)
    }
}

impl<I: ListIndex, L: IndexMove<I, T> + Drop, T: Drop> Iterator for ItemIter<I, L, T> {
    ghost use Rattle.capnp_units.specs.Items.{items_left};

    type Item = T;

    ghost next_gives = { YieldsFirstBy L.shown (items_left L.at) };

    ghost remaining = { item_count (items_left L.at) };

    fn next(&mut self) -> Option<T> {
        if self.index == self.size {
            return None;
        }
        let first = self.list.index_move(I::at(self.index));
        self.index += 1;
        Some(first)
    }

    /// Returns the number of items that are left, twice.
    #[tactic(auto, using(crate::proofs::ItemsLemmas::length_items))]
    fn size_hint(&self) -> (usize, Option<usize>)
        ensures exact { result ≡ (
          length (items_left L.at self.now),
          Some
              (length (items_left L.at self.now)),
        ) }
        ensures lower { IsWithinCount result.0 (item_count (items_left L.at) self.now) }
        ensures upper { IfSome result.1 (UpTo (item_count (items_left L.at) self.now)) }
    {
        let left = (self.size - self.index) as usize;
        (left, Some(left))
    }
}

impl<I: ListIndex, L: IndexMove<I, T> + Drop, T: Drop> ExactSizeIterator for ItemIter<I, L, T> {
    #[tactic(auto, using(crate::proofs::ItemsLemmas::length_items))]
    fn len(&self) -> usize {
        (self.size - self.index) as usize
    }
}

impl<I: ListIndex, L: IndexMove<I, T> + Drop, T: Drop> DoubleEndedIterator for ItemIter<I, L, T> {
    ghost use Rattle.capnp_units.specs.Items.{items_left};

    ghost next_back_gives = { YieldsLastBy L.shown (items_left L.at) };

    #[tactic(auto, using(crate::proofs::ItemsLemmas::length_items, crate::proofs::ItemsLemmas::items_back))]
    fn next_back(&mut self) -> Option<T> {
        if self.index == self.size {
            return None;
        }
        self.size -= 1;
        Some(self.list.index_move(I::at(self.size)))
    }
}
