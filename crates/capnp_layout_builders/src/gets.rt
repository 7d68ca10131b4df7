//! Reading of values that a pointer names for writing, with a default instead of null.
ghost use Rattle.std.specs.Prelude.{◌≡◌, ◌<◌, ◌^◌, option_copied, Ok, Err, IfOk, IfErr};
ghost use Rattle.std.specs.Borrow.{sem, RestsIfErr};
ghost use Rattle.capnp_units.specs.Segments.{words_in};
ghost use Rattle.capnp_wire_objects.specs.Places.{place_view};
ghost use Rattle.capnp_copy_arenas.specs.Refusals.{IsSizeOrRefusal};
ghost use Rattle.capnp_copy_arenas.specs.States.{state_in, HasWords};
ghost use Rattle.capnp_copy_arenas.specs.contracts.arena.Memory.{the_row};
ghost use Rattle.capnp_layout_builders.specs.Gets.{Begins, BeginsTold, GetsStructOrDefault, GetsListOrDefault, GetsStructListOrDefault};
ghost use Rattle.capnp_layout_builders.specs.Making.{state_of};

use crate::list_builder::ListBuilder;
use crate::pointer_builder::PointerBuilder;
use crate::struct_builder::StructBuilder;
use capnp_copy_arenas::arena::BuilderArena;
use capnp_copy_arenas::fields::StructPlace;
use capnp_copy_arenas::init::ListPlace;
use capnp_copy_values::defaults::write_default;
use capnp_copy_widening::lists::{Taker, get_list};
use capnp_copy_widening::struct_lists::get_struct_list;
use capnp_copy_widening::structs::get_struct;
use capnp_model_writes::laws::{changes_of_values, changes_with_more_levels};
use capnp_units::errors::Result;
use capnp_units::sizes::{ElementSize, StructSize, Word};
use capnp_wire_objects::place::Place;

/// Replaces null by a copy of a default, if there is a default, like `write_default`; for getters
/// over places.
///
/// Without a default nothing happens. It is refused like `write_default`; then all words are
/// unchanged, and new words are zero.
pub fn begin<A: BuilderArena>(arena: &mut A, slot: Place, default: Option<&[Word]>) -> Result<()>
    requires there { HasWords (A.segments arena.old) slot 1 }
    requires near { slot.position < 2 ^ 61 }
    ensures begins { Begins (option_copied default.entry) (words_in (A.segments arena.old))
        (words_in (A.segments arena.new)) (place_view slot) result }
    ensures told { let at = state_in A.segments A.room A.books in
        BeginsTold (option_copied default.entry) (at arena.old) (at arena.new) (place_view slot)
        result (IsSizeOrRefusal A.refuses) }
    ensures books { A.books arena.new ≡ A.books arena.old }
{
    match default {
        None => Ok(()),
        Some(words) => write_default(arena, slot, words),
    }
}

/// Returns the struct that the pointer at a place names, with at least these sections, like
/// `PointerBuilder::get_struct`; for callers' types that are built over structs.
pub fn struct_or_default<A: BuilderArena>(
    arena: &mut A,
    slot: Place,
    size: StructSize,
    default: Option<&[Word]>,
) -> Result<StructPlace>
    requires there { HasWords (A.segments arena.old) slot 1 }
    requires near { slot.position < 2 ^ 61 }
    ensures { let at = state_in A.segments A.room A.books in GetsStructOrDefault
        (option_copied default.entry) (at arena.old) (at arena.new) slot size result
        (IsSizeOrRefusal A.refuses) }
{
    changes_of_values();
    changes_with_more_levels();
    begin(arena, slot, default)?;
    get_struct(arena, slot, size)
}

/// Returns the list at a place, with a default instead of null.
fn list_here<A: BuilderArena>(
    arena: &mut A,
    slot: Place,
    expected: ElementSize,
    default: Option<&[Word]>,
) -> Result<ListPlace>
    requires there { HasWords (A.segments arena.old) slot 1 }
    requires near { slot.position < 2 ^ 61 }
    ensures { let at = state_in A.segments A.room A.books in GetsListOrDefault
        (option_copied default.entry) (at arena.old) (at arena.new) slot expected result
        (IsSizeOrRefusal A.refuses) }
{
    changes_of_values();
    changes_with_more_levels();
    begin(arena, slot, default)?;
    get_list(arena, slot, expected, Taker::Builder)
}

/// Returns the list of structs at a place, with a default instead of null.
fn struct_list_here<A: BuilderArena>(
    arena: &mut A,
    slot: Place,
    size: StructSize,
    default: Option<&[Word]>,
) -> Result<ListPlace>
    requires there { HasWords (A.segments arena.old) slot 1 }
    requires near { slot.position < 2 ^ 61 }
    ensures { let at = state_in A.segments A.room A.books in GetsStructListOrDefault
        (option_copied default.entry) (at arena.old) (at arena.new) slot size result
        (IsSizeOrRefusal A.refuses) }
{
    changes_of_values();
    changes_with_more_levels();
    begin(arena, slot, default)?;
    get_struct_list(arena, slot, size)
}

impl<'a, A: BuilderArena> PointerBuilder<'a, A> {
    /// Returns the struct that the pointer names, with at least these sections. Null is replaced by
    /// the default, if there is a default and its root isn't null, otherwise by a struct of zeros
    /// and nulls. A struct with a smaller section is widened: it keeps everything that it holds and
    /// gets zeros and nulls, and the words that it leaves become zero. A struct that is wide enough
    /// stays at its place.
    ///
    /// It is refused like `write_default`, then like `capnp_copy_widening::structs::get_struct`:
    /// with the fault of the value there, with `WrongPointerKind` if the value isn't a struct, with
    /// `SizeOverflow` if the message's words would exceed 2^29 - 1, or with the allocator's error.
    /// Then all words are unchanged, and new words are zero. The only exception: if the default was
    /// written, and is refused as a struct or can't be widened, the default remains.
    pub fn get_struct(
        self,
        size: StructSize,
        default: Option<&[Word]>,
    ) -> Result<StructBuilder<'a, A>>
        requires there { HasWords (A.segments self.memory.now.arena) self.place 1 }
        requires near { self.place.position < 2 ^ 61 }
        ensures same { IfOk result (λ o. o.memory.ghost_name ≡ self.entry.memory.ghost_name) }
        ensures got { let at = state_of A.segments A.room A.books in IfOk result (λ o.
            GetsStructOrDefault (option_copied default.entry) (at self.entry.memory.now)
            (at o.memory.now) self.entry.place size (Ok o.place)
            (IsSizeOrRefusal A.refuses)) }
        ensures* refused { let at = state_of A.segments A.room A.books in sem 𝓛 (RestsIfErr
            (the_row A.row) self.entry.memory (λ o. o.memory.ghost_name) result (λ n.
            IfErr result (λ e. GetsStructOrDefault (option_copied default.entry)
            (at self.entry.memory.now) (at n) self.entry.place size (Err e)
            (IsSizeOrRefusal A.refuses)))) }
    {
        let PointerBuilder { memory, place } = self;
        let place = struct_or_default(&mut memory.arena, place, size, default)?;
        Ok(StructBuilder { memory, place })
    }

    /// Returns the list that the pointer names, near or far. Its elements can be read as elements
    /// of the size, by the rules of readers; bits can also be read as voids, which readers refuse.
    /// Null is replaced by the default, if there is a default and its root isn't null. Otherwise
    /// the list is empty, of that size, at the pointer itself.
    ///
    /// It is refused
    /// - like `write_default`;
    /// - then with the fault of the value there;
    /// - with `WrongPointerKind` if the value isn't a list;
    /// - with `WrongElementSize` if the elements can't be read in this way.
    ///
    /// Then all words are unchanged, and new words are zero. The only exception: if the default was
    /// written, and is refused as a list, the default remains.
    pub fn get_list(
        self,
        element_size: ElementSize,
        default: Option<&[Word]>,
    ) -> Result<ListBuilder<'a, A>>
        requires there { HasWords (A.segments self.memory.now.arena) self.place 1 }
        requires near { self.place.position < 2 ^ 61 }
        ensures same { IfOk result (λ o. o.memory.ghost_name ≡ self.entry.memory.ghost_name) }
        ensures got { let at = state_of A.segments A.room A.books in IfOk result (λ o.
            GetsListOrDefault (option_copied default.entry) (at self.entry.memory.now)
            (at o.memory.now) self.entry.place element_size (Ok o.place)
            (IsSizeOrRefusal A.refuses)) }
        ensures* refused { let at = state_of A.segments A.room A.books in sem 𝓛 (RestsIfErr
            (the_row A.row) self.entry.memory (λ o. o.memory.ghost_name) result (λ n.
            IfErr result (λ e. GetsListOrDefault (option_copied default.entry)
            (at self.entry.memory.now) (at n) self.entry.place element_size (Err e)
            (IsSizeOrRefusal A.refuses)))) }
    {
        let PointerBuilder { memory, place } = self;
        let place = list_here(&mut memory.arena, place, element_size, default)?;
        Ok(ListBuilder { memory, place })
    }

    /// Returns the list that the pointer names, as a list of structs with at least these sections.
    /// Null is replaced by the default, if there is a default and its root isn't null; otherwise
    /// the list is empty, at the pointer itself. A list of narrower structs, of numbers, of
    /// pointers or of voids is widened. Each element becomes a struct with the greater of both
    /// sizes and keeps everything that it holds, and the words that it leaves become zero. A list
    /// that is wide enough stays at its place.
    ///
    /// It is refused like `write_default`, then like
    /// `capnp_copy_widening::struct_lists::get_struct_list`:
    /// - with the fault of the value there;
    /// - with `WrongPointerKind` if the value isn't a list;
    /// - with `WrongElementSize` if it is a list of bits;
    /// - with `SizeOverflow` if the message's words would exceed 2^29 - 1;
    /// - or with the allocator's error.
    ///
    /// Then all words are unchanged, and new words are zero. The only exception: if the default was
    /// written, and is refused as a list of structs or can't be widened, the default remains.
    pub fn get_struct_list(
        self,
        element_size: StructSize,
        default: Option<&[Word]>,
    ) -> Result<ListBuilder<'a, A>>
        requires there { HasWords (A.segments self.memory.now.arena) self.place 1 }
        requires near { self.place.position < 2 ^ 61 }
        ensures same { IfOk result (λ o. o.memory.ghost_name ≡ self.entry.memory.ghost_name) }
        ensures got { let at = state_of A.segments A.room A.books in IfOk result (λ o.
            GetsStructListOrDefault (option_copied default.entry) (at self.entry.memory.now)
            (at o.memory.now) self.entry.place element_size (Ok o.place)
            (IsSizeOrRefusal A.refuses)) }
        ensures* refused { let at = state_of A.segments A.room A.books in sem 𝓛 (RestsIfErr
            (the_row A.row) self.entry.memory (λ o. o.memory.ghost_name) result (λ n.
            IfErr result (λ e. GetsStructListOrDefault (option_copied default.entry)
            (at self.entry.memory.now) (at n) self.entry.place element_size (Err e)
            (IsSizeOrRefusal A.refuses)))) }
    {
        let PointerBuilder { memory, place } = self;
        let place = struct_list_here(&mut memory.arena, place, element_size, default)?;
        Ok(ListBuilder { memory, place })
    }
}
