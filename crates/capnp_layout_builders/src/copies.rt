//! Copies of the values of readers.
ghost use Rattle.std.specs.Prelude.{◌≡◌, ◌+◌, ◌<◌, ◌^◌};
ghost use Rattle.capnp_units.specs.Segments.{words_in};
ghost use Rattle.capnp_wire_objects.specs.Places.{place_view};
ghost use Rattle.capnp_wire.specs.Views.{seen_pointer, seen_struct, seen_list};
ghost use Rattle.capnp_copy_arenas.specs.Refusals.{IsSizeOrRefusal};
ghost use Rattle.capnp_copy_arenas.specs.States.{HasWords, state_in};
ghost use Rattle.capnp_copy_values.specs.Sources.{HasStructWords};
ghost use Rattle.capnp_layout_builders.specs.Copied.{CopiesPointer, SetsStruct, SetsList, TakesOver, PointerTold, StructTold, ListTold, ContentTold};
ghost use Rattle.capnp_layout_builders.specs.Making.{memory_words, state_of};

use crate::pointer_builder::PointerBuilder;
use crate::struct_builder::StructBuilder;
use capnp_copy_arenas::arena::BuilderArena;
use capnp_copy_arenas::clear::clear;
use capnp_copy_arenas::fields::StructPlace;
use capnp_copy_values::contents::{copy_content_from, copy_data_from};
use capnp_copy_values::copy::copy_from;
use capnp_copy_values::lists::{ListSource, set_list};
use capnp_copy_values::structs::set_struct;
use capnp_units::errors::{Error, Result};
use capnp_units::kinds::ErrorKind;
use capnp_units::limiter::ReadLimiter;
use capnp_wire::backing::Backing;
use capnp_wire::list::ListReader;
use capnp_wire::pointer::PointerReader;
use capnp_wire::structs::StructReader;
use capnp_wire_objects::arena::ReaderArena;
use capnp_wire_objects::place::Place;

/// Replaces the value of the pointer at a place by a copy of a reader's value.
fn copy_pointer<A: BuilderArena, B: ReaderArena>(
    arena: &mut A,
    slot: Place,
    limiter: &mut ReadLimiter,
    other: PointerReader<'_, B>,
) -> Result<()>
    requires there { HasWords (A.segments arena.old) slot 1 }
    requires near { slot.position < 2 ^ 61 }
    ensures copy { CopiesPointer (seen_pointer B.segments other.entry)
        (words_in (A.segments arena.old))
        (words_in (A.segments arena.new)) (place_view slot) limiter.old result limiter.new }
    ensures told { let at = state_in A.segments A.room A.books in
        PointerTold (seen_pointer B.segments other.entry) (at arena.old) (at arena.new) slot.segment
        (IsSizeOrRefusal A.refuses) limiter.old result limiter.new }
    ensures books { A.books arena.new ≡ A.books arena.old }
{
    let Some(levels) = other.levels() else {
        return Err(Error::from(ErrorKind::NestingLimitExceeded));
    };
    let Some(place) = other.place() else {
        clear(arena, slot);
        return Ok(());
    };
    match other.backing() {
        Backing::Arena(source) => copy_from(arena, slot, limiter, source, place, levels),
        Backing::Default(_) => {
            let mut unlimited = ReadLimiter::new(None);
            copy_from(arena, slot, &mut unlimited, &other.backing(), place, levels)
        }
    }
}

/// Replaces the value of the pointer at a place by a copy of a reader's struct.
fn copy_struct<A: BuilderArena, B: ReaderArena>(
    arena: &mut A,
    slot: Place,
    limiter: &mut ReadLimiter,
    other: StructReader<'_, B>,
) -> Result<()>
    requires there { HasWords (A.segments arena.old) slot 1 }
    requires near { slot.position < 2 ^ 61 }
    ensures copy { SetsStruct (seen_struct B.segments other.entry) (words_in (A.segments arena.old))
        (words_in (A.segments arena.new)) (place_view slot) limiter.old result limiter.new }
    ensures told { let at = state_in A.segments A.room A.books in
        StructTold (seen_struct B.segments other.entry) (at arena.old) (at arena.new) slot.segment
        (IsSizeOrRefusal A.refuses) limiter.old result limiter.new }
    ensures books { A.books arena.new ≡ A.books arena.old }
{
    let Some(levels) = other.levels() else {
        return Err(Error::from(ErrorKind::NestingLimitExceeded));
    };
    let section = other.section();
    let first = other.first_pointer();
    let pointers = other.pointers();
    match other.backing() {
        Backing::Arena(source) => {
            set_struct(
                arena, slot, limiter, source, section, first, pointers, levels,
            )
        }
        Backing::Default(_) => {
            let mut unlimited = ReadLimiter::new(None);
            let source = other.backing();
            set_struct(
                arena,
                slot,
                &mut unlimited,
                &source,
                section,
                first,
                pointers,
                levels,
            )
        }
    }
}

/// Replaces the value of the pointer at a place by a copy of a reader's list.
fn copy_list<A: BuilderArena, B: ReaderArena>(
    arena: &mut A,
    slot: Place,
    limiter: &mut ReadLimiter,
    other: ListReader<'_, B>,
) -> Result<()>
    requires there { HasWords (A.segments arena.old) slot 1 }
    requires near { slot.position < 2 ^ 61 }
    ensures copy { SetsList (seen_list B.segments other.entry) (words_in (A.segments arena.old))
        (words_in (A.segments arena.new)) (place_view slot) limiter.old result limiter.new }
    ensures told { let at = state_in A.segments A.room A.books in
        ListTold (seen_list B.segments other.entry) (at arena.old) (at arena.new) slot.segment
        (IsSizeOrRefusal A.refuses) limiter.old result limiter.new }
    ensures books { A.books arena.new ≡ A.books arena.old }
{
    let Some(levels) = other.levels() else {
        return Err(Error::from(ErrorKind::NestingLimitExceeded));
    };
    let bytes = other.bytes();
    let size = other.struct_size();
    let list = ListSource {
        start: other.start(),
        size: other.element_size(),
        count: other.len(),
        data_words: size.data_words,
        pointers: size.pointers,
    };
    match other.backing() {
        Backing::Arena(source) => set_list(arena, slot, limiter, source, bytes, list, levels),
        Backing::Default(_) => {
            let mut unlimited = ReadLimiter::new(None);
            let source = other.backing();
            set_list(arena, slot, &mut unlimited, &source, bytes, list, levels)
        }
    }
}

/// Copies the content of a reader's struct into a struct of an arena.
fn copy_content<A: BuilderArena, B: ReaderArena>(
    arena: &mut A,
    object: StructPlace,
    limiter: &mut ReadLimiter,
    other: StructReader<'_, B>,
) -> Result<()>
    requires there { HasStructWords (A.segments arena.old) object }
    requires near { object.start.position + (object.data_words + object.pointers) < 2 ^ 61 }
    ensures content { TakesOver (seen_struct B.segments other.entry)
        (words_in (A.segments arena.old))
        (words_in (A.segments arena.new)) object limiter.old result limiter.new }
    ensures told { let at = state_in A.segments A.room A.books in
        ContentTold (seen_struct B.segments other.entry) (at arena.old) (at arena.new) object
        (IsSizeOrRefusal A.refuses) limiter.old result limiter.new }
    ensures books { A.books arena.new ≡ A.books arena.old }
{
    let section = other.section();
    let Some(levels) = other.levels() else {
        copy_data_from(arena, object, section);
        return Err(Error::from(ErrorKind::NestingLimitExceeded));
    };
    let first = other.first_pointer();
    let pointers = other.pointers();
    match other.backing() {
        Backing::Arena(source) => {
            copy_content_from(
                arena, object, limiter, source, section, first, pointers, levels,
            )
        }
        Backing::Default(_) => {
            let mut unlimited = ReadLimiter::new(None);
            let source = other.backing();
            copy_content_from(
                arena,
                object,
                &mut unlimited,
                &source,
                section,
                first,
                pointers,
                levels,
            )
        }
    }
}

impl<'a, A: BuilderArena> PointerBuilder<'a, A> {
    /// Replaces the value, which is cleared, by a copy of a reader's value: the whole tree, with
    /// the indices of its capabilities unchanged. A pointer past a struct's pointers is null.
    ///
    /// It is refused like `capnp_copy_values::copy::copy_from`, and with `NestingLimitExceeded`
    /// under a negative nesting limit. A value in a default is read without a limit of words, and
    /// costs nothing. After a refusal all words are unchanged, and the words that were allocated
    /// are zero.
    pub fn copy_from<B: ReaderArena>(
        &mut self,
        limiter: &mut ReadLimiter,
        other: PointerReader<'_, B>,
    ) -> Result<()>
        requires there { HasWords (A.segments self.old.memory.now.arena) self.old.place 1 }
        requires near { self.old.place.position < 2 ^ 61 }
        ensures same { self.new.memory.ghost_name ≡ self.old.memory.ghost_name }
        ensures place { self.new.place ≡ self.old.place }
        ensures copy { let words = memory_words A.segments in
            CopiesPointer (seen_pointer B.segments other.entry) (words self.old.memory.now)
            (words self.new.memory.now) (place_view self.old.place) limiter.old result limiter.new }
        ensures told { let at = state_of A.segments A.room A.books in PointerTold
            (seen_pointer B.segments other.entry) (at self.old.memory.now) (at self.new.memory.now)
            self.old.place.segment (IsSizeOrRefusal A.refuses) limiter.old result limiter.new }
        ensures books { A.books self.new.memory.now.arena ≡ A.books self.old.memory.now.arena }
    {
        let place = self.place;
        copy_pointer(&mut self.memory.arena, place, limiter, other)
    }

    /// Replaces the value, which is cleared, by a copy of a reader's struct: its data in whole
    /// words, and the values of its pointers.
    ///
    /// It is refused like `capnp_copy_values::structs::set_struct`, and with `NestingLimitExceeded`
    /// under a negative nesting limit. A value in a default is read without a limit of words, and
    /// costs nothing. After a refusal all words are unchanged, and the words that were allocated
    /// are zero.
    pub fn set_struct<B: ReaderArena>(
        &mut self,
        limiter: &mut ReadLimiter,
        value: StructReader<'_, B>,
    ) -> Result<()>
        requires there { HasWords (A.segments self.old.memory.now.arena) self.old.place 1 }
        requires near { self.old.place.position < 2 ^ 61 }
        ensures same { self.new.memory.ghost_name ≡ self.old.memory.ghost_name }
        ensures place { self.new.place ≡ self.old.place }
        ensures copy { let words = memory_words A.segments in
            SetsStruct (seen_struct B.segments value.entry) (words self.old.memory.now)
            (words self.new.memory.now) (place_view self.old.place) limiter.old result limiter.new }
        ensures told { let at = state_of A.segments A.room A.books in StructTold
            (seen_struct B.segments value.entry) (at self.old.memory.now) (at self.new.memory.now)
            self.old.place.segment (IsSizeOrRefusal A.refuses) limiter.old result limiter.new }
        ensures books { A.books self.new.memory.now.arena ≡ A.books self.old.memory.now.arena }
    {
        let place = self.place;
        copy_struct(&mut self.memory.arena, place, limiter, value)
    }

    /// Replaces the value, which is cleared, by a copy of a reader's list. A list of structs is
    /// copied whole, however it was read.
    ///
    /// It is refused like `capnp_copy_values::lists::set_list`, and with `NestingLimitExceeded`
    /// under a negative nesting limit. A value in a default is read without a limit of words, and
    /// costs nothing. After a refusal all words are unchanged, and the words that were allocated
    /// are zero.
    pub fn set_list<B: ReaderArena>(
        &mut self,
        limiter: &mut ReadLimiter,
        value: ListReader<'_, B>,
    ) -> Result<()>
        requires there { HasWords (A.segments self.old.memory.now.arena) self.old.place 1 }
        requires near { self.old.place.position < 2 ^ 61 }
        ensures same { self.new.memory.ghost_name ≡ self.old.memory.ghost_name }
        ensures place { self.new.place ≡ self.old.place }
        ensures copy { let words = memory_words A.segments in
            SetsList (seen_list B.segments value.entry) (words self.old.memory.now)
            (words self.new.memory.now) (place_view self.old.place) limiter.old result limiter.new }
        ensures told { let at = state_of A.segments A.room A.books in ListTold
            (seen_list B.segments value.entry) (at self.old.memory.now) (at self.new.memory.now)
            self.old.place.segment (IsSizeOrRefusal A.refuses) limiter.old result limiter.new }
        ensures books { A.books self.new.memory.now.arena ≡ A.books self.old.memory.now.arena }
    {
        let place = self.place;
        copy_list(&mut self.memory.arena, place, limiter, value)
    }
}

impl<'a, A: BuilderArena> StructBuilder<'a, A> {
    /// Copies the content of a reader's struct into this struct: as much of its data as fits,
    /// followed by zeros. Then come copies of the values of as many pointers as this struct has,
    /// followed by nulls. Anything that the source has past this struct's sections is dropped.
    ///
    /// It is refused like `capnp_copy_values::contents::copy_content_from`, and with
    /// `NestingLimitExceeded` under a negative nesting limit. After a refusal the data are the
    /// source's. The first pointers have the copies, and the others their old values; under a
    /// negative limit all pointers have their old values. A value in a default is read without a
    /// limit of words, and costs nothing.
    pub fn copy_content_from<B: ReaderArena>(
        &mut self,
        limiter: &mut ReadLimiter,
        other: StructReader<'_, B>,
    ) -> Result<()>
        requires there { HasStructWords (A.segments self.old.memory.now.arena) self.old.place }
        requires near { self.old.place.start.position
            + (self.old.place.data_words + self.old.place.pointers) < 2 ^ 61 }
        ensures same { self.new.memory.ghost_name ≡ self.old.memory.ghost_name }
        ensures place { self.new.place ≡ self.old.place }
        ensures content { let words = memory_words A.segments in TakesOver
            (seen_struct B.segments other.entry) (words self.old.memory.now)
            (words self.new.memory.now) self.old.place limiter.old result limiter.new }
        ensures told { let at = state_of A.segments A.room A.books in ContentTold
            (seen_struct B.segments other.entry) (at self.old.memory.now) (at self.new.memory.now)
            self.old.place (IsSizeOrRefusal A.refuses) limiter.old result limiter.new }
        ensures books { A.books self.new.memory.now.arena ≡ A.books self.old.memory.now.arena }
    {
        let place = self.place;
        copy_content(&mut self.memory.arena, place, limiter, other)
    }
}
