//! Lists that are built.
ghost use Rattle.std.specs.Prelude.{◌≡◌, ◌+◌, ◌<◌, ◌^◌, ◌==◌, length, map};
ghost use Rattle.std.specs.Borrow.{sem};
ghost use Rattle.capnp_units.specs.Segments.{words_in};
ghost use Rattle.capnp_wire.specs.Views.{seen_list, list_at};
ghost use Rattle.capnp_copy_arenas.specs.Elements.{first_element, HasElements, IsWhole};
ghost use Rattle.capnp_copy_arenas.specs.States.{HasWords};
ghost use Rattle.capnp_layout_builders.specs.Elements.{IsAtFront, HasFront, SetsFront, IsWithPointer, IsPointerElement, IsWholeElement, IsStructElement};

use crate::element::BuilderElement;
use crate::fronts::{get_front, pointer_of, set_front, struct_of};
use crate::pointer_builder::PointerBuilder;
use crate::struct_builder::StructBuilder;
use capnp_copy_arenas::arena::{BuilderArena, Memory};
use capnp_copy_arenas::elements::first_element;
use capnp_copy_arenas::init::ListPlace;
use capnp_units::sizes::{ElementSize, data_bits_per_element};
use capnp_units::units::ElementCount32;
use capnp_wire::list::ListReader;

/// Returns the list at a place, to read.
fn read_at<'a, A: BuilderArena>(arena: &'a A, place: ListPlace) -> ListReader<'a, A>
    requires { HasElements (words_in (A.segments arena.now)) place }
    ensures { seen_list A.segments result
        ≡ list_at (A.segments arena.now) (A.nesting arena.now) (first_element place) place.size
        place.count place.data_words place.pointers }
{
    ListReader::at(
        arena,
        first_element(place),
        place.count,
        place.size,
        place.data_words,
        place.pointers,
    )
}

/// A list that is built, with its place in an arena. Its words exist there.
#[derive(Drop)]
pub struct ListBuilder<'a, A> {
    pub memory: &'a mut Memory<A>,
    pub place: ListPlace,
}

impl<'a, A: BuilderArena> ListBuilder<'a, A> {
    ghost use Rattle.capnp_layout_builders.specs.Lending.{LendsList};

    /// Lends this list.
    pub fn reborrow(&mut self) -> ListBuilder<'_, A>
        ensures* lends { sem 𝓛 (LendsList A.row self.entry result) }
        ensures now { result.memory.now ≡ self.old.memory.now }
        ensures place { result.place ≡ self.old.place }
    {
        let place = self.place;
        let memory = &mut *self.memory;
        ListBuilder { memory, place }
    }

    /// Returns the list to read. Its pointers are followed under the arena's nesting limit.
    pub fn as_reader(&self) -> ListReader<'_, A>
        requires { HasElements (words_in (A.segments self.now.memory.now.arena)) self.now.place }
        ensures { let o = self.now.place in
            seen_list A.segments result
            ≡ list_at (A.segments self.now.memory.now.arena) (A.nesting self.now.memory.now.arena)
            (first_element o) o.size o.count o.data_words o.pointers }
    {
        read_at(&self.memory.arena, self.place)
    }

    /// Consumes the handle, and returns the list to read.
    pub fn into_reader(self) -> ListReader<'a, A>
        requires { HasElements (words_in (A.segments self.memory.now.arena)) self.place }
        ensures { seen_list A.segments result
            ≡ list_at (A.segments self.entry.memory.now.arena)
            (A.nesting self.entry.memory.now.arena) (first_element self.entry.place)
            self.entry.place.size self.entry.place.count self.entry.place.data_words
            self.entry.place.pointers }
    {
        let ListBuilder { memory, place } = self;
        read_at(&memory.arena, place)
    }

    /// Returns the number of elements.
    pub fn len(&self) -> ElementCount32
        ensures { result ≡ self.now.place.count }
    {
        self.place.count
    }

    /// Returns whether the list is empty.
    pub fn is_empty(&self) -> bool
        ensures { result ≡ (self.now.place.count == 0) }
    {
        self.place.count == 0
    }

    /// Returns the size of the elements: `InlineComposite` for a list of structs.
    pub fn element_size(&self) -> ElementSize
        ensures { result ≡ self.now.place.size }
    {
        self.place.size
    }

    /// Returns the value at the front of an element, by its index: the lowest bits of a plain
    /// element, or of a struct's data. The index is within the list, and the element has at least
    /// as many bits.
    pub fn get<T: BuilderElement>(&self, index: ElementCount32) -> T
        requires { IsAtFront self.now.place index T.width }
        ensures { HasFront (words_in (A.segments self.now.memory.now.arena)) self.now.place
            index T.width (λ bits. result ≡ T.of_bits bits) }
    {
        let place = self.place;
        let width = data_bits_per_element(T::element_size());
        let bits = get_front(&self.memory.arena, place, index, width);
        T::element_of_bits(bits)
    }

    /// Writes a value at the front of an element, by its index: into the lowest bits of a plain
    /// element, or of a struct's data. The index is within the list, and the element has at least
    /// as many bits; its other bits and its neighbours stay.
    pub fn set<T: BuilderElement>(&mut self, index: ElementCount32, value: T)
        requires { IsAtFront self.old.place index T.width }
        ensures same { self.new.memory.ghost_name ≡ self.old.memory.ghost_name }
        ensures place { self.new.place ≡ self.old.place }
        ensures books { A.books self.new.memory.now.arena ≡ A.books self.old.memory.now.arena }
        ensures sizes { map length (words_in (A.segments self.new.memory.now.arena))
            ≡ map length (words_in (A.segments self.old.memory.now.arena)) }
        ensures sets { SetsFront (words_in (A.segments self.old.memory.now.arena))
            (words_in (A.segments self.new.memory.now.arena)) self.old.place index T.width
            (T.bits value) }
    {
        let place = self.place;
        let width = data_bits_per_element(T::element_size());
        let bits = T::bits_of_element(value);
        set_front(&mut self.memory.arena, place, index, width, bits);
    }

    /// Returns an element as a pointer, by its index: the element itself, or the first pointer of a
    /// struct. The index is within the list, and the element has a pointer.
    pub fn get_pointer_element(self, index: ElementCount32) -> PointerBuilder<'a, A>
        requires { IsWithPointer self.place index }
        ensures same { result.memory.ghost_name ≡ self.entry.memory.ghost_name }
        ensures now { result.memory.now ≡ self.entry.memory.now }
        ensures place { IsPointerElement self.entry.place index result.place }
        ensures there { IsWhole (words_in (A.segments self.entry.memory.now.arena)) self.entry.place
            → HasWords (A.segments result.memory.now.arena) result.place 1 }
        ensures near { result.place.position < 2 ^ 61 }
    {
        let ListBuilder { memory, place } = self;
        let place = pointer_of(place, index);
        PointerBuilder { memory, place }
    }

    /// Returns an element as a struct, by its index, if its data are whole words: a struct has its
    /// own sections, a number of 64 bits is a struct's only data, and a pointer its only pointer.
    /// The index is within the list.
    pub fn get_struct_element(self, index: ElementCount32) -> StructBuilder<'a, A>
        requires { IsWholeElement self.place index }
        ensures same { result.memory.ghost_name ≡ self.entry.memory.ghost_name }
        ensures now { result.memory.now ≡ self.entry.memory.now }
        ensures element { IsStructElement self.entry.place index result.place }
        ensures there { IsWhole (words_in (A.segments self.entry.memory.now.arena)) self.entry.place
            → HasWords (A.segments result.memory.now.arena) result.place.start
            (result.place.data_words + result.place.pointers) }
    {
        let ListBuilder { memory, place } = self;
        let place = struct_of(place, index);
        StructBuilder { memory, place }
    }
}
