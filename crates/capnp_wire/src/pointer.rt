//! Pointers to read.
ghost use Rattle.std.specs.Prelude.{◌≡◌, Ok, IfOk, option_copied};
ghost use Rattle.std.specs.Option.{is_some};
ghost use Rattle.capnp_model.specs.Kinds.{OutOfBounds};
ghost use Rattle.capnp_model.specs.Chains.{◌and_then◌, guard};
ghost use Rattle.capnp_model.specs.Segments.{words_at};
ghost use Rattle.capnp_units.specs.Segments.{words_in};
ghost use Rattle.capnp_wire.specs.Views.{backing_bytes, ground_of, seen_pointer, seen_struct, pointer_at};
ghost use Rattle.capnp_wire.specs.Reads.{root_of, is_null_pointer, with_default, GetGives, read_struct, read_bytes, read_blob, read_text, type_behind};
ghost use Rattle.capnp_wire_objects.specs.Places.{seen, place_view};
ghost use Rattle.capnp_wire_objects.specs.Objects.{IsInside};
ghost use Rattle.capnp_wire.specs.Reached.{begins_in};
ghost use Rattle.capnp_wire_objects.specs.Arenas.{segment_bytes};
ghost use Rattle.capnp_wire.specs.ValueSizes.{PointerSize};

use crate::backing::{Backing, default_backing};
use crate::levels::{level_below, levels_of};
use crate::reached::{Reached, follow_any, follow_near, near_object_in, segment_of};
use crate::section::front_of;
use crate::structs::StructReader;
use capnp_units::errors::{Error, Result};
use capnp_units::kinds::ErrorKind;
use capnp_units::limiter::ReadLimiter;
use capnp_units::sizes::{ElementSize, MessageSize, PointerType, Word};
use capnp_wire_objects::arena::ReaderArena;
use capnp_wire_objects::named::{NamedObject, found_at};
use capnp_wire_objects::object::{Object, object_at};
use capnp_wire_objects::place::{Place, has_words, segment_bytes, word_at};
use capnp_wire_objects::size::{NOTHING, size_at};

/// A pointer to read: at a place, or null. Its value is lent from its backing.
#[derive_where(Clone, Copy)]
pub struct PointerReader<'a, A> {
    pub(crate) backing: Backing<'a, A>,
    pub(crate) place: Option<Place>,
    pub(crate) levels: Option<u32>,
}

impl<'a, A: ReaderArena> PointerReader<'a, A> {
    /// Returns the root pointer of an arena, the first word of its first segment. It is refused
    /// with `OutOfBounds` if that word doesn't exist.
    pub fn get_root_from_arena(arena: &'a A) -> Result<Self>
        ensures { seen (seen_pointer A.segments) result
            ≡ root_of (A.segments arena.now) (A.nesting arena.now) }
    {
        let place = Place {
            segment: 0,
            position: 0,
        };
        if word_at(arena, place).is_none() {
            return Err(Error::from(ErrorKind::OutOfBounds));
        }
        Ok(PointerReader::at(arena, place))
    }

    /// Returns the pointer at a place of an arena, under the arena's nesting limit. Whether its
    /// word exists is only checked when the pointer is read.
    pub fn at(arena: &'a A, place: Place) -> Self
        ensures { seen_pointer A.segments result
            ≡ pointer_at (A.segments arena.now) (A.nesting arena.now) (place_view place) }
    {
        PointerReader {
            backing: Backing::Arena(arena),
            place: Some(place),
            levels: levels_of(arena.nesting_limit()),
        }
    }

    /// Returns the pointer again, lent for a shorter time.
    pub fn reborrow(&self) -> Self
        ensures { result ≡ self.now }
    {
        *self
    }

    /// Returns whether there is no pointer here, or a word of zeros.
    #[inline(always)]
    pub fn is_null(&self) -> bool
        ensures { result ≡ is_null_pointer (seen_pointer A.segments self.now) }
    {
        match self.place {
            None => true,
            Some(place) => word_at(&self.backing, place) == Some(0),
        }
    }

    /// Returns the root of a default, read in place, with the levels that are left here. It returns
    /// the pointer itself if the pointer isn't null, if there is no default, or if the default's
    /// root is null. Nothing is followed or paid for.
    #[inline(always)]
    pub fn with_default(&self, default: Option<&'a [Word]>) -> Self
        ensures { seen_pointer A.segments result
            ≡ with_default (seen_pointer A.segments self.now) (option_copied default.entry) }
    {
        let Some(words) = default else {
            return *self;
        };
        if !self.is_null() {
            return *self;
        }
        let root = PointerReader {
            backing: default_backing(words),
            place: Some(Place {
                segment: 0,
                position: 0,
            }),
            levels: self.levels,
        };
        if root.is_null() { *self } else { root }
    }

    /// Returns the object that the pointer names, paid for. Null is followed to no object, and a
    /// default costs nothing.
    #[inline(always)]
    fn object_here(&self, limiter: &mut ReadLimiter) -> Result<Object>
        ensures object { GetGives (λ o. o) (λ o. Ok o) (seen_pointer A.segments self.now)
            limiter.old result limiter.new }
        ensures inside { IfOk result
            (IsInside (words_in (backing_bytes A.segments self.now.backing))) }
    {
        let Some(place) = self.place else {
            return Ok(Object::Null);
        };
        if self.is_null() {
            return Ok(Object::Null);
        }
        match self.backing {
            Backing::Arena(arena) => follow_any(arena, limiter, place),
            Backing::Default(_) => {
                let found = object_at(&self.backing, place)?;
                Ok(found.object)
            }
        }
    }

    /// Returns the object that the pointer names, paid for, with the bytes of its segment. Null is
    /// followed to no object, and a default costs nothing.
    #[inline(always)]
    pub(crate) fn reach(&self, limiter: &mut ReadLimiter) -> Result<Reached<'a>>
        ensures object { GetGives (λ r. r.object) (λ o. Ok o) (seen_pointer A.segments self.now)
            limiter.old result limiter.new }
        ensures inside { IfOk result (λ r.
            IsInside (words_in (backing_bytes A.segments self.now.backing)) r.object) }
        ensures bytes { IfOk result (λ r. r.bytes.now
            ≡ segment_bytes (backing_bytes A.segments self.now.backing) (begins_in r.object)) }
    {
        if let (Backing::Arena(arena), Some(place)) = (self.backing, self.place) {
            let bytes = segment_bytes(arena, place.segment);
            if let Some(object) = near_object_in(bytes, place) {
                let object = follow_near(arena, limiter, place, object)?;
                return Ok(Reached { object, bytes });
            }
        }
        let object = self.object_here(limiter)?;
        let bytes = self.backing.bytes_of(segment_of(object));
        Ok(Reached { object, bytes })
    }

    /// Returns the struct that the pointer leads to; null is the empty struct.
    ///
    /// It is out of line, like the other functions that read an object. So a getter without a
    /// default passes on the place of its pointer, and copies no pointer.
    #[inline(never)]
    fn struct_here(&self, limiter: &mut ReadLimiter) -> Result<StructReader<'a, A>>
        ensures { GetGives (seen_struct A.segments)
            (read_struct (ground_of A.segments self.now.backing) self.now.levels)
            (seen_pointer A.segments self.now) limiter.old result limiter.new }
    {
        let reached = self.reach(limiter)?;
        match reached.object {
            Object::Null => Ok(StructReader::empty(self.backing, self.levels)),
            Object::Struct {
                start,
                data_words,
                pointers,
            } => {
                let levels = level_below(self.levels)?;
                let section = self
                    .backing
                    .lend_of(reached.bytes, start, data_words as usize);
                let first = Place {
                    segment: start.segment,
                    position: start.position + data_words as usize,
                };
                Ok(StructReader::of_parts(self.backing, section, first, pointers, levels))
            }
            _ => Err(Error::from(ErrorKind::WrongPointerKind)),
        }
    }

    /// Returns the bytes of the byte list that the pointer leads to, or `None` for null.
    #[inline(always)]
    fn bytes_here(&self, limiter: &mut ReadLimiter) -> Result<Option<&'a [u8]>>
        ensures { GetGives option_copied
            (read_bytes (ground_of A.segments self.now.backing) self.now.levels)
            (seen_pointer A.segments self.now) limiter.old result limiter.new }
    {
        let reached = self.reach(limiter)?;
        match reached.object {
            Object::Null => Ok(None),
            Object::List {
                start,
                size: ElementSize::Byte,
                count,
            } => {
                level_below(self.levels)?;
                let count_of_words = (count as usize + 7) / 8;
                let words = self.backing.lend_of(reached.bytes, start, count_of_words);
                Ok(Some(front_of(words, count as usize)))
            }
            Object::List { .. } | Object::PointerList { .. } | Object::StructList { .. } => {
                Err(Error::from(ErrorKind::WrongElementSize))
            }
            Object::Struct { .. } | Object::Capability { .. } => {
                Err(Error::from(ErrorKind::WrongPointerKind))
            }
        }
    }

    /// Returns the data that the pointer leads to; null is empty data.
    #[inline(never)]
    fn data_here(&self, limiter: &mut ReadLimiter) -> Result<&'a [u8]>
        ensures { GetGives (λ r. r.now)
            (read_blob (ground_of A.segments self.now.backing) self.now.levels)
            (seen_pointer A.segments self.now) limiter.old result limiter.new }
    {
        match self.bytes_here(limiter)? {
            None => Ok(&[]),
            Some(bytes) => Ok(bytes),
        }
    }

    /// Returns the text that the pointer leads to without its zero byte; null is the empty text.
    #[inline(never)]
    fn text_here(&self, limiter: &mut ReadLimiter) -> Result<&'a [u8]>
        ensures { GetGives (λ r. r.now)
            (read_text (ground_of A.segments self.now.backing) self.now.levels)
            (seen_pointer A.segments self.now) limiter.old result limiter.new }
    {
        match self.bytes_here(limiter)? {
            None => Ok(&[]),
            Some(bytes) => {
                if bytes.is_empty() || bytes[bytes.len() - 1] != 0 {
                    return Err(Error::from(ErrorKind::TextWithoutZeroByte));
                }
                Ok(&bytes[..bytes.len() - 1])
            }
        }
    }

    /// Returns the struct that the pointer leads to, its sections lent in place. A null pointer
    /// reads as the default's root, which costs nothing and takes the same levels, or without a
    /// default as the empty struct.
    ///
    /// It is refused
    /// - with the kind of the fault there;
    /// - with `ReadLimitExceeded` exactly when the pads and the struct's words exceed the words
    ///   that are left;
    /// - with `WrongPointerKind` if the pointer leads to something else;
    /// - with `NestingLimitExceeded` if no level is left.
    ///
    /// If the words don't exceed those that are left, they are granted, even if the getter is
    /// refused afterwards.
    #[inline(always)]
    pub fn get_struct(
        &self,
        limiter: &mut ReadLimiter,
        default: Option<&'a [Word]>,
    ) -> Result<StructReader<'a, A>>
        ensures { let p = with_default (seen_pointer A.segments self.now)
            (option_copied default.entry) in
            GetGives (seen_struct A.segments) (read_struct p.basis p.levels) p limiter.old result
            limiter.new }
    {
        match default {
            None => self.struct_here(limiter),
            Some(_) => self.with_default(default).struct_here(limiter),
        }
    }

    /// Returns the data that the pointer leads to, lent in place. A null pointer reads as the
    /// default's root, or without a default as no bytes.
    ///
    /// It is refused like a struct, and with `WrongElementSize` if the pointer leads to a list of
    /// elements other than bytes.
    #[inline(always)]
    pub fn get_data(
        &self,
        limiter: &mut ReadLimiter,
        default: Option<&'a [Word]>,
    ) -> Result<&'a [u8]>
        ensures { let p = with_default (seen_pointer A.segments self.now)
            (option_copied default.entry) in
            GetGives (λ r. r.now) (read_blob p.basis p.levels) p limiter.old result limiter.new }
    {
        match default {
            None => self.data_here(limiter),
            Some(_) => self.with_default(default).data_here(limiter),
        }
    }

    /// Returns the text that the pointer leads to, lent in place without the zero byte at its end.
    /// The text may not be UTF-8. A null pointer reads as the default's root, or without a default
    /// as the empty text.
    ///
    /// It is refused like data, and with `TextWithoutZeroByte` if the last byte isn't zero or there
    /// is no byte.
    #[inline(always)]
    pub fn get_text(
        &self,
        limiter: &mut ReadLimiter,
        default: Option<&'a [Word]>,
    ) -> Result<&'a [u8]>
        ensures { let p = with_default (seen_pointer A.segments self.now)
            (option_copied default.entry) in
            GetGives (λ r. r.now) (read_text p.basis p.levels) p limiter.old result limiter.new }
    {
        match default {
            None => self.text_here(limiter),
            Some(_) => self.with_default(default).text_here(limiter),
        }
    }

    /// Returns the sort of object that the pointer names, if the object begins inside its segment.
    /// The object's words may be missing, and aren't looked at. It costs nothing.
    ///
    /// It is refused with
    /// - `OutOfBounds`: the pointer or a pad doesn't exist, or the object would begin before its
    ///   segment or after its last word;
    /// - `MalformedFarPointer`: a pad describes its object by a far pointer;
    /// - `UnknownPointerType`: a pointer of the fourth form is not a capability.
    pub fn get_pointer_type(&self) -> Result<PointerType>
        ensures { seen (λ t. t) result ≡ type_behind (seen_pointer A.segments self.now) }
    {
        let Some(place) = self.place else {
            return Ok(PointerType::Null);
        };
        let found = found_at(&self.backing, place)?;
        match found.object {
            NamedObject::Null => Ok(PointerType::Null),
            NamedObject::Capability { .. } => Ok(PointerType::Capability),
            NamedObject::Struct { start, .. } => self.type_inside(start, PointerType::Struct),
            NamedObject::List { start, .. } => self.type_inside(start, PointerType::List),
        }
    }

    /// Returns the sort of an object that begins at a place, if the place is inside its segment.
    fn type_inside(&self, start: Place, sort: PointerType) -> Result<PointerType>
        ensures { seen (λ t. t) result
            ≡ (guard (is_some
            (words_at (words_in (backing_bytes A.segments self.now.backing)) (place_view start)
            0)) OutOfBounds and_then λ _. Ok sort) }
    {
        if !has_words(&self.backing, start, 0) {
            return Err(Error::from(ErrorKind::OutOfBounds));
        }
        Ok(sort)
    }

    /// Returns the size of the pointer's value: the words of its objects at every depth, without
    /// pads and without the pointer itself, and its capabilities. Each count stops at the greatest
    /// number of its type. In an arena all of the value is followed and paid for.
    ///
    /// Pointers are followed in the order of reading, nulls too. It is refused
    /// - with `NestingLimitExceeded` under a negative nesting limit, whatever the value;
    /// - at the first fault within the levels that are left, with its kind;
    /// - with `ReadLimitExceeded` at the first object that exists and costs more words than are
    ///   left.
    ///
    /// Then the earlier objects are paid for, and this object counts as followed. On success
    /// exactly the value's pointers count as followed. Otherwise at most one more pointer is
    /// followed than words are granted.
    ///
    /// `size_at` describes the bounds of its time and its stack. A default has a fixed number of
    /// words, and no limit.
    pub fn total_size(&self, limiter: &mut ReadLimiter) -> Result<MessageSize>
        ensures { PointerSize (seen_pointer A.segments self.now) limiter.old result limiter.new }
    {
        let Some(levels) = self.levels else {
            return Err(Error::from(ErrorKind::NestingLimitExceeded));
        };
        let Some(place) = self.place else {
            return Ok(NOTHING);
        };
        match self.backing {
            Backing::Arena(arena) => size_at(arena, limiter, place, levels),
            Backing::Default(_) => {
                let mut unlimited = ReadLimiter::new(None);
                size_at(&self.backing, &mut unlimited, place, levels)
            }
        }
    }
}
