//! Copies of values that have only what a schema knows and a plan leaves.

use crate::plan::Plans;
use capnp_records::node::NO_DISCRIMINANT;
use capnp_records::raw::RawBrandedStructSchema;
use capnp_units::errors::Error;
use capnp_units::limiter::ReadLimiter;
use capnp_values_queries::fields::Field;
use capnp_values_queries::introspect::{Type, TypeVariant};
use capnp_values_queries::slots::{FieldPlace, PlainType, width_of};
use capnp_values_queries::structs::StructSchema;
use capnp_wire::list::ListReader;
use capnp_wire::pointer::PointerReader;
use capnp_wire::structs::StructReader;
use capnp_wire_objects::arena::ReaderArena;
use hagzimot_make::draft::{Draft, Sections, Size};
use hagzimot_make::fault::MakeFault;
use hagzimot_make::make::plain_type;
use std::alloc::{AllocError, Global};

/// The most structs, groups and lists within one another.
pub(crate) const MOST_LEVELS: u32 = 2048;

/// Why a value is not copied.
#[derive(Clone, Copy, Debug, PartialEq, Eq)]
pub(crate) enum CopyTrouble {
    /// A field can't be read as its type, or values are nested too deeply.
    Unreadable,
    /// An allocation was refused, or the copy is too large.
    Memory,
}

impl From<AllocError> for CopyTrouble {
    fn from(_e: AllocError) -> CopyTrouble {
        CopyTrouble::Memory
    }
}

impl From<MakeFault> for CopyTrouble {
    fn from(_e: MakeFault) -> CopyTrouble {
        CopyTrouble::Memory
    }
}

impl From<Error> for CopyTrouble {
    fn from(_e: Error) -> CopyTrouble {
        CopyTrouble::Unreadable
    }
}

/// Copies values under the schemas of one set.
#[derive(Clone, Copy)]
pub(crate) struct Copier<'a> {
    pub(crate) alloc: Global,
    /// The struct at the root.
    pub(crate) root: StructSchema<'a>,
}

/// A struct's schema, and the sections of its copy.
#[derive(Clone, Copy)]
pub(crate) struct Target<'s> {
    pub(crate) schema: StructSchema<'s>,
    pub(crate) into: Sections,
}

/// Returns the bits of a number of a struct, in units of its width.
fn bits_of<A: ReaderArena>(reader: StructReader<'_, A>, width: u32, offset: usize) -> u64 {
    match width {
        1 => u64::from(reader.get_bool_field(offset)),
        8 => u64::from(reader.get_data_field::<u8>(offset)),
        16 => u64::from(reader.get_data_field::<u16>(offset)),
        32 => u64::from(reader.get_data_field::<u32>(offset)),
        _ => reader.get_data_field::<u64>(offset),
    }
}

/// Returns the bits of an element of a list of numbers.
fn element_bits<A: ReaderArena>(list: ListReader<'_, A>, width: u32, index: u32) -> u64 {
    if index >= list.len() {
        return 0;
    }
    match width {
        1 => u64::from(list.bit(index)),
        8 => u64::from(list.number::<u8>(index)),
        16 => u64::from(list.number::<u16>(index)),
        32 => u64::from(list.number::<u32>(index)),
        _ => list.number::<u64>(index),
    }
}

impl<'s> Copier<'s> {
    /// Returns the schema of a struct of the set.
    fn struct_of(self, raw: RawBrandedStructSchema) -> Result<StructSchema<'s>, CopyTrouble> {
        let set = self.root.set();
        match set.struct_by_id(raw.id) {
            Some(known) => Ok(StructSchema::new(set, known)),
            None => Err(CopyTrouble::Unreadable),
        }
    }

    /// Copies the discriminant of a struct's union, if it has a union, and returns it.
    fn put_discriminant<A: ReaderArena>(
        self,
        draft: &mut Draft,
        reader: StructReader<'_, A>,
        target: Target<'_>,
    ) -> Option<u16> {
        let offset = target.schema.discriminant_offset()? as usize;
        let discriminant = reader.get_data_field::<u16>(offset);
        draft.put_bits(target.into.start, offset, 16, u64::from(discriminant));
        Some(discriminant)
    }

    /// Copies the fields of a struct or a group that its schema knows and the plans leave.
    #[cycle(value)]
    pub(crate) fn put_struct<A: ReaderArena>(
        self,
        draft: &mut Draft,
        reader: StructReader<'_, A>,
        target: Target<'s>,
        plans: &Plans<'_>,
        left: u32,
    ) -> Result<(), CopyTrouble> {
        if left == 0 {
            return Err(CopyTrouble::Unreadable);
        }
        let active = self.put_discriminant(draft, reader, target);
        let fields = target.schema.get_fields()?;
        for i in 0..fields.len() {
            let field = fields.get(i);
            let record = field.get_proto();
            let member = record.discriminant_value;
            if member != NO_DISCRIMINANT && active != Some(member) {
                continue;
            }
            let below = plans.named(self.alloc, record.name.as_str())?;
            if !below.is_cut() {
                self.put_field(draft, reader, target, field, &below, left - 1)?;
            }
        }
        Ok(())
    }

    /// Copies a field.
    #[cycle(value)]
    fn put_field<A: ReaderArena>(
        self,
        draft: &mut Draft,
        reader: StructReader<'_, A>,
        target: Target<'s>,
        field: Field<'s>,
        plans: &Plans<'_>,
        left: u32,
    ) -> Result<(), CopyTrouble> {
        match field.place() {
            FieldPlace::Void { offset: _ } => Ok(()),
            FieldPlace::Plain { ty, offset, .. } => {
                let (width, offset) = (width_of(ty), offset as usize);
                let bits = bits_of(reader, width, offset);
                draft.put_bits(target.into.start, offset, width, bits);
                Ok(())
            }
            FieldPlace::Pointer { index, ty, .. } => {
                let pointer = reader.get_pointer_field(index as usize);
                let at = target.into.pointer(index);
                self.put_pointer(draft, at, pointer, ty, plans, left)
            }
            FieldPlace::Group { schema } => {
                let into = target.into;
                self.put_struct(draft, reader, Target { schema, into }, plans, left)
            }
        }
    }

    /// Copies the value of a pointer. An untyped pointer and a capability are left null.
    #[cycle(value)]
    fn put_pointer<A: ReaderArena>(
        self,
        draft: &mut Draft,
        at: usize,
        pointer: PointerReader<'_, A>,
        ty: Type,
        plans: &Plans<'_>,
        left: u32,
    ) -> Result<(), CopyTrouble> {
        if pointer.is_null() {
            return Ok(());
        }
        let mut unlimited = ReadLimiter::new(None);
        match ty.which() {
            TypeVariant::Text => {
                let bytes = pointer.get_text(&mut unlimited, None)?;
                Ok(draft.add_bytes(at, bytes, true)?)
            }
            TypeVariant::Data => {
                let bytes = pointer.get_data(&mut unlimited, None)?;
                Ok(draft.add_bytes(at, bytes, false)?)
            }
            TypeVariant::Struct(raw) => {
                let schema = self.struct_of(raw)?;
                let reader = pointer.get_struct(&mut unlimited, None)?;
                let record = schema.record();
                let into = draft.add_struct(at, record.data_word_count, record.pointer_count)?;
                self.put_struct(draft, reader, Target { schema, into }, plans, left)
            }
            TypeVariant::List(element) => {
                let expected = element.expected_element_size();
                let list = pointer.get_list(&mut unlimited, expected, None)?;
                let each = plans.each(self.alloc)?;
                self.put_list(draft, at, list, element, &each, left)
            }
            _ => Ok(()),
        }
    }

    /// Copies a list of elements of a type.
    #[cycle(value)]
    fn put_list<A: ReaderArena>(
        self,
        draft: &mut Draft,
        at: usize,
        list: ListReader<'_, A>,
        element: Type,
        plans: &Plans<'_>,
        left: u32,
    ) -> Result<(), CopyTrouble> {
        if left == 0 {
            return Err(CopyTrouble::Unreadable);
        }
        let variant = element.which();
        match (variant, plain_type(variant)) {
            (TypeVariant::Struct(raw), _) => {
                self.put_structs(draft, at, list, raw, plans, left - 1)
            }
            (TypeVariant::Void, _) => {
                draft.add_list(at, Size::Void, list.len())?;
                Ok(())
            }
            (_, Some(ty)) => self.put_numbers(draft, at, list, ty, plans),
            _ => self.put_pointers(draft, at, list, element, plans, left - 1),
        }
    }

    /// Copies a list of numbers.
    fn put_numbers<A: ReaderArena>(
        self,
        draft: &mut Draft,
        at: usize,
        list: ListReader<'_, A>,
        ty: PlainType,
        plans: &Plans<'_>,
    ) -> Result<(), CopyTrouble> {
        let width = width_of(ty);
        let start = draft.add_list(at, Size::Bits(width), list.len())?;
        if plans.is_cut() {
            return Ok(());
        }
        for i in 0..list.len() {
            draft.put_bits(start, i as usize, width, element_bits(list, width, i));
        }
        Ok(())
    }

    /// Copies a list of pointers.
    #[cycle(value)]
    fn put_pointers<A: ReaderArena>(
        self,
        draft: &mut Draft,
        at: usize,
        list: ListReader<'_, A>,
        element: Type,
        plans: &Plans<'_>,
        left: u32,
    ) -> Result<(), CopyTrouble> {
        let start = draft.add_list(at, Size::Pointer, list.len())?;
        if plans.is_cut() {
            return Ok(());
        }
        for i in 0..list.len() {
            let pointer = list.get_pointer_element(i);
            let at = start.saturating_add(i as usize);
            self.put_pointer(draft, at, pointer, element, plans, left)?;
        }
        Ok(())
    }

    /// Copies a list of structs.
    #[cycle(value)]
    fn put_structs<A: ReaderArena>(
        self,
        draft: &mut Draft,
        at: usize,
        list: ListReader<'_, A>,
        raw: RawBrandedStructSchema,
        plans: &Plans<'_>,
        left: u32,
    ) -> Result<(), CopyTrouble> {
        let schema = self.struct_of(raw)?;
        let record = schema.record();
        let (data, pointers) = (record.data_word_count, record.pointer_count);
        let structs = draft.add_structs(at, list.len(), data, pointers)?;
        if plans.is_cut() {
            return Ok(());
        }
        for i in 0..list.len() {
            if list.element_size() == capnp_units::sizes::ElementSize::Bit {
                return Err(CopyTrouble::Unreadable);
            }
            let reader = list.get_struct_element(i);
            let into = structs.element(i as usize);
            self.put_struct(draft, reader, Target { schema, into }, plans, left)?;
        }
        Ok(())
    }
}
