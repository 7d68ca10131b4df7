//! The slots of a struct, in bits from the start of the struct.

ghost use Rattle.std.specs.Prelude.{◌≡◌, ◌≤◌, ◌*◌, ◌^◌, ◌++◌, IfOk};
ghost use Rattle.capnp_source_layout.specs.Certificates.{Extends};
ghost use Rattle.capnp_source_layout.specs.Slots.{bits_of, no_slot, data_slot, pointer_slot, slot_of, field_slots, discriminant_slot, discriminant_slots, slots_of};

use crate::levels::Shared;
use crate::sections::DataSize;
use crate::structs::{FieldSize, Layout, LayoutFault, Scope, Step};
use crate::usage::factor;
use std::alloc::{AllocError, Global};

/// The bits that a field or a discriminant takes, or that the members of a union share.
#[derive(Clone, Copy, Debug, PartialEq, Eq)]
pub struct Slot {
    /// The scope that it belongs to.
    pub scope: usize,
    pub is_pointer: bool,
    /// Its first bit. The pointers come after the words of the data section.
    pub start: u64,
    /// The bit after its last.
    pub end: u64,
    /// The union whose members share it; `None` of a field and of a discriminant.
    pub shared_by: Option<usize>,
}

/// Returns a slot without bits.
pub fn no_slot(scope: usize) -> Slot
    ensures { result ≡ no_slot scope }
{
    Slot {
        scope,
        is_pointer: false,
        start: 0,
        end: 0,
        shared_by: None,
    }
}

/// Returns the bits before a data field: its offset in bits.
fn start_of(size: DataSize, offset: u32) -> u64
    ensures value { result ≡ offset * bits_of size }
    ensures small { result ≤ 2 ^ 40 }
{
    let offset = u64::from(offset);
    match size {
        DataSize::Bit => offset,
        DataSize::Byte => offset * 8,
        DataSize::TwoBytes => offset * 16,
        DataSize::FourBytes => offset * 32,
        DataSize::EightBytes => offset * 64,
    }
}

/// Returns the number of bits of a data field.
fn bits_of(size: DataSize) -> u64
    ensures value { result ≡ bits_of size }
    ensures small { result ≤ 64 }
{
    match size {
        DataSize::Bit => 1,
        DataSize::Byte => 8,
        DataSize::TwoBytes => 16,
        DataSize::FourBytes => 32,
        DataSize::EightBytes => 64,
    }
}

/// Returns the slot of a data field.
fn data_slot(scope: usize, size: DataSize, offset: u32) -> Slot
    ensures { result ≡ data_slot scope (bits_of size) offset }
{
    let start = start_of(size, offset);
    Slot {
        scope,
        is_pointer: false,
        start,
        end: start + bits_of(size),
        shared_by: None,
    }
}

/// Returns the slot of a pointer.
fn pointer_slot(words: u32, scope: usize, index: u32) -> Slot
    ensures { result ≡ pointer_slot words scope index }
{
    let start = (u64::from(words) + u64::from(index)) * 64;
    Slot {
        scope,
        is_pointer: true,
        start,
        end: start + 64,
        shared_by: None,
    }
}

/// Returns the slot of a step.
fn slot_of(words: u32, step: Step, offset: u32) -> Slot
    ensures { result ≡ slot_of words step offset }
{
    match step {
        Step::Field { scope, size } => match size {
            FieldSize::Void => no_slot(scope),
            FieldSize::Data(size) => data_slot(scope, size, offset),
            FieldSize::Pointer => pointer_slot(words, scope, offset),
        },
        Step::Discriminant { union: _ } => no_slot(0),
    }
}

/// Adds the slots of fields.
fn add_fields(
    slots: &mut Vec<Slot>,
    words: u32,
    steps: &[Step],
    offsets: &[u32],
) -> Result<(), AllocError>
    ensures { IfOk result (λ _. slots.new.items
        ≡ slots.old.items ++ field_slots words steps.now offsets.now) }
{
    let mut left = steps;
    let mut offsets_left = offsets;
    while let [step, others @ ..] = left {
        let [offset, more @ ..] = offsets_left else {
            return Ok(());
        };
        slots.push(slot_of(words, *step, *offset))?;
        left = others;
        offsets_left = more;
    }
    Ok(())
}

/// Adds the slot of a scope's discriminant, if the scope is a union that has one.
fn add_discriminant(
    slots: &mut Vec<Slot>,
    scope: Scope,
    discriminant: Option<u32>,
) -> Result<(), AllocError>
    ensures { IfOk result (λ _. slots.new.items
        ≡ slots.old.items ++ discriminant_slot scope discriminant) }
{
    match scope {
        Scope::Union { parent } => match discriminant {
            Some(offset) => {
                slots.push(data_slot(parent, DataSize::TwoBytes, offset))?;
                Ok(())
            }
            None => Ok(()),
        },
        Scope::Struct => Ok(()),
        Scope::Member { union: _ } => Ok(()),
    }
}

/// Adds the slots of discriminants.
fn add_discriminants(
    slots: &mut Vec<Slot>,
    scopes: &[Scope],
    discriminants: &[Option<u32>],
) -> Result<(), AllocError>
    ensures { IfOk result (λ _. slots.new.items
        ≡ slots.old.items ++ discriminant_slots scopes.now discriminants.now) }
{
    let mut left = scopes;
    let mut discriminants_left = discriminants;
    while let [scope, others @ ..] = left {
        let [discriminant, more @ ..] = discriminants_left else {
            return Ok(());
        };
        add_discriminant(slots, *scope, *discriminant)?;
        left = others;
        discriminants_left = more;
    }
    Ok(())
}

/// Returns the slots of a struct: those of its fields and of its unions' discriminants.
pub fn slots_of(
    alloc: Global,
    scopes: &[Scope],
    steps: &[Step],
    layout: &Layout,
) -> Result<Vec<Slot>, AllocError>
    ensures { IfOk result (λ v. v.items ≡ slots_of scopes.now steps.now layout.now) }
{
    let mut slots = Vec::new(alloc);
    add_fields(&mut slots, layout.data_words, steps, &layout.offsets)?;
    add_discriminants(&mut slots, scopes, &layout.discriminants)?;
    Ok(slots)
}

/// Returns the place that the members of a union share: `bits` bits from a bit on.
fn place(scope: usize, union: usize, start: Option<u64>, bits: u64) -> Result<Slot, LayoutFault> {
    let Some(start) = start else {
        return Err(LayoutFault::TooLarge);
    };
    let Some(end) = start.checked_add(bits) else {
        return Err(LayoutFault::TooLarge);
    };
    Ok(Slot {
        scope,
        is_pointer: false,
        start,
        end,
        shared_by: Some(union),
    })
}

/// Adds the places that the members of a union share.
fn add_places_of(
    slots: &mut Vec<Slot>,
    words: u32,
    scope: usize,
    union: usize,
    shared: &Shared,
) -> Result<(), LayoutFault>
    ensures { IfOk result (λ _. Extends slots.old.items slots.new.items) }
{
    for location in &shared.locations {
        let bits = factor(location.size);
        let start = location.offset.checked_mul(bits);
        slots.push(place(scope, union, start, bits)?)?;
    }
    for index in &shared.pointers {
        let start = index.saturating_add(u64::from(words)).checked_mul(64);
        slots.push(place(scope, union, start, 64)?)?;
    }
    Ok(())
}

/// Adds the places that the members of each union share.
pub fn add_places(
    slots: &mut Vec<Slot>,
    words: u32,
    scopes: &[Scope],
    shared: &[Shared],
) -> Result<(), LayoutFault>
    ensures { IfOk result (λ _. Extends slots.old.items slots.new.items) }
{
    for (union, one) in shared.iter().enumerate() {
        if let Some(Scope::Union { parent }) = scopes.get(union) {
            add_places_of(slots, words, *parent, union, one)?;
        }
    }
    Ok(())
}
