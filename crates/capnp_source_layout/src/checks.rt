//! Whether the slots of a struct are apart.

ghost use Rattle.std.specs.Prelude.{◌≡◌, ℕ, ◌<◌, List, length, All, IfOk, IsTrue};
ghost use Rattle.capnp_source_layout.specs.Certificates.{slot_at, Precedes, AreInOrder, AreRanks, IsHeldBy, IsHeld, AreChecked};
ghost use Rattle.capnp_source_layout.specs.Slots.{union_at, around, IsInside, IsLaidOut};

use crate::levels::Shared;
use crate::slots::{Slot, add_places, no_slot, slots_of};
use crate::structs::{Layout, LayoutFault, Scope, Step};
use std::alloc::Global;

/// Returns the union that a scope is a member of.
fn union_at(scopes: &[Scope], scope: usize) -> Option<usize>
    ensures { result ≡ union_at scopes.now scope }
{
    match scopes.get(scope) {
        Some(Scope::Member { union }) => Some(*union),
        _ => None,
    }
}

/// Returns the scope around a scope.
fn around(scopes: &[Scope], scope: usize) -> usize
    ensures { result ≡ around scopes.now scope }
{
    match union_at(scopes, scope) {
        Some(union) => match scopes.get(union) {
            Some(Scope::Union { parent }) => *parent,
            _ => scope,
        },
        None => scope,
    }
}

/// Returns a slot by its number.
fn slot_at(slots: &[Slot], number: usize) -> Slot
    ensures { result ≡ slot_at slots.now number }
{
    match slots.get(number) {
        Some(slot) => *slot,
        None => no_slot(0),
    }
}

/// Whether a slot comes before another.
fn precedes(a: Slot, b: Slot) -> bool
    ensures { IsTrue result → Precedes a b }
{
    if a.end < a.start {
        return false;
    }
    a.scope < b.scope || a.scope == b.scope && a.end <= b.start
}

/// Whether each slot of a list comes before the next.
fn are_in_order(slots: &[Slot], order: &[usize]) -> bool
    ensures { IsTrue result → AreInOrder slots.now order.now }
{
    for place in 1..order.len() {
        if !precedes(
            slot_at(slots, order[place - 1]),
            slot_at(slots, order[place]),
        ) {
            return false;
        }
    }
    true
}

/// Whether each number has its place in a list.
fn are_ranks(order: &[usize], ranks: &[usize]) -> bool
    ensures { IsTrue result → AreRanks order.now ranks.now }
{
    for number in 0..ranks.len() {
        let rank = ranks[number];
        if rank >= order.len() || order[rank] != number {
            return false;
        }
    }
    true
}

/// Whether a slot of a member of a union lies in a place that the members share.
fn is_held_by(scopes: &[Scope], slot: Slot, home: Slot) -> bool
    ensures { IsTrue result → IsHeldBy scopes.now slot home }
{
    let Some(union) = union_at(scopes, slot.scope) else {
        return false;
    };
    let Some(shared_by) = home.shared_by else {
        return false;
    };
    if shared_by != union || home.scope >= slot.scope {
        return false;
    }
    if home.scope != around(scopes, slot.scope) {
        return false;
    }
    home.start <= slot.start && slot.end <= home.end
}

/// Returns the last slot of a scope that begins at a bit or earlier.
fn home_of(slots: &[Slot], order: &[usize], scope: usize, start: u64) -> usize {
    let count = order.partition_point(|number| {
        let slot = slot_at(slots, *number);
        slot.scope < scope || slot.scope == scope && slot.start <= start
    });
    match order.get(count.saturating_sub(1)) {
        Some(number) => *number,
        None => slots.len(),
    }
}

/// Whether a slot is the struct's own, or takes no bit, or lies in a place of its union.
fn is_held(scopes: &[Scope], slots: &[Slot], order: &[usize], slot: Slot) -> bool
    ensures { IsTrue result → IsHeld scopes.now slots.now slot }
{
    if slot.scope == 0 || slot.end <= slot.start {
        return true;
    }
    let number = home_of(slots, order, around(scopes, slot.scope), slot.start);
    number < slots.len() && is_held_by(scopes, slot, slot_at(slots, number))
}

/// Whether each slot is the struct's own, or takes no bit, or lies in a place of its union.
fn are_held(scopes: &[Scope], slots: &[Slot], order: &[usize]) -> bool
    ensures { IsTrue result → All (IsHeld scopes.now slots.now) slots.now }
{
    for number in 0..slots.len() {
        if !is_held(scopes, slots, order, slot_at(slots, number)) {
            return false;
        }
    }
    true
}

/// Returns the numbers of slots in the order of their scopes and places.
fn order_of(alloc: Global, slots: &[Slot]) -> Result<Vec<usize>, LayoutFault> {
    let mut order = Vec::with_capacity(alloc, slots.len())?;
    for number in 0..slots.len() {
        order.push(number)?;
    }
    order.sort_by_key(|number| {
        let slot = slot_at(slots, *number);
        (slot.scope, slot.start, slot.end)
    })?;
    Ok(order)
}

/// Returns the place of each number in a list.
fn ranks_of(alloc: Global, order: &[usize]) -> Result<Vec<usize>, LayoutFault> {
    let mut ranks = Vec::with_capacity(alloc, order.len())?;
    for _ in order {
        ranks.push(0)?;
    }
    for (place, number) in order.iter().enumerate() {
        if let Some(rank) = ranks.get_mut(*number) {
            *rank = place;
        }
    }
    Ok(ranks)
}

/// Whether slots are apart, by their order and by the places of unions.
fn are_checked(alloc: Global, scopes: &[Scope], slots: &[Slot]) -> Result<bool, LayoutFault>
    ensures { IfOk result (λ b. IsTrue b → (order ranks : List ℕ)
        × AreChecked scopes.now slots.now order ranks) }
{
    let order = order_of(alloc, slots)?;
    let ranks = ranks_of(alloc, &order)?;
    Ok(
        ranks.len() == slots.len()
            && are_ranks(&order, &ranks)
            && are_in_order(slots, &order)
            && are_held(scopes, slots, &order),
    )
}

/// Whether each slot is within its section.
fn are_inside(words: u32, pointers: u32, slots: &[Slot]) -> bool
    ensures { IsTrue result → All (IsInside words pointers) slots.now }
{
    let data = u64::from(words) * 64;
    let whole = (u64::from(words) + u64::from(pointers)) * 64;
    let mut left = slots;
    while let [slot, others @ ..] = left {
        if slot.end > if slot.is_pointer { whole } else { data } {
            return false;
        }
        left = others;
    }
    true
}

/// Whether each slot of a layout is within its section, and apart from all others but those of other
/// members of a union. `shared` has the places of each union.
pub fn is_laid_out(
    alloc: Global,
    scopes: &[Scope],
    steps: &[Step],
    layout: &Layout,
    shared: &[Shared],
) -> Result<bool, LayoutFault>
    ensures { IfOk result (λ b. IsTrue b → IsLaidOut scopes.now steps.now layout.now) }
{
    let mut slots = slots_of(alloc, scopes, steps, layout)?;
    if !are_inside(layout.data_words, layout.pointers, &slots) {
        return Ok(false);
    }
    add_places(&mut slots, layout.data_words, scopes, shared)?;
    are_checked(alloc, scopes, &slots)
}
