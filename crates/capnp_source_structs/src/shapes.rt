//! The order of a struct's fields, and the numbers of its unions' members.

use crate::members::Members;
use crate::ordinals::{Numbered, in_order, short};
use capnp_source_names::problems::{Problems, Stop};
use std::alloc::{AllocError, Global};

/// The largest number of groups around a field. The syntax allows 64 levels of declarations.
const MOST_GROUPS: usize = 80;

/// Stands for a member that is not in a union.
pub const NO_DISCRIMINANT: u16 = 65535;

/// The order of the members of a struct.
#[derive(Drop)]
pub struct Shape {
    /// The members with ordinals, in the order of these.
    pub order: Vec<usize>,
    /// The members of each group, by index: in the order of their ordinals, and groups by the lowest
    /// ordinal in them.
    pub lists: Vec<Vec<usize>>,
    /// The number of each member in its union.
    pub discriminants: Vec<u16>,
    /// The number of members of each group's union.
    pub counts: Vec<u16>,
    /// Whether each member has its place in its group's list.
    placed: Vec<bool>,
}

/// Returns a vector with a number of equal items.
fn filled<T: Copy>(alloc: Global, count: usize, item: T) -> Result<Vec<T>, AllocError> {
    let mut items = Vec::new(alloc);
    for _ in 0..count {
        items.push(item)?;
    }
    Ok(items)
}

/// Returns the members with ordinals.
fn numbered(alloc: Global, members: &Members) -> Result<Vec<Numbered>, AllocError> {
    let mut all = Vec::new(alloc);
    for (index, member) in members.members.iter().enumerate() {
        if let Some(ordinal) = member.ordinal {
            all.push(Numbered {
                ordinal,
                member: index,
            })?;
        }
    }
    Ok(all)
}

impl Shape {
    /// Returns the next number in the union of a group.
    fn next_discriminant(&mut self, group: usize) -> u16 {
        match self.counts.get_mut(group) {
            Some(count) => {
                let number = *count;
                *count = number.saturating_add(1);
                number
            }
            None => NO_DISCRIMINANT,
        }
    }

    /// Puts a member at the end of its group's list, unless it is there.
    fn place_one(&mut self, members: &Members, index: usize) -> Result<bool, AllocError> {
        let Some(member) = members.members.get(index) else {
            return Ok(false);
        };
        match self.placed.get_mut(index) {
            Some(placed) if !*placed => *placed = true,
            _ => return Ok(false),
        }
        if member.is_in_union {
            let number = self.next_discriminant(member.group);
            if let Some(discriminant) = self.discriminants.get_mut(index) {
                *discriminant = number;
            }
        }
        if let Some(list) = self.lists.get_mut(member.group) {
            list.push(index)?;
        }
        Ok(true)
    }

    /// Puts a member at the end of its group's list, and the groups around it that have no place yet.
    fn place(&mut self, members: &Members, index: usize) -> Result<(), AllocError> {
        let mut next = Some(index);
        for _ in 0..MOST_GROUPS {
            let Some(index) = next else {
                break;
            };
            if !self.place_one(members, index)? {
                break;
            }
            next = match members.members.get(index) {
                Some(member) => match members.groups.get(member.group) {
                    Some(group) => group.member,
                    None => None,
                },
                None => None,
            };
        }
        Ok(())
    }
}

/// Returns the order of the members of a struct. What is wrong with their ordinals is noted.
pub fn shape_of(
    alloc: Global,
    file: usize,
    members: &Members,
    problems: &mut Problems,
) -> Result<Shape, Stop> {
    let order = in_order(alloc, file, numbered(alloc, members)?, problems)?;
    let mut lists = Vec::new(alloc);
    for _ in &members.groups {
        lists.push(Vec::new(alloc))?;
    }
    let count = members.members.len();
    let mut shape = Shape {
        order: Vec::new(alloc),
        lists,
        discriminants: filled(alloc, count, NO_DISCRIMINANT)?,
        counts: filled(alloc, members.groups.len(), short(0))?,
        placed: filled(alloc, count, false)?,
    };
    for index in &order {
        shape.place(members, *index)?;
    }
    shape.order = order;
    Ok(shape)
}
