//! Members in the order of their ordinals.

use capnp_source_names::problems::{Problems, Stop};
use capnp_source_syntax::tree::Number;
use std::alloc::{AllocError, Global};

/// A member and its ordinal.
#[derive(Clone, Copy, Debug, PartialEq, Eq)]
pub struct Numbered {
    pub ordinal: Number,
    /// The member, by its index.
    pub member: usize,
}

/// Returns members in the order of their ordinals. A gap or an ordinal that two members have is
/// noted as a problem.
pub fn in_order(
    alloc: Global,
    file: usize,
    mut members: Vec<Numbered>,
    problems: &mut Problems,
) -> Result<Vec<usize>, Stop> {
    members.sort_by_key(|m| m.ordinal.value)?;
    let mut expected: u64 = 0;
    let mut order = Vec::new(alloc);
    for numbered in &members {
        let value = numbered.ordinal.value;
        let span = numbered.ordinal.span;
        if value < expected {
            let text = format!(in alloc;
                "ordinal @{value} is taken already (take the next free one)"
            )?;
            problems.tell(file, span, text)?;
        } else {
            if value > expected {
                let text = format!(in alloc;
                    "ordinal @{expected} is missing (number the members without gaps)"
                )?;
                problems.tell(file, span, text)?;
            }
            expected = value.saturating_add(1);
        }
        order.push(numbered.member)?;
    }
    Ok(order)
}

/// Returns a number in 16 bits, and the largest such number if it takes more.
pub fn short(number: usize) -> u16 {
    u16::try_from(number).unwrap_or(u16::MAX)
}

/// Returns the ordinal of a member in 16 bits.
pub fn ordinal_of(number: &Number) -> u16 {
    u16::try_from(number.value).unwrap_or(u16::MAX)
}

/// Returns the numbers from 0 up to a count.
pub fn counted(alloc: Global, count: usize) -> Result<Vec<usize>, AllocError> {
    let mut numbers = Vec::new(alloc);
    for number in 0..count {
        numbers.push(number)?;
    }
    Ok(numbers)
}
