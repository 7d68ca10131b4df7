//! Counts of refused calls, by their kinds.
ghost use Rattle.std.specs.Prelude.{◌≡◌, ◌++◌, codes, decimal, position, string_bytes, OnOk};
ghost use Rattle.std.specs.List.{flat_map};
ghost use Rattle.hagzimot_outcomes.specs.Counts.{total_from, kind_text, kinds_text, kind_member, kind_members};

use capnp_units::kinds::ErrorKind;
use itoa::Buffer;
use std::alloc::{AllocError, Global};

/// The number of calls that were refused with a kind.
#[derive(Clone, Copy, Debug)]
struct KindCount {
    kind: ErrorKind,
    count: u64,
}

/// Returns the place of the count of a kind.
fn place_of(kinds: &[KindCount], kind: ErrorKind) -> Option<usize>
    ensures { result
        ≡ position (λ c. ⟦<ErrorKind as PartialEq>⟧.eq c.kind kind) kinds.now }
{
    kinds.iter().position(|counted| counted.kind == kind)
}

/// Appends a number in decimal digits.
fn push_number(text: &mut String, number: u64) -> Result<(), AllocError>
    ensures { OnOk result
        (string_bytes text.new ≡ string_bytes text.old ++ decimal number) }
{
    let mut buffer = Buffer::new();
    text.push_str(buffer.format(number))
}

/// Appends a kind and its count.
fn push_kind(text: &mut String, counted: &KindCount) -> Result<(), AllocError>
    ensures { OnOk result
        (string_bytes text.new ≡ string_bytes text.old ++ kind_text counted.now) }
{
    text.push_str(counted.kind.name())?;
    text.push_str(" ")?;
    push_number(text, counted.count)
}

/// Appends kinds and their counts, each after a comma.
fn push_more_kinds(text: &mut String, kinds: &[KindCount]) -> Result<(), AllocError>
    ensures { OnOk result (string_bytes text.new
        ≡ string_bytes text.old ++ flat_map (λ c. codes ", " ++ kind_text c) kinds.now) }
{
    for counted in kinds {
        text.push_str(", ")?;
        push_kind(text, counted)?;
    }
    Ok(())
}

/// Appends kinds and their counts in parentheses, if there are some.
fn push_kinds(text: &mut String, kinds: &[KindCount]) -> Result<(), AllocError>
    ensures { OnOk result
        (string_bytes text.new ≡ string_bytes text.old ++ kinds_text kinds.now) }
{
    match kinds {
        [] => Ok(()),
        [first, others @ ..] => {
            text.push_str(" (")?;
            push_kind(text, first)?;
            push_more_kinds(text, others)?;
            text.push_str(")")
        }
    }
}

/// Appends a kind and its count as the member of an object.
fn push_member(text: &mut String, counted: &KindCount) -> Result<(), AllocError>
    ensures { OnOk result
        (string_bytes text.new ≡ string_bytes text.old ++ kind_member counted.now) }
{
    text.push_str("\"")?;
    text.push_str(counted.kind.name())?;
    text.push_str("\":")?;
    push_number(text, counted.count)
}

/// Appends members of an object, each after a comma.
fn push_more_members(text: &mut String, kinds: &[KindCount]) -> Result<(), AllocError>
    ensures { OnOk result (string_bytes text.new
        ≡ string_bytes text.old ++ flat_map (λ c. codes "," ++ kind_member c) kinds.now) }
{
    for counted in kinds {
        text.push_str(",")?;
        push_member(text, counted)?;
    }
    Ok(())
}

/// Appends the members of an object.
fn push_members(text: &mut String, kinds: &[KindCount]) -> Result<(), AllocError>
    ensures { OnOk result
        (string_bytes text.new ≡ string_bytes text.old ++ kind_members kinds.now) }
{
    match kinds {
        [] => Ok(()),
        [first, others @ ..] => {
            push_member(text, first)?;
            push_more_members(text, others)
        }
    }
}

/// The number of calls that were refused with each kind, in the order in which the kinds came.
#[derive(Debug, Drop)]
pub struct RefusedCalls {
    kinds: Vec<KindCount>,
    /// The number of calls whose kind could not be kept.
    others: u64,
}

impl RefusedCalls {
    ghost use Rattle.std.specs.Prelude.{◌≡◌, position, string_bytes, [], IfOk};
    ghost use Rattle.hagzimot_outcomes.specs.Counts.{total_from, counts_text, counts_json, CountsOne};

    /// Returns counts of no calls.
    pub fn new(alloc: Global) -> RefusedCalls
        ensures kinds { result.kinds.items ≡ [] }
        ensures others { result.others ≡ 0 }
    {
        RefusedCalls {
            kinds: Vec::new(alloc),
            others: 0,
        }
    }

    /// Counts a call that was refused. A new kind comes after the others. If an allocation is
    /// refused, the call is counted without its kind.
    pub fn count(&mut self, kind: ErrorKind)
        ensures { CountsOne
            (position (λ c. ⟦<ErrorKind as PartialEq>⟧.eq c.kind kind) self.old.kinds.items)
            kind self.old self.new }
    {
        match place_of(&self.kinds, kind) {
            Some(place) => {
                let known = self.kinds[place];
                self.kinds[place] = KindCount {
                    kind: known.kind,
                    count: known.count.saturating_add(1),
                };
            }
            None => {
                if self.kinds.push(KindCount { kind, count: 1 }).is_err() {
                    self.others = self.others.saturating_add(1);
                }
            }
        }
    }

    /// Returns the number of calls that were refused.
    fn total(&self) -> u64
        ensures { result ≡ total_from self.now.others self.now.kinds.items }
    {
        let mut total = self.others;
        let mut left = self.kinds.as_slice();
        while let [counted, others @ ..] = left {
            total = total.saturating_add(counted.count);
            left = others;
        }
        total
    }

    /// Returns the counts as text, such as `2 calls refused (InactiveMember 2)`. Returns an error
    /// if an allocation is refused.
    pub fn text(&self, alloc: Global) -> Result<String, AllocError>
        ensures { IfOk result (λ text. string_bytes text ≡ counts_text self.now) }
    {
        let mut text = String::new(alloc);
        push_number(&mut text, self.total())?;
        text.push_str(" calls refused")?;
        push_kinds(&mut text, &self.kinds)?;
        Ok(text)
    }

    /// Returns the counts as a JSON object, such as `{"InactiveMember":2}`. Returns an error if an
    /// allocation is refused.
    pub fn json(&self, alloc: Global) -> Result<String, AllocError>
        ensures { IfOk result (λ text. string_bytes text ≡ counts_json self.now) }
    {
        let mut text = String::new(alloc);
        text.push_str("{")?;
        push_members(&mut text, &self.kinds)?;
        text.push_str("}")?;
        Ok(text)
    }
}
