//! The names of files that messages are split into.
ghost use Rattle.std.specs.Prelude.{◌≡◌, ◌<◌, codes, option_map, string_bytes, IfOk};
ghost use Rattle.std.specs.List.{repeat};
ghost use Rattle.hagzimot_pieces.specs.PartNames.{split_at, digits_asked};

use std::alloc::{AllocError, Global};

/// Names that have a number in them.
#[derive(Clone, Copy, Debug)]
pub struct PartNames<'a> {
    front: &'a str,
    /// The fewest digits of the number, from 1 to 9.
    digits: usize,
    rear: &'a str,
}

/// The two parts of a text round the first of a character, if it has one.
fn split_at(text: &str, mark: char) -> Option<(&str, &str)>
    requires { mark < 128 }
    ensures { option_map (λ parts. (parts.0.now, parts.1.now)) result ≡ split_at mark text.now }
{
    text.split_once(mark)
}

/// The digits that a number is asked to have, before the `d` that ends it, as in `04d`: none, or
/// zero and a digit.
fn digits_asked(asked: &[u8]) -> Option<usize>
    ensures { result ≡ digits_asked asked.now }
{
    match asked {
        [] => Some(1),
        [zero, digit] => {
            if *zero == b'0' && *digit >= b'1' && *digit <= b'9' {
                Some((*digit - b'0') as usize)
            } else {
                None
            }
        }
        _ => None,
    }
}

/// A text of zeros.
fn zeros(alloc: Global, count: usize) -> Result<String, AllocError>
    ensures { IfOk result (λ text. string_bytes text ≡ repeat count (codes "0")) }
{
    "0".repeat(alloc, count)
}

impl<'a> PartNames<'a> {
    ghost use Rattle.std.specs.Prelude.{◌≡◌, option_map, string_bytes, IfOk};
    ghost use Rattle.hagzimot_pieces.specs.PartNames.{pattern_in, pattern_view, name_of_part};

    /// The names of a pattern: a text with one `%d`, or `%04d` for at least four digits. `None` of
    /// any other text.
    pub fn new(pattern: &'a str) -> Option<PartNames<'a>>
        ensures { option_map pattern_view result ≡ pattern_in pattern.now }
    {
        let (front, rest) = split_at(pattern, '%')?;
        let (asked, rear) = split_at(rest, 'd')?;
        if rear.as_bytes().contains(&b'%') {
            return None;
        }
        let digits = digits_asked(asked.as_bytes())?;
        Some(PartNames {
            front,
            digits,
            rear,
        })
    }

    /// The name with a number.
    pub fn name(&self, alloc: Global, number: u64) -> Result<String, AllocError>
        ensures { IfOk result (λ name. string_bytes name
            ≡ name_of_part (pattern_view self.now) number) }
    {
        let digits = format!(in alloc; "{number}")?;
        let zeros = zeros(alloc, self.digits.saturating_sub(digits.len()))?;
        let (front, rear) = (self.front, self.rear);
        format!(in alloc; "{front}{zeros}{digits}{rear}")
    }
}
