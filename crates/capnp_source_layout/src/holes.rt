//! The free places of a data section.

ghost use Rattle.std.specs.Prelude.{◌≡◌, ℕ, ◌≤◌, ◌+◌, ◌/◌, ◌^◌, ◌==◌, length, if◌then◌else◌, IfSome, IfNone};
ghost use Rattle.capnp_source_layout.specs.Holes.{place, free};

/// Takes the first place of `2 ^ size` bits in a section of `words` words: a hole of this size, or
/// the front half of a place of twice the size. If no hole is large enough, a word is added.
///
/// Returns `None` if the offset would pass 2^63. Words and holes are of no use then.
pub fn place(size: usize, words: &mut u64, holes: &mut [Option<u64>]) -> Option<u64>
    ensures offset { IfSome result (λ r. r ≡ (place size words.old holes.old).offset) }
    ensures words { IfSome result (λ _. words.new ≡ (place size words.old holes.old).words) }
    ensures holes { IfSome result (λ _. holes.new ≡ (place size words.old holes.old).holes) }
    ensures grown { words.old ≤ words.new }
    ensures large { IfNone result (2 ^ 63 ≤ (place size words.old holes.old).offset) }
{
    if size >= holes.len() {
        let offset = *words;
        *words = offset.checked_add(1)?;
        return Some(offset);
    }
    if let Some(hole) = holes[size] {
        holes[size] = None;
        return Some(hole);
    }
    let twice = place(size + 1, words, holes)?;
    let offset = twice.checked_mul(2)?;
    holes[size] = Some(offset.checked_add(1)?);
    Some(offset)
}
