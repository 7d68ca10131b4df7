//! Roots of messages whose bytes may be anything.
ghost use Rattle.std.specs.Prelude.{◌≡◌};
ghost use Rattle.std.specs.Result.{result_ok};
ghost use Rattle.capnp_model.specs.Chains.{passes};
ghost use Rattle.capnp_model.specs.Segments.{root};
ghost use Rattle.capnp_model.specs.Pointers.{found_at};
ghost use Rattle.capnp_model.specs.Visits.{visits};
ghost use Rattle.capnp_units.specs.Segments.{words_in};
ghost use Rattle.capnp_wire_objects.specs.Named.{named_view};
ghost use Rattle.hagzimot_salvage.specs.Roots.{is_root, is_limit, is_clear, half_of, has_root};

use capnp_units::errors::Error;
use capnp_units::kinds::ErrorKind;
use capnp_units::limiter::ReadLimiter;
use capnp_units::segments::ReaderSegments;
use capnp_wire_objects::arena::{ReaderArena, ReaderArenaImpl};
use capnp_wire_objects::named::{NamedObject, found_at};
use capnp_wire_objects::place::ROOT;
use capnp_wire_objects::size::size_at;

/// Limits within which bytes are taken for a message.
#[derive(Clone, Copy, Debug, PartialEq, Eq)]
pub struct SalvageLimits {
    /// The most words that a message may have, without its table.
    pub message_words: usize,
    /// The words of a root's value that are looked at, in the order of reading.
    pub root_words: u32,
    /// The most levels of pointers, the root's the first.
    pub nesting: u32,
}

/// Returns whether an object can be a root: null, or a struct.
fn is_root(object: NamedObject) -> bool
    ensures { result ≡ is_root (named_view object) }
{
    match object {
        NamedObject::Null | NamedObject::Struct { .. } => true,
        NamedObject::List { .. } | NamedObject::Capability { .. } => false,
    }
}

/// Returns whether the root pointer leads to null or to a struct.
fn names_root<A: ReaderArena>(arena: &A) -> bool
    ensures { result ≡ passes (λ f. is_root f.object)
        (result_ok (found_at (words_in (A.segments arena.now)) root)) }
{
    match found_at(arena, ROOT) {
        Ok(found) => is_root(found.object),
        Err(_) => false,
    }
}

/// Returns whether a refusal is only that of the budget.
fn is_limit(e: Error) -> bool
    ensures { result ≡ is_limit e.kind }
{
    match e.kind {
        ErrorKind::ReadLimitExceeded => true,
        _ => false,
    }
}

/// Returns whether no fault is met in the first words of the root's value, and the value costs n
/// words or more.
fn is_clear<A: ReaderArena>(arena: &A, least: u64, root_words: u32, nesting: u32) -> bool
    ensures { result ≡ is_clear root_words least
        (visits nesting (words_in (A.segments arena.now)) root) }
{
    let mut limiter = ReadLimiter::new(Some(root_words as u64));
    match size_at(arena, &mut limiter, ROOT, nesting) {
        Ok(_) => least <= limiter.granted(),
        Err(e) => is_limit(e),
    }
}

/// Returns half of a message's words, without the first of its table and the root pointer.
fn half_of(words: usize) -> u64
    ensures { result ≡ half_of words }
{
    (words.saturating_sub(2) / 2) as u64
}

/// Returns whether the root of a message of n words, including its table, is null or a struct, no
/// fault is met in the first words of its value, and the value takes half of the message or more,
/// as far as it is followed.
///
/// It takes a step for each pointer that it follows: at most one more than `root_words`.
pub fn has_root<S: ReaderSegments + Drop>(segments: S, words: usize, limits: SalvageLimits) -> bool
    ensures { result ≡ has_root limits words (words_in (S.segments segments)) }
{
    let arena = ReaderArenaImpl::new(segments, 0);
    names_root(&arena) && is_clear(&arena, half_of(words), limits.root_words, limits.nesting)
}
