//! Values of roots of words, stored in pointers: defaults, for builders of structs, and the values
//! of messages, for calls that are written into a message in place (`capnp_calls_edits`).
ghost use Rattle.std.specs.Prelude.{◌≡◌, ◌<◌, ◌^◌, true, Some, option_map, option_copied, IsSome, OnOk, IfErr};
ghost use Rattle.std.specs.Option.{is_some};
ghost use Rattle.capnp_model.specs.Decoding.{decode};
ghost use Rattle.capnp_model.specs.Schemas.{default_or_null};
ghost use Rattle.capnp_model.specs.Segments.{root, words_at};
ghost use Rattle.capnp_model.specs.Traversal.{tree_at};
ghost use Rattle.capnp_model.specs.Trees.{Tree};
ghost use Rattle.capnp_units.specs.Segments.{words_in};
ghost use Rattle.capnp_wire_objects.specs.Places.{place_view};
ghost use Rattle.capnp_copy_arenas.specs.Refusals.{IsSizeOrRefusal};
ghost use Rattle.capnp_copy_values.specs.Defaults.{default_segments, is_null_or_absent};
ghost use Rattle.capnp_records.specs.NodeViews.{kind_of_field, value_of};
ghost use Rattle.capnp_values.specs.Shown.{default_said};
ghost use Rattle.capnp_schema_structs.specs.Defaults.{default_chunks, default_words};
ghost use Rattle.capnp_schema_structs.specs.GroupRefusals.{CopyRefused};
ghost use Rattle.capnp_schema_structs.specs.GroupSets.{PutsAny, HoldsDefault};
ghost use Rattle.capnp_schema_structs.specs.Sources.{StandsIfRefused};

use capnp_copy_arenas::arena::BuilderArena;
use capnp_copy_values::copy::copy_from;
use capnp_records::node::{FieldBody, FieldRecord, Value};
use capnp_units::errors::Result;
use capnp_units::limiter::ReadLimiter;
use capnp_units::sizes::Word;
use capnp_wire::backing::{Backing, default_backing};
use capnp_wire_objects::arena::NullArena;
use capnp_wire_objects::place::{Place, ROOT, word_at};

/// The most levels of the value of a root.
const MOST_LEVELS: u32 = 64;

/// Returns the words of a segment's bytes, eight bytes each; bytes after the last whole word are
/// left out.
pub fn words_of(bytes: &[u8]) -> &[Word]
    ensures words { result.now ≡ default_chunks bytes.now }
    ensures value { IsSome (decode bytes.now)
        → HoldsDefault result.now (default_or_null (decode bytes.now)) }
{
    let (words, _) = bytes.as_chunks::<8>();
    words
}

/// Returns the default in a field's node; a group has no default.
pub fn default_said(field: &FieldRecord) -> Option<&Value>
    ensures { option_map value_of (option_copied result)
        ≡ default_said (kind_of_field field.now.body) }
{
    match &field.body {
        FieldBody::Slot { default, .. } => default.as_ref(),
        FieldBody::Group { .. } => None,
    }
}

/// Returns the words of the default of a struct or a list; `None` if there is no such default.
pub fn default_words(default: Option<&Value>) -> Option<&[Word]>
    ensures { option_copied result
        ≡ default_words (option_map value_of (option_copied default.entry)) }
{
    match default {
        Some(Value::Struct(bytes) | Value::List(bytes)) => Some(words_of(bytes)),
        _ => None,
    }
}

/// Returns whether the root of words is null; the root of no words is null.
pub fn has_null_root(words: &[Word]) -> bool
    ensures { result ≡ is_null_or_absent (default_segments words.now) root }
{
    let source: Backing<NullArena> = default_backing(words);
    word_at(&source, ROOT).unwrap_or(0) == 0
}

/// Replaces the value of the pointer at a place by the value of the root of words. It is refused
/// like the copy, without a limit of words:
/// - if the value can't be read, or is nested deeper than 64 levels;
/// - for lack of room, with `SizeOverflow` or with the allocator's error.
///
/// After a refusal all words are unchanged, and new words are zero.
pub fn copy_root<A: BuilderArena>(arena: &mut A, slot: Place, words: &[Word]) -> Result<()>
    requires there { is_some (words_at (words_in (A.segments arena.old)) (place_view slot) 1)
        ≡ true }
    requires near { slot.position < 2 ^ 61 }
    ensures puts { (t : Tree) → tree_at 64 (default_segments words.now) root ≡ Some t
        → OnOk result (PutsAny (words_in (A.segments arena.old)) (words_in (A.segments arena.new))
        (place_view slot) t) }
    ensures stands { StandsIfRefused (words_in (A.segments arena.old))
        (words_in (A.segments arena.new)) result }
    ensures why { IfErr result (CopyRefused (IsSizeOrRefusal A.refuses) 64
        (default_segments words.now) root (words_in (A.segments arena.new))) }
    ensures books { A.books arena.new ≡ A.books arena.old }
{
    let source: Backing<NullArena> = default_backing(words);
    let mut limiter = ReadLimiter::new(None);
    copy_from(arena, slot, &mut limiter, &source, ROOT, MOST_LEVELS)
}
