//! Structs that take over the values of messages.
ghost use Rattle.std.specs.Prelude.{◌≡◌, Some, IfErr, OnOk};
ghost use Rattle.capnp_model.specs.Calls.{message_root};
ghost use Rattle.capnp_model.specs.Segments.{root};
ghost use Rattle.capnp_model.specs.Traversal.{tree_at};
ghost use Rattle.capnp_model.specs.Trees.{Tree};
ghost use Rattle.capnp_units.specs.Segments.{words_in};
ghost use Rattle.capnp_copy_arenas.specs.Refusals.{IsSizeOrRefusal};
ghost use Rattle.capnp_copy_values.specs.Defaults.{default_segments};
ghost use Rattle.capnp_schema_structs.specs.Edits.{IsThere};
ghost use Rattle.capnp_calls_edits.specs.Elements.{TakesTree, IsOfStruct};
ghost use Rattle.capnp_calls_edits.specs.Behind.{BytesGrowAround};

use capnp_copy_arenas::arena::BuilderArena;
use capnp_copy_arenas::fields::StructPlace;
use capnp_copy_values::contents::copy_content_from;
use capnp_units::errors::{Error, Result};
use capnp_units::kinds::ErrorKind;
use capnp_units::limiter::ReadLimiter;
use capnp_units::sizes::Word;
use capnp_wire::backing::{Backing, default_backing};
use capnp_wire_objects::arena::NullArena;
use capnp_wire_objects::object::{Object, object_at};
use capnp_wire_objects::place::{Place, ROOT};

/// The most levels of the children of the value of a message: one less than the 64 of the value.
const INNER_LEVELS: u32 = 63;

/// Copies the content of the root of words into a struct, as far as it fits; a null root counts as
/// the empty struct. A root that is not a struct is refused with `TypeMismatch`.
pub(crate) fn copy_content<A: BuilderArena>(
    arena: &mut A,
    object: StructPlace,
    words: &[Word],
) -> Result<()>
    requires there { IsThere (words_in (A.segments arena.old)) object }
    ensures takes { (t : Tree) → tree_at 64 (default_segments words.now) root ≡ Some t
        → OnOk result (TakesTree (words_in (A.segments arena.old))
        (words_in (A.segments arena.new)) object (message_root t)) }
    ensures grows { BytesGrowAround (A.segments arena.old) (A.segments arena.new) object }
    ensures cause { (t : Tree) → tree_at 64 (default_segments words.now) root ≡ Some t
        → IsOfStruct t → IfErr result (IsSizeOrRefusal A.refuses) }
    ensures books { A.books arena.new ≡ A.books arena.old }
{
    let source: Backing<NullArena> = default_backing(words);
    let found = object_at(&source, ROOT)?;
    let mut limiter = ReadLimiter::new(None);
    match found.object {
        Object::Null => {
            let none: &[u8] = &[];
            copy_content_from(
                arena,
                object,
                &mut limiter,
                &source,
                none,
                ROOT,
                0,
                INNER_LEVELS,
            )
        }
        Object::Struct {
            start,
            data_words,
            pointers,
        } => {
            let section = source.lend(start, data_words as usize);
            let first = Place {
                segment: start.segment,
                position: start.position + data_words as usize,
            };
            copy_content_from(
                arena,
                object,
                &mut limiter,
                &source,
                section,
                first,
                pointers,
                INNER_LEVELS,
            )
        }
        _ => Err(Error::from(ErrorKind::TypeMismatch)),
    }
}
