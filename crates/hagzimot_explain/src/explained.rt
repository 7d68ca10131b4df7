//! A message, word for word.
ghost use Rattle.std.specs.Prelude.{IfOk};
ghost use Rattle.capnp_units.specs.Segments.{words_in};
ghost use Rattle.hagzimot_explain.specs.Explanations.{IsExplained};

use crate::marking::words_by;
use crate::marks::Word;
use crate::pointers::{Pointers, pointers_of};
use capnp_units::segments::ReaderSegments;
use capnp_wire_objects::arena::ReaderArenaImpl;
use std::alloc::{AllocError, Global};

/// The words of a message, with what they are.
#[derive(Debug, Drop)]
pub struct Explanation {
    /// The words of each segment.
    pub words: Vec<Vec<Word>>,
    /// The pointers that the root leads to.
    pub pointers: Pointers,
}

/// Returns what each word of a message is, by a walk from its root pointer on that follows each
/// pointer once, at any depth.
///
/// Each pointer that is followed costs a word, and the words of its object. If the next would cost
/// more than is left of the n words, the walk ends, and words further on may count as not reached.
/// A walk over a message in which no words are shared costs no more than its words and one more.
/// `AllocError`: an allocation was refused.
pub fn explain<S: ReaderSegments>(
    alloc: Global,
    segments: &S,
    words: u64,
) -> Result<Explanation, AllocError>
    ensures { IfOk result (IsExplained (words_in (S.segments segments.now)) words) }
{
    let arena = ReaderArenaImpl::new(segments, 0);
    let pointers = pointers_of(alloc, segments, &arena, words)?;
    let marked = words_by(alloc, segments, &arena, pointers.places.as_slice())?;
    Ok(Explanation {
        words: marked,
        pointers,
    })
}
