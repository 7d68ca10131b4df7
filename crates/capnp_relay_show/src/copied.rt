//! The canonical words of a message's value.
ghost use Rattle.std.specs.Prelude.{[], ◌∷◌, IfOk, IfErr};
ghost use Rattle.std.specs.List.{flat_map};
ghost use Rattle.capnp_units.specs.Segments.{words_in};
ghost use Rattle.capnp_relay_show.specs.Copied.{IsCopy, IsNoCopy};

use crate::show::ShowFault;
use capnp_message::message::ReaderOptions;
use capnp_model::laws::{sizes_of_values, values_on_walks};
use capnp_units::limits::MOST_WORDS;
use capnp_units::segments::ReaderSegments;
use capnp_units::sizes::{SegmentId, Word, words_as_bytes};
use capnp_wire_canonical::copy::write_canonical;
use capnp_wire_canonical::laws::{copies_as_walks, segments_of_words};
use capnp_wire_objects::arena::ReaderArena;
use capnp_wire_objects::place::ROOT;
use capnp_wire_objects::size::size_at;
use std::alloc::Global;

/// The canonical words of a value, a message of one segment.
#[derive(Drop)]
pub(crate) struct CanonicalMessage {
    words: Vec<Word>,
}

impl ReaderSegments for CanonicalMessage {
    ghost use Rattle.std.specs.Prelude.{List, [], ◌∷◌};
    ghost use Rattle.std.specs.List.{flat_map};

    ghost segments = { λ m. flat_map (λ word. word) m.words.items ∷ [] };

    fn get_segment(&self, id: SegmentId) -> Option<&[u8]> {
        if id == 0 {
            Some(words_as_bytes(&self.words))
        } else {
            None
        }
    }

    fn len(&self) -> usize {
        1
    }
}

/// Returns the canonical words of the value of a message, which is within the limits and has no
/// capability.
pub(crate) fn copied<A: ReaderArena>(
    alloc: Global,
    message: &A,
    levels: u32,
    options: ReaderOptions,
) -> Result<CanonicalMessage, ShowFault>
    ensures copy { IfOk result (λ v. IsCopy levels options.traversal_limit_in_words
        (words_in (A.segments message.now))
        (words_in (flat_map (λ word. word) v.words.items ∷ []))) }
    ensures refused { IfErr result (IsNoCopy levels options.traversal_limit_in_words
        (words_in (A.segments message.now))) }
{
    values_on_walks();
    sizes_of_values();
    copies_as_walks();
    let mut limiter = options.read_limiter();
    let Ok(size) = size_at(message, &mut limiter, ROOT, levels) else {
        return Err(ShowFault::Value);
    };
    if size.cap_count != 0 {
        return Err(ShowFault::Value);
    }
    let room = limiter.granted().min(MOST_WORDS as u64 - 1) as usize + 1;
    let mut words = Vec::new(alloc);
    if words.resize(room, [0; 8]).is_err() {
        return Err(ShowFault::Memory);
    }
    let mut limiter = options.read_limiter();
    match write_canonical(message, &mut limiter, ROOT, levels, &mut words) {
        Ok(end) => {
            words.truncate(end);
            segments_of_words(&words);
            Ok(CanonicalMessage { words })
        }
        Err(_) => Err(ShowFault::Size),
    }
}
