//! Texts and data made of bytes.
ghost use Rattle.std.specs.Prelude.{◌≡◌, ℕ, ◌+◌, ◌*◌, ◌/◌, ◌%◌, ◌^◌, ◌<◌, ◌≤◌, length, IfOk, IfErr, IfSome, IsSome};
ghost use Rattle.std.specs.Int.{from_le_bytes, w64};
ghost use Rattle.capnp_model.specs.Sections.{number_of, section_of};
ghost use Rattle.capnp_model.specs.Calls.{blob_tree, text_tree};
ghost use Rattle.capnp_units.specs.declared.kinds.ErrorKind.{ErrorKind};
ghost use Rattle.capnp_wire_canonical.specs.Writes.{words_view};
ghost use Rattle.capnp_calls_splice.specs.Blobs.{tree_of_blob};

use crate::blob::Blob;
use capnp_copy_arenas::allocator::write_in;
use capnp_units::errors::Result;
use capnp_units::limits::MOST_WORDS;
use capnp_units::primitive::Primitive;
use capnp_units::sizes::Word;
use std::alloc::Global;

impl Blob {
    /// Makes a text of these bytes, followed by a zero byte; `None` if these are 2^29 bytes or
    /// more. `OutOfMemory`: the memory for its words was refused.
    pub fn text(alloc: Global, bytes: &[u8]) -> Result<Option<Blob>>
        ensures tree { IfOk result (λ found. IfSome found (λ b.
            tree_of_blob b ≡ text_tree bytes.now)) }
        ensures some { length bytes.now + 1 < 2 ^ 29 → IfOk result IsSome }
        ensures kind { IfErr result (λ e. e.kind ≡ ErrorKind.OutOfMemory) }
    {
        if bytes.len() >= MOST_WORDS as usize {
            return Ok(None);
        }
        let blob = blob_of(alloc, bytes, bytes.len() as u32 + 1)?;
        Ok(Some(blob))
    }

    /// Makes data of these bytes; `None` if they are 2^29 or more. `OutOfMemory`: the memory for
    /// its words was refused.
    pub fn data(alloc: Global, bytes: &[u8]) -> Result<Option<Blob>>
        ensures tree { IfOk result (λ found. IfSome found (λ b.
            tree_of_blob b ≡ blob_tree bytes.now)) }
        ensures some { length bytes.now < 2 ^ 29 → IfOk result IsSome }
        ensures kind { IfErr result (λ e. e.kind ≡ ErrorKind.OutOfMemory) }
    {
        if bytes.len() > MOST_WORDS as usize {
            return Ok(None);
        }
        let blob = blob_of(alloc, bytes, bytes.len() as u32)?;
        Ok(Some(blob))
    }
}

/// Returns the word of eight bytes, counted in words from the first byte on; missing bytes are
/// zeros.
fn word_in(bytes: &[u8], i: usize) -> Word
    requires { 8 * i ≤ length bytes.now }
    ensures { from_le_bytes w64 result ≡ number_of 8 bytes.now / 2 ^ (64 * i) % 2 ^ 64 }
{
    let rest = &bytes[8 * i..];
    let part = &rest[..rest.len().min(8)];
    let mut word = [0; 8];
    write_in(&mut word[..], 0, part);
    u64::get(&word).to_le_bytes()
}

/// Makes a list of n bytes: these, followed by at most one zero byte.
fn blob_of(alloc: Global, bytes: &[u8], len: u32) -> Result<Blob>
    requires few { len < 2 ^ 29 }
    requires all { (length bytes.now ≤ len) × (len ≤ length bytes.now + 1) }
    ensures tree { IfOk result (λ b. (b.len ≡ len)
        × (section_of (words_view b.words.items) ≡ number_of 8 bytes.now)) }
    ensures kind { IfErr result (λ e. e.kind ≡ ErrorKind.OutOfMemory) }
{
    let count = (len as usize + 7) / 8;
    let mut words = Vec::with_capacity(alloc, count)?;
    for i in 0..count {
        words.push(word_in(bytes, i))?;
    }
    Ok(Blob { len, words })
}
