//! Texts and data in the form of messages.
ghost use Rattle.std.specs.Prelude.{◌≡◌, ◌*◌, ◌^◌, ◌<◌, length};
ghost use Rattle.capnp_model.specs.Sections.{section_of, words_for, words_of};
ghost use Rattle.capnp_wire_canonical.specs.Writes.{words_view};

use capnp_units::sizes::Word;

/// The bytes of a text, with its zero byte, or of data, in the words in which a message holds them.
#[derive(Debug, Drop)]
pub struct Blob {
    /// The number of bytes, including a text's zero byte.
    pub len: u32,
    /// The bytes, followed by zeros in the last word.
    pub words: Vec<Word>,
    pub ghost few: { len < 2 ^ 29 },
    pub ghost room: { length words.items ≡ words_for (8 * len) },
    pub ghost spelled: { words_of (words_for (8 * len)) (section_of (words_view words.items))
        ≡ words_view words.items },
    pub ghost fits: { section_of (words_view words.items) < 2 ^ (8 * len) },
}
