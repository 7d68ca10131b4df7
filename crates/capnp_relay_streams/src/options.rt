//! The options of a relay.
ghost use Rattle.std.specs.Prelude.{◌≡◌, ◌+◌, ◌*◌, IfOk, IfErr};
ghost use Rattle.capnp_relay_streams.specs.Options.{IsOf, IsOptionsRefusal, as_plain};

pub use capnp_message::options::ReaderOptions;
use capnp_relay_answers::bounds::Bounds;
use capnp_units::limits::MOST_WORDS;

/// The form in which messages are written as bytes.
#[derive(Clone, Copy, Debug, PartialEq, Eq)]
pub enum Form {
    /// A table of the segments' lengths, and the segments.
    Framed,
    /// A table and the segments, packed.
    Packed,
}

/// The reason for which options are refused.
#[derive(Clone, Copy, Debug, PartialEq, Eq, thiserror::Error)]
pub enum OptionsFault {
    /// There is no limit of words.
    #[error("no limit of words")]
    NoWordLimit,
    /// The limit of words is 2^29 - 1 or more.
    #[error("the limit of words is too large")]
    WordLimitTooLarge,
    /// The limit of levels is negative.
    #[error("the limit of levels is negative")]
    NegativeNesting,
}

/// The forms of a relay's input and output, its limits of following messages, and the form in which
/// they go out: the plain form or, from `new`, the canonical form.
#[derive(Clone, Copy)]
pub struct RelayOptions {
    pub(crate) input: Form,
    pub(crate) output: Form,
    pub(crate) bounds: Bounds,
    pub(crate) plain: bool,
}

impl RelayOptions {
    /// Makes the options of these forms and limits, in the canonical form.
    pub fn new(
        input: Form,
        output: Form,
        options: ReaderOptions,
    ) -> Result<RelayOptions, OptionsFault>
        ensures options { IfOk result (IsOf input output options) }
        ensures refused { IfErr result (IsOptionsRefusal options) }
    {
        let Some(words) = options.traversal_limit_in_words else {
            return Err(OptionsFault::NoWordLimit);
        };
        if words >= MOST_WORDS as usize {
            return Err(OptionsFault::WordLimitTooLarge);
        }
        if options.nesting_limit < 0 {
            return Err(OptionsFault::NegativeNesting);
        }
        Ok(RelayOptions {
            input,
            output,
            bounds: Bounds {
                words: words as u32,
                nesting: options.nesting_limit as u32,
            },
            plain: false,
        })
    }

    /// Returns these options in the plain form: each message goes out as one frame of its 1 to 511
    /// segments as they are built, not trimmed.
    pub fn plain(self) -> RelayOptions
        ensures { result ≡ as_plain self }
    {
        RelayOptions {
            plain: true,
            ..self
        }
    }

    /// Returns the number of bytes of the region of a relay: 8 for each word of the word limit, and
    /// 8 more.
    pub fn region_len(&self) -> usize
        ensures { result ≡ 8 * (self.now.bounds.words + 1) }
    {
        8 * (self.bounds.words as usize + 1)
    }
}
