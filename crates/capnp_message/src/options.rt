//! Limits of reading messages.
ghost use Rattle.std.specs.Prelude.{◌≡◌};
ghost use Rattle.capnp_units.specs.Limits.{limit_of, granted_of, followed_of};
ghost use Rattle.capnp_message.specs.Options.{default_options};

use capnp_units::limiter::ReadLimiter;

/// The limits under which a message is read.
#[derive(Clone, Copy, Debug, PartialEq, Eq)]
pub struct ReaderOptions {
    /// The most words of a message that is read from bytes. It is also the most words of the
    /// objects that are followed in it, if its limiter is made of these options. `None`: any
    /// number.
    pub traversal_limit_in_words: Option<usize>,
    /// The most levels of pointers, the root's the first. Under a negative limit only null is read.
    pub nesting_limit: i32,
}

/// 8,388,608 words, which are 64 MiB, and 64 levels.
pub const DEFAULT_READER_OPTIONS: ReaderOptions = ReaderOptions {
    traversal_limit_in_words: Some(8_388_608),
    nesting_limit: 64,
};

impl ReaderOptions {
    /// 8,388,608 words, which are 64 MiB, and 64 levels.
    pub fn new() -> ReaderOptions
        ensures { result ≡ default_options }
    {
        DEFAULT_READER_OPTIONS
    }

    /// Sets the most levels of pointers.
    pub fn nesting_limit(&mut self, value: i32) -> &mut Self
        ensures same { result.ghost_name ≡ self.entry.ghost_name }
        ensures set { result.now.nesting_limit ≡ value }
        ensures kept { result.now.traversal_limit_in_words ≡ self.old.traversal_limit_in_words }
    {
        self.nesting_limit = value;
        self
    }

    /// Sets the most words.
    pub fn traversal_limit_in_words(&mut self, value: Option<usize>) -> &mut Self
        ensures same { result.ghost_name ≡ self.entry.ghost_name }
        ensures set { result.now.traversal_limit_in_words ≡ value }
        ensures kept { result.now.nesting_limit ≡ self.old.nesting_limit }
    {
        self.traversal_limit_in_words = value;
        self
    }

    /// Returns a budget of the most words, with none granted yet.
    pub fn read_limiter(&self) -> ReadLimiter
        ensures limit { limit_of result ≡ self.now.traversal_limit_in_words }
        ensures granted { granted_of result ≡ 0 }
        ensures followed { followed_of result ≡ 0 }
    {
        match self.traversal_limit_in_words {
            Some(words) => ReadLimiter::new(Some(words as u64)),
            None => ReadLimiter::new(None),
        }
    }
}

impl Default for ReaderOptions {
    ghost is_default = { λ o. o ≡ default_options };

    fn default() -> ReaderOptions {
        DEFAULT_READER_OPTIONS
    }
}
