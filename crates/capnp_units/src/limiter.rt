//! A budget of words for reading.
ghost use Rattle.std.specs.Prelude.{◌≡◌, ◌≤◌, Some, None, IfSome, IfErr, OnErr, OnOk};
ghost use Rattle.std.specs.Bool.{OnTrue, OnFalse};
ghost use Rattle.std.specs.Option.{ForSome};
ghost use Rattle.capnp_units.specs.declared.kinds.ErrorKind.TheVariants.{ReadLimitExceeded};

use crate::errors::{Error, Result};
use crate::kinds::ErrorKind;

/// The number of words that may still be read, and of those that were read so far.
///
/// The granted words never exceed the limit, if there is one.
#[derive(Debug, Drop)]
pub struct ReadLimiter {
    limit: Option<u64>,
    granted: u64,
    followed: u64,
    ghost within: { ForSome limit (λ most. granted ≤ most) },
}

impl ReadLimiter {
    ghost use Rattle.capnp_units.specs.Limits.{limit_of, left_of, granted_of, followed_of, Spends, IsPassed, Follows};

    /// Makes a budget of n words, or without a limit. Nothing was granted from it yet.
    pub fn new(limit: Option<u64>) -> ReadLimiter
        ensures limit { limit_of result ≡ limit }
        ensures left { left_of result ≡ limit }
        ensures granted { granted_of result ≡ 0 }
        ensures followed { followed_of result ≡ 0 }
    {
        ReadLimiter {
            limit,
            granted: 0,
            followed: 0,
        }
    }

    /// Returns the words that were granted. The count stops at 2^64 - 1.
    pub fn granted(&self) -> u64
        ensures value { result ≡ granted_of self.now }
        ensures within { IfSome (limit_of self.now) (λ most. result ≤ most) }
    {
        self.granted
    }

    /// Grants n words. If they exceed the words that are left, they are refused with
    /// `ReadLimitExceeded`, and nothing changes.
    pub fn charge(&mut self, words: u64) -> Result<()>
        ensures ok { OnOk result (Spends self.old self.new words) }
        ensures refused { OnErr result ((self.new ≡ self.old) × IsPassed (left_of self.old) words) }
        ensures kind { IfErr result (λ e. e.kind ≡ ReadLimitExceeded) }
        ensures followed { followed_of self.new ≡ followed_of self.old }
    {
        if let Some(limit) = self.limit {
            if limit - self.granted < words {
                return Err(Error::from(ErrorKind::ReadLimitExceeded));
            }
        }
        self.granted = self.granted.saturating_add(words);
        Ok(())
    }

    /// Returns the number of source pointers that were followed. The count stops at 2^64 - 1.
    pub fn followed(&self) -> u64
        ensures { result ≡ followed_of self.now }
    {
        self.followed
    }

    /// Counts one more source pointer.
    pub fn follow(&mut self)
        ensures followed { Follows self.old self.new 1 }
        ensures limit { limit_of self.new ≡ limit_of self.old }
        ensures granted { granted_of self.new ≡ granted_of self.old }
    {
        self.followed = self.followed.saturating_add(1);
    }

    /// Counts one more source pointer, grants the n words of its object and returns true, if that
    /// many words are left. Otherwise it returns false, and nothing changes.
    #[inline(always)]
    pub fn follow_for(&mut self, words: u64) -> bool
        ensures granted { OnTrue result (Spends self.old self.new words) }
        ensures followed { OnTrue result (Follows self.old self.new 1) }
        ensures refused { OnFalse result
            ((self.new ≡ self.old) × IsPassed (left_of self.old) words) }
    {
        if let Some(limit) = self.limit {
            if limit - self.granted < words {
                return false;
            }
        }
        self.granted = self.granted.saturating_add(words);
        self.followed = self.followed.saturating_add(1);
        true
    }
}
