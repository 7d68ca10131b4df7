//! Values that are being made.

use crate::faults::ValueFault;
use crate::names::Names;
use crate::telling::refused;
use capnp_source_nodes::values::{Object, Parts};
use capnp_source_syntax::tree::Span;
use std::alloc::Global;

/// The number of words that a value may take: 64 MiB.
const MOST_WORDS: u64 = 1 << 23;

/// The number of elements that a list may have, or bytes that a text may have.
const MOST_ELEMENTS: u64 = (1 << 29) - 2;

/// The state in which a value is made.
#[derive(Drop)]
pub(crate) struct Making<'a, N: Names> {
    pub alloc: Global,
    pub names: &'a N,
    /// The number of words that may still be taken.
    left: u64,
}

impl<'a, N: Names> Making<'a, N> {
    pub(crate) fn new(alloc: Global, names: &'a N) -> Making<'a, N> {
        Making {
            alloc,
            names,
            left: MOST_WORDS,
        }
    }

    /// Takes words for the part of a value that is written at a place.
    pub(crate) fn take(&mut self, words: u64, span: Span) -> Result<(), ValueFault> {
        let taken = words.saturating_add(1);
        if self.left < taken {
            let text = "the value takes more than 64 MiB (make it smaller)";
            return Err(refused(self.alloc, span, text));
        }
        self.left -= taken;
        Ok(())
    }

    /// Returns the number of elements of a list, or of bytes.
    pub(crate) fn count(&mut self, count: usize, span: Span) -> Result<u32, ValueFault> {
        match u32::try_from(count) {
            Ok(count) if u64::from(count) <= MOST_ELEMENTS => Ok(count),
            _ => {
                let text = "the list has more than 536870910 elements (make it shorter)";
                Err(refused(self.alloc, span, text))
            }
        }
    }

    /// Returns the sections of a struct in which nothing is set.
    pub(crate) fn parts(
        &mut self,
        data_words: u16,
        pointers: u16,
        span: Span,
    ) -> Result<Parts, ValueFault> {
        self.take(u64::from(data_words) + u64::from(pointers), span)?;
        let alloc = self.alloc;
        let data = vec![in alloc; 0u8; 8 * usize::from(data_words)]?;
        let mut nulls = Vec::new(alloc);
        for _ in 0..pointers {
            nulls.push(Object::Null)?;
        }
        Ok(Parts {
            data,
            pointers: nulls,
        })
    }
}
