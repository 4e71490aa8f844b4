//! The bytes that an entry matches, by their first and last address.

ghost use Rattle.std.specs.Prelude.{◌≡◌, ◌<◌, length};
ghost use Rattle.pmp_core.specs.Span.{IsSpan, span_in, span_of};

use crate::access::ADDRESS_LIMIT;
use crate::range::ByteRange;
use crate::registers::Registers;

/// At least one byte, contiguous, all below `2^56`.
#[derive(Clone, Copy, Debug, PartialEq, Eq)]
pub struct Span {
    /// The byte address of the first byte.
    pub first: u64,
    /// The byte address of the last byte.
    pub last: u64,
}

/// Returns the bytes of a range that have an address.
pub fn span_in(range: &ByteRange) -> Option<Span>
    ensures { result ≡ span_in range.now }
{
    let end = range.end.min(ADDRESS_LIMIT);
    if range.start < end {
        Some(Span {
            first: range.start,
            last: end - 1,
        })
    } else {
        None
    }
}

impl<'a> Registers<'a> {
    /// Returns the first and the last byte that the entry matches, if it matches any.
    pub fn span(&self, index: usize) -> Option<Span>
        requires { index < length self.now.entries }
        ensures by_bytes { IsSpan self.now index result }
        ensures computed { result ≡ span_of self.now index }
    {
        let _count = self.count();
        span_in(&self.range(index))
    }
}
