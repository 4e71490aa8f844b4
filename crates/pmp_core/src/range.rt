//! The bytes that an entry matches, as a range of byte addresses.

ghost use Rattle.std.specs.Prelude.{◌≡◌, ◌<◌, ◌↔◌, IsTrue, length};
ghost use Rattle.pmp_core.specs.Matching.{low_address};
ghost use Rattle.pmp_core.specs.Ranges.{IsInRange, napot_range, range_as, range_of, is_touched, is_covered};
ghost use Rattle.pmp_core.specs.declared.register_write.TheConstants.{WORD_ADDRESSES};

use crate::configuration::AddressMatching;
use crate::registers::Registers;

/// The byte addresses from `start` up to, but not including, `end`: none if `end` isn't above `start`.
#[derive(Clone, Copy, Debug, PartialEq, Eq)]
pub struct ByteRange {
    pub start: u64,
    pub end: u64,
}

impl ByteRange {
    pub const EMPTY: ByteRange = ByteRange { start: 0, end: 0 };

    pub fn contains(&self, byte: u64) -> bool
        ensures { IsTrue result ↔ IsInRange self.now byte }
    {
        self.start <= byte && byte < self.end
    }

    /// Whether it has one of the bytes from `start` up to, but not including, `end`.
    #[inline(always)]
    pub fn is_touched(&self, start: u64, end: u64) -> bool
        ensures { result ≡ is_touched start end self.now }
    {
        start < self.end && self.start < end && self.start < self.end && start < end
    }

    /// Whether it has all of them.
    pub fn is_covered(&self, start: u64, end: u64) -> bool
        ensures { result ≡ is_covered start end self.now }
    {
        self.start <= start && end <= self.end
    }
}

/// Returns the naturally aligned power of two that the word address encodes.
#[inline(always)]
fn napot_range(address: u64) -> ByteRange
    requires { address < WORD_ADDRESSES }
    ensures { result ≡ napot_range address }
{
    let above = address + 1;
    ByteRange {
        start: (address & above) << 2,
        end: ((address | above) + 1) << 2,
    }
}

impl<'a> Registers<'a> {
    /// Returns the address register before the entry's own, and 0 for the first entry.
    #[inline(always)]
    #[tactic(auto, using(crate::proofs::Places::low_rules))]
    fn low_address(&self, index: usize) -> u64
        requires { index < length self.now.entries }
        ensures low { result ≡ low_address self.now.entries index }
        ensures most { result < WORD_ADDRESSES }
    {
        match index.checked_sub(1) {
            Some(before) => self.address(before),
            None => 0,
        }
    }

    /// Returns the range that the entry would match with this mode. The address before it is read for TOR alone.
    #[inline(always)]
    pub(crate) fn range_by(&self, index: usize, matching: AddressMatching) -> ByteRange
        requires { index < length self.now.entries }
        ensures { result ≡ range_as self.now.profile self.now.entries matching index }
    {
        let address = self.address(index);
        if matching == AddressMatching::Napot {
            napot_range(self.hart().napot_address(address))
        } else if matching == AddressMatching::Tor {
            ByteRange {
                start: 4 * self.hart().tor_address(self.low_address(index)),
                end: 4 * self.hart().tor_address(address),
            }
        } else if matching == AddressMatching::Na4 {
            ByteRange {
                start: 4 * address,
                end: 4 * address + 4,
            }
        } else {
            ByteRange::EMPTY
        }
    }

    /// Returns the range that the entry matches.
    #[inline(always)]
    pub fn range(&self, index: usize) -> ByteRange
        requires { index < length self.now.entries }
        ensures { result ≡ range_of self.now index }
    {
        self.range_by(index, self.matching(index))
    }
}
