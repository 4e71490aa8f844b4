//! A run: contiguous bytes that one entry owns, or none.

use pmp_core::MAX_ENTRIES;

/// The greatest number of runs of a map: each entry adds at most two cuts.
pub const RUNS: usize = 2 * MAX_ENTRIES + 1;

/// Contiguous bytes that have one owner, the lowest-numbered entry that matches them (Volume II, 3.7.1.3).
#[derive(Clone, Copy, Debug, Default, PartialEq, Eq)]
pub struct Run {
    /// The byte address of its first byte.
    pub first: u64,
    /// The byte address of its last byte.
    pub last: u64,
    /// The entry's number, or none if no entry matches.
    pub owner: Option<u8>,
}
