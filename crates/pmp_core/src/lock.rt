//! How entries are locked.

/// What writes may do to an entry's configuration (Volume II, 3.7.1.2, and Smepmp).
#[derive(Clone, Copy, Debug, PartialEq, Eq)]
pub enum Lock {
    /// The lock bit is clear: writes change the entry.
    Open,
    /// The lock bit is set, but so is RLB: writes change the entry.
    Bypassed,
    /// The entry is frozen: until a reset, writes leave it as it is.
    Frozen,
}
