//! The moments since which an entry is frozen, and since which it is held.

/// The numbers of the publications since which an entry is frozen and held, none where it isn't.
#[derive(Clone, Copy)]
pub struct Since {
    /// Since when the entry is frozen.
    pub frozen: Option<u64>,
    /// Since when the entry is held: it and all entries before it are frozen.
    pub held: Option<u64>,
}
