//! The progress of entries towards what a plan asks for.

use crate::cost::cost;
use crate::parts::{PARTS, Parts};
use pmp_core::ByteRange;

/// The greatest number of entries that are searched for: more than a hart has, to report how many a plan takes.
pub const FOUND: usize = 96;

/// An entry: its configuration byte, its word address, and which of the parts it was chosen for.
#[derive(Clone, Copy, PartialEq, Eq)]
pub struct Chosen {
    pub configuration: u8,
    pub address: u64,
    pub part: usize,
}

/// The first entries, and what they leave to later ones.
#[derive(Clone, Copy)]
pub struct State {
    /// The bytes of each part that no entry owns yet.
    pub left: [ByteRange; PARTS],
    /// Where the range of a TOR entry after the last one can usefully begin.
    pub chain: Option<u64>,
    /// Whether all entries are frozen.
    pub is_frozen: bool,
    /// A rough estimate of the entries that the rest takes.
    pub cost: usize,
    pub entries: [Chosen; FOUND],
    pub count: usize,
}

impl State {
    /// Returns the state in which nothing is left.
    pub fn new() -> State {
        State {
            left: [ByteRange::EMPTY; PARTS],
            chain: Some(0),
            is_frozen: true,
            cost: 0,
            entries: [Chosen {
                configuration: 0,
                address: 0,
                part: 0,
            }; FOUND],
            count: 0,
        }
    }

    /// Returns the state without entries.
    pub fn beginning(parts: &Parts) -> State {
        let mut state = State::new();
        for index in 0..PARTS {
            state.left[index] = parts.list[index].bytes;
        }
        state.cost = cost(parts, &state.left, state.chain);
        state
    }

    /// Returns the entries, in order.
    pub fn entries(&self) -> &[Chosen] {
        &self.entries[..self.count.min(FOUND)]
    }

    /// Returns how many of the entries were chosen for the part that begins at this byte.
    pub fn chosen_at(&self, parts: &Parts, byte: u64) -> usize {
        let mut count = 0usize;
        for entry in self.entries() {
            match parts.list.get(entry.part) {
                Some(part) if part.bytes.start == byte => count = count.saturating_add(1),
                _ => {}
            }
        }
        count
    }

    /// Whether the same is left, and the same can come next.
    pub fn is_same(&self, other: &State) -> bool {
        self.left == other.left && self.chain == other.chain && self.is_frozen == other.is_frozen
    }

    /// Returns the rest of a part, if anything is left of it.
    pub fn left_of(&self, index: usize) -> Option<ByteRange> {
        match self.left.get(index) {
            Some(left) if left.start < left.end => Some(*left),
            _ => None,
        }
    }

    /// Returns the bytes around the rest of a part in which an entry for it meets no rest that asks for another.
    pub fn room(&self, parts: &Parts, index: usize, is_frozen: bool) -> ByteRange {
        let mut room = ByteRange {
            start: 0,
            end: parts.end(),
        };
        let (Some(here), Some(part)) = (self.left_of(index), parts.list.get(index)) else {
            return ByteRange::EMPTY;
        };
        for other in 0..PARTS {
            let (Some(left), Some(next)) = (self.left_of(other), parts.list.get(other)) else {
                continue;
            };
            let is_one = next.demand.rights == part.demand.rights;
            if is_one && (is_frozen || !next.demand.is_locked) {
                continue;
            }
            if left.end <= here.start {
                room.start = room.start.max(left.end);
            } else {
                room.end = room.end.min(left.start);
            }
        }
        room
    }

    /// Returns the state after one more entry, which owns the unowned ones of these bytes.
    pub fn behind(&self, parts: &Parts, entry: Chosen, bytes: ByteRange, is_frozen: bool) -> State {
        let mut next = *self;
        next.push(entry);
        for index in 0..PARTS {
            next.left[index] = without(self.left[index], bytes);
        }
        next.is_frozen = is_frozen;
        next.chain = next.chain_from(parts.hart.tor_address(entry.address).saturating_mul(4));
        next.cost = cost(parts, &next.left, next.chain);
        next
    }

    fn push(&mut self, entry: Chosen) {
        if let Some(place) = self.entries.get_mut(self.count) {
            *place = entry;
        }
        self.count = self.count.saturating_add(1);
    }

    /// Returns where the first bytes begin that a range from this byte on can have.
    fn chain_from(&self, byte: u64) -> Option<u64> {
        let mut found = None;
        for index in 0..PARTS {
            match self.left_of(index) {
                Some(left) if left.start >= byte => {
                    found = Some(left.start.min(found.unwrap_or(left.start)));
                }
                Some(left) if left.end > byte => return None,
                _ => {}
            }
        }
        found
    }
}

/// Returns what the bytes leave of a range: none of them at its beginning or its end.
fn without(left: ByteRange, bytes: ByteRange) -> ByteRange {
    if left.start >= left.end || bytes.end <= left.start || left.end <= bytes.start {
        left
    } else if bytes.start <= left.start {
        ByteRange {
            start: bytes.end.min(left.end),
            end: left.end,
        }
    } else if bytes.end >= left.end {
        ByteRange {
            start: left.start,
            end: bytes.start,
        }
    } else {
        left
    }
}
