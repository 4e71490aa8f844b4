//! The possible next entries.

use crate::choices::{LOCK, holds};
use crate::level::Levels;
use crate::parts::{PARTS, Parts};
use crate::state::{Chosen, State};
use pmp_core::ByteRange;

/// The field A of a configuration byte: top of range.
pub const TOR: u8 = 8;

/// The field A of a configuration byte: naturally aligned four bytes.
const NA4: u8 = 16;

/// The field A of a configuration byte: a naturally aligned power of two of eight bytes or more.
const NAPOT: u8 = 24;

/// An entry for the rest of a part: its rule, and where it may match.
#[derive(Clone, Copy)]
struct Candidate {
    part: usize,
    rule: u8,
    /// Whether it and all entries before it are frozen.
    is_frozen: bool,
    /// The first byte of the rest of the part.
    first: u64,
    /// The bytes in which no rest of a part asks for anything else.
    room: ByteRange,
}

impl Candidate {
    fn entry(&self, configuration: u8, address: u64) -> Chosen {
        Chosen {
            configuration,
            address,
            part: self.part,
        }
    }

    /// Returns the entry of a naturally aligned block.
    fn block_entry(&self, block: ByteRange) -> Chosen {
        let size = block.end.saturating_sub(block.start);
        let address = block.start / 4;
        if size <= 4 {
            return self.entry(self.rule | NA4, address);
        }
        self.entry(self.rule | NAPOT, address | (size / 8).saturating_sub(1))
    }

    fn top_entry(&self, end: u64) -> Chosen {
        self.entry(self.rule | TOR, end / 4)
    }

    /// Takes the largest block.
    fn take_block(&self, parts: &Parts, from: &State, levels: &mut Levels<'_>) {
        if let Some(block) = parts.block_at(self.first, self.room) {
            let entry = self.block_entry(block);
            levels.offer(from.behind(parts, entry, block, self.is_frozen));
        }
    }

    /// Takes the longest range, from where the last entry ends.
    fn take_chain(&self, parts: &Parts, from: &State, levels: &mut Levels<'_>) {
        let end = parts.top_at(self.room.end);
        match from.chain {
            Some(start) if self.room.start <= start && start <= self.first && self.first < end => {
                let entry = self.top_entry(end);
                levels.offer(from.behind(parts, entry, ByteRange { start, end }, self.is_frozen));
            }
            _ => {}
        }
    }

    /// Takes the longest range, and before it an entry that is OFF, at whose address the range begins.
    fn take_two(&self, parts: &Parts, from: &State, levels: &mut Levels<'_>) {
        let (start, end) = (self.first, parts.top_at(self.room.end));
        if end <= start {
            return;
        }
        let low = self.entry(self.rule & LOCK, self.first / 4);
        let between = from.behind(parts, low, ByteRange::EMPTY, self.is_frozen);
        let entry = self.top_entry(end);
        levels.offer(between.behind(parts, entry, ByteRange { start, end }, self.is_frozen));
    }
}

/// Returns the candidate for a part with a rule, if it may come next.
fn candidate_for(parts: &Parts, from: &State, index: usize, rule: u8) -> Option<Candidate> {
    let left = from.left_of(index)?;
    let part = parts.list.get(index)?;
    let is_frozen = from.is_frozen && holds(parts.security, rule);
    if part.demand.is_locked && !is_frozen {
        return None;
    }
    Some(Candidate {
        part: index,
        rule,
        is_frozen,
        first: left.start,
        room: from.room(parts, index, is_frozen),
    })
}

/// Offers the states that one more entry, or two, leads to.
pub fn expand(parts: &Parts, from: &State, levels: &mut Levels<'_>) {
    for index in 0..PARTS {
        for choice in parts.list[index].choices {
            let Some(rule) = choice else {
                continue;
            };
            if let Some(candidate) = candidate_for(parts, from, index, rule) {
                candidate.take_block(parts, from, levels);
                candidate.take_chain(parts, from, levels);
                candidate.take_two(parts, from, levels);
            }
        }
    }
}
