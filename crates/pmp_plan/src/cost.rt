//! An estimate of the entries that the rest of a plan takes.

use crate::parts::{PARTS, Part, Parts};
use pmp_core::ByteRange;
use pmp_map::ModeRights;

/// More than the pairs of rights that entries give, which are fifteen.
const PAIRS: usize = 16;

/// The remaining parts that one pair of rights is asked for.
#[derive(Clone, Copy)]
struct Group {
    rights: ModeRights,
    /// The bytes from the first remaining one to the last.
    hull: ByteRange,
    /// The number of remaining parts.
    parts: usize,
    /// The number of entries they take, each by itself.
    entries: usize,
    /// Whether there are bytes between them that are to be left as without entries.
    has_gap: bool,
}

/// The remaining parts, by their rights.
#[derive(Drop)]
struct Groups {
    list: [Option<Group>; PAIRS],
}

impl Group {
    fn has(&self, part: &Part) -> bool {
        self.rights == part.demand.rights
    }

    /// Returns the number of entries the parts take, or two that come after all others.
    fn cost(&self) -> usize {
        if self.parts > 1 && !self.has_gap {
            self.entries.min(2)
        } else {
            self.entries
        }
    }
}

fn is_block(left: ByteRange) -> bool {
    let size = left.end.saturating_sub(left.start);
    size.is_power_of_two() && left.start % size.max(1) == 0
}

impl Groups {
    fn add(&mut self, part: &Part, left: ByteRange, entries: usize) {
        for index in 0..PAIRS {
            let group = self.list[index].unwrap_or(Group {
                rights: part.demand.rights,
                hull: left,
                parts: 0,
                entries: 0,
                has_gap: false,
            });
            if group.has(part) {
                self.list[index] = Some(Group {
                    hull: ByteRange {
                        start: group.hull.start.min(left.start),
                        end: group.hull.end.max(left.end),
                    },
                    parts: group.parts.saturating_add(1),
                    entries: group.entries.saturating_add(entries),
                    ..group
                });
                return;
            }
        }
    }

    /// Notes bytes that are to be left as without entries.
    fn part_by(&mut self, part: &Part, left: ByteRange) {
        for index in 0..PAIRS {
            if let Some(group) = self.list[index] {
                let is_between = left.is_touched(group.hull.start, group.hull.end);
                let has_gap = group.has_gap || is_between && !group.has(part);
                self.list[index] = Some(Group { has_gap, ..group });
            }
        }
    }

    fn cost(&self) -> usize {
        let mut cost = 0usize;
        for index in 0..PAIRS {
            if let Some(group) = self.list[index] {
                cost = cost.saturating_add(group.cost());
            }
        }
        cost
    }
}

/// Returns how many entries these rests of parts may take, if a range can begin there: 0 if none of them needs one.
pub fn cost(parts: &Parts, left: &[ByteRange; PARTS], chain: Option<u64>) -> usize {
    let mut groups = Groups {
        list: [None; PAIRS],
    };
    let mut before = chain;
    for index in 0..PARTS {
        let (here, part) = (left[index], &parts.list[index]);
        if here.start < here.end && part.is_needed {
            let is_one = is_block(here) || before == Some(here.start);
            groups.add(part, here, if is_one { 1 } else { 2 });
            before = Some(here.end);
        }
    }
    for index in 0..PARTS {
        let (here, part) = (left[index], &parts.list[index]);
        if here.start < here.end && !part.is_needed {
            groups.part_by(part, here);
        }
    }
    groups.cost()
}
