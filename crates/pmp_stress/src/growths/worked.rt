//! What is published in turn, and what follows from it.

use crate::growths::stop::Stop;
use pmp_core::{Access, Cause, Csr, Decision, Event, Kind, Mode, RegFile};
use pmp_share::{Batch, Journal};

/// Entry 0 lets every mode read a page, and entry 1 nothing.
const OPEN_PAGE: [Event; 2] = [
    Event::Write(Csr::Addr(0), 0x200001ff),
    Event::Write(Csr::Cfg(0), 0x19),
];

/// Entry 1 lets it in the place of entry 0.
const MOVE_RULE: [Event; 2] = [
    Event::Write(Csr::Cfg(0), 0x1900),
    Event::Write(Csr::Addr(1), 0x200001ff),
];

/// How many events the first batches have.
const ENDS: [u64; 7] = [2, 4, 6, 8, 10, 12, 14];

/// What the batch at this place has, from 0.
fn writes(place: u8) -> [Event; 2] {
    if place % 2 == 0 { OPEN_PAGE } else { MOVE_RULE }
}

pub fn batch(place: u8) -> Result<Batch, Stop> {
    Ok(Batch::of(&writes(place))?)
}

/// How many events the first batches have.
pub fn events(batches: u8) -> u64 {
    2 * u64::from(batches)
}

pub fn file_after(batches: u8) -> RegFile {
    let mut file = RegFile::reset();
    for place in 0..batches {
        file.run_events(&writes(place));
    }
    file
}

/// A load from the page by user mode.
pub fn page_load() -> Result<Access, Stop> {
    Ok(Access::new(Mode::U, Kind::Load, 0x80000000, 4)?)
}

/// What that load comes to.
pub fn decision_after(batches: u8) -> Decision {
    let cause = match (batches, batches % 2) {
        (0, _) => Cause::NoMatch,
        (_, 0) => Cause::Rule(1),
        _ => Cause::Rule(0),
    };
    Decision {
        allowed: batches != 0,
        cause,
    }
}

/// Whether the journal is of just the first batches, of seven at most.
pub fn is_journal_of(journal: &Journal, batches: u8) -> bool {
    let mut left = journal.events();
    for place in 0..batches {
        match left.strip_prefix(&writes(place)) {
            Some(later) => left = later,
            None => return false,
        }
    }
    left.is_empty()
        && journal.ends().len() == usize::from(batches)
        && ENDS.starts_with(journal.ends())
}
