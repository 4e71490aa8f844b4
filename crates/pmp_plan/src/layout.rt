//! Where a plan's entries are put among those that a register file has.

use crate::moves::TOR;
use crate::parts::{PARTS, Parts};
use crate::state::{Chosen, State};
use pmp_core::{Lock, RegFile, SavedRegisters};

/// The field A of a configuration byte, which says what bytes the entry matches.
pub const MATCHING: u8 = 24;

/// The entries that are sought, and the registers that they are put into.
#[derive(Clone, Copy)]
pub struct Layout<'a> {
    pub start: &'a RegFile,
    /// The plan's entries, from entry 0 on.
    pub wanted: &'a SavedRegisters,
    /// How many there are.
    pub count: usize,
}

/// Returns the numbers of registers with these entries.
pub fn with_entries(start: &RegFile, entries: &[Chosen]) -> SavedRegisters {
    let mut wanted = SavedRegisters::reset_on(start.hart());
    for (place, entry) in entries.iter().enumerate() {
        if place < wanted.addresses.len() {
            wanted.addresses[place] = entry.address;
            wanted.configurations[place] = entry.configuration;
        }
    }
    wanted
}

/// Returns the entries that no write changes from entry 0 on, as the beginning of a search.
pub fn behind_frozen(parts: &Parts, start: &RegFile) -> State {
    let registers = start.registers();
    let saved = start.save();
    let mut state = State::beginning(parts);
    for place in 0..registers.count() {
        if registers.lock(place) != Lock::Frozen {
            return state;
        }
        let entry = Chosen {
            configuration: saved.configurations[place],
            address: saved.addresses[place],
            part: PARTS,
        };
        state = state.behind(parts, entry, registers.range(place), true);
    }
    state
}

impl<'a> Layout<'a> {
    /// Whether no write changes the entry's address register.
    fn is_fixed(&self, place: usize) -> bool {
        let registers = self.start.registers();
        place >= registers.count() || registers.is_address_frozen(place)
    }

    /// Whether no write changes the entry.
    fn is_frozen(&self, place: usize) -> bool {
        let registers = self.start.registers();
        place >= registers.count() || registers.lock(place) == Lock::Frozen
    }

    /// Returns the registers with all entries OFF that writes change.
    fn emptied(&self) -> SavedRegisters {
        let mut target = self.start.save();
        for place in 0..target.configurations.len() {
            if !self.is_frozen(place) {
                target.configurations[place] = 0;
            }
        }
        target
    }

    /// Whether the entry that is there already is the plan's one with this index.
    fn is_there(&self, target: &SavedRegisters, place: usize, index: usize) -> bool {
        target.configurations.get(place) == self.wanted.configurations.get(index)
            && target.addresses.get(place) == self.wanted.addresses.get(index)
            && self.begins_there(target, place, index)
    }

    /// Whether a range that ends in this place begins where the plan's entry with this index has to.
    fn begins_there(&self, target: &SavedRegisters, place: usize, index: usize) -> bool {
        let Some(configuration) = self.wanted.configurations.get(index) else {
            return false;
        };
        configuration & MATCHING != TOR
            || address_before(target, place) == address_before(self.wanted, index)
    }

    /// Returns the registers with the plan's entries from this place on: around entries that no write changes, and with
    /// an entry that is OFF before a range that would begin elsewhere. None if there are too few.
    pub fn from_place(&self, first: usize) -> Option<SavedRegisters> {
        let mut target = self.emptied();
        let mut index = 0;
        for place in first..target.addresses.len() {
            if index >= self.count {
                return Some(target);
            }
            if self.is_fixed(place) {
                if self.is_there(&target, place, index) {
                    index += 1;
                }
            } else if self.begins_there(&target, place, index) {
                target.configurations[place] = *self.wanted.configurations.get(index)?;
                target.addresses[place] = *self.wanted.addresses.get(index)?;
                index += 1;
            } else {
                target.addresses[place] = address_before(self.wanted, index);
            }
        }
        (index >= self.count).then_some(target)
    }
}

/// Returns the address of the entry before, at which a range begins.
fn address_before(registers: &SavedRegisters, place: usize) -> u64 {
    match place.checked_sub(1) {
        Some(before) => registers.addresses.get(before).copied().unwrap_or(0),
        None => 0,
    }
}
