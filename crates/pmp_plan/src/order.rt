//! The search for an order of writes.

use crate::aim::Watch;
use crate::layout::MATCHING;
use crate::passing::Passage;
use crate::writes::{CONFIGURATIONS, WRITES, before_lockdown};
use arrayvec::ArrayVec;
use pmp_core::{Csr, Event, MAX_ENTRIES, RegFile, SavedRegisters};

/// Bits of `mseccfg`.
const MML: u64 = 1;

const MMWP: u64 = 2;

const RLB: u64 = 4;

/// Whether M-mode executes by a rule with MML: L, and X, W, or both, without W where it reads.
fn lets_machine_execute(configuration: u8) -> bool {
    configuration >= 0x80 && matches!(configuration & 7, 2 | 4 | 5 | 6)
}

/// Returns the configuration byte of an entry, or 0 if there is none.
fn configuration_of(registers: &SavedRegisters, entry: usize) -> u8 {
    registers.configurations.get(entry).copied().unwrap_or(0)
}

/// Writes on the way from one register file to another.
#[derive(Drop)]
pub struct Route<'a> {
    watch: Option<Watch>,
    start: &'a RegFile,
    /// The registers that are to be reached.
    end: &'a RegFile,
    /// The same, as numbers.
    target: SavedRegisters,
    now: RegFile,
    writes: ArrayVec<Event, WRITES>,
    /// Which entries were moved out of the way.
    is_aside: [bool; MAX_ENTRIES],
}

impl<'a> Route<'a> {
    pub fn new(watch: Option<Watch>, start: &'a RegFile, end: &'a RegFile) -> Route<'a> {
        Route {
            watch,
            start,
            end,
            target: end.save(),
            now: *start,
            writes: ArrayVec::new(),
            is_aside: [false; MAX_ENTRIES],
        }
    }

    /// Whether what has to stay as it is stays so in these registers.
    fn is_allowed(&self, next: &RegFile) -> bool {
        let Some(watch) = self.watch else {
            return true;
        };
        let passage = Passage {
            before: &self.start.registers(),
            during: &next.registers(),
            after: &self.end.registers(),
        };
        passage.stays(watch)
    }

    /// Makes a write, if it changes the registers and is allowed.
    fn take(&mut self, csr: Csr, value: u64) -> bool {
        let mut next = self.now;
        next.step(Event::Write(csr, value));
        if next == self.now || !self.is_allowed(&next) {
            return false;
        }
        self.now = next;
        self.writes.try_push(Event::Write(csr, value)).is_ok()
    }

    /// Returns what the entry's configuration byte is to be next: until MML is 1, not yet one that needs it.
    fn wanted(&self, entry: usize) -> u8 {
        let configuration = configuration_of(&self.target, entry);
        if self.now.read(Csr::Mseccfg) & MML > 0 {
            configuration
        } else {
            before_lockdown(configuration)
        }
    }

    /// Writes one entry's configuration byte, and the others of its register as they are.
    fn take_byte(&mut self, entry: usize, configuration: u8) -> bool {
        self.take_register(self.register_of(entry), Some((entry, configuration)))
    }

    /// Returns the configuration byte that an entry has.
    fn byte(&self, entry: usize) -> u8 {
        configuration_of(&self.now.save(), entry)
    }

    /// Returns the number of the configuration register that has the entry's byte.
    fn register_of(&self, entry: usize) -> u8 {
        let register = (entry / 4 % 16) as u8;
        if self.start.hart().bytes_in(register) > 0 {
            register
        } else {
            register & !1
        }
    }

    /// Writes a configuration register: this byte of one entry and the others as they are, or else all wanted bytes.
    fn take_register(&mut self, register: u8, one: Option<(usize, u8)>) -> bool {
        let first = 4 * usize::from(register);
        let mut bytes = [0; 8];
        for place in 0..self.start.hart().bytes_in(register).min(8) {
            let here = first.saturating_add(place);
            bytes[place] = match one {
                Some((entry, configuration)) if entry == here => configuration,
                Some(_) => self.byte(here),
                None => self.wanted(here),
            };
        }
        self.take(Csr::Cfg(register), u64::from_le_bytes(bytes))
    }

    /// Whether an entry is to have a rule by which M-mode executes, which MML lets no write store unless RLB is set.
    fn is_barred(&self) -> bool {
        for entry in 0..MAX_ENTRIES {
            let wanted = self.wanted(entry);
            if wanted != self.byte(entry) && lets_machine_execute(wanted) {
                return self.now.read(Csr::Mseccfg) & MML > 0;
            }
        }
        false
    }

    /// Sets RLB for the time between, if MML, RLB or a rule needs it and it can be set.
    fn unlock(&mut self) -> bool {
        let now = self.now.read(Csr::Mseccfg);
        let has_more = self.target.mseccfg & !now & !MMWP > 0;
        (has_more || self.is_barred()) && self.take(Csr::Mseccfg, now | RLB)
    }

    fn take_address(&mut self) -> bool {
        for entry in 0..MAX_ENTRIES {
            if self.take(Csr::Addr(entry as u8), self.target.addresses[entry]) {
                return true;
            }
        }
        false
    }

    /// Writes what is wanted of one configuration register, or else of one entry.
    fn take_configuration(&mut self) -> bool {
        for register in 0..CONFIGURATIONS {
            if self.take_register(register, None) {
                return true;
            }
        }
        for entry in 0..MAX_ENTRIES {
            let wanted = self.wanted(entry);
            if wanted != self.byte(entry) && self.take_byte(entry, wanted) {
                return true;
            }
        }
        false
    }

    /// Sets MML, or else MMWP.
    fn lock_down(&mut self) -> bool {
        let now = self.now.read(Csr::Mseccfg);
        for bit in [MML, MMWP] {
            if self.target.mseccfg & bit > 0 && self.take(Csr::Mseccfg, now | bit) {
                return true;
            }
        }
        false
    }

    /// Makes a write that brings the registers nearer to those that are to be reached.
    fn advance(&mut self) -> bool {
        self.unlock() || self.take_address() || self.take_configuration() || self.lock_down()
    }

    /// Takes the rights of an entry away, or turns it OFF, so that a write becomes possible that is not now.
    fn step_aside(&mut self, is_enough: bool) -> bool {
        for entry in 0..MAX_ENTRIES {
            if self.is_aside[entry] {
                continue;
            }
            let (now, next) = (self.byte(entry), self.wanted(entry));
            for aside in [now & MATCHING, 0, next & MATCHING] {
                let before = self.now;
                if !self.take_byte(entry, aside) {
                    continue;
                }
                self.is_aside[entry] = true;
                if !is_enough || self.advance() {
                    return true;
                }
                let _undone = self.writes.pop();
                self.now = before;
                self.is_aside[entry] = false;
            }
        }
        false
    }

    fn has_entries(&self) -> bool {
        let now = self.now.save();
        now.addresses == self.target.addresses && now.configurations == self.target.configurations
    }

    /// Returns writes that lead to the registers, or none if none are found within a bounded number of steps.
    pub fn found(mut self) -> Option<ArrayVec<Event, WRITES>> {
        for _step in 0..WRITES {
            if self.has_entries() {
                break;
            }
            if !(self.advance() || self.step_aside(true) || self.step_aside(false)) {
                return None;
            }
        }
        let mseccfg = self.target.mseccfg;
        let _same = self.take(Csr::Mseccfg, mseccfg);
        if self.now == *self.end {
            return Some(self.writes.take());
        }
        None
    }
}
