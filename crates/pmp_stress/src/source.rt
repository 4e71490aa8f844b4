//! Where the registers, batches and accesses of a unit under load come from.

use crate::failure::Failure;
use crate::random::Random;
use pmp_core::{Access, Cause, Csr, Decision, Event, Kind, Mode, Perms, RegFile, Size};
use pmp_map::rights_in;
use pmp_share::Batch;
use std::alloc::Global;

/// The first byte of the page, and what an address register has that is the page's.
const PAGE: u64 = 0x8000_0000;

const ADDRESS: u64 = 0x2000_01ff;

/// Two entries that are swapped and swapped back again and again, so that one reads the page at a time: the first two of
/// sixteen, or the last two of sixty-four.
#[derive(Clone, Copy)]
pub struct Swap(pub Size);

/// Random numbers alone, or a swap.
#[derive(Clone, Copy)]
pub struct Source {
    pub random: Random,
    pub swap: Option<Swap>,
}

impl Swap {
    /// The number of the first, or of that behind it.
    fn entry(self, behind: u8) -> u8 {
        match self.0 {
            Size::Sixteen => behind,
            Size::SixtyFour => behind.wrapping_add(62),
        }
    }

    /// The register with both configurations, and its value where both have these.
    fn register(self) -> Csr {
        Csr::Cfg(self.entry(0) / 8 * 2)
    }

    fn value(self, both: u64) -> u64 {
        both.wrapping_shl(u32::from(self.entry(0) % 8) * 8)
    }

    fn configure(self, both: u64) -> Event {
        Event::Write(self.register(), self.value(both))
    }

    fn locate(self, behind: u8, address: u64) -> Event {
        Event::Write(Csr::Addr(self.entry(behind)), address)
    }

    /// The batches of the publication with this number. The first opens the page by the first entry. From then on the
    /// second reads it in its place, by two events, after one of which no entry would, and then the first again, by
    /// three. In every second round each event is a batch of its own.
    fn batches(self, alloc: Global, number: usize) -> Result<Vec<Batch>, Failure> {
        let first = [self.locate(0, ADDRESS), self.configure(0x19)];
        let there = [self.configure(0x1900), self.locate(1, ADDRESS)];
        let back = [self.configure(0), self.locate(1, 0), self.configure(0x19)];
        let events = match number {
            0 => first.as_slice(),
            _ if number % 2 == 1 => there.as_slice(),
            _ => back.as_slice(),
        };
        let mut batches = Vec::new(alloc);
        for part in events.chunks(if number.wrapping_add(1) % 4 < 2 { 1 } else { 3 }) {
            batches.push(Batch::of(part)?)?;
        }
        Ok(batches)
    }

    /// A load from the page by user mode.
    fn load(self) -> Result<Access, Failure> {
        Ok(Access::new(Mode::U, Kind::Load, PAGE, 4)?)
    }

    /// Whether these may be the registers after so many events: the first entry reads the page after each whole round,
    /// and the second in the middle of one.
    fn fits(self, file: &RegFile, events: u64) -> bool {
        let (behind, both) = match events % 5 {
            2 => (0, 0x19),
            4 => (1, 0x1900),
            _ => return false,
        };
        let Ok(load) = self.load() else {
            return false;
        };
        let read = Decision {
            allowed: true,
            cause: Cause::Rule(self.entry(behind)),
        };
        file.decide(&load) == read
            && file.read(self.register()) == self.value(both)
            && rights_in(&file.registers(), Mode::U, PAGE, 4096) == Some(Perms::R)
    }
}

impl Source {
    /// One of its own for someone else.
    pub fn branch(&mut self) -> Source {
        Source {
            random: self.random.branch(),
            swap: self.swap,
        }
    }

    /// What the unit begins with.
    pub fn base(&mut self) -> Result<RegFile, Failure> {
        if let Some(Swap(size)) = self.swap {
            return Ok(RegFile::reset_of(size));
        }
        let mut file = RegFile::reset();
        file.run_events(self.random.batch(0)?.events());
        Ok(file)
    }

    pub fn access(&mut self) -> Result<Access, Failure> {
        match self.swap {
            Some(swap) => swap.load(),
            None => self.random.access(),
        }
    }

    /// The register that is read.
    pub fn register(&self) -> Csr {
        match self.swap {
            Some(swap) => swap.register(),
            None => Csr::Cfg(0),
        }
    }

    /// The batches of the publication with this number, with at least one event.
    pub fn batches(&mut self, alloc: Global, number: usize) -> Result<Vec<Batch>, Failure> {
        if let Some(swap) = self.swap {
            return swap.batches(alloc, number);
        }
        let mut batches = Vec::new(alloc);
        batches.push(self.random.batch(1)?)?;
        for _ in 0..self.random.below(3) {
            batches.push(self.random.batch(0)?)?;
        }
        Ok(batches)
    }

    /// Whether these may be the registers after so many events, as far as the source knows.
    pub fn fits(&self, file: &RegFile, events: u64) -> bool {
        match self.swap {
            Some(swap) => swap.fits(file, events),
            None => true,
        }
    }
}
