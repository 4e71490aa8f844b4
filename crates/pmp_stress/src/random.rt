//! Random batches and accesses, by a linear congruence: the same for the same seed.

ghost use Rattle.std.specs.Prelude.{◌<◌};

use crate::failure::Failure;
use pmp_core::{Access, Csr, Event, Kind, Mode};
use pmp_share::Batch;

/// Where all addresses lie, as words of four bytes.
const FIRST_WORD: u64 = 0x2000_0000;

/// How many words there are.
const WORDS: u32 = 0x1000;

/// Each byte of a configuration but its lock bit.
const UNLOCKED: u64 = 0x7f7f_7f7f_7f7f_7f7f;

/// A row of random numbers.
#[derive(Clone, Copy)]
pub struct Random {
    state: u64,
}

impl Random {
    pub fn new(seed: u64) -> Random {
        Random { state: seed }
    }

    fn next(&mut self) -> u32 {
        self.state = self
            .state
            .wrapping_mul(6_364_136_223_846_793_005)
            .wrapping_add(1_442_695_040_888_963_407);
        (self.state >> 32) as u32
    }

    /// A number below `bound`.
    pub fn below(&mut self, bound: u32) -> u32
        requires { 0 < bound }
        ensures { result < bound }
    {
        self.next() % bound
    }

    /// A row of its own for someone else.
    pub fn branch(&mut self) -> Random {
        Random::new(self.word())
    }

    fn word(&mut self) -> u64 {
        u64::from(self.next()) << 32 | u64::from(self.next())
    }

    /// Few lock bits, so that most writes change something.
    fn event(&mut self) -> Event {
        match self.below(16) {
            0 => Event::Reset,
            1 => Event::Write(Csr::Mseccfg, u64::from(self.below(8))),
            2..=6 => {
                let register = if self.below(2) == 0 { 0 } else { 2 };
                Event::Write(Csr::Cfg(register), self.word() & (self.word() | UNLOCKED))
            }
            _ => {
                let register = self.below(16) as u8;
                Event::Write(
                    Csr::Addr(register),
                    FIRST_WORD + u64::from(self.below(WORDS)),
                )
            }
        }
    }

    /// At least so many events, and up to seven more.
    pub fn batch(&mut self, least: u32) -> Result<Batch, Failure> {
        let mut batch = Batch::new();
        for _ in 0..least.saturating_add(self.below(8)) {
            batch.push(self.event())?;
        }
        Ok(batch)
    }

    /// One to 64 bytes.
    pub fn access(&mut self) -> Result<Access, Failure> {
        let mode = [Mode::M, Mode::S, Mode::U][self.below(3) as usize];
        let kind = [Kind::Fetch, Kind::Load, Kind::Store][self.below(3) as usize];
        let start = 4 * FIRST_WORD + u64::from(self.below(4 * WORDS));
        let length = 1 + u64::from(self.below(64));
        Ok(Access::new(mode, kind, start, length)?)
    }
}
