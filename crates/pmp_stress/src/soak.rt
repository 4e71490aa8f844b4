//! Units under load, for a chosen time.

use crate::failure::Failure;
use crate::random::Random;
use crate::round::run_round;
use crate::source::{Source, Swap};
use crate::time::Moment;
use pmp_core::Size;
use std::io::Print;
use std::sync::Wait;
use std::thread::Threads;
use std::time::Clock;

/// What came of rounds.
#[derive(Clone, Copy, Default)]
pub struct Tally {
    pub answers: u64,
    pub publications: u64,
    /// How many nanoseconds the longest publication took.
    pub longest: u64,
    /// How often a checker ended its thread, or a publisher its unit, with all as it has to be, and how often not.
    pub passed: u64,
    pub failed: u64,
}

impl Tally {
    pub fn add(&mut self, answers: usize, is_right: bool) {
        self.answers = self.answers.wrapping_add(answers as u64);
        self.passed = self.passed.wrapping_add(u64::from(is_right));
        self.failed = self.failed.wrapping_add(u64::from(!is_right));
    }
}

/// A line for each number and what it counts.
pub fn print_counts<R: Print>(rt: &R, counts: &[(u64, &str)]) -> Result<(), Failure> {
    for (count, what) in counts {
        println!(rt; "{count} {what}")?;
    }
    Ok(())
}

/// Runs units that swap nothing, and units of both sizes that do, until so many seconds are over. Prints what came of it:
/// of no seconds what is the same on each machine.
pub fn soak<R: AllocGlobal + Clock + Threads + Wait + Print + Copy + Send + 'static>(
    rt: &R,
    seconds: u32,
    seed: u32,
) -> Result<(), Failure> {
    let since = Moment::now(rt);
    let mut random = Random::new(u64::from(seed));
    let mut tally = Tally::default();
    for _ in 0..u64::MAX {
        for swap in [None, Some(Swap(Size::Sixteen)), Some(Swap(Size::SixtyFour))] {
            let random = random.branch();
            tally = run_round(rt, Source { random, swap }, tally)?;
        }
        if since.nanoseconds(rt) / 1_000_000_000 >= u64::from(seconds) {
            break;
        }
    }
    let counts = [
        (tally.answers, "answers"),
        (tally.longest / 1_000, "us in the longest publication"),
        (tally.publications, "publications"),
        (tally.passed, "passed"),
        (tally.failed, "failed"),
    ];
    print_counts(rt, if seconds > 0 { &counts } else { &counts[2..] })?;
    if tally.failed > 0 {
        Err(Failure::Answer)
    } else {
        Ok(())
    }
}
