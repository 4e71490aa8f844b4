//! The time that calls take.

use std::time::{Clock, Instant};

/// The moment when something began. None if the clock failed.
#[derive(Clone, Copy)]
pub struct Moment(Option<Instant>);

impl Moment {
    pub fn now<R: Clock>(rt: &R) -> Moment {
        Moment(Instant::now(rt).ok())
    }

    /// Returns how many nanoseconds ago that was, or the greatest number if the clock fails.
    pub fn nanoseconds<R: Clock>(self, rt: &R) -> u64 {
        match (self.0, Instant::now(rt)) {
            (Some(from), Ok(to)) => {
                u64::try_from(to.duration_since(from).as_nanos()).unwrap_or(u64::MAX)
            }
            _ => u64::MAX,
        }
    }

    /// Returns how many tenths of a nanosecond each of `calls` calls has taken since then.
    pub fn each<R: Clock>(self, rt: &R, calls: u32) -> u64 {
        self.nanoseconds(rt).saturating_mul(10) / u64::from(calls.max(1))
    }
}
