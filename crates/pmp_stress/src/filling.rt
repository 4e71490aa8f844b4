//! The cost of a unit that is full of history.

use crate::failure::Failure;
use crate::soak::print_counts;
use crate::time::Moment;
use pmp_core::{Csr, Event};
use pmp_share::{Batch, Publisher, ShareFault, start};
use std::io::Print;
use std::sync::Wait;
use std::time::Clock;

/// The number of further batches that are timed.
const FURTHER: u32 = 1_000;

/// A batch that is published so many times, one by one or together.
#[derive(Drop)]
pub struct Series {
    pub batch: Batch,
    pub times: u32,
    pub together: bool,
}

/// Returns the given number of equal writes, at most 64.
fn writes(events: u32) -> Result<Batch, Failure> {
    let mut batch = Batch::new();
    for _ in 0..events {
        batch.push(Event::Write(Csr::Addr(0), 1))?;
    }
    Ok(batch)
}

/// Publishes a series, or as much of it as there is room for. Returns how many times it did.
pub fn publish_many<R: Wait>(
    rt: &R,
    publisher: &mut Publisher,
    series: &Series,
) -> Result<u32, ShareFault> {
    let mut submitted = 0;
    for done in 0..series.times {
        match publisher.submit(&series.batch) {
            Err(ShareFault::Full) => break,
            outcome => outcome?,
        }
        submitted = done + 1;
        if !series.together {
            publisher.publish(rt)?;
        }
    }
    publisher.publish(rt)?;
    Ok(submitted)
}

/// Publishes the given number of batches of the given number of events in a unit, and then further ones of one event,
/// one by one, until there is no room.
pub fn fill<R: AllocGlobal + Clock + Wait + Print>(
    rt: &R,
    batches: u32,
    events: u32,
    together: bool,
) -> Result<(), Failure> {
    let first = Series {
        batch: writes(events)?,
        times: batches,
        together,
    };
    let further = Series {
        batch: writes(1)?,
        times: FURTHER,
        together: false,
    };
    let (mut publisher, _checkers) = start(rt, rt.alloc(), 1)?;
    let since = Moment::now(rt);
    let count = publish_many(rt, &mut publisher, &first);
    let whole = since.nanoseconds(rt);
    let since = Moment::now(rt);
    let further = publish_many(rt, &mut publisher, &further);
    let rest = since.nanoseconds(rt);
    publisher.end(rt);
    let counts = [
        (u64::from(count?), "batches"),
        (whole / 1_000, "us for all of them"),
        (u64::from(further?), "further batches of one event"),
        (rest / 1_000, "us for those"),
    ];
    print_counts(rt, &counts)
}
