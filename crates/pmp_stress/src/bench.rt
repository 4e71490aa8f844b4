//! What decisions, publications and notices cost, as `make bench-threads` prints it.

use crate::calls::{Call, learn};
use crate::crew::{Crew, Duty};
use crate::failure::Failure;
use crate::filling::{Series, publish_many};
use crate::meeting::Meeting;
use crate::time::Moment;
use crate::unit::{WRITE, publish, publish_regions};
use pmp_share::{Batch, CHECKERS, Checker, Publisher, ShareFault, start};
use std::io::Print;
use std::sync::Wait;
use std::thread::Threads;
use std::time::Clock;

/// How often each time is taken. The least counts.
const ROUNDS: u32 = 15;

/// What is timed on one thread.
const TIMED: [(&str, Call); 6] = [
    ("a decision by a map", Call::Map),
    ("a decision by a checker", Call::Decision),
    ("a decision of a group of 16", Call::Group),
    ("the rights of a page by a checker", Call::Rights),
    ("a checker's count of events", Call::Count),
    ("a register read by a checker", Call::Register),
];

/// How often the publisher publishes while nobody decides, and at most while checkers do.
const PUBLICATIONS: u32 = 20_000;

const MOST_PUBLICATIONS: u32 = 500_000;

const NOTICES: u32 = 100_000;

/// Two times in tenths of a nanosecond.
type Times = (u64, u64);

/// So many checkers that make a call at once, and whether batches are published meanwhile.
#[derive(Clone, Copy)]
struct Crowd {
    checkers: u8,
    call: Call,
    publishes: bool,
}

/// The times of a publication of one event while nobody decides, and of a notice that is told and learnt.
fn time_publisher<R: AllocGlobal + Clock + Wait>(rt: &R) -> Result<Times, Failure> {
    let series = Series {
        batch: Batch::of(&[WRITE])?,
        times: PUBLICATIONS,
        together: false,
    };
    let (mut publisher, mut checkers) = start(rt, rt.alloc(), 1)?;
    let opened = publish_regions(rt, &mut publisher);
    let since = Moment::now(rt);
    let told = match checkers.pop() {
        Some(mut checker) => learn(&mut publisher, &mut checker, NOTICES),
        None => Err(ShareFault::NoPlace),
    };
    let notice = since.each(rt, NOTICES);
    let since = Moment::now(rt);
    let published = publish_many(rt, &mut publisher, &series);
    let publication = since.each(rt, PUBLICATIONS);
    publisher.end(rt);
    opened?;
    told?;
    published?;
    Ok((publication, notice))
}

/// Publishes one write at a time until all checkers are through, and answers the time of each.
fn publish_writes<R: Clock + Wait>(
    rt: &R,
    publisher: &mut Publisher,
    meeting: &Meeting,
) -> Result<u64, Failure> {
    let batch = Batch::of(&[WRITE])?;
    let since = Moment::now(rt);
    for published in 0..MOST_PUBLICATIONS {
        if meeting.is_over() {
            return Ok(since.each(rt, published));
        }
        publish(rt, publisher, &batch)?;
    }
    Ok(since.each(rt, MOST_PUBLICATIONS))
}

/// Gives each checker a thread on which it makes the calls.
fn send_all<R: AllocGlobal + Clock + Threads + Wait + Copy + Send + 'static>(
    rt: &R,
    checkers: Vec<Checker>,
    call: Call,
) -> Result<Crew, Failure> {
    let count = checkers.len();
    let mut crew = Crew::new(rt.alloc(), Meeting::new(count.wrapping_add(1), count, 0))?;
    for checker in checkers {
        crew.send(rt, checker, Duty::Calls(call))?;
    }
    Ok(crew)
}

/// The longest time of a call on these threads.
fn longest<R: Threads>(rt: &R, crew: Crew) -> Result<u64, Failure> {
    let mut time = 0;
    for done in crew.join(rt)? {
        done.outcome?;
        time = done.time.max(time);
    }
    Ok(time)
}

fn time_crowd_of<R: AllocGlobal + Clock + Threads + Wait + Copy + Send + 'static>(
    rt: &R,
    publisher: &mut Publisher,
    checkers: Vec<Checker>,
    crowd: Crowd,
) -> Result<Times, Failure> {
    publish_regions(rt, publisher)?;
    let crew = send_all(rt, checkers, crowd.call)?;
    crew.meeting.wait(rt);
    let publication = if crowd.publishes {
        publish_writes(rt, publisher, &crew.meeting)?
    } else {
        u64::MAX
    };
    Ok((longest(rt, crew)?, publication))
}

/// The times of a call by each of one to eight checkers at once, and of a publication meanwhile, if there are any.
fn time_crowd<R: AllocGlobal + Clock + Threads + Wait + Copy + Send + 'static>(
    rt: &R,
    crowd: Crowd,
) -> Result<Times, Failure> {
    let (mut publisher, checkers) = start(rt, rt.alloc(), crowd.checkers.clamp(1, CHECKERS))?;
    let times = time_crowd_of(rt, &mut publisher, checkers, crowd);
    publisher.end(rt);
    times
}

/// The least times of so many rounds.
fn least_of_crowd<R: AllocGlobal + Clock + Threads + Wait + Copy + Send + 'static>(
    rt: &R,
    crowd: Crowd,
) -> Result<Times, Failure> {
    let mut least = (u64::MAX, u64::MAX);
    for _ in 0..ROUNDS {
        let times = time_crowd(rt, crowd)?;
        least = (least.0.min(times.0), least.1.min(times.1));
    }
    Ok(least)
}

/// How many tenths of a nanosecond one of these takes, where so many threads do them at once.
fn print_time<R: Print>(rt: &R, threads: u8, what: &str, tenths: u64) -> Result<(), Failure> {
    let (whole, tenths) = (tenths / 10, tenths % 10);
    println!(rt; "proved: {threads} at once: {what} {whole}.{tenths} ns")?;
    Ok(())
}

fn bench_calls<R: AllocGlobal + Clock + Threads + Wait + Print + Copy + Send + 'static>(
    rt: &R,
) -> Result<(), Failure> {
    for (what, call) in TIMED {
        let alone = Crowd {
            checkers: 1,
            call,
            publishes: false,
        };
        let (time, _) = least_of_crowd(rt, alone)?;
        print_time(rt, 1, what, time)?;
    }
    Ok(())
}

fn bench_publisher<R: AllocGlobal + Clock + Wait + Print>(rt: &R) -> Result<(), Failure> {
    let mut least = (u64::MAX, u64::MAX);
    for _ in 0..ROUNDS {
        let times = time_publisher(rt)?;
        least = (least.0.min(times.0), least.1.min(times.1));
    }
    print_time(rt, 1, "a publication", least.0)?;
    print_time(rt, 1, "tell and learn", least.1)
}

fn bench_crowd<R: AllocGlobal + Clock + Threads + Wait + Print + Copy + Send + 'static>(
    rt: &R,
    checkers: u8,
) -> Result<(), Failure> {
    let mut crowd = Crowd {
        checkers,
        call: Call::Decision,
        publishes: false,
    };
    let (quiet, _) = least_of_crowd(rt, crowd)?;
    print_time(rt, checkers, "a decision", quiet)?;
    crowd.publishes = true;
    let (busy, publication) = least_of_crowd(rt, crowd)?;
    print_time(rt, checkers, "a decision while it publishes", busy)?;
    print_time(rt, checkers, "a publication meanwhile", publication)
}

pub fn bench<R: AllocGlobal + Clock + Threads + Wait + Print + Copy + Send + 'static>(
    rt: &R,
) -> Result<(), Failure> {
    bench_calls(rt)?;
    bench_publisher(rt)?;
    for checkers in 1..=4 {
        bench_crowd(rt, checkers)?;
    }
    Ok(())
}
