//! Tests shared units under load, compares each answer with a replay, refuses them memory, and times them.
//!
//! `pmp_stress soak SECONDS [SEED]` runs a publisher and eight checkers over random batches, and over two entries that
//! are swapped, for that time, for `make soak`, and compares each answer with a replay of what was published;
//! `pmp_stress growths [CASE]` makes each call that may be refused memory once, for `checks/growths`;
//! `pmp_stress fill BATCHES EVENTS [together]` publishes one large history, for `make bench-limits`;
//! `pmp_stress bench` times decisions on threads that share a unit, for `make bench-threads`.
//! Without a word it soaks as briefly as it can, and tries each case.
#![tactic(auto)]

mod asking;
mod bench;
mod calls;
mod crew;
mod failure;
mod filling;
mod growths;
mod meeting;
mod published;
mod random;
mod round;
mod soak;
mod source;
mod time;
mod unit;

use bench::bench;
use failure::Failure;
use filling::fill;
use growths::{tell_no_words, try_cases};
use soak::soak;
use std::env;
use std::process::ExitCode;

/// Returns the word, or an empty one.
fn text(word: &Option<String>) -> &str {
    match word {
        Some(word) => word.as_str(),
        None => "",
    }
}

/// Returns the word as a number, or `other`.
fn number(word: &Option<String>, other: u32) -> u32 {
    text(word).parse::<u32>().unwrap_or(other)
}

/// Reports why there is nothing to compare or to time.
fn fail(rt: &HostRuntime, failure: Failure) -> ExitCode {
    match eprintln!(rt; "Error: {failure:?}") {
        Ok(()) | Err(_) => ExitCode::FAILURE,
    }
}

fn main(rt: HostRuntime) -> ExitCode {
    let Ok(mut words) = env::args(&rt) else {
        return ExitCode::from(tell_no_words(&rt));
    };
    let (asked, second, third) = (words.nth(1), words.next(), words.next());
    let (some, more) = (number(&second, 0), number(&third, 1));
    let ended = match text(&asked) {
        "growths" => return ExitCode::from(try_cases(&rt, text(&second))),
        "bench" => bench(&rt),
        "fill" => fill(&rt, some, more, words.next().is_some()),
        _ => soak(&rt, some, more),
    };
    match ended {
        Ok(()) if asked.is_some() => ExitCode::SUCCESS,
        Ok(()) => ExitCode::from(try_cases(&rt, "")),
        Err(failure) => fail(&rt, failure),
    }
}
