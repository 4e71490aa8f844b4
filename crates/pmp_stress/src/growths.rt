//! The calls of a shared unit, as cases in which `checks/growths` refuses the requests for memory one by one.

mod case;
mod stop;
mod unit;
mod worked;

use case::{CASES, try_once};
use std::io::{Eprint, Print};
use std::sync::Wait;
use stop::{Stop, Tried};

/// Tries the case with this name, or all without one. The status is that of the last one that isn't correct.
pub fn try_cases<R: AllocGlobal + Wait + Print + Eprint>(rt: &R, asked: &str) -> u8 {
    let mut status = 0;
    for &case in &CASES {
        if asked.is_empty() || asked == case {
            let left = tell(rt, case, try_once(case, rt));
            if left != 0 {
                status = left;
            }
        }
    }
    status
}

/// Reports that there is no memory for the words of the command line.
pub fn tell_no_words<R: Print + Eprint>(rt: &R) -> u8 {
    tell(rt, "", Err(Stop::Outside))
}

/// Writes how a case ended, and returns its status: 3 if memory was refused, and 1 if something isn't correct.
fn tell<R: Print + Eprint>(rt: &R, case: &str, tried: Tried) -> u8 {
    let (written, status) = match tried {
        Ok(()) => (println!(rt; "{case}: answered"), 0),
        Err(Stop::Refused) => (eprintln!(rt; "{case}: refused 40 Memory"), 3),
        Err(Stop::Outside) => (eprintln!(rt; "outside: refused 40 Memory"), 3),
        Err(Stop::Wrong(what)) => (eprintln!(rt; "{case}: wrong: {what}"), 1),
    };
    if written.is_ok() { status } else { 1 }
}
