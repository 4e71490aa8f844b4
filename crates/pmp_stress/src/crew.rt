//! The checkers of a unit, each on a thread of its own.

use crate::asking::{Answer, Asked};
use crate::calls::{CALLS, Call, right_calls};
use crate::failure::Failure;
use crate::meeting::Meeting;
use crate::source::Source;
use crate::time::Moment;
use crate::unit::loads;
use pmp_share::Checker;
use std::alloc::Global;
use std::sync::{Arc, Wait};
use std::thread;
use std::thread::{JoinHandle, Threads};
use std::time::Clock;

/// What a checker does on its thread.
#[derive(Clone, Copy)]
pub enum Duty {
    /// It begins with the others, makes these calls, and is dropped.
    Calls(Call),
    /// It is asked freely, and dropped, or else asked in step with publications, and comes back.
    Questions(Source, bool),
}

/// What came of it.
#[derive(Drop)]
pub struct Done {
    pub outcome: Result<(), Failure>,
    /// How many tenths of a nanosecond each of its calls took.
    pub time: u64,
    pub answers: Vec<Answer>,
    /// None where it was dropped on its thread.
    pub checker: Option<Checker>,
}

/// Those that are on threads.
#[derive(Drop)]
pub struct Crew {
    alloc: Global,
    pub meeting: Arc<Meeting, Global>,
    threads: Vec<JoinHandle<Done>>,
}

fn make_calls<R: Clock + Wait>(
    rt: &R,
    checker: &mut Checker,
    call: Call,
    meeting: &Meeting,
) -> Result<u64, Failure> {
    let loads = loads();
    meeting.wait(rt);
    let since = Moment::now(rt);
    let right = match &loads {
        Ok(loads) => right_calls(call, checker, loads),
        Err(_) => 0,
    };
    let time = since.each(rt, CALLS);
    meeting.leave();
    if right == CALLS {
        Ok(time)
    } else {
        Err(Failure::Answer)
    }
}

fn serve<R: AllocGlobal + Clock + Wait>(
    rt: &R,
    mut checker: Checker,
    duty: Duty,
    meeting: &Meeting,
) -> Done {
    match duty {
        Duty::Calls(call) => {
            let time = make_calls(rt, &mut checker, call, meeting);
            let (outcome, time) = match time {
                Ok(time) => (Ok(()), time),
                Err(failure) => (Err(failure), 0),
            };
            Done {
                outcome,
                time,
                answers: Vec::new(rt.alloc()),
                checker: None,
            }
        }
        Duty::Questions(source, comes_back) => {
            let mut asked = Asked {
                checker,
                answers: Vec::new(rt.alloc()),
                source,
            };
            let mut outcome = asked.ask_freely(meeting);
            if comes_back {
                outcome = asked.ask_in_step(rt, meeting).and(outcome);
            }
            Done {
                outcome,
                time: 0,
                answers: asked.answers,
                checker: comes_back.then_some(asked.checker),
            }
        }
    }
}

impl Crew {
    pub fn new(alloc: Global, meeting: Meeting) -> Result<Crew, Failure> {
        Ok(Crew {
            alloc,
            meeting: Arc::new(alloc, meeting)?,
            threads: Vec::new(alloc),
        })
    }

    /// Gives the checker a thread.
    pub fn send<R: AllocGlobal + Clock + Threads + Wait + Copy + Send + 'static>(
        &mut self,
        rt: &R,
        checker: Checker,
        duty: Duty,
    ) -> Result<(), Failure> {
        let (runtime, meeting) = (*rt, Arc::try_clone(&self.meeting)?);
        let thread = move || serve(&runtime, checker, duty, &meeting);
        match thread::spawn(rt, thread) {
            Ok(thread) => Ok(self.threads.push(thread)?),
            Err(_) => Err(Failure::Thread),
        }
    }

    /// What came of all of them, once the last has ended.
    pub fn join<R: Threads>(self, rt: &R) -> Result<Vec<Done>, Failure> {
        let mut all = Vec::new(self.alloc);
        for thread in self.threads {
            all.push(thread.join(rt))?;
        }
        Ok(all)
    }
}
