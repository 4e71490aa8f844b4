//! The questions that a checker is asked on its thread.

use crate::failure::Failure;
use crate::meeting::Meeting;
use crate::source::Source;
use pmp_core::{Access, Decision, Perms};
use pmp_share::{Checker, GROUP_ACCESSES};
use std::sync::Wait;

/// The smallest and greatest number of free questions to a checker each time that it is on a thread.
const LEAST: u32 = 2_500;

const MOST: u32 = 10_000;

#[derive(Clone, Copy, PartialEq, Eq)]
pub enum Question {
    Group,
    Rights,
    Register,
    Count,
    Decision,
}

impl Question {
    pub const ALL: [Question; 5] = [
        Question::Group,
        Question::Rights,
        Question::Register,
        Question::Count,
        Question::Decision,
    ];
}

#[derive(Clone, Copy, PartialEq, Eq)]
pub enum Said {
    /// The decision on all of a group, which is one access throughout. None if they differ.
    Decision(Option<Decision>),
    /// What the mode of the access may do in its bytes.
    Rights(Option<Perms>),
    Register(u64),
    /// Nothing besides the count.
    Count,
}

/// The answer of a checker, and its number of events. At least `least` were published before the question.
#[derive(Clone, Copy)]
pub struct Answer {
    pub question: Question,
    pub access: Access,
    pub said: Said,
    pub count: u64,
    pub least: u64,
}

/// A checker on its thread, and its answers there.
#[derive(Drop)]
pub struct Asked {
    pub checker: Checker,
    pub answers: Vec<Answer>,
    pub source: Source,
}

/// Returns the decision on all, if they don't differ.
fn common(decisions: &[Decision]) -> Option<Decision> {
    let first = *decisions.first()?;
    (decisions == [first; GROUP_ACCESSES].as_slice()).then_some(first)
}

impl Asked {
    fn ask(&mut self, question: Question, meeting: &Meeting) -> Result<(), Failure> {
        let (access, csr) = (self.source.access()?, self.source.register());
        let checker = &mut self.checker;
        let least = meeting.shown();
        let (said, count) = match question {
            Question::Group => {
                let (decisions, count) = checker.decide_group(&[access; GROUP_ACCESSES]);
                (Said::Decision(common(decisions.as_slice())), count)
            }
            Question::Rights => {
                let (rights, count) = checker.rights(access.mode, access.start, access.length);
                (Said::Rights(rights), count)
            }
            Question::Register => {
                let (value, count) = checker.read(csr);
                (Said::Register(value), count)
            }
            Question::Count => (Said::Count, checker.count()),
            Question::Decision => {
                let (decision, count) = checker.decide(&access);
                (Said::Decision(Some(decision)), count)
            }
        };
        self.answers.push(Answer {
            question,
            access,
            said,
            count,
            least,
        })?;
        Ok(())
    }

    /// Asks mostly for decisions, until the meeting is over.
    pub fn ask_freely(&mut self, meeting: &Meeting) -> Result<(), Failure> {
        for asked in 0..MOST {
            let is_over = meeting.is_over();
            let turn = self.source.random.below(16).min(4);
            self.ask(Question::ALL[turn as usize], meeting)?;
            if is_over && asked >= LEAST {
                break;
            }
        }
        Ok(())
    }

    /// Asks each question once, with no question while the publication before it is made: a checker that doesn't look
    /// answers without that one. In every case it waits as often as the publisher does.
    pub fn ask_in_step<R: Wait>(&mut self, rt: &R, meeting: &Meeting) -> Result<(), Failure> {
        let mut outcome = Ok(());
        for question in Question::ALL {
            meeting.wait(rt);
            meeting.wait(rt);
            outcome = outcome.and(self.ask(question, meeting));
        }
        outcome
    }
}
