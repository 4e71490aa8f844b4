//! The published batches, and whether answers agree with a replay of them.

use crate::asking::{Answer, Question, Said};
use crate::crew::Done;
use crate::source::Source;
use pmp_core::{Event, RegFile};
use pmp_map::rights_in;
use pmp_share::{Batch, Journal};
use std::alloc::{AllocError, Global};

/// The initial registers of a unit, the published events, and where each batch and each publication ends.
#[derive(Drop)]
pub struct Published {
    base: RegFile,
    events: Vec<Event>,
    ends: Vec<u64>,
    publications: Vec<u64>,
}

impl Published {
    pub fn new(alloc: Global, base: RegFile) -> Published {
        Published {
            base,
            events: Vec::new(alloc),
            ends: Vec::new(alloc),
            publications: Vec::new(alloc),
        }
    }

    pub fn len(&self) -> usize {
        self.publications.len()
    }

    /// Adds the batches of one more publication.
    pub fn push(&mut self, batches: &[Batch]) -> Result<(), AllocError> {
        for batch in batches {
            self.events.extend_from_slice(batch.events())?;
            self.ends.push(self.events.len() as u64)?;
        }
        self.publications.push(self.events.len() as u64)?;
        Ok(())
    }

    /// Whether the journal has exactly these batches.
    pub fn is_in(&self, journal: &Journal) -> bool {
        journal.events() == self.events.as_slice() && journal.ends() == self.ends.as_slice()
    }

    /// Whether all that a checker answered is right: each answer is that of whole publications, no fewer than before,
    /// nor than had been published when it was asked. A checker that comes back was asked each question after a
    /// publication that it hadn't seen.
    pub fn fits(&self, done: &Done, source: &Source) -> bool {
        let (mut file, mut seen) = (self.base, 0);
        let mut behind = [false; Question::ALL.len()];
        for answer in done.answers.as_slice() {
            let count = answer.count as usize;
            behind[answer.question as usize] |= seen > 0 && answer.least > seen as u64;
            if count != seen {
                match self.events.get(seen..count) {
                    Some(next) if self.publications.contains(&answer.count) => file.run_events(
                        next,
                    ),
                    _ => return false,
                }
                if !source.fits(&file, answer.count) {
                    return false;
                }
                seen = count;
            }
            if answer.count < answer.least || answer.said != said_by(&file, source, answer) {
                return false;
            }
        }
        done.outcome.is_ok() && (done.checker.is_none() || !behind.contains(&false))
    }
}

/// Returns the register file's answer to the same question.
fn said_by(file: &RegFile, source: &Source, answer: &Answer) -> Said {
    let access = &answer.access;
    let (mode, start, length) = (access.mode, access.start, access.length);
    match answer.question {
        Question::Group | Question::Decision => Said::Decision(Some(file.decide(access))),
        Question::Rights => Said::Rights(rights_in(&file.registers(), mode, start, length)),
        Question::Register => Said::Register(file.read(source.register())),
        Question::Count => Said::Count,
    }
}
