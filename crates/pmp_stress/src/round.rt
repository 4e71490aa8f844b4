//! One unit under load: its checkers are asked on threads, and return, while its publisher publishes.

ghost use Rattle.std.specs.Prelude.{◌≡◌, All};

use crate::asking::Question;
use crate::crew::{Crew, Done, Duty};
use crate::failure::Failure;
use crate::meeting::Meeting;
use crate::published::Published;
use crate::soak::Tally;
use crate::source::Source;
use crate::time::Moment;
use pmp_core::Event;
use pmp_share::{Batch, CHECKERS, Checker, Publisher, ShareFault, start_from};
use std::alloc::Global;
use std::sync::Wait;
use std::thread::Threads;
use std::time::Clock;

/// How often the checkers go to threads and return.
const STRETCHES: u32 = 5;

/// Publications in each stretch, besides one for each question: with the first, 401 in all, 200 rounds of a swap.
const PUBLICATIONS: u32 = 75;

#[derive(Drop)]
struct Round {
    alloc: Global,
    source: Source,
    published: Published,
    tally: Tally,
}

/// Has each checker learn what is published.
fn tell_all(publisher: &mut Publisher, checkers: &mut [Checker]) -> Result<(), ShareFault>
    requires { All (λ checker. checker.unit ≡ publisher.old.unit) checkers.old }
{
    for seat in 0..checkers.len() {
        checkers[seat].learn(publisher.tell()?);
    }
    Ok(())
}

impl Round {
    /// Publishes what comes next, and returns how many events are then published.
    fn publish<R: Clock + Wait>(
        &mut self,
        rt: &R,
        publisher: &mut Publisher,
    ) -> Result<u64, Failure>
        ensures { publisher.new.unit ≡ publisher.old.unit }
    {
        let batches = self.source.batches(self.alloc, self.published.len())?;
        for batch in batches.as_slice() {
            publisher.submit(batch)?;
        }
        self.published.push(&batches)?;
        let since = Moment::now(rt);
        let events = publisher.publish(rt)?;
        self.tally.publications = self.tally.publications.wrapping_add(1);
        self.tally.longest = self.tally.longest.max(since.nanoseconds(rt));
        Ok(events)
    }

    /// Sends the checkers out; `leaving` of them don't return.
    fn send_out<R: AllocGlobal + Clock + Threads + Wait + Copy + Send + 'static>(
        &mut self,
        rt: &R,
        publisher: &Publisher,
        checkers: Vec<Checker>,
        leaving: usize,
    ) -> Result<Crew, Failure> {
        let threads = checkers.len().wrapping_sub(leaving).wrapping_add(1);
        let mut crew = Crew::new(
            self.alloc,
            Meeting::new(threads, 1, publisher.journal_len()),
        )?;
        for (seat, checker) in checkers.into_iter().enumerate() {
            let duty = Duty::Questions(self.source.branch(), seat >= leaving);
            crew.send(rt, checker, duty)?;
        }
        Ok(crew)
    }

    /// Compares the answers of all of them, and returns the checkers that came back.
    fn come_back<R: Threads>(&mut self, rt: &R, crew: Crew) -> Result<Vec<Checker>, Failure> {
        let mut checkers = Vec::new(self.alloc);
        for done in crew.join(rt)? {
            let is_right = self.published.fits(&done, &self.source);
            self.tally.add(done.answers.len(), is_right);
            let Done { checker, .. } = done;
            if let Some(checker) = checker {
                checkers.push(checker)?;
            }
        }
        Ok(checkers)
    }

    /// Publishes while checkers are asked freely, and then once for each question.
    fn publish_all<R: Clock + Wait>(
        &mut self,
        rt: &R,
        publisher: &mut Publisher,
        meeting: &Meeting,
    ) -> Result<(), Failure> {
        for _ in 0..PUBLICATIONS {
            meeting.show(self.publish(rt, publisher)?);
        }
        meeting.leave();
        for _ in Question::ALL {
            meeting.wait(rt);
            meeting.show(self.publish(rt, publisher)?);
            meeting.wait(rt);
        }
        Ok(())
    }

    /// Compares what each checker copies with what is published.
    fn compare_copies(&self, checkers: &mut [Checker]) -> Result<(), Failure> {
        for seat in 0..checkers.len() {
            if !self.published.is_in(&checkers[seat].copy_journal()?) {
                return Err(Failure::Answer);
            }
        }
        Ok(())
    }

    /// Publishes while the checkers are asked, and compares what those that return copy.
    fn stretch<R: AllocGlobal + Clock + Threads + Wait + Copy + Send + 'static>(
        &mut self,
        rt: &R,
        publisher: &mut Publisher,
        checkers: Vec<Checker>,
        leaving: usize,
    ) -> Result<Vec<Checker>, Failure> {
        let crew = self.send_out(rt, publisher, checkers, leaving)?;
        self.publish_all(rt, publisher, &crew.meeting)?;
        let mut checkers = self.come_back(rt, crew)?;
        self.compare_copies(&mut checkers)?;
        Ok(checkers)
    }

    /// Runs all stretches; in the last but one a checker doesn't return. Then the others are asked, and a reset is
    /// pending.
    fn run<R: AllocGlobal + Clock + Threads + Wait + Copy + Send + 'static>(
        &mut self,
        rt: &R,
        publisher: &mut Publisher,
        checkers: Vec<Checker>,
    ) -> Result<Crew, Failure>
        requires { All (λ checker. checker.unit ≡ publisher.old.unit) checkers.items }
    {
        self.publish(rt, publisher)?;
        let mut checkers = checkers;
        tell_all(publisher, &mut checkers)?;
        for stretch in 0..STRETCHES {
            let leaving = usize::from(stretch + 2 == STRETCHES);
            checkers = self.stretch(rt, publisher, checkers, leaving)?;
        }
        let leaving = checkers.len();
        let crew = self.send_out(rt, publisher, checkers, leaving)?;
        publisher.submit(&Batch::of(&[Event::Reset])?)?;
        Ok(crew)
    }
}

/// Runs a unit of its own. The publisher ends with the reset pending while the checkers are asked: none sees it, and
/// the journal doesn't have it.
pub fn run_round<R: AllocGlobal + Clock + Threads + Wait + Copy + Send + 'static>(
    rt: &R,
    mut source: Source,
    tally: Tally,
) -> Result<Tally, Failure> {
    let base = source.base()?;
    let (mut publisher, checkers) = start_from(rt, rt.alloc(), &base.save(), CHECKERS)?;
    let mut round = Round {
        alloc: rt.alloc(),
        source,
        published: Published::new(rt.alloc(), base),
        tally,
    };
    let crew = round.run(rt, &mut publisher, checkers);
    let journal = publisher.into_journal(rt);
    let crew = crew?;
    crew.meeting.leave();
    round.come_back(rt, crew)?;
    round.tally.add(0, round.published.is_in(&journal));
    Ok(round.tally)
}
