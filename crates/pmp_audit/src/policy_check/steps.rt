//! The states of a register file that a policy asks about.

ghost use Rattle.std.specs.Prelude.{◌≡◌, ◌+◌, ◌<◌, ◌≤◌, ◌^◌, [], length};
ghost use Rattle.std.specs.List.{slice_index_or};
ghost use Rattle.pmp_audit.specs.PolicyCheck.{state_after, step_count, steps_of};
ghost use Rattle.pmp_audit.specs.PolicySweep.{IsStateOf};

use pmp_core::{Event, RegFile, Span};
use pmp_text::ReadScript;

/// How often a policy checks.
#[derive(Clone, Copy, Debug, PartialEq, Eq)]
pub enum Pace {
    /// After each publication.
    Publications,
    /// After each event, because a hart executes its writes one by one.
    Events,
}

/// The steps of a script.
#[derive(Clone, Copy)]
pub struct Steps<'a> {
    pub script: &'a ReadScript<'a>,
    pub pace: Pace,
}

/// The register file after some steps, and what the last of them moved.
#[derive(Clone, Copy)]
pub struct State {
    /// How many steps are done.
    pub done: u64,
    pub file: RegFile,
    /// The span of bytes outside which every decision is the same as in the previous state.
    pub moved: Option<Span>,
}

impl<'a> Steps<'a> {
    /// Returns how many steps the given number of first publications have.
    pub fn count(&self, publications: u64) -> u64
        requires { publications ≤ length self.now.script.now.batches }
        ensures { result ≡ step_count self.now.pace self.now.script.now.batches publications }
    {
        match self.pace {
            Pace::Publications => publications,
            Pace::Events => self.script.events_before(publications),
        }
    }

    /// Returns the events of the step with this index, from 0.
    #[tactic(auto, using(crate::proofs::PolicySteps::one_event))]
    fn step(&self, index: u64) -> &'a [Event]
        requires { index < length (steps_of self.now.pace self.now.script.now.batches) }
        ensures { result.now ≡ slice_index_or (steps_of self.now.pace self.now.script.now.batches) index [] }
    {
        match self.pace {
            Pace::Publications => self.script.batch(index),
            Pace::Events => &self.script.events()[index as usize..index as usize + 1],
        }
    }

    /// Returns the state before the first step.
    pub fn start(&self) -> State
        ensures is { IsStateOf (state_after self.now.pace self.now.script.now) result }
        ensures done { result.done ≡ 0 }
    {
        State {
            done: 0,
            file: self.script.start(),
            moved: None,
        }
    }

    /// Returns the state after so many steps.
    pub fn state_at(&self, done: u64) -> State
        requires { done ≤ length (steps_of self.now.pace self.now.script.now.batches) }
        ensures is { IsStateOf (state_after self.now.pace self.now.script.now) result }
        ensures done { result.done ≡ done }
    {
        let mut state = self.start();
        while state.done < done {
            self.advance(&mut state);
        }
        state
    }

    /// Executes the next step.
    pub fn advance(&self, state: &mut State)
        requires inside { state.old.done < length (steps_of self.now.pace self.now.script.now.batches) }
        requires fits { state.old.done + 1 < 2 ^ 64 }
        requires before { IsStateOf (state_after self.now.pace self.now.script.now) state.old }
        ensures after { IsStateOf (state_after self.now.pace self.now.script.now) state.new }
        ensures done { state.new.done ≡ state.old.done + 1 }
    {
        let before = state.file;
        state.file.run_events(self.step(state.done));
        state.moved = state.file.registers().moved_since(&before.registers());
        state.done += 1;
    }
}
