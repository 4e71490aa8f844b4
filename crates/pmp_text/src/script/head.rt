//! The head of a script: its `hart` and `set` lines, before the first event.

ghost use Rattle.std.specs.Prelude.{◌≡◌, OnOk};
ghost use Rattle.pmp_text.specs.Heads.{checked, own_fault, profile_said, unsaid_hart, with_statement};
ghost use Rattle.pmp_text.specs.Outcomes.{Gives};
ghost use Rattle.pmp_text.specs.Steps.Progress.{after_head, no_head, over, says_in};
ghost use Rattle.pmp_text.specs.Steps.Reading.{IsHead, head_of};

use crate::fault::Fault;
use crate::flaw::Flaw;
use crate::refusal::Refusal;
use crate::script::statement::HeadStatement;
use arrayvec::ArrayVec;
use pmp_core::{Hart, Profile, Size};

/// The greatest number of lines of a head: five for the hart, and one for each register, of which RV32 has the most.
pub const HEAD_LINES: usize = 87;

/// A line of a head, with its number in the text, counted from 1.
#[derive(Clone, Copy, Default)]
pub struct HeadLine {
    pub line: u64,
    pub statement: HeadStatement,
}

/// What has been read of a head so far.
#[derive(Drop)]
pub struct Head {
    /// What is said about the hart, with 0 address bits if nothing is said about them.
    said: Profile,
    lines: ArrayVec<HeadLine, HEAD_LINES>,
    /// Whether an event or a `publish` came.
    is_over: bool,
}

/// Returns what is said about the hart after a line of the head.
fn said_after(said: Profile, statement: HeadStatement) -> Result<Profile, Flaw>
    ensures { result ≡ checked (own_fault statement) (with_statement said statement) }
{
    match statement {
        HeadStatement::Hart(field) => field.said_over(said).map_err(|kind| kind.part(2)),
        HeadStatement::Set(_, _) => Ok(said),
    }
}

/// Returns the profile before anything is said.
fn unsaid() -> Profile
    ensures { result ≡ unsaid_hart }
{
    Profile {
        address_bits: 0,
        ..Hart::of(Size::Sixteen).profile()
    }
}

impl Head {
    /// Returns a head without lines.
    pub fn new() -> Self
        ensures hart { IsHead result }
        ensures nothing { head_of result ≡ no_head }
    {
        Head {
            said: unsaid(),
            lines: ArrayVec::new(),
            is_over: false,
        }
    }

    /// Notes that an event or a `publish` came.
    pub fn end(&mut self)
        requires { IsHead self.old }
        ensures hart { IsHead self.new }
        ensures over { head_of self.new ≡ over (head_of self.old) }
    {
        self.is_over = true;
    }

    fn says(&self, statement: HeadStatement) -> bool
        ensures { result ≡ says_in self.now.lines.items statement }
    {
        self.lines()
            .iter()
            .any(|line| statement.is_same(line.statement))
    }

    /// Takes a line of the head.
    pub fn take(&mut self, line: u64, statement: HeadStatement) -> Result<(), Fault>
        requires { IsHead self.old }
        ensures hart { OnOk result (IsHead self.new) }
        ensures taken { Gives (λ _. head_of self.new) result (after_head (head_of self.old) line statement) }
    {
        if self.is_over {
            return Err(Refusal::LateHead.whole().at_line(line));
        }
        if self.says(statement) {
            return Err(Refusal::Twice.part(1).at_line(line));
        }
        let said = said_after(self.said, statement).map_err(|flaw| flaw.at_line(line))?;
        if self.lines.is_full() {
            return Err(Fault::from(Refusal::Memory));
        }
        self.lines.push(HeadLine { line, statement });
        self.said = said;
        Ok(())
    }

    /// Returns what was said about the hart.
    pub fn said(&self) -> Profile
        requires { IsHead self.now }
        ensures { result ≡ profile_said self.now.lines.items }
    {
        self.said
    }

    /// Returns the lines of the head.
    pub fn lines(&self) -> &[HeadLine]
        ensures { result.now ≡ self.now.lines.items }
    {
        self.lines.as_slice()
    }
}
