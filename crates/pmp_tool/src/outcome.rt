//! The outcomes of the program, and their exit statuses.

ghost use Rattle.std.specs.Prelude.{◌≡◌, ◌==◌, if◌then◌else◌};
ghost use Rattle.pmp_tool.specs.Notes.{note_of};
ghost use Rattle.pmp_tool.specs.Harts.{worse};
ghost use Rattle.pmp_tool.specs.Outcomes.{outcome_status};

use crate::note::Note;
use crate::request::Check;
use pmp_audit::{AuditSummary, PolicySummary, WriteSummary};
use pmp_core::Decision;

/// The exit status if texts and lists are written, an answer is the expected one, all accesses are allowed, a policy
/// holds, all writes are stored and all expectations are met, or register files have none of the differences asked for.
const DONE: u8 = 0;

/// The exit status if an answer isn't the expected one, an access of a trace is refused, a policy is broken, a write
/// isn't stored as written, a register differs from what is expected, or register files differ.
const OTHER: u8 = 1;

/// What the program did.
#[derive(Clone, Copy)]
pub enum Outcome {
    /// The decision on an access, and the question.
    Decided(Decision, Check),
    /// The reason for a decision on an access was written; whether the word START has 14 digits and no `0x`.
    Explained(Decision, bool),
    Audited(AuditSummary),
    /// How many rows of a policy there are, and how many are broken.
    Judged(PolicySummary),
    /// A view of a register file was written.
    Listed,
    /// The effect of each write was written.
    Replayed(WriteSummary),
    /// The given number of findings was written.
    Found(u64),
    /// The given number of rows was written, for differences between two register files.
    Compared(u64),
    /// A script was written for a log; the note says what was guessed.
    Imported(Note),
    /// A text of help or the version was written.
    Told,
}

impl Outcome {
    pub fn status(self) -> u8
        ensures { result ≡ outcome_status self }
    {
        match self {
            Outcome::Decided(decision, asked) if !asked.expected.is_met(decision) => OTHER,
            Outcome::Explained(decision, _) if !decision.allowed => OTHER,
            Outcome::Audited(summary) => status_of(summary.faults),
            Outcome::Judged(summary) => status_of(summary.broken),
            Outcome::Replayed(summary) if summary.differing > 0 => OTHER,
            Outcome::Replayed(summary) => status_of(summary.not_stored),
            Outcome::Found(count) | Outcome::Compared(count) => status_of(count),
            _ => DONE,
        }
    }

    /// Returns the first of two outcomes if its exit status isn't 0, and otherwise the second.
    pub fn worse(self, next: Outcome) -> Outcome
        ensures { result ≡ worse self next }
    {
        if self.status() == DONE { next } else { self }
    }

    /// Returns what standard error reports beside it.
    pub fn note(self) -> Option<Note>
        ensures { result ≡ note_of self }
    {
        match self {
            Outcome::Decided(_, asked) if asked.is_bare => Some(Note::Start),
            Outcome::Explained(_, true) => Some(Note::Start),
            Outcome::Audited(summary) => Some(Note::TraceRow(summary.bare?)),
            Outcome::Judged(summary) if summary.rows == 0 => Some(Note::NoRows),
            Outcome::Judged(summary) => Some(Note::PolicyRow(summary.bare?)),
            Outcome::Imported(note) => Some(note),
            _ => None,
        }
    }
}

/// Returns the exit status if `others` rows aren't as desired.
fn status_of(others: u64) -> u8
    ensures { result ≡ if others == 0 then 0 else 1 }
{
    if others > 0 { OTHER } else { DONE }
}
