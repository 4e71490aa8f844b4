//! The lines of the events that change a subject.

ghost use Rattle.std.specs.Prelude.{◌≡◌, ◌≤◌, fold, length, slice_index};
ghost use Rattle.pmp_core.specs.RegisterWrite.{step};
ghost use Rattle.pmp_lint.specs.Events.{changed_at, changing_lines, happenings_from, last_or};
ghost use Rattle.pmp_lint.specs.Subjects.{IsSubject};

use crate::subject::Subject;
use pmp_core::{Event, RegFile};
use pmp_text::ReadScript;

/// The register file as a script's events are executed, and the line of the last of them that changed a subject.
#[derive(Clone, Copy)]
struct Trail {
    file: RegFile,
    line: u64,
}

/// The events of a publication, and their lines.
#[derive(Clone, Copy)]
pub struct Publication<'a> {
    pub events: &'a [Event],
    pub lines: &'a [u64],
}

/// Returns the line at this index.
pub fn line_at(lines: &[u64], place: usize) -> u64
    ensures { result ≡ slice_index lines.now place }
{
    lines.get(place).copied().unwrap_or(0)
}

impl Trail {
    /// Returns the trail after these events, which are in these lines.
    fn after(self, subject: Subject, events: &[Event], lines: &[u64]) -> Trail
        requires { IsSubject subject }
        ensures file { result.file ≡ fold step self.file events.now }
        ensures line { result.line
            ≡ last_or self.line (changing_lines subject (happenings_from 0 self.file events.now lines.now)) }
    {
        let mut trail = self;
        for (place, event) in events.iter().enumerate() {
            let before = trail.file;
            trail.file.step(*event);
            if subject.differs(&before, &trail.file) {
                trail.line = line_at(lines, place);
            }
        }
        trail
    }
}

/// Returns the line of the last event in the script's first `count` publications that changes the subject, 0 if none.
pub fn changed_at(script: &ReadScript<'_>, count: u64, subject: Subject) -> u64
    requires subject { IsSubject subject }
    requires within { count ≤ length script.now.batches }
    ensures { result ≡ changed_at script.now count subject }
{
    let mut trail = Trail {
        file: script.start(),
        line: 0,
    };
    for index in 0..count {
        trail = trail.after(subject, script.batch(index), script.lines(index));
    }
    trail.line
}
