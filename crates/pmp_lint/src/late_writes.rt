//! Writes that a frozen entry rejects.

ghost use Rattle.std.specs.Prelude.{◌≡◌, ◌<◌, OnErr, OnOk, fold, length};
ghost use Rattle.pmp_text.specs.Cells.{AddsSome};
ghost use Rattle.std.specs.List.{flat_map};
ghost use Rattle.pmp_core.specs.RegisterWrite.{step};
ghost use Rattle.pmp_lint.specs.Events.{happenings_from};
ghost use Rattle.pmp_lint.specs.LateWrites.{is_late, late_write, late_writes, late_writes_of};
ghost use Rattle.pmp_lint.specs.Telling.{HasTold, telling};

use crate::end_state::found_if;
use crate::finding::Finding;
use crate::lint::Lint;
use crate::told::Told;
use crate::trail::{Publication, line_at};
use pmp_core::{Event, RegFile};
use pmp_text::{NoMemory, ReadScript, RowSink};

/// An event, with the register file that it meets, and its line number.
#[derive(Clone, Copy)]
struct Happening<'a> {
    before: &'a RegFile,
    event: Event,
    line: u64,
}

impl<'a> Happening<'a> {
    fn is_late(&self, entry: u8) -> bool
        requires { entry < length self.now.before.now.entries }
        ensures { result ≡ is_late self.now.before.now self.now.event entry }
    {
        match self.event {
            Event::Write(csr, value) => {
                let registers = self.before.registers();
                self.before.is_locked(entry) && registers.has_reason(csr, value, usize::from(entry))
            }
            Event::Reset => false,
        }
    }

    fn late_write(&self, entry: u8) -> Option<Finding>
        requires { entry < length self.now.before.now.entries }
        ensures { result ≡ late_write (record {
          before = self.now.before.now;
          event = self.now.event;
          line = self.now.line;
        }) entry }
    {
        let bytes = self.before.registers().span(usize::from(entry));
        let finding = Finding::about_entry(Lint::LateWrite, self.line, entry, bytes);
        found_if(self.is_late(entry), finding)
    }

    /// Tells a finding for each entry that rejects the write.
    fn add_late_writes<R: RowSink>(&self, out: &mut R, told: &mut Told<'_>) -> Result<(), NoMemory>
        ensures ok { OnOk result (HasTold R.Adds (late_writes_of (record {
          before = self.now.before.now;
          event = self.now.event;
          line = self.now.line;
        })) (telling out.old told.old) (telling out.new told.new)) }
        ensures err { OnErr result (AddsSome R.Adds out.old out.new) }
    {
        for entry in 0..self.before.entries() {
            told.add(out, self.late_write(entry))?;
        }
        Ok(())
    }
}

/// Tells the findings for the events of a publication, and executes them.
fn add_of_publication<R: RowSink>(
    out: &mut R,
    told: &mut Told<'_>,
    file: &mut RegFile,
    publication: Publication<'_>,
) -> Result<(), NoMemory>
    ensures ok { OnOk result (HasTold R.Adds
        (flat_map late_writes_of (happenings_from 0 file.old publication.entry.events.now publication.entry.lines.now))
        (telling out.old told.old) (telling out.new told.new)) }
    ensures file { OnOk result (file.new ≡ fold step file.old publication.entry.events.now) }
    ensures err { OnErr result (AddsSome R.Adds out.old out.new) }
{
    for (place, event) in publication.events.iter().enumerate() {
        let before = *file;
        let happening = Happening {
            before: &before,
            event: *event,
            line: line_at(publication.lines, place),
        };
        happening.add_late_writes(out, told)?;
        file.step(*event);
    }
    Ok(())
}

/// Tells a finding for each write of the script, and each entry that rejects it because it is frozen.
pub fn add_late_writes<R: RowSink>(
    out: &mut R,
    told: &mut Told<'_>,
    script: &ReadScript<'_>,
) -> Result<(), NoMemory>
    ensures ok { OnOk result (HasTold R.Adds (late_writes script.now (length script.now.batches))
        (telling out.old told.old) (telling out.new told.new)) }
    ensures err { OnErr result (AddsSome R.Adds out.old out.new) }
{
    let mut file = script.start();
    for index in 0..script.batches() {
        let publication = Publication {
            events: script.batch(index),
            lines: script.lines(index),
        };
        add_of_publication(out, told, &mut file, publication)?;
    }
    Ok(())
}
