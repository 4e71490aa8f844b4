//! Bytes that single writes open to S and U for a while.

ghost use Rattle.std.specs.Prelude.{◌≡◌, OnErr, OnOk, fold, length};
ghost use Rattle.pmp_text.specs.Cells.{AddsSome};
ghost use Rattle.pmp_core.specs.declared.access.TheConstants.{ADDRESS_LIMIT};
ghost use Rattle.pmp_core.specs.RegisterWrite.{step};
ghost use Rattle.pmp_lint.specs.Events.{happenings_from};
ghost use Rattle.pmp_lint.specs.OpenBetween.{AreFoundBetween, AreOfEvents, AreOpenBetween, open_between};
ghost use Rattle.pmp_lint.specs.Telling.{HasToldSome, telling};

use crate::end_state::found_if;
use crate::finding::Finding;
use crate::lint::Lint;
use crate::stretch::{Between, Stretch};
use crate::told::Told;
use crate::trail::{Publication, line_at};
use pmp_core::{ADDRESS_LIMIT, Event, RegFile, Span};
use pmp_text::{Modes, NoMemory, ReadScript, RowSink};

impl Stretch {
    /// Returns a finding, if its bytes are opened by the write in this line.
    fn open_between(&self, line: u64) -> Option<Finding>
        ensures { result ≡ open_between line self.now }
    {
        let finding = Finding {
            lint: Lint::OpenBetween,
            line,
            entry: None,
            bytes: Some(Span {
                first: self.first,
                last: self.last,
            }),
            modes: Modes {
                machine: false,
                supervisor: true,
                user: true,
            },
        };
        found_if(self.is_opened, finding)
    }
}

impl<'a> Between<'a> {
    /// Tells a finding for each range that the write in this line opens.
    fn add_opened<R: RowSink>(
        &self,
        out: &mut R,
        told: &mut Told<'_>,
        line: u64,
    ) -> Result<(), NoMemory>
        ensures ok { OnOk result (HasToldSome R.Adds
            (AreFoundBetween self.now.before.now self.now.during.now self.now.after.now line)
            (telling out.old told.old) (telling out.new told.new)) }
        ensures err { OnErr result (AddsSome R.Adds out.old out.new) }
    {
        let mut first = 0;
        while first < ADDRESS_LIMIT {
            let stretch = self.stretch_from(first);
            told.add(out, stretch.open_between(line))?;
            first = stretch.last + 1;
        }
        Ok(())
    }
}

/// Tells the findings for the events of a publication, and executes them.
fn add_of_publication<R: RowSink>(
    out: &mut R,
    told: &mut Told<'_>,
    file: &mut RegFile,
    publication: Publication<'_>,
) -> Result<(), NoMemory>
    ensures ok { OnOk result (HasToldSome R.Adds (AreOfEvents file.old (fold step file.old publication.entry.events.now)
        (happenings_from 0 file.old publication.entry.events.now publication.entry.lines.now))
        (telling out.old told.old) (telling out.new told.new)) }
    ensures file { OnOk result (file.new ≡ fold step file.old publication.entry.events.now) }
    ensures err { OnErr result (AddsSome R.Adds out.old out.new) }
{
    let before = *file;
    let mut after = *file;
    after.run_events(publication.events);
    for (place, event) in publication.events.iter().enumerate() {
        file.step(*event);
        let between = Between {
            before: &before.registers(),
            during: &file.registers(),
            after: &after.registers(),
        };
        between.add_opened(out, told, line_at(publication.lines, place))?;
    }
    Ok(())
}

/// Tells a finding for each write of the script, and each range of bytes that it opens to S and U until its publication
/// closes them again.
pub fn add_open_between<R: RowSink>(
    out: &mut R,
    told: &mut Told<'_>,
    script: &ReadScript<'_>,
) -> Result<(), NoMemory>
    ensures ok { OnOk result (HasToldSome R.Adds (AreOpenBetween script.now (length script.now.batches))
        (telling out.old told.old) (telling out.new told.new)) }
    ensures err { OnErr result (AddsSome R.Adds out.old out.new) }
{
    let mut file = script.start();
    for index in 0..script.batches() {
        let publication = Publication {
            events: script.batch(index),
            lines: script.lines(index),
        };
        add_of_publication(out, told, &mut file, publication)?;
    }
    Ok(())
}
