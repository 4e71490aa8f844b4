//! What has been read of a script so far.

ghost use Rattle.std.specs.Prelude.{◌≡◌, ◌++◌, Err, IfErr, IfOk, None, Ok, OnOk, Some, length, nat_lt, if◌then◌else◌};
ghost use Rattle.pmp_text.specs.EventLogs.{nothing_kept};
ghost use Rattle.pmp_text.specs.Flaws.{and_then, as_whole};
ghost use Rattle.pmp_text.specs.Lines.{words};
ghost use Rattle.pmp_text.specs.Longhand.{written_out};
ghost use Rattle.pmp_text.specs.Marks.{is_in};
ghost use Rattle.pmp_text.specs.Shorthands.{writes_of};
ghost use Rattle.pmp_text.specs.Statements.{statement_of};
ghost use Rattle.pmp_text.specs.declared.refusal.Refusal.TheVariants.{TooMany};
ghost use Rattle.pmp_text.specs.declared.script.reader.TheConstants.{MAX_EVENTS};
ghost use Rattle.pmp_text.specs.declared.script.version.Version.TheVariants.{Headed};
ghost use Rattle.pmp_text.specs.Outcomes.{Gives};
ghost use Rattle.pmp_text.specs.ScriptEvents.{mark_at};
ghost use Rattle.pmp_text.specs.ScriptFaults.{event_fault, mark_fault, name_fault, publish_fault};
ghost use Rattle.pmp_text.specs.Steps.Progress.{after_event, after_lines, after_statement, concluded, file_now};
ghost use Rattle.pmp_text.specs.Steps.Progress.{finished, longhand_now, nothing_begun};
ghost use Rattle.pmp_text.specs.Steps.Reading.{IsReading, reading_of};
ghost use Rattle.pmp_text.specs.Steps.Views.{seen_line};

use crate::event_log::EventLog;
use crate::expectation::Expectation;
use crate::fault::Fault;
use crate::flaw::Flaw;
use crate::mark::{Mark, Name};
use crate::refusal::Refusal;
use crate::script::ReadScript;
use crate::script::hart_registers::event_flaw;
use crate::script::head::Head;
use crate::script::progress::OpenBatch;
use crate::script::reader::MAX_EVENTS;
use crate::script::shorthand::{Shorthand, Writes, read_shorthand};
use crate::script::significant::NumberedLine;
use crate::script::start::{file_said, start};
use crate::script::statement::{Statement, read_statement};
use crate::script::version::Version;
use pmp_core::{BATCH_EVENTS, Event, RegFile};

/// Whether one of these has the name.
fn is_in(marks: &[Mark], name: &Name) -> bool
    ensures { result ≡ is_in marks.now name.now }
{
    marks.iter().any(|mark| name.is(&mark.name))
}

/// Returns what is wrong with the name that a moment gets, if it gets one.
fn name_flaw(marks: &[Mark], name: Option<Name>) -> Option<Flaw>
    ensures { result ≡ name_fault (is_in marks.now) name }
{
    let name = name?;
    is_in(marks, &name).then_some(Refusal::Twice.part(1))
}

/// Returns what is wrong with one more event or publication after the given number of them.
fn many_flaw(count: usize) -> Option<Flaw>
    ensures { result ≡ if nat_lt count MAX_EVENTS then None else Some (as_whole TooMany) }
{
    (count >= MAX_EVENTS).then_some(Refusal::TooMany.whole())
}

/// Returns what is wrong with an event that may have a flaw, after these numbers of unpublished and of all events.
fn event_fault(flaw: Option<Flaw>, unpublished: usize, all: usize) -> Option<Flaw>
    ensures { result ≡ event_fault flaw unpublished all }
{
    if flaw.is_some() {
        return flaw;
    }
    if unpublished >= BATCH_EVENTS {
        return Some(Refusal::BatchFull.whole());
    }
    many_flaw(all)
}

/// Returns what is wrong with a publication whose moment gets this name, or none.
fn publish_flaw<L: EventLog>(log: &L, name: Option<Name>) -> Option<Flaw>
    ensures { let kept = L.kept log.now in result ≡ publish_fault (is_in kept.marks) name (length kept.ends) }
{
    name_flaw(log.marks(), name).or(many_flaw(log.ends().len()))
}

/// Returns what is wrong with a `mark` after the given number of unpublished events.
fn mark_flaw(count: usize, marks: &[Mark], name: Name) -> Option<Flaw>
    ensures { result ≡ mark_fault count (is_in marks.now name) }
{
    if count > 0 {
        return Some(Refusal::OpenMark.whole());
    }
    is_in(marks, &name).then_some(Refusal::Twice.part(1))
}

/// Names the moment after the publications of a log, if there is a name.
fn mark<L: EventLog>(log: &mut L, name: Option<Name>) -> Result<(), Fault>
    ensures marked { Gives (λ _. (L.kept log.new).marks) result
        (Ok ((L.kept log.old).marks ++ mark_at name (length (L.kept log.old).ends))) }
    ensures kept { OnOk result (L.kept log.new ≡ record (L.kept log.old) { marks = (L.kept log.new).marks }) }
{
    let Some(name) = name else {
        return Ok(());
    };
    let done = log.ends().len() as u64;
    Ok(log.mark(Mark { name, done })?)
}

/// Returns the writes that a line stands for in this file.
fn writes(says: Result<Shorthand, Flaw>, file: &RegFile) -> Result<Writes, Flaw>
    ensures { result ≡ and_then says (writes_of file.now) }
{
    says?.writes(file)
}

/// The open batch of a log, and the head.
#[derive(Drop)]
pub struct ScriptReading {
    batch: OpenBatch,
    head: Head,
    /// The register file at this point, once a shorthand needed it.
    file: Option<RegFile>,
}

impl ScriptReading {
    /// Returns the state before the first line, with an empty log.
    pub fn new() -> Self
        ensures reading { IsReading nothing_kept result }
        ensures nothing { reading_of nothing_kept result ≡ nothing_begun }
    {
        ScriptReading {
            batch: OpenBatch::new(),
            head: Head::new(),
            file: None,
        }
    }

    /// Takes an event.
    fn take_event<L: EventLog>(
        &mut self,
        log: &mut L,
        version: Version,
        line: u64,
        event: Event,
    ) -> Result<(), Fault>
        requires { IsReading (L.kept log.old) self.old }
        ensures reading { OnOk result (IsReading (L.kept log.new) self.new) }
        ensures taken { Gives (λ _. reading_of (L.kept log.new) self.new) result
            (after_event version (reading_of (L.kept log.old) self.old) line event) }
    {
        let flaw = event_flaw(version, self.head.said().is_rv32, event);
        if let Some(flaw) = event_fault(flaw, self.batch.count(log), log.events().len()) {
            return Err(flaw.at_line(line));
        }
        self.head.end();
        self.batch.add(log, line, event)?;
        if let Some(file) = &mut self.file {
            file.step(event);
        }
        Ok(())
    }

    /// Returns the register file at this point.
    fn file_here<L: EventLog>(&self, log: &L) -> RegFile
        requires { IsReading (L.kept log.now) self.now }
        ensures { result ≡ file_now (reading_of (L.kept log.now) self.now) }
    {
        if let Some(file) = self.file {
            return file;
        }
        let mut file = file_said(&self.head);
        file.run_events(log.events());
        file
    }

    /// Takes these writes instead of a line.
    fn take_writes<L: EventLog>(
        &mut self,
        log: &mut L,
        line: NumberedLine,
        writes: Writes,
    ) -> Result<(), Fault>
        requires { IsReading (L.kept log.old) self.old }
        ensures reading { OnOk result (IsReading (L.kept log.new) self.new) }
        ensures taken { Gives (λ _. reading_of (L.kept log.new) self.new) result
            (after_lines Headed (reading_of (L.kept log.old) self.old) (written_out (seen_line line.entry) (Ok writes))) }
    {
        match writes.address {
            None => self.take_event(log, Version::Headed, line.number, writes.last),
            Some(address) => match self.take_event(log, Version::Headed, line.number, address) {
                Ok(()) => self.take_event(log, Version::Headed, line.number, writes.last),
                Err(fault) => Err(fault),
            },
        }
    }

    /// Takes a shorthand line, which stands for writes.
    fn take_shorthand<L: EventLog>(
        &mut self,
        log: &mut L,
        line: NumberedLine,
        says: Result<Shorthand, Flaw>,
    ) -> Result<(), Fault>
        requires { IsReading (L.kept log.old) self.old }
        ensures reading { OnOk result (IsReading (L.kept log.new) self.new) }
        ensures taken { let before = reading_of (L.kept log.old) self.old in
            Gives (λ _. reading_of (L.kept log.new) self.new) result (after_lines Headed before
            (written_out (seen_line line.entry) (and_then says (writes_of (file_now before))))) }
    {
        let file = self.file_here(log);
        let writes = match writes(says, &file) {
            Ok(writes) => writes,
            Err(flaw) => return Err(flaw.at_line(line.number)),
        };
        self.file = Some(file);
        self.take_writes(log, line, writes)
    }

    /// Takes a line that stands for itself.
    fn take_statement<L: EventLog>(
        &mut self,
        log: &mut L,
        version: Version,
        line: NumberedLine,
    ) -> Result<(), Fault>
        requires { IsReading (L.kept log.old) self.old }
        ensures reading { OnOk result (IsReading (L.kept log.new) self.new) }
        ensures taken { Gives (λ _. reading_of (L.kept log.new) self.new) result
            (after_statement version (reading_of (L.kept log.old) self.old) line.entry.number
            (statement_of version (words line.entry.bytes.now))) }
    {
        match read_statement(version, line.bytes) {
            Ok(Statement::Event(event)) => self.take_event(log, version, line.number, event),
            Ok(Statement::Publish(name)) => {
                if let Some(flaw) = publish_flaw(log, name) {
                    return Err(flaw.at_line(line.number));
                }
                self.head.end();
                self.batch.publish(log)?;
                mark(log, name)
            }
            Ok(Statement::Mark(name)) => {
                if let Some(flaw) = mark_flaw(self.batch.count(log), log.marks(), name) {
                    return Err(flaw.at_line(line.number));
                }
                mark(log, Some(name))
            }
            Ok(Statement::Head(statement)) => {
                self.file = None;
                self.head.take(line.number, statement)
            }
            Ok(Statement::Expect(register, value)) => Ok(log.expect(Expectation {
                register,
                value,
                line: line.number,
                events: log.events().len() as u64,
            })?),
            Err(flaw) => Err(flaw.at_line(line.number)),
        }
    }

    /// Takes a significant line that isn't the script's first one. After an error the log can't be used.
    #[tactic(auto, using(crate::proofs::Longhands::one_line))]
    pub fn take_line<L: EventLog>(
        &mut self,
        log: &mut L,
        version: Version,
        line: NumberedLine,
    ) -> Result<(), Fault>
        requires { IsReading (L.kept log.old) self.old }
        ensures reading { OnOk result (IsReading (L.kept log.new) self.new) }
        ensures taken { let before = reading_of (L.kept log.old) self.old in
            Gives (λ _. reading_of (L.kept log.new) self.new) result
            (after_lines version before (longhand_now version before (seen_line line.entry))) }
    {
        match version {
            Version::Headed => match read_shorthand(line.bytes) {
                Some(says) => self.take_shorthand(log, line, says),
                None => self.take_statement(log, version, line),
            },
            Version::Sized(_) => self.take_statement(log, version, line),
        }
    }

    /// Returns the script, if no events are left unpublished and the head's values are kept.
    pub fn finish<L: EventLog>(self, log: &L, version: Version) -> Result<ReadScript<'_>, Fault>
        requires { IsReading (L.kept log.now) self }
        ensures ok { IfOk result
            (λ script. concluded version (finished (reading_of (L.kept log.now) self)) ≡ Ok script) }
        ensures err { IfErr result
            (λ fault. concluded version (finished (reading_of (L.kept log.now) self)) ≡ Err fault) }
    {
        if let Some(line) = self.batch.since() {
            return Err(Refusal::Unpublished.whole().at_line(line));
        }
        match version {
            Version::Sized(size) => Ok(ReadScript::new(size, RegFile::reset_of(size), log, false)),
            Version::Headed => match start(&self.head, log.expectations()) {
                Ok(file) => Ok(ReadScript::new(file.size(), file, log, true)),
                Err(fault) => Err(fault),
            },
        }
    }
}
