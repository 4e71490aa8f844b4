//! The answers that are written as they are made: audits of one script, and the script of a log.

ghost use Rattle.std.specs.Prelude.{◌≡◌, IfErr, IfOk, Option, List, ℕ};
ghost use Rattle.pmp_audit.specs.Answers.{IsWritten};
ghost use Rattle.pmp_text.specs.MetNames.{given_names};
ghost use Rattle.pmp_tool.specs.NumberedInputs.{paths_for};
ghost use Rattle.pmp_tool.specs.Streams.{ImportFails, ImportSays, IsGiven, LongReportFails, LongReportSays};
ghost use Rattle.pmp_tool.specs.Streams.{ReportFails, ReportSays};

use crate::failure::Failure;
use crate::inputs::Inputs;
use crate::jobs::processors;
use crate::note::Note;
use crate::numbered_inputs::{open_trace, read_trace};
use crate::outcome::Outcome;
use crate::questions::script_at;
use crate::request::{Audit, Import, LongAudit};
use crate::work::Work;
use pmp_audit::{Crew, Jobs, OpenGate, PIECE, Pieces, audit_by_workers, audit_long, audit_whole};
use pmp_import::{Given, import, survey_log};
use std::alloc::Global;
use std::io::Write;
use std::sync::Wait;
use std::thread::Threads;

impl<'r, 'a, R: Threads + Wait + Sync> Work<'r, 'a, R> {
    /// Audits a trace that is read as a whole.
    pub fn write_report<I: Inputs, O: Write>(
        self,
        path: &str,
        audit: Audit<'_>,
        inputs: &mut I,
        out: &mut O,
    ) -> Result<Outcome, Failure>
        ensures ok { IfOk result (IsWritten (ReportSays (paths_for (given_names self.entry.setting.names)
            (I.paths inputs.old))
            path.now audit.entry) (O.contents out.old) (O.contents out.new)) }
        ensures err { IfErr result (ReportFails (paths_for (given_names self.entry.setting.names) (I.paths inputs.old))
            (O.contents out.old) (O.contents out.new) path.now audit.entry) }
        ensures paths { I.paths inputs.new ≡ I.paths inputs.old }
    {
        let script = script_at(inputs, path)?;
        let trace = read_trace(self.setting.alloc, self.setting.names, inputs, audit.trace)?;
        let summary = match audit.checkers {
            Some(k) => {
                let crew = Crew {
                    rt: self.rt,
                    alloc: self.setting.alloc,
                    gate: &OpenGate,
                    workers: k as u8,
                };
                audit_by_workers(&crew, &script, &trace, out)?
            }
            None => audit_whole(self.setting.alloc, &script, &trace, out)?,
        };
        Ok(Outcome::Audited(summary))
    }

    /// Audits a trace of any length.
    pub fn write_long_report<I: Inputs, O: Write>(
        self,
        audit: LongAudit<'_>,
        inputs: &mut I,
        out: &mut O,
    ) -> Result<Outcome, Failure>
        ensures ok { IfOk result (IsWritten
            (LongReportSays (paths_for (given_names self.entry.setting.names) (I.paths inputs.old)) audit.entry)
            (O.contents out.old) (O.contents out.new)) }
        ensures err { IfErr result (LongReportFails (paths_for (given_names self.entry.setting.names)
            (I.paths inputs.old))
            (O.contents out.old) (O.contents out.new) audit.entry) }
        ensures paths { I.paths inputs.new ≡ I.paths inputs.old }
    {
        let script = script_at(inputs, audit.script)?;
        let mut rows = open_trace(self.setting.names, inputs, audit.trace)?;
        let jobs = Jobs {
            rt: self.rt,
            alloc: self.setting.alloc,
            count: audit.jobs.unwrap_or_else(|| processors(self.rt)) as usize,
        };
        let pieces = Pieces {
            jobs,
            first: audit.first,
            limit: PIECE,
        };
        let summary = audit_long(&pieces, &script, &mut rows, out)?;
        Ok(Outcome::Audited(summary))
    }
}

/// Writes the script of a log, and returns what the note says of its hart.
pub fn write_import<I: Inputs, O: Write>(
    alloc: Global,
    asked: Import<'_>,
    inputs: &mut I,
    out: &mut O,
) -> Result<Note, Failure>
    ensures ok { IfOk result (IsWritten
        (λ note. ImportSays ((I.paths inputs.old).traces asked.entry.log.now) asked.entry note)
        (O.contents out.old) (O.contents out.new)) }
    ensures err { IfErr result (ImportFails ((I.paths inputs.old).traces asked.entry.log.now) asked.entry
        (O.contents out.old) (O.contents out.new)) }
    ensures paths { I.paths inputs.new ≡ I.paths inputs.old }
{
    let (given, note) = given_of(alloc, asked, inputs)?;
    let mut log = inputs.open_trace(asked.log)?;
    import(alloc, given, &mut log, out)?;
    Ok(note)
}

/// Returns the description of the hart, and what the note reports about it.
fn given_of<I: Inputs>(
    alloc: Global,
    asked: Import<'_>,
    inputs: &mut I,
) -> Result<(Given, Note), Failure>
    ensures ok { IfOk result (λ both. IsGiven ((I.paths inputs.old).traces asked.entry.log.now) asked.entry both.0
        both.1) }
    ensures err { (out : Option (List ℕ)) → IfErr result
        (ImportFails ((I.paths inputs.old).traces asked.entry.log.now) asked.entry out out) }
    ensures paths { I.paths inputs.new ≡ I.paths inputs.old }
{
    if asked.log == "stdin" {
        let given = asked.options.alone(asked.format);
        return Ok((given, Note::Taken(given.hart, given.entries)));
    }
    let mut log = inputs.open_trace(asked.log)?;
    let survey = survey_log(alloc, asked.format, asked.options.hart, &mut log)?;
    let given = asked.options.with(asked.format, &survey)?;
    Ok((given, Note::Guessed(given.hart, given.entries, survey.left)))
}
