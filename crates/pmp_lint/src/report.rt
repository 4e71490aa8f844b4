//! All findings of a script, and their rows.

ghost use Rattle.std.specs.Prelude.{◌≡◌, ◌<◌, [], IfErr, IfOk, OnErr, OnOk, length};
ghost use Rattle.pmp_text.specs.Cells.{AddsSome};
ghost use Rattle.pmp_map.specs.Runs.{HasOwnersBelow};
ghost use Rattle.pmp_lint.specs.EndState.{end_of, never_decides, of_entries, open_before_locked};
ghost use Rattle.pmp_lint.specs.Report.{AreFindings, LintRefuses, LintSays, of_locks, of_runs};
ghost use Rattle.pmp_lint.specs.Telling.{HasTold, HasToldSome, so_far, telling};

use crate::end_state::Ended;
use crate::late_writes::add_late_writes;
use crate::open_between::add_open_between;
use crate::told::Told;
use pmp_core::RegFile;
use pmp_map::{Run, RunMap};
use pmp_text::{EventLog, Fault, NoMemory, ReadScript, RowSink, read_script_in};

/// Returns the register file after all publications.
fn end_of(script: &ReadScript<'_>) -> RegFile
    ensures { result ≡ end_of script.now }
{
    let mut file = script.start();
    file.run_events(script.events());
    file
}

impl<'a> Ended<'a> {
    fn add_open_before<R: RowSink>(&self, out: &mut R, told: &mut Told<'_>) -> Result<(), NoMemory>
        ensures ok { OnOk result (HasTold R.Adds
            (of_entries self.now.file.now (open_before_locked self.now.script.now))
            (telling out.old told.old) (telling out.new told.new)) }
        ensures err { OnErr result (AddsSome R.Adds out.old out.new) }
    {
        for entry in 0..self.file.entries() {
            told.add(out, self.open_before_locked(entry))?;
        }
        Ok(())
    }

    fn add_idle<R: RowSink>(
        &self,
        out: &mut R,
        told: &mut Told<'_>,
        runs: &[Run],
    ) -> Result<(), NoMemory>
        ensures ok { OnOk result (HasTold R.Adds
            (of_entries self.now.file.now (never_decides self.now.script.now runs.now))
            (telling out.old told.old) (telling out.new told.new)) }
        ensures err { OnErr result (AddsSome R.Adds out.old out.new) }
    {
        for entry in 0..self.file.entries() {
            told.add(out, self.never_decides(runs, entry))?;
        }
        Ok(())
    }

    fn add_of_locks<R: RowSink>(&self, out: &mut R, told: &mut Told<'_>) -> Result<(), NoMemory>
        ensures ok { OnOk result (HasTold R.Adds (of_locks self.now.script.now)
            (telling out.old told.old) (telling out.new told.new)) }
        ensures err { OnErr result (AddsSome R.Adds out.old out.new) }
    {
        told.add(out, self.rlb_left_on())?;
        told.add(out, self.mmwp_off())?;
        self.add_open_before(out, told)
    }

    fn add_of_runs<R: RowSink>(
        &self,
        out: &mut R,
        told: &mut Told<'_>,
        runs: &[Run],
    ) -> Result<(), NoMemory>
        requires { HasOwnersBelow (length self.now.file.now.entries) runs.now }
        ensures ok { OnOk result (HasTold R.Adds (of_runs self.now.script.now runs.now)
            (telling out.old told.old) (telling out.new told.new)) }
        ensures err { OnErr result (AddsSome R.Adds out.old out.new) }
    {
        self.add_idle(out, told, runs)?;
        self.add_write_and_execute(out, told, runs)
    }
}

/// Adds the rows of a script's findings that aren't accepted, or a part of them, and returns the number of rows.
fn add_told<R: RowSink>(
    out: &mut R,
    script: &ReadScript<'_>,
    accepted: &[u8],
) -> Result<usize, NoMemory>
    ensures ok { IfOk result (λ told. HasToldSome R.Adds (AreFindings script.now)
        (so_far accepted.now out.old 0) (so_far accepted.now out.new told)) }
    ensures err { OnErr result (AddsSome R.Adds out.old out.new) }
{
    let file = end_of(script);
    let ended = Ended {
        script: &*script,
        file: &file,
    };
    let map = RunMap::build(&file);
    let mut told = Told { accepted, count: 0 };
    ended.add_of_locks(out, &mut told)?;
    ended.add_of_runs(out, &mut told, map.runs())?;
    add_open_between(out, &mut told, script)?;
    add_late_writes(out, &mut told, script)?;
    Ok(told.count)
}

/// Adds a row for each finding in a script's text that isn't accepted, lint by lint in the order of their numbers, and
/// returns the number of rows.
///
/// A row has the number and the name of the lint, the line of the write that it is about, or 0, and if the finding is
/// about these, an entry, the first and the last byte, and letters of `M`, `S` and `U`. `accepted` has names of lints
/// that aren't reported, each as `NAME` for every line or as `NAME:LINE` for this one, which commas separate; empty, it
/// accepts none.
///
/// The log keeps the script's events, and forgets what it had. If it is refused, by the script's own fault or `Memory`,
/// nothing is added.
pub fn add_lint<L: EventLog, R: RowSink>(
    log: &mut L,
    script: &[u8],
    accepted: &[u8],
    out: &mut R,
) -> Result<usize, Fault>
    ensures ok { IfOk result (LintSays R.Adds script.now accepted.now out.old out.new) }
    ensures err { IfErr result (LintRefuses script.now) }
    ensures kept { OnErr result (R.Adds [] out.old out.new) }
{
    let script = read_script_in(log, script)?;
    let before = out.position();
    let told = add_told(out, &script, accepted);
    if told.is_err() {
        out.go_back(before);
    }
    Ok(told?)
}
