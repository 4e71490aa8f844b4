//! Plans beside a script: what is answered of them, and why nothing is.

ghost use Rattle.std.specs.Prelude.{◌≡◌, ◌≤◌, IfErr, IfOk, Some, length};
ghost use Rattle.pmp_audit.specs.Answers.{Declines};
ghost use Rattle.pmp_audit.specs.AskedFile.{FileRefuses};
ghost use Rattle.pmp_audit.specs.ScriptDiff.{GivesFile};
ghost use Rattle.pmp_text.specs.Reports.{file_of_script};
ghost use Rattle.pmp_text.specs.declared.moments.When.TheVariants.{Number};
ghost use Rattle.pmp_web.specs.Plans.{HasNoVerdicts, PlanScriptSays, TellsOfPlan};
ghost use Rattle.pmp_web.specs.Plans.{security_of};
ghost use Rattle.pmp_plan.specs.PlanRooms.{HasNoScript};
ghost use Rattle.pmp_plan.specs.Verdicts.{VerdictsSay};

use crate::answering::{ANSWERED, Log, refuse};
use crate::rooms::Answer;
use arrayvec::ArrayVec;
use pmp_core::RegFile;
use pmp_plan::{AskedPlan, PlanRow, SEARCH_ROOM, Security, State, append_plan, append_verdicts};
use pmp_text::{Fault, ReadScript, Refusal, Source, read_script_in};

/// The greatest number of a plan's rows.
const ROWS: usize = 1 << 10;

/// The number added to that of a refusal of the plan.
const OF_PLAN: u32 = 256;

/// Returns the register file after the first publications, so many, of a script.
fn file_of(script: &ReadScript, done: u64) -> RegFile
    requires { done ≤ length script.now.batches }
    ensures { result ≡ file_of_script script.now done }
{
    let mut file = script.start();
    let count = script.events_before(done) as usize;
    file.run_events(&script.events()[..count]);
    file
}

/// Returns the register file after so many publications.
pub fn file_after(script: &[u8], done: u64) -> Result<RegFile, Fault>
    ensures ok { IfOk result (GivesFile script.now (Some (Number done))) }
    ensures err { IfErr result (Declines (FileRefuses script.now (Some (Number done)))) }
{
    let mut log = Log::new();
    let script = read_script_in(&mut log, script)?;
    if done > script.batches() {
        return Err(Refusal::BadAfter.whole().at_row(Source::Script, 0));
    }
    Ok(file_of(&script, done))
}

/// Returns the bits of `mseccfg` in a value of it, or none if it has others.
pub fn security_of(value: u32) -> Option<Security>
    ensures { result ≡ security_of value }
{
    if value > 7 {
        return None;
    }
    Some(Security {
        mml: value % 2 == 1,
        mmwp: value / 2 % 2 == 1,
        rlb: value / 4 % 2 == 1,
    })
}

/// Writes the script of a plan for a file's hart, and returns the status.
pub fn tell_script(file: &RegFile, security: Security, plan: &[u8], answer: &mut Answer) -> u32
    ensures { TellsOfPlan (PlanScriptSays file.now security plan.now)
        (HasNoScript file.now.profile security plan.now) result answer.new }
{
    answer.clear();
    let rows = &mut ArrayVec::<PlanRow<'_>, ROWS>::new();
    let room = &mut [State::new(); SEARCH_ROOM];
    let asked = AskedPlan {
        hart: file.hart(),
        security,
        text: plan,
    };
    match append_plan(rows, room, asked, answer) {
        Ok(()) => {
            answer.line = 0;
            ANSWERED
        }
        Err(fault) => refuse(answer, fault, OF_PLAN),
    }
}

/// Writes the verdicts on a plan's rows by this register file, and returns the status.
pub fn tell_verdicts(file: &RegFile, plan: &[u8], answer: &mut Answer) -> u32
    ensures { TellsOfPlan (VerdictsSay file.now plan.now) (HasNoVerdicts plan.now) result answer.new }
{
    answer.clear();
    let rows = &mut ArrayVec::<PlanRow<'_>, ROWS>::new();
    match append_verdicts(rows, file, plan, answer) {
        Ok(()) => {
            answer.line = 0;
            ANSWERED
        }
        Err(fault) => refuse(answer, fault, OF_PLAN),
    }
}
