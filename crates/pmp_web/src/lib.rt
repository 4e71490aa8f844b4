//! The answers of the page, in the memory of a module that a browser runs.
//!
//! No function has a precondition on the contents of the rooms: the result is defined for all of them. A script is the
//! first bytes of its room, and an answer the first bytes of its own. The status is 0 if there is an answer, and
//! otherwise the number of the refusal, whose line is in the answer's room, without a text. The definitions that the
//! contracts cite are those of the program's answers, in `specs/` of `pmp_audit`.
//!
//! An access is named as in the C library: by its mode (0 U-mode, 1 S-mode, 3 M-mode), its kind (0 fetch, 1 load, 2
//! store), the byte address of its first byte, and its length in bytes.
#![tactic(auto)]

ghost use Rattle.std.specs.Prelude.{Some};
ghost use Rattle.pmp_text.specs.declared.moments.When.TheVariants.{Number};
ghost use Rattle.pmp_audit.specs.ScriptDiff.{DiffRefuses};
ghost use Rattle.pmp_web.specs.Answers.{Answers, AnswersAccess, AnswersColumns, AnswersImport, AnswersVerdict};
ghost use Rattle.pmp_web.specs.Answers.{AnswersView, CountSays, DiffAnswerSays, LintAnswerSays, RowsSay};
ghost use Rattle.pmp_web.specs.Demand.{question_of};
ghost use Rattle.pmp_web.specs.Plans.{AnswersMeets, AnswersPlan, security_of};
ghost use Rattle.pmp_web.specs.Request.{format_of, row_kind_of, shown_by};
ghost use Rattle.pmp_web.specs.Rooms.{script_in, text_in};
ghost use Rattle.pmp_audit.specs.AskedFile.{ScriptRefuses};

mod answering;
mod plans;
mod request;
mod rooms;

use answering::{
    ANSWERED, GUESSED, Log, append_columns, append_count, refuse, refuse_question, side_number,
    tell,
};
use plans::{file_after, security_of, tell_script, tell_verdicts};
use pmp_audit::{
    AskedChanges, AskedView, Moment, add_diff, add_findings, add_listing, add_reasons, add_writes,
    append_verdict, append_view,
};
use pmp_import::append_import;
use pmp_text::{Refusal, When};
use request::Shown;
pub use rooms::{Answer, Demand, Script};

/// Writes the names of the columns that rows of a kind have, a line each: 0 runs, 1 entries, 2 events, 3 verdicts of a
/// policy, 4 findings, 5 differences, 6 why an access is decided so, 7 how it is decided. A number that names nothing is
/// refused as 24.
#[unsafe(no_mangle)]
pub extern "C" fn tilvenka_page_columns(kind: u32, answer: &mut Answer) -> u32
    ensures { AnswersColumns (row_kind_of kind) result answer.new }
{
    let Some(kind) = request::row_kind_of(kind) else {
        return refuse_question(answer, Refusal::BadWord);
    };
    tell!(answer, append_columns(kind, answer))
}

/// Writes how many publications the script has, in decimal.
#[unsafe(no_mangle)]
pub extern "C" fn tilvenka_page_publications(script: &Script, answer: &mut Answer) -> u32
    ensures { let script = script_in script.now in
        Answers (CountSays script) (ScriptRefuses script) result answer.new }
{
    tell!(answer, append_count(script.text(), answer))
}

/// Writes a view after the given number of publications: 0 the runs as `pmp map` writes them, 1 their picture, 2 the
/// entries, 3 the registers. A number that names nothing is refused as 24 before the script is read.
#[unsafe(no_mangle)]
pub extern "C" fn tilvenka_page_view(
    script: &Script,
    after: u64,
    view: u32,
    answer: &mut Answer,
) -> u32
    ensures { AnswersView (script_in script.now) after (shown_by view) result answer.new }
{
    let log = &mut Log::new();
    let after = Some(When::Number(after));
    match request::shown_by(view) {
        Some(Shown::Rows(listing)) => {
            tell!(
                answer,
                add_listing(log, listing, script.text(), after, answer)
            )
        }
        Some(Shown::Text(view)) => {
            let asked = AskedView {
                view,
                after,
                names: None,
            };
            tell!(answer, append_view(log, asked, script.text(), answer))
        }
        None => refuse_question(answer, Refusal::BadWord),
    }
}

/// Writes what each event of the script did to a register, like `pmp writes`.
#[unsafe(no_mangle)]
pub extern "C" fn tilvenka_page_writes(script: &Script, answer: &mut Answer) -> u32
    ensures { let script = script_in script.now in
        Answers (RowsSay script) (ScriptRefuses script) result answer.new }
{
    let log = &mut Log::new();
    tell!(answer, add_writes(log, script.text(), &[], answer))
}

/// Writes a row for each finding of the script, like `pmp lint`.
#[unsafe(no_mangle)]
pub extern "C" fn tilvenka_page_lint(script: &Script, answer: &mut Answer) -> u32
    ensures { let script = script_in script.now in
        Answers (LintAnswerSays script) (ScriptRefuses script) result answer.new }
{
    let log = &mut Log::new();
    tell!(answer, add_findings(log, script.text(), &[], answer))
}

/// Decides one access after the given number of publications, and writes why, and its answers at all moments, like
/// `pmp why`. Numbers that name no access are refused before the script is read: 24 for an unknown mode or kind, 3 or 4
/// like `pmp why`.
#[unsafe(no_mangle)]
pub extern "C" fn tilvenka_page_why(
    script: &Script,
    after: u64,
    mode: u32,
    kind: u32,
    start: u64,
    length: u64,
    answer: &mut Answer,
) -> u32
    ensures { AnswersAccess (script_in script.now) after mode kind start length result answer.new }
{
    match request::access_of(mode, kind, start, length) {
        Ok(access) => tell!(
            answer,
            add_reasons(
                &mut Log::new(),
                script.text(),
                &access,
                Some(When::Number(after)),
                answer
            )
        ),
        Err(refusal) => refuse_question(answer, refusal),
    }
}

/// Writes the verdict on one row of a policy, like `pmp policy`. Numbers that name nothing are refused as 24 before the
/// script is read; the row's own faults after it: 21 if `to` or `last` lies before its beginning, 22 if there are fewer
/// publications, 4 if `last` is no byte.
#[unsafe(no_mangle)]
pub extern "C" fn tilvenka_page_verdict(
    script: &Script,
    demand: &Demand,
    answer: &mut Answer,
) -> u32
    ensures { AnswersVerdict (script_in script.now) (question_of demand.now) result answer.new }
{
    match request::question_of(demand) {
        Some(asked) => tell!(
            answer,
            append_verdict(
                &mut Log::new(),
                asked.pace,
                script.text(),
                asked.number,
                asked.fields,
                answer,
            )
        ),
        None => refuse_question(answer, Refusal::BadWord),
    }
}

/// Writes where the modes may do something else after one number of publications of the new script than after another
/// of the old one, like `pmp diff`. 256 is added to the number of a refusal of the new script.
#[unsafe(no_mangle)]
pub extern "C" fn tilvenka_page_diff(
    old: &Script,
    old_after: u64,
    new: &Script,
    new_after: u64,
    answer: &mut Answer,
) -> u32
    ensures { let old = script_in old.now in let new = script_in new.now in
        Answers (DiffAnswerSays old old_after new new_after)
        (DiffRefuses old (Some (Number old_after)) new (Some (Number new_after))) result answer.new }
{
    tell!(
        answer,
        add_diff(
            &mut Log::new(),
            Moment {
                script: old.text(),
                after: Some(When::Number(old_after)),
            },
            Moment {
                script: new.text(),
                after: Some(When::Number(new_after)),
            },
            AskedChanges {
                only: None,
                has_locks: false,
            },
            answer,
        )
    )
}

/// Writes the script of a log, like `pmp import` without options: 0 for QEMU's trace, 1 for gdb's registers, 2 for
/// OpenOCD's, 3 for Spike's commits, 4 for a dump. The line of a refusal is the log's. A number that names no format is
/// refused as 24 before the log is read.
#[unsafe(no_mangle)]
pub extern "C" fn tilvenka_page_import(log: &Script, format: u32, answer: &mut Answer) -> u32
    ensures { AnswersImport (script_in log.now) (format_of format) result answer.new }
{
    let Some(format) = request::format_of(format) else {
        return refuse_question(answer, Refusal::BadWord);
    };
    answer.clear();
    match append_import(format, GUESSED, log.text(), answer) {
        Ok(()) => {
            answer.line = 0;
            ANSWERED
        }
        Err(fault) => refuse(answer, fault, 0),
    }
}

/// Writes for each row of a plan whether the registers after the given number of publications meet it: a line
/// `ROW,met,,,,,`, or `ROW,unmet,BYTE,OWNER,MRIGHTS,SURIGHTS,HELD` with the first byte that has other rights, or isn't
/// held, and what it has. The last line, numbered 0, is for the bytes of no row, which are to be left as without
/// entries. 256 is added to the number of a refusal of the plan, whose line is the number of the row.
#[unsafe(no_mangle)]
pub extern "C" fn tilvenka_page_meets(
    script: &Script,
    after: u64,
    plan: &Script,
    answer: &mut Answer,
) -> u32
    ensures { AnswersMeets (script_in script.now) (script_in plan.now) after result answer.new }
{
    match file_after(script.text(), after) {
        Ok(file) => tell_verdicts(&file, plan.text(), answer),
        Err(fault) => refuse(answer, fault, side_number(fault.place)),
    }
}

/// Writes the script of a plan, like `pmp plan`, for the hart of a script, and for a value of `mseccfg`. A value with
/// bits other than MML, MMWP and RLB is refused as 24 before the script is read. 256 is added to the number of a
/// refusal of the plan, whose line is the number of the row.
#[unsafe(no_mangle)]
pub extern "C" fn tilvenka_page_plan(
    script: &Script,
    plan: &Script,
    mseccfg: u32,
    answer: &mut Answer,
) -> u32
    ensures { AnswersPlan (script_in script.now) (script_in plan.now) (security_of mseccfg) result answer.new }
{
    let Some(security) = security_of(mseccfg) else {
        return refuse_question(answer, Refusal::BadWord);
    };
    match file_after(script.text(), 0) {
        Ok(file) => tell_script(&file, security, plan.text(), answer),
        Err(fault) => refuse(answer, fault, side_number(fault.place)),
    }
}
