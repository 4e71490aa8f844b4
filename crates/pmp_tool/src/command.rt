//! The request that the program's words make.

ghost use Rattle.std.specs.Prelude.{◌≡◌, map, option_map};
ghost use Rattle.clap.specs.Words.{found_of, rows_of, subcommand_rows_of};
ghost use Rattle.pmp_text.specs.MetNames.{named};
ghost use Rattle.pmp_tool.specs.Commands.{Ask, access_in, access_task, asked_of, audit_in, check_in, command_named, diff_in};
ghost use Rattle.pmp_tool.specs.Commands.{from_in, lint_in, list_in, long_audit_in, neither, names_path_in, path_in, plan_in};
ghost use Rattle.pmp_tool.specs.Commands.{plan_of_in, policy_from_in, policy_in, query_of, reads_stdin, second_in};
ghost use Rattle.pmp_tool.specs.Commands.{show_in, start_in, task_in, task_of, verdicts_in, wanted_in, whole_audit_in};
ghost use Rattle.pmp_tool.specs.Commands.{why_in, writes_in};
ghost use Rattle.pmp_tool.specs.Words.{result_map};

use crate::argument::Argument;
use crate::command_name::CommandName;
use crate::expected::Expected;
use crate::fault_line::FaultLine;
use crate::hart_words::{read_aim, read_hart, says_aim, says_hart};
use crate::import_words::read_import;
use crate::jobs::JOBS;
use crate::request::{
    Audit, Check, Diff, LongAudit, Plan, Policy, Printed, Question, Request, Show, Why,
};
use crate::word::{asked, count, is_bare_word, is_set, is_stdin, is_used, needed, word};
use clap::ArgMatches;
use pmp_audit::{AskedChanges, AskedVerdicts, Breaches, Listing, Pace, View, are_reasons};
use pmp_core::Access;
use pmp_lint::Lint;
use pmp_names::read_address;
use pmp_plan::{Form, Wanted};
use pmp_share::CHECKERS;
use pmp_text::{AddressName, Refusal};

/// Returns the command that a word names.
pub fn read_name(word: &str) -> Option<CommandName>
    ensures { result ≡ command_named word.now }
{
    CommandName::ALL
        .iter()
        .copied()
        .find(|name| name.word() == word)
}

/// Returns the subcommand that `clap` found in the words, and its matches.
pub fn found<'b, 'a>(matches: &'b ArgMatches<'a>) -> Option<(&'a str, &'b ArgMatches<'a>)>
    ensures { option_map (λ found. (found.0.now, rows_of (found_of found.1.now))) result
        ≡ subcommand_rows_of matches.now }
{
    matches.subcommand()
}

/// Whether the script or the second input is standard input.
fn reads_stdin(words: &ArgMatches) -> bool
    ensures { result ≡ reads_stdin (rows_of (found_of words.now)) }
{
    is_stdin(words, Argument::Script)
        || is_stdin(words, Argument::New)
        || is_stdin(words, Argument::Trace)
        || is_stdin(words, Argument::Policy)
}

/// Returns the path of the names of addresses, if the words ask for names. Only one input can be standard input.
pub fn names_path<'a>(matches: &ArgMatches<'a>) -> Result<Option<&'a str>, FaultLine>
    ensures { result_map (option_map (λ path. path.now)) result ≡ names_path_in (subcommand_rows_of matches.now) }
{
    let Some((_, words)) = found(matches) else {
        return Ok(None);
    };
    if is_stdin(words, Argument::Names) && reads_stdin(words) {
        return Err(FaultLine::from(Refusal::BadWord));
    }
    Ok(word(words, Argument::Names))
}

/// Returns the request of the subcommand that `clap` found in the words, given these names of addresses.
#[tactic(auto, unfolding(crate::specs::Commands::asked_of))]
pub fn read_request<'a>(
    matches: &ArgMatches<'a>,
    names: &[AddressName<'_>],
) -> Result<Request<'a>, FaultLine>
    ensures { result_map task_of result ≡ asked_of (map named names.now) (subcommand_rows_of matches.now) }
{
    let (name, words) = found(matches).ok_or(Refusal::BadWord)?;
    let name = read_name(name).ok_or(Refusal::BadWord)?;
    let first = path(words, Argument::Script)?;
    read_task(name, first, words, names)
}

/// Returns the request that asks about the script at this path, or about each script of a folder.
fn ask<'a>(path: &'a str, question: Question<'a>) -> Request<'a>
    ensures { task_of result ≡ Ask path.now (query_of question.entry) }
{
    Request::Print(Printed::Ask(path, question))
}

/// Returns what the command with this name requests, whose first input is at this path.
fn read_task<'a>(
    name: CommandName,
    first: &'a str,
    words: &ArgMatches<'a>,
    names: &[AddressName<'_>],
) -> Result<Request<'a>, FaultLine>
    ensures { result_map task_of result
        ≡ task_in (map named names.now) first.now name (rows_of (found_of words.now)) }
{
    match name {
        CommandName::Check => Ok(ask(first, read_check(words, names)?)),
        CommandName::Why => Ok(ask(first, read_why(words, names)?)),
        CommandName::Audit => read_audit(first, words),
        CommandName::Policy if is_set(words, Argument::Draft) => read_policy_from(first, words),
        CommandName::Policy => Ok(ask(first, read_policy(words)?)),
        CommandName::Dump if is_set(words, Argument::AsScript) => {
            read_show(first, View::Script, words)
        }
        CommandName::Dump => read_show(first, View::Registers, words),
        CommandName::Map => Ok(ask(first, read_list(Listing::Runs, words)?)),
        CommandName::Picture => read_show(first, View::Picture, words),
        CommandName::Entries => Ok(ask(first, read_list(Listing::Entries, words)?)),
        CommandName::Writes => Ok(ask(first, read_writes(words)?)),
        CommandName::Lint => Ok(ask(first, read_lint(words)?)),
        CommandName::Diff => Ok(ask(first, read_diff(words)?)),
        CommandName::Harts => Ok(Request::Print(Printed::Harts(
            first,
            is_set(words, Argument::Locks),
        ))),
        CommandName::Import => read_import(first, words),
        CommandName::Plan => read_plan(first, words),
    }
}

/// Returns the path in an argument that its command requires.
pub fn path<'a>(words: &ArgMatches<'a>, argument: Argument) -> Result<&'a str, FaultLine>
    ensures { result_map (λ path. path.now) result ≡ path_in argument (rows_of (found_of words.now)) }
{
    word(words, argument).ok_or(FaultLine::of_word(argument))
}

/// Returns the path of the second input, after the script's. Only one of two inputs can be standard input.
fn second<'a>(words: &ArgMatches<'a>, argument: Argument) -> Result<&'a str, FaultLine>
    ensures { result_map (λ path. path.now) result ≡ second_in argument (rows_of (found_of words.now)) }
{
    let script = path(words, Argument::Script)?;
    let second = path(words, argument)?;
    if script == "stdin" && second == "stdin" {
        return Err(FaultLine::from(Refusal::BadWord));
    }
    Ok(second)
}

fn read_check<'a>(words: &ArgMatches, names: &[AddressName<'_>]) -> Result<Question<'a>, FaultLine>
    ensures { result_map query_of result ≡ check_in (map named names.now) (rows_of (found_of words.now)) }
{
    let expected = asked(words, Argument::Expect)?.unwrap_or(Expected::Allow);
    let after = asked(words, Argument::After)?;
    let access = read_access(words, names)?;
    Ok(Question::Check(Check {
        access,
        after,
        expected,
        is_bare: is_bare_word(words, Argument::Start),
    }))
}

fn read_why<'a>(words: &ArgMatches, names: &[AddressName<'_>]) -> Result<Question<'a>, FaultLine>
    ensures { result_map query_of result ≡ why_in (map named names.now) (rows_of (found_of words.now)) }
{
    let after = asked(words, Argument::After)?;
    let access = read_access(words, names)?;
    Ok(Question::Why(Why {
        access,
        after,
        is_bare: is_bare_word(words, Argument::Start),
    }))
}

/// Returns the address in the word START, a number or a name.
fn read_start(words: &ArgMatches, names: &[AddressName<'_>]) -> Result<u64, FaultLine>
    ensures { result ≡ start_in (map named names.now) (rows_of (found_of words.now)) }
{
    let word = path(words, Argument::Start)?;
    read_address(names, word.as_bytes()).ok_or(FaultLine::of_word(Argument::Start))
}

/// Returns the access that four words describe. All words are read before the access is made.
fn read_access(words: &ArgMatches, names: &[AddressName<'_>]) -> Result<Access, FaultLine>
    ensures { result_map access_task result ≡ access_in (map named names.now) (rows_of (found_of words.now)) }
{
    let mode = needed(words, Argument::Mode)?;
    let kind = needed(words, Argument::Kind)?;
    let start = read_start(words, names)?;
    let length = needed(words, Argument::Length)?;
    Ok(Access::new(mode, kind, start, length)?)
}

fn read_audit<'a>(script: &'a str, words: &ArgMatches<'a>) -> Result<Request<'a>, FaultLine>
    ensures { result_map task_of result ≡ audit_in script.now (rows_of (found_of words.now)) }
{
    let trace = second(words, Argument::Trace)?;
    if is_set(words, Argument::Long) {
        read_long_audit(script, trace, words)
    } else {
        read_whole_audit(script, trace, words)
    }
}

/// Refuses two options that this audit doesn't take.
fn need_neither(words: &ArgMatches, first: Argument, second: Argument) -> Result<(), FaultLine>
    ensures { result ≡ neither first second (rows_of (found_of words.now)) }
{
    if is_used(words, first) || is_used(words, second) {
        return Err(FaultLine::from(Refusal::BadWord));
    }
    Ok(())
}

/// Returns an audit of a trace that is read as a whole.
fn read_whole_audit<'a>(
    script: &'a str,
    trace: &'a str,
    words: &ArgMatches,
) -> Result<Request<'a>, FaultLine>
    ensures { result_map task_of result ≡ whole_audit_in script.now trace.now (rows_of (found_of words.now)) }
{
    need_neither(words, Argument::Jobs, Argument::FirstRow)?;
    let checkers = count(words, Argument::Checkers, u64::from(CHECKERS))?;
    Ok(ask(script, Question::Audit(Audit { trace, checkers })))
}

/// Returns an audit of a trace that is read piece by piece: its first row is row 1 unless the words say otherwise.
fn read_long_audit<'a>(
    script: &'a str,
    trace: &'a str,
    words: &ArgMatches,
) -> Result<Request<'a>, FaultLine>
    ensures { result_map task_of result ≡ long_audit_in script.now trace.now (rows_of (found_of words.now)) }
{
    need_neither(words, Argument::Checkers, Argument::Names)?;
    let jobs = count(words, Argument::Jobs, u64::from(JOBS))?;
    let first = count(words, Argument::FirstRow, u64::MAX)?.unwrap_or(1);
    Ok(Request::LongAudit(LongAudit {
        script,
        trace,
        jobs,
        first,
    }))
}

/// Returns when a policy's rows are judged, and which breaches get rows.
fn read_verdicts(words: &ArgMatches) -> AskedVerdicts
    ensures { result ≡ verdicts_in (rows_of (found_of words.now)) }
{
    AskedVerdicts {
        pace: if is_set(words, Argument::EachWrite) {
            Pace::Events
        } else {
            Pace::Publications
        },
        breaches: if is_set(words, Argument::AllBreaches) {
            Breaches::All
        } else {
            Breaches::First
        },
    }
}

fn read_policy<'a>(words: &ArgMatches<'a>) -> Result<Question<'a>, FaultLine>
    ensures { result_map query_of result ≡ policy_in (rows_of (found_of words.now)) }
{
    let path = second(words, Argument::Policy)?;
    Ok(Question::Policy(Policy {
        path,
        asked: read_verdicts(words),
        is_strict: is_set(words, Argument::Strict),
    }))
}

/// Returns a request for a policy, which goes with no other option.
fn read_policy_from<'a>(script: &'a str, words: &ArgMatches) -> Result<Request<'a>, FaultLine>
    ensures { result_map task_of result ≡ policy_from_in script.now (rows_of (found_of words.now)) }
{
    if is_used(words, Argument::Policy)
        || is_set(words, Argument::EachWrite)
        || is_set(words, Argument::AllBreaches)
        || is_set(words, Argument::Strict)
        || is_used(words, Argument::Names)
        || is_used(words, Argument::AsFormat)
    {
        return Err(FaultLine::from(Refusal::BadWord));
    }
    Ok(Request::Print(Printed::PolicyFrom(script)))
}

/// Returns a view of the script, after all publications unless the words say when.
fn read_show<'a>(script: &'a str, view: View, words: &ArgMatches) -> Result<Request<'a>, FaultLine>
    ensures { result_map task_of result ≡ show_in script.now view (rows_of (found_of words.now)) }
{
    let after = asked(words, Argument::After)?;
    Ok(Request::Print(Printed::Show(Show {
        script,
        view,
        after,
    })))
}

/// Returns a list of the script, after all publications unless the words say when.
fn read_list<'a>(listing: Listing, words: &ArgMatches) -> Result<Question<'a>, FaultLine>
    ensures { result_map query_of result ≡ list_in listing (rows_of (found_of words.now)) }
{
    Ok(Question::List(listing, asked(words, Argument::After)?))
}

/// Returns the effects of writes. Each accepted reason has to be one that rows write.
fn read_writes<'a>(words: &ArgMatches<'a>) -> Result<Question<'a>, FaultLine>
    ensures { result_map query_of result ≡ writes_in (rows_of (found_of words.now)) }
{
    match word(words, Argument::AcceptReason) {
        None => Ok(Question::Writes("")),
        Some(accepted) if are_reasons(accepted.as_bytes()) => Ok(Question::Writes(accepted)),
        Some(_) => Err(FaultLine::of_word(Argument::AcceptReason)),
    }
}

/// Returns the findings. Each accepted name has to be a finding's.
fn read_lint<'a>(words: &ArgMatches<'a>) -> Result<Question<'a>, FaultLine>
    ensures { result_map query_of result ≡ lint_in (rows_of (found_of words.now)) }
{
    match word(words, Argument::Accept) {
        None => Ok(Question::Lint("")),
        Some(accepted) if Lint::are_named(accepted.as_bytes()) => Ok(Question::Lint(accepted)),
        Some(_) => Err(FaultLine::of_word(Argument::Accept)),
    }
}

fn read_diff<'a>(words: &ArgMatches<'a>) -> Result<Question<'a>, FaultLine>
    ensures { result_map query_of result ≡ diff_in (rows_of (found_of words.now)) }
{
    let new = second(words, Argument::New)?;
    let old_after = asked(words, Argument::OldAfter)?;
    let new_after = asked(words, Argument::NewAfter)?;
    let only = asked(words, Argument::Only)?;
    Ok(Question::Diff(Diff {
        new,
        old_after,
        new_after,
        changes: AskedChanges {
            only,
            has_locks: is_set(words, Argument::Locks),
        },
    }))
}

/// Returns what is asked of the writes of a plan.
fn read_wanted(words: &ArgMatches) -> Wanted
    ensures { result ≡ wanted_in (rows_of (found_of words.now)) }
{
    Wanted {
        aim: read_aim(words),
        form: if is_set(words, Argument::AsArray) {
            Form::Array
        } else {
            Form::Script
        },
    }
}

fn read_plan<'a>(plan: &'a str, words: &ArgMatches<'a>) -> Result<Request<'a>, FaultLine>
    ensures { result_map task_of result ≡ plan_in plan.now (rows_of (found_of words.now)) }
{
    if is_set(words, Argument::Of) {
        return read_plan_of(plan, words);
    }
    let from = read_from(words)?;
    let hart = read_hart(words)?;
    Ok(Request::Print(Printed::Plan(Plan {
        plan,
        from,
        hart,
        wanted: read_wanted(words),
    })))
}

/// Returns the script that leaves the registers to begin with, which has a hart of its own.
fn read_from<'a>(words: &ArgMatches<'a>) -> Result<Option<&'a str>, FaultLine>
    ensures { result_map (option_map (λ path. path.now)) result ≡ from_in (rows_of (found_of words.now)) }
{
    if !is_used(words, Argument::From) {
        return Ok(None);
    }
    if says_hart(words) {
        return Err(FaultLine::from(Refusal::BadWord));
    }
    Ok(Some(second(words, Argument::From)?))
}

/// Returns the plan of a script, whose hart and `mseccfg` are the script's own.
fn read_plan_of<'a>(script: &'a str, words: &ArgMatches) -> Result<Request<'a>, FaultLine>
    ensures { result_map task_of result ≡ plan_of_in script.now (rows_of (found_of words.now)) }
{
    if says_hart(words) || says_aim(words) || is_set(words, Argument::AsArray) {
        return Err(FaultLine::from(Refusal::BadWord));
    }
    Ok(Request::Print(Printed::PlanOf(script)))
}
