//! The program: from words to an exit status.

ghost use Rattle.std.specs.Prelude.{◌≡◌, ◌⊎◌, ℕ, ◌≤◌, List, map, IfOk, IfErr, None, OnErr, Some, false, string_bytes};
ghost use Rattle.std.specs.Io.KnownBytes.{Appends, Keeps};
ghost use Rattle.pmp_tool.specs.CommandLines.{AsksForPieces};
ghost use Rattle.pmp_tool.specs.Explanations.{TellsAndExplains};
ghost use Rattle.pmp_tool.specs.Failures.{failure_status};
ghost use Rattle.pmp_tool.specs.Notes.{Notes};
ghost use Rattle.pmp_tool.specs.Outcomes.{outcome_status};
ghost use Rattle.clap.specs.Words.{subcommand_rows_of};
ghost use Rattle.pmp_text.specs.MetNames.{given_names, named};
ghost use Rattle.pmp_tool.specs.NumberedInputs.{paths_for};
ghost use Rattle.pmp_tool.specs.Runs.{Answers, Does, DoesNot, Fails, IsDone, IsUndone, TellingFails};
ghost use Rattle.pmp_tool.specs.Texts.{TextSays};
ghost use Rattle.pmp_tool.specs.declared.request.Request.TheVariants as request;
ghost use Rattle.pmp_tool.specs.declared.request.Printed.TheVariants as printed;
ghost use Rattle.pmp_tool.specs.declared.request.Question.TheVariants as question;
ghost use Rattle.pmp_tool.specs.declared.failure.Failure.{Failure};
ghost use Rattle.pmp_tool.specs.declared.outcome.Outcome.{Outcome};
ghost use Rattle.pmp_tool.specs.declared.outcome.Outcome.TheVariants.{Told};

use crate::command::{names_path, read_request};
use crate::command_line::parse_words;
use crate::explanation::tell_and_explain;
use crate::failure::Failure;
use crate::format_words::asked_format;
use crate::hart_imports::import_harts;
use crate::harts::Harts;
use crate::inputs::Inputs;
use crate::note::tell_note;
use crate::outcome::Outcome;
use crate::questions::Asking;
use crate::request::{Audit, Printed, Question, Request};
use crate::row_format::AskedFormat;
use crate::streams::write_import;
use crate::texts::text_of;
use crate::work::{Setting, Work};
use clap::ArgMatches;
use pmp_names::read_names;
use pmp_text::{AddressName, AddressNames, write_out};
use std::alloc::Global;
use std::io::Write;
use std::sync::Wait;
use std::thread::Threads;

/// Runs the program on its words, those after its own name, and returns its exit status: 0 if the answer to a check is
/// the expected one, each access of a trace is allowed, each row of a policy holds, each write is stored, no difference
/// is written, or a view or a help text was written; 1 if that isn't so; 2 or 3 if there is no answer, with a text on
/// `err` that says why.
///
/// `rt` creates the threads of an audit by several checkers, for which the call may wait.
///
/// `out` gets the report rows, the lines, the picture or the text. A text on `err` is handed over whole, in one write,
/// and an explanation after it in another. If it can't be written, or not completely, the status is the same.
pub fn run_tool<R: Threads + Wait + Sync, I: Inputs, O: Write, E: Write>(
    rt: &R,
    alloc: Global,
    words: &[String],
    inputs: &mut I,
    out: &mut O,
    err: &mut E,
) -> u8
    ensures status { result ≤ 3 }

    // The requested text was written, to a folder if the words ask for one, and to standard error only the answer's
    // note.
    ensures answered { result ≤ 1 → (outcome : Outcome) × (result ≡ outcome_status outcome)
        × Answers (map string_bytes words.now) (I.paths inputs.old) (O.contents out.old) (O.contents out.new)
        (I.paths inputs.new) outcome × Notes outcome (E.contents err.old) (E.contents err.new) }

    // Why it wasn't, or not completely, and how standard error reports that: its line is followed by an explanation if
    // the words ask for one.
    ensures failed { 2 ≤ result → (failure : Failure) × (result ≡ failure_status failure)
        × Fails (map string_bytes words.now) (I.paths inputs.old) (O.contents out.old) (O.contents out.new) failure
        × TellsAndExplains (map string_bytes words.now) failure (E.contents err.old) (E.contents err.new) }

    // A refused command leaves what stands at each path.
    ensures unchanged { 2 ≤ result → I.paths inputs.new ≡ I.paths inputs.old }

    // A long audit may be refused after rows that it wrote, and an import after lines; nothing else may.
    ensures untouched { result ≡ 2 → AsksForPieces (map string_bytes words.now)
        ⊎ Keeps (O.contents out.old) (O.contents out.new) }
{
    match run(work_with(rt, alloc, None, None), words, inputs, out) {
        Ok(outcome) => {
            tell_note(outcome, err);
            outcome.status()
        }
        Err(failure) => {
            tell_and_explain(words, &failure, inputs, err);
            failure.status()
        }
    }
}

/// Reads the words, and does what they request, with the names and in the form that they ask for.
fn run<R: Threads + Wait + Sync, I: Inputs, O: Write>(
    work: Work<'_, '_, R>,
    words: &[String],
    inputs: &mut I,
    out: &mut O,
) -> Result<Outcome, Failure>
    ensures ok { IfOk result (Answers (map string_bytes words.now) (I.paths inputs.old) (O.contents out.old)
        (O.contents out.new) (I.paths inputs.new)) }
    ensures err { IfErr result (Fails (map string_bytes words.now) (I.paths inputs.old) (O.contents out.old)
        (O.contents out.new)) }
    ensures unchanged { OnErr result (I.paths inputs.new ≡ I.paths inputs.old) }
{
    let alloc = work.setting.alloc;
    match parse_words(alloc, words) {
        Ok(matches) => answer_words(work, &matches, inputs, out),
        Err(error) if error.use_stderr() => Err(Failure::from(error)),
        Err(text) => tell(alloc, &text, out),
    }
}

/// Does what the matches ask for that `clap` found in the words.
fn answer_words<R: Threads + Wait + Sync, I: Inputs, O: Write>(
    work: Work<'_, '_, R>,
    matches: &ArgMatches<'_>,
    inputs: &mut I,
    out: &mut O,
) -> Result<Outcome, Failure>
    ensures ok { IfOk result (Does (subcommand_rows_of matches.now) (I.paths inputs.old) (O.contents out.old)
        (O.contents out.new) (I.paths inputs.new)) }
    ensures err { IfErr result (DoesNot (subcommand_rows_of matches.now) (I.paths inputs.old) (O.contents out.old)
        (O.contents out.new)) }
    ensures unchanged { OnErr result (I.paths inputs.new ≡ I.paths inputs.old) }
{
    let alloc = work.setting.alloc;
    let form = asked_format(matches)?;
    let Some(path) = names_path(matches)? else {
        let request = read_request(matches, &[])?;
        return answer_request(work_with(work.rt, alloc, None, form), request, inputs, out);
    };
    let text = inputs.trace(path)?;
    let names = read_names(alloc, &text)?;
    inputs.forget();
    let request = read_request(matches, &names)?;
    let work = work_with(work.rt, alloc, names_of(alloc, &names), form);
    answer_request(work, request, inputs, out)
}

/// Returns what a request is answered with.
fn work_with<'r, 'a, R>(
    rt: &'r R,
    alloc: Global,
    names: Option<AddressNames<'a>>,
    form: Option<AskedFormat<'a>>,
) -> Work<'r, 'a, R>
    ensures names { given_names result.setting.names ≡ given_names names.entry }
    ensures form { result.setting.form ≡ form.entry }
{
    let setting = Setting { alloc, names, form };
    Work { rt, setting }
}

/// Returns names as those that are given.
fn names_of<'a>(alloc: Global, all: &'a [AddressName<'a>]) -> Option<AddressNames<'a>>
    ensures { given_names result ≡ Some (map named all.now) }
{
    Some(AddressNames { alloc, all })
}

/// Does what a request asks for.
fn answer_request<R: Threads + Wait + Sync, I: Inputs, O: Write>(
    work: Work<'_, '_, R>,
    request: Request<'_>,
    inputs: &mut I,
    out: &mut O,
) -> Result<Outcome, Failure>
    ensures ok { IfOk result (IsDone (I.paths inputs.old) (given_names work.entry.setting.names) work.entry.setting.form
        (O.contents out.old) (O.contents out.new) request.entry (I.paths inputs.new)) }
    ensures err { IfErr result (IsUndone (I.paths inputs.old)
        (given_names work.entry.setting.names) work.entry.setting.form
        (O.contents out.old) (O.contents out.new) request.entry) }
    ensures unchanged { OnErr result (I.paths inputs.new ≡ I.paths inputs.old) }
{
    match request {
        Request::Print(printed) => answer_printed(work, printed, inputs, out),
        Request::LongAudit(audit) => work.write_long_report(audit, inputs, out),
        Request::Import(asked) => match asked.folder {
            Some(folder) => import_harts(work.setting.alloc, asked, folder, inputs),
            None => Ok(Outcome::Imported(write_import(work.setting.alloc, asked, inputs, out)?)),
        },
    }
}

/// Prints the answer to a request: an audit by one script as it is made, any other one as a whole.
fn answer_printed<R: Threads + Wait + Sync, I: Inputs, O: Write>(
    work: Work<'_, '_, R>,
    printed: Printed<'_>,
    inputs: &mut I,
    out: &mut O,
) -> Result<Outcome, Failure>
    ensures ok { IfOk result (IsDone (I.paths inputs.old) (given_names work.entry.setting.names) work.entry.setting.form
        (O.contents out.old) (O.contents out.new) (request.Print printed.entry) (I.paths inputs.new)) }
    ensures err { IfErr result (IsUndone (I.paths inputs.old)
        (given_names work.entry.setting.names) work.entry.setting.form
        (O.contents out.old) (O.contents out.new) (request.Print printed.entry)) }
    ensures paths { I.paths inputs.new ≡ I.paths inputs.old }
{
    match printed {
        Printed::Ask(path, Question::Audit(audit)) => {
            work.answer_audit(path, audit, inputs, out)
        }
        _ => print(work.setting, printed, inputs, out),
    }
}

/// Prints the answer to a request as a whole.
fn print<I: Inputs, O: Write>(
    setting: Setting<'_>,
    printed: Printed<'_>,
    inputs: &mut I,
    out: &mut O,
) -> Result<Outcome, Failure>
    ensures ok { IfOk result (λ outcome. (text : List ℕ) × TextSays
        (paths_for (given_names setting.entry.names) (I.paths inputs.old))
        (given_names setting.entry.names) setting.entry.form
        printed.entry outcome text × Appends (O.contents out.old) (O.contents out.new) text) }
    ensures err { IfErr result (IsUndone (I.paths inputs.old) (given_names setting.entry.names) setting.entry.form
        (O.contents out.old) (O.contents out.new) (request.Print printed.entry)) }
    ensures paths { I.paths inputs.new ≡ I.paths inputs.old }
{
    let (outcome, text) = text_of(setting, printed, inputs)?;
    write_out(out, &text)?;
    Ok(outcome)
}

impl<'r, 'a, R: Threads + Wait + Sync> Work<'r, 'a, R> {
    /// Audits a trace by one script, or prints the decisions of each hart of a folder.
    fn answer_audit<I: Inputs, O: Write>(
        self,
        path: &str,
        audit: Audit<'_>,
        inputs: &mut I,
        out: &mut O,
    ) -> Result<Outcome, Failure>
        ensures ok { IfOk result (IsDone (I.paths inputs.old)
            (given_names self.entry.setting.names) self.entry.setting.form
            (O.contents out.old) (O.contents out.new)
            (request.Print (printed.Ask path.entry (question.Audit audit.entry))) (I.paths inputs.new)) }
        ensures err { IfErr result (IsUndone (I.paths inputs.old)
            (given_names self.entry.setting.names) self.entry.setting.form
            (O.contents out.old) (O.contents out.new) (request.Print (printed.Ask path.entry
            (question.Audit audit.entry)))) }
        ensures paths { I.paths inputs.new ≡ I.paths inputs.old }
    {
        let asking = Asking {
            alloc: self.setting.alloc,
            names: self.setting.names,
            path,
            question: Question::Audit(audit),
        };
        let Some(_) = Harts::find(asking, inputs)? else {
            return self.write_report(path, audit, inputs, out);
        };
        print(
            self.setting,
            Printed::Ask(path, Question::Audit(audit)),
            inputs,
            out,
        )
    }
}

/// Writes a text of help, or the version.
fn tell<O: Write>(alloc: Global, text: &clap::Error, out: &mut O) -> Result<Outcome, Failure>
    ensures ok { IfOk result (λ outcome. (outcome ≡ Told)
        × ((bytes : List ℕ) × Appends (O.contents out.old) (O.contents out.new) bytes)) }
    ensures err { IfErr result (TellingFails (O.contents out.old) (O.contents out.new)) }
{
    let text = text.to_string(alloc)?;
    write_out(out, text.as_bytes())?;
    Ok(Outcome::Told)
}
