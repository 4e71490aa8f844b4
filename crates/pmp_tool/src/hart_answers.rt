//! The answers to a question about one script, or about each script of a folder, as whole rows.

ghost use Rattle.std.specs.Prelude.{◌≡◌, ◌++◌, ◌⊎◌, IfErr, IfOk, List, None, map, option_map, string_bytes, unwrap_or, []};
ghost use Rattle.pmp_names.specs.WholeRows.{whole};
ghost use Rattle.pmp_text.specs.Cells.{RowValue};
ghost use Rattle.pmp_text.specs.MetNames.{given_names};
ghost use Rattle.pmp_text.specs.declared.refusal.Refusal.TheVariants.{Memory};
ghost use Rattle.pmp_tool.specs.Commands.{query_of};
ghost use Rattle.pmp_tool.specs.Failures.{refused};
ghost use Rattle.pmp_tool.specs.HartSteps.{FailsOn, IsAnsweredOn, with_new};
ghost use Rattle.pmp_tool.specs.Harts.{HartsFail, HartsSay, new_script, path_on};
ghost use Rattle.pmp_tool.specs.NumberedInputs.{paths_for};
ghost use Rattle.pmp_tool.specs.Questions.{PathFails, PathSays, names_for, takes_names};

use crate::failure::Failure;
use crate::harts::{Harts, new_script};
use crate::inputs::Inputs;
use crate::outcome::Outcome;
use crate::questions::{Asking, add_answer};
use crate::request::{Diff, Question};
use pmp_names::{Beside, HartName, append_whole};
use pmp_text::{AddressNames, AnswerRow};
use std::alloc::{AllocError, Global};

/// Whether rows have the names of their ranges, if names are given.
fn takes_names(question: Question<'_>) -> bool
    ensures { result ≡ takes_names question.entry }
{
    match question {
        Question::List(..) | Question::Policy(_) | Question::Lint(_) | Question::Diff(_) => true,
        Question::Check(_) | Question::Why(_) | Question::Audit(_) | Question::Writes(_) => false,
    }
}

/// Returns the names that the rows of a question have.
fn names_for<'a>(asking: Asking<'a>) -> Option<AddressNames<'a>>
    ensures { given_names result ≡ names_for asking.entry.question (given_names asking.entry.names) }
{
    if takes_names(asking.question) {
        asking.names
    } else {
        None
    }
}

/// Appends the rows of a question about one script, with the name of its hart, if it is one of several, and the names
/// of their ranges.
pub fn answer_whole<I: Inputs>(
    asking: Asking<'_>,
    hart: Option<&str>,
    inputs: &mut I,
    rows: &mut Vec<AnswerRow>,
) -> Result<Outcome, Failure>
    ensures ok { IfOk result (λ outcome. (own : List RowValue)
        × PathSays (paths_for (given_names asking.entry.names) (I.paths inputs.old)) asking.entry.path.now
        asking.entry.question outcome own
        × (rows.new.items ≡ rows.old.items ++ map (whole (option_map (λ name. name.now) hart.entry)
        (names_for asking.entry.question (given_names asking.entry.names))) own)) }
    ensures err { IfErr result (λ failure. (failure ≡ refused Memory) ⊎ PathFails
        (paths_for (given_names asking.entry.names) (I.paths inputs.old)) asking.entry.path.now asking.entry.question
        failure) }
    ensures paths { I.paths inputs.new ≡ I.paths inputs.old }
{
    let mut own = Vec::new(asking.alloc);
    let outcome = add_answer(asking, inputs, &mut own)?;
    let beside = Beside {
        alloc: asking.alloc,
        hart,
        names: names_for(asking),
    };
    append_whole(rows, own, beside)?;
    Ok(outcome)
}

/// Returns the path, extended to that of a hart's script if it is the path of a folder.
pub fn path_on(alloc: Global, is_folder: bool, path: &str, name: &str) -> Result<String, AllocError>
    ensures { IfOk result (λ on. string_bytes on ≡ path_on is_folder path.now name.now) }
{
    let mut on = String::from_str(alloc, path)?;
    if is_folder {
        on.push('/')?;
        on.push_str(name)?;
    }
    Ok(on)
}

/// Returns the path of a hart's new script, if there is one.
fn new_on(
    alloc: Global,
    harts: &Harts,
    question: Question<'_>,
    name: &str,
) -> Result<String, AllocError>
    ensures { IfOk result (λ on. string_bytes on ≡ path_on harts.now.new (unwrap_or (new_script question.entry) [])
        name.now) }
{
    match new_script(question) {
        Some(path) => path_on(alloc, harts.new, path, name),
        None => path_on(alloc, harts.new, "", name),
    }
}

impl<'a> Question<'a> {
    /// Returns the same for the new script at this path, if there is one.
    fn with_new(self, new: &'a str) -> Question<'a>
        ensures query { query_of result ≡ with_new new.now (query_of self.entry) }
        ensures names { takes_names result ≡ takes_names self.entry }
    {
        match self {
            Question::Diff(asked) => Question::Diff(Diff { new, ..asked }),
            question => question,
        }
    }
}

impl Harts {
    /// Appends the rows about one of the harts, each behind its name.
    fn answer_on<I: Inputs>(
        &self,
        asking: Asking<'_>,
        hart: &HartName,
        inputs: &mut I,
        rows: &mut Vec<AnswerRow>,
    ) -> Result<Outcome, Failure>
        ensures ok { IfOk result (IsAnsweredOn (paths_for (given_names asking.entry.names) (I.paths inputs.old))
            asking.entry.path.now asking.entry.question self.now (given_names asking.entry.names) hart.now.name.bytes
            rows.old.items rows.new.items) }
        ensures err { IfErr result (FailsOn (paths_for (given_names asking.entry.names) (I.paths inputs.old))
            asking.entry.path.now asking.entry.question self.now hart.now) }
        ensures paths { I.paths inputs.new ≡ I.paths inputs.old }
    {
        let name = hart.name.as_str();
        let path = path_on(asking.alloc, self.old, asking.path, name)?;
        let new = new_on(asking.alloc, self, asking.question, name)?;
        let one = Asking {
            alloc: asking.alloc,
            names: asking.names,
            path: path.as_str(),
            question: asking.question.with_new(new.as_str()),
        };
        inputs.forget();
        match answer_whole(one, Some(name), inputs, rows) {
            Ok(outcome) => Ok(outcome),
            Err(failure) => Err(failure.of_hart(hart.name)),
        }
    }
}

/// Answers a question about each hart, and returns the rows of all.
pub fn answer_harts<I: Inputs>(
    asking: Asking<'_>,
    harts: &Harts,
    inputs: &mut I,
) -> Result<(Outcome, Vec<AnswerRow>), Failure>
    ensures ok { IfOk result (λ both. HartsSay (paths_for (given_names asking.entry.names) (I.paths inputs.old))
        asking.entry.path.now asking.entry.question harts.now
        (names_for asking.entry.question (given_names asking.entry.names)) both.0 both.1.items) }
    ensures err { IfErr result (HartsFail (paths_for (given_names asking.entry.names) (I.paths inputs.old))
        asking.entry.path.now asking.entry.question harts.now) }
    ensures paths { I.paths inputs.new ≡ I.paths inputs.old }
{
    let mut rows = Vec::new(asking.alloc);
    let mut outcome = Outcome::Listed;
    let mut rest = harts.names.as_slice();
    while let Some((hart, behind)) = rest.split_first() {
        let one = harts.answer_on(asking, hart, inputs, &mut rows)?;
        outcome = outcome.worse(one);
        rest = behind;
    }
    Ok((outcome, rows))
}
