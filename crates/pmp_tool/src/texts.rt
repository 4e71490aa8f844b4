//! The texts that answer requests, each printed at once.

ghost use Rattle.std.specs.Prelude.{◌≡◌, ◌⊎◌, IfErr, IfOk, List, None, false, map};
ghost use Rattle.pmp_core.specs.RegisterFile.{RegisterFile};
ghost use Rattle.pmp_names.specs.WholeRows.{whole};
ghost use Rattle.pmp_text.specs.Cells.{RowValue};
ghost use Rattle.pmp_text.specs.MetNames.{given_names};
ghost use Rattle.pmp_text.specs.declared.refusal.Refusal.TheVariants.{Memory};
ghost use Rattle.pmp_tool.specs.Failures.{refused};
ghost use Rattle.pmp_tool.specs.NumberedInputs.{paths_for};
ghost use Rattle.pmp_audit.specs.PolicyDraft.{DraftSays};
ghost use Rattle.pmp_plan.specs.PlansOf.{IsPlanOfScript};
ghost use Rattle.pmp_tool.specs.Questions.{PathFails, PathSays, names_for};
ghost use Rattle.pmp_tool.specs.RowFormats.{formed};
ghost use Rattle.pmp_tool.specs.Texts.{IsStart, NoStart, PlanTextFails, ScriptFails};
ghost use Rattle.pmp_tool.specs.Texts.{PlanTextSays, ScriptSays, TextFails, TextSays};
ghost use Rattle.pmp_tool.specs.declared.outcome.Outcome.TheVariants.{Listed};
ghost use Rattle.pmp_tool.specs.declared.request.Printed.TheVariants as printed;

use crate::argument::Argument;
use crate::failure::Failure;
use crate::hart_answers::{answer_harts, answer_whole};
use crate::hart_comparison::{Comparison, compare_harts};
use crate::harts::Harts;
use crate::inputs::Inputs;
use crate::outcome::Outcome;
use crate::questions::{Asking, add_answer, allow_name, script_at, unscripted};
use crate::request::{Plan, Printed, Question, Show};
use crate::row_format::{AskedFormat, formed, is_csv};
use crate::work::Setting;
use pmp_audit::{AskedView, append_policy_from, append_view};
use pmp_core::{Hart, RegFile};
use pmp_plan::{implemented_plan, plan_text, registers_after};
use pmp_text::{GrowingLog, Refusal};
use std::alloc::Global;

/// Answers a question about one script, in this form. As CSV without names its rows are text as soon as they are made,
/// since there may be millions.
fn text_of_one<I: Inputs>(
    asking: Asking<'_>,
    form: Option<AskedFormat<'_>>,
    inputs: &mut I,
) -> Result<(Outcome, Vec<u8>), Failure>
    ensures ok { IfOk result (λ both. (rows : List RowValue)
        × PathSays (paths_for (given_names asking.entry.names) (I.paths inputs.old)) asking.entry.path.now
        asking.entry.question both.0 rows × (both.1.items ≡ formed form.entry false
        (map (whole None (names_for asking.entry.question (given_names asking.entry.names))) rows))) }
    ensures err { IfErr result (λ failure. (failure ≡ refused Memory) ⊎ PathFails
        (paths_for (given_names asking.entry.names) (I.paths inputs.old)) asking.entry.path.now asking.entry.question
        failure) }
    ensures paths { I.paths inputs.new ≡ I.paths inputs.old }
{
    if is_csv(form) && asking.names.is_none() {
        let mut text = Vec::new(asking.alloc);
        let outcome = add_answer(asking, inputs, &mut text)?;
        return Ok((outcome, text));
    }
    let mut rows = Vec::new(asking.alloc);
    let outcome = answer_whole(asking, None, inputs, &mut rows)?;
    let text = formed(asking.alloc, form, false, &rows)?;
    Ok((outcome, text))
}

/// Returns the rows that answer a question about a script, or about each script of a folder, in the form that is asked
/// for.
fn ask_text<I: Inputs>(
    setting: Setting<'_>,
    path: &str,
    question: Question<'_>,
    inputs: &mut I,
) -> Result<(Outcome, Vec<u8>), Failure>
    ensures ok { IfOk result (λ both. TextSays (paths_for (given_names setting.entry.names) (I.paths inputs.old))
        (given_names setting.entry.names) setting.entry.form
        (printed.Ask path.entry question.entry) both.0 both.1.items) }
    ensures err { IfErr result (TextFails (paths_for (given_names setting.entry.names) (I.paths inputs.old))
        (given_names setting.entry.names) (printed.Ask path.entry question.entry)) }
    ensures paths { I.paths inputs.new ≡ I.paths inputs.old }
{
    let asking = Asking {
        alloc: setting.alloc,
        names: setting.names,
        path,
        question,
    };
    let Some(harts) = Harts::find(asking, inputs)? else {
        return text_of_one(asking, setting.form, inputs);
    };
    let (outcome, rows) = answer_harts(asking, &harts, inputs)?;
    let text = formed(setting.alloc, setting.form, true, &rows)?;
    Ok((outcome, text))
}

/// Returns the differences between the harts of a folder, in the form that is asked for.
fn harts_text<I: Inputs>(
    setting: Setting<'_>,
    folder: &str,
    has_locks: bool,
    inputs: &mut I,
) -> Result<(Outcome, Vec<u8>), Failure>
    ensures ok { IfOk result (λ both. TextSays (paths_for (given_names setting.entry.names) (I.paths inputs.old))
        (given_names setting.entry.names) setting.entry.form (printed.Harts folder.entry has_locks) both.0
        both.1.items) }
    ensures err { IfErr result (TextFails (paths_for (given_names setting.entry.names) (I.paths inputs.old))
        (given_names setting.entry.names) (printed.Harts folder.entry has_locks)) }
    ensures paths { I.paths inputs.new ≡ I.paths inputs.old }
{
    let asked = Comparison {
        alloc: setting.alloc,
        names: setting.names,
        folder,
        has_locks,
    };
    let (outcome, rows) = compare_harts(asked, inputs)?;
    let text = formed(setting.alloc, setting.form, true, &rows)?;
    Ok((outcome, text))
}

/// Returns a view of a script's registers.
fn show_text<I: Inputs>(
    setting: Setting<'_>,
    show: Show<'_>,
    inputs: &mut I,
) -> Result<Vec<u8>, Failure>
    ensures ok { IfOk result (λ text. TextSays (paths_for (given_names setting.entry.names) (I.paths inputs.old))
        (given_names setting.entry.names) setting.entry.form (printed.Show show.entry) Listed text.items) }
    ensures err { IfErr result (TextFails (paths_for (given_names setting.entry.names) (I.paths inputs.old))
        (given_names setting.entry.names) (printed.Show show.entry)) }
    ensures paths { I.paths inputs.new ≡ I.paths inputs.old }
{
    let script = match script_at(inputs, show.script) {
        Ok(script) => script,
        Err(refusal) => return Err(unscripted(show.after, Failure::from(refusal))),
    };
    allow_name(&script, Argument::After, show.after)?;
    let asked = AskedView {
        view: show.view,
        after: show.after,
        names: setting.names,
    };
    let mut text = Vec::new(setting.alloc);
    append_view(
        &mut GrowingLog::new(setting.alloc),
        asked,
        &script,
        &mut text,
    )?;
    Ok(text)
}

/// Returns the registers that the writes of a plan begin with.
fn start_of<I: Inputs>(alloc: Global, plan: Plan<'_>, inputs: &mut I) -> Result<RegFile, Failure>
    ensures ok { IfOk result (IsStart (I.paths inputs.old).scripts plan.entry) }
    ensures err { IfErr result (NoStart (I.paths inputs.old).scripts plan.entry) }
    ensures paths { I.paths inputs.new ≡ I.paths inputs.old }
{
    let Some(path) = plan.from else {
        return match Hart::new(plan.hart) {
            Ok(hart) => Ok(RegFile::reset_on(hart)),
            Err(_) => Err(Failure::from(Refusal::BadWord)),
        };
    };
    let script = script_at(inputs, path)?;
    Ok(registers_after(alloc, &script)?)
}

/// Returns the writes for a plan.
fn writes_text<I: Inputs>(alloc: Global, plan: Plan<'_>, inputs: &mut I) -> Result<Vec<u8>, Failure>
    ensures ok { IfOk result (λ text. PlanTextSays (I.paths inputs.old).scripts plan.entry text.items) }
    ensures err { IfErr result (PlanTextFails (I.paths inputs.old).scripts plan.entry) }
    ensures paths { I.paths inputs.new ≡ I.paths inputs.old }
{
    let rows = script_at(inputs, plan.plan)?;
    let start = start_of(alloc, plan, inputs)?;
    Ok(plan_text(alloc, &start, plan.wanted, &rows)?)
}

/// Returns the plan that a script's registers implement.
fn plan_of_text<I: Inputs>(alloc: Global, path: &str, inputs: &mut I) -> Result<Vec<u8>, Failure>
    ensures ok { IfOk result (λ text. ScriptSays (I.paths inputs.old).scripts path.now IsPlanOfScript text.items) }
    ensures err { IfErr result (ScriptFails (I.paths inputs.old).scripts path.now) }
    ensures paths { I.paths inputs.new ≡ I.paths inputs.old }
{
    let script = script_at(inputs, path)?;
    Ok(implemented_plan(alloc, &script)?)
}

/// Returns the policy of what is closed after a script's last publication.
fn draft_text<I: Inputs>(alloc: Global, path: &str, inputs: &mut I) -> Result<Vec<u8>, Failure>
    ensures ok { IfOk result (λ text. ScriptSays (I.paths inputs.old).scripts path.now
        (λ script. DraftSays script tt) text.items) }
    ensures err { IfErr result (ScriptFails (I.paths inputs.old).scripts path.now) }
    ensures paths { I.paths inputs.new ≡ I.paths inputs.old }
{
    let script = script_at(inputs, path)?;
    let mut text = Vec::new(alloc);
    append_policy_from(&mut GrowingLog::new(alloc), &script, &mut text)?;
    Ok(text)
}

/// Returns the outcome of a request, and the text that is printed for it.
pub fn text_of<I: Inputs>(
    setting: Setting<'_>,
    printed: Printed<'_>,
    inputs: &mut I,
) -> Result<(Outcome, Vec<u8>), Failure>
    ensures ok { IfOk result (λ both. TextSays (paths_for (given_names setting.entry.names) (I.paths inputs.old))
        (given_names setting.entry.names) setting.entry.form printed.entry both.0 both.1.items) }
    ensures err { IfErr result (TextFails (paths_for (given_names setting.entry.names) (I.paths inputs.old))
        (given_names setting.entry.names) printed.entry) }
    ensures paths { I.paths inputs.new ≡ I.paths inputs.old }
{
    let alloc = setting.alloc;
    let text = match printed {
        Printed::Ask(path, question) => return ask_text(setting, path, question, inputs),
        Printed::Harts(folder, has_locks) => return harts_text(setting, folder, has_locks, inputs),
        Printed::Show(show) => show_text(setting, show, inputs)?,
        Printed::Plan(plan) => writes_text(alloc, plan, inputs)?,
        Printed::PlanOf(path) => plan_of_text(alloc, path, inputs)?,
        Printed::PolicyFrom(path) => draft_text(alloc, path, inputs)?,
    };
    Ok((Outcome::Listed, text))
}
