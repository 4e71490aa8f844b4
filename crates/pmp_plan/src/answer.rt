//! The text of the writes for a plan.

ghost use Rattle.std.specs.Prelude.{◌≡◌, IfErr, IfOk};
ghost use Rattle.pmp_plan.specs.PlanAnswers.{IsTold, PlanFails, Tells, Untold};

use crate::aim::{Aim, Goal};
use crate::array::append_array;
use crate::leading::plan;
use crate::level::search_room;
use crate::plan_row::PlanRow;
use crate::reading::read_plan;
use crate::script::append_script;
use pmp_core::RegFile;
use pmp_text::{Fault, MAX_SCRIPT, Refusal, Source};
use std::alloc::Global;

/// The output format of writes.
#[derive(Clone, Copy, Debug, PartialEq, Eq)]
pub enum Form {
    /// As a script of version 3.
    Script,
    /// As an array in C.
    Array,
}

/// What is asked of the writes of a plan, and how they are written.
#[derive(Clone, Copy, Debug, PartialEq, Eq)]
pub struct Wanted {
    pub aim: Aim,
    pub form: Form,
}

/// Returns the text of the writes for these rows.
fn told(
    alloc: Global,
    start: &RegFile,
    wanted: Wanted,
    rows: &[PlanRow<'_>],
) -> Result<Vec<u8>, Fault>
    ensures ok { IfOk result (λ text. IsTold start.now wanted.aim wanted.form rows.now text.items) }
    ensures err { IfErr result (Untold start.now wanted.aim rows.now) }
{
    let Wanted { aim, form } = wanted;
    let writes = plan(&mut search_room(alloc)?, start, aim, rows)?;
    let mut text = Vec::new(alloc);
    match form {
        Form::Script => append_script(&mut text, start, Goal { aim, rows }, &writes)?,
        Form::Array => append_array(&mut text, &writes)?,
    }
    Ok(text)
}

/// Returns the writes for a plan in a text, from these registers.
pub fn plan_text(
    alloc: Global,
    start: &RegFile,
    wanted: Wanted,
    plan: &[u8],
) -> Result<Vec<u8>, Fault>
    ensures ok { IfOk result (λ text. Tells start.now wanted.aim wanted.form plan.now text.items) }
    ensures err { IfErr result (PlanFails start.now wanted.aim plan.now) }
{
    if plan.len() > MAX_SCRIPT {
        return Err(Refusal::TooLong.whole().at_row(Source::Plan, 0));
    }
    let rows = read_plan(alloc, plan)?;
    told(alloc, start, wanted, &rows)
}
