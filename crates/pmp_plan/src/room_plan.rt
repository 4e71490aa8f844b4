//! The script of a plan, in rooms that a caller has.

ghost use Rattle.std.specs.Prelude.{◌≡◌, ◌++◌, IfErr, List, OnErr, OnOk, ℕ};
ghost use Rattle.pmp_core.specs.RegisterFile.{reset_file};
ghost use Rattle.pmp_plan.specs.PlanAnswers.{Tells};
ghost use Rattle.pmp_plan.specs.PlanRooms.{HasNoScript};
ghost use Rattle.pmp_plan.specs.Routes.{plain};
ghost use Rattle.pmp_plan.specs.declared.answer.Form.TheVariants.{Script};

use crate::aim::{Aim, Goal};
use crate::leading::plan;
use crate::reading::read_plan_to;
use crate::row_list::RowList;
use crate::script::append_script;
use crate::security::Security;
use crate::state::State;
use pmp_core::{Hart, RegFile};
use pmp_text::{Fault, MAX_SCRIPT, Refusal, Sink, Source};

/// A plan in a text, for a hart after reset and bits of `mseccfg`.
#[derive(Clone, Copy)]
pub struct AskedPlan<'a> {
    pub hart: Hart,
    pub security: Security,
    pub text: &'a [u8],
}

/// Appends the script that `plan_text` gives for a plan. The list keeps the plan's rows, and the search has the other
/// room, of `SEARCH_ROOM` states.
pub fn append_plan<'a, L: RowList<'a>, S: Sink>(
    rows: &mut L,
    room: &mut [State],
    asked: AskedPlan<'a>,
    out: &mut S,
) -> Result<(), Fault>
    ensures ok { OnOk result ((script : List ℕ) × Tells (reset_file asked.entry.hart) (plain asked.entry.security) Script
        asked.entry.text.now script × (S.text out.new ≡ S.text out.old ++ script)) }
    ensures err { IfErr result (HasNoScript asked.entry.hart asked.entry.security asked.entry.text.now) }
    ensures kept { OnErr result (S.text out.new ≡ S.text out.old) }
{
    let text = asked.text;
    if text.len() > MAX_SCRIPT {
        return Err(Refusal::TooLong.whole().at_row(Source::Plan, 0));
    }
    read_plan_to(rows, text)?;
    let start = RegFile::reset_on(asked.hart);
    let aim = Aim::plain(asked.security);
    let rows = rows.rows();
    let writes = plan(room, &start, aim, rows)?;
    append_script(out, &start, Goal { aim, rows }, &writes)?;
    Ok(())
}
