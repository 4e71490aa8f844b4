//! Writes that lead from registers to a plan.

ghost use Rattle.std.specs.Prelude.{IfErr, IfOk};
ghost use Rattle.pmp_plan.specs.PlanFaults.{IsSound, RefusesFrom};
ghost use Rattle.pmp_plan.specs.Routes.{Leads, lasting};

use crate::aim::{Aim, Goal, Watch};
use crate::judge::meets;
use crate::layout::{Layout, behind_frozen, with_entries};
use crate::order::Route;
use crate::parts::Parts;
use crate::passing::leads;
use crate::plan_row::PlanRow;
use crate::planning::{Planned, plan_at_reset};
use crate::search::search;
use crate::state::State;
use crate::writes::WRITES;
use arrayvec::ArrayVec;
use pmp_core::{Event, RegFile, SavedRegisters};
use pmp_text::{Fault, Refusal};

/// Returns writes to the plan's entries in the first place where an order is found.
fn order_in(layout: Layout<'_>, goal: Goal<'_, '_>) -> Option<ArrayVec<Event, WRITES>> {
    let start = layout.start;
    let security = goal.aim.lasting(start);
    for first in 0..usize::from(start.entries()) {
        let Some(mut target) = layout.from_place(first) else {
            continue;
        };
        target.mseccfg = security.value();
        let end = RegFile::restore(&target);
        if !meets(&end, start.hart(), security, goal.rows) {
            continue;
        }
        if let Some(writes) = Route::new(goal.aim.watch, start, &end).found() {
            return Some(writes);
        }
    }
    None
}

/// Returns the goal with everything kept open that may be.
fn keeping<'r, 'p>(goal: Goal<'r, 'p>) -> Goal<'r, 'p> {
    let watch = goal.aim.watch.map(|watch| Watch {
        keeps_open: true,
        ..watch
    });
    let aim = Aim { watch, ..goal.aim };
    Goal { aim, ..goal }
}

/// Returns writes that put these entries, so many of them, among those that are there, if they are found: if possible,
/// what is open before and after stays open.
fn order_of(
    start: &RegFile,
    wanted: &SavedRegisters,
    count: usize,
    goal: Goal<'_, '_>,
) -> Option<ArrayVec<Event, WRITES>> {
    let layout = Layout {
        start,
        wanted,
        count,
    };
    let kept = order_in(layout, keeping(goal));
    if kept.is_some() {
        return kept;
    }
    order_in(layout, goal)
}

/// Returns writes from these registers, if they are found: to the entries that a plan has after a reset, or else to
/// entries that are found behind those that no write changes.
fn found(
    room: &mut [State],
    start: &RegFile,
    goal: Goal<'_, '_>,
    planned: &Planned,
) -> Option<ArrayVec<Event, WRITES>> {
    let mut after_reset = RegFile::reset_on(start.hart());
    after_reset.run_events(&planned.writes);
    let writes = order_of(start, &after_reset.save(), planned.entries, goal);
    if writes.is_some() {
        return writes;
    }
    let parts = Parts::of(start.hart(), goal.aim.lasting(start), goal.rows)?;
    let state = search(room, &parts, behind_frozen(&parts, start))?;
    let wanted = with_entries(start, state.entries());
    order_of(start, &wanted, state.count, goal)
}

/// Returns writes from these registers to ones that give each byte of each row exactly the row's rights, hold it if the
/// row is locked, and leave every other byte as without entries: none if the registers do so. If that is asked for, each
/// write keeps closed what is closed before all of them and after.
///
/// The writes are run on a unit of the hart, and judged, before they are returned, so the search can only refuse. The
/// first of these is reported: what a plan for the same hart after a reset is refused for; `NoOrder`, which doesn't come
/// after a reset if nothing is asked of the writes on the way, or if the plan has no rows. The search has the room, of
/// `SEARCH_ROOM` states.
pub fn plan(
    room: &mut [State],
    start: &RegFile,
    aim: Aim,
    rows: &[PlanRow<'_>],
) -> Result<ArrayVec<Event, WRITES>, Fault>
    ensures ok { IfOk result (λ writes. Leads start.now aim rows.now writes.items) }
    ensures sound { IfOk result (λ _. IsSound start.now.profile (lasting start.now aim.security) rows.now) }
    ensures err { IfErr result (RefusesFrom start.now aim rows.now) }
{
    let planned = plan_at_reset(room, start.hart(), aim.lasting(start), rows)?;
    if leads(start, aim, rows, &[]) {
        return Ok(ArrayVec::new());
    }
    let is_reset = *start == RegFile::reset_on(start.hart());
    if is_reset && leads(start, aim, rows, &planned.writes) {
        return Ok(planned.writes);
    }
    match found(room, start, Goal { aim, rows }, &planned) {
        Some(writes) if leads(start, aim, rows, &writes) => Ok(writes),
        _ => Err(Fault::from(Refusal::NoOrder)),
    }
}
