//! The writes for a plan after a reset.

ghost use Rattle.std.specs.Prelude.{◌≡◌, ◌<◌, ◌≤◌, [], ℕ, IfErr, IfOk, IfSome, IsTrue, false, length, max};
ghost use Rattle.pmp_core.specs.declared.size.TheConstants.{MAX_ENTRIES};
ghost use Rattle.pmp_plan.specs.PlanFaults.{CanMeet, IsSound, Makes, Refuses};
ghost use Rattle.pmp_plan.specs.NoRows.{security_writes};
ghost use Rattle.pmp_plan.specs.Plans.{no_security};

use crate::fault::too_few;
use crate::judge::meets;
use crate::parts::Parts;
use crate::plan_row::PlanRow;
use crate::search::search;
use crate::security::Security;
use crate::soundness::check_plan;
use crate::state::{Chosen, State};
use crate::writes::{WRITES, are_writes, writes_of};
use arrayvec::ArrayVec;
use pmp_core::{Csr, Event, Hart, MAX_ENTRIES, Profile, RegFile};
use pmp_text::{Fault, Refusal};

/// Writes to a hart after reset that leave registers which meet a plan.
#[derive(Drop)]
pub struct Planned {
    /// The number of entries they write.
    pub entries: usize,
    pub writes: ArrayVec<Event, WRITES>,
}

/// Returns the writes for these entries, if the registers after them meet the plan: they are run on a unit of the hart.
fn judged(
    hart: Hart,
    security: Security,
    rows: &[PlanRow<'_>],
    entries: &[Chosen],
) -> Option<Planned>
    ensures { IfSome result (λ planned. Makes hart security rows.now planned.writes.items) }
{
    let writes = writes_of(hart, security, entries);
    if !are_writes(&writes) {
        return None;
    }
    let mut file = RegFile::reset_on(hart);
    file.run_events(&writes);
    if !meets(&file, hart, security, rows) {
        return None;
    }
    Some(Planned {
        entries: entries.len(),
        writes,
    })
}

/// Returns the same hart with the given number of entries.
fn with_entries(hart: Hart, entries: u8) -> Option<Hart>
    requires { entries ≤ MAX_ENTRIES }
    ensures { IfSome result (λ wide. wide ≡ record hart { entries = entries }) }
{
    let profile = Profile {
        entries,
        ..hart.profile()
    };
    Hart::new(profile).ok()
}

/// Whether the entries of a state are enough, if a hart can have so many.
fn is_enough(hart: Hart, security: Security, rows: &[PlanRow<'_>], state: &State) -> bool
    ensures { IsTrue result → max state.now.count 1 ≤ MAX_ENTRIES
        → CanMeet (record hart { entries = max state.now.count 1 }) security rows.now }
{
    let found = state.count.max(1);
    if found > MAX_ENTRIES {
        return true;
    }
    match with_entries(hart, found as u8) {
        Some(wide) => judged(wide, security, rows, state.entries()).is_some(),
        None => false,
    }
}

/// Returns which of the rows takes the most entries, and how many.
fn costliest(parts: &Parts, state: &State, rows: &[PlanRow<'_>]) -> (usize, usize)
    ensures { 0 < length rows.now → result.0 < length rows.now }
{
    let (mut costly, mut takes) = (0, 0);
    for (index, row) in rows.iter().enumerate() {
        let chosen = state.chosen_at(parts, row.first);
        if chosen > takes {
            (costly, takes) = (index, chosen);
        }
    }
    (costly, takes)
}

/// Returns the writes for a sound plan with rows.
#[tactic(auto, using(crate::specs::PlanFaults::stopped, crate::specs::PlanFaults::few_entries))]
fn found(
    room: &mut [State],
    hart: Hart,
    security: Security,
    rows: &[PlanRow<'_>],
) -> Result<Planned, Fault>
    requires sound { IsSound hart security rows.now }
    requires rows { 0 < length rows.now }
    ensures made { IfOk result (λ planned. Makes hart security rows.now planned.writes.items) }
    ensures few { IfOk result (λ planned. rows.now ≡ [] → length planned.writes.items ≤ 1) }
    ensures err { IfErr result (Refuses hart security rows.now) }
{
    let Some(parts) = Parts::of(hart, security, rows) else {
        return Err(Fault::from(Refusal::Stopped));
    };
    let Some(state) = search(room, &parts, State::beginning(&parts)) else {
        return Err(Fault::from(Refusal::Stopped));
    };
    let found = state.count.max(1);
    if found <= usize::from(hart.entries()) {
        return match judged(hart, security, rows, state.entries()) {
            Some(planned) => Ok(planned),
            None => Err(Fault::from(Refusal::Stopped)),
        };
    }
    if !is_enough(hart, security, rows, &state) {
        return Err(Fault::from(Refusal::Stopped));
    }
    let (row, takes) = costliest(&parts, &state, rows);
    Err(too_few(found, row, takes))
}

/// Returns the write of `mseccfg`, if one of its bits is asked for.
fn security_writes(security: Security) -> ArrayVec<Event, WRITES>
    ensures { result.items ≡ security_writes security }
{
    let mut writes = ArrayVec::new();
    let value = security.value();
    if value > 0 {
        writes.push(Event::Write(Csr::Mseccfg, value));
    }
    writes
}

/// Returns the writes for a plan without rows.
fn of_no_rows(hart: Hart, security: Security) -> Planned
    requires kept { hart.has_smepmp ≡ false → security ≡ no_security }
    ensures made { (count : ℕ) → 0 < count
        → Makes (record hart { entries = count }) security [] result.writes.items }
    ensures few { length result.writes.items ≤ 1 }
    ensures none { result.entries ≡ 0 }
{
    Planned {
        entries: 0,
        writes: security_writes(security),
    }
}

/// Returns writes for a hart after reset, which leave registers that give each byte of each row exactly the row's
/// rights, hold it if the row is locked, and leave every other byte as without entries.
///
/// The writes are run on a unit of the hart, and judged, before they are returned, so the search can only refuse. The
/// first of these is reported: two rows that have a byte in common; a row that begins or ends inside a grain, or has
/// bytes above the hart's addresses; a bit of `mseccfg` that the hart doesn't keep; a row whose rights no entry gives;
/// more entries than there are; `Stopped`, which a plan without rows never is. The search has the room, of
/// `SEARCH_ROOM` states.
pub fn plan_at_reset(
    room: &mut [State],
    hart: Hart,
    security: Security,
    rows: &[PlanRow<'_>],
) -> Result<Planned, Fault>
    ensures made { IfOk result (λ planned. Makes hart security rows.now planned.writes.items) }
    ensures few { IfOk result (λ planned. rows.now ≡ [] → length planned.writes.items ≤ 1) }
    ensures sound { IfOk result (λ planned. IsSound hart security rows.now) }
    ensures err { IfErr result (Refuses hart security rows.now) }
{
    check_plan(hart, security, rows)?;
    if !rows.is_empty() {
        return found(room, hart, security, rows);
    }
    let planned = of_no_rows(hart, security);
    if hart.entries() == 0 {
        return Err(too_few(1, 0, 0));
    }
    Ok(planned)
}
