//! Whether bytes stay open and closed from each write to the next.

ghost use Rattle.std.specs.Prelude.{◌≡◌, ◌<◌, ◌≤◌, ℕ, IfSome, IsTrue, true};
ghost use Rattle.pmp_core.specs.declared.access.TheConstants.{ADDRESS_LIMIT};
ghost use Rattle.pmp_plan.specs.Routes.{IsSafe, Leads, StaysAs};
ghost use Rattle.pmp_plan.specs.Steps.{HaveRights, KindStays, PermsStay, RightsStay};

use crate::aim::{Aim, Watch};
use crate::judge::meets;
use crate::plan_row::PlanRow;
use crate::writes::are_writes;
use pmp_core::{ADDRESS_LIMIT, Event, Kind, Perms, RegFile, Registers};
use pmp_map::{ModeRights, run_around};

/// The registers before all writes, after some of them, and after all.
#[derive(Clone, Copy)]
pub struct Passage<'a> {
    pub before: &'a Registers<'a>,
    pub during: &'a Registers<'a>,
    pub after: &'a Registers<'a>,
}

/// The same of one thing of these registers.
#[derive(Clone, Copy)]
struct Three<T> {
    before: T,
    during: T,
    after: T,
}

/// Whether accesses of this kind are answered in between as they are before and after.
fn kind_stays(watch: Watch, perms: Three<Perms>, kind: Kind) -> bool
    ensures yes { IsTrue result → KindStays watch perms kind }
    ensures no { KindStays watch perms kind → IsTrue result }
{
    let (before, after) = (perms.before.allows(kind), perms.after.allows(kind));
    let is_asked = before == after && (watch.keeps_open || !after);
    !is_asked || perms.during.allows(kind) == after
}

/// Whether accesses of every kind are.
fn perms_stay(watch: Watch, perms: Three<Perms>) -> bool
    ensures yes { IsTrue result → PermsStay watch perms }
    ensures no { PermsStay watch perms → IsTrue result }
{
    if !kind_stays(watch, perms, Kind::Load) {
        return false;
    }
    if !kind_stays(watch, perms, Kind::Store) {
        return false;
    }
    kind_stays(watch, perms, Kind::Fetch)
}

/// Whether those of every mode that runs are.
fn rights_stay(watch: Watch, rights: Three<ModeRights>) -> bool
    ensures yes { IsTrue result → RightsStay watch rights }
    ensures no { RightsStay watch rights → IsTrue result }
{
    let machine = Three {
        before: rights.before.machine,
        during: rights.during.machine,
        after: rights.after.machine,
    };
    let others = Three {
        before: rights.before.others,
        during: rights.during.others,
        after: rights.after.others,
    };
    if !perms_stay(watch, machine) {
        return false;
    }
    watch.is_machine_alone || perms_stay(watch, others)
}

impl<'a> Passage<'a> {
    /// Returns what the modes may do with the bytes from this one on, and the last of them.
    fn rights_from(&self, first: u64) -> (Three<ModeRights>, u64)
        requires { first < ADDRESS_LIMIT }
        ensures proper { first ≤ result.1 }
        ensures below { result.1 < ADDRESS_LIMIT }
        ensures alike { (byte : ℕ) → first ≤ byte → byte ≤ result.1
            → HaveRights self.now.before.now self.now.during.now self.now.after.now byte result.0 }
    {
        let before = run_around(self.before, first);
        let during = run_around(self.during, first);
        let after = run_around(self.after, first);
        let earlier = ModeRights::of_owner(self.before, before.owner);
        let meanwhile = ModeRights::of_owner(self.during, during.owner);
        let later = ModeRights::of_owner(self.after, after.owner);
        let rights = Three {
            before: earlier,
            during: meanwhile,
            after: later,
        };
        (rights, before.last.min(during.last).min(after.last))
    }

    /// Whether each byte stays closed, and open if that is asked for.
    pub fn stays(&self, watch: Watch) -> bool
        ensures yes { IsTrue result → StaysAs watch self.now.before.now self.now.during.now self.now.after.now }
        ensures no { StaysAs watch self.now.before.now self.now.during.now self.now.after.now → IsTrue result }
    {
        let mut at = 0;
        while at < ADDRESS_LIMIT {
            let (rights, last) = self.rights_from(at);
            if !rights_stay(watch, rights) {
                return false;
            }
            at = last + 1;
        }
        true
    }
}

/// Whether it is so after each of the writes.
pub fn is_safe(watch: Watch, start: &RegFile, writes: &[Event]) -> bool
    ensures yes { IsTrue result → IsSafe watch start.now writes.now }
    ensures no { IsSafe watch start.now writes.now → IsTrue result }
{
    let mut after = *start;
    after.run_events(writes);
    let mut during = *start;
    for event in writes {
        during.step(*event);
        let passage = Passage {
            before: &start.registers(),
            during: &during.registers(),
            after: &after.registers(),
        };
        if !passage.stays(watch) {
            return false;
        }
    }
    true
}

/// Whether the writes are safe, if that is asked for.
fn is_safe_as_asked(watch: Option<Watch>, start: &RegFile, writes: &[Event]) -> bool
    ensures yes { IsTrue result → IfSome watch (λ watch. IsSafe watch start.now writes.now) }
    ensures no { IfSome watch (λ watch. IsSafe watch start.now writes.now) → IsTrue result }
{
    match watch {
        Some(watch) => is_safe(watch, start, writes),
        None => true,
    }
}

/// Whether the events are writes and lead from these registers to ones that meet the plan, each as safe as is asked for.
pub fn leads(start: &RegFile, aim: Aim, rows: &[PlanRow<'_>], writes: &[Event]) -> bool
    ensures yes { IsTrue result → Leads start.now aim rows.now writes.now }
    ensures no { Leads start.now aim rows.now writes.now → IsTrue result }
{
    let mut end = *start;
    end.run_events(writes);
    are_writes(writes)
        && meets(&end, start.hart(), aim.lasting(start), rows)
        && is_safe_as_asked(aim.watch, start, writes)
}
