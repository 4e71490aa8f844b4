//! The first byte for which a plan isn't met.

ghost use Rattle.std.specs.Prelude.{◌≡◌, ◌<◌, IfSome, IsTrue, MatchOption, length};
ghost use Rattle.pmp_core.specs.declared.access.TheConstants.{ADDRESS_LIMIT};
ghost use Rattle.pmp_plan.specs.Verdicts.{IsFirst, IsFirstOfRest};
ghost use Rattle.pmp_plan.specs.Walks.{GivesFrom, GivesRest, OwnerGives};

use crate::plan_row::{Demand, PlanRow};
use crate::rows::{row_at, unnamed_to};
use pmp_core::{ADDRESS_LIMIT, Registers};
use pmp_map::{ModeRights, is_held, run_around};

/// A byte for which a plan isn't met, and what a register file gives it.
#[derive(Clone, Copy, Debug, PartialEq, Eq)]
pub struct Unmet {
    /// Its address.
    pub byte: u64,
    /// The entry that owns it, or none.
    pub owner: Option<u8>,
    pub rights: ModeRights,
    /// Whether it is held.
    pub is_held: bool,
}

/// Whether bytes of this owner are given what is asked for.
fn owner_gives(registers: &Registers<'_>, owner: Option<u8>, demand: Demand) -> bool
    requires { IfSome owner (λ entry. entry < length registers.now.entries) }
    ensures yes { IsTrue result → OwnerGives registers.now owner demand }
    ensures no { OwnerGives registers.now owner demand → IsTrue result }
{
    let rights = ModeRights::of_owner(registers, owner);
    rights == demand.rights && (!demand.is_locked || is_held(registers, owner))
}

/// Returns the first byte from `first` to `last` that isn't given what is asked for.
pub fn first_unmet(
    registers: &Registers<'_>,
    first: u64,
    last: u64,
    demand: Demand,
) -> Option<Unmet>
    requires { last < ADDRESS_LIMIT }
    ensures { MatchOption result (GivesFrom registers.now demand first last) (IsFirst registers.now demand first last) }
{
    let mut at = first;
    while at <= last {
        let run = run_around(registers, at);
        if !owner_gives(registers, run.owner, demand) {
            return Some(Unmet {
                byte: at,
                owner: run.owner,
                rights: ModeRights::of_owner(registers, run.owner),
                is_held: is_held(registers, run.owner),
            });
        }
        at = run.last + 1;
    }
    None
}

/// Returns the first byte of no row that isn't given these rights.
pub fn first_unmet_rest(
    registers: &Registers<'_>,
    rows: &[PlanRow<'_>],
    rights: ModeRights,
) -> Option<Unmet>
    ensures { MatchOption result (GivesRest registers.now rows.now rights ADDRESS_LIMIT)
        (IsFirstOfRest registers.now rows.now rights) }
{
    let demand = Demand {
        rights,
        is_locked: false,
    };
    let mut at = 0;
    while at < ADDRESS_LIMIT {
        if let Some(row) = row_at(rows, at) {
            at = row.last + 1;
            continue;
        }
        let last = unnamed_to(rows, at);
        if let Some(unmet) = first_unmet(registers, at, last, demand) {
            return Some(unmet);
        }
        at = last + 1;
    }
    None
}
