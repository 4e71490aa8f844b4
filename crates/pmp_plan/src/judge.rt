//! Whether a register file meets a plan.

ghost use Rattle.std.specs.Prelude.{◌<◌, All, IsTrue};
ghost use Rattle.pmp_core.specs.declared.access.TheConstants.{ADDRESS_LIMIT};
ghost use Rattle.pmp_plan.specs.Plans.{MeetsPlan, MeetsRow};
ghost use Rattle.pmp_plan.specs.Walks.{GivesFrom, GivesRest};

use crate::plan_row::{Demand, PlanRow};
use crate::security::Security;
use crate::unmet::{first_unmet, first_unmet_rest};
use pmp_core::{Csr, Hart, RegFile, Registers};
use pmp_map::ModeRights;

/// Whether each byte from `first` to `last` is given what is asked for.
fn gives(registers: &Registers<'_>, first: u64, last: u64, demand: Demand) -> bool
    requires { last < ADDRESS_LIMIT }
    ensures yes { IsTrue result → GivesFrom registers.now demand first last }
    ensures no { GivesFrom registers.now demand first last → IsTrue result }
{
    match first_unmet(registers, first, last, demand) {
        Some(_) => false,
        None => true,
    }
}

/// Whether each byte that is in no row is given these rights.
fn gives_rest(registers: &Registers<'_>, rows: &[PlanRow<'_>], rights: ModeRights) -> bool
    ensures yes { IsTrue result → GivesRest registers.now rows.now rights ADDRESS_LIMIT }
    ensures no { GivesRest registers.now rows.now rights ADDRESS_LIMIT → IsTrue result }
{
    first_unmet_rest(registers, rows, rights).is_none()
}

/// Whether each row is met.
fn meets_rows(registers: &Registers<'_>, rows: &[PlanRow<'_>]) -> bool
    ensures yes { IsTrue result → All (MeetsRow registers.now) rows.now }
    ensures no { All (MeetsRow registers.now) rows.now → IsTrue result }
{
    for row in rows {
        if !gives(registers, row.first, row.last, row.demand) {
            return false;
        }
    }
    true
}

/// Whether the register file meets the plan: it is of the hart and has the requested `mseccfg`, each byte of each row
/// has exactly the row's rights, and is held if the row is locked, and every other byte is left as without entries.
pub fn meets(file: &RegFile, hart: Hart, security: Security, rows: &[PlanRow<'_>]) -> bool
    ensures yes { IsTrue result → MeetsPlan hart security rows.now file.now }
    ensures no { MeetsPlan hart security rows.now file.now → IsTrue result }
{
    let registers = file.registers();
    file.hart().profile() == hart.profile()
        && file.read(Csr::Mseccfg) == security.value()
        && meets_rows(&registers, rows)
        && gives_rest(&registers, rows, security.rest())
}
