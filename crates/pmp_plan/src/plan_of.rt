//! The plan that registers implement.

ghost use Rattle.std.specs.Prelude.{◌≡◌, ◌<◌, IfErr, IfOk, IfSome, IsTrue, length};
ghost use Rattle.pmp_plan.specs.PlansOf.{IsPlanOf, IsPlanOfScript, Leaves, LeavesNone};

use crate::judge::meets;
use crate::letters::{Letters, yes_no};
use crate::plan_row::Demand;
use crate::reading::{HEADER, read_plan};
use crate::row_faults::overlap;
use crate::security::Security;
use pmp_core::{ADDRESS_LIMIT, RegFile, Registers};
use pmp_map::{ModeRights, Run, is_held, run_around};
use pmp_text::{Fault, GrowingLog, NoMemory, Refusal, append_line, read_script_in};
use std::alloc::Global;
use std::fmt;

/// The name of a row, derived from the entry that owns its bytes.
#[derive(Clone, Copy)]
struct Owned(Option<u8>);

impl fmt::Display for Owned {
    fn fmt<W: fmt::Write>(&self, f: &mut fmt::Formatter<W>) -> fmt::Result {
        match self.0 {
            Some(entry) => write!(f, "entry{entry}"),
            None => write!(f, "unowned"),
        }
    }
}

/// Appends a row for a run of bytes.
fn append_row(text: &mut Vec<u8>, run: Run, demand: Demand) -> Result<(), NoMemory> {
    let (first, last) = (run.first, run.last);
    let machine = Letters(demand.rights.machine);
    let others = Letters(demand.rights.others);
    let locked = yes_no(demand.is_locked);
    let name = Owned(run.owner);
    append_line(
        text,
        format_args!("0x{first:x},0x{last:x},{machine},{others},{locked},{name}\n"),
    )
}

/// Returns what the registers give the bytes of this owner.
fn demand_by(registers: &Registers<'_>, owner: Option<u8>) -> Demand
    requires { IfSome owner (λ entry. entry < length registers.now.entries) }
{
    Demand {
        rights: ModeRights::of_owner(registers, owner),
        is_locked: is_held(registers, owner),
    }
}

/// Returns the text by itself: a row for each run of bytes, except those left as without entries and not held.
fn text_of(alloc: Global, file: &RegFile, security: Security) -> Result<Vec<u8>, NoMemory> {
    let registers = file.registers();
    let rest = Demand {
        rights: security.rest(),
        is_locked: false,
    };
    let mut text = Vec::new(alloc);
    text.extend_from_slice(HEADER)?;
    text.push(b'\n')?;
    let mut at = 0;
    while at < ADDRESS_LIMIT {
        let run = run_around(&registers, at);
        let demand = demand_by(&registers, run.owner);
        if demand != rest {
            append_row(&mut text, run, demand)?;
        }
        at = run.last + 1;
    }
    Ok(text)
}

/// Whether the text reads as a plan with no byte in two rows that the register file meets.
fn is_plan_of(alloc: Global, text: &[u8], file: &RegFile, security: Security) -> bool
    ensures { IsTrue result → IsPlanOf file.now text.now }
{
    match read_plan(alloc, text) {
        Ok(rows) if overlap(&rows).is_none() => meets(file, file.hart(), security, &rows),
        _ => false,
    }
}

/// Returns the registers after all publications of a script.
pub fn registers_after(alloc: Global, script: &[u8]) -> Result<RegFile, Fault>
    ensures ok { IfOk result (Leaves script.now) }
    ensures err { IfErr result (LeavesNone script.now) }
{
    let mut log = GrowingLog::new(alloc);
    let script = read_script_in(&mut log, script)?;
    let mut file = script.start();
    file.run_events(script.events());
    Ok(file)
}

/// Returns the plan that the final registers of a script implement: it is read back, and checked against them.
pub fn implemented_plan(alloc: Global, script: &[u8]) -> Result<Vec<u8>, Fault>
    ensures ok { IfOk result (λ text. IsPlanOfScript script.now text.items) }
    ensures err { IfErr result (LeavesNone script.now) }
{
    let file = registers_after(alloc, script)?;
    let security = Security::of(&file);
    let text = text_of(alloc, &file, security)?;
    if !is_plan_of(alloc, &text, &file, security) {
        return Err(Fault::from(Refusal::Memory));
    }
    Ok(text)
}
