//! The runs of a register file as rows.

ghost use Rattle.std.specs.Prelude.{◌≡◌, ◌++◌, [], List, length, map, OnOk, OnErr};
ghost use Rattle.pmp_map.specs.Runs.{HasOwnersBelow};
ghost use Rattle.pmp_text.specs.Cells.{RowValue, cell_value, csv_text};
ghost use Rattle.pmp_text.specs.RunRows.{AreRunRows, owner_value, run_row};

use crate::lines::NoMemory;
use crate::lines::cell::Cell;
use crate::lines::row_kind::RowKind;
use crate::lines::row_sink::RowSink;
use pmp_core::{RegFile, Registers};
use pmp_map::{ModeRights, Run, RunMap};

/// Returns the number of a run's owner, or a dash if it has none.
pub fn owner_cell<'a>(owner: Option<u8>) -> Cell<&'a [u8]>
    ensures { cell_value (λ text. text.now) result ≡ owner_value owner }
{
    match owner {
        Some(entry) => Cell::Number(u64::from(entry)),
        None => Cell::Word("-"),
    }
}

/// Adds a row for each run, or for some.
#[tactic(auto, using(crate::proofs::RunLines::text_of_perms))]
fn add_all<R: RowSink>(out: &mut R, registers: &Registers<'_>, runs: &[Run]) -> Result<(), NoMemory>
    requires { HasOwnersBelow (length registers.now.entries) runs.now }
    ensures ok { OnOk result (R.Adds (map (run_row registers.now) runs.now) out.old out.new) }
    ensures err { OnErr result ((rows : List RowValue) × R.Adds rows out.old out.new) }
{
    for run in runs {
        let rights = ModeRights::of_owner(registers, run.owner);
        let cells = [
            Cell::Address(run.first),
            Cell::Address(run.last),
            owner_cell(run.owner),
            Cell::Rights(rights.machine),
            Cell::Rights(rights.others),
        ];
        out.add(RowKind::Run, &cells)?;
    }
    Ok(())
}

/// Adds a row for each run of the register file: the first and the last byte, the lowest-numbered entry that matches
/// them or a dash, and what that gives M-mode, and S-mode and U-mode. The map is the one built from this file.
#[inline(never)]
pub fn add_runs<R: RowSink>(out: &mut R, file: &RegFile, map: &RunMap) -> Result<(), NoMemory>
    requires { map.now ≡ file.now }
    ensures ok { OnOk result ((rows : List RowValue) × AreRunRows file.now rows × R.Adds rows out.old out.new) }
    ensures err { OnErr result (R.Adds [] out.old out.new) }
{
    let before = out.position();
    let added = add_all(out, &file.registers(), map.runs());
    if added.is_err() {
        out.go_back(before);
    }
    added
}

/// Appends the text of these rows, likewise.
pub fn write_runs(out: &mut Vec<u8>, file: &RegFile, map: &RunMap) -> Result<(), NoMemory>
    requires { map.now ≡ file.now }
    ensures ok { OnOk result ((rows : List RowValue) × AreRunRows file.now rows
        × (out.new.items ≡ out.old.items ++ csv_text rows)) }
    ensures err { OnErr result (out.new.items ≡ out.old.items) }
{
    add_runs(out, file, map)
}
