//! The map of a register file: its runs of bytes, and decisions by them.

ghost use Rattle.std.specs.Prelude.{◌≡◌, ◌+◌, ◌*◌, ◌<◌, ◌≤◌, length};
ghost use Rattle.pmp_core.specs.declared.access.TheConstants.{ADDRESS_LIMIT};
ghost use Rattle.pmp_core.specs.Decision.{IsOwner, IsDecision};
ghost use Rattle.pmp_core.specs.Ranges.{decision_of};
ghost use Rattle.pmp_map.specs.RangeRights.{AreRangeRights};
ghost use Rattle.pmp_map.specs.Runs.{AreRuns, HasOwnersBelow};

use crate::answer::decision;
use crate::run::{RUNS, Run};
use crate::tables::Tables;
use arrayvec::ArrayVec;
use pmp_core::{Access, Decision, Mode, Perms, RegFile};
use std::marker::Model;
use std::snapshot::Snapshot;

/// The owners of all bytes, as runs. A contract sees a map as the register file that it was built from.
#[derive(Drop)]
pub struct RunMap {
    /// The file that it was built from, for contracts only.
    file: Snapshot<RegFile>,
    tables: Tables,
    runs: ArrayVec<Run, RUNS>,
}

impl Model for RunMap {
    ghost use Rattle.pmp_core.specs.RegisterFile.{RegisterFile};

    ghost Value = { RegisterFile };

    ghost use Rattle.pmp_map.specs.Tables.{IsMapOf};

    ghost view = { λ m. m.file.value };

    ghost invariant = { λ m. IsMapOf m.file.value m.tables m.runs.items };
}

impl RunMap {
    /// Builds the map of a register file.
    pub fn build(file: &RegFile) -> RunMap
        ensures { result ≡ file.now }
    {
        let mut tables = Tables::EMPTY;
        tables.fill(&file.registers());
        RunMap {
            file: Snapshot::of(file),
            runs: tables.list(),
            tables,
        }
    }

    /// Returns the runs, from byte address 0 to `2^56 - 1`.
    pub fn runs(&self) -> &[Run]
        ensures runs { AreRuns self.now result.now }
        ensures few { length result.now ≤ 2 * length self.now.entries + 1 }
        ensures most { length result.now ≤ RUNS }
        ensures owners { HasOwnersBelow (length self.now.entries) result.now }
    {
        &self.runs
    }

    /// Returns the lowest-numbered entry that matches the byte at this byte address (Volume II, 3.7.1.3).
    pub fn owner(&self, byte: u64) -> Option<u8>
        requires { byte < ADDRESS_LIMIT }
        ensures { IsOwner self.now byte result }
    {
        self.tables.run_of(byte).owner
    }

    /// Decides an access as does the register file that the map was built from (Volume II, 3.7.1.3). Only the contract
    /// reads `file`.
    pub fn decide(&self, file: &RegFile, access: &Access) -> Decision
        requires { self.now ≡ file.now }
        ensures by_bytes { IsDecision file.now access.now result }
        ensures computed { result ≡ decision_of file.now access.now }
    {
        decision(self.tables.answer(access))
    }

    /// Returns what the mode may do in the whole range of `length` bytes from this byte address on, such as a page, or
    /// none if no one owner has all of them.
    pub fn rights(&self, mode: Mode, start: u64, length: u64) -> Option<Perms>
        requires full { 0 < length }
        requires inside { start + length ≤ ADDRESS_LIMIT }
        ensures { AreRangeRights self.now mode start length result }
    {
        self.tables.rights(mode, start, length)
    }
}
