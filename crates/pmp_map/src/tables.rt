//! The map as tables: where each run begins, and its answers.

ghost use Rattle.std.specs.Prelude.{◌≡◌, ◌+◌, ◌<◌, ◌≤◌, IfSome, ℕ, Option, length, slice_index};
ghost use Rattle.pmp_core.specs.declared.access.TheConstants.{ADDRESS_LIMIT};
ghost use Rattle.pmp_core.specs.Ranges.{decision_of};
ghost use Rattle.pmp_core.specs.RegisterFile.{RegisterFile};
ghost use Rattle.pmp_map.specs.declared.search.TheConstants.{PLACES};
ghost use Rattle.pmp_map.specs.Answer.{answer_number};
ghost use Rattle.pmp_map.specs.Causes.{IsLeastCause};
ghost use Rattle.pmp_map.specs.RangeRights.{AreRangeRights};
ghost use Rattle.pmp_map.specs.Rows.{IsRow};
ghost use Rattle.pmp_map.specs.Runs.{AreRuns, IsRunAround, map_run};
ghost use Rattle.pmp_map.specs.Tables.{AreTables, IsFound};

use crate::answer::split_number;
use crate::painting::cuts_of;
use crate::row::{Row, column_of, row_of, row_owner, row_rights};
use crate::run::{RUNS, Run};
use crate::search::{PLACES, place_of};
use arrayvec::ArrayVec;
use pmp_core::{ADDRESS_LIMIT, Access, Mode, Perms, Registers};

/// The start of each run of a register file's map, and its answers.
#[repr(C)]
#[derive(Clone, Copy, Debug, PartialEq, Eq)]
pub struct Tables {
    /// The byte address of each run's first byte; past the last run, the end of the address space.
    pub starts: [u64; PLACES],
    /// The number of runs: 0 if the tables aren't built.
    pub runs: u64,
    /// The answers of each run to the accesses inside it.
    pub rows: [Row; PLACES],
}

/// Returns the least cause number of the runs from `first` up to, but without, `end`; 512 if none has an owner.
fn least_cause(rows: &[Row; PLACES], first: usize, end: usize) -> u16
    requires { end ≤ PLACES }
    ensures most { result ≤ 512 }
    ensures least { first ≤ end → IsLeastCause rows.now first end result }
{
    let mut least = 512;
    for place in first..end {
        least = least.min(rows[place][0] % 1024);
    }
    least
}

/// Returns the row of an owner, given the row of no owner.
#[inline]
fn row_by(registers: &Registers<'_>, unowned: &Row, owner: Option<u8>) -> Row
    requires owner { IfSome owner (λ entry. entry < length registers.now.entries) }
    requires unowned { IsRow registers.now None unowned.now }
    ensures { IsRow registers.now owner result }
{
    match owner {
        Some(entry) => row_of(registers, Some(entry)),
        None => *unowned,
    }
}

impl Tables {
    /// Tables that aren't built.
    pub const EMPTY: Tables = Tables {
        starts: [0; PLACES],
        runs: 0,
        rows: [[0; 16]; PLACES],
    };

    /// Fills the tables for the registers.
    pub fn fill(&mut self, registers: &Registers<'_>)
        ensures { AreTables registers.now self.new }
    {
        let mut cuts = cuts_of(registers);
        let unowned = row_of(registers, None);
        let mut runs = 0;
        while let Some(cut) = cuts.pop_from(0) {
            self.starts[runs] = cut.start;
            self.rows[runs] = row_by(registers, &unowned, cut.owner);
            runs += 1;
        }
        self.runs = runs as u64;
        for place in runs..PLACES {
            self.starts[place] = ADDRESS_LIMIT;
        }
    }

    /// Returns the answer to an access that begins in the run at this place and leaves it: rare, so out of line.
    #[cold]
    #[inline(never)]
    fn answer_straddling(&self, place: usize, access: &Access) -> u16
        requires place { place + 1 < PLACES }
        requires found { IsFound self.now access.now.start place }
        requires long { slice_index self.now.starts (place + 1) < access.now.start + access.now.length }
        ensures { (file : RegisterFile) → AreTables file self.now
            → result ≡ answer_number access.now (decision_of file access.now) }
    {
        let byte = access.start + access.length - 1;
        let last = if place + 2 < PLACES && byte < self.starts[place + 2] {
            place + 1
        } else {
            place_of(&self.starts, self.runs as usize, byte)
        };
        split_number(access.kind, least_cause(&self.rows, place, last + 1))
    }

    /// Returns the number of the answer to an access.
    #[inline(always)]
    pub fn answer(&self, access: &Access) -> u16
        ensures { (file : RegisterFile) → AreTables file self.now
            → result ≡ answer_number access.now (decision_of file access.now) }
    {
        let place = place_of(&self.starts, self.runs as usize, access.start);
        if access.start + access.length <= self.starts[place + 1] {
            self.rows[place][column_of(access.mode, access.kind)]
        } else {
            self.answer_straddling(place, access)
        }
    }

    /// Returns what the mode may do in the whole range, or none if no one owner has all of its bytes.
    #[inline(always)]
    pub fn rights(&self, mode: Mode, start: u64, length: u64) -> Option<Perms>
        requires full { 0 < length }
        requires inside { start + length ≤ ADDRESS_LIMIT }
        ensures { (file : RegisterFile) → AreTables file self.now → AreRangeRights file mode start length result }
    {
        let place = place_of(&self.starts, self.runs as usize, start);
        if start + length <= self.starts[place + 1] {
            Some(row_rights(&self.rows[place], mode))
        } else {
            None
        }
    }

    /// Returns the run at this place.
    #[inline(always)]
    fn run_at(&self, place: usize) -> Run
        requires { place + 1 < PLACES }
        ensures { (file : RegisterFile) (are : AreTables file self.now) → place < length are.list
            → result ≡ map_run are.list place }
    {
        Run {
            first: self.starts[place],
            last: self.starts[place + 1].saturating_sub(1),
            owner: row_owner(&self.rows[place]),
        }
    }

    /// Returns all runs.
    pub fn list(&self) -> ArrayVec<Run, RUNS>
        ensures { (file : RegisterFile) → AreTables file self.now → AreRuns file result.items }
    {
        let mut runs = ArrayVec::new();
        for place in 0..RUNS.min(self.runs as usize) {
            runs.push(self.run_at(place));
        }
        runs
    }

    /// Returns the run of the byte.
    pub fn run_of(&self, byte: u64) -> Run
        requires { byte < ADDRESS_LIMIT }
        ensures { (file : RegisterFile) → AreTables file self.now → IsRunAround file byte result }
    {
        self.run_at(place_of(&self.starts, self.runs as usize, byte))
    }
}
