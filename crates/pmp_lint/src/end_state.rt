//! Findings in the register file that a script leaves.

ghost use Rattle.std.specs.Prelude.{◌≡◌, ◌<◌, ◌≤◌, length};
ghost use Rattle.pmp_lint.specs.EndState.{about_end, changed_last, end_of, has_bypassed, is_idle, is_locked, is_mmwp_off};
ghost use Rattle.pmp_lint.specs.EndState.{found_if, is_any_frozen_from, is_any_locked};
ghost use Rattle.pmp_lint.specs.EndState.{is_on, is_open_before, is_owner, mmwp_off, never_decides, open_before_locked};
ghost use Rattle.pmp_lint.specs.EndState.{owns_some, rlb_left_on};
ghost use Rattle.pmp_lint.specs.Subjects.{IsSubject};

use crate::finding::Finding;
use crate::lint::Lint;
use crate::mseccfg_bits::{has_mml, has_mmwp, has_rlb};
use crate::subject::Subject;
use crate::trail::changed_at;
use pmp_core::{AddressMatching, Lock, RegFile, Registers};
use pmp_map::Run;
use pmp_text::ReadScript;

/// A script, and the registers that it leaves.
#[derive(Clone, Copy)]
pub struct Ended<'a> {
    pub script: &'a ReadScript<'a>,
    /// The register file after all publications.
    pub file: &'a RegFile,
    pub ghost ended: { file.now ≡ end_of script.now },
}

/// Returns the finding, if it is one.
pub fn found_if(is: bool, finding: Finding) -> Option<Finding>
    ensures { result ≡ found_if is finding }
{
    is.then_some(finding)
}

fn is_locked(registers: &Registers<'_>, index: usize) -> bool
    requires { index < length registers.now.entries }
    ensures { result ≡ is_locked registers.now index }
{
    registers.lock(index) != Lock::Open
}

fn is_any_locked(registers: &Registers<'_>) -> bool
    ensures { result ≡ is_any_locked registers.now }
{
    let count = registers.count();
    (0..count).any(|index| is_locked(registers, index))
}

fn has_bypassed(file: &RegFile) -> bool
    ensures { result ≡ has_bypassed file.now }
{
    has_rlb(file) && is_any_locked(&file.registers())
}

fn is_mmwp_off(file: &RegFile) -> bool
    ensures { result ≡ is_mmwp_off file.now }
{
    has_mml(file) && !has_mmwp(file)
}

/// Whether the entry with this number or a later one is frozen.
fn is_any_frozen_from(file: &RegFile, first: u8) -> bool
    requires { first ≤ length file.now.entries }
    ensures { result ≡ is_any_frozen_from file.now first }
{
    let count = file.entries();
    (first..count).any(|entry| file.is_locked(entry))
}

fn is_open_before(file: &RegFile, entry: u8) -> bool
    requires { entry < length file.now.entries }
    ensures { result ≡ is_open_before file.now entry }
{
    let _count = file.entries();
    !file.is_locked(entry) && is_any_frozen_from(file, entry + 1)
}

fn is_on(matching: AddressMatching) -> bool
    ensures { result ≡ is_on matching }
{
    matching != AddressMatching::Off
}

fn is_owner(entry: u8, owner: Option<u8>) -> bool
    ensures { result ≡ is_owner entry owner }
{
    owner == Some(entry)
}

fn owns_some(runs: &[Run], entry: u8) -> bool
    ensures { result ≡ owns_some runs.now entry }
{
    runs.iter().any(|run| is_owner(entry, run.owner))
}

fn is_idle(file: &RegFile, runs: &[Run], entry: u8) -> bool
    requires { entry < length file.now.entries }
    ensures { result ≡ is_idle file.now runs.now entry }
{
    let matching = file.registers().matching(usize::from(entry));
    is_on(matching) && !owns_some(runs, entry)
}

impl<'a> Ended<'a> {
    /// Returns the line of the last event that changes the subject, or 0.
    pub fn changed_last(&self, subject: Subject) -> u64
        requires { IsSubject subject }
        ensures { result ≡ changed_last self.now.script.now subject }
    {
        changed_at(self.script, self.script.batches(), subject)
    }

    /// Reports that RLB is set and an entry is locked.
    pub fn rlb_left_on(&self) -> Option<Finding>
        ensures { result ≡ rlb_left_on self.now.script.now }
    {
        if !has_bypassed(self.file) {
            return None;
        }
        let line = self.changed_last(Subject::Bypass);
        Some(Finding::about_script(Lint::RlbLeftOn, line))
    }

    /// Reports that MML is set and MMWP isn't.
    pub fn mmwp_off(&self) -> Option<Finding>
        ensures { result ≡ mmwp_off self.now.script.now }
    {
        if !is_mmwp_off(self.file) {
            return None;
        }
        let line = self.changed_last(Subject::Lockdown);
        Some(Finding::about_script(Lint::MmwpOff, line))
    }

    fn about_entry(&self, lint: Lint, entry: u8) -> Finding
        requires { entry < length self.now.file.now.entries }
        ensures { result ≡ about_end self.now.script.now lint entry }
    {
        let _count = self.file.entries();
        let line = self.changed_last(Subject::Entry(entry));
        let bytes = self.file.registers().span(usize::from(entry));
        Finding::about_entry(lint, line, entry, bytes)
    }

    /// Reports that the entry isn't frozen and a later one is.
    pub fn open_before_locked(&self, entry: u8) -> Option<Finding>
        requires { entry < length self.now.file.now.entries }
        ensures { result ≡ open_before_locked self.now.script.now entry }
    {
        if is_open_before(self.file, entry) {
            Some(self.about_entry(Lint::OpenBeforeLocked, entry))
        } else {
            None
        }
    }

    /// Reports that the entry is on and owns none of these runs, which are the file's.
    pub fn never_decides(&self, runs: &[Run], entry: u8) -> Option<Finding>
        requires { entry < length self.now.file.now.entries }
        ensures { result ≡ never_decides self.now.script.now runs.now entry }
    {
        if is_idle(self.file, runs, entry) {
            Some(self.about_entry(Lint::NeverDecides, entry))
        } else {
            None
        }
    }
}
