//! The entry that decides an access, decoded.

ghost use Rattle.std.specs.Prelude.{◌≡◌, ◌<◌, ◌≤◌, length};
ghost use Rattle.pmp_core.specs.declared.size.TheConstants.{MAX_ENTRIES};
ghost use Rattle.pmp_core.specs.RegisterFile.{entry_at};
ghost use Rattle.pmp_text.specs.Reports.{file_of_script};
ghost use Rattle.pmp_lint.specs.TableRows.{table_row};
ghost use Rattle.pmp_lint.specs.Why.{decoded, low_end_line, rule_bits};

use crate::entry_numbers::byte_at;
use crate::mseccfg_bits::has_mml;
use crate::subject::Subject;
use crate::trail::changed_at;
use pmp_core::{AddressMatching, Lock, RegFile, Span};
use pmp_text::ReadScript;

/// The bits L, R, W and X of an entry's configuration.
#[derive(Clone, Copy, Debug, PartialEq, Eq)]
pub struct RuleBits {
    pub locked: bool,
    pub read: bool,
    pub write: bool,
    pub execute: bool,
}

/// The deciding entry of an access at that moment, and the lines of the events that last changed it: 0 if none did.
#[derive(Clone, Copy, Debug, PartialEq, Eq)]
pub struct Decider {
    pub entry: u8,
    /// How its address register is read.
    pub matching: AddressMatching,
    /// The bytes that it matches.
    pub bytes: Option<Span>,
    pub bits: RuleBits,
    /// Whether MML is set, so that the bits name a row of Smepmp's table.
    pub is_lockdown: bool,
    pub lock: Lock,
    /// Whether it and all entries before it are frozen.
    pub is_held: bool,
    /// The line that changed its configuration.
    pub configured: u64,
    /// The line that changed its address register.
    pub addressed: u64,
    /// The line that changed the address register before it, if that is the low end of its range.
    pub low_end: Option<u64>,
}

impl RuleBits {
    /// Returns what this row of Smepmp's table says.
    pub fn table_row(self) -> &'static str
        ensures { result.now ≡ table_row self.locked self.read self.write self.execute }
    {
        match (self.locked, self.read, self.write, self.execute) {
            (false, false, false, false) => "no access for any mode",
            (false, false, false, true) => "S and U execute, M has no access",
            (false, false, true, false) => "shared data: M reads and writes, S and U read",
            (false, false, true, true) => "shared data: all modes read and write",
            (false, true, false, false) => "S and U read, M has no access",
            (false, true, false, true) => "S and U read and execute, M has no access",
            (false, true, true, false) => "S and U read and write, M has no access",
            (false, true, true, true) => "S and U read, write and execute, M has no access",
            (true, false, false, false) => "locked: no access for any mode",
            (true, false, false, true) => "locked: M executes, S and U have no access",
            (true, false, true, false) => "locked shared code: all modes execute",
            (true, false, true, true) =>
                "locked shared code: M reads and executes, S and U execute",
            (true, true, false, false) => "locked: M reads, S and U have no access",
            (true, true, false, true) => "locked: M reads and executes, S and U have no access",
            (true, true, true, false) => "locked: M reads and writes, S and U have no access",
            (true, true, true, true) => "locked shared data: all modes read",
        }
    }
}

/// Returns the bits of an entry.
fn rule_bits(file: &RegFile, entry: u8) -> RuleBits
    requires { entry < length file.now.entries }
    ensures { result ≡ rule_bits (entry_at file.now.entries entry).configuration }
{
    let _count = file.entries();
    let byte = byte_at(file, entry);
    RuleBits {
        locked: byte / 128 == 1,
        read: byte % 2 == 1,
        write: byte / 2 % 2 == 1,
        execute: byte / 4 % 2 == 1,
    }
}

/// Returns the line that last changed the low end of the entry's range, if another entry defines it.
fn low_end_line(
    script: &ReadScript<'_>,
    done: u64,
    entry: u8,
    matching: AddressMatching,
) -> Option<u64>
    requires within { done ≤ length script.now.batches }
    requires entry { entry < MAX_ENTRIES }
    requires matching { matching
        ≡ (entry_at (file_of_script script.now done).entries entry).configuration.matching }
    ensures { result ≡ low_end_line script.now done entry }
{
    if matching == AddressMatching::Tor && entry > 0 {
        Some(changed_at(script, done, Subject::Address(entry - 1)))
    } else {
        None
    }
}

impl Decider {
    /// Returns the entry in this register file, which the script's first `done` publications leave.
    pub(crate) fn decode(script: &ReadScript<'_>, done: u64, file: &RegFile, entry: u8) -> Decider
        requires within { done ≤ length script.now.batches }
        requires file { file.now ≡ file_of_script script.now done }
        requires entry { entry < length file.now.entries }
        ensures { result ≡ decoded script.now done entry }
    {
        let registers = file.registers();
        let index = usize::from(entry);
        let _count = file.entries();
        let matching = registers.matching(index);
        Decider {
            entry,
            matching,
            bytes: registers.span(index),
            bits: rule_bits(file, entry),
            is_lockdown: has_mml(file),
            lock: registers.lock(index),
            is_held: registers.is_held(index),
            configured: changed_at(script, done, Subject::Configuration(entry)),
            addressed: changed_at(script, done, Subject::Address(entry)),
            low_end: low_end_line(script, done, entry, matching),
        }
    }
}
