//! A decision: whether an access is allowed, by which rule, and with which exception code if not.

ghost use Rattle.std.specs.Prelude.{◌≡◌, ◌<◌, ◌≤◌, ℕ, length};
ghost use Rattle.pmp_core.specs.declared.decision.Cause.{Cause};
ghost use Rattle.pmp_core.specs.FaultCode.{access_fault_code, fault_of};
ghost use Rattle.pmp_core.specs.Decision.{IsDecision};
ghost use Rattle.pmp_core.specs.RegisterFile.{IsLegal};
ghost use Rattle.pmp_core.specs.Ranges.{cause_of, decision_of, rights_by};
ghost use Rattle.pmp_core.specs.Rights.{perms_of};
ghost use Rattle.pmp_core.specs.SavedRegisters.{restored_file};

use crate::access::{Access, Kind, Mode};
use crate::configuration::AddressMatching;
use crate::perms::Perms;
use crate::registers::Registers;
use crate::saved_registers::SavedRegisters;

/// Why an access was allowed or refused.
#[derive(Clone, Copy, Debug, PartialEq, Eq, Default)]
pub enum Cause {
    /// The entry with this number matches all bytes of the access, and its rule decided.
    Rule(u8),
    /// The entry with this number is the first to match a byte, and doesn't match all of them.
    Split(u8),
    /// No entry matches any byte.
    #[default]
    NoMatch,
}

/// The decision on an access.
#[derive(Clone, Copy, Debug, PartialEq, Eq, Default)]
pub struct Decision {
    pub allowed: bool,
    pub cause: Cause,
}

impl Kind {
    /// Returns the exception code of an access fault of this kind (Volume II, 3.1.15).
    pub fn access_fault_code(self) -> u8
        ensures code { result ≡ access_fault_code self }
        ensures most { result ≤ 7 }
    {
        match self {
            Kind::Fetch => 1,
            Kind::Load => 5,
            Kind::Store => 7,
        }
    }
}

/// Returns the exception code of a refused access, or none if it is allowed (Volume II, 3.1.15).
pub fn fault_code(access: &Access, decision: &Decision) -> Option<u8>
    ensures { result ≡ fault_of access.now decision.now }
{
    if decision.allowed {
        None
    } else {
        Some(access.kind.access_fault_code())
    }
}

impl<'a> Registers<'a> {
    /// Returns what decides the bytes from `start` up to, but not including, `end`: the first entry that matches one of
    /// them, by its rule if it matches them all (Volume II, 3.7.1.3).
    #[inline(always)]
    pub fn cause(&self, start: u64, end: u64) -> Cause
        ensures cause { result ≡ cause_of self.now start end }
        ensures entry { (i : ℕ) → result ≡ Cause.Rule i → i < length self.now.entries }
        ensures legal { IsLegal self.now }
    {
        let _count = self.count();
        if start >= end {
            return Cause::NoMatch;
        }
        let mut index = 0;
        while index < self.count() {
            if self.matching(index) == AddressMatching::Off {
                index += self.count_off(index);
            } else {
                let range = self.range(index);
                if range.is_touched(start, end) {
                    return if range.is_covered(start, end) {
                        Cause::Rule(index as u8)
                    } else {
                        Cause::Split(index as u8)
                    };
                }
                index += 1;
            }
        }
        Cause::NoMatch
    }

    /// Returns what the mode may do if this decides.
    #[inline(always)]
    pub fn rights_by(&self, cause: Cause, mode: Mode) -> Perms
        requires { (i : ℕ) → cause ≡ Cause.Rule i → i < length self.now.entries }
        ensures { result ≡ perms_of (rights_by self.now mode cause) }
    {
        match cause {
            Cause::Rule(entry) => self.rights(usize::from(entry), mode),
            Cause::Split(_) => Perms::NONE,
            Cause::NoMatch => self.default_rights(mode),
        }
    }

    /// Decides an access, in one pass over the entries.
    #[inline(always)]
    pub fn decide(&self, access: &Access) -> Decision
        ensures by_bytes { IsDecision self.now access.now result }
        ensures computed { result ≡ decision_of self.now access.now }
    {
        let cause = self.cause(access.start, access.start + access.length);
        Decision {
            allowed: self.rights_by(cause, access.mode).allows(access.kind),
            cause,
        }
    }
}

impl SavedRegisters {
    /// Decides an access, in one pass over the entries.
    #[inline]
    pub fn decide(&self, access: &Access) -> Decision
        ensures { result ≡ decision_of (restored_file self.now) access.now }
    {
        match Registers::on_standard(self) {
            Some(registers) => registers.decide(access),
            None => self.decide_on_any(access),
        }
    }

    /// Does the same on any hart, out of line.
    #[cold]
    #[inline(never)]
    fn decide_on_any(&self, access: &Access) -> Decision
        ensures { result ≡ decision_of (restored_file self.now) access.now }
    {
        Registers::of(self).decide(access)
    }
}
