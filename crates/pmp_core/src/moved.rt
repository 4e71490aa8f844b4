//! The bytes that a change of the registers may have moved.

ghost use Rattle.std.specs.Prelude.{◌≡◌, ◌⊎◌, ◌<◌, ◌+◌, ◌^◌, ℕ, IsTrue, None, Some, false, true, length};
ghost use Rattle.pmp_core.specs.declared.csr.Csr.{Csr};
ghost use Rattle.pmp_core.specs.Moved.{AreAlikeBeside, joined, moved_among, moved_at, moved_between, moved_by};
ghost use Rattle.pmp_core.specs.declared.range.ByteRange.{ByteRange};
ghost use Rattle.pmp_core.specs.RegisterWrite.{is_tor, written};
ghost use Rattle.pmp_core.specs.Ranges.{range_as, range_of};
ghost use Rattle.pmp_core.specs.RegisterFile.{RegisterFile, entry_at};
ghost use Rattle.pmp_core.specs.RegisterValue.{register_value};
ghost use Rattle.pmp_core.specs.Span.{span_in};
ghost use Rattle.pmp_core.specs.SavedRegisters.{hart_in, restored_file};
ghost use Rattle.pmp_core.specs.Writing.{IsWritten};

use crate::access::ADDRESS_LIMIT;
use crate::configuration::{AddressMatching, Configuration};
use crate::csr::Csr;
use crate::hart::Hart;
use crate::range::ByteRange;
use crate::register_write::Written;
use crate::registers::Registers;
use crate::saved_registers::SavedRegisters;
use crate::span::{Span, span_in};

/// Every byte.
const ALL: Span = Span {
    first: 0,
    last: ADDRESS_LIMIT - 1,
};

/// Returns the smallest span that contains both.
fn joined(one: Option<Span>, other: Option<Span>) -> Option<Span>
    ensures { result ≡ joined one other }
{
    match (one, other) {
        (Some(one), Some(other)) => Some(Span {
            first: one.first.min(other.first),
            last: one.last.max(other.last),
        }),
        _ => one.or(other),
    }
}

/// Returns the span of both ranges, unless they are equal.
#[inline(always)]
fn moved_between(now: &ByteRange, before: &ByteRange) -> Option<Span>
    ensures { result ≡ moved_between before.now now.now }
{
    if now == before {
        return None;
    }
    joined(span_in(now), span_in(before))
}

impl<'a> Registers<'a> {
    /// Returns what the entry matches now or matched before, unless it is the same.
    #[inline(always)]
    fn moved_at(&self, before: &Registers<'_>, index: usize) -> Option<Span>
        requires now { index < length self.now.entries }
        requires before { index < length before.now.entries }
        requires hart { self.now.profile ≡ before.now.profile }
        requires mseccfg { self.now.mseccfg ≡ before.now.mseccfg }
        ensures { result ≡ moved_at before.now self.now index }
    {
        let _counts = (self.count(), before.count());
        let (range, was) = (self.range(index), before.range(index));
        if self.configuration(index) == before.configuration(index) {
            moved_between(&range, &was)
        } else {
            joined(span_in(&range), span_in(&was))
        }
    }

    /// Returns what the entry would match with one mode or the other.
    #[inline(always)]
    fn span_of_both(
        &self,
        index: usize,
        one: AddressMatching,
        other: AddressMatching,
    ) -> Option<Span>
        requires { index < length self.now.entries }
        ensures { let file = self.now in result ≡ joined (span_in (range_as file.profile file.entries one index))
            (span_in (range_as file.profile file.entries other index)) }
    {
        let span = span_in(&self.range_by(index, one));
        if one == other {
            return span;
        }
        joined(span, span_in(&self.range_by(index, other)))
    }

    /// Returns what the entries of the configuration register match now or matched when it read this word, without those
    /// that are the same.
    #[inline(always)]
    fn moved_from(&self, register: u8, old: u64) -> Option<Span>
        ensures { (before : RegisterFile) (value : ℕ) → let csr = Csr.Cfg register in
            self.now ≡ written before csr value → old ≡ register_value before csr
            → result ≡ moved_by before self.now csr }
    {
        let was = old.to_le_bytes();
        let is = self.configuration_word(register).to_le_bytes();
        let mut moved = None;
        for place in 0..self.hart().bytes_in(register) {
            let index = 4 * usize::from(register) + place;
            if is[place] != was[place] && index < self.count() {
                let one = Configuration::from_byte(is[place]).matching();
                let other = Configuration::from_byte(was[place]).matching();
                let more = self.span_of_both(index, one, other);
                moved = joined(moved, more);
            }
        }
        moved
    }

    /// Returns the first and the last byte that may be decided differently than by the registers before: the span of
    /// all bytes that a changed entry matches or matched, or all bytes if `mseccfg` or the hart differs. None if
    /// nothing changed.
    pub fn moved_since(&self, before: &Registers<'_>) -> Option<Span>
        ensures moved { self.now.profile ≡ before.now.profile → self.now.mseccfg ≡ before.now.mseccfg
            → result ≡ moved_among before.now self.now 0 (length self.now.entries) }
        ensures all { ¬ (self.now.profile ≡ before.now.profile) ⊎ ¬ (self.now.mseccfg ≡ before.now.mseccfg)
            → result ≡ Some ALL }
        ensures beside { AreAlikeBeside before.now self.now result }
        ensures none { before.now ≡ self.now → result ≡ None }
    {
        let _counts = (self.count(), before.count());
        if self.hart() != before.hart() || self.fields() != before.fields() {
            return Some(ALL);
        }
        let mut moved = None;
        for index in 0..self.count() {
            moved = joined(moved, self.moved_at(before, index));
        }
        moved
    }

    /// Returns the range that the entry matches, if there is such an entry.
    #[inline(always)]
    #[tactic(auto, using(crate::proofs::Matches::range_past))]
    fn range_if_any(&self, index: usize) -> ByteRange
        ensures { result ≡ range_of self.now index }
    {
        if index < self.count() {
            self.range(index)
        } else {
            ByteRange::EMPTY
        }
    }

    /// Returns the range that the entry matches by TOR, if there is such an entry and it does.
    #[inline(always)]
    fn tor_range_if_any(&self, index: usize) -> ByteRange
        ensures tor { is_tor (entry_at self.now.entries index).configuration.matching ≡ true
            → result ≡ range_of self.now index }
        ensures other { is_tor (entry_at self.now.entries index).configuration.matching ≡ false
            → result ≡ (let none : ByteRange = record { start = 0; end = 0 } in none) }
    {
        if index < self.count() {
            let matching = self.matching(index);
            if matching == AddressMatching::Tor {
                return self.range_by(index, matching);
            }
        }
        ByteRange::EMPTY
    }
}

impl SavedRegisters {
    /// Writes an address register, which moves at most two ranges.
    #[inline(always)]
    fn write_address_moved(
        &mut self,
        hart: Hart,
        register: u8,
        value: u64,
    ) -> (Written, Option<Span>)
        requires { hart ≡ hart_in self.old }
        ensures written { IsWritten self.old self.new (Csr.Addr register) value result.0 }
        ensures moved { let csr = Csr.Addr register in
            result.1 ≡ moved_by (restored_file self.old) (restored_file self.new) csr }
    {
        let index = usize::from(register);
        let before = Registers::with(self, hart);
        let (own, next) = (
            before.range_if_any(index),
            before.tor_range_if_any(index + 1),
        );
        let written = self.write_address(hart, register, value);
        if !written.is_changed {
            return (written, None);
        }
        let now = Registers::with(self, hart);
        let moved = joined(
            moved_between(&now.range_if_any(index), &own),
            moved_between(&now.tor_range_if_any(index + 1), &next),
        );
        (written, moved)
    }

    /// Writes a configuration register, which moves no address.
    #[inline(always)]
    fn write_configurations_moved(
        &mut self,
        hart: Hart,
        register: u8,
        value: u64,
    ) -> (Written, Option<Span>)
        requires { hart ≡ hart_in self.old }
        ensures written { IsWritten self.old self.new (Csr.Cfg register) value result.0 }
        ensures moved { let csr = Csr.Cfg register in
            result.1 ≡ moved_by (restored_file self.old) (restored_file self.new) csr }
    {
        let old = Registers::with(self, hart).configuration_word(register);
        let written = self.write_configurations(hart, register, value);
        if !written.is_changed {
            return (written, None);
        }
        let now = Registers::with(self, hart);
        (written, now.moved_from(register, old))
    }

    /// Writes `mseccfg`, which moves all bytes where it changes.
    fn write_mseccfg_moved(&mut self, hart: Hart, value: u64) -> (Written, Option<Span>)
        requires { hart ≡ hart_in self.old }
        ensures written { IsWritten self.old self.new Csr.Mseccfg value result.0 }
        ensures moved { let csr = Csr.Mseccfg in
            result.1 ≡ moved_by (restored_file self.old) (restored_file self.new) csr }
    {
        let before = Registers::with(self, hart);
        let old = before.read(Csr::Mseccfg);
        let written = self.write_mseccfg(hart, value);
        let now = Registers::with(self, hart);
        if now.read(Csr::Mseccfg) == old {
            return (written, None);
        }
        (written, Some(ALL))
    }

    /// Writes any register of any hart.
    #[cold]
    #[inline(never)]
    fn write_moved_apart(&mut self, csr: Csr, value: u64) -> (Written, Option<Span>)
        ensures written { IsWritten self.old self.new csr value result.0 }
        ensures moved { result.1 ≡ moved_by (restored_file self.old) (restored_file self.new) csr }
    {
        let hart = Hart::from_number(self.entries);
        match csr {
            Csr::Addr(register) => self.write_address_moved(hart, register, value),
            Csr::Cfg(register) => self.write_configurations_moved(hart, register, value),
            Csr::Mseccfg => self.write_mseccfg_moved(hart, value),
            Csr::Mseccfgh => (self.write_mseccfgh(hart, value), None),
        }
    }

    /// Writes a register, and also returns which bytes may be decided differently than before, as
    /// `Registers::moved_since` does, for the entries that the register may move. None if nothing changed, or if those
    /// that changed match no byte before and after. The entries of a standard hart are written in place.
    #[inline(always)]
    pub fn write_moved(&mut self, csr: Csr, value: u64) -> (Written, Option<Span>)
        ensures written { IsWritten self.old self.new csr value result.0 }
        ensures moved { result.1 ≡ moved_by (restored_file self.old) (restored_file self.new) csr }
        ensures beside { AreAlikeBeside (restored_file self.old) (restored_file self.new) result.1 }
        ensures none { result.0.is_changed ≡ false → result.1 ≡ None }
    {
        match (csr, Hart::standard(self.entries)) {
            (Csr::Addr(register), Some(hart)) => self.write_address_moved(hart, register, value),
            (Csr::Cfg(register), Some(hart)) => {
                self.write_configurations_moved(hart, register, value)
            }
            _ => self.write_moved_apart(csr, value),
        }
    }
}
