//! Checkers: they decide accesses while the publisher publishes.

ghost use Rattle.std.specs.Prelude.{◌≡◌, ◌+◌, ◌<◌, ◌≤◌, length, map, IfOk, IfErr, OnOk};
ghost use Rattle.std.specs.List.{AllZip};
ghost use Rattle.pmp_core.specs.declared.access.TheConstants.{ADDRESS_LIMIT};
ghost use Rattle.pmp_core.specs.Histories.{joined};
ghost use Rattle.pmp_core.specs.Ranges.{decision_of};
ghost use Rattle.pmp_core.specs.RegisterValue.{register_value};
ghost use Rattle.pmp_map.specs.RangeRights.{AreRangeRights};
ghost use Rattle.pmp_share.specs.declared.fault.ShareFault.TheVariants.{Full};
ghost use Rattle.pmp_share.specs.declared.question.TheConstants.{GROUP_ACCESSES};
ghost use Rattle.pmp_share.specs.Batches.{StartsWith, event_count};
ghost use Rattle.pmp_share.specs.Known.{file_of};
ghost use Rattle.pmp_share.specs.Looks.{later_of, IsLook};
ghost use Rattle.pmp_share.specs.Object.{Decides};

use crate::fault::ShareFault;
use crate::journal::Journal;
use crate::notice::Notice;
use crate::question::{Count, GROUP_ACCESSES, Group, Range, WholeJournal};
use crate::reader_state::ReaderState;
use arrayvec::ArrayVec;
use pmp_core::{Access, Csr, Decision, Mode, Perms};
use std::marker::Model;

/// More events are published than were asked for.
#[derive(Clone, Copy, Debug, PartialEq, Eq)]
pub struct Moved {
    /// How many there are.
    pub seen: u64,
}

/// Decides accesses in whole published batches, and never falls behind what it has seen or learnt. It holds no
/// version entered between its calls, and can be sent to any thread. A contract sees the batches that it knows, and
/// which unit they belong to.
#[derive(Drop)]
pub struct Checker {
    state: ReaderState,
}

impl Model for Checker {
    ghost use Rattle.pmp_share.specs.declared.knowledge.Known.{Known};

    ghost Value = { Known };

    ghost view = { λ checker. checker.state };
}

impl Checker {
    /// Returns a checker that knows what this state knows.
    pub(crate) fn new(state: ReaderState) -> Checker
        ensures { result ≡ state }
    {
        Checker { state }
    }

    /// Takes in a notice of its own unit. From now on it decides with at least these batches.
    #[tactic(auto, using(crate::proofs::LookFacts::begins_fewer))]
    pub fn learn(&mut self, notice: Notice)
        requires unit { notice.unit ≡ self.old.unit }
        ensures unit { self.new.unit ≡ self.old.unit }
        ensures later { self.new.list ≡ later_of self.old.list notice.list }
        ensures begins { StartsWith self.new.list self.old.list × StartsWith self.new.list notice.list }
        ensures reached { (event_count self.old.list ≤ event_count self.new.list)
            × (event_count notice.list ≤ event_count self.new.list) }
    {
        let state = notice.into_state();
        if self.state.is_before(&state) {
            self.state = state;
        }
    }

    /// Decides an access in what is published, and returns the number of events of that. It never waits.
    pub fn decide(&mut self, access: &Access) -> (Decision, u64)
        ensures look { IsLook self.old self.new result.1 }
        ensures decided { Decides self.new.unit.base self.new.list access.now result.0 }
        ensures computed { result.0 ≡ decision_of (file_of self.new) access.now }
    {
        self.state.look(access)
    }

    /// Decides an access in what is published, if that is exactly `len` events. It never waits.
    pub fn decide_at(&mut self, len: u64, access: &Access) -> Result<Decision, Moved>
        requires reached { len ≤ event_count self.old.list }
        ensures look { IsLook self.old self.new (event_count self.new.list) }
        ensures at_len { OnOk result ((event_count self.new.list ≡ len)
            × (joined self.new.list ≡ joined self.old.list)) }
        ensures decided { IfOk result (λ decision. Decides self.new.unit.base self.new.list access.now decision) }
        ensures computed { IfOk result (λ decision. decision ≡ decision_of (file_of self.new) access.now) }
        ensures moved { IfErr result (λ moved. (moved.seen ≡ event_count self.new.list) × (len < moved.seen)) }
    {
        let (decision, seen) = self.decide(access);
        if seen != len {
            return Err(Moved { seen });
        }
        Ok(decision)
    }

    /// Decides a group of accesses in what is published, all in the same batches. Returns the decisions in the order of
    /// the accesses, and the number of events. It never waits and allocates nothing. An emulator uses a group for the
    /// elements of a vector access, between which no publication may fall.
    pub fn decide_group(&mut self, accesses: &[Access]) -> (ArrayVec<Decision, GROUP_ACCESSES>, u64)
        requires { length accesses.now ≤ GROUP_ACCESSES }
        ensures look { IsLook self.old self.new result.1 }
        ensures decided { AllZip (Decides self.new.unit.base self.new.list) accesses.now result.0.items }
        ensures computed { result.0.items ≡ map (decision_of (file_of self.new)) accesses.now }
    {
        self.state.look(&Group { accesses })
    }

    /// Returns what the mode may do in the whole range of `length` bytes from byte address `start` on, such as a page,
    /// in what is published, and the number of events; none if no one owner has all bytes of the range: then each
    /// access is decided by itself. It never waits and allocates nothing. An emulator uses it to fill its TLB.
    pub fn rights(&mut self, mode: Mode, start: u64, length: u64) -> (Option<Perms>, u64)
        requires full { 0 < length }
        requires inside { start + length ≤ ADDRESS_LIMIT }
        ensures look { IsLook self.old self.new result.1 }
        ensures rights { AreRangeRights (file_of self.new) mode start length result.0 }
    {
        self.state.look(&Range {
            mode,
            start,
            length,
        })
    }

    /// Returns how many events are published. If a TLB was filled at another count, flush it. It never waits and
    /// allocates nothing.
    pub fn count(&mut self) -> u64
        ensures look { IsLook self.old self.new result }
    {
        self.state.look(&Count).1
    }

    /// Returns what the register reads in what is published, and the number of events. It never waits and allocates
    /// nothing.
    pub fn read(&mut self, csr: Csr) -> (u64, u64)
        ensures look { IsLook self.old self.new result.1 }
        ensures value { result.0 ≡ register_value (file_of self.new) csr }
    {
        self.state.look(&csr)
    }

    /// Returns a copy of what is published. `NoPlace` if no entrance is given, as after the publisher's end, and
    /// `Memory` if memory is refused.
    pub fn copy_journal(&mut self) -> Result<Journal, ShareFault>
        ensures look { IsLook self.old self.new (event_count self.new.list) }
        ensures copied { IfOk result (λ journal. journal ≡ self.new.list) }
        ensures refused { IfErr result (λ fault. ¬ (fault ≡ Full)) }
    {
        self.state.look(&WholeJournal).0
    }
}
