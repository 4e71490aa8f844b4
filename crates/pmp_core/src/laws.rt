//! The laws of the unit, each the contract of a function that does nothing.

ghost use Rattle.std.specs.Prelude.{◌≡◌, ℕ, ◌<◌, Option, length};
ghost use Rattle.pmp_core.specs.declared.access.Access.{Access};
ghost use Rattle.pmp_core.specs.declared.csr.Csr.{Csr};
ghost use Rattle.pmp_core.specs.declared.decision.Decision.{Decision};
ghost use Rattle.pmp_core.specs.declared.saved_registers.SavedRegisters.{SavedRegisters};
ghost use Rattle.pmp_core.specs.Hart.{profile_with};
ghost use Rattle.pmp_core.specs.RegisterFile.{RegisterFile, HasAddresses, IsLegal, reset_file};
ghost use Rattle.pmp_core.specs.Matching.{Matches};
ghost use Rattle.pmp_core.specs.Moved.{AreAlikeBeside, moved_by};
ghost use Rattle.pmp_core.specs.RegisterWrite.{written};
ghost use Rattle.pmp_core.specs.Decision.{IsOwner, IsDecider, IsDecision};
ghost use Rattle.pmp_core.specs.RightsLaw.{BarredRulesLaw, StoreLaw};
ghost use Rattle.pmp_core.specs.PartsLaw.{PartsLaw};
ghost use Rattle.pmp_core.specs.OthersLaw.{OthersLaw};
ghost use Rattle.pmp_core.specs.ProtectionLaw.{FewerRightsLaw, MachineCodeLaw, ProtectedLaw};
ghost use Rattle.pmp_core.specs.ReachableLaw.{LegalLaw, ReachableLaw};
ghost use Rattle.pmp_core.specs.StickyLaw.{FrozenAddressLaw, StickyLaw};
ghost use Rattle.pmp_core.specs.LockLaw.{LockLaw};
ghost use Rattle.pmp_core.specs.GrainLaw.{GrainLaw};
ghost use Rattle.pmp_core.specs.SizeLaw.{SizeLaw};
ghost use Rattle.pmp_core.specs.SavedRegisters.{restored_file, zero_registers};
ghost use Rattle.pmp_core.specs.SavedLaw.{SavedLaw};
ghost use Rattle.pmp_core.specs.SpanLaw.{OneSpanLaw};
ghost use Rattle.pmp_core.specs.WriteReasonsLaw.{WriteReasonsLaw};
ghost use Rattle.pmp_core.specs.XlenLaw.{XlenLaw};
ghost use Rattle.pmp_core.specs.Ranges.{decision_of};

use crate::register_file::ENTRIES;

/// The decision computed from the entries' ranges is the manual's.
#[tactic(auto, using(crate::proofs::Decisions::decided_by_ranges))]
pub fn law_decided_by_ranges()
    ensures { (file : RegisterFile) (access : Access) → HasAddresses file
        → IsDecision file access (decision_of file access) }
{}

/// The manual determines the decision on each access uniquely.
pub fn law_one_decision()
    ensures { (file : RegisterFile) (access : Access) (one other : Decision) →
        IsDecision file access one → IsDecision file access other → one ≡ other }
{}

/// An access of one byte is decided by the byte's owner.
pub fn law_owner_decides_byte()
    ensures { (file : RegisterFile) (access : Access) (owner : Option ℕ) →
        access.length ≡ 1 → IsOwner file access.start owner → IsDecider file access owner }
{}

/// Only an entry of the file matches a byte.
pub fn law_matching_entry()
    ensures { (file : RegisterFile) (i byte : ℕ) → Matches file i byte → i < length file.entries }
{}

/// The bytes that an entry matches, if any, are one span.
#[tactic(auto, using(crate::proofs::Spans::one_span))]
pub fn law_one_span()
    ensures { OneSpanLaw }
{}

/// After a reset and any events, the register file is legal, on any hart.
#[tactic(auto, using(crate::proofs::Legal::legal_law))]
pub fn law_legal()
    ensures { LegalLaw }
{}

/// The rules that no write adds while MML is set and RLB is clear are the locked ones by which M-mode executes in the
/// truth table of Smepmp.
pub fn law_barred_rules()
    ensures { BarredRulesLaw }
{}

/// The lock law: a frozen entry keeps its configuration and its bytes, and stays frozen, through every list of writes
/// without a reset. What the configuration means may change when MML becomes set.
#[tactic(auto, using(crate::proofs::Locks::lock_law))]
pub fn law_frozen()
    ensures { LockLaw }
{}

/// The store law: in every legal register file, whoever may store by a rule, or if no entry matches, may load too. So
/// an AMO that is decided as a store needs no second test.
pub fn law_store_load()
    ensures { StoreLaw }
{}

/// The grain law: in a legal register file the bytes of one block of the grain are matched by the same entries.
#[tactic(auto, using(crate::proofs::Blocks::grain_law))]
pub fn law_grain()
    ensures { GrainLaw }
{}

/// The size law: after resets and writes to the first entries, a hart decides every access as does an otherwise equal
/// hart with more entries. Sixteen and sixty-four entries are one case.
pub fn law_sizes()
    ensures { SizeLaw }
{}

/// The law of XLEN: an RV32 hart has the same entries and decides every access in the same way as an otherwise equal
/// RV64 hart, after events that give both the same bytes.
pub fn law_xlen()
    ensures { XlenLaw }
{}

/// A write to a legal register file has no reason for not being stored as written exactly if the register then reads
/// what was written. So the list of reasons is complete.
#[tactic(auto, using(crate::proofs::ReasonsLaw::write_reasons_law))]
pub fn law_write_reasons()
    ensures { WriteReasonsLaw }
{}

/// The saving law: the registers of a legal file restore it. Any numbers restore to a legal file; zeros restore to the
/// unit of sixteen entries after reset.
#[tactic(auto, using(crate::proofs::Saved::saving_laws))]
pub fn law_saved()
    ensures kept { SavedLaw }
    ensures legal { (saved : SavedRegisters) → IsLegal (restored_file saved) }
    ensures zero { restored_file zero_registers ≡ reset_file (profile_with ENTRIES) }
{}

/// MML gives no rule a right that it lacks while MML is clear, except W without R, which is then reserved.
pub fn law_fewer_rights()
    ensures { FewerRightsLaw }
{}

/// Protection holds: what the entries up to a held one decide, in a legal file, is decided the same after every list of
/// writes while MML stays the same; and what they refuse stays refused even if MML becomes set. An open entry with a
/// lower number might take their bytes, so a lock alone protects its entry, and not what is decided.
pub fn law_protected()
    ensures { ProtectedLaw }
{
    law_fewer_rights();
}

/// With MML set and some entry frozen, after every list of writes each fetch that M-mode is allowed is by an entry that
/// was frozen before, with the same configuration and bytes. An open entry may have refused it before.
pub fn law_machine_code()
    ensures { MachineCodeLaw }
{}

/// MML and MMWP stay set through every list of writes, and with MMWP set nothing is open if no entry matches, on a hart
/// that has MMWP.
#[tactic(auto, using(crate::proofs::Sticky::sticky_law))]
pub fn law_sticky()
    ensures { StickyLaw }
{}

/// A frozen address register keeps its address and stays frozen through every list of writes. It then reads the same if
/// its own entry is frozen, or with the finest grain.
#[tactic(auto, using(crate::proofs::Sticky::frozen_address_law))]
pub fn law_frozen_address()
    ensures { FrozenAddressLaw }
{}

/// Each part of an access that is allowed, in its mode and of its kind, is allowed too, by the same cause.
pub fn law_parts()
    ensures { PartsLaw }
{}

/// A write leaves all else unchanged: the entries that the register holds nothing of; the bytes of those that it can't
/// move; and, unless it is to `mseccfg`, the decisions on accesses with no byte of those that it may move, before and
/// after.
#[tactic(auto, using(crate::proofs::Others::others_law))]
pub fn law_others()
    ensures { OthersLaw }
{}

/// A write leaves the decisions on accesses with no byte of the entries that it moved, in a legal register file: of a
/// configuration register's, eight on RV64 and four on RV32, those that changed.
pub fn law_moved()
    ensures { (file : RegisterFile) (csr : Csr) (value : ℕ) → IsLegal file
        → AreAlikeBeside file (written file csr value) (moved_by file (written file csr value) csr) }
{}

/// Every legal register file is one that a reset and events produce. So what is restored is never a state that a hart
/// can't have.
#[tactic(auto, using(crate::proofs::Reachable::reachable_law))]
pub fn law_reachable()
    ensures { ReachableLaw }
{}
