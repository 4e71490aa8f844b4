//! What answers a checker's questions: a published version, or the digest of what is known.

ghost use Rattle.std.specs.Prelude.{◌≡◌, ◌+◌, ◌<◌, ◌≤◌, IfOk, IfErr};
ghost use Rattle.pmp_core.specs.declared.access.TheConstants.{ADDRESS_LIMIT};
ghost use Rattle.pmp_core.specs.Ranges.{decision_of};
ghost use Rattle.pmp_core.specs.RegisterValue.{register_value};
ghost use Rattle.pmp_map.specs.RangeRights.{AreRangeRights};
ghost use Rattle.pmp_share.specs.declared.fault.ShareFault.TheVariants.{Full};
ghost use Rattle.pmp_share.specs.declared.knowledge.Known.{Known};
ghost use Rattle.pmp_share.specs.Batches.{event_count};
ghost use Rattle.pmp_share.specs.Known.{file_of};
ghost use Rattle.pmp_share.specs.Object.{Decides};

use crate::fault::ShareFault;
use crate::journal::Journal;
use pmp_core::{Access, Csr, Decision, Mode, Perms};

pub trait Decider {
    /// The batches that it answers in, and which unit they belong to.
    ghost known: { Self → Known };

    fn decide(&self, access: &Access) -> Decision
        ensures by_bytes { Decides (known self.now).unit.base (known self.now).list access.now result }
        ensures computed { result ≡ decision_of (file_of (known self.now)) access.now };

    /// Returns what the mode may do in the whole range, or none if no one owner has all of its bytes.
    fn rights(&self, mode: Mode, start: u64, length: u64) -> Option<Perms>
        requires full { 0 < length }
        requires inside { start + length ≤ ADDRESS_LIMIT }
        ensures { AreRangeRights (file_of (known self.now)) mode start length result };

    /// Returns what the register reads.
    fn read(&self, csr: Csr) -> u64
        ensures { result ≡ register_value (file_of (known self.now)) csr };

    /// Returns how many events the batches hold.
    fn events(&self) -> u64
        ensures { result ≡ event_count (known self.now).list };

    /// Returns a copy of the batches. A digest has none: `NoPlace`.
    fn copy_journal(&self) -> Result<Journal, ShareFault>
        ensures copied { IfOk result (λ journal. journal ≡ (known self.now).list) }
        ensures refused { IfErr result (λ fault. ¬ (fault ≡ Full)) };
}
