//! The parts of the registers that events change.

ghost use Rattle.std.specs.Prelude.{◌≡◌};
ghost use Rattle.pmp_lint.specs.Events.{differs};
ghost use Rattle.pmp_lint.specs.Subjects.{IsSubject};

use crate::entry_numbers::{address_at, byte_at};
use crate::mseccfg_bits::{has_mml, has_mmwp, has_rlb};
use pmp_core::RegFile;

/// A part of the registers that an event may change.
#[derive(Clone, Copy)]
pub enum Subject {
    /// RLB.
    Bypass,
    /// MML or MMWP.
    Lockdown,
    /// The configuration or the address register of the entry with this number.
    Entry(u8),
    /// Its configuration.
    Configuration(u8),
    /// Its address register.
    Address(u8),
}

impl Subject {
    /// Whether it differs between the two register files.
    pub fn differs(self, before: &RegFile, after: &RegFile) -> bool
        requires { IsSubject self }
        ensures { result ≡ differs self before.now after.now }
    {
        match self {
            Subject::Bypass => has_rlb(before) != has_rlb(after),
            Subject::Lockdown => {
                has_mml(before) != has_mml(after) || has_mmwp(before) != has_mmwp(after)
            }
            Subject::Entry(entry) => {
                byte_at(before, entry) != byte_at(after, entry)
                    || address_at(before, entry) != address_at(after, entry)
            }
            Subject::Configuration(entry) => byte_at(before, entry) != byte_at(after, entry),
            Subject::Address(entry) => address_at(before, entry) != address_at(after, entry),
        }
    }
}
