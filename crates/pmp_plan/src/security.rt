//! The bits of `mseccfg` that a plan asks for.

ghost use Rattle.std.specs.Prelude.{◌≡◌};
ghost use Rattle.pmp_plan.specs.Plans.{rest_rights, security_value};
ghost use Rattle.pmp_plan.specs.Routes.{security_in};

use pmp_core::{Csr, Perms, RegFile};
use pmp_map::ModeRights;

/// The bits of `mseccfg` (Smepmp) that a plan is for.
#[derive(Clone, Copy, Debug, Default, PartialEq, Eq)]
pub struct Security {
    pub mml: bool,
    pub mmwp: bool,
    pub rlb: bool,
}

impl Security {
    pub const NONE: Security = Security {
        mml: false,
        mmwp: false,
        rlb: false,
    };

    /// RLB only.
    pub const BYPASS: Security = Security {
        mml: false,
        mmwp: false,
        rlb: true,
    };

    /// Returns the bits that a register file has.
    pub fn of(file: &RegFile) -> Security
        ensures { result ≡ security_in file.now }
    {
        let value = file.read(Csr::Mseccfg);
        Security {
            mml: value % 2 == 1,
            mmwp: value / 2 % 2 == 1,
            rlb: value / 4 % 2 == 1,
        }
    }

    /// Returns the register's value.
    pub fn value(self) -> u64
        ensures { result ≡ security_value self }
    {
        u64::from(self.mml) + 2 * u64::from(self.mmwp) + 4 * u64::from(self.rlb)
    }

    /// Returns what the modes may do with a byte that no row names, as without entries.
    pub fn rest(self) -> ModeRights
        ensures { result ≡ rest_rights self }
    {
        let machine = match (self.mml, self.mmwp) {
            (_, true) => Perms::NONE,
            (true, false) => Perms::RW,
            (false, false) => Perms::RWX,
        };
        ModeRights {
            machine,
            others: Perms::NONE,
        }
    }
}
