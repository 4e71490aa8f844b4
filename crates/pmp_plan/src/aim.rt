//! What the writes of a plan are to leave, and what they are held to on the way.

ghost use Rattle.std.specs.Prelude.{◌≡◌};
ghost use Rattle.pmp_plan.specs.Routes.{lasting, plain};

use crate::plan_row::PlanRow;
use crate::security::Security;
use pmp_core::RegFile;

/// What has to hold after each single write, not only after the last: a byte that is closed to a mode and a kind of
/// access before the writes and after them is closed to them in between.
#[derive(Clone, Copy, Debug, PartialEq, Eq)]
pub struct Watch {
    /// Whether only M-mode runs until the last write, so that nothing is asked of the accesses of S-mode and U-mode.
    pub is_machine_alone: bool,
    /// Whether what is open before and after has to be open in between too.
    pub keeps_open: bool,
}

/// What the writes of a plan are to leave beside its bytes.
#[derive(Clone, Copy, Debug, PartialEq, Eq)]
pub struct Aim {
    /// The bits of `mseccfg` that are asked for.
    pub security: Security,
    /// What is asked of each write, if anything is.
    pub watch: Option<Watch>,
}

/// What writes are to lead to: registers that meet the rows of a plan, and an aim.
#[derive(Clone, Copy)]
pub struct Goal<'r, 'p> {
    pub aim: Aim,
    pub rows: &'r [PlanRow<'p>],
}

impl Aim {
    /// Returns the aim of these bits, without anything asked on the way.
    pub fn plain(security: Security) -> Aim
        ensures { result ≡ plain security }
    {
        Aim {
            security,
            watch: None,
        }
    }

    /// Returns the bits of `mseccfg` that the registers have in the end: MML and MMWP stay set where they are.
    pub fn lasting(&self, start: &RegFile) -> Security
        ensures { result ≡ lasting start.now self.now.security }
    {
        let now = Security::of(start);
        Security {
            mml: now.mml || self.security.mml,
            mmwp: now.mmwp || self.security.mmwp,
            rlb: self.security.rlb,
        }
    }
}
