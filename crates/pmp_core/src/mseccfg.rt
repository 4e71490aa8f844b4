//! The bits of `mseccfg` (Smepmp).

ghost use Rattle.std.specs.Prelude.{⊤, ◌≡◌, ◌&&◌, not, [], ◌∷◌, codes};
ghost use Rattle.pmp_core.specs.Mseccfg.{mseccfg_value, mseccfg_fields};

use bitflags::{Flag, Flags, bitflag_items};

/// A set of the bits of `mseccfg` that the unit has.
#[derive(Clone, Copy, Debug, PartialEq, Eq)]
pub struct Mseccfg(u64);

bitflag_items! {
    impl Mseccfg: u64 {
        const MML = 1;
        const MMWP = 2;
        const RLB = 4;
    }
}

impl Flags for Mseccfg {
    type Bits = u64;

    ghost exact = { ⊤ };

    ghost table = { (codes "MML", 1) ∷ (codes "MMWP", 2) ∷ (codes "RLB", 4) ∷ [] };

    ghost set_of = { λ set. set.0 };

    fn flags<'a>() -> &'a [Flag<Mseccfg>] {
        Mseccfg::FLAGS
    }

    fn bits(&self) -> u64 {
        self.0
    }

    fn from_bits_retain(bits: u64) -> Mseccfg {
        Mseccfg(bits)
    }
}

/// The fields of `mseccfg`.
#[derive(Clone, Copy, PartialEq, Eq)]
pub struct MseccfgFields {
    /// MML: rules apply to M-mode by another table, and it executes only by locked rules.
    pub mml: bool,
    /// MMWP: M-mode may do nothing if no entry matches.
    pub mmwp: bool,
    /// RLB: locks don't restrict writes.
    pub rlb: bool,
}

impl MseccfgFields {
    /// The fields after reset.
    pub const RESET: MseccfgFields = MseccfgFields {
        mml: false,
        mmwp: false,
        rlb: false,
    };

    /// Whether no write may add a rule by which M-mode executes.
    #[inline(always)]
    pub fn is_lockdown(self) -> bool
        ensures { result ≡ (self.mml && not self.rlb) }
    {
        self.mml && !self.rlb
    }

    /// Returns the register's value.
    pub fn value(self) -> u64
        ensures { result ≡ mseccfg_value self }
    {
        let mut set = Mseccfg::empty();
        set.set(Mseccfg::MML, self.mml);
        set.set(Mseccfg::MMWP, self.mmwp);
        set.set(Mseccfg::RLB, self.rlb);
        set.bits()
    }

    /// Returns the fields of a value.
    pub fn from_value(value: u64) -> MseccfgFields
        ensures { result ≡ mseccfg_fields value }
    {
        let set = Mseccfg::from_bits_retain(value);
        MseccfgFields {
            mml: set.contains(Mseccfg::MML),
            mmwp: set.contains(Mseccfg::MMWP),
            rlb: set.contains(Mseccfg::RLB),
        }
    }
}
