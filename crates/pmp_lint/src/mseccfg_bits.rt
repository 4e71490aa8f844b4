//! The bits of `mseccfg` in a register file.

ghost use Rattle.std.specs.Prelude.{◌≡◌};

use pmp_core::{Csr, RegFile};

/// Whether MML is set.
pub fn has_mml(file: &RegFile) -> bool
    ensures { result ≡ file.now.mseccfg.mml }
{
    file.read(Csr::Mseccfg) % 2 == 1
}

/// Whether MMWP is set.
pub fn has_mmwp(file: &RegFile) -> bool
    ensures { result ≡ file.now.mseccfg.mmwp }
{
    file.read(Csr::Mseccfg) / 2 % 2 == 1
}

/// Whether RLB is set.
pub fn has_rlb(file: &RegFile) -> bool
    ensures { result ≡ file.now.mseccfg.rlb }
{
    file.read(Csr::Mseccfg) / 4 % 2 == 1
}
