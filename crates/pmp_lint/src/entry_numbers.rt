//! The contents of an entry's registers, as numbers.

ghost use Rattle.std.specs.Prelude.{◌≡◌, ◌<◌};
ghost use Rattle.pmp_core.specs.declared.size.TheConstants.{MAX_ENTRIES};
ghost use Rattle.pmp_lint.specs.Events.{address_at, byte_at};

use pmp_core::RegFile;

/// Returns the entry's configuration byte, zero for an entry that the hart lacks.
pub fn byte_at(file: &RegFile, entry: u8) -> u8
    requires { entry < MAX_ENTRIES }
    ensures { result ≡ byte_at file.now entry }
{
    file.save().configurations[usize::from(entry)]
}

/// Returns the word address that its register keeps, likewise.
pub fn address_at(file: &RegFile, entry: u8) -> u64
    requires { entry < MAX_ENTRIES }
    ensures { result ≡ address_at file.now entry }
{
    file.save().addresses[usize::from(entry)]
}
