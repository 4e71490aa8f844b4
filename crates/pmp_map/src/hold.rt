//! Whether the owner of bytes is held.

ghost use Rattle.std.specs.Prelude.{◌≡◌, ◌<◌, IfSome, length};
ghost use Rattle.pmp_map.specs.OpenBytes.{holds};

use pmp_core::Registers;

/// Whether the owner of bytes is held: it and all entries before it are frozen, or without an owner, all entries are.
pub fn is_held(registers: &Registers<'_>, owner: Option<u8>) -> bool
    requires { IfSome owner (λ entry. entry < length registers.now.entries) }
    ensures { result ≡ holds registers.now owner }
{
    let last = match owner {
        Some(entry) => Some(usize::from(entry)),
        None => registers.count().checked_sub(1),
    };
    match last {
        Some(entry) => registers.is_held(entry),
        None => true,
    }
}
