//! How the owner of bytes is locked.

ghost use Rattle.std.specs.Prelude.{◌≡◌, ◌<◌, IfSome, length};
ghost use Rattle.pmp_map.specs.ByteLocks.{entry_lock, lock_by};

use crate::hold::is_held;
use pmp_core::{Lock, Registers};

/// How the owner of bytes is locked.
#[derive(Clone, Copy, Debug, PartialEq, Eq)]
pub enum ByteLock {
    /// Its lock bit is clear, or there is no owner and some entry isn't frozen.
    Open,
    /// Its lock bit is set, but so is RLB.
    Bypassed,
    /// It is frozen, and an entry before it isn't.
    Frozen,
    /// It and all entries before it are frozen, or there is no owner and all entries are frozen.
    Held,
}

/// Returns the lock of bytes whose owner is an entry that isn't held.
fn entry_lock(lock: Lock) -> ByteLock
    ensures { result ≡ entry_lock lock }
{
    match lock {
        Lock::Open => ByteLock::Open,
        Lock::Bypassed => ByteLock::Bypassed,
        Lock::Frozen => ByteLock::Frozen,
    }
}

impl ByteLock {
    /// Returns the lock of bytes that this entry owns, or none.
    pub fn of_owner(registers: &Registers<'_>, owner: Option<u8>) -> ByteLock
        requires { IfSome owner (λ entry. entry < length registers.now.entries) }
        ensures { result ≡ lock_by registers.now owner }
    {
        match owner {
            _ if is_held(registers, owner) => ByteLock::Held,
            Some(entry) => entry_lock(registers.lock(usize::from(entry))),
            None => ByteLock::Open,
        }
    }
}
