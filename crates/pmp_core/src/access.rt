//! Accesses to physical memory: what the unit decides.

ghost use Rattle.std.specs.Prelude.{◌≡◌, ◌+◌, ◌<◌, ◌≤◌, IfOk, IfErr, None, Some};
ghost use Rattle.pmp_core.specs.declared.access.TheConstants.{ADDRESS_LIMIT, MAX_LENGTH};

/// The effective privilege mode of an access, after MPRV and MPP were taken into account
/// (Volume II, 3.1.6.3). Its number is its level (1.2).
#[derive(Clone, Copy, Debug, PartialEq, Eq)]
pub enum Mode {
    /// M-mode.
    M = 3,
    /// S-mode.
    S = 1,
    /// U-mode.
    U = 0,
}

/// What an access does. An AMO or a store-conditional is a store.
#[derive(Clone, Copy, Debug, PartialEq, Eq)]
pub enum Kind {
    Fetch,
    Load,
    Store,
}

/// The greatest length of one access, in bytes.
pub const MAX_LENGTH: u64 = 4096;

/// One past the highest byte address: physical addresses have 56 bits.
pub const ADDRESS_LIMIT: u64 = 1 << 56;

/// One access to physical memory, which may be misaligned. Its ghost fields say that its length is valid and that it
/// ends inside the address space; `Access::new` tests both.
#[derive(Clone, Copy, Debug, PartialEq, Eq)]
pub struct Access {
    pub mode: Mode,
    pub kind: Kind,
    /// The byte address of its first byte.
    pub start: u64,
    /// Its length in bytes.
    pub length: u64,
    pub ghost not_empty: { 0 < length },
    pub ghost not_long: { length ≤ MAX_LENGTH },
    pub ghost inside: { start + length ≤ ADDRESS_LIMIT },
}

/// Why numbers describe no access.
#[derive(Clone, Copy, Debug, PartialEq, Eq)]
pub enum AccessFault {
    /// The length is 0 or above 4,096 bytes.
    BadLength,
    /// The access would end above `2^56`.
    PastEnd,
}

impl Access {
    ghost use Rattle.pmp_core.specs.Access.{access_fault, IsAccess};

    /// Returns the access of `length` bytes from byte address `start` on. The length is tested first.
    #[inline]
    pub fn new(mode: Mode, kind: Kind, start: u64, length: u64) -> Result<Access, AccessFault>
        ensures made { IfOk result (λ access. (access_fault start length ≡ None)
            × IsAccess access mode kind start length) }
        ensures refused { IfErr result (λ fault. access_fault start length ≡ Some fault) }
    {
        if length == 0 || length > MAX_LENGTH {
            return Err(AccessFault::BadLength);
        }
        if start > ADDRESS_LIMIT - length {
            return Err(AccessFault::PastEnd);
        }
        Ok(Access {
            mode,
            kind,
            start,
            length,
        })
    }
}
