//! What a mode may do in a whole range of bytes, without a map.

ghost use Rattle.std.specs.Prelude.{◌+◌, ◌<◌, ◌≤◌};
ghost use Rattle.pmp_core.specs.declared.access.TheConstants.{ADDRESS_LIMIT};
ghost use Rattle.pmp_map.specs.RangeRights.{AreRangeRights};

use pmp_core::{Cause, Mode, Perms, Registers};

/// Returns what `RunMap::rights` returns with the map of these registers: what the mode may do in the whole range of
/// `length` bytes from the byte address `start` on, or none if no one owner has all of them.
#[inline(always)]
pub fn rights_in(registers: &Registers<'_>, mode: Mode, start: u64, length: u64) -> Option<Perms>
    requires full { 0 < length }
    requires inside { start + length ≤ ADDRESS_LIMIT }
    ensures { AreRangeRights registers.now mode start length result }
{
    match registers.cause(start, start + length) {
        Cause::Rule(entry) => Some(registers.rights(usize::from(entry), mode)),
        Cause::Split(_) => None,
        Cause::NoMatch => Some(registers.default_rights(mode)),
    }
}
