//! The run of a byte, without a map.

ghost use Rattle.std.specs.Prelude.{◌≡◌, ◌≢◌, ℕ, max, ◌+◌, ◌-◌, ◌<◌, ◌≤◌, IfSome, Option, length};
ghost use Rattle.pmp_core.specs.declared.access.TheConstants.{ADDRESS_LIMIT};
ghost use Rattle.pmp_core.specs.Ranges.{IsInRange};
ghost use Rattle.pmp_core.specs.Rights.{perms_of};
ghost use Rattle.pmp_map.specs.Answers.{owned_rights};
ghost use Rattle.pmp_map.specs.Runs.{IsRunAround};

use crate::mode_rights::owned_rights;
use crate::run::Run;
use pmp_core::{ADDRESS_LIMIT, AddressMatching, Mode, Perms, Registers};

/// Returns all bytes around this one that have its owner: between the changes of owner before and after it. For a few
/// bytes of a register file this is less work than building its map.
#[inline(always)]
pub fn run_around(registers: &Registers<'_>, byte: u64) -> Run
    requires { byte < ADDRESS_LIMIT }
    ensures run { IsRunAround registers.now byte result }
    ensures owner { IfSome result.owner (λ entry. entry < length registers.now.entries) }
{
    let mut first = 0;
    let mut end = ADDRESS_LIMIT;
    let mut index = 0;
    while index < registers.count() {
        if registers.matching(index) == AddressMatching::Off {
            index += registers.count_off(index);
        } else {
            let range = registers.range(index);
            if range.contains(byte) {
                return Run {
                    first: first.max(range.start),
                    last: end.min(range.end) - 1,
                    owner: Some(index as u8),
                };
            }
            if range.start < range.end && range.end <= byte {
                first = first.max(range.end);
            } else if range.start < range.end {
                end = end.min(range.start);
            }
            index += 1;
        }
    }
    Run {
        first,
        last: end - 1,
        owner: None,
    }
}

/// Returns the run of this byte, and what the mode may do there.
#[inline(always)]
pub fn owned_run(registers: &Registers<'_>, mode: Mode, byte: u64) -> (Run, Perms)
    requires { byte < ADDRESS_LIMIT }
    ensures run { IsRunAround registers.now byte result.0 }
    ensures rights { result.1 ≡ perms_of (owned_rights registers.now result.0.owner mode) }
{
    let run = run_around(registers, byte);
    (run, owned_rights(registers, run.owner, mode))
}
