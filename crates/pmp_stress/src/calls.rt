//! The calls that are timed. None is inlined, so that each is a call, as in an emulator.

ghost use Rattle.std.specs.Prelude.{◌≡◌, ◌+◌, ◌≤◌};
ghost use Rattle.pmp_core.specs.declared.access.TheConstants.{ADDRESS_LIMIT};

use crate::unit::{EVENTS, Loads, RULES, file};
use pmp_core::{Access, Csr, Mode, Perms, RegFile};
use pmp_map::RunMap;
use pmp_share::{Checker, Publisher, ShareFault};

/// How many decisions there are, or other calls.
pub const CALLS: u32 = 1_000_000;

#[derive(Clone, Copy)]
pub enum Call {
    /// A decision by a map that no thread shares. The others are of a checker.
    Map,
    Decision,
    /// Of sixteen accesses in one look.
    Group,
    /// The rights of a page.
    Rights,
    Count,
    Register,
}

#[inline(never)]
fn is_allowed_by_map(map: &RunMap, file: &RegFile, access: &Access) -> bool
    requires { map.now ≡ file.now }
{
    map.decide(file, access).allowed
}

#[inline(never)]
fn is_allowed(checker: &mut Checker, access: &Access) -> bool {
    checker.decide(access).0.allowed
}

/// How many of a group are allowed.
#[inline(never)]
fn allowed_of_group(checker: &mut Checker, group: &Loads) -> u32 {
    let mut allowed = 0u32;
    for decision in checker.decide_group(group).0.iter() {
        allowed = allowed.wrapping_add(u32::from(decision.allowed));
    }
    allowed
}

#[inline(never)]
fn is_open(checker: &mut Checker, page: u64) -> bool
    requires { page + 4096 ≤ ADDRESS_LIMIT }
{
    checker.rights(Mode::U, page, 4096).0 == Some(Perms::RW)
}

#[inline(never)]
fn is_counted(checker: &mut Checker) -> bool {
    checker.count() >= EVENTS
}

#[inline(never)]
fn is_read(checker: &mut Checker) -> bool {
    checker.read(Csr::Cfg(0)).0 == RULES
}

/// How many of many loads are allowed, or of other calls answered as they have to be.
pub fn right_calls(call: Call, checker: &mut Checker, loads: &Loads) -> u32 {
    let file = file();
    let map = RunMap::build(&file);
    let mut right = 0u32;
    for index in 0..if matches!(call, Call::Group) {
        CALLS / 16
    } else {
        CALLS
    } {
        let load = &loads[index as usize % 16];
        right = right.wrapping_add(match call {
            Call::Map => u32::from(is_allowed_by_map(&map, &file, load)),
            Call::Decision => u32::from(is_allowed(checker, load)),
            Call::Group => allowed_of_group(checker, loads),
            Call::Rights => u32::from(is_open(checker, load.start % (1 << 55))),
            Call::Count => u32::from(is_counted(checker)),
            Call::Register => u32::from(is_read(checker)),
        });
    }
    right
}

/// Has the checker learn so often what it knows already.
pub fn learn(publisher: &mut Publisher, checker: &mut Checker, times: u32) -> Result<(), ShareFault>
    requires { checker.old.unit ≡ publisher.old.unit }
{
    for _ in 0..times {
        checker.learn(publisher.tell()?);
    }
    Ok(())
}
