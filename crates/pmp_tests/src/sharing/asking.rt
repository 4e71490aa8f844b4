//! Workers that learn notices and decide in just what these tell of, proved from the public contracts alone.

ghost use Rattle.std.specs.Prelude.{◌≡◌, IfOk};
ghost use Rattle.pmp_core.specs.Ranges.{decision_of};
ghost use Rattle.pmp_share.specs.Known.{file_of};
ghost use Rattle.pmp_share.specs.Object.{Decides};

use super::unit::{Unit, by_entry};
use super::{ENTRY_ONE, ENTRY_ZERO};
use pmp_core::{Access, Decision};
use pmp_share::laws::law_same_events;
use pmp_share::{Checker, Moved, Notice};

/// Decides an access in just the batches that the notice tells of, if no more events are published.
fn ask(checker: &mut Checker, notice: Notice, access: &Access) -> Result<Decision, Moved>
    requires { notice.unit ≡ checker.old.unit }
    ensures unit { checker.new.unit ≡ checker.old.unit }
    ensures decided { IfOk result (λ decision. Decides notice.unit.base notice.list access.now decision) }
    ensures computed { IfOk result (λ decision.
        decision ≡ decision_of (file_of notice) access.now) }
{
    let len = notice.len();
    checker.learn(notice);
    law_same_events();
    checker.decide_at(len, access)
}

/// Notices, one for each of two checkers.
#[derive(Drop)]
pub struct Told {
    pub first: Notice,
    pub second: Notice,
}

/// Both decide an access in just the batches that both were told of, in units that began with the same register file:
/// alike, where neither has moved on.
pub fn ask_both(
    first: &mut Checker,
    second: &mut Checker,
    to: Told,
    access: &Access,
) -> (Result<Decision, Moved>, Result<Decision, Moved>)
    requires units { (to.first.unit ≡ first.old.unit) × (to.second.unit ≡ second.old.unit) }
    requires base { to.second.unit.base ≡ to.first.unit.base }
    requires told { to.second.list ≡ to.first.list }
    ensures units { (first.new.unit ≡ first.old.unit) × (second.new.unit ≡ second.old.unit) }
    ensures alike { IfOk result.0 (λ one. IfOk result.1 (λ other. other ≡ one)) }
{
    (ask(first, to.first, access), ask(second, to.second, access))
}

/// An empty batch moves neither on. Where events are published that they weren't told of, both answer how many there
/// are now.
#[test]
fn workers_told_alike_decide_alike(rt: HostRuntime) {
    let mut unit = Unit::start(&rt, rt.alloc());
    unit.publish(&rt, &ENTRY_ZERO, 2);
    unit.assert_both_answer(&rt, &[], 2, Ok(by_entry(0)));
    unit.assert_both_answer(&rt, &ENTRY_ONE, 4, Err(Moved { seen: 4 }));
    unit.close(&rt);
}
