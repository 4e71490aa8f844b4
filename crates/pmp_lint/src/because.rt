//! The reason why an access is decided as it is.

ghost use Rattle.std.specs.Prelude.{◌≡◌, ◌<◌, ◌≤◌, IsTrue, length};
ghost use Rattle.pmp_core.specs.Decision.{IsDecision};
ghost use Rattle.pmp_text.specs.Reports.{file_of_script};
ghost use Rattle.pmp_lint.specs.Why.{IsSince, IsWhy};

use crate::decider::Decider;
use pmp_core::{Access, Decision, RegFile};
use pmp_text::{ReadScript, deciding_entry};

/// The reason why an access is decided as it is at a moment of a script.
#[derive(Clone, Copy, Debug, PartialEq, Eq)]
pub struct Because {
    pub decision: Decision,
    /// The first moment from which it has been decided so up to that one.
    pub since: u64,
    /// The deciding entry: the first one that matches a byte of the access. None if there is none.
    pub decider: Option<Decider>,
}

/// A register file of a script, and a decision in it.
#[derive(Clone, Copy)]
struct Decided {
    file: RegFile,
    decision: Decision,
    /// Since when it is decided so.
    since: u64,
}

/// Whether both decisions are the same.
pub fn is_same(one: &Decision, other: &Decision) -> bool
    ensures yes { IsTrue result → one.now ≡ other.now }
    ensures no { one.now ≡ other.now → IsTrue result }
{
    one == other
}

/// Returns how the access is decided after the script's first `done` publications, and since when.
fn decided_at(script: &ReadScript<'_>, done: u64, access: &Access) -> Decided
    requires { done ≤ length script.now.batches }
    ensures file { result.file ≡ file_of_script script.now done }
    ensures by_bytes { IsDecision result.file access.now result.decision }
    ensures since { IsSince script.now done access.now result.since }
{
    let mut file = script.start();
    let mut decision = file.decide(access);
    let mut since = 0;
    for index in 0..done {
        file.run_events(script.batch(index));
        let next = file.decide(access);
        if !is_same(&next, &decision) {
            since = index + 1;
        }
        decision = next;
    }
    Decided {
        file,
        decision,
        since,
    }
}

/// Returns why the access is decided as it is after the script's first `done` publications.
pub fn why(script: &ReadScript<'_>, done: u64, access: &Access) -> Because
    requires { done ≤ length script.now.batches }
    ensures { IsWhy script.now done access.now result }
{
    let decided = decided_at(script, done, access);
    let decider = match deciding_entry(decided.decision.cause) {
        Some(entry) => Some(Decider::decode(script, done, &decided.file, entry)),
        None => None,
    };
    Because {
        decision: decided.decision,
        since: decided.since,
        decider,
    }
}
