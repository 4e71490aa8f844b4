//! A worker: it decides its rows of one round, in exactly what its notice reports.

ghost use Rattle.std.specs.Prelude.{◌≡◌, ◌+◌, ◌^◌, ◌<◌, ◌≤◌, OnOk, IfOk, IfErr, length};
ghost use Rattle.pmp_core.specs.Ranges.{decision_of};
ghost use Rattle.pmp_audit.specs.Rounds.{IsResult};
ghost use Rattle.pmp_audit.specs.Working.{HasLearnt};
ghost use Rattle.pmp_share.specs.Batches.{event_count};

use super::job::{Done, Job, Round};
use crate::fault::moved_on;
use crate::gate::Gate;
use pmp_core::{Decision, RegFile};
use pmp_share::laws::law_same_events;
use pmp_share::{Checker, Moved};
use pmp_text::{Fault, TraceRow};
use std::alloc::Global;

/// Decides the row in this file, given by `count` events that the checker learnt of, if no more events are published.
fn ask(checker: &mut Checker, count: u64, file: &RegFile, row: &TraceRow) -> Result<Decision, Moved>
    requires { HasLearnt checker.old count file.now }
    ensures unit { checker.new.unit ≡ checker.old.unit }
    ensures learnt { OnOk result (HasLearnt checker.new count file.now) }
    ensures asked { OnOk result (event_count checker.new.list ≡ count) }
    ensures decided { IfOk result (λ decision. decision ≡ decision_of file.now row.now.access) }
    ensures moved { IfErr result (λ moved.
        (moved.seen ≡ event_count checker.new.list) × (count < moved.seen)) }
{
    law_same_events();
    let decision = checker.decide_at(count, &row.access)?;
    Ok(decision)
}

/// Does the job of one of several workers: learns its notice, and decides its rows of a round in exactly what the
/// notice reports and the checker has seen, and no more. These are the rows whose index, from 0, modulo the number of
/// workers is the worker's. After each row it passes the gate.
pub(crate) fn work<G: Gate>(
    alloc: Global,
    gate: &G,
    job: Job,
    round: Round<'_>,
) -> Result<Done, Fault>
    requires some { 0 < round.workers }
    requires numbered { round.first + length round.rows.now ≤ 2 ^ 64 }
    ensures result { IsResult round.entry.workers round.entry.first round.entry.rows.now job result }
    ensures asked { IfOk result (λ done. 0 < length done.decisions.items →
        event_count done.checker.list ≡ event_count job.notice.list) }
{
    let Job {
        worker,
        mut checker,
        notice,
    } = job;
    let count = notice.len();
    let file = notice.file();
    checker.learn(notice);
    let mut decisions = Vec::new(alloc);
    let mut place = usize::from(worker);
    while place < round.rows.len() {
        let number = round.first + place as u64;
        let decision = match ask(&mut checker, count, &file, &round.rows[place]) {
            Ok(decision) => decision,
            Err(moved) => return Err(moved_on(moved)),
        };
        decisions.push((number, decision))?;
        gate.pass(worker, number);
        place += usize::from(round.workers);
    }
    Ok(Done { checker, decisions })
}
