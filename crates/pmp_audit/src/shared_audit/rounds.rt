//! One round: the rows that ask for exactly what is published, decided by all workers.

ghost use Rattle.std.specs.Prelude.{◌≡◌, ◌+◌, ◌^◌, ◌<◌, ◌≤◌, ◌++◌, IfOk, IfErr, OnOk, All, Any, length, drop};
ghost use Rattle.pmp_share.specs.declared.fault.ShareFault.TheVariants.{Full};
ghost use Rattle.pmp_share.specs.declared.opening.TheConstants.{CHECKERS};
ghost use Rattle.pmp_share.specs.Batches.{file_from};
ghost use Rattle.pmp_audit.specs.Rounds.{AreCheckersOf, AreJobs, asking};
ghost use Rattle.pmp_audit.specs.Working.{StopsRound, decided_in};

use super::Crew;
use super::asking::asking;
use super::job::Job;
use super::merging::{all_done, checkers_of, merge};
use super::running::run_jobs;
use crate::fault::fault_of_share;
use crate::gate::Gate;
use pmp_core::Decision;
use pmp_share::{Checker, Publisher, ShareFault};
use pmp_text::{Fault, TraceRow};
use std::alloc::Global;
use std::mem;
use std::sync::Wait;
use std::thread::Threads;

/// A unit that workers share, and the decisions made so far.
pub(crate) struct SharedUnit {
    pub publisher: Publisher,
    pub checkers: Vec<Checker>,
    pub decided: Vec<Decision>,
}

/// Returns a job for each checker, with a notice of what is published. The workers are numbered in the checkers' order.
fn jobs_of(
    alloc: Global,
    publisher: &mut Publisher,
    checkers: Vec<Checker>,
) -> Result<Vec<Job>, ShareFault>
    requires few { length checkers.items ≤ CHECKERS }
    requires same_unit { All (λ checker. checker.unit ≡ publisher.old.unit) checkers.items }
    ensures same { publisher.new ≡ publisher.old }
    ensures jobs { IfOk result (λ jobs. AreJobs publisher.old (length checkers.items) jobs.items) }
    ensures refused { IfErr result (λ fault. ¬ (fault ≡ Full)) }
{
    let mut jobs = Vec::new(alloc);
    for checker in checkers {
        let worker = jobs.len() as u8;
        let notice = publisher.tell()?;
        jobs.push(Job {
            worker,
            checker,
            notice,
        })?;
    }
    Ok(jobs)
}

/// Has all workers decide these rows in what is published, and adds the decisions in the order of the rows. All workers
/// have then ended.
fn round<R: Threads + Wait + Sync, G: Gate + Sync>(
    crew: &Crew<'_, '_, R, G>,
    unit: &mut SharedUnit,
    rows: &[TraceRow],
) -> Result<(), Fault>
    requires some { 0 < length unit.old.checkers.items }
    requires few { length unit.old.checkers.items ≤ CHECKERS }
    requires same_unit { All (λ checker. checker.unit ≡ unit.old.publisher.unit) unit.old.checkers.items }
    requires room { length unit.old.decided.items + length rows.now + 1 ≤ 2 ^ 64 }
    ensures same { unit.new.publisher ≡ unit.old.publisher }
    ensures ok { OnOk result
        (AreCheckersOf unit.old.publisher.unit (length unit.old.checkers.items) unit.new.checkers.items
        × (unit.new.decided.items ≡ unit.old.decided.items
        ++ decided_in (file_from unit.old.publisher.unit.base unit.old.publisher.published) rows.now)) }
    ensures err { IfErr result (StopsRound unit.old.publisher.published) }
{
    let first = unit.decided.len() as u64 + 1;
    let checkers = mem::replace(&mut unit.checkers, Vec::new(crew.alloc));
    let jobs = match jobs_of(crew.alloc, &mut unit.publisher, checkers) {
        Ok(jobs) => jobs,
        Err(fault) => return Err(fault_of_share(fault)),
    };
    let results = run_jobs(crew, jobs, rows, first)?;
    let all = all_done(crew.alloc, results)?;
    merge(&mut unit.decided, &all, rows.len())?;
    unit.checkers = checkers_of(crew.alloc, all)?;
    Ok(())
}

/// Decides the next rows, as far as they ask for exactly `after` publications, which are done, with no more workers
/// than such rows: a checker without a row gets no job, and without rows no worker is started.
pub(crate) fn decide_asking<R: Threads + Wait + Sync, G: Gate + Sync>(
    crew: &Crew<'_, '_, R, G>,
    unit: &mut SharedUnit,
    after: u64,
    rows: &[TraceRow],
) -> Result<(), Fault>
    requires some { 0 < length unit.old.checkers.items }
    requires few { length unit.old.checkers.items ≤ CHECKERS }
    requires same_unit { All (λ checker. checker.unit ≡ unit.old.publisher.unit) unit.old.checkers.items }
    requires within { length unit.old.decided.items ≤ length rows.now }
    ensures same { unit.new.publisher ≡ unit.old.publisher }
    ensures ok { OnOk result
        (AreCheckersOf unit.old.publisher.unit (length unit.old.checkers.items) unit.new.checkers.items
        × (unit.new.decided.items ≡ unit.old.decided.items
        ++ decided_in (file_from unit.old.publisher.unit.base unit.old.publisher.published)
        (asking after (drop (length unit.old.decided.items) rows.now)))) }
    ensures err { IfErr result (λ fault. StopsRound unit.old.publisher.published fault
        × Any (λ row. row.after ≡ after) rows.now) }
{
    let next = asking(&rows[unit.decided.len()..], after);
    if next.is_empty() {
        return Ok(());
    }
    let busy = next.len().min(unit.checkers.len());
    let mut idle = unit.checkers.split_off(busy)?;
    round(crew, unit, next)?;
    unit.checkers.append(&mut idle)?;
    Ok(())
}
