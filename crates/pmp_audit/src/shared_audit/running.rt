//! The jobs of one round, run on threads, or in turn if they are small.

ghost use Rattle.std.specs.Prelude.{◌+◌, ◌^◌, ◌<◌, ◌≤◌, IfOk, length};
ghost use Rattle.pmp_share.specs.declared.opening.TheConstants.{CHECKERS};
ghost use Rattle.pmp_audit.specs.Rounds.{AreResults, IsResult};

use super::Crew;
use super::job::{Done, Job, Round};
use super::working::work;
use crate::gate::Gate;
use pmp_text::{Fault, TraceRow};
use std::alloc::AllocError;
use std::thread;
use std::thread::Threads;

/// The number of rows that a worker decides in about the time that a thread takes to start.
const FEW: usize = 512;

/// Runs the jobs of all workers: each on a thread of its own, or in turn if these have few rows and don't wait for one
/// another. All have then ended.
pub(crate) fn run_jobs<R: Threads + Sync, G: Gate + Sync>(
    crew: &Crew<'_, '_, R, G>,
    jobs: Vec<Job>,
    rows: &[TraceRow],
    first: u64,
) -> Result<Vec<Result<Done, Fault>>, AllocError>
    requires some { 0 < length jobs.items }
    requires few { length jobs.items ≤ CHECKERS }
    requires numbered { first + length rows.now ≤ 2 ^ 64 }
    ensures { IfOk result (λ results. AreResults (length jobs.items) first rows.now jobs.items results.items) }
{
    let alloc = crew.alloc;
    let gate = crew.gate;
    let round = Round {
        rows,
        first,
        workers: jobs.len() as u8,
    };
    if gate.may_wait() || rows.len() / jobs.len() >= FEW {
        return thread::map_vec(
            crew.rt,
            jobs,
            &|job: Job| -> Result<Done, Fault>
                requires { (0 < round.workers) × (round.first + length round.rows.now ≤ 2 ^ 64) }
                ensures { IsResult round.entry.workers round.entry.first round.entry.rows.now job result }
            { work(alloc, gate, job, round) },
        );
    }
    let mut results = Vec::new(alloc);
    for job in jobs {
        results.push(work(alloc, gate, job, round))?;
    }
    Ok(results)
}
