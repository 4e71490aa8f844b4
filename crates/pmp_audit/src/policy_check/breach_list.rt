//! Each breach of a policy's row, told in the state in which it begins.

ghost use Rattle.std.specs.Prelude.{◌≡◌, ◌++◌, ◌<◌, ◌≤◌, [], IfOk, IfSome, OnOk, length};
ghost use Rattle.pmp_audit.specs.PolicyBreaches.{AreBreachesOf, AreFound, AreHits, begun, has_bytes, hit_of};

use crate::policy_check::question::Question;
use crate::policy_check::steps::Steps;
use pmp_core::{RegFile, Registers};
use pmp_map::{Run, RunMap};
use pmp_text::{Breach, Demand, PolicyRow};
use std::alloc::{AllocError, Global};

/// Returns the part of a run that lies in the row's range, if the answer for its bytes is yes.
fn hit_of(question: Question, registers: &Registers<'_>, row: &PolicyRow, run: &Run) -> Option<Run>
    requires { IfSome run.now.owner (λ entry. entry < length registers.now.entries) }
    ensures { result ≡ hit_of question registers.now row.now run.now }
{
    let first = run.first.max(row.first);
    let last = run.last.min(row.last);
    if first <= last && question.is_yes(registers, run.owner, row) {
        Some(Run {
            first,
            last,
            owner: run.owner,
        })
    } else {
        None
    }
}

/// Returns these parts of all runs.
fn hits_of(
    alloc: Global,
    question: Question,
    file: &RegFile,
    row: &PolicyRow,
) -> Result<Vec<Run>, AllocError>
    ensures { IfOk result (λ hits. AreHits question file.now row.now hits.items) }
{
    let map = RunMap::build(file);
    let registers = file.registers();
    let mut hits = Vec::new(alloc);
    for run in map.runs() {
        if let Some(hit) = hit_of(question, &registers, row, run) {
            hits.push(hit)?;
        }
    }
    Ok(hits)
}

/// Whether one of the runs has the same bytes.
fn has_bytes(runs: &[Run], run: &Run) -> bool
    ensures { result ≡ has_bytes runs.now run.now }
{
    runs.iter()
        .any(|one| one.first == run.first && one.last == run.last)
}

/// Adds the runs whose bytes none of the state before has.
fn add_begun(
    all: &mut Vec<Breach>,
    done: u64,
    before: &[Run],
    now: &[Run],
) -> Result<(), AllocError>
    ensures { OnOk result (all.new.items ≡ all.old.items ++ begun done before.now now.now) }
{
    for run in now {
        if !has_bytes(before, run) {
            all.push(Breach { done, run: *run })?;
        }
    }
    Ok(())
}

/// Returns the row's breaches by bytes that are open, or closed, in time and then in address.
fn found_of(alloc: Global, steps: &Steps<'_>, row: &PolicyRow) -> Result<Vec<Breach>, AllocError>
    requires { row.now.to ≤ length steps.now.script.now.batches }
    ensures { IfOk result (λ all. AreFound steps.now.pace steps.now.script.now row.now all.items) }
{
    let to = steps.count(row.to);
    let mut state = steps.state_at(steps.count(row.from));
    let mut all = Vec::new(alloc);
    let mut before = hits_of(alloc, Question::IsBroken, &state.file, row)?;
    add_begun(&mut all, state.done, &[], &before)?;
    while state.done < to {
        steps.advance(&mut state);
        let now = hits_of(alloc, Question::IsBroken, &state.file, row)?;
        add_begun(&mut all, state.done, &before, &now)?;
        before = now;
    }
    Ok(all)
}

/// Returns the row's breaches, in time and then in address: of `held`, if there are none by open bytes, those by locks.
pub fn breaches_of(
    alloc: Global,
    steps: &Steps<'_>,
    row: &PolicyRow,
) -> Result<Vec<Breach>, AllocError>
    requires { row.now.to ≤ length steps.now.script.now.batches }
    ensures { IfOk result (λ all. AreBreachesOf steps.now.pace steps.now.script.now row.now all.items) }
{
    let mut all = found_of(alloc, steps, row)?;
    if row.demand == Demand::Held && all.is_empty() {
        let to = steps.count(row.to);
        let last = steps.state_at(to);
        let loose = hits_of(alloc, Question::IsNotHeld, &last.file, row)?;
        add_begun(&mut all, to, &[], &loose)?;
    }
    Ok(all)
}
