//! All rows of a trace, decided while the script's publications are executed.

ghost use Rattle.std.specs.Prelude.{◌≡◌, ◌<◌, ◌≤◌, [], ◌∷◌, ◌++◌, true, IfOk, IfErr, OnOk, All, length, map};
ghost use Rattle.pmp_core.specs.declared.event.TheConstants.{BATCH_EVENTS};
ghost use Rattle.pmp_text.specs.Outcomes.{no_memory};
ghost use Rattle.pmp_share.specs.declared.opening.TheConstants.{CHECKERS};
ghost use Rattle.pmp_share.specs.Object.{no_batches};
ghost use Rattle.pmp_share.specs.Room.{has_room};
ghost use Rattle.pmp_text.specs.Sizes.{IsInLimits};
ghost use Rattle.pmp_text.specs.TraceFaults.{IsInOrder, afters};
ghost use Rattle.pmp_text.specs.Traces.{row_fields};
ghost use Rattle.pmp_audit.specs.Rounds.{decision_for};
ghost use Rattle.pmp_audit.specs.SharedAudit.{MayStop};

use super::Crew;
use super::rounds::{SharedUnit, decide_asking};
use crate::fault::fault_of_share;
use crate::gate::Gate;
use pmp_core::{Decision, Event};
use pmp_share::{Batch, Publisher, start_from};
use pmp_text::{Fault, ReadScript, TraceRow};
use std::sync::Wait;
use std::thread::Threads;

/// Publishes these events as one batch. It may wait.
fn publish<R: Wait>(rt: &R, publisher: &mut Publisher, events: &[Event]) -> Result<(), Fault>
    requires limit { length events.now ≤ BATCH_EVENTS }
    requires alone { publisher.old.pending ≡ [] }
    requires room { has_room publisher.old.published [] events.now ≡ true }
    ensures unit { publisher.new.unit ≡ publisher.old.unit }
    ensures published { OnOk result (publisher.new.published ≡ publisher.old.published ++ events.now ∷ []) }
    ensures alone { OnOk result (publisher.new.pending ≡ []) }
    ensures refused { IfErr result (λ fault. fault ≡ no_memory) }
{
    let batch = Batch::of(events).unwrap();
    if let Err(fault) = publisher.submit(&batch) {
        return Err(fault_of_share(fault));
    }
    match publisher.publish(rt) {
        Ok(_) => Ok(()),
        Err(fault) => Err(fault_of_share(fault)),
    }
}

/// Decides the rows, each after the publications that it asks for, with a new unit.
fn decide_rows<R: Threads + Wait + Sync, G: Gate + Sync>(
    crew: &Crew<'_, '_, R, G>,
    unit: &mut SharedUnit,
    script: &ReadScript,
    rows: &[TraceRow],
) -> Result<(), Fault>
    requires some { 0 < length unit.old.checkers.items }
    requires few { length unit.old.checkers.items ≤ CHECKERS }
    requires same_unit { All (λ checker. checker.unit ≡ unit.old.publisher.unit) unit.old.checkers.items }
    requires base { unit.old.publisher.unit.base ≡ script.now.start }
    requires published { unit.old.publisher.published ≡ no_batches }
    requires pending { unit.old.publisher.pending ≡ [] }
    requires size { IsInLimits script.now.batches }
    requires order { IsInOrder (length script.now.batches) 0 (afters (map row_fields rows.now)) }
    ensures decided { OnOk result (unit.new.decided.items ≡ map (decision_for script.now) rows.now) }
    ensures refused { IfErr result (MayStop script.now.batches (map row_fields rows.now)) }
{
    unit.decided.clear();
    decide_asking(crew, unit, 0, rows)?;
    for index in 0..script.batches() {
        publish(crew.rt, &mut unit.publisher, script.batch(index))?;
        decide_asking(crew, unit, index + 1, rows)?;
    }
    Ok(())
}

/// Decides the rows with workers that share a unit, which has ended when the call returns.
pub(crate) fn decide_shared<R: Threads + Wait + Sync, G: Gate + Sync>(
    crew: &Crew<'_, '_, R, G>,
    script: &ReadScript,
    rows: &[TraceRow],
) -> Result<Vec<Decision>, Fault>
    requires workers { (1 ≤ crew.now.workers) × (crew.now.workers ≤ CHECKERS) }
    requires size { IsInLimits script.now.batches }
    requires order { IsInOrder (length script.now.batches) 0 (afters (map row_fields rows.now)) }
    ensures decided { IfOk result (λ decided. decided.items ≡ map (decision_for script.now) rows.now) }
    ensures refused { IfErr result (MayStop script.now.batches (map row_fields rows.now)) }
{
    let start = script.start().save();
    let (publisher, checkers) = match start_from(crew.rt, crew.alloc, &start, crew.workers) {
        Ok(started) => started,
        Err(fault) => return Err(fault_of_share(fault)),
    };
    let mut unit = SharedUnit {
        publisher,
        checkers,
        decided: Vec::new(crew.alloc),
    };
    let made = decide_rows(crew, &mut unit, script, rows);
    let SharedUnit {
        publisher,
        checkers: _checkers,
        decided,
    } = unit;
    publisher.end(crew.rt);
    made?;
    Ok(decided)
}
