//! The results of workers, merged.

ghost use Rattle.std.specs.Prelude.{◌≡◌, ◌+◌, ◌<◌, ◌++◌, ◌⊎◌, IfOk, IfErr, List, OnOk, Ok, Err, Contains, length, map};
ghost use Rattle.pmp_core.specs.declared.decision.Decision.{Decision};
ghost use Rattle.pmp_audit.specs.Rounds.{AreDealt};
ghost use Rattle.pmp_text.specs.Outcomes.{no_memory};

use super::job::Done;
use pmp_core::Decision;
use pmp_share::Checker;
use pmp_text::Fault;
use std::alloc::{AllocError, Global};

/// Returns the results of all workers, or why the first of those that stopped did.
pub(crate) fn all_done(alloc: Global, results: Vec<Result<Done, Fault>>) -> Result<Vec<Done>, Fault>
    ensures done { IfOk result (λ all. results.items ≡ map Ok all.items) }
    ensures refused { IfErr result (λ fault. Contains results.items (Err fault) ⊎ (fault ≡ no_memory)) }
{
    let mut all = Vec::new(alloc);
    for result in results {
        all.push(result?)?;
    }
    Ok(all)
}

pub(crate) fn checkers_of(alloc: Global, all: Vec<Done>) -> Result<Vec<Checker>, AllocError>
    ensures { IfOk result (λ checkers. checkers.items ≡ map (λ done. done.checker) all.items) }
{
    let mut checkers = Vec::new(alloc);
    for done in all {
        checkers.push(done.checker)?;
    }
    Ok(checkers)
}

/// Adds the decisions on the given number of rows of one round, in the order of the rows, whose numbers follow those
/// already there.
pub(crate) fn merge(
    decided: &mut Vec<Decision>,
    all: &[Done],
    count: usize,
) -> Result<(), AllocError>
    requires some { 0 < length all.now }
    requires dealt { (made : List Decision) × (length made ≡ count)
        × AreDealt (length decided.old.items + 1) made all.now }
    ensures { OnOk result ((made : List Decision) → length made ≡ count
        → AreDealt (length decided.old.items + 1) made all.now → decided.new.items ≡ decided.old.items ++ made) }
{
    for place in 0..count {
        let done = &all[place % all.len()];
        decided.push(done.decisions[place / all.len()].1)?;
    }
    Ok(())
}
