//! The input of a worker for one round, and its result.

ghost use Rattle.std.specs.Prelude.{◌≡◌};

use pmp_core::Decision;
use pmp_share::{Checker, Notice};
use pmp_text::TraceRow;

/// The rows of a round, the number of the first one in the report, and the number of workers that take turns.
#[derive(Clone, Copy)]
pub(crate) struct Round<'r> {
    pub rows: &'r [TraceRow],
    pub first: u64,
    pub workers: u8,
}

/// A worker's checker, and a notice of what is published.
#[derive(Drop)]
pub(crate) struct Job {
    /// The worker's number, from 0.
    pub worker: u8,
    pub checker: Checker,
    pub notice: Notice,
    pub ghost same_unit: { notice.unit ≡ checker.unit },
}

/// The returned checker, and the decisions on the worker's rows, in order, each after the row's number in the report.
#[derive(Drop)]
pub(crate) struct Done {
    pub checker: Checker,
    pub decisions: Vec<(u64, Decision)>,
}
