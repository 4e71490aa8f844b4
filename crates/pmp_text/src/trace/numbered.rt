//! Traces whose rows ask for numbers of publications.

ghost use Rattle.std.specs.Prelude.{◌≡◌, IfErr, IfOk, map};
ghost use Rattle.pmp_text.specs.NumberedTraces.{AreRowsOf, IsFaultOf, numbered_row, refusal_of_trace, row_of_fault};
ghost use Rattle.pmp_text.specs.NumberedTraces.{trace_kind};
ghost use Rattle.pmp_text.specs.Outcomes.{no_memory};

use crate::fault::Fault;
use crate::moments::Moments;
use crate::refusal::Refusal;
use crate::trace::TraceRow;
use crate::trace::reader::read_trace_by;
use pmp_core::Access;
use std::alloc::{AllocError, Global};

/// Why a trace is refused. [`Refusal`] says what each means.
#[derive(Clone, Copy, Debug, PartialEq, Eq)]
pub enum TraceKind {
    BadHeader,
    BadRow,
    BadAfter,
    Order,
    BadLength,
    PastEnd,
    TooLong,
    Memory,
    Input,
}

/// What is wrong with a trace, and in which row.
#[derive(Clone, Copy, Debug, PartialEq, Eq)]
pub struct TraceFault {
    pub kind: TraceKind,
    /// The row, counted from 1 after the header, or 0 if the fault is of no row: `BadHeader`, `TooLong`, `Memory` and
    /// `Input`.
    pub row: u64,
}

/// An access, and how many publications of the script are done before it.
#[derive(Clone, Copy, PartialEq, Eq)]
pub struct Row {
    pub after: u64,
    pub access: Access,
}

impl From<TraceKind> for Refusal {
    ghost from_gives = { λ kind refusal. refusal ≡ refusal_of_trace kind };

    fn from(kind: TraceKind) -> Refusal {
        match kind {
            TraceKind::BadHeader => Refusal::BadHeader,
            TraceKind::BadRow => Refusal::BadRow,
            TraceKind::BadAfter => Refusal::BadAfter,
            TraceKind::Order => Refusal::Order,
            TraceKind::BadLength => Refusal::BadLength,
            TraceKind::PastEnd => Refusal::PastEnd,
            TraceKind::TooLong => Refusal::TooLong,
            TraceKind::Memory => Refusal::Memory,
            TraceKind::Input => Refusal::Input,
        }
    }
}

impl TraceKind {
    /// Returns the kind with the refusal's name, and `BadRow` for a moment that a row names.
    fn of(refusal: Refusal) -> TraceKind
        ensures { result ≡ trace_kind refusal }
    {
        match refusal {
            Refusal::BadHeader => TraceKind::BadHeader,
            Refusal::BadAfter => TraceKind::BadAfter,
            Refusal::Order => TraceKind::Order,
            Refusal::BadLength => TraceKind::BadLength,
            Refusal::PastEnd => TraceKind::PastEnd,
            Refusal::TooLong => TraceKind::TooLong,
            Refusal::Memory => TraceKind::Memory,
            Refusal::Input => TraceKind::Input,
            _ => TraceKind::BadRow,
        }
    }
}

impl From<Fault> for TraceFault {
    ghost from_gives = { λ fault simple. simple ≡ row_of_fault fault };

    fn from(fault: Fault) -> TraceFault {
        TraceFault {
            kind: TraceKind::of(fault.refusal),
            row: fault.place.number(),
        }
    }
}

impl From<AllocError> for TraceFault {
    ghost from_gives = { λ _ fault. fault ≡ row_of_fault no_memory };

    fn from(_: AllocError) -> TraceFault {
        TraceFault {
            kind: TraceKind::Memory,
            row: 0,
        }
    }
}

/// Returns the rows without how their starts are written.
fn numbered_rows(alloc: Global, all: &[TraceRow]) -> Result<Vec<Row>, AllocError>
    ensures { IfOk result (λ rows. rows.items ≡ map numbered_row all.now) }
{
    let mut rows = Vec::new(alloc);
    for row in all {
        rows.push(Row {
            after: row.after,
            access: row.access,
        })?;
    }
    Ok(rows)
}

/// Returns the rows of the trace that a text describes, for a script with so many publications, else its first fault.
/// A row can't ask for a moment by a name: [`read_trace_by`](crate::read_trace_by) knows those of a script.
///
/// The rows take memory; if there is none, `Memory` is returned instead of any later fault.
pub fn read_trace(alloc: Global, text: &[u8], publications: u64) -> Result<Vec<Row>, TraceFault>
    ensures rows { IfOk result (λ rows. AreRowsOf publications text.now rows.items) }
    ensures fault { IfErr result (IsFaultOf publications text.now) }
{
    let moments = Moments {
        publications,
        marks: None,
        lasting: None,
    };
    let all = read_trace_by(alloc, text, &moments)?;
    Ok(numbered_rows(alloc, &all)?)
}
