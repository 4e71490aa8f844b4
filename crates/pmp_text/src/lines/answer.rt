//! The decision on an access as cells.

ghost use Rattle.std.specs.Prelude.{◌≡◌, ◌∷◌, [], OnErr, OnOk, map};
ghost use Rattle.pmp_text.specs.AnswerRows.{answer_cells, answer_row};
ghost use Rattle.pmp_text.specs.Cells.{Number, cell_value};
ghost use Rattle.pmp_text.specs.Reports.{answer_text, cause_text, entry_of};

use crate::lines::NoMemory;
use crate::lines::cell::Cell;
use crate::lines::row_kind::RowKind;
use crate::lines::row_sink::RowSink;
use pmp_core::{Access, Cause, Decision, fault_code};

fn answer_word(allowed: bool) -> &'static str
    ensures { result.now ≡ answer_text allowed }
{
    if allowed { "allow" } else { "fault" }
}

fn cause_word(cause: Cause) -> &'static str
    ensures { result.now ≡ cause_text cause }
{
    match cause {
        Cause::Rule(_) => "rule",
        Cause::Split(_) => "split",
        Cause::NoMatch => "none",
    }
}

/// Returns the deciding entry, if there is one.
pub fn deciding_entry(cause: Cause) -> Option<u8>
    ensures { result ≡ entry_of cause }
{
    match cause {
        Cause::Rule(entry) | Cause::Split(entry) => Some(entry),
        Cause::NoMatch => None,
    }
}

/// Returns whether it is allowed, the exception code if not, the cause, and the deciding entry, if any.
pub fn answer_cells<'a>(access: &Access, decision: &Decision) -> [Cell<&'a [u8]>; 4]
    ensures { map (cell_value (λ text. text.now)) result ≡ answer_cells access.now decision.now }
{
    let fault = fault_code(access, decision).map(u64::from);
    let entry = deciding_entry(decision.cause).map(u64::from);
    [
        Cell::Word(answer_word(decision.allowed)),
        Cell::number(fault),
        Cell::Word(cause_word(decision.cause)),
        Cell::number(entry),
    ]
}

/// Returns these cells after a number.
fn numbered_cells<'a>(number: u64, access: &Access, decision: &Decision) -> [Cell<&'a [u8]>; 5]
    ensures { map (cell_value (λ text. text.now)) result ≡ Number number ∷ answer_cells access.now decision.now }
{
    let [answer, fault, cause, entry] = answer_cells(access, decision);
    [Cell::Number(number), answer, fault, cause, entry]
}

/// Adds the row of a decision, with this number.
pub fn add_answer<R: RowSink>(
    out: &mut R,
    number: u64,
    access: &Access,
    decision: &Decision,
) -> Result<(), NoMemory>
    ensures ok { OnOk result (R.Adds (answer_row number access.now decision.now ∷ []) out.old out.new) }
    ensures err { OnErr result (R.Adds [] out.old out.new) }
{
    out.add(RowKind::Answer, &numbered_cells(number, access, decision))
}
