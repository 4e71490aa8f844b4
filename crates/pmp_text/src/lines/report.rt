//! The rows of a report: `NUMBER,ANSWER,FAULT,CAUSE,ENTRY` for each access.

ghost use Rattle.std.specs.Prelude.{◌≡◌, ◌+◌, ◌≤◌, ◌++◌, OnOk, OnErr, Some, codes, length};
ghost use Rattle.arrayvec.specs.ArrayVec.{array_vec_len};
ghost use Rattle.pmp_text.specs.Reports.{answer_text, cause_text, optional_text, report_row};

use crate::lines::NoMemory;
use crate::lines::answer::deciding_entry;
use crate::sink::Sink;
use arrayvec::ArrayVec;
use itoa::Buffer;
use pmp_core::{Access, Cause, Decision, fault_code};

/// The room for a row, which has at most 41 bytes.
const ROW: usize = 64;

/// Appends the row of an access with this number: `NUMBER,ANSWER,FAULT,CAUSE,ENTRY` and LF. FAULT, an exception code,
/// is empty if the access is allowed, and ENTRY if no entry matches.
pub fn write_row<S: Sink>(
    out: &mut S,
    n: u64,
    access: &Access,
    decision: &Decision,
) -> Result<(), NoMemory>
    ensures ok { OnOk result (S.text out.new ≡ S.text out.old ++ report_row n access.now decision.now) }
    ensures err { OnErr result (S.text out.new ≡ S.text out.old) }
{
    let row = row_of(n, access, decision);
    out.append(row.as_slice())
}

/// Returns the row by itself.
#[inline]
fn row_of(n: u64, access: &Access, decision: &Decision) -> ArrayVec<u8, ROW>
    ensures { result.items ≡ report_row n access.now decision.now }
{
    let mut row = ArrayVec::new();
    append_reserved(&mut row, Buffer::new().format(n).as_bytes());
    append_reserved(&mut row, answer_field(decision.allowed));
    append_number(&mut row, fault_code(access, decision));
    append_reserved(&mut row, cause_field(decision.cause));
    append_number(&mut row, deciding_entry(decision.cause));
    append_reserved(&mut row, b"\n");
    row
}

/// Appends a text that there is room for.
fn append_reserved(row: &mut ArrayVec<u8, ROW>, text: &[u8])
    requires { array_vec_len row.old + length text.now ≤ ROW }
    ensures text { row.new.items ≡ row.old.items ++ text.now }
    ensures len { array_vec_len row.new ≡ array_vec_len row.old + length text.now }
{
    let _ = row.try_extend_from_slice(text);
}

/// Appends a number that there is room for, or nothing.
fn append_number(row: &mut ArrayVec<u8, ROW>, number: Option<u8>)
    requires { array_vec_len row.old + 3 ≤ ROW }
    ensures text { row.new.items ≡ row.old.items ++ optional_text number }
    ensures len { array_vec_len row.new ≤ array_vec_len row.old + 3 }
{
    if let Some(number) = number {
        append_reserved(row, Buffer::new().format(number).as_bytes());
    }
}

/// Returns the answer, between commas.
fn answer_field(allowed: bool) -> &'static [u8]
    ensures text { result.now ≡ codes "," ++ (answer_text allowed ++ codes ",") }
    ensures short { length result.now ≤ 7 }
{
    if allowed { b",allow," } else { b",fault," }
}

/// Returns the cause, between commas.
fn cause_field(cause: Cause) -> &'static [u8]
    ensures text { result.now ≡ codes "," ++ (cause_text cause ++ codes ",") }
    ensures short { length result.now ≤ 7 }
{
    match cause {
        Cause::Rule(_) => b",rule,",
        Cause::Split(_) => b",split,",
        Cause::NoMatch => b",none,",
    }
}
