//! The rows of a plan in a text.

ghost use Rattle.std.specs.Prelude.{◌≡◌, ◌⊎◌, ◌++◌, ◌∷◌, [], Err, IfErr, IfOk, Ok, OnOk, map};
ghost use Rattle.pmp_text.specs.Lines.{lines};
ghost use Rattle.pmp_text.specs.Outcomes.{no_memory};
ghost use Rattle.pmp_plan.specs.PlanTexts.{plan_said, rows_from};
ghost use Rattle.pmp_plan.specs.KeptRows.{AddsRow, IsFaultOf, said};

use crate::plan_row::PlanRow;
use crate::row_list::RowList;
use pmp_text::{Fault, Refusal, Source, split_first_line};
use std::alloc::Global;

/// The first line of a plan.
pub const HEADER: &[u8] = b"first,last,m,su,locked,name";

/// Returns the rows in a text: the line `first,last,m,su,locked,name`, and a line with these six fields for each row,
/// such as `0x80000000,0x8001ffff,r-x,---,yes,firmware`.
///
/// `BadHeader` if the first line differs; `BadRow` if a row is invalid, with its invalid field if it has six: a number,
/// a number that isn't less, rights such as `rw-`, rights, `yes` or `no`, or a name; `PastEnd` if its last byte doesn't
/// exist; `Memory`, at row 0.
pub fn read_plan<'a>(alloc: Global, text: &'a [u8]) -> Result<Vec<PlanRow<'a>>, Fault>
    ensures ok { IfOk result (λ rows. plan_said text.now ≡ Ok (map said rows.items)) }
    ensures err { IfErr result (λ fault. (fault ≡ no_memory) ⊎ (plan_said text.now ≡ Err fault)) }
{
    let mut rows = Vec::new(alloc);
    read_plan_to(&mut rows, text)?;
    Ok(rows)
}

/// Puts the rows in a text into a list, in the place of those that it has.
pub fn read_plan_to<'a, L: RowList<'a>>(rows: &mut L, text: &'a [u8]) -> Result<(), Fault>
    ensures ok { OnOk result (plan_said text.now ≡ Ok (map said (L.kept rows.new))) }
    ensures err { IfErr result (λ fault. (fault ≡ no_memory) ⊎ (plan_said text.now ≡ Err fault)) }
{
    match split_first_line(text) {
        Some((header, behind)) if header == HEADER => read_rows(rows, behind),
        _ => Err(Refusal::BadHeader.whole().at_row(Source::Plan, 0)),
    }
}

fn read_rows<'a, L: RowList<'a>>(rows: &mut L, text: &'a [u8]) -> Result<(), Fault>
    ensures ok { OnOk result (rows_from 1 (lines text.now) ≡ Ok (map said (L.kept rows.new))) }
    ensures err { IfErr result (λ fault. (fault ≡ no_memory) ⊎ (rows_from 1 (lines text.now) ≡ Err fault)) }
{
    rows.clear();
    let mut number = 1u64;
    let mut rest = text;
    while let Some((line, behind)) = split_first_line(rest) {
        add(rows, line, number)?;
        number = number.saturating_add(1);
        rest = behind;
    }
    Ok(())
}

fn add<'a, L: RowList<'a>>(rows: &mut L, line: &'a [u8], number: u64) -> Result<(), Fault>
    ensures ok { OnOk result (AddsRow line.now (L.kept rows.old) (L.kept rows.new)) }
    ensures err { IfErr result (λ fault. (fault ≡ no_memory) ⊎ IsFaultOf line.now number fault) }
{
    match PlanRow::read(line) {
        Ok(row) => rows.push(row)?,
        Err(flaw) => return Err(flaw.at_row(Source::Plan, number)),
    }
    Ok(())
}
