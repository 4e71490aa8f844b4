//! Whether a register file meets the rows of a plan, row by row, as text.

ghost use Rattle.std.specs.Prelude.{◌≡◌, ◌⊎◌, ◌++◌, Err, IfErr, List, OnErr, OnOk, Some, ℕ};
ghost use Rattle.pmp_text.specs.Outcomes.{no_memory};
ghost use Rattle.pmp_plan.specs.Verdicts.{owner_text};
ghost use Rattle.pmp_plan.specs.PlanTexts.{plan_said};
ghost use Rattle.pmp_plan.specs.Verdicts.{AreJudged, IsRestVerdict, VerdictsSay, verdict_line};

use crate::letters::{Letters, yes_no};
use crate::plan_row::PlanRow;
use crate::reading::read_plan_to;
use crate::row_list::RowList;
use crate::security::Security;
use crate::unmet::{Unmet, first_unmet, first_unmet_rest};
use pmp_core::{RegFile, Registers};
use pmp_text::{Fault, NoMemory, Sink, append_line};
use std::fmt;

/// The number of an entry, or a dash for none.
#[derive(Clone, Copy)]
struct Owner(Option<u8>);

impl fmt::Display for Owner {
    ghost output = { λ owner. Some (owner_text owner.0) };

    fn fmt<W: fmt::Write>(&self, f: &mut fmt::Formatter<W>) -> fmt::Result {
        match self.0 {
            Some(entry) => write!(f, "{entry}"),
            None => write!(f, "-"),
        }
    }
}

/// Appends the line of a verdict.
fn append_verdict<S: Sink>(out: &mut S, number: u64, unmet: Option<Unmet>) -> Result<(), NoMemory>
    ensures { OnOk result (S.text out.new ≡ S.text out.old ++ verdict_line number unmet) }
{
    let Some(unmet) = unmet else {
        return append_line(out, format_args!("{number},met,,,,,\n"));
    };
    let (byte, owner) = (unmet.byte, Owner(unmet.owner));
    let machine = Letters(unmet.rights.machine);
    let others = Letters(unmet.rights.others);
    let held = yes_no(unmet.is_held);
    append_line(
        out,
        format_args!("{number},unmet,0x{byte:x},{owner},{machine},{others},{held}\n"),
    )
}

/// Appends a line for each row.
fn append_rows<S: Sink>(
    out: &mut S,
    registers: &Registers<'_>,
    rows: &[PlanRow<'_>],
) -> Result<(), NoMemory>
    ensures { OnOk result ((text : List ℕ) × AreJudged registers.now rows.now text
        × (S.text out.new ≡ S.text out.old ++ text)) }
{
    for (index, row) in rows.iter().enumerate() {
        let number = index as u64 + 1;
        let unmet = first_unmet(registers, row.first, row.last, row.demand);
        append_verdict(out, number, unmet)?;
    }
    Ok(())
}

/// Returns the first byte of no row that isn't left as without entries.
fn rest_verdict(file: &RegFile, rows: &[PlanRow<'_>]) -> Option<Unmet>
    ensures { IsRestVerdict file.now rows.now result }
{
    first_unmet_rest(&file.registers(), rows, Security::of(file).rest())
}

/// Appends a line for each row of a plan in a text, and with the number 0 one for the bytes of no row, which are to be
/// left as without entries: `NUMBER,met,,,,,`, or `NUMBER,unmet,BYTE,OWNER,MRIGHTS,SURIGHTS,HELD` with the first byte
/// that has other rights, or isn't held, and what it has.
pub fn append_verdicts<'a, L: RowList<'a>, S: Sink>(
    rows: &mut L,
    file: &RegFile,
    text: &'a [u8],
    out: &mut S,
) -> Result<(), Fault>
    ensures ok { OnOk result ((lines : List ℕ) × VerdictsSay file.now text.now lines
        × (S.text out.new ≡ S.text out.old ++ lines)) }
    ensures err { IfErr result (λ fault. (fault ≡ no_memory) ⊎ (plan_said text.now ≡ Err fault)) }
{
    read_plan_to(rows, text)?;
    append_rows(out, &file.registers(), rows.rows())?;
    let unmet = rest_verdict(file, rows.rows());
    append_verdict(out, 0, unmet)?;
    Ok(())
}
