//! The row that says why an access is decided as it is.

ghost use Rattle.std.specs.Prelude.{◌≡◌, ◌++◌, ◌∷◌, [], None, OnErr, OnOk, Some, map};
ghost use Rattle.pmp_text.specs.AnswerRows.{answer_cells};
ghost use Rattle.pmp_text.specs.Cells.{Number, cell_value};
ghost use Rattle.pmp_lint.specs.WhyRows.{bit_text, bits_text, decider_cells, decider_cells_if, held_text, table_text};
ghost use Rattle.pmp_lint.specs.WhyRows.{why_row};

use crate::because::Because;
use crate::decider::{Decider, RuleBits};
use crate::finding::end_cells;
use pmp_core::Access;
use pmp_text::{Cell, NoMemory, RowKind, RowSink, answer_cells, lock_word, matching_word, text_of};
use std::fmt;

/// The greatest length of a rule's bits as text.
const BITS: usize = 8;

fn table_word(is_lockdown: bool) -> &'static str
    ensures { result.now ≡ table_text is_lockdown }
{
    if is_lockdown { "smepmp" } else { "plain" }
}

fn held_word(is_held: bool) -> &'static str
    ensures { result.now ≡ held_text is_held }
{
    if is_held { "held" } else { "-" }
}

fn bit_word(bit: bool) -> &'static str
    ensures { result.now ≡ bit_text bit }
{
    if bit { "1" } else { "0" }
}

impl fmt::Display for RuleBits {
    ghost output = { λ bits. Some (bits_text bits) };

    fn fmt<W: fmt::Write>(&self, f: &mut fmt::Formatter<W>) -> fmt::Result {
        let locked = bit_word(self.locked);
        let read = bit_word(self.read);
        let write = bit_word(self.write);
        let execute = bit_word(self.execute);
        write!(f, "{locked}{read}{write}{execute}")
    }
}

/// Returns the cells of a row where an entry decides, with its bits as a text.
fn decided_cells<'a>(
    access: &Access,
    why: &Because,
    decider: &Decider,
    bits: &'a [u8],
) -> [Cell<&'a [u8]>; 15]
    ensures { bits.now ≡ bits_text decider.now.bits → map (cell_value (λ text. text.now)) result
        ≡ Number why.now.since ∷ answer_cells access.now why.now.decision ++ decider_cells decider.now }
{
    let [allowed, fault, cause, entry] = answer_cells(access, &why.decision);
    let (first, last) = end_cells(decider.bytes);
    [
        Cell::Number(why.since),
        allowed,
        fault,
        cause,
        entry,
        Cell::Word(matching_word(decider.matching)),
        first,
        last,
        Cell::Plain(bits),
        Cell::Word(table_word(decider.is_lockdown)),
        Cell::Word(lock_word(decider.lock)),
        Cell::Word(held_word(decider.is_held)),
        Cell::Number(decider.configured),
        Cell::Number(decider.addressed),
        Cell::number(decider.low_end),
    ]
}

/// Returns those of a row where none does.
fn undecided_cells<'a>(access: &Access, why: &Because) -> [Cell<&'a [u8]>; 15]
    ensures { map (cell_value (λ text. text.now)) result
        ≡ Number why.now.since ∷ answer_cells access.now why.now.decision ++ decider_cells_if None }
{
    let [allowed, fault, cause, entry] = answer_cells(access, &why.decision);
    [
        Cell::Number(why.since),
        allowed,
        fault,
        cause,
        entry,
        Cell::Nothing,
        Cell::Nothing,
        Cell::Nothing,
        Cell::Nothing,
        Cell::Nothing,
        Cell::Nothing,
        Cell::Nothing,
        Cell::Nothing,
        Cell::Nothing,
        Cell::Nothing,
    ]
}

/// Adds a row that says why the access is decided as it is: the first moment from which it is decided so, the decision,
/// and of the entry that decides, if one does, how it matches, its bytes, its L, R, W and X, which table these are read
/// by (`smepmp` if MML is set, and otherwise `plain`), its lock, whether it is `held` (all entries before it are frozen
/// too), and the lines that last changed its configuration, its address register, and, if that is the low end of its
/// range, the address register before it, 0 if none did.
pub fn add_why<R: RowSink>(out: &mut R, access: &Access, why: &Because) -> Result<(), NoMemory>
    ensures ok { OnOk result (R.Adds (why_row access.now why.now ∷ []) out.old out.new) }
    ensures err { OnErr result (R.Adds [] out.old out.new) }
{
    match why.decider {
        Some(decider) => {
            let bits = text_of::<BITS, _>(decider.bits)?;
            let cells = decided_cells(access, why, &decider, bits.as_str().as_bytes());
            out.add(RowKind::Reason, &cells)
        }
        None => out.add(RowKind::Reason, &undecided_cells(access, why)),
    }
}
