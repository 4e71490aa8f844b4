//! The entries of a register file as rows.

ghost use Rattle.std.specs.Prelude.{◌≡◌, ◌<◌, ◌≤◌, ◌∷◌, [], List, length, OnOk, OnErr};
ghost use Rattle.pmp_core.specs.Span.{IsSpan, span_of};
ghost use Rattle.pmp_text.specs.Cells.{RowValue, cell_value};
ghost use Rattle.pmp_text.specs.EntryRows.{AreEntryRows, address_text, entry_row, first_value, last_value};
ghost use Rattle.pmp_text.specs.EntryRows.{lock_text, matching_text};

use crate::lines::NoMemory;
use crate::lines::cell::Cell;
use crate::lines::row_kind::RowKind;
use crate::lines::row_sink::RowSink;
use crate::lines::since::Since;
use pmp_core::{AddressMatching, Lock, RegFile, Registers, Span};
use pmp_map::ModeRights;

/// Returns the first and the last byte that an entry matches, or two dashes.
pub fn end_cells<'a>(span: Option<Span>) -> (Cell<&'a [u8]>, Cell<&'a [u8]>)
    ensures first { cell_value (λ text. text.now) result.0 ≡ first_value span }
    ensures last { cell_value (λ text. text.now) result.1 ≡ last_value span }
{
    match span {
        Some(span) => (Cell::Address(span.first), Cell::Address(span.last)),
        None => (Cell::Word("-"), Cell::Word("-")),
    }
}

/// Returns the word for how an entry is locked.
pub fn lock_word(lock: Lock) -> &'static str
    ensures { result.now ≡ lock_text lock }
{
    match lock {
        Lock::Open => "-",
        Lock::Bypassed => "bypassed",
        Lock::Frozen => "frozen",
    }
}

fn address_word(is_frozen: bool) -> &'static str
    ensures { result.now ≡ address_text is_frozen }
{
    if is_frozen { "frozen" } else { "-" }
}

/// Returns the word for how an address register is read.
pub fn matching_word(matching: AddressMatching) -> &'static str
    ensures { result.now ≡ matching_text matching }
{
    match matching {
        AddressMatching::Off => "off",
        AddressMatching::Tor => "tor",
        AddressMatching::Na4 => "na4",
        AddressMatching::Napot => "napot",
    }
}

#[tactic(auto, using(crate::proofs::RunLines::text_of_perms))]
fn add_entry<R: RowSink>(
    out: &mut R,
    registers: &Registers<'_>,
    entry: u8,
    since: Since,
) -> Result<(), NoMemory>
    requires { entry < length registers.now.entries }
    ensures span { IsSpan registers.now entry (span_of registers.now entry) }
    ensures ok { OnOk result
        (R.Adds (entry_row registers.now entry (span_of registers.now entry) since ∷ []) out.old out.new) }
    ensures err { OnErr result (R.Adds [] out.old out.new) }
{
    let index = usize::from(entry);
    let (first, last) = end_cells(registers.span(index));
    let rights = ModeRights::of_owner(registers, Some(entry));
    let cells = [
        Cell::Number(u64::from(entry)),
        Cell::Word(matching_word(registers.matching(index))),
        first,
        last,
        Cell::Rights(rights.machine),
        Cell::Rights(rights.others),
        Cell::Word(lock_word(registers.lock(index))),
        Cell::Word(address_word(registers.is_address_frozen(index))),
        Cell::number(since.frozen),
        Cell::number(since.held),
    ];
    out.add(RowKind::Entry, &cells)
}

/// Adds a row for each entry, or for some.
fn add_all<R: RowSink>(out: &mut R, file: &RegFile, since: &[Since]) -> Result<(), NoMemory>
    requires { length file.now.entries ≤ length since.now }
    ensures ok { OnOk result ((rows : List RowValue) × AreEntryRows file.now since.now rows × R.Adds rows out.old out.new) }
    ensures err { OnErr result ((rows : List RowValue) × R.Adds rows out.old out.new) }
{
    let registers = file.registers();
    for entry in 0..file.entries() {
        add_entry(out, &registers, entry, since[usize::from(entry)])?;
    }
    Ok(())
}

/// Adds a row for each entry: its number, how its address register is read, the ends of the bytes that it matches, or
/// dashes, what its rule gives M-mode, and S-mode and U-mode, its locks, and the numbers in `since`, if any.
///
/// LOCK is `frozen` if writes leave the entry as it is, and `bypassed` if they would without RLB; ADDRESS is `frozen`
/// if they leave its address register as it is.
#[inline(never)]
pub fn add_entries<R: RowSink>(out: &mut R, file: &RegFile, since: &[Since]) -> Result<(), NoMemory>
    requires { length file.now.entries ≤ length since.now }
    ensures ok { OnOk result ((rows : List RowValue) × AreEntryRows file.now since.now rows × R.Adds rows out.old out.new) }
    ensures err { OnErr result (R.Adds [] out.old out.new) }
{
    let before = out.position();
    let added = add_all(out, file, since);
    if added.is_err() {
        out.go_back(before);
    }
    added
}
