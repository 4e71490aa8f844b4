//! The rows that say what each event of a script does to a register.

ghost use Rattle.std.specs.Prelude.{◌≡◌, ◌∷◌, [], if◌then◌else◌, codes, IfOk, OnOk, OnErr, Some, map};
ghost use Rattle.pmp_core.specs.declared.event.Event.TheVariants as event;
ghost use Rattle.pmp_core.specs.RegisterFile.{RegisterFile};
ghost use Rattle.pmp_core.specs.RegisterWrite.{step, written};
ghost use Rattle.pmp_text.specs.Cells.{Number, Word, cell_value};
ghost use Rattle.pmp_text.specs.Effects.{effect_row, effect_text, entries_text, reason_text, reasons_text};
ghost use Rattle.pmp_text.specs.Hexadecimal.{value_text};

use crate::lines::cell::Cell;
use crate::lines::row_kind::RowKind;
use crate::lines::row_sink::RowSink;
use crate::lines::{LINE, NoMemory, WORD, text_of};
use crate::names::RegisterName;
use pmp_core::{Csr, Event, RegFile, Registers, WriteReason};
use std::fmt;

/// The position of an event in a script.
#[derive(Clone, Copy)]
pub struct EventPlace {
    /// The number of the event among all, from 1.
    pub number: u64,
    /// The number of its publication, from 1.
    pub publication: u64,
    /// The number of its line, from 1.
    pub line: u64,
}

fn effect_word(value: u64, before: u64, after: u64) -> &'static str
    ensures { result.now ≡ effect_text value before after }
{
    if after == value {
        "stored"
    } else if after == before {
        "ignored"
    } else {
        "altered"
    }
}

/// Returns the word of a reason, as rows write it.
pub fn reason_word(reason: WriteReason) -> &'static str
    ensures { result.now ≡ reason_text reason }
{
    match reason {
        WriteReason::Absent => "absent",
        WriteReason::Bits => "bits",
        WriteReason::Frozen => "frozen",
        WriteReason::Tor => "tor",
        WriteReason::Reserved => "reserved",
        WriteReason::Lockdown => "lockdown",
        WriteReason::Sticky => "sticky",
        WriteReason::Bypass => "bypass",
        WriteReason::Grain => "grain",
    }
}

/// Returns what separates a word from the previous one.
fn space_unless(is_first: bool) -> &'static str
    ensures { result.now ≡ (if is_first then [] else codes " ") }
{
    if is_first { "" } else { " " }
}

/// What is written to a register.
#[derive(Clone, Copy)]
struct Write<'a> {
    registers: &'a Registers<'a>,
    csr: Csr,
    value: u64,
}

/// The reasons why the register doesn't read the value, separated by one space.
#[derive(Clone, Copy)]
struct Reasons<'a>(Write<'a>);

impl<'a> fmt::Display for Reasons<'a> {
    ghost output = { λ it. Some (reasons_text it.0.registers.now it.0.csr it.0.value) };

    fn fmt<W: fmt::Write>(&self, f: &mut fmt::Formatter<W>) -> fmt::Result {
        let write = self.0;
        let mut is_first = true;
        for reason in WriteReason::ALL {
            if write.registers.is_reason(reason, write.csr, write.value) {
                let space = space_unless(is_first);
                let word = reason_word(reason);
                write!(f, "{space}{word}")?;
                is_first = false;
            }
        }
        Ok(())
    }
}

/// The entries that reject the value, separated by one space.
#[derive(Clone, Copy)]
struct Entries<'a>(Write<'a>);

impl<'a> fmt::Display for Entries<'a> {
    ghost output = { λ it. Some (entries_text it.0.registers.now it.0.csr it.0.value) };

    fn fmt<W: fmt::Write>(&self, f: &mut fmt::Formatter<W>) -> fmt::Result {
        let write = self.0;
        let mut is_first = true;
        for entry in 0..write.registers.count() {
            if write.registers.has_reason(write.csr, write.value, entry) {
                let space = space_unless(is_first);
                write!(f, "{space}{entry}")?;
                is_first = false;
            }
        }
        Ok(())
    }
}

/// What a write did to its register.
#[derive(Clone, Copy)]
struct Effect<'a> {
    name: &'a [u8],
    value: u64,
    before: u64,
    after: u64,
    reasons: &'a [u8],
    entries: &'a [u8],
}

/// Returns the numbers of an event, the register, what is written, what the register reads before and after, the effect,
/// the reasons, and the entries that have one.
fn effect_cells<'a>(place: &EventPlace, effect: Effect<'a>) -> [Cell<&'a [u8]>; 10]
    ensures { map (cell_value (λ text. text.now)) result ≡ Number place.now.number ∷ Number place.now.publication
        ∷ Number place.now.line ∷ Word effect.entry.name.now ∷ Word (value_text effect.entry.value)
        ∷ Word (value_text effect.entry.before) ∷ Word (value_text effect.entry.after)
        ∷ Word (effect_text effect.entry.value effect.entry.before effect.entry.after)
        ∷ Word effect.entry.reasons.now ∷ Word effect.entry.entries.now ∷ [] }
{
    let word = effect_word(effect.value, effect.before, effect.after);
    [
        Cell::Number(place.number),
        Cell::Number(place.publication),
        Cell::Number(place.line),
        Cell::Plain(effect.name),
        Cell::Value(effect.value),
        Cell::Value(effect.before),
        Cell::Value(effect.after),
        Cell::Word(word),
        Cell::Plain(effect.reasons),
        Cell::Plain(effect.entries),
    ]
}

/// Adds the row of a write that meets the one file and leaves the other.
fn add_write<R: RowSink>(
    out: &mut R,
    place: &EventPlace,
    write: Write<'_>,
    next: &RegFile,
) -> Result<(), NoMemory>
    requires { next.now ≡ written write.registers.now write.csr write.value }
    ensures ok { OnOk result (R.Adds (effect_row place.now write.entry.registers.now
        (event.Write write.entry.csr write.entry.value) ∷ []) out.old out.new) }
    ensures err { OnErr result (R.Adds [] out.old out.new) }
{
    let name = text_of::<WORD, _>(RegisterName(write.csr))?;
    let reasons = text_of::<LINE, _>(Reasons(write))?;
    let entries = text_of::<LINE, _>(Entries(write))?;
    let effect = Effect {
        name: name.as_str().as_bytes(),
        value: write.value,
        before: write.registers.read(write.csr),
        after: next.read(write.csr),
        reasons: reasons.as_str().as_bytes(),
        entries: entries.as_str().as_bytes(),
    };
    out.add(RowKind::Effect, &effect_cells(place, effect))
}

/// Adds the row of a reset.
fn add_reset<R: RowSink>(out: &mut R, place: &EventPlace) -> Result<(), NoMemory>
    ensures ok { (file : RegisterFile) → OnOk result (R.Adds (effect_row place.now file event.Reset ∷ []) out.old out.new) }
    ensures err { OnErr result (R.Adds [] out.old out.new) }
{
    let cells = [
        Cell::Number(place.number),
        Cell::Number(place.publication),
        Cell::Number(place.line),
        Cell::Word("reset"),
        Cell::Nothing,
        Cell::Nothing,
        Cell::Nothing,
        Cell::Word("reset"),
        Cell::Nothing,
        Cell::Nothing,
    ];
    out.add(RowKind::Effect, &cells)
}

/// Adds the row of an event that meets the one file and leaves the other.
fn add_event<R: RowSink>(
    out: &mut R,
    place: &EventPlace,
    file: &RegFile,
    event: Event,
    next: &RegFile,
) -> Result<(), NoMemory>
    requires { next.now ≡ step file.now event }
    ensures ok { OnOk result (R.Adds (effect_row place.now file.now event ∷ []) out.old out.new) }
    ensures err { OnErr result (R.Adds [] out.old out.new) }
{
    match event {
        Event::Write(csr, value) => {
            let registers = &file.registers();
            let write = Write {
                registers,
                csr,
                value,
            };
            add_write(out, place, write, next)
        }
        Event::Reset => add_reset(out, place),
    }
}

/// Adds the row of an event that meets this register file: its numbers, and of a write the register, what is written,
/// what the register reads before and after, the effect, the reasons, and the entries that have one. The effect is
/// `stored` if the register then reads what was written, `ignored` if it reads what it read before, and otherwise
/// `altered`. A reset has `reset` for the register and the effect. Returns the file that the event leaves.
pub fn add_effect<R: RowSink>(
    out: &mut R,
    place: &EventPlace,
    file: &RegFile,
    event: Event,
) -> Result<RegFile, NoMemory>
    ensures ok { OnOk result (R.Adds (effect_row place.now file.now event ∷ []) out.old out.new) }
    ensures next { IfOk result (λ next. next ≡ step file.now event) }
    ensures err { OnErr result (R.Adds [] out.old out.new) }
{
    let mut next = *file;
    next.step(event);
    add_event(out, place, file, event, &next)?;
    Ok(next)
}
