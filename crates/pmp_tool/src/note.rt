//! The line beside an answer that reports a guess, or what may not be as its writer meant it.

ghost use Rattle.std.specs.Prelude.{Some, OnErr, OnOk};
ghost use Rattle.std.specs.Io.KnownBytes.{Appends};
ghost use Rattle.pmp_text.specs.Bytes.{AppendsBeginning};
ghost use Rattle.pmp_tool.specs.LineLengths.{NoteFitsLaw};
ghost use Rattle.pmp_tool.specs.Notes.{Notes, left_text, note_line, note_text};

use crate::outcome::Outcome;
use arrayvec::ArrayString;
use pmp_text::{OutputFault, write_out};
use std::fmt;
use std::fmt::Write as TextWrite;
use std::io::Write;

/// What an import has guessed, that a policy has no rows, or where an address has 14 digits and no `0x`, as rows write
/// one in hexadecimal: it is read as decimal.
#[derive(Clone, Copy)]
pub enum Note {
    /// The word START.
    Start,
    /// A row of the trace, from 1, the first one.
    TraceRow(u64),
    /// A row of the policy, from 1, the first one.
    PolicyRow(u64),
    /// A policy has no rows.
    NoRows,
    /// The hart of a log that was read twice, how many entries it has, and how many writes other harts have.
    Guessed(u64, u64, u64),
    /// The hart of a log that was read once, and how many entries it has.
    Taken(u64, u64),
    /// The number of scripts that were written to a folder, one for each hart.
    Scripts(u64),
}

/// What the note says about it.
const AS_DECIMAL: &str =
    "14 digits without 0x are read as decimal; write 0x before a hexadecimal address";

/// More than the greatest length of a note in bytes: a number has 20 digits.
const LONGEST_NOTE: usize = 160;

fn law_note_fits()
    ensures { NoteFitsLaw }
{}

/// Writes the note of an answer, if there is one, in one write if the writer takes it whole.
pub fn tell_note<W: Write>(outcome: Outcome, writer: &mut W)
    ensures { Notes outcome (W.contents writer.old) (W.contents writer.new) }
{
    if let Some(note) = outcome.note() {
        let _ = note.write_to(writer);
    }
}

impl Note {
    fn write_to<W: Write>(self, writer: &mut W) -> Result<(), OutputFault>
        ensures ok { OnOk result (Appends (W.contents writer.old) (W.contents writer.new) (note_line self)) }
        ensures err { OnErr result (AppendsBeginning (W.contents writer.old) (W.contents writer.new) (note_line self)) }
    {
        law_note_fits();
        let mut line = ArrayString::<LONGEST_NOTE>::new();
        writeln!(line, "pmp: note: {self}").map_err(|_| OutputFault)?;
        write_out(writer, line.as_str().as_bytes())
    }
}

/// How many writes of other harts a script leaves out, if there are any.
#[derive(Clone, Copy)]
struct LeftOut(u64);

impl fmt::Display for LeftOut {
    ghost output = { λ left. Some (left_text left.0) };

    fn fmt<W: fmt::Write>(&self, f: &mut fmt::Formatter<W>) -> fmt::Result {
        match self.0 {
            0 => Ok(()),
            left => write!(f, "; writes of other harts left out: {left}"),
        }
    }
}

/// Shows the text of the note.
impl fmt::Display for Note {
    ghost output = { λ note. Some (note_text note) };

    fn fmt<W: fmt::Write>(&self, f: &mut fmt::Formatter<W>) -> fmt::Result {
        match *self {
            Note::Start => write!(f, "START: {AS_DECIMAL}"),
            Note::TraceRow(row) => write!(f, "trace row {row}: {AS_DECIMAL}"),
            Note::PolicyRow(row) => write!(f, "policy row {row}: {AS_DECIMAL}"),
            Note::NoRows => write!(f, "the policy has no rows"),
            Note::Guessed(hart, entries, left) => {
                let left = LeftOut(left);
                write!(f, "hart {hart}, {entries} entries{left}")
            }
            Note::Taken(hart, entries) => {
                write!(
                    f,
                    "hart {hart}, {entries} entries, since the log is read once"
                )
            }
            Note::Scripts(count) => write!(f, "scripts written: {count}"),
        }
    }
}
