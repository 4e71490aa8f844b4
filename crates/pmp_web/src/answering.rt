//! How an answer is written to its room, and its status returned.

ghost use Rattle.std.specs.Prelude.{◌≡◌, ◌≤◌, ◌++◌, IfErr, IfOk, OnOk, map};
ghost use Rattle.pmp_audit.specs.Answers.{Declines, IsAppended};
ghost use Rattle.pmp_web.specs.Answers.{CountSays, IsRefused, IsUnasked, line_in, line_of, name_lines, side_number};
ghost use Rattle.pmp_text.specs.Columns.{column_value, columns};
ghost use Rattle.pmp_audit.specs.AskedFile.{ScriptRefuses};
ghost use Rattle.pmp_text.specs.Outcomes.{no_memory};

use crate::rooms::Answer;
use itoa::Buffer;
use pmp_import::Options;
use pmp_text::{
    Column, Fault, FixedLog, NoMemory, Place, Refusal, RowKind, Sink, Source, read_script_in,
};

/// The greatest number of events in a script.
const EVENTS: usize = 1 << 14;

/// The greatest number of publications in a script.
const PUBLICATIONS: usize = 1 << 12;

/// The greatest number of a script's expectations of registers.
const EXPECTATIONS: usize = 1 << 12;

/// The greatest number of moments that a script may name.
const MARKS: usize = 1 << 8;

/// The status of an answer.
pub const ANSWERED: u32 = 0;

/// The number added to that of a refusal of the new one of two scripts.
const OF_NEW: u32 = 256;

/// The options for the script of a log: all is guessed, and the hart has Smepmp.
pub const GUESSED: Options = Options {
    hart: None,
    is_rv32: None,
    entries: None,
    grain: None,
    bits: None,
    has_smepmp: true,
    bursts: false,
};

/// The room of a script's events.
pub type Log = FixedLog<EVENTS, PUBLICATIONS, EXPECTATIONS, MARKS>;

/// Writes an answer to its room, emptied before, and returns the status of it or of the refusal.
macro_rules! tell {
    ($answer:ident, $made:expr) => {{
        $answer.clear();
        match $made {
            Ok(_) => {
                $answer.line = 0;
                ANSWERED
            }
            Err(fault) => refuse($answer, fault, side_number(fault.place)),
        }
    }};
}

pub(crate) use tell;

/// Returns the status of a refusal, its number and this one, which leaves no text in the room.
pub fn refuse(answer: &mut Answer, fault: Fault, added: u32) -> u32
    requires { added ≤ 256 }
    ensures { IsRefused added fault result answer.new }
{
    answer.clear();
    answer.line = line_of(fault.place);
    added + u32::from(fault.refusal.number())
}

/// Returns what is added to the number of a refusal.
pub fn side_number(place: Place) -> u32
    ensures is { result ≡ side_number place }
    ensures most { result ≤ 256 }
{
    match place {
        Place::In {
            source: Source::New,
            ..
        } => OF_NEW,
        _ => 0,
    }
}

/// Returns the line of a script or a log, or the row of a plan, or 0.
fn line_in(source: Source, number: u64) -> u64
    ensures { result ≡ line_in source number }
{
    match source {
        Source::Trace | Source::Policy => 0,
        _ => number,
    }
}

fn line_of(place: Place) -> u64
    ensures { result ≡ line_of place }
{
    match place {
        Place::In { source, number, .. } => line_in(source, number),
        place => place.number(),
    }
}

/// Returns the status of a question whose numbers name nothing.
pub fn refuse_question(answer: &mut Answer, refusal: Refusal) -> u32
    ensures { IsUnasked refusal result answer.new }
{
    answer.clear();
    u32::from(refusal.number())
}

/// Appends how many publications the script has.
pub fn append_count<S: Sink>(script: &[u8], out: &mut S) -> Result<(), Fault>
    ensures ok { IfOk result (IsAppended (λ _. CountSays script.now) (S.text out.old) (S.text out.new)) }
    ensures err { IfErr result (Declines (ScriptRefuses script.now)) }
{
    let mut log = Log::new();
    let script = read_script_in(&mut log, script)?;
    out.append(Buffer::new().format(script.batches()).as_bytes())?;
    Ok(())
}

/// Appends the names of columns, a line each, or some of them.
fn append_names<S: Sink>(columns: &[Column], out: &mut S) -> Result<(), NoMemory>
    ensures { OnOk result (S.text out.new ≡ S.text out.old ++ name_lines (map column_value columns.now)) }
{
    for column in columns {
        out.append(column.name().as_bytes())?;
        out.append(b"\n")?;
    }
    Ok(())
}

/// Appends the names of the columns of such rows, a line each, or some of them.
pub fn append_columns<S: Sink>(kind: RowKind, out: &mut S) -> Result<(), Fault>
    ensures ok { OnOk result (S.text out.new ≡ S.text out.old ++ name_lines (columns kind)) }
    ensures err { IfErr result (λ fault. fault ≡ no_memory) }
{
    append_names(kind.columns(), out)?;
    Ok(())
}
