//! Lines that are appended to an output.

ghost use Rattle.std.specs.Prelude.{◌≡◌, ◌++◌, ◌<◌, ◌^◌, IfOk, IfSome, OnErr, OnOk};

mod answer;
mod cell;
mod changes;
mod columns;
mod csv_rows;
mod effects;
mod entries;
mod expected;
mod field;
mod hexadecimal;
mod marks;
mod picture;
pub(crate) mod registers;
mod report;
mod row_kind;
mod row_sink;
mod runs;
mod script;
mod since;
mod verdict;

use crate::sink::Sink;
pub use answer::{add_answer, answer_cells, deciding_entry};
use arrayvec::ArrayString;
pub use cell::Cell;
pub use changes::{Change, Only, add_change};
pub use csv_rows::append_row;
pub use effects::{EventPlace, add_effect, reason_word};
pub use entries::{add_entries, lock_word, matching_word};
pub use expected::add_expected;
pub use hexadecimal::ADDRESS_DIGITS;
pub use picture::{Drawing, write_picture};
pub use registers::write_registers;
pub use report::write_row;
pub use row_kind::{Column, RowKind, cell_under};
pub use row_sink::{AnswerRow, RowSink};
pub use runs::{add_runs, write_runs};
pub use script::write_script;
pub use since::Since;
pub use verdict::{Breach, Verdict, add_verdict};
/// There is no room for more of a text: the error of the calls that append texts.
pub use std::alloc::AllocError as NoMemory;
use std::alloc::AllocError;
use std::fmt::{Display, Write};

/// The greatest length of a line in bytes. No line that this crate writes is longer than some four hundred bytes; a
/// longer one would find no room.
const LINE: usize = 512;

/// The greatest length of a register's name in bytes.
const WORD: usize = 16;

/// Appends a line, or nothing.
pub fn append_line<S: Sink, L: Display + Drop>(out: &mut S, line: L) -> Result<(), AllocError>
    ensures ok { OnOk result (IfSome (L.output line) (λ text. S.text out.new ≡ S.text out.old ++ text)) }
    ensures err { OnErr result (S.text out.new ≡ S.text out.old) }
{
    append_text::<LINE, S, L>(out, line)
}

/// Appends a text of at most `MOST` bytes, or nothing.
fn append_text<const MOST: usize, S: Sink, L: Display + Drop>(
    out: &mut S,
    text: L,
) -> Result<(), AllocError>
    requires { MOST < 2 ^ 16 }
    ensures ok { OnOk result (IfSome (L.output text) (λ bytes. S.text out.new ≡ S.text out.old ++ bytes)) }
    ensures err { OnErr result (S.text out.new ≡ S.text out.old) }
{
    let text = text_of::<MOST, L>(text)?;
    out.append(text.as_str().as_bytes())
}

/// Returns the text by itself.
pub fn text_of<const MOST: usize, L: Display + Drop>(
    text: L,
) -> Result<ArrayString<MOST>, AllocError>
    requires { MOST < 2 ^ 16 }
    ensures { IfOk result (λ written. IfSome (L.output text) (λ bytes. written.bytes ≡ bytes)) }
{
    let mut written = ArrayString::new();
    match written.write(text) {
        Ok(()) => Ok(written),
        Err(_) => Err(AllocError),
    }
}
