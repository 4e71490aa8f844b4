//! The rows for what a script expects of registers.

ghost use Rattle.std.specs.Prelude.{◌≡◌, ◌∷◌, [], OnErr, OnOk};
ghost use Rattle.pmp_text.specs.Expected.{expected_row, expected_text};

use crate::expectation::Expectation;
use crate::lines::cell::Cell;
use crate::lines::row_kind::RowKind;
use crate::lines::row_sink::RowSink;
use crate::lines::{NoMemory, WORD, text_of};
use crate::names::RegisterName;

fn expected_word(expected: u64, value: u64) -> &'static str
    ensures { result.now ≡ expected_text expected value }
{
    if value == expected {
        "expected"
    } else {
        "differs"
    }
}

/// Adds the row for what is expected of a register that reads this value, under an event's columns: its line, the
/// register, what is expected, what the register reads, and `expected` or `differs`.
pub fn add_expected<R: RowSink>(
    out: &mut R,
    expectation: &Expectation,
    value: u64,
) -> Result<(), NoMemory>
    ensures ok { OnOk result (R.Adds (expected_row expectation.now value ∷ []) out.old out.new) }
    ensures err { OnErr result (R.Adds [] out.old out.new) }
{
    let name = text_of::<WORD, _>(RegisterName(expectation.register))?;
    let nothing = Cell::Nothing;
    let cells = [
        nothing,
        nothing,
        Cell::Number(expectation.line),
        Cell::Plain(name.as_bytes()),
        Cell::Value(expectation.value),
        nothing,
        Cell::Value(value),
        Cell::Word(expected_word(expectation.value, value)),
        nothing,
        nothing,
    ];
    out.add(RowKind::Effect, &cells)
}
