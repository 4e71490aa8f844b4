//! A finding, and its row.

ghost use Rattle.std.specs.Prelude.{◌≡◌, ◌∷◌, [], OnErr, OnOk};
ghost use Rattle.pmp_text.specs.Cells.{cell_value};
ghost use Rattle.pmp_lint.specs.Findings.{about_entry, about_script, finding_row, first_value, last_value, modes_text};

use crate::lint::Lint;
use pmp_core::Span;
use pmp_text::{Cell, Modes, NoMemory, RowKind, RowSink};

/// What was found in a script.
#[derive(Clone, Copy, Debug, PartialEq, Eq)]
pub struct Finding {
    pub lint: Lint,
    /// The line of the write that it is about: the last one that changed the entry or the bit. 0 if none did.
    pub line: u64,
    /// The entry that it is about, if any.
    pub entry: Option<u8>,
    /// The bytes that it is about, if any.
    pub bytes: Option<Span>,
    /// The modes that it is about.
    pub modes: Modes,
}

/// No mode.
pub const NO_MODES: Modes = Modes {
    machine: false,
    supervisor: false,
    user: false,
};

impl Finding {
    /// Returns a finding about the script as a whole.
    pub(crate) fn about_script(lint: Lint, line: u64) -> Finding
        ensures { result ≡ about_script lint line }
    {
        Finding {
            lint,
            line,
            entry: None,
            bytes: None,
            modes: NO_MODES,
        }
    }

    /// Returns a finding about an entry, perhaps with bytes.
    pub(crate) fn about_entry(lint: Lint, line: u64, entry: u8, bytes: Option<Span>) -> Finding
        ensures { result ≡ about_entry lint line entry bytes }
    {
        Finding {
            lint,
            line,
            entry: Some(entry),
            bytes,
            modes: NO_MODES,
        }
    }
}

/// Returns the first and the last of some bytes, or nothing.
pub fn end_cells<'a>(bytes: Option<Span>) -> (Cell<&'a [u8]>, Cell<&'a [u8]>)
    ensures first { cell_value (λ text. text.now) result.0 ≡ first_value bytes }
    ensures last { cell_value (λ text. text.now) result.1 ≡ last_value bytes }
{
    match bytes {
        Some(span) => (Cell::Address(span.first), Cell::Address(span.last)),
        None => (Cell::Nothing, Cell::Nothing),
    }
}

/// Returns a letter for each mode.
fn modes_word(modes: Modes) -> &'static str
    ensures { result.now ≡ modes_text modes }
{
    match (modes.machine, modes.supervisor, modes.user) {
        (false, false, false) => "",
        (false, false, true) => "U",
        (false, true, false) => "S",
        (false, true, true) => "SU",
        (true, false, false) => "M",
        (true, false, true) => "MU",
        (true, true, false) => "MS",
        (true, true, true) => "MSU",
    }
}

/// Adds a finding's row: the number and the name of its lint, the line, the entry, the first and the last byte, and the
/// modes.
pub fn add_finding<R: RowSink>(out: &mut R, finding: Finding) -> Result<(), NoMemory>
    ensures ok { OnOk result (R.Adds (finding_row finding ∷ []) out.old out.new) }
    ensures err { OnErr result (R.Adds [] out.old out.new) }
{
    let (first, last) = end_cells(finding.bytes);
    let cells = [
        Cell::Number(u64::from(finding.lint.number())),
        Cell::Word(finding.lint.name()),
        Cell::Number(finding.line),
        Cell::number(finding.entry.map(u64::from)),
        first,
        last,
        Cell::Word(modes_word(finding.modes)),
    ];
    out.add(RowKind::Finding, &cells)
}
