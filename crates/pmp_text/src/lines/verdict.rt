//! The rows of a policy's answer.

ghost use Rattle.std.specs.Prelude.{◌≡◌, ◌∷◌, [], OnErr, OnOk, Some, map, option_copied, option_map};
ghost use Rattle.pmp_text.specs.Cells.{Number, cell_value, verdict_text};
ghost use Rattle.pmp_text.specs.Labels.{label_text};
ghost use Rattle.pmp_text.specs.Verdicts.{is_breach, verdict_cells, verdict_row};

use crate::lines::NoMemory;
use crate::lines::cell::Cell;
use crate::lines::row_kind::RowKind;
use crate::lines::row_sink::RowSink;
use crate::lines::runs::owner_cell;
use crate::policy::Label;
use pmp_map::Run;

/// A breach: where a row of a policy doesn't hold.
#[derive(Clone, Copy, Debug, PartialEq, Eq)]
pub struct Breach {
    /// How many publications were done, or events if the demand counts these.
    pub done: u64,
    /// The bytes for which it doesn't hold, and the entry that decides them.
    pub run: Run,
}

/// The verdict on a row of a policy.
#[derive(Clone, Copy, Debug, PartialEq, Eq)]
pub enum Verdict {
    Holds,
    /// Its first breach, in time and then in address.
    Broken(Breach),
    /// The moments that it names don't come, and whether it allows that.
    Unmet(bool),
}

impl Verdict {
    /// Whether it means that the policy doesn't hold.
    pub fn is_breach(self) -> bool
        ensures { result ≡ is_breach self }
    {
        match self {
            Verdict::Holds => false,
            Verdict::Broken(_) => true,
            Verdict::Unmet(is_waived) => !is_waived,
        }
    }

    /// Returns it as rows write it.
    pub fn word(self) -> &'static str
        ensures { result.now ≡ verdict_text self }
    {
        match self {
            Verdict::Holds => "holds",
            Verdict::Broken(_) => "broken",
            Verdict::Unmet(_) => "unmet",
        }
    }
}

/// Returns the number, the verdict, and if it is broken, after how much was done, for which bytes, and by which entry.
fn verdict_cells<'a>(number: u64, verdict: Verdict) -> [Cell<&'a [u8]>; 6]
    ensures { map (cell_value (λ text. text.now)) result ≡ Number number ∷ verdict_cells verdict }
{
    let number = Cell::Number(number);
    let word = Cell::Verdict(verdict);
    match verdict {
        Verdict::Broken(Breach { done, run }) => [
            number,
            word,
            Cell::Number(done),
            Cell::Address(run.first),
            Cell::Address(run.last),
            owner_cell(run.owner),
        ],
        _ => [
            number,
            word,
            Cell::Nothing,
            Cell::Nothing,
            Cell::Nothing,
            Cell::Nothing,
        ],
    }
}

/// Returns the same, and the name and the comment.
fn labeled_cells<'a>(number: u64, verdict: Verdict, label: &'a Label) -> [Cell<&'a [u8]>; 8]
    ensures { map (cell_value (λ text. text.now)) result ≡ (verdict_row number verdict (Some (label_text label.now))).cells }
{
    let [number, word, done, first, last, owner] = verdict_cells(number, verdict);
    let (name, comment) = (label.name.as_slice(), label.comment.as_slice());
    [
        number,
        word,
        done,
        first,
        last,
        owner,
        Cell::Text(name),
        Cell::Text(comment),
    ]
}

/// Adds the answer row for the policy row with this number, with its name and comment if it has them: whether it holds,
/// and if not, its first breach.
pub fn add_verdict<R: RowSink>(
    out: &mut R,
    number: u64,
    verdict: Verdict,
    label: Option<&Label>,
) -> Result<(), NoMemory>
    ensures ok { OnOk result (R.Adds (verdict_row number verdict (option_map label_text (option_copied label.entry)) ∷ [])
        out.old out.new) }
    ensures err { OnErr result (R.Adds [] out.old out.new) }
{
    match label {
        Some(label) => out.add(
            RowKind::LabeledVerdict,
            &labeled_cells(number, verdict, label),
        ),
        None => out.add(RowKind::Verdict, &verdict_cells(number, verdict)),
    }
}
