//! The answers to one access at every moment of a script.

ghost use Rattle.std.specs.Prelude.{[], OnErr, OnOk};
ghost use Rattle.pmp_text.specs.Cells.{AddsSome};
ghost use Rattle.pmp_lint.specs.WhyRows.{HistorySays};

use crate::because::is_same;
use pmp_core::{Access, Decision};
use pmp_text::{NoMemory, ReadScript, RowSink, add_answer};

/// Consecutive moments at which an access is decided alike. A moment is a number of publications done.
#[derive(Clone, Copy, Debug, PartialEq, Eq)]
pub struct AnswerRun {
    pub first: u64,
    pub last: u64,
    pub decision: Decision,
}

/// Adds the rows of all moments, or a part of them.
fn add_runs<R: RowSink>(
    out: &mut R,
    script: &ReadScript<'_>,
    access: &Access,
) -> Result<(), NoMemory>
    ensures ok { OnOk result (HistorySays R.Adds script.now access.now out.old out.new) }
    ensures err { OnErr result (AddsSome R.Adds out.old out.new) }
{
    let mut file = script.start();
    let mut run = AnswerRun {
        first: 0,
        last: 0,
        decision: file.decide(access),
    };
    for index in 0..script.batches() {
        file.run_events(script.batch(index));
        let decision = file.decide(access);
        if is_same(&decision, &run.decision) {
            run.last = index + 1;
        } else {
            add_answer(out, run.first, access, &run.decision)?;
            run = AnswerRun {
                first: index + 1,
                last: index + 1,
                decision,
            };
        }
    }
    add_answer(out, run.first, access, &run.decision)
}

/// Adds a row for each longest series of moments at which the access is decided alike, whose number is the first of these
/// moments.
pub fn add_history<R: RowSink>(
    out: &mut R,
    script: &ReadScript<'_>,
    access: &Access,
) -> Result<(), NoMemory>
    ensures ok { OnOk result (HistorySays R.Adds script.now access.now out.old out.new) }
    ensures err { OnErr result (R.Adds [] out.old out.new) }
{
    let before = out.position();
    let added = add_runs(out, script, access);
    if added.is_err() {
        out.go_back(before);
    }
    added
}
