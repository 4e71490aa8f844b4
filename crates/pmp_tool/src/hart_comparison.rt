//! The harts of a folder compared with its first one.

ghost use Rattle.std.specs.Prelude.{◌≡◌, IfErr, IfOk, true};
ghost use Rattle.pmp_text.specs.MetNames.{given_names};
ghost use Rattle.pmp_tool.specs.HartComparisons.{ComparisonFails, ComparisonSays};
ghost use Rattle.pmp_names.specs.HartLists.{names_of};
ghost use Rattle.pmp_tool.specs.Harts.{IsOfHarts};
ghost use Rattle.pmp_tool.specs.NumberedInputs.{paths_for};

use crate::failure::Failure;
use crate::hart_answers::{answer_harts, path_on};
use crate::harts::{Harts, harts_at};
use crate::inputs::Inputs;
use crate::outcome::Outcome;
use crate::questions::{Asking, script_at};
use crate::request::{Diff, Question};
use pmp_audit::AskedChanges;
use pmp_names::HartName;
use pmp_text::{AddressNames, AnswerRow, Refusal, Source};
use std::alloc::Global;

/// A comparison of the harts of a folder, and the names that addresses have, if they are given.
#[derive(Clone, Copy)]
pub struct Comparison<'a> {
    pub alloc: Global,
    pub names: Option<AddressNames<'a>>,
    pub folder: &'a str,
    pub has_locks: bool,
}

/// Compares each hart of a folder with the first one.
pub fn compare_harts<I: Inputs>(
    asked: Comparison<'_>,
    inputs: &mut I,
) -> Result<(Outcome, Vec<AnswerRow>), Failure>
    ensures ok { IfOk result (λ both. ComparisonSays (paths_for (given_names asked.entry.names) (I.paths inputs.old))
        asked.entry.folder.now asked.entry.has_locks (given_names asked.entry.names) both.0 both.1.items) }
    ensures err { IfErr result (ComparisonFails (paths_for (given_names asked.entry.names) (I.paths inputs.old))
        asked.entry.folder.now asked.entry.has_locks) }
    ensures paths { I.paths inputs.new ≡ I.paths inputs.old }
{
    let Some(names) = harts_at(asked.alloc, inputs, asked.folder, Source::Script)? else {
        script_at(inputs, asked.folder)?;
        return Err(Failure::from(Refusal::BadFolder));
    };
    compare_all(asked, names, inputs)
}

/// Compares each of these harts with the first one.
fn compare_all<I: Inputs>(
    asked: Comparison<'_>,
    names: Vec<HartName>,
    inputs: &mut I,
) -> Result<(Outcome, Vec<AnswerRow>), Failure>
    requires { IsOfHarts ((I.paths inputs.old).folders asked.folder.now) true (names_of names.items) }
    ensures ok { IfOk result (λ both. ComparisonSays (paths_for (given_names asked.entry.names) (I.paths inputs.old))
        asked.entry.folder.now asked.entry.has_locks (given_names asked.entry.names) both.0 both.1.items) }
    ensures err { IfErr result (ComparisonFails (paths_for (given_names asked.entry.names) (I.paths inputs.old))
        asked.entry.folder.now asked.entry.has_locks) }
    ensures paths { I.paths inputs.new ≡ I.paths inputs.old }
{
    let Some(first) = names.first() else {
        return Err(Failure::from(Refusal::BadFolder));
    };
    let path = path_on(asked.alloc, true, asked.folder, first.name.as_str())?;
    let asking = Asking {
        alloc: asked.alloc,
        names: asked.names,
        path: path.as_str(),
        question: Question::Diff(Diff {
            new: asked.folder,
            old_after: None,
            new_after: None,
            changes: AskedChanges {
                only: None,
                has_locks: asked.has_locks,
            },
        }),
    };
    let harts = Harts {
        old: false,
        new: true,
        names,
    };
    answer_harts(asking, &harts, inputs)
}
