//! The first address at which a state of the register file breaks a row of a policy.

ghost use Rattle.pmp_audit.specs.PolicyCheck.{IsFirstOf};
ghost use Rattle.pmp_audit.specs.PolicyQuestions.{IsYes};

use crate::policy_check::question::Question;
use pmp_core::RegFile;
use pmp_map::{Run, run_around};
use pmp_text::PolicyRow;

/// Returns the first run in the row's range for which the answer is yes, cut to the range.
pub fn first_run(file: &RegFile, row: &PolicyRow, question: Question) -> Option<Run>
    ensures { IsFirstOf file.now (IsYes question file.now row.now) row.now result }
{
    let registers = file.registers();
    let mut first = row.first;
    while first <= row.last {
        let run = run_around(&registers, first);
        if question.is_yes(&registers, run.owner, row) {
            return Some(Run {
                first,
                last: run.last.min(row.last),
                owner: run.owner,
            });
        }
        first = run.last + 1;
    }
    None
}
